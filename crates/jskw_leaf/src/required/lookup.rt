//! Which of the required names an object has. Sorted names are first compared with the members one by
//! one, which suffices if these come in the same order. If not, an object of at most `KEYS_PER_LOOKUP`
//! members for each name is walked over once, and in a larger one each name is looked up. The walk that
//! finds which names are missing is for at most 16 names.
ghost use Rattle.std.specs.Prelude.{◌≡◌, ◌<◌, ◌≤◌, ◌==◌, ◌^◌, [], IfSome, Some, IsTrue, is_some};
ghost use Rattle.std.specs.Prelude.{not, length, slice_get, slice_index_or, string_bytes, take, true};
ghost use Rattle.std.specs.Int.{bit_at};
ghost use Rattle.std.specs.List.{list_all};
ghost use Rattle.jskw_value.specs.Tree.{has_name, is_object};
ghost use Rattle.jskw_leaf.specs.Required.{is_among, MarksNames};

use super::names::Names;
use jskw_value::{Json, Object, is_same_name};

// The largest number of names for the walk that distinguishes them: it compares each member with
// every name, and marks a name by a bit.
const MAX_SCANNED_REQUIRED: usize = 16;

// Sorted names are not compared with more members than this for each name: lookups are faster.
const MEMBERS_A_NAME: usize = 16;

// Returns whether the object has all names. Walks over it if that is not slower than the lookups,
// which `KEYS_PER_LOOKUP` estimates.
#[inline(never)]
#[tactic(auto, using(crate::proofs::FoundNames::too_few))]
pub(crate) fn has_all<F: Json, L: Names<F>>(names: &L, object: &F::Node) -> bool
    requires { IsTrue (is_object (F.Node.tree object.now)) }
    ensures { result ≡ list_all (has_name (F.Node.tree object.now)) (L.names names.now) }
{
    let (count, members) = (names.len(), Object::len(object));
    if members < count {
        return false;
    }
    if members <= MEMBERS_A_NAME.saturating_mul(count)
        && let Some(answer) = has_all_in_order(names, object)
    {
        return answer;
    }
    if members <= F::KEYS_PER_LOOKUP.saturating_mul(count) {
        walk_finds_all(names, object)
    } else {
        lookups_find_all(names, object)
    }
}

// `has_all` by the sorted names. Returns `None` if the names are not kept sorted, or if the members
// come in another order and no name is known to be missing.
#[inline(always)]
#[tactic(auto, using(crate::proofs::FoundNames::all_in_table))]
fn has_all_in_order<F: Json, L: Names<F>>(names: &L, object: &F::Node) -> Option<bool>
    requires { IsTrue (is_object (F.Node.tree object.now)) }
    ensures { IfSome result (λ answer. answer
        ≡ list_all (has_name (F.Node.tree object.now)) (L.names names.now)) }
{
    match names.table() {
        Some(table) => has_sorted::<F>(table, object),
        None => None,
    }
}

// Returns whether the object has the names of the table, which are sorted by their bytes, or `None` if
// its members come in another order and no name is known to be missing.
#[inline(never)]
#[tactic(auto, using(crate::proofs::FoundNames::all_beside, crate::proofs::FoundNames::one_missing))]
fn has_sorted<F: Json>(table: &[String], object: &F::Node) -> Option<bool>
    requires { IsTrue (is_object (F.Node.tree object.now)) }
    ensures { IfSome result (λ answer. answer
        ≡ list_all (λ name. has_name (F.Node.tree object.now) (string_bytes name)) table.now) }
{
    let found = count_in_order::<F>(table, object);
    let Some(name) = table.get(found) else {
        return Some(true);
    };
    if object.find(name.as_str()).is_none() {
        return Some(false);
    }
    None
}

// Walks over the object once. Returns how many of the first names of the table it meets in their order.
#[inline(always)]
#[tactic(auto, using(crate::proofs::FoundNames::one_more, crate::proofs::FoundNames::own_names))]
fn count_in_order<F: Json>(table: &[String], object: &F::Node) -> usize
    requires { IsTrue (is_object (F.Node.tree object.now)) }
    ensures within { result ≤ length table.now }
    ensures found { list_all (λ name. has_name (F.Node.tree object.now) (string_bytes name))
        (take result table.now) ≡ true }
{
    let mut found = 0;
    for (name, _) in object.walk() {
        let Some(next) = table.get(found) else {
            return found;
        };
        if is_same_name(name, next.as_str()) {
            found += 1;
        }
    }
    found
}

// Counts the members whose names are required, until all names are found. The required names are
// distinct, and so are those of the members: none is counted twice.
#[tactic(auto, using(crate::proofs::FoundNames::found_at_most, crate::proofs::FoundNames::all_found, crate::proofs::FoundNames::not_all_found))]
fn walk_finds_all<F: Json, L: Names<F>>(names: &L, object: &F::Node) -> bool
    requires { IsTrue (is_object (F.Node.tree object.now)) }
    ensures { result ≡ list_all (has_name (F.Node.tree object.now)) (L.names names.now) }
{
    let count = names.len();
    let mut found = 0;
    for (text, _) in object.walk() {
        if names.contains(text) {
            found += 1;
            if found == count {
                return true;
            }
        }
    }
    found == count
}

// Looks each name up, until one is missing.
#[tactic(auto, using(crate::proofs::FoundNames::all_step, crate::proofs::FoundNames::all_end))]
fn lookups_find_all<F: Json, L: Names<F>>(names: &L, object: &F::Node) -> bool
    requires { IsTrue (is_object (F.Node.tree object.now)) }
    ensures { result ≡ list_all (has_name (F.Node.tree object.now)) (L.names names.now) }
{
    for i in 0..names.len() {
        if !names.at(i).is_in(object) {
            return false;
        }
    }
    true
}

// Returns the index of the text among the names.
#[tactic(auto, using(crate::proofs::NameMarks::place_hit, crate::proofs::NameMarks::place_miss, crate::proofs::NameMarks::place_end, crate::proofs::NameMarks::place_found))]
fn place_of<F: Json, L: Names<F>>(names: &L, text: &str) -> Option<usize>
    ensures place { IfSome result (λ i. (i < length (L.names names.now))
        × (slice_get (L.names names.now) i ≡ Some text.now)) }
    ensures found { is_some result ≡ is_among (L.names names.now) text.now }
{
    for i in 0..names.len() {
        if names.at(i).is(text) {
            return Some(i);
        }
    }
    None
}

// Returns the names that one walk finds, as a mask with a bit for the index of each, or `None` if
// the names are better looked up.
pub(crate) fn scanned<F: Json, L: Names<F>>(names: &L, object: &F::Node) -> Option<u32>
    requires { IsTrue (is_object (F.Node.tree object.now)) }
    ensures few { IfSome result (λ _. length (L.names names.now) ≤ 16) }
    ensures marks { IfSome result (λ found.
        MarksNames found (F.Node.tree object.now) (L.names names.now)) }
{
    let count = names.len();
    let most = F::KEYS_PER_LOOKUP.saturating_mul(count);
    if count <= MAX_SCANNED_REQUIRED && Object::len(object) <= most {
        Some(found_by_walk(names, object))
    } else {
        None
    }
}

// Returns whether the object lacks the name at the index. `found` is the result of [`scanned`] for
// these names and this object.
pub(crate) fn is_missing<F: Json, L: Names<F>>(
    names: &L,
    index: usize,
    found: Option<u32>,
    object: &F::Node,
) -> bool
    requires object { IsTrue (is_object (F.Node.tree object.now)) }
    requires index { index < length (L.names names.now) }
    requires few { IfSome found (λ _. length (L.names names.now) ≤ 16) }
    requires marks { IfSome found (λ found.
        MarksNames found (F.Node.tree object.now) (L.names names.now)) }
    ensures { result ≡ not (has_name (F.Node.tree object.now)
        (slice_index_or (L.names names.now) index [])) }
{
    match found {
        Some(found) => !has_bit(found, index),
        None => !names.at(index).is_in(object),
    }
}

// Marks the names that a walk finds. Stops once all are marked.
fn found_by_walk<F: Json, L: Names<F>>(names: &L, object: &F::Node) -> u32
    requires object { IsTrue (is_object (F.Node.tree object.now)) }
    requires few { length (L.names names.now) ≤ 16 }
    ensures { MarksNames result (F.Node.tree object.now) (L.names names.now) }
{
    let all = bit(names.len()) - 1;
    let mut found = 0;
    for (text, _) in object.walk() {
        if let Some(place) = place_of(names, text) {
            found |= bit(place);
            if found == all {
                return found;
            }
        }
    }
    found
}

// Returns the mask of the name at the index.
fn bit(place: usize) -> u32
    requires { place ≤ 16 }
    ensures value { result ≡ 2 ^ place }
    ensures low { 1 ≤ result }
{
    1 << place
}

// Returns whether the mask has the name at the index.
fn has_bit(mask: u32, place: usize) -> bool
    requires { place ≤ 16 }
    ensures { result ≡ (bit_at mask place == 1) }
{
    mask >> place & 1 == 1
}
