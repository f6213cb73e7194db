//! Uniqueness of the items of an array. Allocates nothing: a sketch on the stack shows for most
//! items that no earlier item is equal.
ghost use Rattle.std.specs.Prelude.{◌≡◌, ◌≤◌, ◌<◌, ◌+◌, ◌^◌, drop, length, true, false};
ghost use Rattle.std.specs.Prelude.{IsTrue, IfSome, Some, option_and_then};
ghost use Rattle.std.specs.List.{list_any};
ghost use Rattle.jskw_value.specs.Equality.{equal, unique};
ghost use Rattle.jskw_value.specs.Number.{u64_of, written_integer};
ghost use Rattle.jskw_value.specs.Tree.{as_number, is_array, items};
ghost use Rattle.jskw_value.specs.Unique.{IsNewAt, IsToldOf, IsUniqueIn};

use crate::doubt::{is_within, mark_doubtful, may_go_on};
use crate::equality::equal_nodes;
use crate::fingerprint::fingerprint_within;
use crate::json::{Array, JsonNumber, Node};
use crate::meter::{Allowance, Meter, Unmetered};
use crate::rising_items::are_rising;
use crate::sketch::{is_marked, mark};
use crate::unique_by_fingerprints::are_unique_by_fingerprints;

// The number of items up to which all pairs are compared.
const FEW: usize = 8;

// The numbers of words of the sketches. A sketch takes twice as many items at a time.
const SMALL: usize = 64;

const MEDIUM: usize = 512;

const LARGE: usize = 6144;

// The number of words for arrays with more items than the other sketches take at a time.
const HUGE: usize = 32768;

// How many fingerprints are sorted at a time if the sketch is given up: those of all items, and in
// the longest arrays as many as the sketch has words.
const SMALL_PRINTS: usize = 2 * SMALL;

const MEDIUM_PRINTS: usize = 2 * MEDIUM;

const LARGE_PRINTS: usize = 2 * LARGE;

// The comparisons of items that look equal may take so many visits, and so many more for each item,
// before it is asked whether fingerprints of whole items cost less.
const FIRST_VISITS: usize = 1024;

const VISITS_AN_ITEM: usize = 8;

// For each so many blocks that are begun, items are granted their visits once more: each block is
// looked up by all later items, of which some look equal to one of it by chance.
const BLOCKS_A_GRANT: usize = 8;

// Returns whether no two items of the array are equal. The first item is compared with all others
// before a sketch is begun, so that equal items at the beginning are found at once.
#[tactic(auto, using(crate::proofs::BlockSearch::first_again, crate::proofs::BlockSearch::first_new))]
pub(crate) fn has_unique_items<N: Node>(array: &N) -> bool
    requires { IsTrue (is_array (N.tree array.now)) }
    ensures { result ≡ unique (items (N.tree array.now)) }
{
    let count = Array::len(array);
    if count <= FEW {
        return are_unique_by_pairs(array);
    }
    if are_rising(array) {
        return true;
    }
    if occurs_from(array, 1, array.item(0)) {
        return false;
    }
    if count <= 2 * SMALL {
        are_many_unique::<SMALL, SMALL, SMALL_PRINTS, N>(array)
    } else if count <= 2 * MEDIUM {
        are_many_unique::<MEDIUM, MEDIUM, MEDIUM_PRINTS, N>(array)
    } else if count <= 2 * LARGE {
        are_many_unique::<LARGE, LARGE, LARGE_PRINTS, N>(array)
    } else {
        are_many_unique::<HUGE, LARGE, HUGE, N>(array)
    }
}

// Returns whether many items are all different: by a sketch, as long as few items are in doubt.
fn are_many_unique<const WORDS: usize, const MARKS: usize, const FINGERPRINTS: usize, N: Node>(
    array: &N,
) -> bool
    requires array { IsTrue (is_array (N.tree array.now)) }
    requires first { IsUniqueIn 0 1 (items (N.tree array.now)) }
    requires filled { 0 < WORDS }
    requires short { WORDS ≤ 2 ^ 32 }
    requires marks { 0 < MARKS }
    requires few_marks { MARKS ≤ 2 ^ 32 }
    requires fingerprints { 0 < FINGERPRINTS }
    requires few_fingerprints { FINGERPRINTS ≤ 2 ^ 32 }
    ensures { result ≡ unique (items (N.tree array.now)) }
{
    let count = Array::len(array);
    let visits = count
        .saturating_mul(VISITS_AN_ITEM)
        .saturating_mul(count / (2 * WORDS) / BLOCKS_A_GRANT + 1)
        .saturating_add(FIRST_VISITS);
    match are_unique_by_sketch::<WORDS, N>(array, &[], visits) {
        Some(told) => told,
        None => are_unique_in_doubt::<WORDS, MARKS, FINGERPRINTS, N>(array, visits),
    }
}

// Returns whether the items are all different, if comparisons have taken `visits` visits without an
// answer: by fingerprints of all items or of those in doubt, as soon as these take no more, and by
// further comparisons until then. Never inlined, so that a caller's frame does not contain the marks.
#[inline(never)]
fn are_unique_in_doubt<const WORDS: usize, const MARKS: usize, const FINGERPRINTS: usize, N: Node>(
    array: &N,
    visits: usize,
) -> bool
    requires array { IsTrue (is_array (N.tree array.now)) }
    requires first { IsUniqueIn 0 1 (items (N.tree array.now)) }
    requires filled { 0 < WORDS }
    requires short { WORDS ≤ 2 ^ 32 }
    requires marks { 0 < MARKS }
    requires few_marks { MARKS ≤ 2 ^ 32 }
    requires fingerprints { 0 < FINGERPRINTS }
    requires few_fingerprints { FINGERPRINTS ≤ 2 ^ 32 }
    ensures { result ≡ unique (items (N.tree array.now)) }
{
    if is_within(array, &[], visits) {
        return are_unique_by_fingerprints::<MARKS, FINGERPRINTS, N>(array, &[]);
    }
    let mut doubtful = [0u64; MARKS];
    mark_doubtful::<WORDS, N>(array, &mut doubtful);
    match are_unique_by_sketch::<WORDS, N>(array, &doubtful, visits) {
        Some(told) => told,
        None => are_unique_by_fingerprints::<MARKS, FINGERPRINTS, N>(array, &doubtful),
    }
}

// Returns whether the items are all different, by comparing all pairs.
#[tactic(auto, using(crate::proofs::Equal::unique_step, crate::proofs::Equal::unique_end))]
pub(crate) fn are_unique_by_pairs<N: Node>(array: &N) -> bool
    requires { IsTrue (is_array (N.tree array.now)) }
    ensures { result ≡ unique (items (N.tree array.now)) }
{
    let count = Array::len(array);
    for i in 0..count {
        if occurs_from(array, i + 1, array.item(i)) {
            return false;
        }
    }
    true
}

// Returns whether an item at or after an index is equal to the node.
#[tactic(auto, using(crate::proofs::Equal::any_step, crate::proofs::Equal::any_end))]
fn occurs_from<N: Node>(array: &N, start: usize, node: &N) -> bool
    requires { IsTrue (is_array (N.tree array.now)) }
    ensures { result ≡ list_any (equal (N.tree node.now)) (drop start (items (N.tree array.now))) }
{
    for j in start..Array::len(array) {
        if equal_nodes(node, array.item(j), &mut Unmetered) {
            return true;
        }
    }
    false
}

// Returns the same by a sketch of `WORDS` words, if the first item differs from all others: block
// by block, the items of a block are compared with all later ones. `None` if the sketch is given
// up: if comparisons take more than so many visits, and `may_go_on` does not grant more. Never
// inlined, so that a caller's frame does not contain the sketch.
#[inline(never)]
#[tactic(auto, using(crate::proofs::BlockSearch::next_block, crate::proofs::BlockSearch::last_block))]
fn are_unique_by_sketch<const WORDS: usize, N: Node>(
    array: &N,
    doubtful: &[u64],
    visits: usize,
) -> Option<bool>
    requires array { IsTrue (is_array (N.tree array.now)) }
    requires few_marks { length doubtful.now ≤ 2 ^ 32 }
    requires first { IsUniqueIn 0 1 (items (N.tree array.now)) }
    requires filled { 0 < WORDS }
    requires short { WORDS ≤ 2 ^ 32 }
    ensures { IfSome result (λ answer. answer ≡ unique (items (N.tree array.now))) }
{
    let mut sketch = [0u64; WORDS];
    let mut allowance = Allowance::new(visits);
    let count = Array::len(array);
    let size = 2 * WORDS;
    let blocks = count.saturating_sub(1) / size;
    for block in 0..blocks {
        let start = block * size + 1;
        if !is_block_unique(
            array,
            &mut sketch,
            start,
            start + size,
            doubtful,
            &mut allowance,
        )? {
            return Some(false);
        }
        sketch.fill(0);
    }
    let start = blocks * size + 1;
    is_block_unique(array, &mut sketch, start, count, doubtful, &mut allowance)
}

// Returns whether no item from one index up to another is equal to a later one, or `None` if too
// many of them look equal and aren't for the allowance. The budget of each fingerprint is a quarter of the length of
// the array, so that all fingerprints together take less time than all pairs would.
#[tactic(auto, using(crate::proofs::BlockSearch::told_start, crate::proofs::BlockSearch::told_end))]
fn is_block_unique<N: Node>(
    array: &N,
    sketch: &mut [u64],
    start: usize,
    end: usize,
    doubtful: &[u64],
    allowance: &mut Allowance,
) -> Option<bool>
    requires array { IsTrue (is_array (N.tree array.now)) }
    requires few_marks { length doubtful.now ≤ 2 ^ 32 }
    requires filled { 0 < length sketch.old }
    requires short { length sketch.old ≤ 2 ^ 32 }
    ensures length { length sketch.new ≡ length sketch.old }
    ensures unique { result ≡ Some true → IsUniqueIn start end (items (N.tree array.now)) }
    ensures twice { result ≡ Some false → unique (items (N.tree array.now)) ≡ false }
{
    let count = Array::len(array);
    let budget = count / 4;
    for i in start..count {
        if !is_new(array, i, sketch, start, end, budget, doubtful, allowance)? {
            return Some(false);
        }
    }
    Some(true)
}

// Returns whether no earlier item of the block is equal to the one at an index: none is if its
// fingerprint is not marked, and then it is marked if the item is in the block. `None` if it is
// marked and the allowance is used up.
#[tactic(auto, using(crate::proofs::BlockSearch::told))]
fn is_new<N: Node>(
    array: &N,
    index: usize,
    sketch: &mut [u64],
    start: usize,
    end: usize,
    budget: usize,
    doubtful: &[u64],
    allowance: &mut Allowance,
) -> Option<bool>
    requires array { IsTrue (is_array (N.tree array.now)) }
    requires few_marks { length doubtful.now ≤ 2 ^ 32 }
    requires start { start ≤ index }
    requires index { index < length (items (N.tree array.now)) }
    requires filled { 0 < length sketch.old }
    requires short { length sketch.old ≤ 2 ^ 32 }
    requires told { IsToldOf start end budget index sketch.old (items (N.tree array.now)) }
    ensures length { length sketch.new ≡ length sketch.old }
    ensures told { result ≡ Some true
        → IsToldOf start end budget (index + 1) sketch.new (items (N.tree array.now)) }
    ensures twice { result ≡ Some false → unique (items (N.tree array.now)) ≡ false }
{
    let fingerprint = fingerprint_within(array.item(index), 0, budget);
    if is_marked(sketch, fingerprint) {
        if allowance.is_used_up() && !may_go_on(array, doubtful, allowance) {
            return None;
        }
        return Some(!occurs_between(array, start, end.min(index), index, allowance));
    }
    if index < end {
        mark(sketch, fingerprint);
    }
    Some(true)
}

// Returns whether no item from one index up to another is equal to the one at an index, or `None` if
// the allowance is used up.
pub(crate) fn differs_from<N: Node>(
    array: &N,
    start: usize,
    end: usize,
    index: usize,
    allowance: &mut Allowance,
) -> Option<bool>
    requires array { IsTrue (is_array (N.tree array.now)) }
    requires end { end ≤ index }
    requires index { index < length (items (N.tree array.now)) }
    ensures new { result ≡ Some true → IsNewAt start end index (items (N.tree array.now)) }
    ensures twice { result ≡ Some false → unique (items (N.tree array.now)) ≡ false }
{
    if allowance.is_used_up() {
        return None;
    }
    Some(!occurs_between(array, start, end, index, allowance))
}

// Returns whether an item from one index up to another is equal to the one at an index. Called
// rarely, and never inlined, so that the loop over all items keeps its registers.
#[inline(never)]
#[tactic(auto, using(crate::proofs::BlockSearch::search_steps))]
fn occurs_between<N: Node>(
    array: &N,
    start: usize,
    end: usize,
    index: usize,
    allowance: &mut Allowance,
) -> bool
    requires array { IsTrue (is_array (N.tree array.now)) }
    requires end { end ≤ index }
    requires index { index < length (items (N.tree array.now)) }
    ensures new { result ≡ false → IsNewAt start end index (items (N.tree array.now)) }
    ensures twice { result ≡ true → unique (items (N.tree array.now)) ≡ false }
{
    allowance.count(end.saturating_sub(start));
    let item = array.item(index);
    for j in start..end {
        if are_equal(array.item(j), item, allowance) {
            return true;
        }
    }
    false
}

// Returns whether two items are equal. Most of them are not, so integers from 0 on are compared
// first.
fn are_equal<N: Node>(left: &N, right: &N, allowance: &mut Allowance) -> bool
    ensures { result ≡ equal (N.tree left.now) (N.tree right.now) }
{
    match (whole_number(left), whole_number(right)) {
        (Some(a), Some(b)) => a == b,
        _ => equal_nodes(left, right, allowance),
    }
}

// Returns the number that a node is, if it is written without a point and is from 0 to 2^64-1.
#[inline(always)]
pub(crate) fn whole_number<N: Node>(node: &N) -> Option<u64>
    ensures { result ≡ option_and_then u64_of (option_and_then written_integer (as_number (N.tree node.now))) }
{
    let number = node.as_number()?;
    if !number.is_lawful() {
        return None;
    }
    number.as_u64()
}
