//! Items in doubt: those whose beginning is that of another item, so that only a comparison or a
//! fingerprint of the whole item distinguishes the two. What is here decides how long a search for
//! equal items takes, and never what it finds.
ghost use Rattle.std.specs.Prelude.{◌≡◌, ◌≤◌, ◌<◌, ◌^◌, length, IsTrue};
ghost use Rattle.jskw_value.specs.Doubt.{beginning, is_distinct_for, key, undoubted};
ghost use Rattle.jskw_value.specs.Fingerprint.{is_distinct_within};
ghost use Rattle.jskw_value.specs.Tree.{is_array};

use crate::fingerprint::{fingerprint_within, of_whole};
use crate::json::{Array, Node};
use crate::meter::{Allowance, visit};
use crate::sketch::{is_marked, mark};

// The budget of the fingerprints by which items are in doubt. It is small, so that those of an
// array take no longer than comparing each item with a few others.
const BEGINNING: usize = 16;

// Hashing is preferred if it visits at most this many times as many nodes as comparisons have. They
// visit what they visit again and again, and hashing visits it once.
const NODES_A_VISIT: usize = 4;

// How many items the sketch of `mark_doubtful` takes at a time for each of its words. It is fuller
// than one whose marks are compared: an item in doubt for no reason costs only a fingerprint.
const ITEMS_A_WORD: usize = 4;

// The number of items whose whole fingerprints are sorted at a time in the longest arrays. Each
// later item is hashed again for each block.
const BLOCK: usize = 32768;

// Marks the beginnings that two or more items have, in a sketch. Items are taken in as many parts as
// a sketch of `WORDS` words needs, by their fingerprints, so that equal ones come in the same part.
// Never inlined, so that a caller's frame does not contain the sketch.
#[inline(never)]
pub(crate) fn mark_doubtful<const WORDS: usize, N: Node>(array: &N, doubtful: &mut [u64])
    requires array { IsTrue (is_array (N.tree array.now)) }
    requires filled { 0 < WORDS }
    requires short { WORDS ≤ 2 ^ 32 }
    requires marks { 0 < length doubtful.old }
    requires few_marks { length doubtful.old ≤ 2 ^ 32 }
    ensures { length doubtful.new ≡ length doubtful.old }
{
    let mut sketch = [0u64; WORDS];
    let count = Array::len(array);
    let parts = (count / (ITEMS_A_WORD * WORDS)) as u64 + 1;
    for part in 0..parts {
        for i in 0..count {
            let fingerprint = fingerprint_within(array.item(i), 0, BEGINNING);
            if fingerprint % parts == part {
                mark_again(&mut sketch, doubtful, fingerprint);
            }
        }
        sketch.fill(0);
    }
}

// Marks a fingerprint in the first sketch, or in the second one if it is marked there already.
fn mark_again(sketch: &mut [u64], doubtful: &mut [u64], fingerprint: u64)
    requires filled { 0 < length sketch.old }
    requires short { length sketch.old ≤ 2 ^ 32 }
    requires marks { 0 < length doubtful.old }
    requires few_marks { length doubtful.old ≤ 2 ^ 32 }
    ensures sketch { length sketch.new ≡ length sketch.old }
    ensures doubtful { length doubtful.new ≡ length doubtful.old }
{
    if is_marked(sketch, fingerprint) {
        mark(doubtful, fingerprint);
    } else {
        mark(sketch, fingerprint);
    }
}

// Returns the fingerprint of an item's beginning, or `None` if the item is in doubt: if that
// fingerprint is marked, or nothing is said about any item.
pub(crate) fn fingerprint_of_undoubted<N: Node>(item: &N, doubtful: &[u64]) -> Option<u64>
    requires { length doubtful.now ≤ 2 ^ 32 }
    ensures value { result ≡ undoubted doubtful.now (N.tree item.now) }
    ensures distinct { 0 < length doubtful.now → IsTrue (is_distinct_within beginning (N.tree item.now)) }
{
    if doubtful.is_empty() {
        return None;
    }
    let fingerprint = fingerprint_within(item, 0, BEGINNING);
    if is_marked(doubtful, fingerprint) {
        None
    } else {
        Some(fingerprint)
    }
}

// Returns the number by which an item is sorted: the fingerprint of all of it if it is in doubt,
// else that of its beginning.
#[tactic(auto, using(crate::proofs::Keys::of_beginning, crate::proofs::Keys::of_all))]
pub(crate) fn key<N: Node>(item: &N, doubtful: &[u64], seed: u64) -> u64
    requires { length doubtful.now ≤ 2 ^ 32 }
    ensures value { result ≡ key seed doubtful.now (N.tree item.now) }
    ensures distinct { IsTrue (is_distinct_for doubtful.now (N.tree item.now)) }
{
    match fingerprint_of_undoubted(item, doubtful) {
        Some(fingerprint) => fingerprint,
        None => of_whole(item, seed),
    }
}

// Returns whether to hash all that is in doubt costs no more than so many visits of comparisons.
pub(crate) fn is_within<N: Node>(array: &N, doubtful: &[u64], visits: usize) -> bool
    requires array { IsTrue (is_array (N.tree array.now)) }
    requires few_marks { length doubtful.now ≤ 2 ^ 32 }
{
    let count = Array::len(array);
    let nodes = visits.saturating_mul(NODES_A_VISIT) / (count / BLOCK + 1);
    let mut allowance = Allowance::new(nodes);
    for i in 0..count {
        let item = array.item(i);
        if fingerprint_of_undoubted(item, doubtful).is_none() {
            visit(item, &mut allowance);
        }
        if allowance.is_used_up() {
            return false;
        }
    }
    true
}

// Returns whether comparisons that have used up their allowance may go on, and grants three times as
// many visits more if so: if to hash all that is in doubt would cost more than they have. Without
// marks of what is in doubt nothing is granted. Never inlined, since it is called rarely.
#[inline(never)]
pub(crate) fn may_go_on<N: Node>(array: &N, doubtful: &[u64], allowance: &mut Allowance) -> bool
    requires array { IsTrue (is_array (N.tree array.now)) }
    requires few_marks { length doubtful.now ≤ 2 ^ 32 }
{
    if doubtful.is_empty() || is_within(array, doubtful, allowance.granted()) {
        return false;
    }
    allowance.extend();
    true
}
