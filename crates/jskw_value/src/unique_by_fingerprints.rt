//! Uniqueness of items by sorted fingerprints, for items that differ only deep inside or near their
//! ends, where fingerprints of their beginnings are equal. An item that is in doubt has the
//! fingerprint of all of it, any other one that of its beginning. The seed is 0 at first; if items
//! differ that have the same fingerprint under it, it is the array's own, so that items which were
//! made to have one fingerprint under a known seed have different ones.
ghost use Rattle.std.specs.Prelude.{◌≡◌, ◌≤◌, ◌<◌, ◌+◌, ◌^◌, length, true, false};
ghost use Rattle.std.specs.Prelude.{IsTrue, IfSome, Some};
ghost use Rattle.std.specs.List.Sorted.{IsNonDecreasing, IsStrictlyIncreasing};
ghost use Rattle.jskw_value.specs.Equality.{unique};
ghost use Rattle.jskw_value.specs.Tree.{is_array, items};
ghost use Rattle.jskw_value.specs.Unique.{AreKeysFrom, AreMarked, AreNewIn, AreSortedKeys};
ghost use Rattle.jskw_value.specs.Unique.{IsNotAmong, IsOnceAtMost, IsUniqueIn};

use crate::doubt::key;
use crate::json::{Array, Node};
use crate::meter::Allowance;
use crate::seed::seed_of_items;
use crate::sketch::{is_marked, mark};
use crate::unique_items::{are_unique_by_pairs, differs_from};

// How many visits for each item comparisons may take under the seed 0.
const VISITS_AN_ITEM: usize = 4;

// Returns whether no two items of the array are equal. `doubtful` are marks of the beginnings of the
// items in doubt; without marks all items are.
pub(crate) fn are_unique_by_fingerprints<const WORDS: usize, const SIZE: usize, N: Node>(
    array: &N,
    doubtful: &[u64],
) -> bool
    requires array { IsTrue (is_array (N.tree array.now)) }
    requires few_marks { length doubtful.now ≤ 2 ^ 32 }
    requires words { 0 < WORDS }
    requires few_words { WORDS ≤ 2 ^ 32 }
    requires filled { 0 < SIZE }
    requires short { SIZE ≤ 2 ^ 32 }
    ensures { result ≡ unique (items (N.tree array.now)) }
{
    let visits = Array::len(array).saturating_mul(VISITS_AN_ITEM);
    if let Some(told) = are_unique_under::<WORDS, SIZE, N>(array, doubtful, 0, visits) {
        return told;
    }
    let seed = seed_of_items(array, doubtful);
    match are_unique_under::<WORDS, SIZE, N>(array, doubtful, seed, usize::MAX) {
        Some(told) => told,
        None => are_unique_by_pairs(array),
    }
}

// Returns the same by fingerprints under a seed, block by block: the sorted fingerprints of a block
// are compared with those of all later items. `None` if comparing items with the same fingerprint
// takes more than so many visits. Never inlined, so that a caller's frame does not contain the
// fingerprints.
#[inline(never)]
#[tactic(auto, using(crate::proofs::BlockSearch::blocks, crate::proofs::SortedFingerprints::no_block))]
fn are_unique_under<const WORDS: usize, const SIZE: usize, N: Node>(
    array: &N,
    doubtful: &[u64],
    seed: u64,
    visits: usize,
) -> Option<bool>
    requires array { IsTrue (is_array (N.tree array.now)) }
    requires few_marks { length doubtful.now ≤ 2 ^ 32 }
    requires words { 0 < WORDS }
    requires few_words { WORDS ≤ 2 ^ 32 }
    requires filled { 0 < SIZE }
    requires short { SIZE ≤ 2 ^ 32 }
    ensures { IfSome result (λ answer. answer ≡ unique (items (N.tree array.now))) }
{
    let mut allowance = Allowance::new(visits);
    let mut keys = [0u64; SIZE];
    let count = Array::len(array);
    let mut start = 0;
    while SIZE < count - start {
        let end = start + SIZE;
        if !is_block_unique::<WORDS, N>(
            array,
            doubtful,
            &mut keys,
            seed,
            start,
            end,
            &mut allowance,
        )? {
            return Some(false);
        }
        start = end;
    }
    let last = &mut keys[..count - start];
    is_block_unique::<WORDS, N>(array, doubtful, last, seed, start, count, &mut allowance)
}

// Returns whether no item from one index up to another is equal to a later one. `keys` must have
// room for the fingerprints of all of them.
#[tactic(auto, using(crate::proofs::SortedFingerprints::by_block))]
fn is_block_unique<const WORDS: usize, N: Node>(
    array: &N,
    doubtful: &[u64],
    keys: &mut [u64],
    seed: u64,
    start: usize,
    end: usize,
    allowance: &mut Allowance,
) -> Option<bool>
    requires array { IsTrue (is_array (N.tree array.now)) }
    requires few_marks { length doubtful.now ≤ 2 ^ 32 }
    requires words { 0 < WORDS }
    requires few_words { WORDS ≤ 2 ^ 32 }
    requires room { end ≡ start + length keys.old }
    requires end { end ≤ length (items (N.tree array.now)) }
    ensures length { length keys.new ≡ length keys.old }
    ensures unique { result ≡ Some true → IsUniqueIn start end (items (N.tree array.now)) }
    ensures twice { result ≡ Some false → unique (items (N.tree array.now)) ≡ false }
{
    write_keys(array, doubtful, keys, seed, start, end);
    keys.sort_unstable();
    if !differ_in_block(array, doubtful, keys, seed, start, end, allowance)? {
        return Some(false);
    }
    if end == Array::len(array) {
        return Some(true);
    }
    differ_from_later::<WORDS, N>(array, doubtful, keys, seed, start, end, allowance)
}

// Writes the fingerprints of the items from one index up to another.
#[tactic(auto, using(crate::proofs::SortedFingerprints::no_key))]
fn write_keys<N: Node>(
    array: &N,
    doubtful: &[u64],
    keys: &mut [u64],
    seed: u64,
    start: usize,
    end: usize,
)
    requires array { IsTrue (is_array (N.tree array.now)) }
    requires few_marks { length doubtful.now ≤ 2 ^ 32 }
    requires room { end ≡ start + length keys.old }
    requires end { end ≤ length (items (N.tree array.now)) }
    ensures length { length keys.new ≡ length keys.old }
    ensures keys { AreKeysFrom seed doubtful.now start (length keys.new) keys.new
        (items (N.tree array.now)) }
{
    for (i, next) in keys.iter_mut().enumerate() {
        *next = key(array.item(start + i), doubtful, seed);
    }
}

// Returns whether no two of the items with these fingerprints are equal. Usually no two
// fingerprints are equal.
#[tactic(auto, using(crate::proofs::SortedFingerprints::none_new))]
fn differ_in_block<N: Node>(
    array: &N,
    doubtful: &[u64],
    keys: &[u64],
    seed: u64,
    start: usize,
    end: usize,
    allowance: &mut Allowance,
) -> Option<bool>
    requires array { IsTrue (is_array (N.tree array.now)) }
    requires few_marks { length doubtful.now ≤ 2 ^ 32 }
    requires room { end ≡ start + length keys.now }
    requires end { end ≤ length (items (N.tree array.now)) }
    requires keys { AreSortedKeys seed doubtful.now start keys.now (items (N.tree array.now)) }
    ensures new { result ≡ Some true → AreNewIn start end start end (items (N.tree array.now)) }
    ensures twice { result ≡ Some false → unique (items (N.tree array.now)) ≡ false }
{
    if rises(keys) {
        return Some(true);
    }
    for i in start..end {
        if is_repeated(keys, key(array.item(i), doubtful, seed))
            && !differs_from(array, start, i, i, allowance)?
        {
            return Some(false);
        }
    }
    Some(true)
}

// Returns whether no item after those with these fingerprints is equal to one of them. A sketch
// tells for most items faster than a search that they are not. Never inlined, so that a caller's
// frame does not contain the sketch.
#[inline(never)]
#[tactic(auto, using(crate::proofs::SortedFingerprints::none_new))]
fn differ_from_later<const WORDS: usize, N: Node>(
    array: &N,
    doubtful: &[u64],
    keys: &[u64],
    seed: u64,
    start: usize,
    end: usize,
    allowance: &mut Allowance,
) -> Option<bool>
    requires array { IsTrue (is_array (N.tree array.now)) }
    requires few_marks { length doubtful.now ≤ 2 ^ 32 }
    requires words { 0 < WORDS }
    requires few_words { WORDS ≤ 2 ^ 32 }
    requires room { end ≡ start + length keys.now }
    requires end { end ≤ length (items (N.tree array.now)) }
    requires keys { AreSortedKeys seed doubtful.now start keys.now (items (N.tree array.now)) }
    ensures new { result ≡ Some true → let all = items (N.tree array.now) in
        AreNewIn start end end (length all) all }
    ensures twice { result ≡ Some false → unique (items (N.tree array.now)) ≡ false }
{
    let mut sketch = [0u64; WORDS];
    mark_all(&mut sketch, keys);
    for i in end..Array::len(array) {
        if may_be_among(&sketch, keys, key(array.item(i), doubtful, seed))
            && !differs_from(array, start, end, i, allowance)?
        {
            return Some(false);
        }
    }
    Some(true)
}

// Marks the fingerprints.
fn mark_all(sketch: &mut [u64], keys: &[u64])
    requires words { 0 < length sketch.old }
    requires few_words { length sketch.old ≤ 2 ^ 32 }
    ensures length { length sketch.new ≡ length sketch.old }
    ensures marked { AreMarked (length keys.now) keys.now sketch.new }
{
    for i in 0..keys.len() {
        mark(sketch, keys[i]);
    }
}

// Returns whether a number is in a sorted list, all of which is marked in the sketch.
#[tactic(auto, using(crate::proofs::SortedFingerprints::not_marked))]
fn may_be_among(sketch: &[u64], sorted: &[u64], number: u64) -> bool
    requires words { 0 < length sketch.now }
    requires few_words { length sketch.now ≤ 2 ^ 32 }
    requires marked { AreMarked (length sorted.now) sorted.now sketch.now }
    requires sorted { IsNonDecreasing sorted.now }
    ensures { result ≡ false → IsNotAmong number sorted.now }
{
    is_marked(sketch, number) && is_among(sorted, number)
}

// Returns whether each number is less than the next.
fn rises(numbers: &[u64]) -> bool
    ensures { result ≡ true → IsStrictlyIncreasing numbers.now }
{
    for i in 1..numbers.len() {
        if numbers[i] <= numbers[i - 1] {
            return false;
        }
    }
    true
}

// Returns whether a number is in a sorted list.
#[tactic(auto, using(crate::proofs::SortedFingerprints::not_found))]
fn is_among(sorted: &[u64], number: u64) -> bool
    requires { IsNonDecreasing sorted.now }
    ensures { result ≡ false → IsNotAmong number sorted.now }
{
    sorted.binary_search(&number).is_ok()
}

// Returns whether a number is in a sorted list at two places.
#[tactic(auto, using(crate::proofs::SortedFingerprints::not_found, crate::proofs::SortedFingerprints::found_once))]
fn is_repeated(sorted: &[u64], number: u64) -> bool
    requires { IsNonDecreasing sorted.now }
    ensures { result ≡ false → IsOnceAtMost number sorted.now }
{
    match sorted.binary_search(&number) {
        Ok(at) => {
            (0 < at && sorted[at - 1] == number)
                || (at + 1 < sorted.len() && sorted[at + 1] == number)
        }
        Err(_) => false,
    }
}
