//! Fingerprints of nodes: under one seed, equal nodes have the same fingerprint, and most different
//! nodes have different ones. A budget limits how much of a node a fingerprint depends on; that of
//! [`of_whole`] depends on the whole node.
//!
//! Members come in any order, so an object's fingerprint is a sum over them, and a budget gives each
//! the same share or does not reach any. Items come in one order and are mixed one after the other,
//! but get the same share too: what the first ones leave over would go to the depth of one item. The
//! share is at most half of the budget, so that the time is in proportion to it.
//!
//! The mixing (`stir`) takes two words at once by two products of 128 bits, each folded, so that no
//! word can be solved for; a sum of such values has no such strength. Objects that collide under a
//! known seed are found in seconds, so a seed that someone may know is only for what is checked
//! again, and the seed goes into each value before anything is added up. Numbers and short texts come
//! first and have no frame, since most items are one or the other.
ghost use Rattle.std.specs.Prelude.{◌≡◌, ℕ, ◌≤◌, ◌<◌, ◌+◌, ◌-◌, ◌*◌, ◌/◌, ◌%◌, ◌^◌, length, take};
ghost use Rattle.std.specs.Prelude.{None, IsTrue};
ghost use Rattle.std.specs.Int.Bits.{bit_xor};
ghost use Rattle.std.specs.List.{sum_by, IsDistinct, list_all};
ghost use Rattle.std.specs.Str.{bytes_eq};
ghost use Rattle.jskw_value.specs.Decimal.{value};
ghost use Rattle.jskw_value.specs.Fingerprint.{folded, stirred, word_at, text_begun, text_fingerprint};
ghost use Rattle.jskw_value.specs.Fingerprint.{sign_fingerprint, number_fingerprint, unlimited, share, fingerprint};
ghost use Rattle.jskw_value.specs.Fingerprint.{list_fingerprint, member_fingerprint, is_distinct_within};
ghost use Rattle.jskw_value.specs.Tree.{as_number, as_string, is_array, is_object, items};
ghost use Rattle.jskw_value.specs.Tree.{members, names, values};

use crate::decimal::{Decimal, ten_to};
use crate::json::{Array, JsonNumber, Node, Object};
use crate::property_name::{number_of, number_of_few};

// The budget under which a fingerprint depends on the whole node.
const UNLIMITED: usize = usize::MAX;

/// Returns the fingerprint of the whole node under a seed. Equal values (JSON Schema Core 4.2.2)
/// have the same fingerprint under each seed, in all representations: numbers by their value,
/// objects in any order of their members. Different values may have the same fingerprint too, so
/// compare them if the fingerprints are equal. Takes time in proportion to the size of the node and
/// allocates nothing.
pub fn of_whole<N: Node>(node: &N, seed: u64) -> u64
    ensures value { result ≡ fingerprint seed unlimited (N.tree node.now) }
    ensures distinct { IsTrue (is_distinct_within unlimited (N.tree node.now)) }
{
    fingerprint_within(node, seed, UNLIMITED)
}

// Returns the fingerprint of a node. Allocates nothing, and takes time in proportion to the budget.
#[cycle(fingerprint)]
#[tactic(auto, using(crate::proofs::Fingerprints::by_level))]
pub(crate) fn fingerprint_within<N: Node>(node: &N, seed: u64, budget: usize) -> u64
    ensures value { result ≡ fingerprint seed budget (N.tree node.now) }
    ensures distinct { IsTrue (is_distinct_within budget (N.tree node.now)) }
{
    if let Some(number) = node.as_number() {
        return of_number(number, seed);
    }
    if let Some(text) = node.as_string() {
        return of_text(text, seed, budget);
    }
    of_other(node, seed, budget)
}

// Returns the fingerprint of a node that is neither a number nor a string. Never inlined, so that
// numbers and strings don't pay for its frame.
#[inline(never)]
#[cycle(fingerprint)]
#[tactic(auto, using(crate::proofs::Fingerprints::by_level))]
fn of_other<N: Node>(node: &N, seed: u64, budget: usize) -> u64
    requires number { as_number (N.tree node.now) ≡ None }
    requires string { as_string (N.tree node.now) ≡ None }
    ensures value { result ≡ fingerprint seed budget (N.tree node.now) }
    ensures distinct { IsTrue (is_distinct_within budget (N.tree node.now)) }
{
    if node.is_array() {
        return of_array(node, seed, budget);
    }
    if node.is_object() {
        return of_object(node, seed, budget);
    }
    match node.as_boolean() {
        Some(true) => 3,
        Some(false) => 2,
        None => 1,
    }
}

// Returns the fingerprint of an array. It depends on the number of items, and on as many of the
// items as the budget has units.
#[cycle(fingerprint)]
#[tactic(auto, using(crate::proofs::Fingerprints::by_index))]
fn of_array<N: Node>(node: &N, seed: u64, budget: usize) -> u64
    requires { IsTrue (is_array (N.tree node.now)) }
    ensures value { let all = items (N.tree node.now) in
        result ≡ list_fingerprint seed (share budget (length all)) (stirred (bit_xor 4 seed) (length all) 0)
        (take budget all) }
    ensures distinct { let all = items (N.tree node.now) in
        IsTrue (list_all (is_distinct_within (share budget (length all))) (take budget all)) }
{
    let count = Array::len(node);
    let each = share(budget, count);
    let mut hash = stir(4 ^ seed, count as u64, 0);
    for i in 0..count.min(budget) {
        hash = stir(hash, fingerprint_within(node.item(i), seed, each), 4);
    }
    hash
}

// Returns the fingerprint of an object. It depends on the number of members, and on the members if
// they are not more than the units of the budget.
#[cycle(fingerprint)]
#[tactic(auto, using(crate::proofs::Fingerprints::by_level))]
fn of_object<N: Node>(node: &N, seed: u64, budget: usize) -> u64
    requires { IsTrue (is_object (N.tree node.now)) }
    ensures value { result ≡ fingerprint seed budget (N.tree node.now) }
    ensures distinct { IsTrue (is_distinct_within budget (N.tree node.now)) }
{
    let count = Object::len(node);
    if budget < count {
        return stir(5, count as u64, 0);
    }
    let sum = of_members(node, seed, share(budget, count));
    stir(5, count as u64, sum)
}

// Returns the sum over the members, which is the same in any order. Each is mixed with the seed
// first, so that sums that are equal under one seed need not be equal under another.
#[cycle(fingerprint)]
#[tactic(auto, using(crate::proofs::Depth::height_below, crate::proofs::Fingerprints::sum_step))]
fn of_members<N: Node>(node: &N, seed: u64, budget: usize) -> u64
    requires { IsTrue (is_object (N.tree node.now)) }
    ensures value { result ≡ sum_by (member_fingerprint seed budget) (members (N.tree node.now)) % 2 ^ 64 }
    ensures own { IsDistinct bytes_eq (names (N.tree node.now)) }
    ensures below { IsTrue (list_all (is_distinct_within budget) (values (N.tree node.now))) }
{
    let mut sum = 0u64;
    for (name, member) in node.walk() {
        let name_fingerprint = of_text(name, seed, budget);
        let fingerprint = stir(
            5 ^ seed,
            name_fingerprint,
            fingerprint_within(member, seed, budget),
        );
        sum = sum.wrapping_add(fingerprint);
    }
    sum
}

// Returns the share of the budget for each of `count` items or members.
fn share(budget: usize, count: usize) -> usize
    ensures { result ≡ share budget count }
{
    if budget == UNLIMITED {
        return UNLIMITED;
    }
    budget / count.max(2)
}

// Returns the fingerprint of a number, by its value; all floats have the same. Integers from 0 on,
// which most numbers are, take a shorter path.
#[tactic(auto, using(crate::proofs::NumberFingerprints::whole_fingerprint))]
fn of_number<A: JsonNumber>(number: &A, seed: u64) -> u64
    ensures { result ≡ number_fingerprint seed (A.number number.now) }
{
    if !number.is_lawful() {
        return 8;
    }
    match number.as_u64() {
        Some(whole) => stir(6 ^ seed, whole, 0),
        None => of_decimal(&number.decimal(), seed),
    }
}

// Returns the fingerprint of a decimal: of its sign, its integer part and its fraction in units of
// 10^-18.
#[tactic(auto, unfolding(crate::specs::Fingerprint::parts_fingerprint))]
fn of_decimal(decimal: &Decimal, seed: u64) -> u64
    ensures { result ≡ number_fingerprint seed (value decimal.now) }
{
    let coefficient = decimal.coefficient();
    let (whole, rest) = parts(coefficient.unsigned_abs() as u64, decimal.scale());
    stir(of_sign(coefficient) ^ seed, whole, rest)
}

fn of_sign(coefficient: i128) -> u64
    ensures { result ≡ sign_fingerprint coefficient }
{
    if coefficient < 0 { 7 } else { 6 }
}

// Returns the integer part of a magnitude divided by ten to a scale, and the fraction in units of
// 10^-18.
#[tactic(auto, using(crate::proofs::NumberFingerprints::parts))]
fn parts(magnitude: u64, scale: u8) -> (u64, u64)
    requires { scale ≤ 18 }
    ensures whole { result.0 ≡ magnitude / 10 ^ scale }
    ensures rest { result.1 ≡ magnitude % 10 ^ scale * 10 ^ 18 / 10 ^ scale }
{
    if scale == 0 {
        return (magnitude, 0);
    }
    let unit = ten_to(scale);
    (magnitude / unit, magnitude % unit * ten_to(18 - scale))
}

// Returns the fingerprint of a whole text.
pub(crate) fn of_whole_text(text: &str, seed: u64) -> u64
    ensures { result ≡ text_fingerprint seed unlimited text.now }
{
    of_text(text, seed, UNLIMITED)
}

fn of_text(text: &str, seed: u64, budget: usize) -> u64
    ensures { result ≡ text_fingerprint seed budget text.now }
{
    of_bytes(text.as_bytes(), seed, budget)
}

// Returns the fingerprint of a text: of its length, of as many pairs of words from its beginning as
// the budget has units, and of its last pair, which may overlap them. A text of fewer than eight
// bytes is one word, used twice. The code for longer texts is never inlined, so that texts of up to
// sixteen bytes need no frame.
#[tactic(auto, using(crate::proofs::Fingerprints::one_pair))]
fn of_bytes(bytes: &[u8], seed: u64, budget: usize) -> u64
    ensures { result ≡ text_fingerprint seed budget bytes.now }
{
    let count = bytes.len();
    if count < 8 {
        of_one_word(bytes, seed)
    } else if count <= 16 {
        stir_last_pair(begin_text(count, seed), bytes)
    } else {
        of_many_words(bytes, seed, budget)
    }
}

// Returns the fingerprint of a text of fewer than eight bytes, for any budget.
#[inline(never)]
#[tactic(auto, using(crate::proofs::Fingerprints::one_word))]
fn of_one_word(bytes: &[u8], seed: u64) -> u64
    requires { length bytes.now < 8 }
    ensures { (budget : ℕ) → result ≡ text_fingerprint seed budget bytes.now }
{
    let word = number_of_few(bytes);
    stir(begin_text(bytes.len(), seed), word, word)
}

// Returns the fingerprint of a text of at least eight bytes.
#[inline(never)]
#[tactic(auto, unfolding(crate::specs::Fingerprint::text_fingerprint))]
fn of_many_words(bytes: &[u8], seed: u64, budget: usize) -> u64
    requires { 8 ≤ length bytes.now }
    ensures { result ≡ text_fingerprint seed budget bytes.now }
{
    let count = bytes.len();
    let mut hash = begin_text(count, seed);
    for i in 0..budget.min((count - 1) / 16) {
        hash = stir(hash, word_at(bytes, 16 * i), word_at(bytes, 16 * i + 8));
    }
    stir_last_pair(hash, bytes)
}

// Returns the hash with which a text of `count` bytes begins.
fn begin_text(count: usize, seed: u64) -> u64
    ensures { result ≡ text_begun seed count }
{
    9600629759793949339 ^ count as u64 ^ seed
}

// Mixes the last pair of words into a hash. They overlap in a text of fewer than sixteen bytes.
fn stir_last_pair(hash: u64, bytes: &[u8]) -> u64
    requires { 8 ≤ length bytes.now }
    ensures { let count = length bytes.now in
        result ≡ stirred hash (word_at bytes.now (count - 16)) (word_at bytes.now (count - 8)) }
{
    let count = bytes.len();
    stir(
        hash,
        word_at(bytes, count.saturating_sub(16)),
        word_at(bytes, count - 8),
    )
}

// Returns the eight bytes from an index on, as a number.
fn word_at(bytes: &[u8], start: usize) -> u64
    requires { start + 8 ≤ length bytes.now }
    ensures { result ≡ word_at bytes.now start }
{
    let rest = &bytes[start..];
    number_of(&rest[..8])
}

// Mixes two words into a hash.
#[tactic(auto, unfolding(crate::specs::Fingerprint::stirred))]
pub(crate) fn stir(hash: u64, first: u64, second: u64) -> u64
    ensures { result ≡ stirred hash first second }
{
    let one = fold(
        hash ^ first ^ 11562461410679940143,
        (second ^ 16646288086500911323) | 1,
    );
    let other = fold(
        hash ^ second ^ 10285213230658275043,
        (first ^ 6384245875588680899) | 1,
    );
    hash.wrapping_mul(17069020487931167987)
        .wrapping_add(one)
        .wrapping_add(other)
}

// Returns the exclusive or of the two halves of a product.
#[tactic(auto, using(crate::proofs::NumberFingerprints::wide_product), unfolding(crate::specs::Fingerprint::folded))]
fn fold(left: u64, right: u64) -> u64
    ensures { result ≡ folded (left * right) }
{
    let product = u128::from(left) * u128::from(right);
    (product % (1 << 64)) as u64 ^ (product >> 64) as u64
}
