//! Equality of nodes, of one representation or two.
ghost use Rattle.std.specs.Prelude.{◌≡◌, ◌==◌, ◌&&◌, IsTrue, None, false, length, option_map, true};
ghost use Rattle.std.specs.Cmp.Lexicographic.{pointwise};
ghost use Rattle.std.specs.List.{list_all, IsDistinct};
ghost use Rattle.std.specs.Option.{option_map_or};
ghost use Rattle.std.specs.Str.{bytes_eq};
ghost use Rattle.jskw_value.specs.Equality.{equal, has_equal, AreMembers};
ghost use Rattle.jskw_value.specs.Number.{num_equal};
ghost use Rattle.jskw_value.specs.Tree.{as_number, is_array, is_object, items, members, names, get};
ghost use Rattle.jskw_value.specs.Walk.{left};

use crate::json::{Array, JsonNumber, Node, Object};
use crate::meter::{Meter, visits_of};
use crate::name_equality::is_same_name;
use crate::walk::Walk;

// How many items are compared in the time of two members, which two walks find.
const VISITS_A_MEMBER: usize = 4;

// Returns whether two nodes are equal. What it visits is counted. In line, so that the loops over
// items and members compare scalars without a call.
#[inline(always)]
#[cycle(equal)]
#[tactic(auto, using(crate::proofs::Equal::by_level))]
pub(crate) fn equal_nodes<N: Node, M: Node, C: Meter>(left: &N, right: &M, meter: &mut C) -> bool
    ensures { result ≡ equal (N.tree left.now) (M.tree right.now) }
{
    if let Some(number) = left.as_number() {
        equals_number(number, right)
    } else if left.is_array() {
        right.is_array() && equal_arrays(left, right, meter)
    } else if left.is_object() {
        right.is_object() && equal_objects(left, right, meter)
    } else {
        equal_leaves(left, right, meter)
    }
}

// Returns whether two arrays have the same number of items, equal at each index. Out of line, so
// that scalars are compared without the frame of the loop.
#[inline(never)]
#[cycle(equal)]
#[tactic(auto, using(crate::proofs::Equal::by_index))]
fn equal_arrays<N: Node, M: Node, C: Meter>(left: &N, right: &M, meter: &mut C) -> bool
    requires left { IsTrue (is_array (N.tree left.now)) }
    requires right { IsTrue (is_array (M.tree right.now)) }
    ensures { result ≡ pointwise equal (items (N.tree left.now)) (items (M.tree right.now)) }
{
    let count = Array::len(left);
    if count != Array::len(right) || end_in_other_numbers(left, right, count) {
        return false;
    }
    for i in 0..count {
        meter.count(1);
        if !equal_nodes(left.item(i), right.item(i), meter) {
            return false;
        }
    }
    true
}

// Returns whether the last item of the left array is a number and that of the right one is not equal to
// it, as in rows that begin alike. Both have `count` items.
#[tactic(auto, using(crate::proofs::Equal::other_item, crate::proofs::Equal::equal_number))]
fn end_in_other_numbers<N: Node, M: Node>(left: &N, right: &M, count: usize) -> bool
    requires left { IsTrue (is_array (N.tree left.now)) }
    requires right { IsTrue (is_array (M.tree right.now)) }
    requires count { count ≡ length (items (N.tree left.now)) }
    requires same { count ≡ length (items (M.tree right.now)) }
    ensures { result ≡ true → pointwise equal (items (N.tree left.now)) (items (M.tree right.now)) ≡ false }
{
    if count == 0 {
        return false;
    }
    match left.item(count - 1).as_number() {
        Some(number) => !equals_number(number, right.item(count - 1)),
        None => false,
    }
}

// Returns whether two objects have the same number of members, and each name of the left one has an
// equal value in the right one. Out of line, as `equal_arrays` is.
#[inline(never)]
#[cycle(equal)]
#[tactic(auto, using(crate::proofs::Depth::height_below, crate::proofs::Equal::all_members))]
fn equal_objects<N: Node, M: Node, C: Meter>(left: &N, right: &M, meter: &mut C) -> bool
    requires left { IsTrue (is_object (N.tree left.now)) }
    requires right { IsTrue (is_object (M.tree right.now)) }
    ensures left { IsDistinct bytes_eq (names (N.tree left.now)) }
    ensures right { IsDistinct bytes_eq (names (M.tree right.now)) }
    ensures value { let ms = members (N.tree left.now) in
        result ≡ ((length ms == length (members (M.tree right.now)))
        && list_all (has_equal (M.tree right.now)) ms) }
{
    if Object::len(left) != Object::len(right) {
        return false;
    }
    let mut others = right.walk();
    for (name, member) in left.walk() {
        meter.count(VISITS_A_MEMBER);
        meter.count(visits_of(name));
        if !equals_found(member, next_or_find(right, &mut others, name), meter) {
            return false;
        }
    }
    true
}

// Returns whether a value was found and is equal to the member.
#[cycle(equal)]
fn equals_found<N: Node, M: Node, C: Meter>(member: &N, found: Option<&M>, meter: &mut C) -> bool
    ensures { let other = option_map (λ x. M.tree x.now) found.entry in
        result ≡ option_map_or (equal (N.tree member.now)) other false }
{
    match found {
        Some(other) => equal_nodes(member, other, meter),
        None => false,
    }
}

// Returns the value of the member `name`. If it is the next of a walk over the object, it is not
// looked up; so two objects with the same order need no lookups.
#[tactic(auto, using(crate::proofs::Equal::next_found))]
fn next_or_find<'a, M: Node>(object: &'a M, walk: &mut Walk<'a, M>, name: &str) -> Option<&'a M>
    requires object { IsTrue (is_object (M.tree object.now)) }
    requires walk { AreMembers (M.tree object.now) (left M.tree walk.old) }
    ensures value { option_map (λ x. M.tree x.now) result ≡ get name.now (M.tree object.now) }
    ensures walk { AreMembers (M.tree object.now) (left M.tree walk.new) }
{
    if let Some((next, member)) = walk.next() {
        if next == name {
            return Some(member);
        }
    }
    object.find(name)
}

// Returns whether two nodes are equal, the left of which is a string, a boolean or null.
#[inline(always)]
fn equal_leaves<N: Node, M: Node, C: Meter>(left: &N, right: &M, meter: &mut C) -> bool
    requires number { as_number (N.tree left.now) ≡ None }
    requires array { is_array (N.tree left.now) ≡ false }
    requires object { is_object (N.tree left.now) ≡ false }
    ensures { result ≡ equal (N.tree left.now) (M.tree right.now) }
{
    if let Some(a) = left.as_string() {
        meter.count(visits_of(a));
        return match right.as_string() {
            Some(b) => is_same_name(a, b),
            None => false,
        };
    }
    if let Some(a) = left.as_boolean() {
        return right.as_boolean() == Some(a);
    }
    right.is_null()
}

// Returns whether a node is a number of the same mathematical value as this one.
#[inline(always)]
fn equals_number<A: JsonNumber, M: Node>(number: &A, node: &M) -> bool
    ensures { result ≡ option_map_or (num_equal (A.number number.now))
        (as_number (M.tree node.now)) false }
{
    match node.as_number() {
        Some(other) => equal_numbers(number, other),
        None => false,
    }
}

// Returns whether two numbers have the same mathematical value; a float has none.
#[inline(always)]
#[tactic(auto, using(crate::proofs::Numbers::equal_words))]
fn equal_numbers<A: JsonNumber, B: JsonNumber>(left: &A, right: &B) -> bool
    ensures { result ≡ num_equal (A.number left.now) (B.number right.now) }
{
    if !left.is_lawful() || !right.is_lawful() {
        return false;
    }
    // words are compared faster than decimals
    if let Some(a) = left.as_u64() {
        if let Some(b) = right.as_u64() {
            return a == b;
        }
    }
    left.decimal().equals(&right.decimal())
}
