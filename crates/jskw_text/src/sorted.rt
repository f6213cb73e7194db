//! Members that are put in the order of their names while they are read.
ghost use Rattle.std.specs.Prelude.{◌≡◌, ◌≤◌, ◌<◌, length, string_bytes, OnOk, IfSome, IsTrue, slice_index, get_or};
ghost use Rattle.std.specs.Cmp.Lexicographic.{slice_cmp};
ghost use Rattle.std.specs.Ordering.{nat_cmp};
ghost use Rattle.jskw_value.specs.DecimalTree.{decimal_tree};
ghost use Rattle.jskw_value.specs.Members.{lasts};
ghost use Rattle.jskw_text.specs.Members.{members_seen, AreBehind};
ghost use Rattle.jskw_text.specs.Reading.{put};

use jskw_value::{DecimalTree, Member};
use std::alloc::AllocError;
use std::cmp::Ordering;

// How many members a new one can be put in front of.
const MOST_STEPS: usize = 32;

// Adds a member. While the members are in order, it is put in front of those at the end whose names
// are greater, if they are few. Returns whether the members are in order.
#[inline(always)]
pub(crate) fn put(
    found: &mut Vec<Member<DecimalTree>>,
    member: Member<DecimalTree>,
    in_order: bool,
) -> Result<bool, AllocError>
    ensures { OnOk result (members_seen (lasts found.new.items)
        ≡ put (string_bytes member.name) (decimal_tree member.value) (members_seen (lasts found.old.items))) }
{
    if in_order && let Some(place) = place_of(found.as_slice(), member.name.as_str()) {
        if place < found.len() {
            found.insert(place, member)?;
            return Ok(true);
        }
        found.push(member)?;
        return Ok(true);
    }
    found.push(member)?;
    Ok(false)
}

// Returns where a name is put: all members from there on have greater names. They are few.
#[inline(always)]
fn place_of(found: &[Member<DecimalTree>], name: &str) -> Option<usize>
    ensures within { IfSome result (λ place. place ≤ length found.now) }
    ensures behind { IfSome result (AreBehind name.now found.now) }
{
    let mut place = found.len();
    'steps: for _ in 0..MOST_STEPS {
        if place == 0 || !is_less(name, found[place - 1].name.as_str()) {
            return Some(place);
        }
        place -= 1;
    }
    None
}

// Returns whether a text comes before another by its bytes. The first bytes are compared by
// themselves, because they tell most names apart.
#[inline(always)]
fn is_less(one: &str, other: &str) -> bool
    ensures { IsTrue result → slice_cmp nat_cmp one.now other.now ≡ Ordering.Less }
{
    let (left, right) = (one.as_bytes(), other.as_bytes());
    if !left.is_empty() && !right.is_empty() && left[0] != right[0] {
        return left[0] < right[0];
    }
    one.cmp(other) == Ordering::Less
}
