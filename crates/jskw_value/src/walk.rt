//! The iterator over the members of an object.
ghost use Rattle.std.specs.Prelude.{◌≡◌, ◌+◌, ◌<◌, [], ◌∷◌, map, drop, string_bytes, string_cmp};
ghost use Rattle.std.specs.Prelude.{MatchOption, IfSome};
ghost use Rattle.std.specs.BTreeMap.{IsOrdered};
ghost use Rattle.std.specs.Iterator.{YieldsFirstBy, item_count};
ghost use Rattle.jskw_value.specs.Tree.{Tree, members as members_of};
ghost use Rattle.jskw_value.specs.Walk.{left, seen};

use crate::json::{Node, Object, Rooted};
use crate::members::Member;
use std::collections::{BTreeMap, btree_map};
use std::{fmt, slice};

/// An iterator over the names and values of the members of an object, in the order of their places.
/// [`Object::walk`](crate::json::Object::walk) creates it.
#[derive(Drop)]
pub struct Walk<'a, V> {
    rest: Rest<'a, V>,
}

impl<V> fmt::Debug for Walk<'_, V> {
    fn fmt<W: fmt::Write>(&self, f: &mut fmt::Formatter<W>) -> fmt::Result {
        f.debug_struct("Walk").finish_non_exhaustive()
    }
}

// The members that are left.
#[derive(Drop)]
pub(crate) enum Rest<'a, V> {
    Sorted(btree_map::Iter<'a, String, V>),
    Listed(slice::Iter<'a, Member<V>>),
    ByPlace(&'a V, usize),
}

impl<'a, V> Walk<'a, V> {
    // Creates the iterator over the entries of a map, in the order of their names.
    pub(crate) fn of_map(members: &'a BTreeMap<String, V>) -> Walk<'a, V>
        ensures value { (tree : V → Tree)
            → left tree result ≡ map (λ e. (string_bytes e.0, tree e.1)) members.now.entries }
        ensures ordered { IsOrdered string_cmp members.now }
    {
        Walk {
            rest: Rest::Sorted(members.iter()),
        }
    }

    // Creates the iterator over the members of a list, in its order.
    pub(crate) fn of_list(list: &'a [Member<V>]) -> Walk<'a, V>
        ensures { (tree : V → Tree)
            → left tree result ≡ map (λ m. (string_bytes m.name, tree m.value)) list.now }
    {
        Walk {
            rest: Rest::Listed(list.iter()),
        }
    }
}

impl<'a, V: Rooted> Walk<'a, V> {
    /// Creates an iterator that calls `name_at` and `member_at` for each place in turn, for a
    /// representation that stores its members in a form of its own. It takes the time of these
    /// calls.
    pub fn by_place(object: &'a V) -> Walk<'a, V>
        ensures { left V.tree result ≡ members_of (V.tree object.now) }
    {
        Walk {
            rest: Rest::ByPlace(object, 0),
        }
    }
}

impl<'a, V: Node> Iterator for Walk<'a, V> {
    type Item = (&'a str, &'a V);

    ghost next_gives = { YieldsFirstBy (seen V.tree) (left V.tree) };

    ghost remaining = { item_count (left V.tree) };

    // in line, so that a loop over a walk tests the kind of the walk once, not at each member
    #[inline(always)]
    fn next(&mut self) -> Option<(&'a str, &'a V)> {
        match &mut self.rest {
            Rest::Sorted(entries) => {
                let (name, member) = entries.next()?;
                Some((name.as_str(), member))
            }
            Rest::Listed(members) => {
                let member = members.next()?;
                Some((member.name.as_str(), &member.value))
            }
            Rest::ByPlace(object, place) => {
                let member = member_at_place(*object, *place)?;
                *place += 1;
                Some(member)
            }
        }
    }
}

// Returns the name and the value of the member at a place, or `None` past the last.
#[tactic(auto, using(crate::proofs::PlacesInTrees::drop_member, crate::proofs::PlacesInTrees::drop_elsewhere))]
fn member_at_place<'a, V: Node>(object: &'a V, place: usize) -> Option<(&'a str, &'a V)>
    ensures value { let all = members_of (V.tree object.now) in
        MatchOption result (drop place all ≡ [])
        (λ m. drop place all ≡ seen V.tree m ∷ drop (place + 1) all) }
    ensures fits { IfSome result (λ _. place < usize.MAX) }
{
    if !object.is_object() || Object::len(object) <= place {
        return None;
    }
    Some((object.name_at(place), object.member_at(place)))
}
