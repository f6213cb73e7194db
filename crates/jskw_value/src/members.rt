//! The members of an object as a list that is sorted by their names, which are distinct.
ghost use Rattle.std.specs.Prelude.{◌≡◌, ◌==◌, length, [], ◌<◌, string_bytes};
ghost use Rattle.std.specs.Prelude.{slice_index_or, OnOk, OnErr, IfOk, IfErr, option_map, false};
ghost use Rattle.std.specs.Prelude.{◌↔◌, IfNone, IfSome, IsOk};
ghost use Rattle.std.specs.List.{IsDistinct};
ghost use Rattle.std.specs.List.Sorted.{IsPermutation};
ghost use Rattle.std.specs.Map.{values_of};
ghost use Rattle.std.specs.Str.{bytes_eq};
ghost use Rattle.jskw_value.specs.InsertFault.{HandsBack, is_repeated};
ghost use Rattle.jskw_value.specs.Members.{entries, member_names, value_named, has_named, against, inserted, lasts};
ghost use Rattle.jskw_value.specs.Members.{AreSorted, IsIndexOf, IsGap, IsSortedByName, RepeatsAt};

use crate::name_equality::is_same_name;
use std::alloc::{AllocError, Global};
use std::cmp::Ordering;
use std::marker::Model;

// Up to this many members are compared with a name one after another: most are passed over by their
// length, in three instructions each.
const FEW_MEMBERS: usize = 16;

/// A name and a value.
#[derive(Debug, Drop)]
pub struct Member<V> {
    /// The name.
    pub name: String,
    /// The value.
    pub value: V,
}

impl<V> Member<V> {
    // Compares the name with another. The first bytes are compared by themselves, because they tell
    // most names apart.
    fn against(&self, name: &str) -> Ordering
        ensures { result ≡ against name.now self.now }
    {
        let (left, right) = (self.name.as_bytes(), name.as_bytes());
        if left.is_empty() || right.is_empty() || left[0] == right[0] {
            return self.name.as_str().cmp(name);
        }
        left[0].cmp(&right[0])
    }
}

/// Members with distinct names, sorted by the bytes of the names. Contracts refer to them as a
/// list.
#[derive(Debug, Drop)]
pub struct MemberList<V> {
    list: Vec<Member<V>>,
}

/// Why a member was not inserted, with its name and value.
#[derive(Debug, Drop)]
pub enum InsertFault<V> {
    /// There is a member with this name already.
    Repeated(String, V),
    /// Memory ran out.
    Memory(String, V),
}

/// The error of [`MemberList::from_pairs`]: two pairs have the same name.
#[derive(Debug, Drop)]
pub struct RepeatedName<V> {
    /// All pairs, sorted by their names.
    pub pairs: Vec<Member<V>>,
    /// The place of the first pair that has the same name as the next one.
    pub place: usize,
}

impl<V> Model for MemberList<V> {
    ghost use Rattle.std.specs.Prelude.{List};
    ghost use Rattle.jskw_value.specs.declared.members.Member.{Member};
    ghost use Rattle.jskw_value.specs.Members.{member_names, members_code, AreSorted};

    ghost Value = { List (Member V) };

    ghost coded = { members_code V.code };

    ghost view = { λ a. a.list.items };

    ghost invariant = { λ a. AreSorted (member_names a.list.items) };
}

#[tactic(auto, using(crate::proofs::MembersByPlace::lemmas, crate::proofs::MembersInOrder::lemmas))]
impl<V> MemberList<V> {
    /// Creates an empty list, which allocates with `alloc` when members are inserted.
    pub fn new(alloc: Global) -> MemberList<V>
        ensures { result ≡ [] }
    {
        MemberList {
            list: Vec::new(alloc),
        }
    }

    /// Creates the list of these pairs, which may be in any order. They are sorted in place, once;
    /// [`insert`](MemberList::insert) moves all later members for each new one. Allocates nothing.
    ///
    /// # Errors
    ///
    /// [`RepeatedName`] if two pairs have the same name. It returns all pairs, sorted, with the
    /// place of the least such name.
    pub fn from_pairs(mut pairs: Vec<Member<V>>) -> Result<MemberList<V>, RepeatedName<V>>
        ensures members { IfOk result (λ members. IsPermutation pairs.items members) }
        ensures rising { IfOk result (λ members. AreSorted (member_names members)) }
        ensures distinct { IsOk result ↔ IsDistinct bytes_eq (member_names pairs.items) }
        ensures handed_back { IfErr result (λ e. IsPermutation pairs.items e.pairs.items) }
        ensures sorted { IfErr result (λ e. IsSortedByName e.pairs.items) }
        ensures repeated { IfErr result (λ e. RepeatsAt e.pairs.items e.place) }
    {
        pairs.sort_unstable_by(|left, right| left.against(right.name.as_str()));
        match first_not_less(&pairs) {
            Some(place) => Err(RepeatedName { pairs, place }),
            None => Ok(MemberList { list: pairs }),
        }
    }

    // Creates the list of these pairs, which are sorted and have distinct names.
    pub(crate) fn of_sorted(pairs: Vec<Member<V>>) -> MemberList<V>
        requires { AreSorted (member_names pairs.items) }
        ensures { result ≡ pairs.items }
    {
        MemberList { list: pairs }
    }

    /// Returns the members in the order of their names, which are distinct.
    pub fn into_pairs(self) -> Vec<Member<V>>
        ensures members { result.items ≡ self }
        ensures sorted { AreSorted (member_names result.items) }
    {
        self.list
    }

    /// Returns the number of members. Their names are distinct and sorted.
    pub fn len(&self) -> usize
        ensures value { result ≡ length self.now }
        ensures distinct { IsDistinct bytes_eq (member_names self.now) }
        ensures sorted { AreSorted (member_names self.now) }
    {
        self.list.len()
    }

    /// Returns whether there are no members.
    pub fn is_empty(&self) -> bool
        ensures { result ≡ (length self.now == 0) }
    {
        self.list.is_empty()
    }

    /// Returns the value of the member `name`, or `None` if there is no such member. Few members are
    /// compared one after another; of more, binary search.
    pub fn get(&self, name: &str) -> Option<&V>
        ensures { option_map (λ x. x.now) result ≡ value_named name.now self.now }
    {
        if self.list.len() > FEW_MEMBERS {
            return self.get_by_halves(name);
        }
        for member in &self.list {
            if is_same_name(name, member.name.as_str()) {
                return Some(&member.value);
            }
        }
        None
    }

    // Returns the same by binary search. Out of line, since it has a frame.
    #[inline(never)]
    fn get_by_halves(&self, name: &str) -> Option<&V>
        ensures { option_map (λ x. x.now) result ≡ value_named name.now self.now }
    {
        match self.search(name) {
            Ok(place) => Some(&self.list[place].value),
            Err(_) => None,
        }
    }

    /// Inserts a member at its place in the order. Takes time in proportion to the number of
    /// members after it, which are moved.
    ///
    /// # Errors
    ///
    /// Both errors return the name and the value, and leave the list unchanged:
    ///
    /// - [`InsertFault::Repeated`] if there is a member with this name already.
    /// - [`InsertFault::Memory`] if memory runs out.
    pub fn insert(&mut self, name: String, value: V) -> Result<(), InsertFault<V>>
        ensures added { OnOk result
            (self.new ≡ inserted (record { name = name; value = value }) self.old) }
        ensures absent { OnOk result (has_named (string_bytes name) self.old ≡ false) }
        ensures unchanged { OnErr result (self.new ≡ self.old) }
        ensures handed_back { IfErr result (HandsBack name value) }
        ensures repeated { IfErr result
            (λ e. is_repeated e ≡ has_named (string_bytes name) self.old) }
    {
        let place = match self.search(name.as_str()) {
            Ok(_) => return Err(InsertFault::Repeated(name, value)),
            Err(place) => place,
        };
        if let Err(refused) = self.list.insert(place, Member { name, value }) {
            let Member { name, value } = refused.value;
            return Err(InsertFault::Memory(name, value));
        }
        Ok(())
    }

    // Returns the place of the member `name`, or as an error the place where it would be inserted.
    fn search(&self, name: &str) -> Result<usize, usize>
        ensures found { IfOk result (IsIndexOf name.now self.now) }
        ensures absent { IfErr result (IsGap name.now self.now) }
    {
        self.list.binary_search_by(|member| member.against(name))
    }

    // Returns the name at a place.
    pub(crate) fn name_at(&self, place: usize) -> &str
        requires { place < length self.now }
        ensures name { result.now ≡ slice_index_or (member_names self.now) place result.now }
        ensures sorted { AreSorted (member_names self.now) }
    {
        self.list[place].name.as_str()
    }

    // Returns the value at a place.
    pub(crate) fn value_at(&self, place: usize) -> &V
        requires { place < length self.now }
        ensures { result.now ≡ slice_index_or (values_of (entries self.now)) place result.now }
    {
        &self.list[place].value
    }

    // Returns the members in the order of their places.
    pub(crate) fn as_slice(&self) -> &[Member<V>]
        ensures value { result.now ≡ self.now }
        ensures distinct { IsDistinct bytes_eq (member_names self.now) }
    {
        self.list.as_slice()
    }
}

#[tactic(auto, using(crate::proofs::MembersInOrder::lemmas))]
impl<V: Drop> MemberList<V> {
    /// Creates the list of these pairs, which may be in any order. Of those with the same name the
    /// last counts. They are sorted once, unless their names rise already.
    pub fn from_last_pairs(mut pairs: Vec<Member<V>>) -> Result<MemberList<V>, AllocError>
        ensures { IfOk result (λ members. members ≡ lasts pairs.items) }
    {
        if first_not_less(&pairs).is_none() {
            return Ok(MemberList { list: pairs });
        }
        // of equal names the last is the first now, and stays
        pairs.reverse();
        pairs.sort_by(|left, right| left.against(right.name.as_str()))?;
        pairs.dedup_by(|next, kept| next.against(kept.name.as_str()).is_eq());
        Ok(MemberList { list: pairs })
    }
}

// Returns the place of the first pair whose name is not less than the next one. If the pairs are
// sorted, it is the same.
#[tactic(auto, using(crate::proofs::MembersInOrder::lemmas))]
fn first_not_less<V>(pairs: &[Member<V>]) -> Option<usize>
    ensures repeated { IfSome result (λ place. IsSortedByName pairs.now
        → RepeatsAt pairs.now place) }
    ensures rising { IfNone result (AreSorted (member_names pairs.now)) }
{
    for next in 1..pairs.len() {
        let place = next - 1;
        if !pairs[place].against(pairs[next].name.as_str()).is_lt() {
            return Some(place);
        }
    }
    None
}
