//! What is known to be valid against a schema without a look at its keywords. It is found when the
//! schema is compiled: values, by a quick set; which parts hold of arrays and objects whatever their
//! items and members are; and arrays, by their length and the quick sets of their items, so that a
//! list of tuples, rows or pairs is passed over without a call for each.
ghost use Rattle.std.specs.Prelude.{◌≡◌, ◌+◌, ◌-◌, ◌≤◌, false};
ghost use Rattle.jskw_array.specs.Words.{AddsKeyword, AreSettled, CountsBetween, IfOk, IfSome, IsKnown, IsTrue};
ghost use Rattle.jskw_array.specs.Words.{PassesOver, SetsAccept, Tree, all_hold, all_needed, arrays_cost, drop};
ghost use Rattle.jskw_array.specs.Words.{in_arrays, in_outline, in_rest, in_sets, in_typed, is_in, is_lawful};
ghost use Rattle.jskw_array.specs.Words.{is_some, items, items_between, items_cost, keywords_of, length, min};
ghost use Rattle.jskw_array.specs.Words.{rest_cost, sum_by, true, validator_keyword};

use crate::node::Subschema;
use crate::part::Part;
use crate::validator::Validator;
use jskw_number::{Outline, QuickSet};
use jskw_report::{Validate, ValidationContext};
use jskw_value::{Array, Json, Node};
use std::alloc::{AllocError, Global};

// What is known to be valid against a schema.
#[derive(Drop)]
pub(crate) struct Accepted {
    // values
    pub(crate) values: QuickSet,
    // the parts that hold of arrays and objects whose items and members are not looked at
    pub(crate) settled: SettledParts,
    // arrays, if all parts that are not settled ask for sets of items
    pub(crate) arrays: Option<Box<ItemSets>>,
}

impl Accepted {
    // Returns these values alone.
    pub(crate) fn of_values(values: QuickSet) -> Accepted
        ensures values { result.values ≡ values }
        ensures settled { result.settled.count ≡ 0 }
        ensures arrays { is_some result.arrays ≡ false }
    {
        Accepted {
            values,
            settled: SettledParts::none(),
            arrays: None,
        }
    }

    // Returns what is known of a schema of these parts. Fails only if memory runs out.
    pub(crate) fn by_parts<F: Json>(
        alloc: Global,
        parts: &[Part<F>],
    ) -> Result<Accepted, AllocError>
        ensures { IfOk result (λ a. IsKnown a parts.now) }
    {
        let settled = settled_parts(parts);
        let left = &parts[settled.count..];
        let arrays = match ItemSets::by_parts(alloc, settled.outline, left)? {
            Some(sets) => Some(Box::new(alloc, sets)?),
            None => None,
        };
        Ok(Accepted {
            values: quick_set_of(parts),
            settled,
            arrays,
        })
    }
}

// Returns values of which every keyword holds.
#[tactic(auto, using(crate::proofs::AcceptedValues::accepted_end))]
fn quick_set_of<F: Json>(parts: &[Part<F>]) -> QuickSet
    ensures { (t : Tree) → is_in result t ≡ true → all_hold (keywords_of parts.now) t ≡ true }
{
    let mut accepted = QuickSet::all();
    for part in parts {
        accepted = accepted.and(part.keyword().validator.quick_set());
        if accepted.is_empty() {
            return QuickSet::none();
        }
    }
    accepted
}

// The first parts of a schema, and arrays and objects of which they hold, whatever the items and
// members are.
#[derive(Clone, Copy)]
pub(crate) struct SettledParts {
    pub(crate) count: usize,
    pub(crate) outline: Outline,
}

impl SettledParts {
    // No parts.
    fn none() -> SettledParts
        ensures { result.count ≡ 0 }
    {
        SettledParts {
            count: 0,
            outline: Outline::all(),
        }
    }
}

// Returns the first parts that hold of some arrays with items, or of all objects, whatever the items
// and members are; none if there is one part at most.
fn settled_parts<F: Json>(parts: &[Part<F>]) -> SettledParts
    ensures { AreSettled result parts.now }
{
    let mut settled = SettledParts::none();
    if parts.len() < 2 {
        return settled;
    }
    for part in parts {
        let outline = settled.outline.and(part.keyword().validator.outline());
        if outline.is_trivial() {
            return settled;
        }
        settled = SettledParts {
            count: settled.count + 1,
            outline,
        };
    }
    settled
}

// Returns the index of the first item from `start` on that is no array of the outline of which the
// part holds, or the number of items; `start` if the part is no bare type check. Applies nothing.
#[inline(never)]
pub(crate) fn first_outside<F: Json>(
    outline: &Outline,
    part: &Part<F>,
    start: usize,
    instance: &F::Node,
    ctx: &mut ValidationContext,
) -> usize
    requires lawful { IsTrue (is_lawful (F.Node.tree instance.now)) }
    requires start { start ≤ length (items (F.Node.tree instance.now)) }
    ensures passed { PassesOver (in_typed outline.now part.now) (F.Node.tree instance.now) start result }
    ensures applied { ctx.new ≡ ctx.old }
{
    let Validator::Bare(bare) = &part.keyword().validator else {
        return start;
    };
    let count = instance.item_count();
    for index in start..count {
        let item = instance.item(index);
        if !item.is_array() || !outline.contains(item) || !bare.is_valid(item, ctx) {
            return index;
        }
    }
    count
}

// Arrays of some lengths whose items are in quick sets.
#[derive(Drop)]
pub(crate) struct ItemSets {
    lengths: Outline,
    // the sets of the first items, each for the item at its index
    front: Vec<QuickSet>,
    // the set of the items from `start` on, if these have a schema
    start: usize,
    rest: Option<QuickSet>,
}

impl ItemSets {
    // Returns arrays of these lengths of which the parts hold, or `None` if a part asks for more than
    // lengths and sets of items, or if there is no such array with items.
    fn by_parts<F: Json>(
        alloc: Global,
        lengths: Outline,
        parts: &[Part<F>],
    ) -> Result<Option<ItemSets>, AllocError>
        ensures { IfOk result (λ o. IfSome o (λ a. (t : Tree) → in_arrays a t ≡ true
            → (in_outline lengths t ≡ true) × (all_hold (keywords_of parts.now) t ≡ true)
            × (arrays_cost a t ≤ 1 + all_needed (keywords_of parts.now) t))) }
    {
        let mut arrays = ItemSets {
            lengths: lengths.and(Outline::of(QuickSet::but_objects())),
            front: Vec::new(alloc),
            start: 0,
            rest: None,
        };
        for part in parts {
            if !arrays.narrow(alloc, &part.keyword().validator)? || arrays.lengths.is_trivial() {
                return Ok(None);
            }
        }
        Ok(Some(arrays))
    }

    // Leaves those that the keyword accepts too. Returns false if that takes more than lengths and
    // sets of items, or if such a set is empty.
    fn narrow<F: Json>(
        &mut self,
        alloc: Global,
        validator: &Validator<F>,
    ) -> Result<bool, AllocError>
        ensures { IfOk result (λ b. b ≡ true
            → AddsKeyword self.old self.new (validator_keyword validator.now)) }
    {
        match validator {
            Validator::Each(each) if self.front.len() == 0 => {
                self.front = sets_of(alloc, each.nodes.as_slice())?;
                Ok(all_filled(self.front.as_slice()))
            }
            Validator::Rest(rest) if self.rest.is_none() => {
                let set = rest.node.values();
                self.start = rest.start;
                self.rest = Some(set);
                Ok(!set.is_empty())
            }
            Validator::Leaf(leaf) => {
                self.lengths = self.lengths.and(leaf.outline());
                Ok(true)
            }
            _ => Ok(false),
        }
    }

    // Applies a schema with these arrays to the items from `start` on, as far as they are in the set.
    // Returns the index of the first that is not, or the number of items.
    #[inline(never)]
    pub(crate) fn skip<N: Node>(
        &self,
        start: usize,
        instance: &N,
        ctx: &mut ValidationContext,
    ) -> usize
        requires lawful { IsTrue (is_lawful (N.tree instance.now)) }
        requires start { start ≤ length (items (N.tree instance.now)) }
        ensures passed { PassesOver (in_arrays self.now) (N.tree instance.now) start result }
        ensures counted { let cost = sum_by (arrays_cost self.now)
            (items_between start result (N.tree instance.now)) in
            CountsBetween ctx.old ctx.new cost cost }
    {
        let (end, applied) = if self.rest.is_some() {
            self.first_outside::<true, N>(start, instance)
        } else {
            self.first_outside::<false, N>(start, instance)
        };
        ctx.count_more(applied);
        ctx.count_more(end - start);
        end
    }

    // Returns the index of the first item from `start` on that is not in the set, or the number of
    // items, and how many items of those before it have a schema, which is counted in a register.
    // `HAS_REST` is whether the items behind the first ones have a set: so a loop over tuples does not
    // ask.
    #[inline(always)]
    fn first_outside<const HAS_REST: bool, N: Node>(
        &self,
        start: usize,
        instance: &N,
    ) -> (usize, usize)
        requires lawful { IsTrue (is_lawful (N.tree instance.now)) }
        requires start { start ≤ length (items (N.tree instance.now)) }
        requires rest { is_some self.now.rest ≡ HAS_REST }
        ensures passed { PassesOver (in_arrays self.now) (N.tree instance.now) start result.0 }
        ensures counted { let cost = sum_by (items_cost self.now)
            (items_between start result.0 (N.tree instance.now)) in
            CountsBetween 0 result.1 cost cost }
    {
        let count = instance.item_count();
        let mut applied = 0usize;
        for index in start..count {
            match self.item_count::<HAS_REST, N>(instance.item(index)) {
                Some(items) => applied = applied.saturating_add(items),
                None => return (index, applied),
            }
        }
        (count, applied)
    }

    // Returns how many items of the instance have a schema, or `None` if the instance is not known to
    // be in the set.
    #[inline(always)]
    fn item_count<const HAS_REST: bool, N: Node>(&self, instance: &N) -> Option<usize>
        requires lawful { IsTrue (is_lawful (N.tree instance.now)) }
        requires rest { is_some self.now.rest ≡ HAS_REST }
        ensures in_set { IfSome result (λ n. in_arrays self.now (N.tree instance.now) ≡ true) }
        ensures most { IfSome result (λ n. n ≤ items_cost self.now (N.tree instance.now)) }
        ensures least { IfSome result (λ n.
            min (items_cost self.now (N.tree instance.now)) u64.MAX ≤ n) }
    {
        if !instance.is_array() || !self.lengths.contains(instance) {
            return None;
        }
        let count = Array::len(instance);
        let front = self.front_count(count, instance)?;
        if !HAS_REST {
            return Some(front);
        }
        Some(front.saturating_add(self.rest_count(count, instance)?))
    }

    // Returns how many of `count` items have a schema of the first ones, if each is in its set.
    #[inline(always)]
    fn front_count<N: Node>(&self, count: usize, instance: &N) -> Option<usize>
        requires lawful { IsTrue (is_lawful (N.tree instance.now)) }
        requires count { count ≡ length (items (N.tree instance.now)) }
        ensures { IfSome result (λ n. (in_sets self.now.front.items (items (N.tree instance.now)) ≡ true)
            × (n ≡ min count (length self.now.front.items))) }
    {
        let front = count.min(self.front.len());
        for index in 0..front {
            if !self.front[index].contains(instance.item(index)) {
                return None;
            }
        }
        Some(front)
    }

    // Returns how many of `count` items are from `start` on and have a schema, if all are in its set.
    #[inline(always)]
    fn rest_count<N: Node>(&self, count: usize, instance: &N) -> Option<usize>
        requires lawful { IsTrue (is_lawful (N.tree instance.now)) }
        requires count { count ≡ length (items (N.tree instance.now)) }
        ensures { IfSome result (λ n.
            (in_rest self.now.rest (drop self.now.start (items (N.tree instance.now))) ≡ true)
            × (n ≡ rest_cost self.now.rest self.now.start (N.tree instance.now))) }
    {
        let Some(set) = &self.rest else {
            return Some(0);
        };
        if count <= self.start {
            return Some(0);
        }
        if set.first_outside(self.start, count, instance) == count {
            Some(count - self.start)
        } else {
            None
        }
    }
}

// Returns the values that each schema is known to accept.
fn sets_of<F: Json>(alloc: Global, nodes: &[Subschema<F>]) -> Result<Vec<QuickSet>, AllocError>
    ensures { IfOk result (λ sets. SetsAccept sets.items nodes.now) }
{
    let mut sets = Vec::with_capacity(alloc, nodes.len())?;
    for node in nodes {
        sets.push(node.values())?;
    }
    Ok(sets)
}

// Returns whether none of the sets is empty.
fn all_filled(sets: &[QuickSet]) -> bool {
    for set in sets {
        if set.is_empty() {
            return false;
        }
    }
    true
}
