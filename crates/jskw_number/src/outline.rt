//! Arrays and objects by what is seen of them without a look at their items and members.
ghost use Rattle.std.specs.Prelude.{◌≡◌, ◌<◌, ◌≤◌, ◌&&◌, false, length, true};
ghost use Rattle.jskw_value.specs.Tree.{Tree, is_array, items};
ghost use Rattle.jskw_number.specs.Outline.{in_outline};
ghost use Rattle.jskw_number.specs.QuickSet.{is_in};

use crate::quick_set::QuickSet;
use jskw_value::Node;

/// A set of arrays and objects: the arrays of `least` to `most` items and, if `objects`, all
/// objects.
#[derive(Clone, Copy, Debug)]
pub struct Outline {
    least: u64,
    most: u64,
    objects: bool,
}

impl Outline {
    /// Returns the set of all arrays and objects.
    pub fn all() -> Outline
        ensures { (result.least ≡ 0) × (result.most ≡ u64.MAX) × (result.objects ≡ true) }
    {
        Outline::between(0, u64::MAX)
    }

    /// Returns the empty set.
    pub fn none() -> Outline
        ensures { (t : Tree) → in_outline result t ≡ false }
    {
        Outline {
            least: 1,
            most: 0,
            objects: false,
        }
    }

    /// Returns the arrays of `least` to `most` items, and all objects.
    pub fn between(least: u64, most: u64) -> Outline
        ensures at_least { (t : Tree) → in_outline result t ≡ true → is_array t ≡ true
            → least ≤ length (items t) }
        ensures at_most { (t : Tree) → in_outline result t ≡ true → length (items t) ≤ most }
        ensures ends { (result.least ≡ least) × (result.most ≡ most) × (result.objects ≡ true) }
    {
        Outline {
            least,
            most,
            objects: true,
        }
    }

    /// Returns the arrays and objects of a quick set.
    pub fn of(set: QuickSet) -> Outline
        ensures { (t : Tree) → in_outline result t ≡ true → is_in set t ≡ true }
    {
        let objects = set.has_objects();
        if set.has_arrays() {
            Outline {
                objects,
                ..Outline::all()
            }
        } else {
            Outline {
                objects,
                ..Outline::none()
            }
        }
    }

    /// Returns those that are in both sets.
    #[must_use]
    pub fn and(self, other: Outline) -> Outline
        ensures { (t : Tree) → in_outline result t ≡ true
            → (in_outline self t && in_outline other t) ≡ true }
    {
        Outline {
            least: self.least.max(other.least),
            most: self.most.min(other.most),
            objects: self.objects && other.objects,
        }
    }

    /// Returns whether there is neither an array with items nor an object in the set.
    #[tactic(auto, using(crate::proofs::Outlines::no_items))]
    pub fn is_trivial(&self) -> bool
        ensures empty { result ≡ true → (t : Tree) → in_outline self.now t ≡ true → length (items t) ≡ 0 }
        ensures filled { result ≡ false → self.now.objects ≡ false
            → (self.now.least ≤ self.now.most) × (0 < self.now.most) }
    {
        !self.objects && (self.most == 0 || self.most < self.least)
    }

    /// Returns whether the instance is in the set. Allocates nothing.
    #[inline(always)]
    pub fn contains<N: Node>(&self, instance: &N) -> bool
        ensures { result ≡ in_outline self.now (N.tree instance.now) }
    {
        if !instance.is_array() {
            return self.objects && instance.is_object();
        }
        let count = instance.item_count() as u64;
        self.least <= count && count <= self.most
    }
}
