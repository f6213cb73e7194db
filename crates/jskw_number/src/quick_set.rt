//! Sets of values that a keyword is known to accept, and that a few instructions test. A keyword
//! may accept more: a value that is not in its set is tested by the keyword itself.
ghost use Rattle.std.specs.Prelude.{◌+◌, ◌≡◌, ◌≤ℤ◌, ◌≤◌, IsTrue, ℤ, drop};
ghost use Rattle.std.specs.Prelude.{false, get_or, length, not, pos, true};
ghost use Rattle.std.specs.Option.{option_map_or};
ghost use Rattle.jskw_value.specs.Number.{Num, is_exact, is_written_as_integer};
ghost use Rattle.jskw_value.specs.Tree.{Items, Members, Tree, array, as_number, is_lawful, items, number};
ghost use Rattle.jskw_value.specs.Tree.{object};
ghost use Rattle.jskw_value.specs.declared.types.JsonType.{JsonType};
ghost use Rattle.std.specs.Int.NonZero.{non_zero_u64_get};

mod integer_range;
mod making;
mod number_test;

pub use integer_range::IntegerRange;
use jskw_value::{Array, JsonNumber, JsonType, Node};
use making::type_index;
use number_test::{Integers, Multiples, NaturalMultiples, NumberTest, reciprocal_of};

// How many items are tested one by one: for so few, what the loops over numbers set up takes longer
// than it saves.
const FEW: usize = 4;

/// A set of values by their types, in which the numbers may be limited to those that are written
/// without a fraction, to the integers of a range among these, or to such integers and all numbers
/// between them that have a fraction.
#[derive(Clone, Copy, Debug)]
pub struct QuickSet {
    // for each type, at its index, whether values of the type are in the set; at that of numbers, if
    // these are limited, whether the ends of the range alone decide which of them from 0 on are in it
    types: [bool; 6],
    // the numbers in the set are the integers of the range
    is_limited: bool,
    // and those with a fraction: between its ends if the numbers are limited, else all
    has_fractions: bool,
    integers: IntegerRange,
    ghost high: { is_limited ≡ true → get_or types 2 false ≡ true → pos 0 ≤ℤ integers.high },
    ghost divisor: { is_limited ≡ true → get_or types 2 false ≡ true
        → non_zero_u64_get integers.divisor ≡ 1 },
}

impl QuickSet {
    ghost use Rattle.jskw_number.specs.QuickSet.{IsBehind, is_in, is_in_limits, leading};

    /// Returns whether the instance is in the set. The instance must be lawful: it contains no
    /// float. Allocates nothing.
    #[inline(always)]
    #[tactic(auto, using(crate::proofs::QuickSets::values_within))]
    pub fn contains<N: Node>(&self, instance: &N) -> bool
        requires { IsTrue (is_lawful (N.tree instance.now)) }
        ensures { result ≡ is_in self.now (N.tree instance.now) }
    {
        if self.is_limited {
            if let Some(number) = instance.as_number() {
                return self.has(number);
            }
        }
        if !self.types[type_index(instance.json_type())] {
            return false;
        }
        if self.has_fractions {
            return true;
        }
        !is_fraction(instance)
    }

    /// Returns whether all arrays are in the set; if not, none is.
    pub fn has_arrays(&self) -> bool
        ensures { (ts : Items) → is_in self.now (array ts) ≡ result }
    {
        self.types[type_index(JsonType::Array)]
    }

    /// Returns whether all objects are in the set; if not, none is.
    pub fn has_objects(&self) -> bool
        ensures { (ms : Members) → is_in self.now (object ms) ≡ result }
    {
        self.types[type_index(JsonType::Object)]
    }

    /// Returns true only if no value is in the set: it has no type, and no numbers between its ends. May
    /// return false for an empty set whose numbers are limited.
    pub fn is_empty(&self) -> bool
        ensures { result ≡ true → (t : Tree) → is_in self.now t ≡ false }
    {
        if self.types != [false; 6] {
            return false;
        }
        !self.is_limited || self.integers.is_empty()
    }

    // Returns whether the number, which must be lawful, is in the set, which must be limited.
    #[inline(always)]
    #[tactic(auto, using(crate::proofs::QuickSets::numbers_within))]
    fn has<A: JsonNumber>(&self, number: &A) -> bool
        requires limited { self.now.is_limited ≡ true }
        requires lawful { IsTrue (is_exact (A.number number.now)) }
        ensures { result ≡ is_in_limits self.now (A.number number.now) }
    {
        if self.types[type_index(JsonType::Number)] {
            if let Some(natural) = number.as_u64() {
                return self.integers.has_natural(natural);
            }
        }
        match number.as_i64() {
            Some(integer) => self.integers.contains(integer),
            None => {
                self.has_fractions
                    && !number.is_written_as_integer()
                    && self.integers.encloses(number)
            }
        }
    }

    // Returns the index behind the first items from `start` on that are integers of the set from 0 on.
    #[inline(always)]
    fn behind_naturals<N: Node>(&self, start: usize, count: usize, instance: &N) -> usize
        requires limited { self.now.is_limited ≡ true }
        requires lawful { IsTrue (is_lawful (N.tree instance.now)) }
        requires count { count ≡ length (items (N.tree instance.now)) }
        requires start { start ≤ count }
        ensures { IsBehind self.now (items (N.tree instance.now)) start result }
    {
        let range = self.integers;
        let Some(naturals) = range.naturals() else {
            return start;
        };
        if range.divisor.get() == 1 {
            return self.behind(&naturals, start, count, instance);
        }
        let reciprocal = reciprocal_of(range.divisor);
        let multiples = NaturalMultiples {
            naturals,
            range,
            reciprocal,
        };
        self.behind(&multiples, start, count, instance)
    }

    // Returns the index behind the first items from `start` on that are numbers of the set.
    #[inline(never)]
    fn behind_numbers<N: Node>(&self, start: usize, count: usize, instance: &N) -> usize
        requires limited { self.now.is_limited ≡ true }
        requires lawful { IsTrue (is_lawful (N.tree instance.now)) }
        requires count { count ≡ length (items (N.tree instance.now)) }
        requires start { start ≤ count }
        ensures { IsBehind self.now (items (N.tree instance.now)) start result }
    {
        let range = self.integers;
        if range.divisor.get() != 1 {
            let reciprocal = reciprocal_of(range.divisor);
            return self.behind(&Multiples { range, reciprocal }, start, count, instance);
        }
        let start = self.behind(&Integers { range }, start, count, instance);
        if start < count && is_fraction(instance.item(start)) && self.has_fractions {
            return self.behind(&range.ends(), start, count, instance);
        }
        start
    }

    // Returns the index behind the first items from `start` on that are numbers and pass the test.
    #[inline(always)]
    fn behind<N: Node, T: NumberTest>(
        &self,
        test: &T,
        start: usize,
        count: usize,
        instance: &N,
    ) -> usize
        requires part { (n : Num) → T.accepts test.now n ≡ true → is_in self.now (number n) ≡ true }
        requires lawful { IsTrue (is_lawful (N.tree instance.now)) }
        requires count { count ≡ length (items (N.tree instance.now)) }
        requires start { start ≤ count }
        ensures { IsBehind self.now (items (N.tree instance.now)) start result }
    {
        let mut index = start;
        // Four items a turn: a turn of one item is as long as its test.
        while count - index >= 4 {
            if !self.is_passed(test, instance.item(index))
                || !self.is_passed(test, instance.item(index + 1))
                || !self.is_passed(test, instance.item(index + 2))
                || !self.is_passed(test, instance.item(index + 3))
            {
                break;
            }
            index += 4;
        }
        for rest in index..count {
            if !self.is_passed(test, instance.item(rest)) {
                return rest;
            }
        }
        count
    }

    // Returns whether the instance, which must be lawful, is a number that passes the test.
    #[inline(always)]
    #[tactic(auto, using(crate::proofs::QuickSets::passed_is_in))]
    fn is_passed<N: Node, T: NumberTest>(&self, test: &T, instance: &N) -> bool
        requires part { (n : Num) → T.accepts test.now n ≡ true → is_in self.now (number n) ≡ true }
        requires lawful { IsTrue (is_lawful (N.tree instance.now)) }
        ensures { result ≡ true → is_in self.now (N.tree instance.now) ≡ true }
    {
        match instance.as_number() {
            Some(number) => test.passes(number),
            None => false,
        }
    }

    /// Returns the index of the first item from `start` on that is not in the set, or `count` if
    /// there is none. `count` must be the number of items, which is 0 for a non-array, and `start` no
    /// more than that. The instance must be lawful. Allocates nothing.
    #[inline(never)]
    pub fn first_outside<N: Node>(&self, start: usize, count: usize, instance: &N) -> usize
        requires lawful { IsTrue (is_lawful (N.tree instance.now)) }
        requires count { count ≡ length (items (N.tree instance.now)) }
        requires start { start ≤ count }
        ensures first { result ≡ start + leading (is_in self.now)
            (drop start (items (N.tree instance.now))) }
        ensures within { result ≤ count }
    {
        let mut start = start;
        if self.is_limited && count - start > FEW {
            start = self.behind_naturals(start, count, instance);
            if start < count {
                start = self.behind_numbers(start, count, instance);
            }
        }
        for index in start..count {
            if !self.contains(instance.item(index)) {
                return index;
            }
        }
        count
    }
}

// Returns whether the instance, which must be lawful, is a number that is written with a fraction.
#[inline(always)]
fn is_fraction<N: Node>(instance: &N) -> bool
    requires { IsTrue (is_lawful (N.tree instance.now)) }
    ensures { result ≡ option_map_or (λ n. not (is_written_as_integer n))
        (as_number (N.tree instance.now)) false }
{
    match instance.as_number() {
        Some(number) => !number.is_written_as_integer(),
        None => false,
    }
}
