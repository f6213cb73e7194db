//! How quick sets are made.
ghost use Rattle.std.specs.Prelude.{◌&&◌, ◌||◌, ◌≡◌, ◌<◌, false, get_or, true};
ghost use Rattle.jskw_value.specs.Number.{Num};
ghost use Rattle.jskw_value.specs.Tree.{Tree, as_number, is_array, is_object, number};
ghost use Rattle.jskw_value.specs.Types.{json_type};
ghost use Rattle.jskw_value.specs.declared.types.JsonType.{JsonType};
ghost use Rattle.jskw_number.specs.QuickSet.{has_fraction, has_number, is_in, type_index};
ghost use Rattle.std.specs.Option.{option_map_or};
ghost use Rattle.jskw_report.specs.Holds.{is_of};
ghost use Rattle.jskw_report.specs.Keyword.{Integers};

use super::{IntegerRange, QuickSet};
use jskw_value::{JsonType, JsonTypeSet};

impl QuickSet {
    // Returns the set of all values of some types: those with a mark at their indices.
    fn of_marks(types: [bool; 6]) -> QuickSet
        ensures types { result.types ≡ types }
        ensures unlimited { result.is_limited ≡ false }
        ensures fractions { result.has_fractions ≡ true }
    {
        QuickSet {
            types,
            is_limited: false,
            has_fractions: true,
            integers: IntegerRange::all(),
        }
    }

    // Returns the set of all values of some types, but of the numbers only these integers, with or
    // without those between them that have a fraction.
    fn limited(types: [bool; 6], has_fractions: bool, integers: IntegerRange) -> QuickSet
        ensures types { (t : Tree) → as_number t ≡ None
            → is_in result t ≡ get_or types (type_index (json_type t)) false }
        ensures numbers { (n : Num) → is_in result (number n)
            ≡ ((has_fractions && has_fraction integers n) || has_number integers n) }
    {
        let mut types = types;
        types[type_index(JsonType::Number)] = integers.ends_decide();
        QuickSet {
            types,
            is_limited: true,
            has_fractions,
            integers,
        }
    }

    /// Returns the set of all values that are no numbers, and of these integers.
    pub fn but_numbers(integers: IntegerRange) -> QuickSet
        ensures { (n : Num) → is_in result (number n) ≡ has_number integers n }
    {
        QuickSet::limited([true; 6], false, integers)
    }

    /// Returns the set of all values that are no numbers, of these integers, and of the numbers that
    /// are written with a fraction and are between the ends of the range.
    pub fn but_numbers_beyond(integers: IntegerRange) -> QuickSet
        ensures { (n : Num) → is_in result (number n) ≡ (has_fraction integers n || has_number integers n) }
    {
        QuickSet::limited([true; 6], true, integers)
    }

    /// Returns the set of these integers.
    pub fn of_integers(integers: IntegerRange) -> QuickSet
        ensures { (t : Tree) → is_in result t ≡ option_map_or (has_number integers) (as_number t) false }
    {
        QuickSet::limited([false; 6], false, integers)
    }

    /// Returns the empty set.
    pub fn none() -> QuickSet
        ensures { (t : Tree) → is_in result t ≡ false }
    {
        QuickSet::of_marks([false; 6])
    }

    /// Returns the set of all values.
    pub fn all() -> QuickSet
        ensures { (t : Tree) → is_in result t ≡ true }
    {
        QuickSet::of_marks([true; 6])
    }

    /// Returns the set of all values but arrays.
    pub fn but_arrays() -> QuickSet
        ensures { (t : Tree) → is_in result t ≡ true → is_array t ≡ false }
    {
        QuickSet::of_marks([true, true, true, true, false, true])
    }

    /// Returns the set of all values but objects.
    pub fn but_objects() -> QuickSet
        ensures { (t : Tree) → is_in result t ≡ true → is_object t ≡ false }
    {
        QuickSet::of_marks([true, true, true, true, true, false])
    }

    /// Returns values of these types (JSON Schema Validation 6.1.1), by whichever rule of integers:
    /// all of them, but of the integers, if `number` is none of the types, only those that are written
    /// without a fraction.
    #[tactic(auto, using(crate::proofs::QuickSets::accepted_types))]
    pub fn of_types(types: JsonTypeSet) -> QuickSet
        ensures { (rule : Integers) (t : Tree) → is_in result t ≡ true → is_of rule types t ≡ true }
    {
        let number = types.contains(JsonType::Number);
        let integer = types.contains(JsonType::Integer);
        QuickSet {
            types: [
                types.contains(JsonType::Null),
                types.contains(JsonType::Boolean),
                number | integer,
                types.contains(JsonType::String),
                types.contains(JsonType::Array),
                types.contains(JsonType::Object),
            ],
            is_limited: false,
            has_fractions: number | !integer,
            integers: IntegerRange::all(),
        }
    }

    // Returns a range whose numbers are in the set, and, if the set has fractions, those with a
    // fraction that are between its ends.
    #[tactic(auto, using(crate::proofs::QuickSets::numbers_in))]
    fn numbers(self) -> IntegerRange
        ensures integers { (n : Num) → has_number result n ≡ true → is_in self (number n) ≡ true }
        ensures fractions { (n : Num) → self.has_fractions ≡ true → has_fraction result n ≡ true
            → is_in self (number n) ≡ true }
    {
        if self.is_limited || self.types[type_index(JsonType::Number)] {
            self.integers
        } else {
            IntegerRange::none()
        }
    }

    /// Returns values that are in both sets.
    #[must_use]
    #[tactic(auto, using(crate::proofs::QuickSets::both_typed))]
    pub fn and(self, other: QuickSet) -> QuickSet
        ensures { (t : Tree) → is_in result t ≡ true → (is_in self t && is_in other t) ≡ true }
    {
        let types = in_both(&self.types, &other.types);
        let has_fractions = self.has_fractions & other.has_fractions;
        let integers = self.numbers().and(other.numbers());
        if self.is_limited || other.is_limited {
            return QuickSet::limited(types, has_fractions, integers);
        }
        QuickSet {
            types,
            is_limited: false,
            has_fractions,
            integers,
        }
    }
}

// Returns the types that have a mark in both.
fn in_both(types: &[bool; 6], others: &[bool; 6]) -> [bool; 6]
    ensures { (j : JsonType) → get_or result (type_index j) false
        ≡ (get_or types.now (type_index j) false && get_or others.now (type_index j) false) }
{
    [
        types[0] && others[0],
        types[1] && others[1],
        types[2] && others[2],
        types[3] && others[3],
        types[4] && others[4],
        types[5] && others[5],
    ]
}

// Returns the index of a type in a set. The order is that of the variants of `serde_json::Value`, so
// that a value's variant is its index.
pub(super) fn type_index(json_type: JsonType) -> usize
    ensures value { result ≡ type_index json_type }
    ensures within { result < 6 }
{
    match json_type {
        JsonType::Null => 0,
        JsonType::Boolean => 1,
        JsonType::Integer | JsonType::Number => 2,
        JsonType::String => 3,
        JsonType::Array => 4,
        JsonType::Object => 5,
    }
}
