//! Limits on numbers (JSON Schema Validation 6.2.2 to 6.2.5): `minimum`, `maximum`,
//! `exclusiveMinimum` and `exclusiveMaximum`. Numbers are compared by their exact values, however
//! they are written.
//!
//! A limit is a number that `serde_json` holds as a `u64` or an `i64`: an integer from -2^63 to
//! 2^64-1, written without a fraction or an exponent. Other values are refused:
//!
//! - any other number, such as `1.5`, `2.0` or `-0`, with the kind `CompileError`;
//! - any other value with the kind `WrongType` and the type number.
ghost use Rattle.std.specs.Prelude.{◌≡◌, ◌-◌, ◌^◌, ◌≤ℤ◌, ◌<ℤ◌, ℤ, pos, negsuc, true, Some};
ghost use Rattle.std.specs.Prelude.{IfSome, IsTrue, ℕ};
ghost use Rattle.serde_json.specs.View.{view};
ghost use Rattle.jskw_value.specs.Number.{exact, is_exact};
ghost use Rattle.jskw_value.specs.Tree.{number as number_tree};
ghost use Rattle.jskw_report.specs.Errors.{kind_of};
ghost use Rattle.jskw_report.specs.Fail.{limit_kind};
ghost use Rattle.jskw_report.specs.Holds.{stands_in};
ghost use Rattle.jskw_report.specs.Keyword.{Relation};
ghost use Rattle.jskw_report.specs.Keyword as relation;
ghost use Rattle.jskw_report.specs.Meaning.{as_keyword};
ghost use Rattle.jskw_report.specs.Read.{limit_keyword_name};
ghost use Rattle.jskw_number.specs.Limit.{allows, stands_to};
ghost use Rattle.jskw_number.specs.QuickSet.{Accepts, encloses, in_range};
ghost use Rattle.jskw_number.specs.Meaning.{limit_at, limit_of, number_assertion};

mod compilation;

use crate::number::NumberValidator;
use crate::quick_set::{IntegerRange, QuickSet};
pub(crate) use compilation::compile_limit;
pub use compilation::{
    compile_exclusive_maximum, compile_exclusive_minimum, compile_maximum, compile_minimum,
};
use jskw_report::{Assertion, KeywordLocation, KeywordName, Location, ValidationErrorKind};
use jskw_value::{Json, JsonNumber, Node};
use serde_json::Value;
use std::cmp::Ordering;
use std::marker::PhantomData;

/// An integer type that holds limits: `u64` or `i64`.
pub trait Whole: Copy + Drop {
    /// The integer.
    ghost whole: { Self → ℤ };

    /// Returns the integer, which is from -2^63 to 2^64-1.
    fn to_i128(self) -> i128
        ensures value { result ≡ whole self }
        ensures low { negsuc (2 ^ 63 - 1) ≤ℤ result }
        ensures high { result <ℤ pos (2 ^ 64) };

    /// Returns how `number` compares to this limit if it is written as an integer of this type,
    /// else `None`: the caller then compares decimals, which is slower. The number must be a
    /// decimal, not a float.
    fn order_of<N: JsonNumber>(self, number: &N) -> Option<Ordering>
        requires { IsTrue (is_exact (N.number number.now)) }
        ensures { IfSome result (λ o. Some o
            ≡ stands_to (whole self) (number_tree (N.number number.now))) };
}

impl Whole for u64 {
    ghost whole = { pos };

    fn to_i128(self) -> i128 {
        self as i128
    }

    fn order_of<N: JsonNumber>(self, number: &N) -> Option<Ordering> {
        Some(number.as_u64()?.cmp(&self))
    }
}

impl Whole for i64 {
    ghost whole = { λ z. z };

    fn to_i128(self) -> i128 {
        self as i128
    }

    fn order_of<N: JsonNumber>(self, number: &N) -> Option<Ordering> {
        Some(number.as_i64()?.cmp(&self))
    }
}

/// One of the four relations of a number to a limit, as a type.
pub trait LimitTest {
    /// The relation.
    ghost relation: { Relation };

    /// Returns the keyword of the relation.
    fn keyword() -> KeywordName
        ensures { result ≡ limit_keyword_name relation };

    /// Returns whether a number is within the limit if it compares to the limit as `ordering` says.
    fn allows(ordering: Ordering) -> bool
        ensures { result ≡ allows relation ordering };

    /// Returns integers that are within the limit, which must be from -2^63 to 2^64-1. All numbers
    /// between them are so too.
    fn integers(limit: i128) -> IntegerRange
        requires low { negsuc (2 ^ 63 - 1) ≤ℤ limit }
        requires high { limit <ℤ pos (2 ^ 64) }
        ensures integers { (z : ℤ) → in_range result z ≡ true
            → stands_in relation z 0 limit ≡ true }
        ensures enclosed { (c : ℤ) (k : ℕ) → encloses result (exact c k) ≡ true
            → stands_in relation c k limit ≡ true };

    /// Returns the kind of error for a number that is not within the limit.
    fn kind<'k>(limit: i128) -> ValidationErrorKind<'k>
        ensures { kind_of result ≡ limit_kind relation limit };

    /// Creates the validator of a limit that is a `u64`. `value` is the limit as the schema has it,
    /// `location` the keyword location of the error.
    fn of_u64(limit: u64, value: Value, location: KeywordLocation) -> NumberValidator
        ensures assertion { number_assertion result ≡ limit_at relation (pos limit) location }
        ensures value { limit_of result ≡ Some (view value) };

    /// Creates the validator of a limit that is an `i64`. `value` is the limit as the schema has
    /// it, `location` the keyword location of the error.
    fn of_i64(limit: i64, value: Value, location: KeywordLocation) -> NumberValidator
        ensures assertion { number_assertion result ≡ limit_at relation limit location }
        ensures value { limit_of result ≡ Some (view value) };
}

/// The validator of a limit. It accepts a number that is in the relation `R` to the limit, and
/// every non-number.
#[derive(Drop)]
#[derive_where(Debug; T)]
pub struct Limit<T, R> {
    limit: T,
    limit_value: Value,
    location: KeywordLocation,
    relation: PhantomData<R>,
}

/// Creates the validator from the limit, the limit as the schema has it, and the keyword location.
impl<T, R> From<(T, Value, Location)> for Limit<T, R> {
    ghost from_gives = { λ parts v. (v.limit ≡ parts.0) × (v.limit_value ≡ parts.1)
        × (v.location ≡ parts.2) };

    fn from(parts: (T, Value, Location)) -> Limit<T, R> {
        let (limit, limit_value, location) = parts;
        Limit::new(limit, limit_value, KeywordLocation::from(location))
    }
}

impl<T, R> Limit<T, R> {
    // Creates the validator from the limit, the limit as the schema has it, and the keyword location.
    fn new(limit: T, limit_value: Value, location: KeywordLocation) -> Limit<T, R>
        ensures limit { result.limit ≡ limit }
        ensures value { result.limit_value ≡ limit_value }
        ensures location { result.location ≡ location }
    {
        Limit {
            limit,
            limit_value,
            location,
            relation: PhantomData,
        }
    }

    /// Returns the limit as the schema has it.
    pub fn limit_value(&self) -> &Value
        ensures { result.now ≡ self.now.limit_value }
    {
        &self.limit_value
    }
}

impl<T: Whole, R: LimitTest> Limit<T, R> {
    /// Returns values that are within the limit, among them all that are no numbers.
    #[tactic(auto, using(crate::proofs::QuickSets::accepted_limit))]
    pub fn quick_set(&self) -> QuickSet
        ensures { Accepts result
            (as_keyword (limit_at R.relation (T.whole self.now.limit) self.now.location)) }
    {
        QuickSet::but_numbers_beyond(R::integers(self.limit.to_i128()))
    }
}

impl<T: Whole, R: LimitTest> Assertion for Limit<T, R> {
    ghost asserts = { λ v. limit_at R.relation (T.whole v.limit) v.location };

    #[tactic(auto, using(crate::proofs::Limits::holding))]
    fn holds<F: Json>(&self, instance: &F::Node) -> bool {
        let Some(number) = instance.as_number() else {
            return true;
        };
        match self.limit.order_of(number) {
            Some(ordering) => R::allows(ordering),
            None => R::allows(number.decimal().cmp_whole(self.limit.to_i128())),
        }
    }

    fn kind(&self) -> ValidationErrorKind<'_> {
        R::kind(self.limit.to_i128())
    }

    fn location(&self) -> &KeywordLocation {
        &self.location
    }
}

/// The relation of `minimum`: the number is at least the limit.
#[derive(Clone, Copy, Debug)]
pub struct AtLeast;

impl LimitTest for AtLeast {
    ghost relation = { relation.Minimum };

    fn keyword() -> KeywordName {
        KeywordName::Minimum
    }

    fn allows(ordering: Ordering) -> bool {
        ordering.is_ge()
    }

    #[tactic(auto, using(crate::proofs::QuickSets::whole_limits))]
    fn integers(limit: i128) -> IntegerRange {
        IntegerRange::at_least(limit)
    }

    fn kind<'k>(limit: i128) -> ValidationErrorKind<'k> {
        ValidationErrorKind::Minimum { limit }
    }

    fn of_u64(limit: u64, value: Value, location: KeywordLocation) -> NumberValidator {
        NumberValidator::MinimumU64(Limit::new(limit, value, location))
    }

    fn of_i64(limit: i64, value: Value, location: KeywordLocation) -> NumberValidator {
        NumberValidator::MinimumI64(Limit::new(limit, value, location))
    }
}

/// The validator of `minimum` (JSON Schema Validation 6.2.4). It accepts a number that is at least
/// the limit, and every non-number.
pub type Minimum<T> = Limit<T, AtLeast>;

/// The relation of `maximum`: the number is at most the limit.
#[derive(Clone, Copy, Debug)]
pub struct AtMost;

impl LimitTest for AtMost {
    ghost relation = { relation.Maximum };

    fn keyword() -> KeywordName {
        KeywordName::Maximum
    }

    fn allows(ordering: Ordering) -> bool {
        ordering.is_le()
    }

    #[tactic(auto, using(crate::proofs::QuickSets::whole_limits))]
    fn integers(limit: i128) -> IntegerRange {
        IntegerRange::at_most(limit)
    }

    fn kind<'k>(limit: i128) -> ValidationErrorKind<'k> {
        ValidationErrorKind::Maximum { limit }
    }

    fn of_u64(limit: u64, value: Value, location: KeywordLocation) -> NumberValidator {
        NumberValidator::MaximumU64(Limit::new(limit, value, location))
    }

    fn of_i64(limit: i64, value: Value, location: KeywordLocation) -> NumberValidator {
        NumberValidator::MaximumI64(Limit::new(limit, value, location))
    }
}

/// The validator of `maximum` (JSON Schema Validation 6.2.2). It accepts a number that is at most
/// the limit, and every non-number.
pub type Maximum<T> = Limit<T, AtMost>;

/// The relation of `exclusiveMinimum`: the number is above the limit.
#[derive(Clone, Copy, Debug)]
pub struct Above;

impl LimitTest for Above {
    ghost relation = { relation.ExclusiveMinimum };

    fn keyword() -> KeywordName {
        KeywordName::ExclusiveMinimum
    }

    fn allows(ordering: Ordering) -> bool {
        ordering.is_gt()
    }

    #[tactic(auto, using(crate::proofs::QuickSets::whole_limits))]
    fn integers(limit: i128) -> IntegerRange {
        IntegerRange::at_least(limit + 1)
    }

    fn kind<'k>(limit: i128) -> ValidationErrorKind<'k> {
        ValidationErrorKind::ExclusiveMinimum { limit }
    }

    fn of_u64(limit: u64, value: Value, location: KeywordLocation) -> NumberValidator {
        NumberValidator::ExclusiveMinimumU64(Limit::new(limit, value, location))
    }

    fn of_i64(limit: i64, value: Value, location: KeywordLocation) -> NumberValidator {
        NumberValidator::ExclusiveMinimumI64(Limit::new(limit, value, location))
    }
}

/// The validator of `exclusiveMinimum` (JSON Schema Validation 6.2.5). It accepts a number that is
/// above the limit, and every non-number.
pub type ExclusiveMinimum<T> = Limit<T, Above>;

/// The relation of `exclusiveMaximum`: the number is below the limit.
#[derive(Clone, Copy, Debug)]
pub struct Below;

impl LimitTest for Below {
    ghost relation = { relation.ExclusiveMaximum };

    fn keyword() -> KeywordName {
        KeywordName::ExclusiveMaximum
    }

    fn allows(ordering: Ordering) -> bool {
        ordering.is_lt()
    }

    #[tactic(auto, using(crate::proofs::QuickSets::whole_limits))]
    fn integers(limit: i128) -> IntegerRange {
        IntegerRange::at_most(limit - 1)
    }

    fn kind<'k>(limit: i128) -> ValidationErrorKind<'k> {
        ValidationErrorKind::ExclusiveMaximum { limit }
    }

    fn of_u64(limit: u64, value: Value, location: KeywordLocation) -> NumberValidator {
        NumberValidator::ExclusiveMaximumU64(Limit::new(limit, value, location))
    }

    fn of_i64(limit: i64, value: Value, location: KeywordLocation) -> NumberValidator {
        NumberValidator::ExclusiveMaximumI64(Limit::new(limit, value, location))
    }
}

/// The validator of `exclusiveMaximum` (JSON Schema Validation 6.2.3). It accepts a number that is
/// below the limit, and every non-number.
pub type ExclusiveMaximum<T> = Limit<T, Below>;
