//! `multipleOf` (JSON Schema Validation 6.2.1): the number divided by the divisor is an integer.
//! The division is exact for every decimal.
//!
//! A divisor is a number above 0 that `serde_json` holds as a `u64`: an integer from 1 to 2^64-1,
//! written without a fraction or an exponent. Other values are refused:
//!
//! - an integer of 0 or less with the kind `ExclusiveMinimum` and the limit 0;
//! - any other number, such as `0.5`, `2.0` or `-0`, with the kind `CompileError`;
//! - any other value with the kind `WrongType` and the type number.
#![tactic(auto, unfolding(jskw_report::specs::Read::asserted))]

ghost use Rattle.std.specs.Int.NonZero.{non_zero_u64_get};
ghost use Rattle.serde_json.specs.View.{view, members_view};
ghost use Rattle.jskw_report.specs.Compile.{CompilesKeyword, CompilesTo, keyword_reading};
ghost use Rattle.jskw_report.specs.KeywordValue.{divisor_value};
ghost use Rattle.jskw_report.specs.Meaning.{as_keyword};
ghost use Rattle.jskw_report.specs.Read.{divisor_rule, keyword_by, keyword_location};
ghost use Rattle.jskw_report.specs.declared.keyword.KeywordName.TheVariants as keyword_name;
ghost use Rattle.jskw_number.specs.QuickSet.{Accepts};
ghost use Rattle.jskw_number.specs.Meaning.{multiple_of_integer, number_keyword};

use crate::helpers::{size_limit, whole_number};
use crate::number::NumberValidator;
use crate::quick_set::{IntegerRange, QuickSet};
use jskw_report::{
    Assertion, CompilationResult, CompileFault, Context, KeywordLocation, KeywordName,
    ValidationErrorKind,
};
use jskw_value::{Json, JsonNumber, Node};
use serde_json::{Map, Value};
use std::alloc::Global;
use std::num::NonZeroU64;

/// The validator of `multipleOf`. It accepts a number that is the divisor times an integer, and
/// every non-number.
#[derive(Debug, Drop)]
pub struct MultipleOfIntegerValidator {
    multiple_of: NonZeroU64,
    location: KeywordLocation,
}

impl MultipleOfIntegerValidator {
    // Reads the divisor, and creates its validator.
    fn compile<'a, F: Json>(
        alloc: Global,
        ctx: &Context<'_, F>,
        schema: &'a Value,
    ) -> CompilationResult<'a, MultipleOfIntegerValidator>
        ensures { CompilesTo (λ v. as_keyword (multiple_of_integer v)) result (keyword_by divisor_rule
            (keyword_location ctx.now.location keyword_name.MultipleOf) (view schema.now)) }
    {
        let location = ctx.keyword_location(alloc, KeywordName::MultipleOf)?;
        let multiple_of = divisor(alloc, &location, schema)?;
        Ok(MultipleOfIntegerValidator {
            multiple_of,
            location,
        })
    }

    /// Returns values that the keyword accepts, among them all that are no numbers.
    #[tactic(auto, using(crate::proofs::QuickSets::accepted_multiple))]
    pub fn quick_set(&self) -> QuickSet
        ensures { Accepts result (as_keyword (multiple_of_integer self.now)) }
    {
        QuickSet::but_numbers(IntegerRange::multiples_of(self.multiple_of))
    }
}

#[tactic(auto, using(crate::proofs::Divisors::divides))]
impl Assertion for MultipleOfIntegerValidator {
    ghost asserts = { multiple_of_integer };

    fn holds<F: Json>(&self, instance: &F::Node) -> bool {
        let Some(number) = instance.as_number() else {
            return true;
        };
        match number.as_u64() {
            Some(whole) => whole % self.multiple_of.get() == 0,
            None => number.decimal().is_multiple_of(self.multiple_of.get()),
        }
    }

    fn kind(&self) -> ValidationErrorKind<'_> {
        let multiple_of = self.multiple_of.get();
        ValidationErrorKind::MultipleOf { multiple_of }
    }

    fn location(&self) -> &KeywordLocation {
        &self.location
    }
}

/// Compiles `multipleOf`. Always returns `Some`.
///
/// # Errors
///
/// Fails if `schema` is not a divisor, as the [module's documentation](self) says, or if memory
/// runs out.
pub fn compile<'a, F: Json>(
    alloc: Global,
    ctx: &Context<'_, F>,
    parent: &'a Map<String, Value>,
    schema: &'a Value,
) -> Option<CompilationResult<'a, NumberValidator>>
    ensures { CompilesKeyword number_keyword result
        (keyword_reading keyword_name.MultipleOf ctx.now (members_view parent.now.entries) (view schema.now)) }
{
    match MultipleOfIntegerValidator::compile(alloc, ctx, schema) {
        Ok(validator) => Some(Ok(NumberValidator::MultipleOfInteger(validator))),
        Err(fault) => Some(Err(fault)),
    }
}

// Reads the divisor that `value` is. Refuses any other value at `location`.
#[tactic(auto, using(crate::proofs::Divisors::divisors))]
fn divisor<'a>(
    alloc: Global,
    location: &KeywordLocation,
    value: &'a Value,
) -> CompilationResult<'a, NonZeroU64>
    ensures { CompilesTo non_zero_u64_get result (divisor_value location.now (view value.now)) }
{
    whole_number(alloc, location, value)?;
    match size_limit(value).and_then(NonZeroU64::new) {
        Some(divisor) => Ok(divisor),
        None => {
            let kind = ValidationErrorKind::ExclusiveMinimum { limit: 0 };
            Err(CompileFault::wrong(alloc, kind, location, value))
        }
    }
}
