//! The validators of this crate as one type.
ghost use Rattle.jskw_number.specs.Meaning.{number_assertion};
ghost use Rattle.jskw_number.specs.Meaning.{number_keyword};
ghost use Rattle.jskw_number.specs.Outline.{AcceptsOutline};
ghost use Rattle.jskw_number.specs.QuickSet.{Accepts};

use crate::minmax::{ExclusiveMaximum, ExclusiveMinimum, Maximum, Minimum};
use crate::multiple_of::MultipleOfIntegerValidator;
use crate::outline::Outline;
use crate::quick_set::QuickSet;
use crate::sizes::{
    MaxItemsValidator, MaxPropertiesValidator, MinItemsValidator, MinPropertiesValidator,
};
use jskw_report::{Assertion, KeywordLocation, ValidationErrorKind};
use jskw_value::Json;

/// The validator of one keyword on numbers or sizes.
#[derive(Debug)]
pub enum NumberValidator {
    /// `minItems` (JSON Schema Validation 6.4.2).
    MinItems(MinItemsValidator),
    /// `maxItems` (JSON Schema Validation 6.4.1).
    MaxItems(MaxItemsValidator),
    /// `minProperties` (JSON Schema Validation 6.5.2).
    MinProperties(MinPropertiesValidator),
    /// `maxProperties` (JSON Schema Validation 6.5.1).
    MaxProperties(MaxPropertiesValidator),
    /// `minimum` (JSON Schema Validation 6.2.4) with a `u64`: for a limit of 0 or more.
    MinimumU64(Minimum<u64>),
    /// `minimum` with an `i64`: for a negative limit.
    MinimumI64(Minimum<i64>),
    /// `maximum` (JSON Schema Validation 6.2.2) with a `u64`: for a limit of 0 or more.
    MaximumU64(Maximum<u64>),
    /// `maximum` with an `i64`: for a negative limit.
    MaximumI64(Maximum<i64>),
    /// `exclusiveMinimum` (JSON Schema Validation 6.2.5), or an exclusive `minimum` of Draft 4,
    /// with a `u64`: for a limit of 0 or more.
    ExclusiveMinimumU64(ExclusiveMinimum<u64>),
    /// The same with an `i64`: for a negative limit.
    ExclusiveMinimumI64(ExclusiveMinimum<i64>),
    /// `exclusiveMaximum` (JSON Schema Validation 6.2.3), or an exclusive `maximum` of Draft 4,
    /// with a `u64`: for a limit of 0 or more.
    ExclusiveMaximumU64(ExclusiveMaximum<u64>),
    /// The same with an `i64`: for a negative limit.
    ExclusiveMaximumI64(ExclusiveMaximum<i64>),
    /// `multipleOf` (JSON Schema Validation 6.2.1).
    MultipleOfInteger(MultipleOfIntegerValidator),
}

// Evaluates `$answer` with `$validator` as the validator in the variant, whichever it is.
macro_rules! dispatch {
    ($number:expr, $validator:ident => $answer:expr) => {
        dispatch!(
            @arms $number, $validator => $answer;
            MinItems MaxItems MinProperties MaxProperties
            MinimumU64 MinimumI64 MaximumU64 MaximumI64
            ExclusiveMinimumU64 ExclusiveMinimumI64 ExclusiveMaximumU64 ExclusiveMaximumI64
            MultipleOfInteger
        )
    };
    (@arms $number:expr, $validator:ident => $answer:expr; $($variant:ident)+) => {
        match $number {
            $(NumberValidator::$variant($validator) => $answer,)+
        }
    };
}

// Written out: a derived one is proved again, with those of all validators, in each crate that drops
// one.
impl Drop for NumberValidator {
    fn drop(self) {
        dispatch!(self, _validator => {})
    }
}

impl NumberValidator {
    /// Returns values that the keyword accepts, among them all values that it does not concern.
    pub fn quick_set(&self) -> QuickSet
        ensures { Accepts result (number_keyword self.now) }
    {
        match self {
            NumberValidator::MinItems(_) | NumberValidator::MaxItems(_) => QuickSet::but_arrays(),
            NumberValidator::MinProperties(_) | NumberValidator::MaxProperties(_) => {
                QuickSet::but_objects()
            }
            NumberValidator::MinimumU64(v) => v.quick_set(),
            NumberValidator::MinimumI64(v) => v.quick_set(),
            NumberValidator::MaximumU64(v) => v.quick_set(),
            NumberValidator::MaximumI64(v) => v.quick_set(),
            NumberValidator::ExclusiveMinimumU64(v) => v.quick_set(),
            NumberValidator::ExclusiveMinimumI64(v) => v.quick_set(),
            NumberValidator::ExclusiveMaximumU64(v) => v.quick_set(),
            NumberValidator::ExclusiveMaximumI64(v) => v.quick_set(),
            NumberValidator::MultipleOfInteger(v) => v.quick_set(),
        }
    }

    /// Returns arrays and objects that the keyword accepts, whatever their items and members are.
    pub fn outline(&self) -> Outline
        ensures { AcceptsOutline result (number_keyword self.now) }
    {
        match self {
            NumberValidator::MinItems(v) => Outline::between(v.limit(), u64::MAX),
            NumberValidator::MaxItems(v) => Outline::between(0, v.limit()),
            _ => Outline::of(self.quick_set()),
        }
    }
}

impl Assertion for NumberValidator {
    ghost asserts = { number_assertion };

    #[inline(never)]
    fn holds<F: Json>(&self, instance: &F::Node) -> bool {
        dispatch!(self, validator => validator.holds::<F>(instance))
    }

    fn kind(&self) -> ValidationErrorKind<'_> {
        dispatch!(self, validator => validator.kind())
    }

    fn location(&self) -> &KeywordLocation {
        dispatch!(self, validator => validator.location())
    }
}
