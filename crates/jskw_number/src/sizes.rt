//! Bounds on sizes: `minItems` and `maxItems` on the number of items of an array (JSON Schema
//! Validation 6.4.2, 6.4.1), `minProperties` and `maxProperties` on the number of members of an
//! object (JSON Schema Validation 6.5.2, 6.5.1).
//!
//! A bound is an integer from 0 to 2^64-1, as [`size_limit`](crate::helpers::size_limit) says.
//! [`fail_on_non_positive_integer`](crate::helpers::fail_on_non_positive_integer) says how other
//! values are refused.
#![tactic(auto, unfolding(jskw_report::specs::Read::asserted))]

ghost use Rattle.std.specs.Prelude.{◌≡◌, IfOk, IsTrue, length, true};
ghost use Rattle.serde_json.specs.View.{view, members_view};
ghost use Rattle.jskw_value.specs.Tree.{Tree, is_array, items};
ghost use Rattle.jskw_report.specs.Compile.{CompilesKeyword, CompilesTo, keyword_reading};
ghost use Rattle.jskw_report.specs.Holds.{assertion_holds};
ghost use Rattle.jskw_report.specs.Meaning.{as_keyword};
ghost use Rattle.jskw_report.specs.Read.{keyword_by, keyword_location, size_rule};
ghost use Rattle.jskw_report.specs.declared.keyword.KeywordName.TheVariants as keyword_name;
ghost use Rattle.jskw_number.specs.Meaning.{number_keyword, sized};
ghost use Rattle.jskw_number.specs.Size.{is_within, size_of, size_keyword_name};

use crate::helpers::bound_at;
use crate::number::NumberValidator;
use jskw_report::{
    Assertion, CompilationResult, Context, KeywordLocation, KeywordName, ValidationErrorKind,
};
use jskw_value::{Array, Json, Node, Object};
use serde_json::{Map, Value};
use std::alloc::{AllocError, Global};

/// The validator of a bound on a size: on the number of items of an array if `OF_ARRAYS`, else on
/// the number of members of an object; a lower bound if `IS_LEAST`, else an upper bound. It accepts
/// a value of the other types too.
#[derive(Debug, Drop)]
pub struct SizeLimit<const OF_ARRAYS: bool, const IS_LEAST: bool> {
    limit: u64,
    location: KeywordLocation,
}

/// The validator of `minItems` (JSON Schema Validation 6.4.2). It accepts an array with at least as
/// many items as the bound, and every non-array.
pub type MinItemsValidator = SizeLimit<true, true>;

/// The validator of `maxItems` (JSON Schema Validation 6.4.1). It accepts an array with at most as
/// many items as the bound, and every non-array.
pub type MaxItemsValidator = SizeLimit<true, false>;

/// The validator of `minProperties` (JSON Schema Validation 6.5.2). It accepts an object with at
/// least as many members as the bound, and every non-object.
pub type MinPropertiesValidator = SizeLimit<false, true>;

/// The validator of `maxProperties` (JSON Schema Validation 6.5.1). It accepts an object with at
/// most as many members as the bound, and every non-object.
pub type MaxPropertiesValidator = SizeLimit<false, false>;

impl<const OF_ARRAYS: bool, const IS_LEAST: bool> SizeLimit<OF_ARRAYS, IS_LEAST> {
    /// Compiles the value of the keyword into this validator. `ctx` is the context of the schema
    /// that has it.
    ///
    /// # Errors
    ///
    /// Fails if `schema` is not an integer from 0 to 2^64-1, or if memory runs out.
    pub fn compile<'a, F: Json>(
        alloc: Global,
        ctx: &Context<'_, F>,
        schema: &'a Value,
    ) -> CompilationResult<'a, SizeLimit<OF_ARRAYS, IS_LEAST>>
        ensures { let which = size_of OF_ARRAYS IS_LEAST in
            CompilesTo (λ v. as_keyword (sized which v)) result (keyword_by (size_rule which)
            (keyword_location ctx.now.location (size_keyword_name which)) (view schema.now)) }
    {
        let keyword = match (OF_ARRAYS, IS_LEAST) {
            (true, true) => KeywordName::MinItems,
            (true, false) => KeywordName::MaxItems,
            (false, true) => KeywordName::MinProperties,
            (false, false) => KeywordName::MaxProperties,
        };
        let (limit, location) = bound_at(alloc, ctx, keyword, schema)?;
        Ok(SizeLimit { limit, location })
    }

    /// Returns a copy, which shares the text of the location.
    pub fn copy(&self) -> Result<SizeLimit<OF_ARRAYS, IS_LEAST>, AllocError>
        ensures { IfOk result (λ v. v ≡ self.now) }
    {
        Ok(SizeLimit {
            limit: self.limit,
            location: self.location.copy()?,
        })
    }

    /// Returns the bound: an integer from 0 to 2^64-1.
    pub fn limit(&self) -> u64
        ensures { result ≡ self.now.limit }
    {
        self.limit
    }

    // Returns whether `count` is within the bound.
    fn allows(&self, count: u64) -> bool
        ensures { result ≡ is_within IS_LEAST self.now.limit count }
    {
        if IS_LEAST {
            count >= self.limit
        } else {
            count <= self.limit
        }
    }
}

impl<const IS_LEAST: bool> SizeLimit<true, IS_LEAST> {
    /// Returns whether an array of `count` items is within the bound.
    pub fn accepts(&self, count: u64) -> bool
        ensures { (t : Tree) → IsTrue (is_array t) → length (items t) ≡ count
            → result ≡ assertion_holds (sized (size_of true IS_LEAST) self.now).assertion t }
    {
        self.allows(count)
    }
}

impl<const OF_ARRAYS: bool, const IS_LEAST: bool> Assertion for SizeLimit<OF_ARRAYS, IS_LEAST> {
    ghost asserts = { sized (size_of OF_ARRAYS IS_LEAST) };

    fn holds<F: Json>(&self, instance: &F::Node) -> bool {
        if OF_ARRAYS {
            !instance.is_array() || self.allows(Array::len(instance) as u64)
        } else {
            !instance.is_object() || self.allows(Object::len(instance) as u64)
        }
    }

    fn kind(&self) -> ValidationErrorKind<'_> {
        let limit = self.limit;
        match (OF_ARRAYS, IS_LEAST) {
            (true, true) => ValidationErrorKind::MinItems { limit },
            (true, false) => ValidationErrorKind::MaxItems { limit },
            (false, true) => ValidationErrorKind::MinProperties { limit },
            (false, false) => ValidationErrorKind::MaxProperties { limit },
        }
    }

    fn location(&self) -> &KeywordLocation {
        &self.location
    }
}

/// Compiles `minItems` (JSON Schema Validation 6.4.2). Always returns `Some`.
///
/// # Errors
///
/// Fails if `schema` is not an integer from 0 to 2^64-1, or if memory runs out.
pub fn compile_min_items<'a, F: Json>(
    alloc: Global,
    ctx: &Context<'_, F>,
    parent: &'a Map<String, Value>,
    schema: &'a Value,
) -> Option<CompilationResult<'a, NumberValidator>>
    ensures { CompilesKeyword number_keyword result
        (keyword_reading keyword_name.MinItems ctx.now (members_view parent.now.entries) (view schema.now)) }
{
    match MinItemsValidator::compile(alloc, ctx, schema) {
        Ok(validator) => Some(Ok(NumberValidator::MinItems(validator))),
        Err(fault) => Some(Err(fault)),
    }
}

/// Compiles `maxItems` (JSON Schema Validation 6.4.1). Always returns `Some`.
///
/// # Errors
///
/// Fails if `schema` is not an integer from 0 to 2^64-1, or if memory runs out.
pub fn compile_max_items<'a, F: Json>(
    alloc: Global,
    ctx: &Context<'_, F>,
    parent: &'a Map<String, Value>,
    schema: &'a Value,
) -> Option<CompilationResult<'a, NumberValidator>>
    ensures { CompilesKeyword number_keyword result
        (keyword_reading keyword_name.MaxItems ctx.now (members_view parent.now.entries) (view schema.now)) }
{
    match MaxItemsValidator::compile(alloc, ctx, schema) {
        Ok(validator) => Some(Ok(NumberValidator::MaxItems(validator))),
        Err(fault) => Some(Err(fault)),
    }
}

/// Compiles `minProperties` (JSON Schema Validation 6.5.2). Always returns `Some`.
///
/// # Errors
///
/// Fails if `schema` is not an integer from 0 to 2^64-1, or if memory runs out.
pub fn compile_min_properties<'a, F: Json>(
    alloc: Global,
    ctx: &Context<'_, F>,
    parent: &'a Map<String, Value>,
    schema: &'a Value,
) -> Option<CompilationResult<'a, NumberValidator>>
    ensures { CompilesKeyword number_keyword result
        (keyword_reading keyword_name.MinProperties ctx.now (members_view parent.now.entries) (view schema.now)) }
{
    match MinPropertiesValidator::compile(alloc, ctx, schema) {
        Ok(validator) => Some(Ok(NumberValidator::MinProperties(validator))),
        Err(fault) => Some(Err(fault)),
    }
}

/// Compiles `maxProperties` (JSON Schema Validation 6.5.1). Always returns `Some`.
///
/// # Errors
///
/// Fails if `schema` is not an integer from 0 to 2^64-1, or if memory runs out.
pub fn compile_max_properties<'a, F: Json>(
    alloc: Global,
    ctx: &Context<'_, F>,
    parent: &'a Map<String, Value>,
    schema: &'a Value,
) -> Option<CompilationResult<'a, NumberValidator>>
    ensures { CompilesKeyword number_keyword result
        (keyword_reading keyword_name.MaxProperties ctx.now (members_view parent.now.entries) (view schema.now)) }
{
    match MaxPropertiesValidator::compile(alloc, ctx, schema) {
        Ok(validator) => Some(Ok(NumberValidator::MaxProperties(validator))),
        Err(fault) => Some(Err(fault)),
    }
}
