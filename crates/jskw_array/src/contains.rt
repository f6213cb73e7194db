//! `contains` (JSON Schema Core 10.3.1.3) with `minContains` and `maxContains` (JSON Schema
//! Validation 6.4.4, 6.4.5).
ghost use Rattle.std.specs.Prelude.{◌≡◌};
ghost use Rattle.jskw_array.specs.Words.{CompilesKeyword, IfOk, CompilesTo, bound_beside, bound_value};
ghost use Rattle.jskw_array.specs.Words.{bounds_between, boxed_bounds, member_location, members_view};
ghost use Rattle.jskw_array.specs.Words.{read_bounds, keyword_reading, validator_keyword, view};

use crate::compiler::compile_at;
use crate::matching::{ItemBounds, Matching};
pub use crate::upstream::{
    ContainsValidator, MaxContainsValidator, MinContainsValidator, MinMaxContainsValidator,
};
use crate::validator::Validator;
use jskw_number::helpers::map_get_u64;
use jskw_report::{CompilationResult, Context, Draft, KeywordName, Vocabulary};
use jskw_value::Json;
use serde_json::{Map, Value};
use std::alloc::{AllocError, Global};

/// Compiles `contains`, whose value is a schema. Always returns `Some`. From 2019-09 on, with the
/// validation vocabulary, reads the siblings `minContains` and `maxContains` too, overridden or
/// not.
///
/// # Errors
///
/// Fails if memory runs out, or with the first of these errors:
///
/// - `minContains`, then `maxContains`, is not an integer from 0 to 2^64-1, as
///   [`fail_on_non_positive_integer`](jskw_number::helpers::fail_on_non_positive_integer) says. The
///   error is at the location of that keyword.
/// - The schema has an error, as [`compile`](crate::compiler::compile) says.
#[inline(never)]
#[cycle(compile)]
pub fn compile<'a, F: Json>(
    alloc: Global,
    ctx: &Context<'_, F>,
    parent: &'a Map<String, Value>,
    schema: &'a Value,
) -> Option<CompilationResult<'a, Validator<F>>>
    ensures { CompilesKeyword validator_keyword result
        (keyword_reading KeywordName.Contains ctx.now (members_view parent.now.entries) (view schema.now)) }
{
    let bounds = match bounds_beside(alloc, ctx, parent) {
        Ok(bounds) => bounds,
        Err(fault) => return Some(Err(fault)),
    };
    match compile_at(alloc, ctx, KeywordName::Contains, schema) {
        Ok(node) => Some(Ok(Validator::Matching(Matching { node, bounds }))),
        Err(fault) => Some(Err(fault)),
    }
}

// Reads the bounds beside `contains` in `parent`. Fails with the first fault.
#[inline(never)]
fn bounds_beside<'a, F: Json>(
    alloc: Global,
    ctx: &Context<'_, F>,
    parent: &'a Map<String, Value>,
) -> CompilationResult<'a, Box<ItemBounds>>
    ensures { CompilesTo boxed_bounds result
        (read_bounds ctx.now.setting ctx.now.location (members_view parent.now.entries)) }
{
    let min_contains = bound_beside(alloc, ctx, parent, "minContains")?;
    let max_contains = bound_beside(alloc, ctx, parent, "maxContains")?;
    Ok(bounds_between(alloc, ctx, min_contains, max_contains)?)
}

// Reads the bound `name` beside `contains` in `parent`. Returns `None` if it is absent, or if the
// settings have no bounds of `contains`.
fn bound_beside<'a, F: Json>(
    alloc: Global,
    ctx: &Context<'_, F>,
    parent: &'a Map<String, Value>,
    name: &str,
) -> CompilationResult<'a, Option<u64>>
    ensures { let ms = members_view parent.now.entries in CompilesTo (λ bound. bound) result
        (bound_value (member_location ctx.now.location name.now)
        (bound_beside ctx.now.setting ms name.now)) }
{
    let has_bounds = match ctx.draft() {
        Draft::Draft201909 | Draft::Draft202012 => ctx.has_vocabulary(Vocabulary::Validation),
        _ => false,
    };
    if !has_bounds {
        return Ok(None);
    }
    map_get_u64(alloc, parent, ctx, name).transpose()
}

// Returns the bounds that were read, with the keyword locations of their errors. Fails only if
// memory runs out.
fn bounds_between<F: Json>(
    alloc: Global,
    ctx: &Context<'_, F>,
    min_contains: Option<u64>,
    max_contains: Option<u64>,
) -> Result<Box<ItemBounds>, AllocError>
    ensures { IfOk result (λ bounds. boxed_bounds bounds
        ≡ bounds_between ctx.now.location min_contains max_contains) }
{
    let (min, max) = ("minContains", "maxContains");
    let (too_few_at, too_many_at) = match (min_contains, max_contains) {
        (None, None) => (ctx.keyword_location(alloc, KeywordName::Contains)?, None),
        (Some(_), None) => (ctx.member_location(alloc, min)?, None),
        (None, Some(_)) => (ctx.member_location(alloc, max)?, None),
        (Some(_), Some(_)) => (
            ctx.member_location(alloc, min)?,
            Some(ctx.member_location(alloc, max)?),
        ),
    };
    let bounds = ItemBounds {
        lower: min_contains.unwrap_or(1),
        upper: max_contains,
        too_few_at,
        too_many_at,
    };
    Ok(Box::new(alloc, bounds)?)
}
