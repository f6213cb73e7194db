//! Compiles limits on numbers.
#![tactic(auto, unfolding(jskw_report::specs::Read::asserted))]

ghost use Rattle.std.specs.Prelude.{◌≡◌, true, IfOk, IfSome, Some};
ghost use Rattle.serde_json.specs.View.{view, members_view};
ghost use Rattle.jskw_report.specs.Compile.{CompilesKeyword, CompilesTo, keyword_reading};
ghost use Rattle.jskw_report.specs.Read.{limit_keyword};
ghost use Rattle.jskw_report.specs.Setting.{is_after_draft_4};
ghost use Rattle.jskw_report.specs.declared.keyword.KeywordName.TheVariants as keyword_name;
ghost use Rattle.jskw_number.specs.Meaning.{limit_of, number_keyword};

use super::{Above, AtLeast, AtMost, Below, LimitTest};
use crate::helpers::{WholeNumber, whole_number};
use crate::number::NumberValidator;
use jskw_report::{CompilationResult, Context};
use jskw_value::Json;
use serde_json::{Map, Value};
use std::alloc::Global;

// Compiles the limit `schema` of the relation `R`. The error of the validator and a refusal are
// both at the keyword of `R`.
pub(crate) fn compile_limit<'a, F: Json, R: LimitTest>(
    alloc: Global,
    ctx: &Context<'_, F>,
    schema: &'a Value,
) -> CompilationResult<'a, NumberValidator>
    ensures keyword { CompilesTo number_keyword result
        (limit_keyword R.relation ctx.now.location (view schema.now)) }
    ensures value { IfOk result (λ v. limit_of v ≡ Some (view schema.now)) }
{
    let location = ctx.keyword_location(alloc, R::keyword())?;
    let limit = whole_number(alloc, &location, schema)?;
    let value = schema.clone()?;
    Ok(match limit {
        WholeNumber::Unsigned(limit) => R::of_u64(limit, value, location),
        WholeNumber::Signed(limit) => R::of_i64(limit, value, location),
    })
}

/// Compiles `minimum` for the drafts after Draft 4: the draft of `ctx` must not be Draft 4, which
/// has a [`compile`](crate::legacy::minmax_draft_4::compile_minimum) of its own. Always returns `Some`.
/// The validator keeps `schema`: [`limit_value`](super::Limit::limit_value) returns it.
///
/// # Errors
///
/// Fails if `schema` is not a limit, as the [module's documentation](super) says, or if memory runs
/// out.
pub fn compile_minimum<'a, F: Json>(
    alloc: Global,
    ctx: &Context<'_, F>,
    parent: &'a Map<String, Value>,
    schema: &'a Value,
) -> Option<CompilationResult<'a, NumberValidator>>
    requires { is_after_draft_4 ctx.now.setting.draft ≡ true }
    ensures keyword { CompilesKeyword number_keyword result
        (keyword_reading keyword_name.Minimum ctx.now (members_view parent.now.entries) (view schema.now)) }
    ensures value { IfSome result (λ r. IfOk r (λ v. limit_of v ≡ Some (view schema.now))) }
{
    Some(compile_limit::<F, AtLeast>(alloc, ctx, schema))
}

/// Compiles `maximum` for the drafts after Draft 4: the draft of `ctx` must not be Draft 4, which
/// has a [`compile`](crate::legacy::minmax_draft_4::compile_maximum) of its own. Always returns `Some`.
/// The validator keeps `schema`: [`limit_value`](super::Limit::limit_value) returns it.
///
/// # Errors
///
/// Fails if `schema` is not a limit, as the [module's documentation](super) says, or if memory runs
/// out.
pub fn compile_maximum<'a, F: Json>(
    alloc: Global,
    ctx: &Context<'_, F>,
    parent: &'a Map<String, Value>,
    schema: &'a Value,
) -> Option<CompilationResult<'a, NumberValidator>>
    requires { is_after_draft_4 ctx.now.setting.draft ≡ true }
    ensures keyword { CompilesKeyword number_keyword result
        (keyword_reading keyword_name.Maximum ctx.now (members_view parent.now.entries) (view schema.now)) }
    ensures value { IfSome result (λ r. IfOk r (λ v. limit_of v ≡ Some (view schema.now))) }
{
    Some(compile_limit::<F, AtMost>(alloc, ctx, schema))
}

/// Compiles `exclusiveMinimum`, which is not a keyword by itself in Draft 4. Always returns `Some`.
/// The validator keeps `schema`: [`limit_value`](super::Limit::limit_value) returns it.
///
/// # Errors
///
/// Fails if `schema` is not a limit, as the [module's documentation](super) says, or if memory runs
/// out.
pub fn compile_exclusive_minimum<'a, F: Json>(
    alloc: Global,
    ctx: &Context<'_, F>,
    parent: &'a Map<String, Value>,
    schema: &'a Value,
) -> Option<CompilationResult<'a, NumberValidator>>
    ensures keyword { CompilesKeyword number_keyword result
        (keyword_reading keyword_name.ExclusiveMinimum ctx.now (members_view parent.now.entries)
        (view schema.now)) }
    ensures value { IfSome result (λ r. IfOk r (λ v. limit_of v ≡ Some (view schema.now))) }
{
    Some(compile_limit::<F, Above>(alloc, ctx, schema))
}

/// Compiles `exclusiveMaximum`, which is not a keyword by itself in Draft 4. Always returns `Some`.
/// The validator keeps `schema`: [`limit_value`](super::Limit::limit_value) returns it.
///
/// # Errors
///
/// Fails if `schema` is not a limit, as the [module's documentation](super) says, or if memory runs
/// out.
pub fn compile_exclusive_maximum<'a, F: Json>(
    alloc: Global,
    ctx: &Context<'_, F>,
    parent: &'a Map<String, Value>,
    schema: &'a Value,
) -> Option<CompilationResult<'a, NumberValidator>>
    ensures keyword { CompilesKeyword number_keyword result
        (keyword_reading keyword_name.ExclusiveMaximum ctx.now (members_view parent.now.entries)
        (view schema.now)) }
    ensures value { IfSome result (λ r. IfOk r (λ v. limit_of v ≡ Some (view schema.now))) }
{
    Some(compile_limit::<F, Below>(alloc, ctx, schema))
}
