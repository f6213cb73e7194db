//! `minimum` and `maximum` in Draft 4 (Draft 4 Validation 5.1.3, 5.1.2): beside an
//! `exclusiveMinimum` or `exclusiveMaximum` of `true` a number must be above or below the limit.
#![tactic(auto, unfolding(jskw_report::specs::Read::asserted))]

ghost use Rattle.std.specs.Prelude.{◌≡◌, false, IfOk, IfSome};
ghost use Rattle.serde_json.specs.View.{view, members_view};
ghost use Rattle.jskw_report.specs.Compile.{CompilesKeyword, keyword_reading};
ghost use Rattle.jskw_report.specs.Setting.{is_after_draft_4};
ghost use Rattle.jskw_report.specs.declared.keyword.KeywordName.TheVariants as keyword_name;
ghost use Rattle.jskw_number.specs.Meaning.{limit_of, number_keyword};

use crate::helpers::has_true;
use crate::minmax::{Above, AtLeast, AtMost, Below, compile_limit};
use crate::number::NumberValidator;
use jskw_report::{CompilationResult, Context, KeywordName};
use jskw_value::Json;
use serde_json::{Map, Value};
use std::alloc::Global;

/// Compiles `minimum` for Draft 4, which must be the draft of `ctx`. Always returns `Some`.
///
/// If `parent` has an `exclusiveMinimum` of `true`, the limit is exclusive, and its errors are at
/// the location of `exclusiveMinimum`. Any other value of `exclusiveMinimum` is ignored. The
/// validator keeps `schema`: [`limit_value`](crate::minmax::Limit::limit_value) returns it.
///
/// # Errors
///
/// Fails if `schema` is not a limit, as [`minmax`](crate::minmax) says, or if memory runs out.
pub fn compile_minimum<'a, F: Json>(
    alloc: Global,
    ctx: &Context<'_, F>,
    parent: &'a Map<String, Value>,
    schema: &'a Value,
) -> Option<CompilationResult<'a, NumberValidator>>
    requires { is_after_draft_4 ctx.now.setting.draft ≡ false }
    ensures keyword { CompilesKeyword number_keyword result
        (keyword_reading keyword_name.Minimum ctx.now (members_view parent.now.entries) (view schema.now)) }
    ensures value { IfSome result (λ r. IfOk r (λ v. limit_of v ≡ Some (view schema.now))) }
{
    if has_true(parent, KeywordName::ExclusiveMinimum) {
        Some(compile_limit::<F, Above>(alloc, ctx, schema))
    } else {
        Some(compile_limit::<F, AtLeast>(alloc, ctx, schema))
    }
}

/// Compiles `maximum` for Draft 4, which must be the draft of `ctx`. Always returns `Some`.
///
/// If `parent` has an `exclusiveMaximum` of `true`, the limit is exclusive, and its errors are at
/// the location of `exclusiveMaximum`. Any other value of `exclusiveMaximum` is ignored. The
/// validator keeps `schema`: [`limit_value`](crate::minmax::Limit::limit_value) returns it.
///
/// # Errors
///
/// Fails if `schema` is not a limit, as [`minmax`](crate::minmax) says, or if memory runs out.
pub fn compile_maximum<'a, F: Json>(
    alloc: Global,
    ctx: &Context<'_, F>,
    parent: &'a Map<String, Value>,
    schema: &'a Value,
) -> Option<CompilationResult<'a, NumberValidator>>
    requires { is_after_draft_4 ctx.now.setting.draft ≡ false }
    ensures keyword { CompilesKeyword number_keyword result
        (keyword_reading keyword_name.Maximum ctx.now (members_view parent.now.entries) (view schema.now)) }
    ensures value { IfSome result (λ r. IfOk r (λ v. limit_of v ≡ Some (view schema.now))) }
{
    if has_true(parent, KeywordName::ExclusiveMaximum) {
        Some(compile_limit::<F, Below>(alloc, ctx, schema))
    } else {
        Some(compile_limit::<F, AtMost>(alloc, ctx, schema))
    }
}
