//! Compiles `const`.
ghost use Rattle.serde_json.specs.View.{view, members_view};
ghost use Rattle.jskw_report.specs.Compile.{CompilesTo, CompilesKeyword, keyword_reading};
ghost use Rattle.jskw_report.specs.Read.{const_rule, keyword_by, keyword_location};
ghost use Rattle.jskw_report.specs.declared.keyword.KeywordName.TheVariants.{Const};
ghost use Rattle.jskw_leaf.specs.Meaning.{leaf_keyword};

use super::ConstValueValidator;
use crate::floats::refuse_floats;
use crate::leaf::LeafValidator;
use jskw_report::{CompilationResult, Context, KeywordName};
use jskw_value::Json;
use serde_json::{Map, Value};
use std::alloc::Global;

/// Compiles `const`. Always returns `Some`.
///
/// # Errors
///
/// Fails if memory runs out, or if the value contains a float: with a `CompileError` whose message
/// is `Not a whole number of 64 bits`. The value at fault is the first float, depth first.
#[tactic(auto, unfolding(jskw_report::specs::Read::asserted))]
pub fn compile<'a, F: Json>(
    alloc: Global,
    ctx: &Context<'_, F>,
    parent: &'a Map<String, Value>,
    schema: &'a Value,
) -> Option<CompilationResult<'a, LeafValidator<F>>>
    ensures { CompilesKeyword leaf_keyword result
        (keyword_reading Const ctx.now (members_view parent.now.entries) (view schema.now)) }
{
    Some(const_validator(alloc, ctx, schema))
}

// Reads the value of `const`. Refuses one that contains a float.
fn const_validator<'a, F: Json>(
    alloc: Global,
    ctx: &Context<'_, F>,
    schema: &'a Value,
) -> CompilationResult<'a, LeafValidator<F>>
    ensures { CompilesTo leaf_keyword result
        (keyword_by const_rule (keyword_location ctx.now.location Const) (view schema.now)) }
{
    let location = ctx.keyword_location(alloc, KeywordName::Const)?;
    refuse_floats(alloc, &location, schema)?;
    let value = schema.clone()?;
    Ok(LeafValidator::Const(ConstValueValidator { value, location }))
}
