//! `additionalItems` (Draft 7 Validation 6.4.2): the schema of the items for which `items` has no
//! schema.
ghost use Rattle.jskw_array.specs.Words.{CompilesKeyword, Ok, assertion, at_most, keyword_location};
ghost use Rattle.jskw_array.specs.Words.{keyword_reading, members_view, validator_keyword, view};

use crate::compiler::compile_at;
use crate::compiler::members::schema_count;
use crate::rest::of_schema;
pub use crate::upstream::AdditionalItemsObjectValidator;
use crate::validator::Validator;
use jskw_leaf::LeafValidator;
pub use jskw_leaf::in_place::AdditionalItemsBooleanValidator;
use jskw_report::{CompilationResult, CompileFault, Context, KeywordName};
use jskw_value::Json;
use serde_json::{Map, Value};
use std::alloc::Global;

/// Compiles `additionalItems`, whose value is a schema for the items behind those that `items` has
/// schemas for. Returns `None` if it asserts nothing: if `items` of `parent` is not an array (the
/// value is not checked then), or if the value is `true`.
///
/// # Errors
///
/// Fails if memory runs out, or if the schema has an error, as
/// [`compile`](crate::compiler::compile) says.
#[inline(never)]
#[cycle(compile)]
pub fn compile<'a, F: Json>(
    alloc: Global,
    ctx: &Context<'_, F>,
    parent: &'a Map<String, Value>,
    schema: &'a Value,
) -> Option<CompilationResult<'a, Validator<F>>>
    ensures { CompilesKeyword validator_keyword result
        (keyword_reading KeywordName.AdditionalItems ctx.now (members_view parent.now.entries)
        (view schema.now)) }
{
    let Some(items_count) = schema_count(parent, "items") else {
        return None;
    };
    match schema.as_bool() {
        Some(true) => return None,
        Some(false) => return no_more(alloc, ctx, items_count),
        None => {}
    }
    let keyword = KeywordName::AdditionalItems;
    Some(of_schema(items_count, true, compile_at(alloc, ctx, keyword, schema)))
}

// Compiles `additionalItems` of `false`. Fails only if memory runs out.
#[inline(never)]
fn no_more<'a, F: Json>(
    alloc: Global,
    ctx: &Context<'_, F>,
    items_count: usize,
) -> Option<CompilationResult<'a, Validator<F>>>
    ensures { CompilesKeyword validator_keyword result (Some (Ok (assertion
        (keyword_location ctx.now.location KeywordName.AdditionalItems) (at_most items_count)))) }
{
    let location = match ctx.keyword_location(alloc, KeywordName::AdditionalItems) {
        Ok(location) => location,
        Err(error) => return Some(Err(CompileFault::Memory(error))),
    };
    let validator = AdditionalItemsBooleanValidator::new(items_count, location);
    Some(Ok(Validator::Leaf(LeafValidator::AdditionalItems(validator))))
}
