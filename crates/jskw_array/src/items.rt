//! `items`: one schema, for every item that `prefixItems` has no schema for (JSON Schema Core
//! 10.3.1.2), or an array of schemas, each for the item at its index (Draft 7 Validation 6.4.1).
ghost use Rattle.std.specs.Prelude.{◌≡◌};
ghost use Rattle.jskw_array.specs.Words.{CompilesKeyword, CompilesTo, IsTrue, is_bare, is_items_schema};
ghost use Rattle.jskw_array.specs.Words.{items_from, items_start, keyword_location, keyword_reading};
ghost use Rattle.jskw_array.specs.Words.{map_ok, members_view, read, validator_keyword, view};

mod array_shape;

use crate::compiler::members::schema_count;
use crate::compiler::{compile_at, compile_list};
use crate::rest::of_schema;
pub use crate::upstream::{
    ItemsArrayValidator, ItemsObjectSkipPrefixValidator, ItemsObjectValidator,
};
use crate::validator::Validator;
pub use array_shape::ArrayShapeValidator;
use jskw_leaf::in_place::bare::{self, is_bare};
use jskw_leaf::in_place::fusion::is_items_schema;
pub use jskw_leaf::in_place::{
    AbsorbedKeywords, BareItems, BooleanItems, IntegerItems, IntegerItemsDraft4, ItemType,
    ItemsTypeValidator, NumberItems, StringItems, array_shape_fusion, is_array_shape,
};
use jskw_report::{CompilationResult, Context, Draft, KeywordName};
use jskw_value::Json;
use serde_json::{Map, Value};
use std::alloc::Global;

/// Compiles `items`. The value is an array of schemas, each for the item at its index, or one
/// schema: an object or `false`. In 2020-12 one schema is for the items behind those that an array
/// `prefixItems` of `parent` has schemas for. Returns `None` for any other value: it asserts
/// nothing.
///
/// # Errors
///
/// Fails if memory runs out, or if a schema has an error, as
/// [`compile`](crate::compiler::compile) says.
#[inline(never)]
#[cycle(compile)]
pub fn compile<'a, F: Json>(
    alloc: Global,
    ctx: &Context<'_, F>,
    parent: &'a Map<String, Value>,
    schema: &'a Value,
) -> Option<CompilationResult<'a, Validator<F>>>
    ensures { CompilesKeyword validator_keyword result
        (keyword_reading KeywordName.Items ctx.now (members_view parent.now.entries) (view schema.now)) }
{
    if let Some(schemas) = schema.as_array() {
        return Some(compile_list(alloc, ctx, KeywordName::Items, false, schemas));
    }
    if !is_items_schema(schema) {
        return None;
    }
    Some(compile_schema(alloc, ctx, parent, schema))
}

// Compiles `items` of one schema, an object or `false`.
#[inline(never)]
#[cycle(compile)]
pub(crate) fn compile_schema<'a, F: Json>(
    alloc: Global,
    ctx: &Context<'_, F>,
    parent: &'a Map<String, Value>,
    schema: &'a Value,
) -> CompilationResult<'a, Validator<F>>
    requires { IsTrue (is_items_schema (view schema.now)) }
    ensures { let ms = members_view parent.now.entries in CompilesTo validator_keyword result
        (map_ok (λ sub. items_from (items_start ctx.now.setting ms) sub
        (is_bare ctx.now.setting ms (view schema.now)))
        (read (view schema.now) ctx.now.setting
        (keyword_location ctx.now.location KeywordName.Items))) }
{
    if is_bare(ctx, parent, schema) {
        return Ok(Validator::Bare(bare::compile(alloc, ctx, parent, schema)?));
    }
    let start = items_start(ctx, parent);
    of_schema(
        start,
        false,
        compile_at(alloc, ctx, KeywordName::Items, schema),
    )
}

// Returns the index from which `items` of one schema applies: in 2020-12 the number of schemas in
// `prefixItems`, else 0.
fn items_start<F: Json>(ctx: &Context<'_, F>, parent: &Map<String, Value>) -> usize
    ensures { result ≡ items_start ctx.now.setting (members_view parent.now.entries) }
{
    if ctx.draft() != Draft::Draft202012 {
        return 0;
    }
    schema_count(parent, "prefixItems").unwrap_or(0)
}
