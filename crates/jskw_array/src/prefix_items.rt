//! `prefixItems` (JSON Schema Core 10.3.1.1): a list of schemas, each for the item at its index.
ghost use Rattle.std.specs.Prelude.{◌≡◌};
ghost use Rattle.jskw_array.specs.Words.{Array, CompilesKeyword, Err, Keyword, CompilesTo, annotation_of};
ghost use Rattle.jskw_array.specs.Words.{items, keyword_location, length, members_view};
ghost use Rattle.jskw_array.specs.Words.{of_children, of_type, option_map, prefix_annotation};
ghost use Rattle.jskw_array.specs.Words.{keyword_reading, result_of, validator_keyword, view, wrong};

use crate::compiler::compile_list;
pub use crate::upstream::PrefixItemsValidator;
use crate::validator::Validator;
use jskw_report::{
    Annotations, CompilationResult, CompileFault, Context, EvaluationNode, EvaluationResult,
    KeywordName, ValidationErrorKind,
};
use jskw_value::{Json, JsonType, Node};
use serde_json::{Map, Value};
use std::alloc::Global;

// Returns the evaluation of `prefixItems` with this number of schemas. `nodes` are the nodes of the
// items.
pub(crate) fn prefix_unit<N: Node>(
    alloc: Global,
    schemas: usize,
    nodes: Vec<EvaluationNode>,
    instance: &N,
) -> EvaluationResult
    ensures { result_of result ≡ of_children
        (prefix_annotation schemas (length (items (N.tree instance.now)))) nodes.items }
{
    let mut unit = EvaluationResult::from_children(alloc, nodes);
    if let Some(annotation) = annotation(schemas, instance.item_count()) {
        unit.annotate(annotation);
    }
    unit
}

// Returns the annotation: true if every item has a schema, else the largest index that has one, or
// `None` if no item has one.
fn annotation(schemas: usize, items: usize) -> Option<Annotations>
    ensures { option_map annotation_of result ≡ prefix_annotation schemas items }
{
    if schemas == 0 || items == 0 {
        return None;
    }
    if items <= schemas {
        return Some(Annotations::Bool(true));
    }
    Some(Annotations::Index(schemas - 1))
}

/// Compiles `prefixItems`, whose value is an array of schemas, each for the item at its index.
/// Always returns `Some`.
///
/// # Errors
///
/// Fails if memory runs out, or with the first of these errors:
///
/// - The value is not an array: the kind is `WrongType` with the type array, at the location of
///   `prefixItems`.
/// - A schema has an error, as [`compile`](crate::compiler::compile) says.
#[inline(never)]
#[cycle(compile)]
pub fn compile<'a, F: Json>(
    alloc: Global,
    ctx: &Context<'_, F>,
    parent: &'a Map<String, Value>,
    schema: &'a Value,
) -> Option<CompilationResult<'a, Validator<F>>>
    ensures { CompilesKeyword validator_keyword result
        (keyword_reading KeywordName.PrefixItems ctx.now (members_view parent.now.entries)
        (view schema.now)) }
{
    let Some(schemas) = schema.as_array() else {
        return Some(Err(no_array(alloc, ctx, schema)));
    };
    Some(compile_list(alloc, ctx, KeywordName::PrefixItems, true, schemas))
}

// Refuses a value that is not an array.
#[inline(never)]
fn no_array<'a, F: Json>(alloc: Global, ctx: &Context<'_, F>, value: &'a Value) -> CompileFault<'a>
    ensures { CompilesTo (λ (k : Keyword). k) (Err result) (wrong (of_type Array)
        (keyword_location ctx.now.location KeywordName.PrefixItems) (view value.now)) }
{
    let kind = ValidationErrorKind::of_type(JsonType::Array);
    match ctx.keyword_location(alloc, KeywordName::PrefixItems) {
        Ok(location) => CompileFault::wrong(alloc, kind, &location, value),
        Err(error) => CompileFault::Memory(error),
    }
}
