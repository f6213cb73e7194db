//! Compiles schemas, keyword by keyword.
ghost use Rattle.std.specs.Prelude.{◌++◌, ◌∷◌, ◌≡◌};
ghost use Rattle.jskw_array.specs.Words.{[], Boolean, CompilesKeyword, CompilesTo, Err, IfOk, IsTrue, Keywords};
ghost use Rattle.jskw_array.specs.Words.{Object, Reading, Refusal, Result, Schema, after};
ghost use Rattle.jskw_array.specs.Words.{Ok, ShapeBegins};
ghost use Rattle.jskw_array.specs.Words.{boolean_schema, each_of, fused_keywords, is_fused};
ghost use Rattle.jskw_array.specs.Words.{is_handed_on, is_some, shape_in};
ghost use Rattle.jskw_array.specs.Words.{items_view, keyword_location, keyword_reading, keywords, keywords_of};
ghost use Rattle.jskw_array.specs.Words.{map_ok, members_view, object, of_types, read, read_each, schemas_of};
ghost use Rattle.jskw_array.specs.Words.{shape_keywords, true, validator_keyword, view, wrong, keywords_read};

pub(crate) mod keyword;
pub(crate) mod members;

use crate::each::Each;
use crate::items::{ArrayShapeValidator, is_array_shape};
use crate::node::Subschema;
use crate::part::Part;
use crate::schema::SchemaNode;
use crate::validator::Validator;
use crate::{additional_items, contains, items, prefix_items};
use jskw_leaf::required;
use jskw_report::{
    CompilationResult, CompileFault, Context, KeywordLocation, KeywordName, KeywordValues,
    LocationSegment, ValidationErrorKind, find_values,
};
use jskw_value::{Json, JsonType, JsonTypeSet};
use keyword::{compile_leaf, compile_required, push_absorbed, push_part};
use members::active_member;
use serde_json::{Map, Value};
use std::alloc::{AllocError, Global};

// The number of keywords of the fused shape, which are the first of all keywords. `items` is the last.
const FUSED: usize = 4;

/// Compiles a schema and its subschemas: a boolean, or an object (JSON Schema Core 4.3). `ctx` has
/// its keyword location and the settings. Keywords that are not active and unknown members are
/// ignored.
///
/// # Errors
///
/// - [`CompileFault::Bad`] with the error of the first value, in the order of
///   [`KeywordName`], that its keyword does not accept, as the keyword's module says, or that is
///   neither an object nor a boolean where a schema must be. The kind is `WrongType` with the types
///   boolean and object in the second case.
/// - [`CompileFault::Memory`] if memory runs out. This says nothing about the schema.
pub fn compile<'a, F: Json>(
    alloc: Global,
    ctx: &Context<'_, F>,
    schema: &'a Value,
) -> CompilationResult<'a, SchemaNode<F>>
    ensures { CompilesTo (λ s. s) result
        (read (view schema.now) ctx.now.setting ctx.now.location) }
{
    Ok(SchemaNode::new(alloc, compile_subschema(alloc, ctx, schema)?)?)
}

// Compiles a schema or a subschema.
#[cycle(compile)]
fn compile_subschema<'a, F: Json>(
    alloc: Global,
    ctx: &Context<'_, F>,
    schema: &'a Value,
) -> CompilationResult<'a, Subschema<F>>
    ensures { CompilesTo (λ s. s) result
        (read (view schema.now) ctx.now.setting ctx.now.location) }
{
    match schema {
        Value::Bool(accepts) => Ok(boolean_node(alloc, ctx, *accepts)?),
        Value::Object(parent) => compile_object(alloc, ctx, parent),
        _ => Err(no_schema(alloc, ctx.place(), schema)),
    }
}

// Compiles a schema that is an object.
#[inline(never)]
#[cycle(compile)]
fn compile_object<'a, F: Json>(
    alloc: Global,
    ctx: &Context<'_, F>,
    parent: &'a Map<String, Value>,
) -> CompilationResult<'a, Subschema<F>>
    ensures { let ms = members_view parent.now.entries in CompilesTo (λ s. s) result
        (read (object ms) ctx.now.setting ctx.now.location) }
{
    let mut values = [None; KeywordName::COUNT];
    find_values(parent, &mut values[..]);
    let values = KeywordValues::new(parent, &values);
    let delegates = required::is_delegated(ctx, &values);
    let mut parts = Vec::with_capacity(alloc, parent.len().min(KeywordName::ALL.len()))?;
    let made = push_parts(alloc, ctx, parent, &values, delegates, &mut parts);
    node_of(alloc, ctx, parent, delegates, parts, made)
}

// Returns the node of a boolean schema at the location of `ctx`.
#[inline(never)]
fn boolean_node<F: Json>(
    alloc: Global,
    ctx: &Context<'_, F>,
    accepts: bool,
) -> Result<Subschema<F>, AllocError>
    ensures { IfOk result (λ node. node ≡ boolean_schema ctx.now.location accepts) }
{
    let location = ctx.place().copy()?;
    Ok(Subschema::of_boolean(alloc, location, accepts))
}

// Returns the node of an object, if its parts were made. `delegates` is whether its `required` is
// delegated. It is not in the recursion, so that the frames of a deep schema do without what this one
// needs.
#[inline(never)]
fn node_of<'a, F: Json>(
    alloc: Global,
    ctx: &Context<'_, F>,
    parent: &Map<String, Value>,
    delegates: bool,
    mut parts: Vec<Part<F>>,
    made: CompilationResult<'a, ()>,
) -> CompilationResult<'a, Subschema<F>>
    requires delegates { delegates ≡ is_handed_on ctx.now.setting (members_view parent.now.entries) }
    requires made { CompilesTo (λ _. keywords_of parts.items) made
        (keywords_read keywords ctx.now (members_view parent.now.entries)) }
    requires fused { IfOk made (λ _. is_some (shape_in parts.items)
        ≡ is_fused ctx.now.setting (members_view parent.now.entries)) }
    requires begins { IfOk made (λ _. ShapeBegins parts.items) }
    ensures { CompilesTo (λ s. s) result
        (read (object (members_view parent.now.entries)) ctx.now.setting ctx.now.location) }
{
    if let Err(fault) = made {
        return Err(fault);
    }
    // a part takes some 200 bytes
    parts.shrink_to_fit();
    let location = ctx.place().copy()?;
    Ok(Subschema::of_keywords(alloc, location, delegates, parts)?)
}

// Appends the parts of an object to an empty vector: its keywords in their order. `delegates` is
// whether its `required` is delegated.
#[inline(never)]
#[cycle(compile)]
fn push_parts<'a, F: Json>(
    alloc: Global,
    ctx: &Context<'_, F>,
    parent: &'a Map<String, Value>,
    values: &KeywordValues<'_, 'a>,
    delegates: bool,
    parts: &mut Vec<Part<F>>,
) -> CompilationResult<'a, ()>
    requires empty { parts.old.items ≡ [] }
    requires values { values.now ≡ members_view parent.now.entries }
    requires delegates { delegates ≡ is_handed_on ctx.now.setting (members_view parent.now.entries) }
    ensures made { CompilesTo (λ _. keywords_of parts.new.items) result
        (keywords_read keywords ctx.now (members_view parent.now.entries)) }
    ensures fused { IfOk result (λ _. is_some (shape_in parts.new.items)
        ≡ is_fused ctx.now.setting (members_view parent.now.entries)) }
    ensures begins { IfOk result (λ _. ShapeBegins parts.new.items) }
{
    let all = &KeywordName::ALL;
    if !is_array_shape(ctx, values) {
        return push_keywords(alloc, ctx, parent, values, delegates, all, parts);
    }
    push_shape(alloc, ctx, parent, values, parts)?;
    push_keywords(alloc, ctx, parent, values, delegates, &all[FUSED..], parts)
}

// Appends the parts of the keywords of the fused shape of an object to an empty vector: `items` is
// in the shape.
#[inline(never)]
#[cycle(compile)]
fn push_shape<'a, F: Json>(
    alloc: Global,
    ctx: &Context<'_, F>,
    parent: &'a Map<String, Value>,
    values: &KeywordValues<'_, 'a>,
    parts: &mut Vec<Part<F>>,
) -> CompilationResult<'a, ()>
    requires values { values.now ≡ members_view parent.now.entries }
    requires fused { IsTrue (is_fused ctx.now.setting (members_view parent.now.entries)) }
    requires empty { parts.old.items ≡ [] }
    ensures made { CompilesTo (λ _. keywords_of parts.new.items) result
        (keywords_read fused_keywords ctx.now (members_view parent.now.entries)) }
    ensures fused { IfOk result (λ _. is_some (shape_in parts.new.items) ≡ true) }
    ensures begins { IfOk result (λ _. ShapeBegins parts.new.items) }
{
    let Some(items) = values.get(KeywordName::Items) else {
        unreachable!();
    };
    push_compiled(
        alloc,
        ArrayShapeValidator::compile(alloc, ctx, parent, items),
        parts,
    )
}

// Appends the parts of a fused shape to an empty vector, if that was compiled.
#[inline(never)]
fn push_compiled<'a, F: Json>(
    alloc: Global,
    compiled: CompilationResult<'a, ArrayShapeValidator<F>>,
    parts: &mut Vec<Part<F>>,
) -> CompilationResult<'a, ()>
    requires { parts.old.items ≡ [] }
    ensures made { (read : Result Keywords Refusal) → CompilesTo shape_keywords compiled.entry read
        → CompilesTo (λ _. keywords_of parts.new.items) result read }
    ensures fused { IfOk result (λ _. is_some (shape_in parts.new.items) ≡ true) }
    ensures begins { IfOk result (λ _. ShapeBegins parts.new.items) }
{
    let shape = Box::new(alloc, compiled?)?;
    // the shape is passed on before this may end the compile
    let pushed = push_absorbed(&shape.absorbed, parts);
    parts.push(Part::Shape(shape))?;
    Ok(pushed?)
}

// Returns the fault for a value that is neither a boolean nor an object.
#[inline(never)]
fn no_schema<'a>(alloc: Global, location: &KeywordLocation, value: &'a Value) -> CompileFault<'a>
    ensures { CompilesTo (λ (s : Schema). s) (Err result)
        (wrong (of_types Boolean Object) location.now (view value.now)) }
{
    let types = JsonTypeSet::empty()
        .insert(JsonType::Object)
        .insert(JsonType::Boolean);
    CompileFault::wrong(alloc, ValidationErrorKind::of_types(types), location, value)
}

// Appends a part for each of the given keywords that asserts something, in their order. `delegates`
// is whether the `required` of the object is delegated, `values` are those of its keywords.
#[inline(never)]
#[cycle(compile)]
fn push_keywords<'a, F: Json>(
    alloc: Global,
    ctx: &Context<'_, F>,
    parent: &'a Map<String, Value>,
    values: &KeywordValues<'_, 'a>,
    delegates: bool,
    keywords: &[KeywordName],
    parts: &mut Vec<Part<F>>,
) -> CompilationResult<'a, ()>
    requires delegates { delegates ≡ is_handed_on ctx.now.setting (members_view parent.now.entries) }
    requires values { values.now ≡ members_view parent.now.entries }
    requires begins { ShapeBegins parts.old.items }
    ensures made { CompilesTo (λ _. keywords_of parts.new.items) result
        (after (keywords_of parts.old.items)
        (keywords_read keywords.now ctx.now (members_view parent.now.entries))) }
    ensures fused { IfOk result (λ _. shape_in parts.new.items ≡ shape_in parts.old.items) }
    ensures begins { IfOk result (λ _. ShapeBegins parts.new.items) }
{
    for &keyword in keywords {
        let Some(schema) = active_member(ctx, values, keyword) else {
            continue;
        };
        let compiled = compile_keyword(alloc, ctx, parent, delegates, keyword, schema);
        push_part(alloc, ctx, keyword, compiled, parts)?;
    }
    Ok(())
}

// Compiles a keyword of an object. Returns `None` if it asserts nothing. `delegates` is whether the
// `required` of the object is delegated.
#[inline(never)]
#[tactic(auto, using(crate::proofs::KeywordReadings::others_are_leaves))]
#[cycle(compile)]
fn compile_keyword<'a, F: Json>(
    alloc: Global,
    ctx: &Context<'_, F>,
    parent: &'a Map<String, Value>,
    delegates: bool,
    keyword: KeywordName,
    schema: &'a Value,
) -> Option<CompilationResult<'a, Validator<F>>>
    requires { delegates ≡ is_handed_on ctx.now.setting (members_view parent.now.entries) }
    ensures { CompilesKeyword validator_keyword result
        (keyword_reading keyword ctx.now (members_view parent.now.entries) (view schema.now)) }
{
    match keyword {
        KeywordName::Items => items::compile(alloc, ctx, parent, schema),
        KeywordName::PrefixItems => prefix_items::compile(alloc, ctx, parent, schema),
        KeywordName::AdditionalItems => additional_items::compile(alloc, ctx, parent, schema),
        KeywordName::Contains => contains::compile(alloc, ctx, parent, schema),
        KeywordName::Required => compile_required(alloc, ctx, delegates, schema),
        _ => compile_leaf(alloc, ctx, parent, keyword, schema),
    }
}

// Compiles the value of a keyword as a schema. `ctx` is at the object of the keyword.
#[cycle(compile)]
pub(crate) fn compile_at<'a, F: Json>(
    alloc: Global,
    ctx: &Context<'_, F>,
    keyword: KeywordName,
    schema: &'a Value,
) -> CompilationResult<'a, Subschema<F>>
    ensures { CompilesTo (λ s. s) result (read (view schema.now) ctx.now.setting
        (keyword_location ctx.now.location keyword)) }
{
    let below = ctx.new_at_keyword(alloc, keyword)?;
    compile_subschema(alloc, &below, schema)
}

// Compiles the value of a keyword as an array of schemas, each for the item at its index. `ctx` is
// at the object of the keyword, which is `prefixItems` if `is_prefix`, else `items`.
#[cycle(compile)]
pub(crate) fn compile_list<'a, F: Json>(
    alloc: Global,
    ctx: &Context<'_, F>,
    keyword: KeywordName,
    is_prefix: bool,
    schemas: &'a Vec<Value>,
) -> CompilationResult<'a, Validator<F>>
    ensures { CompilesTo validator_keyword result (map_ok (each_of is_prefix)
        (read_each (items_view schemas.now.items) ctx.now.setting
        (keyword_location ctx.now.location keyword) 0)) }
{
    let below = ctx.new_at_keyword(alloc, keyword)?;
    let nodes = compile_each(alloc, &below, schemas.as_slice())?;
    Ok(Validator::Each(Each { nodes, is_prefix }))
}

// Compiles each schema at its index below the keyword location of `ctx`.
#[cycle(compile)]
fn compile_each<'a, F: Json>(
    alloc: Global,
    ctx: &Context<'_, F>,
    schemas: &'a [Value],
) -> CompilationResult<'a, Vec<Subschema<F>>>
    ensures { CompilesTo (λ nodes. schemas_of nodes.items) result
        (read_each (items_view schemas.now) ctx.now.setting ctx.now.location 0) }
{
    let mut nodes = Vec::with_capacity(alloc, schemas.len())?;
    for index in 0..schemas.len() {
        let item = ctx.new_at_location(alloc, LocationSegment::Index(index))?;
        push_node(compile_subschema(alloc, &item, &schemas[index]), &mut nodes)?;
    }
    Ok(nodes)
}

// Appends a schema that was compiled.
#[inline(never)]
fn push_node<'a, F: Json>(
    compiled: CompilationResult<'a, Subschema<F>>,
    nodes: &mut Vec<Subschema<F>>,
) -> CompilationResult<'a, ()>
    ensures { (read : Reading) → CompilesTo (λ s. s) compiled.entry read
        → CompilesTo (λ _. nodes.new.items) result
        (map_ok (λ s. nodes.old.items ++ s ∷ []) read) }
{
    nodes.push(compiled?)?;
    Ok(())
}
