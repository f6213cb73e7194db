//! Bare type checks: `items` of a schema that has only `type` (JSON Schema Core 10.3.1.2, Validation
//! 6.1.1), whichever type it names.
ghost use Rattle.std.specs.Prelude.{◌≡◌, IsTrue, Some, true};
ghost use Rattle.serde_json.specs.Data.{member, no_members, object, string};
ghost use Rattle.serde_json.specs.View.{members_view, view};
ghost use Rattle.jskw_value.specs.Types.{type_named};
ghost use Rattle.jskw_value.specs.declared.types.JsonType.{JsonType};
ghost use Rattle.jskw_report.specs.Compile.{CompilesTo};
ghost use Rattle.jskw_report.specs.Keyword.{items_from};
ghost use Rattle.jskw_report.specs.KeywordValue.{map_ok};
ghost use Rattle.jskw_report.specs.Meaning.{one_keyword};
ghost use Rattle.jskw_report.specs.Read.{integers_of, items_start, keyword_location, read};
ghost use Rattle.jskw_report.specs.Setting.{name_of};
ghost use Rattle.jskw_report.specs.Sibling.{is_array_value, is_bare, is_inlined_type, is_only_type};
ghost use Rattle.jskw_report.specs.Sibling.{member_passes};
ghost use Rattle.jskw_report.specs.declared.error.TypeKind.TheVariants.{Single};
ghost use Rattle.jskw_leaf.specs.Items.{bare_items, bare_keyword};
ghost use Rattle.jskw_leaf.specs.Meaning.{type_at};

use super::item_type::{
    BooleanItems, IntegerItems, IntegerItemsDraft4, ItemsTypeValidator, NumberItems, StringItems,
};
use jskw_report::context::member_of;
use jskw_report::{
    CompilationResult, Context, Draft, EvaluationResult, KeywordLocation, KeywordName,
    LazyLocation, Report, Stop, Validate, ValidationContext,
};
use jskw_value::Json;
use serde_json::{Map, Value};
use std::alloc::{AllocError, Global};

/// The validator of `items` of a schema that has only `type`. It applies no subschema.
#[derive(Drop)]
#[derive_where(Debug)]
pub enum BareItems<F: Json> {
    /// `items` of `{"type": "number"}`.
    Number(ItemsTypeValidator<NumberItems, F>),
    /// `items` of `{"type": "string"}`.
    String(ItemsTypeValidator<StringItems, F>),
    /// `items` of `{"type": "boolean"}`.
    Boolean(ItemsTypeValidator<BooleanItems, F>),
    /// `items` of `{"type": "integer"}`, from Draft 6 on.
    Integer(ItemsTypeValidator<IntegerItems, F>),
    /// `items` of `{"type": "integer"}` in Draft 4.
    IntegerDraft4(ItemsTypeValidator<IntegerItemsDraft4, F>),
}

// Evaluates `$answer` with `$validator` as the validator in the variant, whichever it is.
macro_rules! dispatch {
    ($items:expr, $validator:ident => $answer:expr) => {
        match $items {
            BareItems::Number($validator) => $answer,
            BareItems::String($validator) => $answer,
            BareItems::Boolean($validator) => $answer,
            BareItems::Integer($validator) => $answer,
            BareItems::IntegerDraft4($validator) => $answer,
        }
    };
}

impl<F: Json> Validate<F> for BareItems<F> {
    ghost meaning = { λ v. one_keyword (bare_keyword v) };

    #[inline(always)]
    fn is_valid(&self, instance: &F::Node, ctx: &mut ValidationContext) -> bool {
        dispatch!(self, validator => validator.is_valid(instance, ctx))
    }

    #[inline(always)]
    fn report_errors<'i>(
        &'i self,
        instance: &'i F::Node,
        location: &mut LazyLocation,
        ctx: &mut ValidationContext,
        report: &mut Report<'i, F>,
    ) -> Result<(), Stop> {
        dispatch!(self, validator => validator.report_errors(instance, location, ctx, report))
    }

    fn evaluate(
        &self,
        alloc: Global,
        instance: &F::Node,
        location: &mut LazyLocation,
        ctx: &mut ValidationContext,
    ) -> Result<EvaluationResult, AllocError> {
        dispatch!(self, validator => validator.evaluate(alloc, instance, location, ctx))
    }
}

/// Returns whether the items are tested in place: the value of `items` of `parent` has only an
/// active `type`, which names a number, an integer, a string or a boolean, and no array
/// `prefixItems` comes before it.
pub fn is_bare<F: Json>(ctx: &Context<'_, F>, parent: &Map<String, Value>, schema: &Value) -> bool
    ensures { result
        ≡ is_bare ctx.now.setting (members_view parent.now.entries) (view schema.now) }
{
    is_only_type(schema)
        && KeywordName::TypeKeyword.is_active(ctx)
        && !(ctx.draft() == Draft::Draft202012 && has_array(parent, "prefixItems"))
}

// Returns whether the value is an object whose only member is `type`, with the name of a type that
// items are tested for in place.
fn is_only_type(value: &Value) -> bool
    ensures { result ≡ is_only_type (view value.now) }
{
    let Value::Object(members) = value else {
        return false;
    };
    if members.len() != 1 {
        return false;
    }
    match member_of(members, "type") {
        Some(name) => is_inlined_type(name),
        None => false,
    }
}

// Returns whether the value is the name of a type that items are tested for in place.
#[tactic(auto, using(crate::proofs::BareTypes::no_text, crate::proofs::BareTypes::of_text))]
fn is_inlined_type(value: &Value) -> bool
    ensures { result ≡ is_inlined_type (view value.now) }
{
    matches!(
        value.as_str(),
        Some("number" | "string" | "boolean" | "integer")
    )
}

// Returns whether the member `name` of `parent` is an array.
fn has_array(parent: &Map<String, Value>, name: &str) -> bool
    ensures { result ≡ member_passes is_array_value name.now (members_view parent.now.entries) }
{
    matches!(member_of(parent, name), Some(Value::Array(_)))
}

/// Compiles `items` of `parent`, for which [`is_bare`] must be true. `schema` is its value.
///
/// # Errors
///
/// Fails only if memory runs out.
#[inline(never)]
pub fn compile<'a, F: Json>(
    alloc: Global,
    ctx: &Context<'_, F>,
    parent: &Map<String, Value>,
    schema: &'a Value,
) -> CompilationResult<'a, BareItems<F>>
    requires { IsTrue (is_bare ctx.now.setting (members_view parent.now.entries) (view schema.now)) }
    ensures { let ms = members_view parent.now.entries in CompilesTo bare_keyword result
        (map_ok (λ sub. items_from (items_start ctx.now.setting ms) sub true)
        (read (view schema.now) ctx.now.setting
        (keyword_location ctx.now.location KeywordName.Items))) }
{
    let below = ctx.new_at_keyword(alloc, KeywordName::Items)?;
    let location = below.place().copy()?;
    let type_location = below.keyword_location(alloc, KeywordName::TypeKeyword)?;
    Ok(of_type(only_type(schema), ctx.draft(), location, type_location))
}

// Returns the name of the type in a schema that has only `type`.
fn only_type(schema: &Value) -> &str
    requires { IsTrue (is_only_type (view schema.now)) }
    ensures { view schema.now
        ≡ object (member (name_of KeywordName.TypeKeyword) (string result.now) no_members) }
{
    let Some(value) = schema.get("type") else {
        return "";
    };
    value.as_str().unwrap_or("")
}

// Returns the validator of items of the type with this name.
fn of_type<F: Json>(
    name: &str,
    draft: Draft,
    location: KeywordLocation,
    type_location: KeywordLocation,
) -> BareItems<F>
    requires { IsTrue (is_inlined_type (string name.now)) }
    ensures { (j : JsonType) → type_named name.now ≡ Some j → bare_keyword result
        ≡ bare_items location (type_at j (integers_of draft (Single j)) type_location) }
{
    match name {
        "number" => BareItems::Number(ItemsTypeValidator::new(location, type_location)),
        "string" => BareItems::String(ItemsTypeValidator::new(location, type_location)),
        "boolean" => BareItems::Boolean(ItemsTypeValidator::new(location, type_location)),
        _ => match draft {
            Draft::Draft4 => {
                BareItems::IntegerDraft4(ItemsTypeValidator::new(location, type_location))
            }
            _ => BareItems::Integer(ItemsTypeValidator::new(location, type_location)),
        },
    }
}
