//! The test for the fused shape of an array.
ghost use Rattle.std.specs.List.{list_all};
ghost use Rattle.std.specs.Prelude.{◌≡◌};
ghost use Rattle.serde_json.specs.View.{members_view, view};
ghost use Rattle.jskw_value.specs.Types.{type_name};
ghost use Rattle.jskw_value.specs.declared.types.JsonType.TheVariants.{Array};
ghost use Rattle.jskw_report.specs.Sibling.{has_keyword, is_absent, is_fused, is_items_schema};
ghost use Rattle.jskw_report.specs.Sibling.{is_string, takes_size, unfused_names};

use jskw_number::helpers::size_limit;
use jskw_report::context::member_of;
use jskw_report::{Context, KeywordName, KeywordValues, find_values};
use jskw_value::Json;
use serde_json::{Map, Value};

/// Returns whether `type`, `minItems`, `maxItems` and `items` of the schema `parent` are checked
/// together. They are if `type` is `array`, `items` is an object or `false`, both bounds are absent
/// or valid, none of the four is inactive, and `prefixItems`, `additionalItems`, `contains`,
/// `unevaluatedItems` and `uniqueItems` are absent, whatever the draft.
pub fn array_shape_fusion<F: Json>(ctx: &Context<'_, F>, parent: &Map<String, Value>) -> bool
    ensures { result ≡ is_fused ctx.now.setting (members_view parent.now.entries) }
{
    let mut values = [None; KeywordName::COUNT];
    find_values(parent, &mut values[..]);
    is_array_shape(ctx, &KeywordValues::new(parent, &values))
}

/// Returns what [`array_shape_fusion`] does, of the schema that has these keywords.
#[tactic(auto, unfolding(jskw_report::specs::Sibling::is_fused))]
pub fn is_array_shape<F: Json>(ctx: &Context<'_, F>, values: &KeywordValues<'_, '_>) -> bool
    ensures { result ≡ is_fused ctx.now.setting values.now }
{
    has_type_array(ctx, values)
        && has_items(ctx, values)
        && takes_size(ctx, values, KeywordName::MinItems)
        && takes_size(ctx, values, KeywordName::MaxItems)
        && lacks_other_keywords(values)
}

/// Returns whether the value of `items` is one schema that asserts something: an object or `false`
/// (JSON Schema Core 10.3.1.2, 4.3).
pub fn is_items_schema(value: &Value) -> bool
    ensures { result ≡ is_items_schema (view value.now) }
{
    matches!(value, Value::Object(_) | Value::Bool(false))
}

// Returns whether `type` is present, active and `array`.
fn has_type_array<F: Json>(ctx: &Context<'_, F>, values: &KeywordValues<'_, '_>) -> bool
    ensures { result ≡ has_keyword ctx.now.setting values.now KeywordName.TypeKeyword
        (is_string (type_name Array)) }
{
    match values.get(KeywordName::TypeKeyword) {
        Some(value) => value.as_str() == Some("array") && KeywordName::TypeKeyword.is_active(ctx),
        None => false,
    }
}

// Returns whether `items` is present, active and one schema that asserts something.
fn has_items<F: Json>(ctx: &Context<'_, F>, values: &KeywordValues<'_, '_>) -> bool
    ensures { result ≡ has_keyword ctx.now.setting values.now KeywordName.Items is_items_schema }
{
    match values.get(KeywordName::Items) {
        Some(value) => is_items_schema(value) && KeywordName::Items.is_active(ctx),
        None => false,
    }
}

// Returns whether the keyword is absent, or active and a bound on a size.
fn takes_size<F: Json>(
    ctx: &Context<'_, F>,
    values: &KeywordValues<'_, '_>,
    keyword: KeywordName,
) -> bool
    ensures { result ≡ takes_size ctx.now.setting values.now keyword }
{
    match values.get(keyword) {
        Some(value) => size_limit(value).is_some() && keyword.is_active(ctx),
        None => true,
    }
}

// Returns whether no other keyword of items is present.
fn lacks_other_keywords(values: &KeywordValues<'_, '_>) -> bool
    ensures { result ≡ list_all (λ name. is_absent name values.now) unfused_names }
{
    values.get(KeywordName::PrefixItems).is_none()
        && values.get(KeywordName::AdditionalItems).is_none()
        && values.get(KeywordName::Contains).is_none()
        && member_of(values.parent(), "unevaluatedItems").is_none()
        && values.get(KeywordName::UniqueItems).is_none()
}
