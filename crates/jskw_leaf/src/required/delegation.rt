//! The rule by which `required` is delegated to the object layer: it depends on the keywords beside
//! it.
ghost use Rattle.std.specs.Prelude.{◌≡◌, not};
ghost use Rattle.serde_json.specs.View.{view, members_view};
ghost use Rattle.jskw_report.specs.Setting.{name_of};
ghost use Rattle.jskw_report.specs.Sibling.{has_few_members, has_items, is_absent, is_false};
ghost use Rattle.jskw_report.specs.Sibling.{is_handed_on, is_object_value, member_passes};
ghost use Rattle.jskw_report.specs.Sibling.{requires_one_of_properties, requires_two_of_properties};

use jskw_report::context::member_of;
use jskw_report::{Context, KeywordName, KeywordValues, Vocabulary, find_values};
use jskw_value::Json;
use serde_json::{Map, Value};

// With this many members of `properties` or more, two required names are not delegated.
const TOO_MANY_PROPERTIES: usize = 15;

/// Returns whether the `required` of `parent` is active and is delegated to the object layer. Then
/// [`compile`](super::compile) makes no validator of it, and does not check its value.
///
/// It is delegated if the context has an object layer, the applicator vocabulary is present,
/// `parent` has no `patternProperties`, and one of these cases applies:
///
/// - `required` is an array of one item, `parent` has `properties`, and its `additionalProperties`
///   is `false` and not overridden.
/// - `required` is an array of two items, `properties` is an object of fewer than 15 members and
///   not overridden, and `additionalProperties` is neither `false` nor an object, or is absent.
///
/// The items are counted as they are written: a repeated name counts twice.
pub fn is_handed_on<F: Json>(ctx: &Context<'_, F>, parent: &Map<String, Value>) -> bool
    ensures { result ≡ is_handed_on ctx.now.setting (members_view parent.now.entries) }
{
    let mut values = [None; KeywordName::COUNT];
    find_values(parent, &mut values[..]);
    is_delegated(ctx, &KeywordValues::new(parent, &values))
}

/// Returns what [`is_handed_on`] does, of the schema that has these keywords.
#[tactic(auto, unfolding(jskw_report::specs::Sibling::is_handed_on), using(crate::proofs::Delegation::and_false))]
pub fn is_delegated<F: Json>(ctx: &Context<'_, F>, values: &KeywordValues<'_, '_>) -> bool
    ensures { result ≡ is_handed_on ctx.now.setting values.now }
{
    KeywordName::Required.is_active(ctx)
        && ctx.object_layer()
        && ctx.has_vocabulary(Vocabulary::Applicator)
        && (requires_one_of_properties(ctx, values) || requires_two_of_properties(ctx, values))
        && !has_member(values.parent(), "patternProperties")
}

// Returns whether the first case of [`is_handed_on`] applies.
fn requires_one_of_properties<F: Json>(ctx: &Context<'_, F>, values: &KeywordValues<'_, '_>) -> bool
    ensures { result ≡ requires_one_of_properties ctx.now.setting values.now }
{
    let parent = values.parent();
    requires_names(values, 1)
        && has_member(parent, "properties")
        && has_false(parent, "additionalProperties")
        && !ctx.is_keyword_overridden("additionalProperties")
}

// Returns whether the second case of [`is_handed_on`] applies.
fn requires_two_of_properties<F: Json>(ctx: &Context<'_, F>, values: &KeywordValues<'_, '_>) -> bool
    ensures { result ≡ requires_two_of_properties ctx.now.setting values.now }
{
    let parent = values.parent();
    requires_names(values, 2)
        && has_small_object(parent, "properties")
        && !ctx.is_keyword_overridden("properties")
        && !has_false(parent, "additionalProperties")
        && !has_object(parent, "additionalProperties")
}

// Returns whether `required` is an array of `count` items.
fn requires_names(values: &KeywordValues<'_, '_>, count: usize) -> bool
    ensures { result ≡ member_passes (has_items count) (name_of KeywordName.Required) values.now }
{
    match values.get(KeywordName::Required) {
        Some(value) => is_array_of(value, count),
        None => false,
    }
}

// Returns whether the value is an array of `count` items.
fn is_array_of(value: &Value, count: usize) -> bool
    ensures { result ≡ has_items count (view value.now) }
{
    match value {
        Value::Array(items) => items.len() == count,
        _ => false,
    }
}

// Returns whether `parent` has a member `name`.
fn has_member(parent: &Map<String, Value>, name: &str) -> bool
    ensures { result ≡ not (is_absent name.now (members_view parent.now.entries)) }
{
    member_of(parent, name).is_some()
}

// Returns whether the member `name` is `false`.
fn has_false(parent: &Map<String, Value>, name: &str) -> bool
    ensures { result ≡ member_passes is_false name.now (members_view parent.now.entries) }
{
    matches!(member_of(parent, name), Some(Value::Bool(false)))
}

// Returns whether the member `name` is an object.
fn has_object(parent: &Map<String, Value>, name: &str) -> bool
    ensures { result ≡ member_passes is_object_value name.now (members_view parent.now.entries) }
{
    matches!(member_of(parent, name), Some(Value::Object(_)))
}

// Returns whether the member `name` is an object of fewer than 15 members.
fn has_small_object(parent: &Map<String, Value>, name: &str) -> bool
    ensures { result ≡ member_passes has_few_members name.now (members_view parent.now.entries) }
{
    match member_of(parent, name) {
        Some(value) => has_few_members(value),
        None => false,
    }
}

// Returns whether the value is an object of fewer than 15 members.
fn has_few_members(value: &Value) -> bool
    ensures { result ≡ has_few_members (view value.now) }
{
    match value {
        Value::Object(members) => members.len() < TOO_MANY_PROPERTIES,
        _ => false,
    }
}
