//! What the members of an object say of its keywords.
ghost use Rattle.std.specs.Prelude.{◌≡◌};
ghost use Rattle.jskw_array.specs.Words.{Some, active_member, array_schema_count};
ghost use Rattle.jskw_array.specs.Words.{get_member, members_view, option_map, view};

use jskw_report::context::member_of;
use jskw_report::{Context, KeywordName, KeywordValues};
use jskw_value::Json;
use serde_json::{Map, Value};

// Returns the value of a keyword, if it is present and active.
pub(crate) fn active_member<'a, F: Json>(
    ctx: &Context<'_, F>,
    values: &KeywordValues<'_, 'a>,
    keyword: KeywordName,
) -> Option<&'a Value>
    ensures { option_map (λ value. view value.now) result
        ≡ active_member ctx.now.setting values.now keyword }
{
    let value = values.get(keyword)?;
    if keyword.is_active(ctx) {
        Some(value)
    } else {
        None
    }
}

// Returns the number of schemas in the array under a name, or `None` if there is no array.
pub(crate) fn schema_count(parent: &Map<String, Value>, name: &str) -> Option<usize>
    ensures { result ≡ array_schema_count (get_member name.now (members_view parent.now.entries)) }
{
    match member_of(parent, name) {
        Some(Value::Array(items)) => Some(items.len()),
        _ => None,
    }
}
