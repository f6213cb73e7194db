//! Floats in the value of `const` or `enum`, which must contain none.
ghost use Rattle.std.specs.Prelude.{◌≡◌, option_map};
ghost use Rattle.serde_json.specs.View.{view, items_view, members_view};
ghost use Rattle.jskw_report.specs.Compile.{CompilesTo};
ghost use Rattle.jskw_report.specs.KeywordValue.{const_value, first_float, first_float_item};
ghost use Rattle.jskw_report.specs.KeywordValue.{first_float_member};

use jskw_report::{CompilationResult, CompileFault, KeywordLocation, ValidationErrorKind};
use serde_json::{Map, Value};
use std::alloc::Global;

// Returns the first float of a value: depth first, items by index, members in the order of the
// bytes of their names.
#[cycle(first_float)]
pub(crate) fn first_float(value: &Value) -> Option<&Value>
    ensures { option_map (λ v. view v.now) result ≡ first_float (view value.now) }
{
    match value {
        Value::Null | Value::Bool(_) | Value::String(_) => None,
        Value::Number(number) => { if number.is_f64() { Some(value) } else { None } }
        Value::Array(items) => float_in_items(items),
        Value::Object(members) => float_in_members(members),
    }
}

// Returns the first float of the items, by index.
#[cycle(first_float)]
fn float_in_items(items: &Vec<Value>) -> Option<&Value>
    ensures { option_map (λ v. view v.now) result ≡ first_float_item (items_view items.now.items) }
{
    for item in items {
        if let Some(float) = first_float(item) {
            return Some(float);
        }
    }
    None
}

// Returns the first float of the members, in the order of the bytes of their names.
#[cycle(first_float)]
fn float_in_members(members: &Map<String, Value>) -> Option<&Value>
    ensures { option_map (λ v. view v.now) result
        ≡ first_float_member (members_view members.now.entries) }
{
    for (_, member) in members.iter() {
        if let Some(float) = first_float(member) {
            return Some(float);
        }
    }
    None
}

// Refuses a value that contains a float, at the location of its keyword. The value at fault is the
// first float.
pub(crate) fn refuse_floats<'a>(
    alloc: Global,
    location: &KeywordLocation,
    value: &'a Value,
) -> CompilationResult<'a, ()>
    ensures { CompilesTo (λ _. view value.now) result (const_value location.now (view value.now)) }
{
    let Some(float) = first_float(value) else {
        return Ok(());
    };
    Err(CompileFault::wrong(alloc, ValidationErrorKind::not_whole(), location, float))
}
