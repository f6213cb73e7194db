//! What a keyword expected, as JSON.
ghost use Rattle.std.specs.Prelude.{◌≡◌, ◌<◌, ◌++◌, IfOk, OnOk, decimal, false, filter, length, map, true};
ghost use Rattle.std.specs.Fmt.{signed_decimal};
ghost use Rattle.jskw_value.specs.Types.{contains, type_name};
ghost use Rattle.jskw_report.specs.Errors.{kind_of, enum_options_of};
ghost use Rattle.json.specs.Print.{quoted};
ghost use Rattle.serde_json.specs.View.{view};
ghost use Rattle.serde_json.specs.Written.{compact_text};
ghost use Rattle.jskw_c.specs.Evaluated.{strings_text};
ghost use Rattle.jskw_c.specs.Expected.{IsCompact, IsOptionsText, IsExpected, all_types, names_text};
ghost use Rattle.jskw_c.specs.Expected.{types_text};

use crate::json_parts::{push_comma, push_string};
use jskw_report::{EnumOptions, Payload, TypeKind, ValidationErrorKind};
use jskw_sentence::{TYPES, type_name};
use jskw_service::push_bytes;
use jskw_value::types::{JsonType, JsonTypeSet};
use serde_json::Value;
use std::alloc::{AllocError, Global};

// A longer text of a value of the schema is left out: each error would repeat it, and a caller has the
// schema.
const LONGEST: usize = 1024;

// Returns what the keyword expected, as compact JSON: the limit, divisor, constant, options or name,
// or the type or types. For a kind that has none of these the text is empty, and for a constant or
// options whose text is longer than LONGEST.
pub(crate) fn expected_text(
    alloc: Global,
    kind: &ValidationErrorKind<'_>,
) -> Result<Vec<u8>, AllocError>
    ensures { IfOk result (λ text. IsExpected (kind_of kind.now) text.items) }
{
    match kind.payload() {
        Payload::Nothing | Payload::Message(_) => Ok(Vec::new(alloc)),
        Payload::Count(count) => size_text(alloc, count),
        Payload::Limit(limit) => limit_text(alloc, limit),
        Payload::Value(value) => value_text(alloc, value),
        Payload::Options(options) => options_text(alloc, &options),
        Payload::Name(name) => string_text(alloc, name),
        Payload::Types(kind) => types_text(alloc, kind),
    }
}

// Returns a bound on a size, or a divisor.
fn size_text(alloc: Global, size: u64) -> Result<Vec<u8>, AllocError>
    ensures { IfOk result (λ text. text.items ≡ decimal size) }
{
    Ok(format!(in alloc; "{size}")?.into_bytes())
}

// Returns a limit on numbers.
fn limit_text(alloc: Global, limit: i128) -> Result<Vec<u8>, AllocError>
    ensures { IfOk result (λ text. text.items ≡ signed_decimal limit) }
{
    Ok(format!(in alloc; "{limit}")?.into_bytes())
}

// Returns the text of a value of the schema, or none if it is longer than LONGEST.
fn value_text(alloc: Global, value: &Value) -> Result<Vec<u8>, AllocError>
    ensures { IfOk result (λ text. IsCompact (view value.now) text.items) }
{
    if has_many_items(value) {
        return Ok(Vec::new(alloc));
    }
    let text = value.to_vec(alloc)?;
    if text.len() > LONGEST {
        return Ok(Vec::new(alloc));
    }
    Ok(text)
}

// Returns whether the value is an array whose commas alone are more than LONGEST bytes. Its text is not
// written for each error, only to be left out.
#[tactic(auto, using(crate::proofs::LongValues::has_many))]
fn has_many_items(value: &Value) -> bool
    ensures { result ≡ true → 1024 < length (compact_text (view value.now)) }
{
    match value.as_array() {
        Some(items) => items.len() > LONGEST,
        None => false,
    }
}

// Returns the array of `enum`, or that of the names of all types.
fn options_text(alloc: Global, options: &EnumOptions<'_>) -> Result<Vec<u8>, AllocError>
    ensures { IfOk result (λ text. IsOptionsText (enum_options_of options.now) text.items) }
{
    match options {
        EnumOptions::Listed(value) => value_text(alloc, value),
        EnumOptions::TypeNames => {
            let types = JsonTypeSet::empty()
                .insert(JsonType::Array)
                .insert(JsonType::Boolean)
                .insert(JsonType::Integer)
                .insert(JsonType::Null)
                .insert(JsonType::Number)
                .insert(JsonType::Object)
                .insert(JsonType::String);
            names_text(alloc, types)
        }
    }
}

// Returns the name of the type, or an array of names.
fn types_text(alloc: Global, kind: TypeKind) -> Result<Vec<u8>, AllocError>
    ensures { IfOk result (λ text. text.items ≡ types_text kind) }
{
    match kind {
        TypeKind::Single(json_type) => string_text(alloc, type_name(json_type)),
        TypeKind::Multiple(types) => names_text(alloc, types),
    }
}

// Returns the array of the names of the types.
#[tactic(auto, unfolding(crate::specs::Expected::names_text))]
fn names_text(alloc: Global, types: JsonTypeSet) -> Result<Vec<u8>, AllocError>
    ensures { IfOk result (λ text. text.items ≡ names_text (filter (contains types) all_types)) }
{
    let mut text = Vec::new(alloc);
    push_bytes(&mut text, b"[")?;
    push_names(alloc, &mut text, types)?;
    push_bytes(&mut text, b"]")?;
    Ok(text)
}

// Appends the names of the types, as the items of an array.
fn push_names(alloc: Global, text: &mut Vec<u8>, types: JsonTypeSet) -> Result<(), AllocError>
    ensures { OnOk result (text.new.items ≡ text.old.items
        ++ strings_text false (map type_name (filter (contains types) all_types))) }
{
    let mut later = false;
    for json_type in TYPES {
        if types.contains(json_type) {
            push_comma(text, later)?;
            push_string(alloc, text, type_name(json_type))?;
            later = true;
        }
    }
    Ok(())
}

// Returns a string in quotes.
fn string_text(alloc: Global, value: &str) -> Result<Vec<u8>, AllocError>
    ensures { IfOk result (λ text. text.items ≡ quoted value.now) }
{
    let mut text = Vec::new(alloc);
    push_string(alloc, &mut text, value)?;
    Ok(text)
}
