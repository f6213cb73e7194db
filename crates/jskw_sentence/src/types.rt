//! The names of types.
ghost use Rattle.std.specs.Prelude.{◌≡◌};
ghost use Rattle.jskw_value.specs.Types.{type_name};

use jskw_value::types::{JsonType, JsonTypeSet};
use std::alloc::AllocError;

/// The types, in the order of the alphabet.
pub const TYPES: [JsonType; 7] = [
    JsonType::Array,
    JsonType::Boolean,
    JsonType::Integer,
    JsonType::Null,
    JsonType::Number,
    JsonType::Object,
    JsonType::String,
];

/// Returns the name of a type, as a schema writes it.
pub fn type_name(json_type: JsonType) -> &'static str
    ensures { result.now ≡ type_name json_type }
{
    match json_type {
        JsonType::Array => "array",
        JsonType::Boolean => "boolean",
        JsonType::Integer => "integer",
        JsonType::Null => "null",
        JsonType::Number => "number",
        JsonType::Object => "object",
        JsonType::String => "string",
    }
}

// Appends the names of all types of a set, or of all that there are.
pub(crate) fn push_types(text: &mut String, types: Option<JsonTypeSet>) -> Result<(), AllocError> {
    let mut before = "";
    for json_type in TYPES {
        let is_named = match types {
            Some(types) => types.contains(json_type),
            None => true,
        };
        if is_named {
            text.push_str(before)?;
            text.push_str(type_name(json_type))?;
            before = ", ";
        }
    }
    Ok(())
}
