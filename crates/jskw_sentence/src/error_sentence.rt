//! Sentences. Tests say what they are, not contracts.
ghost use Rattle.std.specs.Prelude.{◌≡◌, [], ◌∷◌, codes};
ghost use Rattle.jskw_sentence.specs.Place.{place_shown};

use crate::bounded::push_piece;
use crate::types::{push_types, type_name};
use crate::value::{push_value, write_text, write_value};
use jskw_report::{EnumOptions, Location, TypeKind, ValidationError, ValidationErrorKind};
use jskw_value::types::{JsonType, JsonTypeSet};
use jskw_value::{Array, Json, JsonNumber, Node, Object, SerdeJson};
use serde_json::Value;
use std::alloc::{AllocError, Global};

// How many characters of a value or a name are written.
const MOST: usize = 80;

// Of how many items at most all pairs are compared, to name two that are equal.
const MOST_COMPARED: usize = 64;

/// Returns the JSON pointer of a place in an instance, or `(root)` if it is empty.
pub fn shown_place(pointer: &str) -> &str
    ensures { result.now ≡ place_shown pointer.now }
{
    match pointer {
        "" => "(root)",
        _ => pointer,
    }
}

/// Returns what is wrong with the value at fault, in a sentence without a full stop: `-5 must be at least
/// 0`, `has 1 member, needs at least 2`. Where it begins with a verb, its subject is the value at the
/// instance location. Of values and names the first 80 characters are written.
pub fn sentence<F: Json>(
    alloc: Global,
    error: &ValidationError<'_, F>,
) -> Result<String, AllocError> {
    let mut text = String::new(alloc);
    let value = error.instance();
    match *error.kind() {
        ValidationErrorKind::AdditionalItems { limit } => {
            write_items(&mut text, value)?;
            write!(text, ", may have at most {limit}")?;
        }
        ValidationErrorKind::MaxItems { limit } => {
            write_items(&mut text, value)?;
            write!(text, ", may have at most {limit}")?;
        }
        ValidationErrorKind::MinItems { limit } => {
            write_items(&mut text, value)?;
            write!(text, ", needs at least {limit}")?;
        }
        ValidationErrorKind::MaxProperties { limit } => {
            write_members(&mut text, value)?;
            write!(text, ", may have at most {limit}")?;
        }
        ValidationErrorKind::MinProperties { limit } => {
            write_members(&mut text, value)?;
            write!(text, ", needs at least {limit}")?;
        }
        ValidationErrorKind::Required { property } => {
            text.push_str("has no member ")?;
            write_text(alloc, &mut text, &mut Some(MOST), property)?;
        }
        ValidationErrorKind::Contains => text.push_str(matching(error.schema_path()))?,
        ValidationErrorKind::UniqueItems => write_equal_items(&mut text, value)?,
        kind => {
            push_value(alloc, &mut text, value, MOST)?;
            write_demand(alloc, &mut text, value, kind)?;
        }
    }
    Ok(text)
}

/// Returns what is wrong with the value at fault in a schema, in a sentence as [`sentence`] has it. A number
/// that no keyword may have is written as `serde_json` writes it.
pub fn schema_sentence(
    alloc: Global,
    error: &ValidationError<'_, SerdeJson>,
) -> Result<String, AllocError> {
    match *error.kind() {
        ValidationErrorKind::CompileError { .. } if error.instance().is_number() => {
            let mut text = error.instance().to_string(alloc)?;
            text.push_str(" is not a whole number of 64 bits")?;
            Ok(text)
        }
        _ => sentence(alloc, error),
    }
}

// Appends what was demanded of a value that is written already.
fn write_demand<N: Node>(
    alloc: Global,
    text: &mut String,
    value: &N,
    kind: ValidationErrorKind<'_>,
) -> Result<(), AllocError> {
    match kind {
        ValidationErrorKind::ExclusiveMaximum { limit } => write!(text, " must be below {limit}"),
        ValidationErrorKind::ExclusiveMinimum { limit } => write!(text, " must be above {limit}"),
        ValidationErrorKind::Maximum { limit } => write!(text, " must be at most {limit}"),
        ValidationErrorKind::Minimum { limit } => write!(text, " must be at least {limit}"),
        ValidationErrorKind::MultipleOf { multiple_of } => {
            write!(text, " must be a multiple of {multiple_of}")
        }
        ValidationErrorKind::Constant { expected_value } => {
            text.push_str(" must be ")?;
            push_value(alloc, text, expected_value, MOST)
        }
        ValidationErrorKind::Enum { options } => write_options(alloc, text, options),
        ValidationErrorKind::WrongType { kind } => {
            write!(text, " is of type {}, must be ", shown_type(value))?;
            write_types(text, kind)
        }
        ValidationErrorKind::CompileError {
            message: "Unexpected type",
        } => {
            text.push_str(" is no type, must be one of ")?;
            push_types(text, None)
        }
        ValidationErrorKind::CompileError { message } => write!(text, ": {message}"),
        _ => text.push_str(" is not allowed"),
    }
}

// Returns the name of the type of a value, `integer` for a number that is written as one.
fn shown_type<N: Node>(value: &N) -> &'static str {
    match value.as_number() {
        Some(number) if number.is_lawful() && number.is_written_as_integer() => type_name(
            JsonType::Integer,
        ),
        _ => type_name(value.json_type()),
    }
}

// Appends types, one of which was demanded.
fn write_types(text: &mut String, kind: TypeKind) -> Result<(), AllocError> {
    match kind {
        TypeKind::Single(json_type) => text.push_str(type_name(json_type)),
        TypeKind::Multiple(types) if types == JsonTypeSet::empty() => text.push_str("of none"),
        TypeKind::Multiple(types) => {
            text.push_str("one of ")?;
            push_types(text, Some(types))
        }
    }
}

// Appends that one of the options was demanded, and names them as far as there is room.
fn write_options(
    alloc: Global,
    text: &mut String,
    options: EnumOptions<'_>,
) -> Result<(), AllocError> {
    let EnumOptions::Listed(Value::Array(options)) = options else {
        text.push_str(" must be one of ")?;
        return push_types(text, None);
    };
    if options.is_empty() {
        return text.push_str(" is not allowed, nor is any value");
    }
    text.push_str(" must be one of ")?;
    let mut room = Some(MOST);
    let mut is_first = true;
    for option in options.as_slice() {
        if room.is_none() {
            return Ok(());
        }
        push_piece(text, &mut room, if is_first { "" } else { ", " })?;
        is_first = false;
        write_value(alloc, text, &mut room, option, MOST)?;
    }
    Ok(())
}

// Appends how many items an array has.
fn write_items<N: Node>(text: &mut String, array: &N) -> Result<(), AllocError> {
    match array.item_count() {
        1 => text.push_str("has 1 item"),
        count => write!(text, "has {count} items"),
    }
}

// Appends how many members an object has.
fn write_members<N: Node>(text: &mut String, object: &N) -> Result<(), AllocError> {
    let count = if object.is_object() {
        Object::len(object)
    } else {
        0
    };
    match count {
        1 => text.push_str("has 1 member"),
        count => write!(text, "has {count} members"),
    }
}

// Returns how many items match the schema of `contains`, by the keyword that fails.
fn matching(keyword: &Location) -> &'static str {
    let keyword = keyword.as_str();
    if keyword.ends_with("/minContains") {
        "has too few items that match"
    } else if keyword.ends_with("/maxContains") {
        "has too many items that match"
    } else {
        "has no item that matches"
    }
}

// Appends that two items are equal, and which, unless that takes long.
fn write_equal_items<N: Node>(text: &mut String, array: &N) -> Result<(), AllocError> {
    match equal_items(array) {
        Some((one, other)) => write!(text, "has equal items, {one} and {other}"),
        None => text.push_str("has equal items"),
    }
}

// Returns the first two items that are equal, of an array that is not long.
fn equal_items<N: Node>(array: &N) -> Option<(usize, usize)> {
    let count = array.item_count().min(MOST_COMPARED);
    for other in 1..count {
        for one in 0..other {
            if array.item(one).equals(array.item(other)) {
                return Some((one, other));
            }
        }
    }
    None
}
