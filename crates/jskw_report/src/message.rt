//! The messages of errors. Tests say what they are, not contracts.

use crate::error::{EnumOptions, TypeKind, ValidationError, ValidationErrorKind};
use jskw_value::types::{JsonType, JsonTypeSet};
use jskw_value::{Json, Node};
use serde_json::Value;
use std::alloc::{AllocError, Global};

// The order in which a message names the types of a set.
const TYPES: [JsonType; 7] = [
    JsonType::Null,
    JsonType::Boolean,
    JsonType::Integer,
    JsonType::Number,
    JsonType::String,
    JsonType::Array,
    JsonType::Object,
];

// The types in alphabetical order of their names.
const TYPES_BY_NAME: [JsonType; 7] = [
    JsonType::Array,
    JsonType::Boolean,
    JsonType::Integer,
    JsonType::Null,
    JsonType::Number,
    JsonType::Object,
    JsonType::String,
];

impl<F: Json> ValidationError<'_, F> {
    /// Returns the message of the error, in English. It describes the node at fault; nodes, names
    /// and values of the schema are written as compact JSON, as [`Node::write_json`] does.
    ///
    /// Messages may change from one version to the next. A program should look at
    /// [`kind`](ValidationError::kind).
    pub fn message(&self, alloc: Global) -> Result<String, AllocError> {
        let mut text = String::new(alloc);
        self.write_subject(alloc, &mut text)?;
        write_predicate(self.kind(), &mut text)?;
        Ok(text)
    }

    // Appends what the message begins with: for most kinds the node at fault.
    fn write_subject(&self, alloc: Global, text: &mut String) -> Result<(), AllocError> {
        match self.kind() {
            ValidationErrorKind::AdditionalItems { .. }
            | ValidationErrorKind::CompileError { .. } => Ok(()),
            ValidationErrorKind::Constant { expected_value } => expected_value.write_json(text),
            ValidationErrorKind::Contains => {
                text.push_str("None of ")?;
                self.instance().write_json(text)
            }
            ValidationErrorKind::FalseSchema => {
                text.push_str("False schema does not allow ")?;
                self.instance().write_json(text)
            }
            ValidationErrorKind::Required { property } => {
                Value::String(String::from_str(alloc, property)?).write_json(text)
            }
            _ => self.instance().write_json(text),
        }
    }
}

// Appends the rest of the message.
fn write_predicate(kind: &ValidationErrorKind, text: &mut String) -> Result<(), AllocError> {
    match kind {
        ValidationErrorKind::AdditionalItems { limit } => {
            write!(text, "Additional items past {limit} are not allowed")
        }
        ValidationErrorKind::CompileError { message } => text.push_str(message),
        ValidationErrorKind::Constant { .. } => text.push_str(" was expected"),
        ValidationErrorKind::Contains => text.push_str(" are valid under the given schema"),
        ValidationErrorKind::Enum { options } => write_options(options, text),
        ValidationErrorKind::ExclusiveMaximum { limit } => {
            write!(text, " is greater than or equal to the maximum of {limit}")
        }
        ValidationErrorKind::ExclusiveMinimum { limit } => {
            write!(text, " is less than or equal to the minimum of {limit}")
        }
        ValidationErrorKind::FalseSchema => Ok(()),
        ValidationErrorKind::MaxItems { limit } => write!(text, " has more than {limit} items"),
        ValidationErrorKind::Maximum { limit } => {
            write!(text, " is greater than the maximum of {limit}")
        }
        ValidationErrorKind::MaxProperties { limit } => {
            write!(text, " has more than {limit} properties")
        }
        ValidationErrorKind::MinItems { limit } => write!(text, " has less than {limit} items"),
        ValidationErrorKind::Minimum { limit } => {
            write!(text, " is less than the minimum of {limit}")
        }
        ValidationErrorKind::MinProperties { limit } => {
            write!(text, " has less than {limit} properties")
        }
        ValidationErrorKind::MultipleOf { multiple_of } => {
            write!(text, " is not a multiple of {multiple_of}")
        }
        ValidationErrorKind::Required { .. } => text.push_str(" is a required property"),
        ValidationErrorKind::WrongType { kind } => write_types(*kind, text),
        ValidationErrorKind::UniqueItems => text.push_str(" has non-unique elements"),
    }
}

// Appends that a value is not one of the options. Of more than three, the first two are named and
// the others are counted.
fn write_options(options: &EnumOptions, text: &mut String) -> Result<(), AllocError> {
    text.push_str(" is not one of ")?;
    let count = option_count(options);
    let named = if count > 3 { 2 } else { count };
    for index in 0..named {
        if index > 0 {
            text.push_str(if index + 1 == count { " or " } else { ", " })?;
        }
        write_option(options, index, text)?;
    }
    if count == 0 {
        text.push_str("the candidates")?;
    } else if count > named {
        write!(text, " or {} other candidates", count - named)?;
    }
    Ok(())
}

fn option_count(options: &EnumOptions) -> usize {
    match options {
        EnumOptions::Listed(Value::Array(values)) => values.len(),
        EnumOptions::Listed(_) => 0,
        EnumOptions::TypeNames => TYPES_BY_NAME.len(),
    }
}

// Appends the option at the index, if there is one.
fn write_option(options: &EnumOptions, index: usize, text: &mut String) -> Result<(), AllocError> {
    match options {
        EnumOptions::Listed(value) => match value.get(index) {
            Some(option) => option.write_json(text),
            None => Ok(()),
        },
        EnumOptions::TypeNames => match TYPES_BY_NAME.get(index) {
            Some(json_type) => write_type(*json_type, text),
            None => Ok(()),
        },
    }
}

// Appends that a value does not have the expected types.
fn write_types(kind: TypeKind, text: &mut String) -> Result<(), AllocError> {
    match kind {
        TypeKind::Single(json_type) => {
            text.push_str(" is not of type ")?;
            write_type(json_type, text)
        }
        TypeKind::Multiple(types) if types == JsonTypeSet::empty() => {
            text.push_str(" is not of any type")
        }
        TypeKind::Multiple(types) => {
            text.push_str(" is not of types ")?;
            write_type_set(types, text)
        }
    }
}

// Appends the names of the types, with commas between them.
fn write_type_set(types: JsonTypeSet, text: &mut String) -> Result<(), AllocError> {
    let mut is_first = true;
    for json_type in TYPES {
        if types.contains(json_type) {
            if !is_first {
                text.push_str(", ")?;
            }
            is_first = false;
            write_type(json_type, text)?;
        }
    }
    Ok(())
}

// Appends the name of the type in quotes.
fn write_type(json_type: JsonType, text: &mut String) -> Result<(), AllocError> {
    let name = match json_type {
        JsonType::Array => "array",
        JsonType::Boolean => "boolean",
        JsonType::Integer => "integer",
        JsonType::Null => "null",
        JsonType::Number => "number",
        JsonType::Object => "object",
        JsonType::String => "string",
    };
    write!(text, "\"{name}\"")
}
