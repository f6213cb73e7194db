//! The types of JSON Schema, and sets of types.
ghost use Rattle.std.specs.Prelude.{◌≡◌, IsTrue};
ghost use Rattle.std.specs.Result.{result_ok};
ghost use Rattle.jskw_value.specs.Serde.{value_tree};
ghost use Rattle.jskw_value.specs.Tree.{is_lawful};
ghost use Rattle.jskw_value.specs.Types.{no_types, insert, contains, has_type_of, json_type};
ghost use Rattle.jskw_value.specs.Types.{type_named};

use crate::json::{Json, JsonNumber, Node};
use serde_json::Value;
use std::str::FromStr;

/// A type that the keyword `type` can name (JSON Schema Validation 6.1.1).
#[derive(Clone, Copy, PartialEq, Eq, Debug)]
pub enum JsonType {
    /// An array.
    Array,
    /// A boolean.
    Boolean,
    /// A number whose fractional part is zero.
    Integer,
    /// `null`
    Null,
    /// A number.
    Number,
    /// An object.
    Object,
    /// A string.
    String,
}

/// Parses the name of a type: `array`, `boolean`, `integer`, `null`, `number`, `object` or
/// `string`. Any other text is an error.
impl FromStr for JsonType {
    type Err = ();

    ghost from_str_gives = { λ name result. result_ok result ≡ type_named name };

    fn from_str(name: &str) -> Result<JsonType, ()> {
        match name {
            "array" => Ok(JsonType::Array),
            "boolean" => Ok(JsonType::Boolean),
            "integer" => Ok(JsonType::Integer),
            "null" => Ok(JsonType::Null),
            "number" => Ok(JsonType::Number),
            "object" => Ok(JsonType::Object),
            "string" => Ok(JsonType::String),
            _ => Err(()),
        }
    }
}

/// Returns the type of the value: `Number` for every number.
impl From<&Value> for JsonType {
    ghost from_gives = { λ v t. t ≡ json_type (value_tree v.now) };

    fn from(value: &Value) -> JsonType {
        value.json_type()
    }
}

/// A set of types.
#[derive(Clone, Copy, PartialEq, Eq, Debug)]
pub struct JsonTypeSet {
    arrays: bool,
    booleans: bool,
    integers: bool,
    nulls: bool,
    numbers: bool,
    objects: bool,
    strings: bool,
}

impl JsonTypeSet {
    /// Returns the empty set.
    pub fn empty() -> JsonTypeSet
        ensures { result ≡ no_types }
    {
        JsonTypeSet {
            arrays: false,
            booleans: false,
            integers: false,
            nulls: false,
            numbers: false,
            objects: false,
            strings: false,
        }
    }

    /// Returns the set with this type added.
    #[must_use]
    pub fn insert(self, json_type: JsonType) -> JsonTypeSet
        ensures { result ≡ insert json_type self }
    {
        let mut types = self;
        match json_type {
            JsonType::Array => types.arrays = true,
            JsonType::Boolean => types.booleans = true,
            JsonType::Integer => types.integers = true,
            JsonType::Null => types.nulls = true,
            JsonType::Number => types.numbers = true,
            JsonType::Object => types.objects = true,
            JsonType::String => types.strings = true,
        }
        types
    }

    /// Returns whether the set contains this type.
    pub fn contains(self, json_type: JsonType) -> bool
        ensures { result ≡ contains self json_type }
    {
        match json_type {
            JsonType::Array => self.arrays,
            JsonType::Boolean => self.booleans,
            JsonType::Integer => self.integers,
            JsonType::Null => self.nulls,
            JsonType::Number => self.numbers,
            JsonType::Object => self.objects,
            JsonType::String => self.strings,
        }
    }

    /// Returns whether the value has a type of the set (JSON Schema Validation 6.1.1). Every number
    /// has the type `number`; a number whose fractional part is zero has the type `integer` too.
    /// The node must be lawful: it contains no float.
    pub fn contains_value_type<F: Json>(self, node: &F::Node) -> bool
        requires { IsTrue (is_lawful (F.Node.tree node.now)) }
        ensures { result ≡ has_type_of self (F.Node.tree node.now) }
    {
        if self.contains(node.json_type()) {
            return true;
        }
        match node.as_number() {
            Some(number) => self.integers && number.is_integer(),
            None => false,
        }
    }
}

/// Returns the set that contains this type alone.
impl From<JsonType> for JsonTypeSet {
    ghost from_gives = { λ t s. s ≡ insert t no_types };

    fn from(json_type: JsonType) -> JsonTypeSet {
        JsonTypeSet::empty().insert(json_type)
    }
}
