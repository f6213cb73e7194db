//! The errors of an instance, and those of a schema that does not compile.
ghost use Rattle.std.specs.Prelude.{◌≡◌, [], IfOk, alloc_error};
ghost use Rattle.jskw_report.specs.Kind.{keyword_of, payload_of, Single, Multiple, WrongType};
ghost use Rattle.jskw_report.specs.KeywordValue.{not_whole};
ghost use Rattle.serde_json.specs.View.{view};
ghost use Rattle.jskw_value.specs.Serde.{value_tree};
ghost use Rattle.jskw_report.specs.Compile.{Refuses, refusal_of};
ghost use Rattle.jskw_report.specs.Errors.{kind_of, failure_of, payload_view};
ghost use Rattle.jskw_report.specs.declared.error.CompileFault.TheVariants as compile_fault;
ghost use Rattle.jskw_report.specs.declared.error.Fault.TheVariants as fault;
ghost use Rattle.jskw_report.specs.declared.error.Stop.TheVariants as stop;

use crate::paths::{KeywordLocation, Location};
use jskw_value::types::{JsonType, JsonTypeSet};
use jskw_value::{Json, SerdeJson};
use serde_json::Value;
use std::alloc::{AllocError, AllocFailed, Global};

/// The types that were expected.
#[derive(Clone, Copy, Debug, PartialEq, Eq)]
pub enum TypeKind {
    /// One type. For `type`: the value is a name, or an array of one name.
    Single(JsonType),
    /// Any type of a set, which may be empty. For `type`: the value is an array of any other
    /// length.
    Multiple(JsonTypeSet),
}

/// The options that were expected.
#[derive(Clone, Copy, Debug, PartialEq)]
pub enum EnumOptions<'i> {
    /// The items of this array, the value of `enum`. A value that is not an array has no options.
    Listed(&'i Value),
    /// The names of the seven types of JSON Schema, which `type` accepts.
    TypeNames,
}

/// What an error is about, with what the keyword expected.
///
/// A limit is an integer from -2^63 to 2^64-1, a bound on a size an integer from 0 to 2^64-1, and a
/// divisor an integer from 1 to 2^64-1. A compile error is of the kind `CompileError`, `Enum`,
/// `ExclusiveMinimum`, `Minimum` or `WrongType`, and is about a value of the schema.
#[derive(Clone, Copy, Debug, PartialEq)]
pub enum ValidationErrorKind<'i> {
    /// The array has more than `limit` items, the number of schemas in `items`, and
    /// `additionalItems` is `false` (Draft 7 Validation 6.4.2).
    AdditionalItems { limit: usize },
    /// The schema has a float in `const`, `enum`, a limit or a divisor, or `type` has an unknown
    /// name and no other. `message` says which.
    CompileError { message: &'static str },
    /// The instance does not equal the value of `const` (JSON Schema Validation 6.1.3).
    Constant { expected_value: &'i Value },
    /// Too few or too many items match the schema of `contains` (JSON Schema Core 10.3.1.3,
    /// Validation 6.4.4, 6.4.5).
    Contains,
    /// The instance equals none of the options (JSON Schema Validation 6.1.2).
    Enum { options: EnumOptions<'i> },
    /// The number is not below the limit (JSON Schema Validation 6.2.3).
    ExclusiveMaximum { limit: i128 },
    /// The number is not above the limit (JSON Schema Validation 6.2.5).
    ExclusiveMinimum { limit: i128 },
    /// The schema is `false`, which accepts no instance (JSON Schema Core 4.3.2).
    FalseSchema,
    /// The array has more than `limit` items (JSON Schema Validation 6.4.1).
    MaxItems { limit: u64 },
    /// The number is above the limit (JSON Schema Validation 6.2.2).
    Maximum { limit: i128 },
    /// The object has more than `limit` members (JSON Schema Validation 6.5.1).
    MaxProperties { limit: u64 },
    /// The array has fewer than `limit` items (JSON Schema Validation 6.4.2).
    MinItems { limit: u64 },
    /// The number is below the limit (JSON Schema Validation 6.2.4).
    Minimum { limit: i128 },
    /// The object has fewer than `limit` members (JSON Schema Validation 6.5.2).
    MinProperties { limit: u64 },
    /// The number is not an integer multiple of the divisor (JSON Schema Validation 6.2.1).
    MultipleOf { multiple_of: u64 },
    /// The object has no member with the name `property` (JSON Schema Validation 6.5.3).
    Required { property: &'i str },
    /// The instance has none of the expected types (JSON Schema Validation 6.1.1).
    WrongType { kind: TypeKind },
    /// Two items of the array are equal (JSON Schema Validation 6.4.3).
    UniqueItems,
}

impl<'i> ValidationErrorKind<'i> {
    /// Returns the kind for a value that does not have the type.
    pub fn of_type(json_type: JsonType) -> ValidationErrorKind<'i>
        ensures { kind_of result ≡ WrongType (Single json_type) }
    {
        ValidationErrorKind::WrongType {
            kind: TypeKind::Single(json_type),
        }
    }

    /// Returns the kind for a value that has none of the types.
    pub fn of_types(types: JsonTypeSet) -> ValidationErrorKind<'i>
        ensures { kind_of result ≡ WrongType (Multiple types) }
    {
        ValidationErrorKind::WrongType {
            kind: TypeKind::Multiple(types),
        }
    }

    /// Returns the kind for a float in a schema, which `const`, `enum`, limits and divisors don't
    /// accept: a number that `serde_json` holds neither as a `u64` nor as an `i64`, such as `1.5`,
    /// `2.0` or `1e30`. It is a `CompileError` with the message `Not a whole number of 64 bits`.
    pub fn not_whole() -> ValidationErrorKind<'i>
        ensures { kind_of result ≡ not_whole }
    {
        ValidationErrorKind::CompileError {
            message: "Not a whole number of 64 bits",
        }
    }

    /// Returns the name of the keyword that the kind is reported as: `falseSchema` for the schema
    /// `false`, `compileError` for `CompileError`, and `contains` also if one of its bounds fails.
    pub fn keyword(&self) -> &'static str
        ensures { result.now ≡ keyword_of (kind_of self.now) }
    {
        self.told().0
    }

    /// Returns what the keyword expected.
    pub fn payload(&self) -> Payload<'i>
        ensures { payload_view result ≡ payload_of (kind_of self.now) }
    {
        self.told().1
    }

    // Returns the name of the keyword, and what it expected.
    fn told(&self) -> (&'static str, Payload<'i>)
        ensures keyword { result.0.now ≡ keyword_of (kind_of self.now) }
        ensures payload { payload_view result.1 ≡ payload_of (kind_of self.now) }
    {
        match *self {
            ValidationErrorKind::AdditionalItems { limit } => {
                ("additionalItems", Payload::Count(limit as u64))
            }
            ValidationErrorKind::CompileError { message } => {
                ("compileError", Payload::Message(message))
            }
            ValidationErrorKind::Constant { expected_value } => {
                ("const", Payload::Value(expected_value))
            }
            ValidationErrorKind::Contains => ("contains", Payload::Nothing),
            ValidationErrorKind::Enum { options } => ("enum", Payload::Options(options)),
            ValidationErrorKind::ExclusiveMaximum { limit } => {
                ("exclusiveMaximum", Payload::Limit(limit))
            }
            ValidationErrorKind::ExclusiveMinimum { limit } => {
                ("exclusiveMinimum", Payload::Limit(limit))
            }
            ValidationErrorKind::FalseSchema => ("falseSchema", Payload::Nothing),
            ValidationErrorKind::MaxItems { limit } => ("maxItems", Payload::Count(limit)),
            ValidationErrorKind::Maximum { limit } => ("maximum", Payload::Limit(limit)),
            ValidationErrorKind::MaxProperties { limit } => {
                ("maxProperties", Payload::Count(limit))
            }
            ValidationErrorKind::MinItems { limit } => ("minItems", Payload::Count(limit)),
            ValidationErrorKind::Minimum { limit } => ("minimum", Payload::Limit(limit)),
            ValidationErrorKind::MinProperties { limit } => {
                ("minProperties", Payload::Count(limit))
            }
            ValidationErrorKind::MultipleOf { multiple_of } => {
                ("multipleOf", Payload::Count(multiple_of))
            }
            ValidationErrorKind::Required { property } => ("required", Payload::Name(property)),
            ValidationErrorKind::WrongType { kind } => ("type", Payload::Types(kind)),
            ValidationErrorKind::UniqueItems => ("uniqueItems", Payload::Nothing),
        }
    }
}

/// What a keyword expected: what errors of most kinds have beside their keyword.
#[derive(Clone, Copy, Debug, PartialEq)]
pub enum Payload<'i> {
    /// Nothing more than the keyword says.
    Nothing,
    /// Why a schema is refused.
    Message(&'static str),
    /// A bound on a size, or a divisor: an integer from 0 to 2^64-1.
    Count(u64),
    /// A limit on numbers: an integer from -2^63 to 2^64-1.
    Limit(i128),
    /// The value of `const`.
    Value(&'i Value),
    /// The options of `enum`, or the names of all types.
    Options(EnumOptions<'i>),
    /// The name of a member.
    Name(&'i str),
    /// The types, one of which was expected.
    Types(TypeKind),
}

/// A keyword location: borrowed from a validator, or owned by a compile error.
#[derive(Debug, Drop)]
enum SchemaPath<'i> {
    Lent(&'i Location),
    Owned(Location),
}

/// Why an instance is invalid, or why a schema does not compile.
///
/// The error of an instance borrows the node at fault from the instance, and what was expected and
/// the keyword location from the validator; it owns the instance location. A compile error borrows
/// the value at fault from the schema and owns its keyword location; its instance location is the
/// empty pointer.
#[derive_where(Debug)]
pub struct ValidationError<'i, F: Json> {
    kind: ValidationErrorKind<'i>,
    instance_path: Location,
    schema_path: SchemaPath<'i>,
    #[derive_where(skip)]
    instance: &'i F::Node,
}

// Written out, as those of the other types that many crates drop: a derived one is proved again, with
// those of all fields, in each crate that drops one.
impl<'i, F: Json> Drop for ValidationError<'i, F> {
    fn drop(self) {
        let ValidationError {
            kind: _,
            instance_path: _,
            schema_path: _,
            instance: _,
        } = self;
    }
}

impl<'i, F: Json> ValidationError<'i, F> {
    /// Creates the error of an instance. The getters return these four values.
    pub fn new(
        kind: ValidationErrorKind<'i>,
        instance_path: Location,
        schema_path: &'i Location,
        instance: &'i F::Node,
    ) -> ValidationError<'i, F>
        ensures { failure_of F.Node.tree result ≡ record {
          kind = kind_of kind.entry;
          instance_location = instance_path;
          keyword_location = schema_path.now;
          tree = F.Node.tree instance.now;
        } }
    {
        ValidationError {
            kind,
            instance_path,
            schema_path: SchemaPath::Lent(schema_path),
            instance,
        }
    }

    /// Creates the error of an instance for the keyword location of a validator. Fails only if
    /// memory runs out.
    pub fn at_keyword(
        alloc: Global,
        kind: ValidationErrorKind<'i>,
        instance_path: Location,
        schema_path: &'i KeywordLocation,
        instance: &'i F::Node,
    ) -> Result<ValidationError<'i, F>, AllocError>
        ensures { IfOk result (λ error. failure_of F.Node.tree error ≡ record {
          kind = kind_of kind.entry;
          instance_location = instance_path;
          keyword_location = schema_path.now;
          tree = F.Node.tree instance.now;
        }) }
    {
        let schema_path = match schema_path.whole() {
            Some(whole) => SchemaPath::Lent(whole),
            None => SchemaPath::Owned(schema_path.to_location(alloc)?),
        };
        Ok(ValidationError {
            kind,
            instance_path,
            schema_path,
            instance,
        })
    }

    /// Returns what the error is about, with what the keyword expected.
    pub fn kind(&self) -> &ValidationErrorKind<'i>
        ensures { kind_of result.now ≡ (failure_of F.Node.tree self.now).kind }
    {
        &self.kind
    }

    /// Returns the instance location (JSON Schema Core 12.3.3): the empty pointer for a compile
    /// error.
    pub fn instance_path(&self) -> &Location
        ensures { result.now ≡ (failure_of F.Node.tree self.now).instance_location }
    {
        &self.instance_path
    }

    /// Returns the keyword location (JSON Schema Core 12.3.1).
    pub fn schema_path(&self) -> &Location
        ensures { result.now ≡ (failure_of F.Node.tree self.now).keyword_location }
    {
        match &self.schema_path {
            SchemaPath::Lent(location) => *location,
            SchemaPath::Owned(location) => location,
        }
    }

    /// Returns the keyword location along the path that the evaluation took. It is the same as
    /// `schema_path`, since no keyword of this library refers to another schema.
    pub fn evaluation_path(&self) -> &Location
        ensures { result.now ≡ (failure_of F.Node.tree self.now).keyword_location }
    {
        self.schema_path()
    }

    /// Returns the node at fault: that at the instance location, or the value of the schema for a
    /// compile error.
    pub fn instance(&self) -> &'i F::Node
        ensures { F.Node.tree result.now ≡ (failure_of F.Node.tree self.now).tree }
    {
        self.instance
    }
}

impl<'a> ValidationError<'a, SerdeJson> {
    /// Creates the compile error for a value of a schema that its keyword does not accept.
    /// `schema_path` is the keyword location; the instance location is the empty pointer.
    pub fn refused(
        alloc: Global,
        kind: ValidationErrorKind<'a>,
        schema_path: Location,
        value: &'a Value,
    ) -> ValidationError<'a, SerdeJson>
        ensures fault { refusal_of result ≡ record {
          kind = kind_of kind.entry;
          location = schema_path;
          value = view value.now;
        } }
        ensures instance_path { (failure_of value_tree result).instance_location ≡ [] }
    {
        ValidationError {
            kind,
            instance_path: Location::new(alloc),
            schema_path: SchemaPath::Owned(schema_path),
            instance: value,
        }
    }
}

/// Why [`validate`](crate::Validate::validate) did not return `Ok`.
#[derive(Drop)]
#[derive_where(Debug)]
pub enum Fault<'i, F: Json> {
    /// The instance is invalid, and this is the first error.
    Invalid(ValidationError<'i, F>),
    /// Memory ran out. This says nothing about the instance.
    Memory(AllocError),
}

/// Why [`report_errors`](crate::Validate::report_errors) did not return `Ok`.
#[derive(Debug, Drop)]
pub enum Stop {
    /// The instance is invalid, and no other error is wanted.
    Invalid,
    /// Memory ran out. This says nothing about the instance.
    Memory(AllocError),
}

/// Why a schema or a keyword was not compiled.
#[derive(Debug, Drop)]
pub enum CompileFault<'a> {
    /// The schema or a subschema is neither a boolean nor an object, or has a value that its
    /// keyword does not accept. This is the error of the first such value.
    Bad(ValidationError<'a, SerdeJson>),
    /// Memory ran out. This says nothing about the schema.
    Memory(AllocError),
}

impl<'a> CompileFault<'a> {
    /// Returns the fault for a value of a schema that its keyword does not accept: `Bad` with an
    /// error of the kind at the keyword location, or `Memory` if memory runs out when the text of
    /// the location is made.
    pub fn wrong(
        alloc: Global,
        kind: ValidationErrorKind<'a>,
        location: &KeywordLocation,
        value: &'a Value,
    ) -> CompileFault<'a>
        ensures { Refuses result (record {
          kind = kind_of kind.entry;
          location = location.now;
          value = view value.now;
        }) }
    {
        match location.to_location(alloc) {
            Ok(location) => {
                CompileFault::Bad(ValidationError::refused(alloc, kind, location, value))
            }
            Err(error) => CompileFault::Memory(error),
        }
    }
}

/// The result of a compile: what was compiled, such as a validator, or why nothing was.
pub type CompilationResult<'a, V> = Result<V, CompileFault<'a>>;

impl From<AllocError> for CompileFault<'_> {
    ghost from_gives = { λ e f. f ≡ compile_fault.Memory e };

    fn from(e: AllocError) -> Self {
        CompileFault::Memory(e)
    }
}

impl<T: Drop> From<AllocFailed<T>> for CompileFault<'_> {
    ghost from_gives = { λ _ f. f ≡ compile_fault.Memory alloc_error };

    fn from(e: AllocFailed<T>) -> Self {
        CompileFault::Memory(AllocError::from(e))
    }
}

impl From<AllocError> for Stop {
    ghost from_gives = { λ e s. s ≡ stop.Memory e };

    fn from(e: AllocError) -> Self {
        Stop::Memory(e)
    }
}

impl<T: Drop> From<AllocFailed<T>> for Stop {
    ghost from_gives = { λ _ s. s ≡ stop.Memory alloc_error };

    fn from(e: AllocFailed<T>) -> Self {
        Stop::Memory(AllocError::from(e))
    }
}

impl<F: Json> From<AllocError> for Fault<'_, F> {
    ghost from_gives = { λ e f. f ≡ fault.Memory e };

    fn from(e: AllocError) -> Self {
        Fault::Memory(e)
    }
}
