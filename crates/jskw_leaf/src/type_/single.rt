//! The validator of `type` with one type, and the types as tests.
ghost use Rattle.std.specs.Prelude.{◌≡◌, IsTrue};
ghost use Rattle.jskw_value.specs.Tree.{is_lawful};
ghost use Rattle.jskw_value.specs.declared.types.JsonType.{JsonType};
ghost use Rattle.jskw_value.specs.declared.types.JsonType.TheVariants.{Array, Boolean, Integer};
ghost use Rattle.jskw_value.specs.declared.types.JsonType.TheVariants.{Null, Number, Object};
ghost use Rattle.jskw_value.specs.declared.types.JsonType.TheVariants.{String};
ghost use Rattle.jskw_report.specs.Holds.{assertion_holds};
ghost use Rattle.jskw_report.specs.Keyword.{Integers, by_value, type_is};
ghost use Rattle.jskw_report.specs.Meaning.{as_keyword};
ghost use Rattle.jskw_report.specs.declared.error.TypeKind.TheVariants.{Single};
ghost use Rattle.jskw_number.specs.QuickSet.{Accepts};
ghost use Rattle.jskw_leaf.specs.Meaning.{single_type, type_at};

use super::is_integer;
use jskw_number::QuickSet;
use jskw_report::{Assertion, KeywordLocation, Location, ValidationErrorKind};
use jskw_value::{Json, JsonType, JsonTypeSet, Node};
use std::marker::PhantomData;

/// A type of JSON Schema as a Rust type, which tests instances.
pub trait TypeTest {
    /// The type.
    ghost json_type: { JsonType };

    /// Which numbers are integers: by their value or by how they are written.
    ghost rule: { Integers };

    /// Returns the type.
    fn json_type() -> JsonType
        ensures { result ≡ json_type };

    /// Returns whether the instance is of the type. The instance must be lawful: it contains no
    /// float. Allocates nothing.
    fn matches<F: Json>(instance: &F::Node) -> bool
        requires { IsTrue (is_lawful (F.Node.tree instance.now)) }
        ensures { result
            ≡ assertion_holds (type_is (Single json_type) rule) (F.Node.tree instance.now) };
}

/// The validator of `type` with the one type that `T` tests for.
#[derive(Drop)]
#[derive_where(Debug)]
pub struct SingleTypeValidator<T: TypeTest> {
    location: KeywordLocation,
    test: PhantomData<T>,
}

impl<T: TypeTest> SingleTypeValidator<T> {
    /// Creates the validator. `location` is the keyword location of its error.
    pub fn new(location: Location) -> SingleTypeValidator<T>
        ensures { single_type T.json_type T.rule result ≡ type_at T.json_type T.rule location }
    {
        SingleTypeValidator::at(KeywordLocation::from(location))
    }

    /// Creates the validator for the keyword location of its error in a schema.
    pub fn at(location: KeywordLocation) -> SingleTypeValidator<T>
        ensures { single_type T.json_type T.rule result ≡ type_at T.json_type T.rule location }
    {
        let test = PhantomData;
        SingleTypeValidator { location, test }
    }

    /// Returns values of the type.
    pub fn quick_set(&self) -> QuickSet
        ensures { Accepts result (as_keyword (single_type T.json_type T.rule self.now)) }
    {
        QuickSet::of_types(JsonTypeSet::from(T::json_type()))
    }
}

impl<T: TypeTest> Assertion for SingleTypeValidator<T> {
    ghost asserts = { single_type T.json_type T.rule };

    fn holds<F: Json>(&self, instance: &F::Node) -> bool {
        T::matches::<F>(instance)
    }

    fn kind(&self) -> ValidationErrorKind<'_> {
        ValidationErrorKind::of_type(T::json_type())
    }

    fn location(&self) -> &KeywordLocation {
        &self.location
    }
}

/// The type `null`.
#[derive(Clone, Copy, Debug)]
pub struct NullType;

impl TypeTest for NullType {
    ghost json_type = { Null };

    ghost rule = { by_value };

    fn json_type() -> JsonType {
        JsonType::Null
    }

    fn matches<F: Json>(instance: &F::Node) -> bool {
        instance.is_null()
    }
}

/// The validator of the type `null`.
pub type NullTypeValidator = SingleTypeValidator<NullType>;

/// The type `boolean`.
#[derive(Clone, Copy, Debug)]
pub struct BooleanType;

impl TypeTest for BooleanType {
    ghost json_type = { Boolean };

    ghost rule = { by_value };

    fn json_type() -> JsonType {
        JsonType::Boolean
    }

    fn matches<F: Json>(instance: &F::Node) -> bool {
        instance.as_boolean().is_some()
    }
}

/// The validator of the type `boolean`.
pub type BooleanTypeValidator = SingleTypeValidator<BooleanType>;

/// The type `integer`: a number whose fractional part is zero, such as `1` and `1.0`.
#[derive(Clone, Copy, Debug)]
pub struct IntegerType;

impl TypeTest for IntegerType {
    ghost json_type = { Integer };

    ghost rule = { by_value };

    fn json_type() -> JsonType {
        JsonType::Integer
    }

    fn matches<F: Json>(instance: &F::Node) -> bool {
        match instance.as_number() {
            Some(number) => is_integer(number),
            None => false,
        }
    }
}

/// The validator of the type `integer`.
pub type IntegerTypeValidator = SingleTypeValidator<IntegerType>;

/// The type `number`.
#[derive(Clone, Copy, Debug)]
pub struct NumberType;

impl TypeTest for NumberType {
    ghost json_type = { Number };

    ghost rule = { by_value };

    fn json_type() -> JsonType {
        JsonType::Number
    }

    fn matches<F: Json>(instance: &F::Node) -> bool {
        instance.is_number()
    }
}

/// The validator of the type `number`.
pub type NumberTypeValidator = SingleTypeValidator<NumberType>;

/// The type `string`.
#[derive(Clone, Copy, Debug)]
pub struct StringType;

impl TypeTest for StringType {
    ghost json_type = { String };

    ghost rule = { by_value };

    fn json_type() -> JsonType {
        JsonType::String
    }

    fn matches<F: Json>(instance: &F::Node) -> bool {
        instance.is_string()
    }
}

/// The validator of the type `string`.
pub type StringTypeValidator = SingleTypeValidator<StringType>;

/// The type `array`.
#[derive(Clone, Copy, Debug)]
pub struct ArrayType;

impl TypeTest for ArrayType {
    ghost json_type = { Array };

    ghost rule = { by_value };

    fn json_type() -> JsonType {
        JsonType::Array
    }

    fn matches<F: Json>(instance: &F::Node) -> bool {
        instance.is_array()
    }
}

/// The validator of the type `array`.
pub type ArrayTypeValidator = SingleTypeValidator<ArrayType>;

/// The type `object`.
#[derive(Clone, Copy, Debug)]
pub struct ObjectType;

impl TypeTest for ObjectType {
    ghost json_type = { Object };

    ghost rule = { by_value };

    fn json_type() -> JsonType {
        JsonType::Object
    }

    fn matches<F: Json>(instance: &F::Node) -> bool {
        instance.is_object()
    }
}

/// The validator of the type `object`.
pub type ObjectTypeValidator = SingleTypeValidator<ObjectType>;
