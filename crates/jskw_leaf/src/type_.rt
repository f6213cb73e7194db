//! `type` (JSON Schema Validation 6.1.1): the instance is of one of the types that the schema
//! names. A number whose fractional part is zero is an integer, however it is written.
ghost use Rattle.std.specs.Prelude.{◌≡◌, IsTrue};
ghost use Rattle.jskw_value.specs.Number.{is_exact, is_integer};
ghost use Rattle.jskw_value.specs.Tree.{is_lawful};
ghost use Rattle.jskw_value.specs.Types.{contains};
ghost use Rattle.jskw_value.specs.declared.types.JsonType.TheVariants.{Integer};
ghost use Rattle.jskw_report.specs.Holds.{is_integer_by};
ghost use Rattle.jskw_report.specs.Kind.{types_of};
ghost use Rattle.jskw_report.specs.Meaning.{as_keyword};
ghost use Rattle.jskw_report.specs.Read.{integers_of};
ghost use Rattle.jskw_number.specs.QuickSet.{Accepts};
ghost use Rattle.jskw_leaf.specs.Meaning.{named_types, rule_of, types_at};

mod compilation;
mod single;

use crate::legacy::type_draft_4;
pub use compilation::compile;
use jskw_number::QuickSet;
use jskw_report::{Assertion, Draft, KeywordLocation, TypeKind, ValidationErrorKind};
use jskw_value::{Json, JsonNumber, JsonType, JsonTypeSet, Node};
pub use single::{
    ArrayType, ArrayTypeValidator, BooleanType, BooleanTypeValidator, IntegerType,
    IntegerTypeValidator, NullType, NullTypeValidator, NumberType, NumberTypeValidator, ObjectType,
    ObjectTypeValidator, SingleTypeValidator, StringType, StringTypeValidator, TypeTest,
};

/// Which numbers are integers.
#[derive(Clone, Copy, Debug)]
pub enum IntegerRule {
    /// Those whose fractional part is zero: [`is_integer`].
    ByValue,
    /// Those that are written without a fraction: Draft 4's
    /// [`is_integer`](crate::legacy::type_draft_4::is_integer).
    AsWritten,
}

impl IntegerRule {
    // Returns the rule for these types in a draft. It makes no difference if `integer` is not one of
    // them.
    fn of(draft: Draft, kind: TypeKind) -> IntegerRule
        ensures { rule_of result ≡ integers_of draft kind }
    {
        if draft == Draft::Draft4 && has_type(kind, JsonType::Integer) {
            IntegerRule::AsWritten
        } else {
            IntegerRule::ByValue
        }
    }

    // Returns whether the instance is an integer.
    fn accepts<F: Json>(self, instance: &F::Node) -> bool
        requires { IsTrue (is_lawful (F.Node.tree instance.now)) }
        ensures { result ≡ is_integer_by (rule_of self) (F.Node.tree instance.now) }
    {
        match (instance.as_number(), self) {
            (Some(number), IntegerRule::ByValue) => is_integer(number),
            (Some(number), IntegerRule::AsWritten) => type_draft_4::is_integer(number),
            (None, _) => false,
        }
    }
}

/// The validator of `type`. It accepts an instance of one of the types.
#[derive(Debug, Drop)]
pub struct TypeValidator {
    kind: TypeKind,
    rule: IntegerRule,
    location: KeywordLocation,
}

impl TypeValidator {
    /// Creates the validator. `location` is the keyword location of its error.
    pub fn new(kind: TypeKind, rule: IntegerRule, location: KeywordLocation) -> TypeValidator
        ensures { named_types result ≡ types_at kind (rule_of rule) location }
    {
        TypeValidator {
            kind,
            rule,
            location,
        }
    }

    /// Returns values of the types.
    pub fn quick_set(&self) -> QuickSet
        ensures { Accepts result (as_keyword (named_types self.now)) }
    {
        QuickSet::of_types(match self.kind {
            TypeKind::Single(json_type) => JsonTypeSet::from(json_type),
            TypeKind::Multiple(types) => types,
        })
    }
}

impl Assertion for TypeValidator {
    ghost asserts = { named_types };

    fn holds<F: Json>(&self, instance: &F::Node) -> bool {
        has_type(self.kind, instance.json_type())
            || (has_type(self.kind, JsonType::Integer) && self.rule.accepts::<F>(instance))
    }

    fn kind(&self) -> ValidationErrorKind<'_> {
        let kind = self.kind;
        ValidationErrorKind::WrongType { kind }
    }

    fn location(&self) -> &KeywordLocation {
        &self.location
    }
}

// Returns whether this type is among the types.
fn has_type(kind: TypeKind, json_type: JsonType) -> bool
    ensures { result ≡ contains (types_of kind) json_type }
{
    match kind {
        TypeKind::Single(single) => single == json_type,
        TypeKind::Multiple(types) => types.contains(json_type),
    }
}

/// The validator of `type` with an array of no name or of several.
pub type MultipleTypesValidator = TypeValidator;

/// Returns [`is_integer`](JsonNumber::is_integer) of the number: whether its fractional part is
/// zero. The number must be a decimal, not a float.
pub fn is_integer<N: JsonNumber>(number: &N) -> bool
    requires { IsTrue (is_exact (N.number number.now)) }
    ensures { result ≡ is_integer (N.number number.now) }
{
    number.is_integer()
}
