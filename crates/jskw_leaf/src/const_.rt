//! `const` (JSON Schema Validation 6.1.3): the instance equals the value of the schema.
ghost use Rattle.std.specs.Prelude.{◌≡◌, IsSome, IsTrue, true};
ghost use Rattle.serde_json.specs.Find.{as_str};
ghost use Rattle.serde_json.specs.View.{view};
ghost use Rattle.jskw_value.specs.Equality.{equal};
ghost use Rattle.jskw_value.specs.Serde.{value_tree};
ghost use Rattle.jskw_value.specs.Tree.{Tree, is_lawful};
ghost use Rattle.jskw_report.specs.Meaning.{as_keyword};
ghost use Rattle.jskw_number.specs.QuickSet.{Accepts, is_in};
ghost use Rattle.jskw_leaf.specs.Meaning.{const_assertion};

mod compilation;

pub use crate::upstream::{
    ConstArrayValidator, ConstBooleanValidator, ConstNullValidator, ConstNumberValidator,
    ConstObjectValidator, ConstStringValidator,
};
pub use compilation::compile;
use jskw_number::QuickSet;
use jskw_number::quick_set::IntegerRange;
use jskw_report::{Assertion, KeywordLocation, ValidationErrorKind};
use jskw_value::{Json, JsonNumber, Node};
use serde_json::Value;

/// The validator of `const`. It accepts an instance that equals the value.
#[derive(Debug, Drop)]
pub struct ConstValueValidator {
    value: Value,
    location: KeywordLocation,
}

impl ConstValueValidator {
    /// Returns values that equal the value, if this is an integer.
    pub fn quick_set(&self) -> QuickSet
        ensures { Accepts result (as_keyword (const_assertion self.now)) }
    {
        equal_integers(&self.value)
    }
}

impl Assertion for ConstValueValidator {
    ghost asserts = { const_assertion };

    #[inline(always)]
    fn holds<F: Json>(&self, instance: &F::Node) -> bool {
        match &self.value {
            Value::Null => instance.is_null(),
            Value::Bool(_) => instance.as_boolean() == self.value.as_bool(),
            Value::String(_) => is_string::<F>(&self.value, instance),
            Value::Number(_) => is_number::<F>(&self.value, instance),
            _ => instance.equals_value(&self.value),
        }
    }

    fn kind(&self) -> ValidationErrorKind<'_> {
        let expected_value = &self.value;
        ValidationErrorKind::Constant { expected_value }
    }

    fn location(&self) -> &KeywordLocation {
        &self.location
    }
}

// Returns values that equal the value of a schema: none, unless it is an integer from -2^63 to
// 2^63-1.
#[tactic(auto, using(crate::proofs::IntegerSets::equal_to_one))]
pub(crate) fn equal_integers(value: &Value) -> QuickSet
    ensures { (t : Tree) → is_in result t ≡ true → equal (value_tree value.now) t ≡ true }
{
    match value.as_i64() {
        Some(integer) => QuickSet::of_integers(IntegerRange::between(integer, integer)),
        None => QuickSet::none(),
    }
}

// Returns whether the instance equals the value, which should be a number: integers are compared as
// words.
#[inline(never)]
#[tactic(auto, using(crate::proofs::IntegerSets::integers_equal))]
fn is_number<F: Json>(value: &Value, instance: &F::Node) -> bool
    requires { IsTrue (is_lawful (F.Node.tree instance.now)) }
    ensures { result ≡ equal (value_tree value.now) (F.Node.tree instance.now) }
{
    if let Some(integer) = value.as_i64()
        && let Some(number) = instance.as_number()
        && let Some(other) = number.as_i64()
    {
        return integer == other;
    }
    instance.equals_value(value)
}

// Returns whether the instance equals the value, which must be a string.
#[inline(never)]
fn is_string<F: Json>(value: &Value, instance: &F::Node) -> bool
    requires { IsSome (as_str (view value.now)) }
    ensures { result ≡ equal (value_tree value.now) (F.Node.tree instance.now) }
{
    instance.as_string() == value.as_str()
}
