//! `enum` (JSON Schema Validation 6.1.2): the instance equals one of the options, the items of the
//! schema's array.
ghost use Rattle.std.specs.Prelude.{◌≡◌, IsSome};
ghost use Rattle.serde_json.specs.Find.{as_array};
ghost use Rattle.serde_json.specs.View.{view, items_view};
ghost use Rattle.jskw_value.specs.Equality.{equal};
ghost use Rattle.jskw_value.specs.Serde.{value_tree};
ghost use Rattle.jskw_value.specs.Tree.{Tree};
ghost use Rattle.jskw_value.specs.Types.{no_types};
ghost use Rattle.jskw_report.specs.Errors.{kind_of};
ghost use Rattle.jskw_report.specs.Holds.{is_option};
ghost use Rattle.jskw_report.specs.Meaning.{as_keyword};
ghost use Rattle.jskw_number.specs.QuickSet.{Accepts};
ghost use Rattle.jskw_leaf.specs.Options.{not_among, options_of, option_types};

mod compilation;
mod hashed_text;
mod integers;
mod strings;
mod table;
mod values;

use crate::const_::equal_integers;
pub use compilation::compile;
pub use integers::IntegerEnumValidator;
use jskw_number::QuickSet;
use jskw_report::{Assertion, EnumOptions, KeywordLocation, ValidationErrorKind};
use jskw_value::{Json, JsonTypeSet, Node};
use serde_json::Value;
pub use strings::{BigStringEnumValidator, SmallStringEnumValidator};
pub use table::TableEnumValidator;
pub use values::BigEnumValidator;

/// The validator of at most 8 options of any types. Compares an instance with each option, unless
/// no option has its type.
#[derive(Debug, Drop)]
pub struct EnumValidator {
    options: Value,
    types: JsonTypeSet,
    location: KeywordLocation,
    ghost array: { IsSome (as_array (view options)) },
    ghost typed: { types ≡ option_types no_types (options_of (view options)) },
}

impl Assertion for EnumValidator {
    ghost use Rattle.jskw_leaf.specs.Meaning.{enum_any};

    ghost asserts = { enum_any };

    fn holds<F: Json>(&self, instance: &F::Node) -> bool {
        self.types.contains_value_type::<F>(instance) && is_listed::<F>(&self.options, instance)
    }

    fn kind(&self) -> ValidationErrorKind<'_> {
        not_among(&self.options)
    }

    fn location(&self) -> &KeywordLocation {
        &self.location
    }
}

/// The validator of one option.
#[derive(Debug, Drop)]
pub struct SingleValueEnumValidator {
    options: Value,
    value: Value,
    location: KeywordLocation,
    ghost array: { IsSome (as_array (view options)) },
    ghost one: { (t : Tree) → is_option (options_of (view options)) t
        ≡ equal (value_tree value) t },
}

impl SingleValueEnumValidator {
    ghost use Rattle.jskw_leaf.specs.Meaning.{enum_single};

    /// Returns values that equal the option, if this is an integer.
    pub fn quick_set(&self) -> QuickSet
        ensures { Accepts result (as_keyword (enum_single self.now)) }
    {
        equal_integers(&self.value)
    }
}

impl Assertion for SingleValueEnumValidator {
    ghost use Rattle.jskw_leaf.specs.Meaning.{enum_single};

    ghost asserts = { enum_single };

    #[inline(never)]
    fn holds<F: Json>(&self, instance: &F::Node) -> bool {
        instance.equals_value(&self.value)
    }

    fn kind(&self) -> ValidationErrorKind<'_> {
        not_among(&self.options)
    }

    fn location(&self) -> &KeywordLocation {
        &self.location
    }
}

// Returns whether one of the options equals the instance. `options` is the value of `enum`.
#[inline(never)]
fn is_listed<F: Json>(options: &Value, instance: &F::Node) -> bool
    ensures { result ≡ is_option (options_of (view options.now)) (F.Node.tree instance.now) }
{
    match options {
        Value::Array(items) => is_among::<F>(items.as_slice(), instance),
        _ => false,
    }
}

// Returns whether one of the items equals the instance.
fn is_among<F: Json>(items: &[Value], instance: &F::Node) -> bool
    ensures { result ≡ is_option (items_view items.now) (F.Node.tree instance.now) }
{
    for item in items {
        if instance.equals_value(item) {
            return true;
        }
    }
    false
}

// Returns the kind of error for an instance that equals none of the options. `options` is the value
// of `enum`.
#[tactic(auto, using(crate::proofs::Options::listed))]
fn not_among<'i>(options: &'i Value) -> ValidationErrorKind<'i>
    requires { IsSome (as_array (view options.now)) }
    ensures { kind_of result ≡ not_among (view options.now) }
{
    ValidationErrorKind::Enum {
        options: EnumOptions::Listed(options),
    }
}
