//! Compiles `enum`.
ghost use Rattle.std.specs.Prelude.{◌≡◌, IfOk};
ghost use Rattle.serde_json.specs.Data.{array, item, no_items};
ghost use Rattle.serde_json.specs.View.{view, items_view, members_view};
ghost use Rattle.jskw_value.specs.Types.{no_types};
ghost use Rattle.jskw_report.specs.Compile.{CompilesTo, CompilesKeyword, keyword_reading};
ghost use Rattle.jskw_report.specs.Meaning.{as_keyword};
ghost use Rattle.jskw_report.specs.Read.{enum_rule, keyword_by, keyword_location};
ghost use Rattle.jskw_report.specs.declared.keyword.KeywordName.TheVariants.{Enum};
ghost use Rattle.jskw_leaf.specs.Meaning.{among_at, leaf_keyword};
ghost use Rattle.jskw_leaf.specs.Options.{has_null, only, option_types};

use super::integers::SortedIntegers;
use super::strings::FewStrings;
use super::table::{OptionTable, TableEnumValidator};
use super::{EnumValidator, SingleValueEnumValidator};
use crate::floats::refuse_floats;
use crate::leaf::LeafValidator;
use jskw_report::{
    CompilationResult, CompileFault, Context, KeywordLocation, KeywordName, ValidationErrorKind,
};
use jskw_value::{Json, JsonType, JsonTypeSet};
use serde_json::{Map, Value};
use std::alloc::{AllocError, Global};

// The largest number of strings that are compared one by one.
const STRING_ENUM_THRESHOLD: usize = 10;

// The largest number of options of any types that are compared one by one.
const ENUM_THRESHOLD: usize = 8;

/// Compiles `enum`. Always returns `Some`. The validator depends on the number and the types of the
/// options. The time grows with the size of the options times the logarithm of their number.
///
/// # Errors
///
/// Fails if memory runs out, or if the value is not an array without floats:
///
/// - If it is not an array, the kind is `WrongType` with the type array.
/// - If it contains a float, the kind is `CompileError` with the message `Not a whole number of 64
///   bits`, and the value at fault is the first float, depth first.
#[tactic(auto, unfolding(jskw_report::specs::Read::asserted))]
pub fn compile<'a, F: Json>(
    alloc: Global,
    ctx: &Context<'_, F>,
    parent: &'a Map<String, Value>,
    schema: &'a Value,
) -> Option<CompilationResult<'a, LeafValidator<F>>>
    ensures { CompilesKeyword leaf_keyword result
        (keyword_reading Enum ctx.now (members_view parent.now.entries) (view schema.now)) }
{
    Some(enum_validator(alloc, ctx, schema))
}

// Reads the value of `enum`. Refuses one that is not an array, or contains a float.
#[tactic(auto, using(crate::proofs::Options::as_value))]
fn enum_validator<'a, F: Json>(
    alloc: Global,
    ctx: &Context<'_, F>,
    schema: &'a Value,
) -> CompilationResult<'a, LeafValidator<F>>
    ensures { CompilesTo leaf_keyword result
        (keyword_by enum_rule (keyword_location ctx.now.location Enum) (view schema.now)) }
{
    let location = ctx.keyword_location(alloc, KeywordName::Enum)?;
    let Value::Array(items) = schema else {
        let kind = ValidationErrorKind::of_type(JsonType::Array);
        return Err(CompileFault::wrong(alloc, kind, &location, schema));
    };
    refuse_floats(alloc, &location, schema)?;
    Ok(validator_of(alloc, schema, items.as_slice(), location)?)
}

// Makes a validator of options in a table.
macro_rules! table {
    ($variant:ident, $alloc:expr, $options:expr, $items:expr, $location:expr) => {
        Ok(LeafValidator::$variant(TableEnumValidator::compile(
            $alloc, $options, $items, $location,
        )?))
    };
}

// Returns the validator for the number and the types of the options. `items` are the items of
// `options`.
#[tactic(auto, using(crate::proofs::OptionFingerprints::all_taken))]
fn validator_of<F: Json>(
    alloc: Global,
    options: &Value,
    items: &[Value],
    location: KeywordLocation,
) -> Result<LeafValidator<F>, AllocError>
    requires { view options.now ≡ array (items_view items.now) }
    ensures { IfOk result (λ v. leaf_keyword v ≡ as_keyword (among_at location options.now)) }
{
    if items.len() == 1 {
        return one_value(options, &items[0], location);
    }
    let (is_short, is_nullable) = (items.len() <= STRING_ENUM_THRESHOLD, has_null(items));
    if are_all::<FewStrings>(items) {
        return match (is_short, is_nullable) {
            (true, true) => table!(NullableSmallStringEnum, alloc, options, items, location),
            (true, false) => table!(SmallStringEnum, alloc, options, items, location),
            (false, true) => table!(NullableBigStringEnum, alloc, options, items, location),
            (false, false) => table!(BigStringEnum, alloc, options, items, location),
        };
    }
    if are_all::<SortedIntegers>(items) {
        return if is_nullable {
            table!(NullableIntegerEnum, alloc, options, items, location)
        } else {
            table!(IntegerEnum, alloc, options, items, location)
        };
    }
    if ENUM_THRESHOLD < items.len() {
        return table!(BigEnum, alloc, options, items, location);
    }
    Ok(LeafValidator::Enum(EnumValidator {
        options: options.clone()?,
        types: types_of(items),
        location,
    }))
}

// Returns the validator of one option. `value` is the only item of `options`.
fn one_value<F: Json>(
    options: &Value,
    value: &Value,
    location: KeywordLocation,
) -> Result<LeafValidator<F>, AllocError>
    requires { view options.now ≡ array (item (view value.now) no_items) }
    ensures { IfOk result (λ v. leaf_keyword v ≡ as_keyword (among_at location options.now)) }
{
    Ok(LeafValidator::SingleValueEnum(SingleValueEnumValidator {
        options: options.clone()?,
        value: value.clone()?,
        location,
    }))
}

// Returns whether each item is null or a value that a table `T` can contain.
fn are_all<T: OptionTable>(items: &[Value]) -> bool
    ensures { result ≡ only T.takes (items_view items.now) }
{
    for item in items {
        if !(T::takes(item) || item.is_null()) {
            return false;
        }
    }
    true
}

// Returns whether one of the items is null.
fn has_null(items: &[Value]) -> bool
    ensures { result ≡ has_null (items_view items.now) }
{
    for item in items {
        if item.is_null() {
            return true;
        }
    }
    false
}

// Returns the set of the types of the items.
pub(super) fn types_of(items: &[Value]) -> JsonTypeSet
    ensures { result ≡ option_types no_types (items_view items.now) }
{
    let mut types = JsonTypeSet::empty();
    for item in items {
        types = types.insert(JsonType::from(item));
    }
    types
}
