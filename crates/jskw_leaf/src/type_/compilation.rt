//! Compiles `type`.
ghost use Rattle.std.specs.Prelude.{◌≡◌};
ghost use Rattle.serde_json.specs.View.{view, items_view, members_view};
ghost use Rattle.jskw_report.specs.Compile.{CompilesTo, CompilesKeyword, keyword_reading};
ghost use Rattle.jskw_report.specs.Errors.{kind_of};
ghost use Rattle.jskw_report.specs.KeywordValue.{type_value, array_types, one_type, type_set};
ghost use Rattle.jskw_report.specs.KeywordValue.{named_type};
ghost use Rattle.jskw_report.specs.Read.{integers_of, keyword_by, keyword_location, type_rule};
ghost use Rattle.jskw_report.specs.declared.keyword.KeywordName.TheVariants.{TypeKeyword};
ghost use Rattle.jskw_leaf.specs.Meaning.{leaf_keyword};

use super::{IntegerRule, TypeValidator};
use crate::leaf::LeafValidator;
use jskw_report::{
    CompilationResult, CompileFault, Context, EnumOptions, KeywordLocation, KeywordName, TypeKind,
    ValidationErrorKind,
};
use jskw_value::{Json, JsonType, JsonTypeSet};
use serde_json::{Map, Value};
use std::alloc::Global;
use std::str::FromStr;

/// Compiles `type`, in every draft. Always returns `Some`.
///
/// # Errors
///
/// Fails if memory runs out, or if the value is not the name of a type or an array of such names:
///
/// - If the value is neither a string nor an array, the kind is `WrongType` with the types array
///   and string.
/// - If a string, or the only item of an array, is an unknown name, the kind is `CompileError` with
///   the message `Unexpected type`.
/// - If an item of any other array is an unknown name, the kind is `Enum` with the options
///   `TypeNames`.
/// - If an item of an array is not a string, the kind is `WrongType` with the type string.
///
/// In an array, the value at fault is the first such item.
#[tactic(auto, unfolding(jskw_report::specs::Read::asserted))]
pub fn compile<'a, F: Json>(
    alloc: Global,
    ctx: &Context<'_, F>,
    parent: &'a Map<String, Value>,
    schema: &'a Value,
) -> Option<CompilationResult<'a, LeafValidator<F>>>
    ensures { CompilesKeyword leaf_keyword result
        (keyword_reading TypeKeyword ctx.now (members_view parent.now.entries) (view schema.now)) }
{
    Some(type_validator(alloc, ctx, schema))
}

// Reads the value of `type`, and returns its validator.
fn type_validator<'a, F: Json>(
    alloc: Global,
    ctx: &Context<'_, F>,
    schema: &'a Value,
) -> CompilationResult<'a, LeafValidator<F>>
    ensures { CompilesTo leaf_keyword result (keyword_by (type_rule (integers_of ctx.now.setting.draft))
        (keyword_location ctx.now.location TypeKeyword) (view schema.now)) }
{
    let location = ctx.keyword_location(alloc, KeywordName::TypeKeyword)?;
    let kind = type_kind(alloc, &location, schema)?;
    let rule = IntegerRule::of(ctx.draft(), kind);
    Ok(LeafValidator::Types(TypeValidator::new(kind, rule, location)))
}

// Reads the value of `type`. Refuses it at `location` if it names no types.
fn type_kind<'a>(
    alloc: Global,
    location: &KeywordLocation,
    schema: &'a Value,
) -> CompilationResult<'a, TypeKind>
    ensures { CompilesTo (λ k. k) result (type_value location.now (view schema.now)) }
{
    match schema {
        Value::String(_) => one_type(alloc, location, schema),
        Value::Array(items) => array_types(alloc, location, items.as_slice()),
        _ => {
            let types = JsonTypeSet::empty()
                .insert(JsonType::Array)
                .insert(JsonType::String);
            let kind = ValidationErrorKind::of_types(types);
            Err(CompileFault::wrong(alloc, kind, location, schema))
        }
    }
}

// Reads an array of names. An array of one name means the same as the name.
#[tactic(auto, using(crate::proofs::TypeSets::array_of_one, crate::proofs::TypeSets::array_of_others))]
fn array_types<'a>(
    alloc: Global,
    location: &KeywordLocation,
    items: &'a [Value],
) -> CompilationResult<'a, TypeKind>
    ensures { CompilesTo (λ k. k) result (array_types location.now (items_view items.now)) }
{
    if items.len() == 1 {
        return one_type(alloc, location, &items[0]);
    }
    Ok(TypeKind::Multiple(type_set(alloc, location, items)?))
}

// Reads the name of the only type.
fn one_type<'a>(
    alloc: Global,
    location: &KeywordLocation,
    value: &'a Value,
) -> CompilationResult<'a, TypeKind>
    ensures { CompilesTo (λ k. k) result (one_type location.now (view value.now)) }
{
    let unknown = ValidationErrorKind::CompileError {
        message: "Unexpected type",
    };
    Ok(TypeKind::Single(named_type(alloc, unknown, location, value)?))
}

// Reads the names of a set of types.
#[tactic(auto, using(crate::proofs::TypeSets::next_type, crate::proofs::TypeSets::with_no_types))]
fn type_set<'a>(
    alloc: Global,
    location: &KeywordLocation,
    items: &'a [Value],
) -> CompilationResult<'a, JsonTypeSet>
    ensures { CompilesTo (λ s. s) result (type_set location.now (items_view items.now)) }
{
    let mut types = JsonTypeSet::empty();
    for item in items {
        let unknown = ValidationErrorKind::Enum {
            options: EnumOptions::TypeNames,
        };
        types = types.insert(named_type(alloc, unknown, location, item)?);
    }
    Ok(types)
}

// Reads the name of a type. If it is unknown, the error has the kind `unknown`.
fn named_type<'a>(
    alloc: Global,
    unknown: ValidationErrorKind<'a>,
    location: &KeywordLocation,
    value: &'a Value,
) -> CompilationResult<'a, JsonType>
    ensures { CompilesTo (λ j. j) result
        (named_type (kind_of unknown.entry) location.now (view value.now)) }
{
    let Value::String(name) = value else {
        let kind = ValidationErrorKind::of_type(JsonType::String);
        return Err(CompileFault::wrong(alloc, kind, location, value));
    };
    match JsonType::from_str(name.as_str()) {
        Ok(json_type) => Ok(json_type),
        Err(()) => Err(CompileFault::wrong(alloc, unknown, location, value)),
    }
}
