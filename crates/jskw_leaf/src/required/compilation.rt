//! Compiles `required`.
ghost use Rattle.std.specs.Prelude.{◌≡◌, IfOk, Some, map};
ghost use Rattle.std.specs.List.{IsDistinct};
ghost use Rattle.std.specs.Str.{bytes_eq};
ghost use Rattle.serde_json.specs.View.{view, items_view, members_view};
ghost use Rattle.jskw_report.specs.Compile.{CompilesTo, CompilesKeyword, keyword_reading};
ghost use Rattle.jskw_report.specs.KeywordValue.{map_ok, texts, distinct};
ghost use Rattle.jskw_report.specs.Meaning.{as_keyword};
ghost use Rattle.jskw_report.specs.Read.{keyword_by, keyword_location, required_rule};
ghost use Rattle.jskw_report.specs.declared.keyword.KeywordName.TheVariants.{Required};
ghost use Rattle.jskw_leaf.specs.Meaning.{leaf_keyword, required_at};
ghost use Rattle.jskw_leaf.specs.Required.{name_value};

use super::RequiredNames;
use super::delegation::is_handed_on;
use super::names::{FewNames, NameList};
use crate::leaf::LeafValidator;
use jskw_report::{
    CompilationResult, CompileFault, Context, KeywordLocation, KeywordName, Location,
    ValidationErrorKind,
};
use jskw_value::{Json, JsonType};
use serde_json::{Map, Value};
use std::alloc::{AllocError, Global};
use std::collections::BTreeSet;

/// Compiles `required`. Returns `None` if it is delegated, as [`is_handed_on`](super::is_handed_on)
/// says: its value is not checked then. Otherwise returns what [`compile_checked`] does.
pub fn compile<'a, F: Json>(
    alloc: Global,
    ctx: &Context<'_, F>,
    parent: &'a Map<String, Value>,
    schema: &'a Value,
) -> Option<CompilationResult<'a, LeafValidator<F>>>
    ensures { CompilesKeyword leaf_keyword result
        (keyword_reading Required ctx.now (members_view parent.now.entries) (view schema.now)) }
{
    if is_handed_on(ctx, parent) {
        return None;
    }
    Some(compile_checked(alloc, ctx, schema))
}

/// Compiles a `required` that is not delegated, as [`is_handed_on`](super::is_handed_on) says. `ctx`
/// is at the object of the keyword.
///
/// # Errors
///
/// Fails as [`compile_with_path`] does.
pub fn compile_checked<'a, F: Json>(
    alloc: Global,
    ctx: &Context<'_, F>,
    schema: &'a Value,
) -> CompilationResult<'a, LeafValidator<F>>
    ensures { CompilesTo leaf_keyword result
        (keyword_by required_rule (keyword_location ctx.now.location Required) (view schema.now)) }
{
    let location = ctx.keyword_location(alloc, KeywordName::Required)?;
    required_validator(alloc, schema, location)
}

/// Compiles a value of `required`, whatever is beside it. `location` is the keyword location.
/// Always returns `Some`. The validator checks each name once, however often the value repeats it.
///
/// # Errors
///
/// Fails if memory runs out, or if the value is not an array of strings:
///
/// - If it is not an array, the kind is `WrongType` with the type array.
/// - If an item is not a string, the kind is `WrongType` with the type string, and the value at
///   fault is the first such item.
pub fn compile_with_path<'a, F: Json>(
    alloc: Global,
    schema: &'a Value,
    location: Location,
) -> Option<CompilationResult<'a, LeafValidator<F>>>
    ensures { CompilesKeyword leaf_keyword result (Some (keyword_by required_rule location (view schema.now))) }
{
    Some(required_validator(alloc, schema, KeywordLocation::from(location)))
}

// Reads the value of `required`. Refuses one that is not an array of strings.
fn required_validator<'a, F: Json>(
    alloc: Global,
    schema: &'a Value,
    location: KeywordLocation,
) -> CompilationResult<'a, LeafValidator<F>>
    ensures { CompilesTo leaf_keyword result (keyword_by required_rule location (view schema.now)) }
{
    let Value::Array(items) = schema else {
        let kind = ValidationErrorKind::of_type(JsonType::Array);
        return Err(CompileFault::wrong(alloc, kind, &location, schema));
    };
    let names = distinct_names(alloc, &location, items.as_slice())?;
    Ok(validator_of(alloc, names.as_slice(), location)?)
}

// Returns the validator for the number of names. The names must be distinct.
fn validator_of<F: Json>(
    alloc: Global,
    names: &[&str],
    location: KeywordLocation,
) -> Result<LeafValidator<F>, AllocError>
    requires { IsDistinct bytes_eq (map (λ name. name.now) names.now) }
    ensures { IfOk result (λ v. leaf_keyword v
        ≡ as_keyword (required_at location (map (λ name. name.now) names.now))) }
{
    if !names.is_empty() && names.len() <= 3 {
        let names = FewNames::new(alloc, names)?;
        return Ok(LeafValidator::RequiredFew(RequiredNames::new(names, location)));
    }
    let names = NameList::new(alloc, names)?;
    Ok(LeafValidator::Required(RequiredNames::new(names, location)))
}

// Reads the items as names, and drops each that was there before.
#[tactic(auto, using(crate::proofs::NamesOnce::next_fault, crate::proofs::NamesOnce::none_after))]
fn distinct_names<'a>(
    alloc: Global,
    location: &KeywordLocation,
    items: &'a [Value],
) -> CompilationResult<'a, Vec<&'a str>>
    ensures { CompilesTo (λ v. map (λ name. name.now) v.items) result
        (map_ok distinct (texts location.now (items_view items.now))) }
{
    let mut seen = BTreeSet::new(alloc);
    let mut names = Vec::new(alloc);
    for item in items {
        let name = name_of(alloc, location, item)?;
        if seen.insert(name)? {
            names.push(name)?;
        }
    }
    Ok(names)
}

// Reads an item as a name.
fn name_of<'a>(
    alloc: Global,
    location: &KeywordLocation,
    item: &'a Value,
) -> CompilationResult<'a, &'a str>
    ensures { CompilesTo (λ name. name.now) result (name_value location.now (view item.now)) }
{
    match item {
        Value::String(name) => Ok(name.as_str()),
        _ => {
            let kind = ValidationErrorKind::of_type(JsonType::String);
            Err(CompileFault::wrong(alloc, kind, location, item))
        }
    }
}
