//! Reads bounds on sizes, limits and divisors from a schema.
ghost use Rattle.std.specs.Prelude.{◌≡◌, ◌≢◌, [], None, Err, IfOk, option_map, alloc_error};
ghost use Rattle.std.specs.Result.{result_ok};
ghost use Rattle.serde_json.specs.Find.{get_member};
ghost use Rattle.serde_json.specs.View.{view, members_view};
ghost use Rattle.jskw_value.specs.Pointer.{member_location};
ghost use Rattle.jskw_report.specs.Compile.{CompilesKeyword, CompilesTo};
ghost use Rattle.jskw_report.specs.KeywordValue.{size_value, limit_value};
ghost use Rattle.jskw_report.specs.Read.{keyword_location};
ghost use Rattle.jskw_report.specs.Setting.{name_of};
ghost use Rattle.jskw_report.specs.Sibling.{is_true, member_passes};
ghost use Rattle.jskw_report.specs.declared.error.CompileFault.TheVariants as fault;
ghost use Rattle.jskw_number.specs.Limit.{whole_of};

use jskw_report::context::member_of;
use jskw_report::{
    CompilationResult, CompileFault, Context, KeywordLocation, KeywordName, Location,
    LocationSegment, ValidationError, ValidationErrorKind,
};
use jskw_value::{Json, JsonType};
use serde_json::{Map, Value};
use std::alloc::Global;

/// Returns the bound on a size that `value` is, or `None` if it is not one. A bound is a number that
/// `serde_json` holds as a `u64`: an integer from 0 to 2^64-1, written without a fraction or an
/// exponent (JSON Schema Validation 6.4, 6.5). `2.0` is not a bound, in any draft.
pub fn size_limit(value: &Value) -> Option<u64>
    ensures { result ≡ result_ok (size_value [] (view value.now)) }
{
    value.as_u64()
}

/// Returns the bound on a size that `parent` has as its member `name`, or `None` if it has no such
/// member. `ctx` has the keyword location of `parent`.
///
/// # Errors
///
/// Fails if the member is not a bound, as [`fail_on_non_positive_integer`] says, at the location of
/// the member, or if memory runs out.
pub fn map_get_u64<'a, F: Json>(
    alloc: Global,
    parent: &'a Map<String, Value>,
    ctx: &Context<'_, F>,
    name: &str,
) -> Option<CompilationResult<'a, u64>>
    ensures { CompilesKeyword (λ n. n) result
        (option_map (size_value (member_location ctx.now.location name.now))
        (get_member name.now (members_view parent.now.entries))) }
{
    let value = member_of(parent, name)?;
    Some(bound(alloc, ctx.location(), name, value))
}

// Reads the bound that the member `name` has as its value. Refuses any other value at the member's
// location.
fn bound<'a>(
    alloc: Global,
    parent: &Location,
    name: &str,
    value: &'a Value,
) -> CompilationResult<'a, u64>
    ensures { let q = member_location parent.now name.now in
        CompilesTo (λ n. n) result (size_value q (view value.now)) }
{
    if let Some(limit) = size_limit(value) {
        return Ok(limit);
    }
    let location = parent.join(alloc, LocationSegment::Name(name))?;
    Err(fail_on_non_positive_integer(alloc, value, location))
}

/// Returns the compile error for a value that is not a bound on a size: [`size_limit`] of `value`
/// must be `None`. `location` is the keyword location.
///
/// The kind is `Minimum` with the limit 0 if the value is a negative integer, and `WrongType` with
/// the type integer for any other value. The fault is always `Bad`: nothing is allocated.
pub fn fail_on_non_positive_integer<'a>(
    alloc: Global,
    value: &'a Value,
    location: Location,
) -> CompileFault<'a>
    requires { result_ok (size_value [] (view value.now)) ≡ None }
    ensures refused { CompilesTo (λ n. n) (Err result) (size_value location (view value.now)) }
    ensures no_memory { result ≢ fault.Memory alloc_error }
{
    let kind = if value.is_i64() {
        ValidationErrorKind::Minimum { limit: 0 }
    } else {
        ValidationErrorKind::of_type(JsonType::Integer)
    };
    CompileFault::Bad(ValidationError::refused(alloc, kind, location, value))
}

// Reads the bound on a size that `value` is, and returns it with the keyword location. Refuses any
// other value at that location.
pub(crate) fn bound_at<'a, F: Json>(
    alloc: Global,
    ctx: &Context<'_, F>,
    keyword: KeywordName,
    value: &'a Value,
) -> CompilationResult<'a, (u64, KeywordLocation)>
    ensures bound { let q = keyword_location ctx.now.location keyword in
        CompilesTo (λ found. found.0) result (size_value q (view value.now)) }
    ensures location { IfOk result (λ found. found.1
        ≡ keyword_location ctx.now.location keyword) }
{
    let location = ctx.keyword_location(alloc, keyword)?;
    match size_limit(value) {
        Some(limit) => Ok((limit, location)),
        None => Err(fail_on_non_positive_integer(alloc, value, location.to_location(alloc)?)),
    }
}

// An integer in a schema.
#[derive(Clone, Copy)]
pub(crate) enum WholeNumber {
    // From 0 to 2^64-1.
    Unsigned(u64),
    // From -2^63 to 2^63-1.
    Signed(i64),
}

// Reads an integer from -2^63 to 2^64-1. Refuses any other value at `location`.
pub(crate) fn whole_number<'a>(
    alloc: Global,
    location: &KeywordLocation,
    value: &'a Value,
) -> CompilationResult<'a, WholeNumber>
    ensures { CompilesTo whole_of result (limit_value location.now (view value.now)) }
{
    let Value::Number(number) = value else {
        let kind = ValidationErrorKind::of_type(JsonType::Number);
        return Err(CompileFault::wrong(alloc, kind, location, value));
    };
    if let Some(whole) = number.as_u64() {
        return Ok(WholeNumber::Unsigned(whole));
    }
    if let Some(whole) = number.as_i64() {
        return Ok(WholeNumber::Signed(whole));
    }
    Err(CompileFault::wrong(alloc, ValidationErrorKind::not_whole(), location, value))
}

// Returns whether `parent` has the keyword with the value `true`.
pub(crate) fn has_true(parent: &Map<String, Value>, keyword: KeywordName) -> bool
    ensures { result ≡ member_passes is_true (name_of keyword) (members_view parent.now.entries) }
{
    matches!(member_of(parent, keyword.as_str()), Some(Value::Bool(true)))
}
