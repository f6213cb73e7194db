//! The unchecked members of a schema, one by one.
ghost use Rattle.std.specs.Prelude.{◌≡◌, ◌++◌, ◌∷◌, [], IfOk};
ghost use Rattle.serde_json.specs.View.{view, items_view, members_view};
ghost use Rattle.jskw_value.specs.Pointer.{member_location};
ghost use Rattle.jskw_report.specs.Found.{keyword_named};
ghost use Rattle.jskw_unchecked.specs.Reason.{member_reason};
ghost use Rattle.jskw_unchecked.specs.Unchecked.{has_subschemas, unchecked, unchecked_among};
ghost use Rattle.jskw_unchecked.specs.Unchecked.{unchecked_each, unchecked_in};
ghost use Rattle.jskw_unchecked.specs.Unchecked.{unchecked_member};

use crate::member::UncheckedMember;
use crate::reason::{Reason, member_reason};
use jskw_report::{Context, KeywordName, LocationSegment};
use jskw_value::Json;
use serde_json::{Map, Value};
use std::alloc::{AllocError, Global};

/// Returns the members of a schema, and of the subschemas that keywords of this library apply, that
/// are not checked, in the order in which they stand. `ctx` has the keyword location of the schema
/// and the settings.
///
/// A member is not checked if it asserts nothing: the [`Reason`] says why. Annotations of the draft,
/// such as `title`, are not listed, nor are keywords that accept everything by the standard, as
/// `uniqueItems` of `false`. What stands below a member that is not checked is not looked at.
///
/// A schema that does not compile has a list too: what is no schema has no members.
///
/// # Errors
///
/// Fails if memory runs out.
pub fn unchecked<F: Json>(
    alloc: Global,
    ctx: &Context<'_, F>,
    schema: &Value,
) -> Result<Vec<UncheckedMember>, AllocError>
    ensures { IfOk result (λ list. list.items
        ≡ unchecked (view schema.now) ctx.now.setting ctx.now.location) }
{
    let mut list = Vec::new(alloc);
    push_schema(alloc, ctx, schema, &mut list)?;
    Ok(list)
}

// Appends those of a schema.
#[cycle(unchecked)]
fn push_schema<F: Json>(
    alloc: Global,
    ctx: &Context<'_, F>,
    schema: &Value,
    list: &mut Vec<UncheckedMember>,
) -> Result<(), AllocError>
    ensures { IfOk result (λ _. list.new.items ≡ list.old.items
        ++ unchecked (view schema.now) ctx.now.setting ctx.now.location) }
{
    match schema {
        Value::Object(parent) => push_members(alloc, ctx, parent, list),
        _ => Ok(()),
    }
}

// Appends those of an object.
#[cycle(unchecked)]
fn push_members<F: Json>(
    alloc: Global,
    ctx: &Context<'_, F>,
    parent: &Map<String, Value>,
    list: &mut Vec<UncheckedMember>,
) -> Result<(), AllocError>
    ensures { let ms = members_view parent.now.entries in
        IfOk result (λ _. list.new.items ≡ list.old.items
        ++ unchecked_among ms ms ctx.now.setting ctx.now.location) }
{
    for (name, value) in parent.iter() {
        push_member(alloc, ctx, parent, name.as_str(), value, list)?;
    }
    Ok(())
}

// Appends a member of `parent`, if it is unchecked, or else those below it.
#[cycle(unchecked)]
fn push_member<F: Json>(
    alloc: Global,
    ctx: &Context<'_, F>,
    parent: &Map<String, Value>,
    name: &str,
    value: &Value,
    list: &mut Vec<UncheckedMember>,
) -> Result<(), AllocError>
    ensures { IfOk result (λ _. list.new.items ≡ list.old.items
        ++ unchecked_member name.now (view value.now) (members_view parent.now.entries)
        ctx.now.setting ctx.now.location (unchecked_in (view value.now) ctx.now.setting
        (member_location ctx.now.location name.now))) }
{
    let keyword = KeywordName::named(name);
    match member_reason(ctx, parent, keyword, name, value) {
        Some(reason) => push_one(alloc, ctx, name, reason, list),
        None if has_subschemas(keyword) => push_below(alloc, ctx, name, value, list),
        None => Ok(()),
    }
}

// Appends the member of this name.
#[inline(never)]
fn push_one<F: Json>(
    alloc: Global,
    ctx: &Context<'_, F>,
    name: &str,
    reason: Reason,
    list: &mut Vec<UncheckedMember>,
) -> Result<(), AllocError>
    ensures { IfOk result (λ _. list.new.items ≡ list.old.items ++ record {
      location = member_location ctx.now.location name.now;
      reason = reason;
    } ∷ []) }
{
    let location = ctx.location().join(alloc, LocationSegment::Name(name))?;
    list.push(UncheckedMember::new(location, reason))?;
    Ok(())
}

// Returns whether the keyword applies subschemas.
fn has_subschemas(keyword: Option<KeywordName>) -> bool
    ensures { result ≡ has_subschemas keyword }
{
    matches!(
        keyword,
        Some(
            KeywordName::Items
                | KeywordName::PrefixItems
                | KeywordName::AdditionalItems
                | KeywordName::Contains
        )
    )
}

// Appends those in the value of the member of this name: an array of schemas, or a schema.
#[cycle(unchecked)]
fn push_below<F: Json>(
    alloc: Global,
    ctx: &Context<'_, F>,
    name: &str,
    value: &Value,
    list: &mut Vec<UncheckedMember>,
) -> Result<(), AllocError>
    ensures { IfOk result (λ _. list.new.items ≡ list.old.items
        ++ unchecked_in (view value.now) ctx.now.setting
        (member_location ctx.now.location name.now)) }
{
    let below = ctx.new_at_location(alloc, LocationSegment::Name(name))?;
    match value {
        Value::Array(schemas) => push_each(alloc, &below, schemas, list),
        Value::Object(parent) => push_members(alloc, &below, parent, list),
        _ => Ok(()),
    }
}

// Appends those of each schema at its index below the location of `ctx`.
#[cycle(unchecked)]
fn push_each<F: Json>(
    alloc: Global,
    ctx: &Context<'_, F>,
    schemas: &Vec<Value>,
    list: &mut Vec<UncheckedMember>,
) -> Result<(), AllocError>
    ensures { IfOk result (λ _. list.new.items ≡ list.old.items
        ++ unchecked_each (items_view schemas.now.items) ctx.now.setting ctx.now.location 0) }
{
    for (index, schema) in schemas.iter().enumerate() {
        let item = ctx.new_at_location(alloc, LocationSegment::Index(index))?;
        push_schema(alloc, &item, schema, list)?;
    }
    Ok(())
}
