//! The members of a text of JSON that a later one of the same name replaces.
ghost use Rattle.std.specs.Prelude.{◌≡◌, ◌++◌, OnOk, IfOk, not, string_bytes};
ghost use Rattle.json.specs.Json.{document};
ghost use Rattle.json.specs.Value.{items_view, members_view, value_view};
ghost use Rattle.jskw_value.specs.Pointer.{item_location, member_location};
ghost use Rattle.jskw_c.specs.Names.{HasNames, HasNamesAnd};
ghost use Rattle.jskw_c.specs.Repeated.{has_member_named, repeated_in, repeated_in_items, repeated_in_members};
ghost use Rattle.jskw_c.specs.Repeated.{repeated_lines, repeated_of};

use crate::line::push_reason;
use jskw_value::pointer::{push_index, push_name};
use json::{Error, Scratch, Value};
use std::alloc::{AllocError, Global};
use std::collections::BTreeSet;
use std::str::from_utf8;

// Appends a line for each member of a text of JSON that a later one of the same name replaces. What stands
// below such a member is not looked at.
pub(crate) fn push_repeated(
    alloc: Global,
    text: &mut Vec<u8>,
    bytes: &[u8],
) -> Result<(), AllocError>
    ensures { OnOk result (text.new.items ≡ text.old.items ++ repeated_lines bytes.now) }
{
    match from_utf8(bytes) {
        Ok(json) => push_all(alloc, text, json),
        Err(_) => Ok(()),
    }
}

// Appends the lines of a text.
fn push_all(alloc: Global, text: &mut Vec<u8>, json: &str) -> Result<(), AllocError>
    ensures { OnOk result (text.new.items ≡ text.old.items ++ repeated_of (document json.now)) }
{
    match Value::parse(alloc, json, &mut Scratch::new(alloc)) {
        Ok(value) => push_in_value(alloc, text, &value, ""),
        Err(Error::Invalid) => Ok(()),
        Err(_) => Err(AllocError),
    }
}

// Appends the lines of a value.
#[cycle(repeated)]
#[inline(never)]
fn push_in_value(
    alloc: Global,
    text: &mut Vec<u8>,
    value: &Value<'_>,
    at: &str,
) -> Result<(), AllocError>
    ensures { OnOk result (text.new.items ≡ text.old.items ++ repeated_in at.now (value_view value.now)) }
{
    match value {
        Value::Array(items) => push_in_items(alloc, text, items.as_slice(), at),
        Value::Object(members) => push_in_members(alloc, text, members.as_slice(), at),
        Value::Null | Value::Bool(_) | Value::Number(_) | Value::String(_) => Ok(()),
    }
}

// Appends the lines of the items.
#[cycle(repeated)]
#[inline(never)]
fn push_in_items(
    alloc: Global,
    text: &mut Vec<u8>,
    items: &[Value<'_>],
    at: &str,
) -> Result<(), AllocError>
    ensures { OnOk result (text.new.items ≡ text.old.items ++ repeated_in_items at.now 0 (items_view items.now)) }
{
    for index in 0..items.len() {
        let below = item_at(alloc, at, index)?;
        push_in_value(alloc, text, &items[index], below.as_str())?;
    }
    Ok(())
}

// Appends the lines of the members, from the last to the first.
#[cycle(repeated)]
#[inline(never)]
fn push_in_members<'a>(
    alloc: Global,
    text: &mut Vec<u8>,
    members: &[(&'a str, Value<'a>)],
    at: &str,
) -> Result<(), AllocError>
    ensures { OnOk result (text.new.items ≡ text.old.items ++ repeated_in_members at.now (members_view members.now)) }
{
    let mut seen = BTreeSet::new(alloc);
    for step in 0..members.len() {
        let index = members.len() - 1 - step;
        let (name, value) = &members[index];
        let below = member_at(alloc, at, name)?;
        if add_name(&mut seen, name, &members[index + 1..])? {
            push_in_value(alloc, text, value, below.as_str())?;
        } else {
            push_reason(text, below.as_str(), "repeated")?;
        }
    }
    Ok(())
}

// Adds a name to those of the members behind it, and returns whether none of them has it.
fn add_name<'a>(
    seen: &mut BTreeSet<&'a str>,
    name: &'a str,
    behind: &[(&'a str, Value<'a>)],
) -> Result<bool, AllocError>
    requires { HasNames seen.old (members_view behind.now) }
    ensures added { IfOk result (λ added. added
        ≡ not (has_member_named name.now (members_view behind.now))) }
    ensures names { OnOk result (HasNamesAnd seen.new name.now (members_view behind.now)) }
{
    Ok(seen.insert(name)?)
}

// Returns the location of an item.
fn item_at(alloc: Global, at: &str, index: usize) -> Result<String, AllocError>
    ensures { IfOk result (λ p. string_bytes p ≡ item_location at.now index) }
{
    let mut location = String::from_str(alloc, at)?;
    push_index(&mut location, index)?;
    Ok(location)
}

// Returns the location of a member.
fn member_at(alloc: Global, at: &str, name: &str) -> Result<String, AllocError>
    ensures { IfOk result (λ p. string_bytes p ≡ member_location at.now name.now) }
{
    let mut location = String::from_str(alloc, at)?;
    push_name(&mut location, name)?;
    Ok(location)
}
