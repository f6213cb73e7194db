//! The members of a schema that are not checked, for callers in C.
ghost use Rattle.std.specs.Prelude.{◌≡◌, IfOk};
ghost use Rattle.jskw_c.specs.Compiled.{setting_numbered};
ghost use Rattle.jskw_c.specs.Replies.{IsOutcome};
ghost use Rattle.jskw_c.specs.Unchecked.{IsListText, member_lines, status_of_lines, status_of_list};
ghost use Rattle.jskw_c.specs.Unchecked.{unchecked_of};

use crate::ask::{Outcome, no_json, status_alone};
use crate::line::push_member;
use crate::repeated::push_repeated;
use crate::settings::settings_numbered;
use crate::status::{BAD_SETTING, INVALID, VALID};
use jskw_report::Context;
use jskw_service::read_value;
use jskw_unchecked::{UncheckedMember, unchecked};
use jskw_value::DecimalJson;
use std::alloc::{AllocError, Global};

// Returns a line for each member of the schema of these bytes that is not checked under the setting
// of these numbers, and for each that a later one of the same name replaces, or why there is no list.
pub(crate) fn unchecked_of(
    alloc: Global,
    draft: u32,
    vocabularies: u32,
    overridden: &[u8],
    schema: &[u8],
) -> Result<Outcome, AllocError>
    ensures { let list = unchecked_of (setting_numbered draft vocabularies overridden.now) schema.now in
        IfOk result (IsOutcome (status_of_list list) (IsListText list)) }
{
    let Some(settings) = settings_numbered(alloc, draft, vocabularies, overridden)? else {
        return Ok(status_alone(alloc, BAD_SETTING));
    };
    let Some(value) = read_value(alloc, schema)? else {
        return no_json(alloc, schema);
    };
    let ctx: Context<'_, DecimalJson> = Context::new(alloc, &settings);
    let ctx = ctx.with_object_layer(false);
    let members = unchecked(alloc, &ctx, &value)?;
    let mut text = member_lines(alloc, members.as_slice())?;
    push_repeated(alloc, &mut text, schema)?;
    Ok(Outcome {
        status: status_of_lines(text.as_slice()),
        text,
    })
}

// Returns the status of a schema that has these lines.
fn status_of_lines(lines: &[u8]) -> u32
    ensures { result ≡ status_of_lines lines.now }
{
    match lines {
        [] => VALID,
        [_, ..] => INVALID,
    }
}

// Returns the line of each member.
fn member_lines(alloc: Global, members: &[UncheckedMember]) -> Result<Vec<u8>, AllocError>
    ensures { IfOk result (λ text. text.items ≡ member_lines members.now) }
{
    let mut text = Vec::new(alloc);
    for member in members {
        push_member(&mut text, member)?;
    }
    Ok(text)
}
