//! The validator for callers in C, as a static library. `include/jskw.h` declares these functions
//! and says what a caller owes. There a slice is a pointer and a length, and `alloc` is no
//! parameter.
//!
//! A function that has a text to return takes a buffer and a `length`. It writes the text to the
//! head of the buffer, and its length to `length`. If the text is longer than the buffer, it
//! returns `TOO_SMALL`, leaves the buffer unchanged, and writes to `length` what is needed.
//!
//! An instance is JSON text, whose numbers are exact decimals. If it is not JSON, the status is
//! `NOT_JSON`, and the text is the line of the place where it breaks: offset, line and column, and the
//! reason as a word and as a sentence. If it contains a number that is not exact, the status is
//! `INEXACT`, and the text is the line of its location, with its offset, line and column.
//!
//! If memory runs out, every function but `jskw_version` and `jskw_free` returns `NO_MEMORY` and
//! leaves the handle and the buffer unchanged.
#![tactic(auto)]

ghost use Rattle.std.specs.Prelude.{◌≡◌, None, codes};
ghost use Rattle.jskw_service.specs.Answer.{output, verdict};
ghost use Rattle.jskw_service.specs.Run.{status_of_verdict};
ghost use Rattle.jskw_c.specs.Asked.{IsDetail, Says, SaysErrors, SaysFirst, SaysTree, asked_status};
ghost use Rattle.jskw_c.specs.Compiled.{CompilesIntoHandle, Shares, compiled_of, setting_numbered};
ghost use Rattle.jskw_c.specs.Buffer.{WritesText, IsStatus, WritesOrRunsOut};
ghost use Rattle.jskw_c.specs.Unchecked.{IsListText, status_of_list, unchecked_of};

mod ask;
mod buffer;
mod compiled;
mod evaluation;
mod expected;
mod handle;
mod json_parts;
mod line;
mod repeated;
mod settings;
mod status;
mod unchecked;

use crate::ask::{Detail, compile_schema, outcome_of, validity};
use crate::buffer::{write_no_memory, write_text};
use crate::handle::SchemaHandle;
use crate::status::{NO_MEMORY, NO_SCHEMA, VALID};
use crate::unchecked::unchecked_of;
use jskw_service::reply_to;
use std::alloc::{AllocError, Global};

/// Writes the version of this library and that of the logic that it is proved in, a line each.
#[unsafe(no_mangle)]
pub extern "C" fn jskw_version(buffer: &mut [u8], length: &mut usize) -> u32
    ensures { WritesText result 0 (codes "jskw 0.3.0\nrattle logic dac8208d650f15bf\n") buffer.old buffer.new
        length.new }
{
    write_text(
        VALID,
        b"jskw 0.3.0\nrattle logic dac8208d650f15bf\n",
        buffer,
        length,
    )
}

/// Answers a request as the program `jskw` does: with its exit status and its output.
#[unsafe(no_mangle)]
pub extern "C" fn jskw_answer(
    alloc: Global,
    request: &[u8],
    buffer: &mut [u8],
    length: &mut usize,
) -> u32
    ensures { WritesOrRunsOut (λ text. text ≡ output request.now) result
        (status_of_verdict (verdict request.now)) buffer.old buffer.new length.new }
{
    match reply_to(alloc, request) {
        Ok(reply) => {
            let status = jskw_service::status(&Ok(reply.verdict()));
            write_text(u32::from(status), reply.text(), buffer, length)
        }
        Err(AllocError) => write_no_memory(length),
    }
}

/// Compiles a schema, puts it into the handle, and frees the schema that the handle had. If the
/// schema is not compiled, the handle is unchanged. If it is refused, the text is the line of the
/// refusal: its keyword, keyword location and message, and what was expected, as JSON. If it is not
/// JSON, the text is the line of the place, if the reader of instances finds one.
#[unsafe(no_mangle)]
pub extern "C" fn jskw_compile(
    alloc: Global,
    draft: u32,
    vocabularies: u32,
    overridden: &[u8],
    schema: &[u8],
    handle: &mut SchemaHandle,
    buffer: &mut [u8],
    length: &mut usize,
) -> u32
    ensures { CompilesIntoHandle
        (compiled_of (setting_numbered draft vocabularies overridden.now) schema.now)
        result handle.old.schema handle.new.schema buffer.old buffer.new length.new }
{
    match compile_schema(alloc, draft, vocabularies, overridden, schema) {
        Ok(Ok(schema)) => {
            handle.put(alloc, schema);
            *length = 0;
            VALID
        }
        Ok(Err(outcome)) => write_text(outcome.status, outcome.text.as_slice(), buffer, length),
        Err(AllocError) => write_no_memory(length),
    }
}

/// Writes a line for each member of a schema that is not checked under the setting: its keyword
/// location, and the reason, which is `notImplemented`, `unknown` or `inactive`. Members of the
/// subschemas that keywords of this library apply have lines too. Behind these lines stands one with
/// the reason `repeated` for each member, wherever it is, that a later one of its object replaces,
/// since it has the same name. The status is `VALID` if there is no line, else `INVALID`. If the
/// schema is not JSON, status and text are those of `jskw_compile`. A schema that does not compile has
/// its lines too.
#[unsafe(no_mangle)]
pub extern "C" fn jskw_unchecked(
    alloc: Global,
    draft: u32,
    vocabularies: u32,
    overridden: &[u8],
    schema: &[u8],
    buffer: &mut [u8],
    length: &mut usize,
) -> u32
    ensures { let list = unchecked_of (setting_numbered draft vocabularies overridden.now) schema.now in
        WritesOrRunsOut (IsListText list) result (status_of_list list) buffer.old buffer.new length.new }
{
    match unchecked_of(alloc, draft, vocabularies, overridden, schema) {
        Ok(list) => write_text(list.status, list.text.as_slice(), buffer, length),
        Err(AllocError) => write_no_memory(length),
    }
}

/// Puts the schema of the first handle into the second too, without compiling it again, and frees
/// the schema that the second had. If the first has none, the second is unchanged.
#[unsafe(no_mangle)]
pub extern "C" fn jskw_share(alloc: Global, from: &mut SchemaHandle, to: &mut SchemaHandle) -> u32
    ensures kept { from.new.schema ≡ from.old.schema }
    ensures shared { Shares from.old.schema result to.old.schema to.new.schema }
{
    match from.take(alloc) {
        Some(schema) => {
            let shared = schema.share(alloc);
            from.put(alloc, schema);
            match shared {
                Ok(schema) => {
                    to.put(alloc, schema);
                    VALID
                }
                Err(AllocError) => NO_MEMORY,
            }
        }
        None => NO_SCHEMA,
    }
}

/// Returns whether the instance is valid.
#[unsafe(no_mangle)]
pub extern "C" fn jskw_is_valid(alloc: Global, handle: &mut SchemaHandle, instance: &[u8]) -> u32
    ensures kept { handle.new.schema ≡ handle.old.schema }
    ensures status { IsStatus (asked_status handle.old.schema instance.now) result }
{
    let Some(mut schema) = handle.take(alloc) else {
        return NO_SCHEMA;
    };
    let status = validity(&mut schema, instance);
    handle.put(alloc, schema);
    match status {
        Ok(status) => status,
        Err(AllocError) => NO_MEMORY,
    }
}

// Writes the outcome on the instance.
fn write_outcome(
    alloc: Global,
    detail: Detail,
    handle: &mut SchemaHandle,
    instance: &[u8],
    buffer: &mut [u8],
    length: &mut usize,
) -> u32
    ensures kept { handle.new.schema ≡ handle.old.schema }
    ensures written { WritesOrRunsOut (IsDetail (Says detail) handle.old.schema instance.now) result
        (asked_status handle.old.schema instance.now) buffer.old buffer.new length.new }
{
    let Some(mut schema) = handle.take(alloc) else {
        return write_text(NO_SCHEMA, &[], buffer, length);
    };
    let answer = outcome_of(alloc, detail, &mut schema, instance);
    handle.put(alloc, schema);
    match answer {
        Ok(outcome) => write_text(outcome.status, outcome.text.as_slice(), buffer, length),
        Err(AllocError) => write_no_memory(length),
    }
}

/// Writes the line of the first error of the instance: its keyword, instance location, keyword
/// location and message, and what was expected, as JSON.
#[unsafe(no_mangle)]
pub extern "C" fn jskw_first_error(
    alloc: Global,
    handle: &mut SchemaHandle,
    instance: &[u8],
    buffer: &mut [u8],
    length: &mut usize,
) -> u32
    ensures kept { handle.new.schema ≡ handle.old.schema }
    ensures written { WritesOrRunsOut (IsDetail SaysFirst handle.old.schema instance.now) result
        (asked_status handle.old.schema instance.now) buffer.old buffer.new length.new }
{
    write_outcome(alloc, Detail::FirstError, handle, instance, buffer, length)
}

/// Writes the lines of the errors of the instance, in order: of the first `limit`, or of all if
/// `limit` is 0.
#[unsafe(no_mangle)]
pub extern "C" fn jskw_errors(
    alloc: Global,
    handle: &mut SchemaHandle,
    instance: &[u8],
    limit: u64,
    buffer: &mut [u8],
    length: &mut usize,
) -> u32
    ensures kept { handle.new.schema ≡ handle.old.schema }
    ensures written { WritesOrRunsOut (IsDetail (SaysErrors limit) handle.old.schema instance.now) result
        (asked_status handle.old.schema instance.now) buffer.old buffer.new length.new }
{
    write_outcome(
        alloc,
        Detail::Errors(limit),
        handle,
        instance,
        buffer,
        length,
    )
}

/// Writes the evaluation tree of the instance as JSON.
#[unsafe(no_mangle)]
pub extern "C" fn jskw_evaluate(
    alloc: Global,
    handle: &mut SchemaHandle,
    instance: &[u8],
    buffer: &mut [u8],
    length: &mut usize,
) -> u32
    ensures kept { handle.new.schema ≡ handle.old.schema }
    ensures written { WritesOrRunsOut (IsDetail SaysTree handle.old.schema instance.now) result
        (asked_status handle.old.schema instance.now) buffer.old buffer.new length.new }
{
    write_outcome(alloc, Detail::Evaluation, handle, instance, buffer, length)
}

/// Frees the schema of the handle, if it has one. It has none from then on.
#[unsafe(no_mangle)]
pub extern "C" fn jskw_free(alloc: Global, handle: &mut SchemaHandle)
    ensures { handle.new.schema ≡ None }
{
    drop(handle.take(alloc));
}
