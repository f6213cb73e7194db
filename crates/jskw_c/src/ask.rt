//! What exports do with bytes: compiles schemas and checks instances.
#![tactic(auto, using(jskw_value::proofs::DecimalTrees::lawful_tree))]

ghost use Rattle.std.specs.Prelude.{◌≡◌, [], IfOk, Some};
ghost use Rattle.jskw_value.specs.DecimalTree.{decimal_tree};
ghost use Rattle.jskw_text.specs.Position.{IsPlaceIn};
ghost use Rattle.jskw_text.specs.ReadFault.{IsBrokenAt};
ghost use Rattle.jskw_text.specs.Reading.{reading};
ghost use Rattle.jskw_report.specs.Errors.{failures_of};
ghost use Rattle.jskw_report.specs.Fail.{is_empty};
ghost use Rattle.jskw_c.specs.Asked.{Says, SaysFirst, asked_status, verdict_status};
ghost use Rattle.jskw_c.specs.Compiled.{IsPositionOf, compiled_of, setting_numbered};
ghost use Rattle.jskw_c.specs.Line.{IsPositionLine};
ghost use Rattle.jskw_c.specs.Replies.{CompilesBytes, IsOutcome, IsOutcomeOnTree, IsOutcomeOnBytes};
ghost use Rattle.jskw_c.specs.Status as status;

use crate::compiled::CompiledSchema;
use crate::evaluation::tree_text;
use crate::line::{error_lines, inexact_line, position_line, refusal_line};
use crate::settings::settings_numbered;
use crate::status::{BAD_SCHEMA, BAD_SETTING, INEXACT, INVALID, NOT_JSON, VALID};
use jskw_array::SchemaNode;
use jskw_array::compiler::compile;
use jskw_report::{CompileFault, Context, Fault, LazyLocation, ValidationContext, ValidationError};
use jskw_service::{first_errors, read_value};
use jskw_text::{NotJsonReason, Position, ReadFault, read_bytes};
use jskw_value::{DecimalJson, DecimalTree};
use jskw_wanted::wanted;
use std::alloc::{AllocError, Global};
use std::slice;

/// The status and the text of a call.
#[derive(Drop)]
pub(crate) struct Outcome {
    pub(crate) status: u32,
    pub(crate) text: Vec<u8>,
}

// Compiles the schema of these bytes under the setting of these numbers, or returns why there is
// none.
pub(crate) fn compile_schema(
    alloc: Global,
    draft: u32,
    vocabularies: u32,
    overridden: &[u8],
    schema: &[u8],
) -> Result<Result<Box<CompiledSchema>, Outcome>, AllocError>
    ensures { IfOk result (λ compiled. CompilesBytes (λ schema. schema.value) compiled
        (compiled_of (setting_numbered draft vocabularies overridden.now) schema.now)) }
{
    let Some(settings) = settings_numbered(alloc, draft, vocabularies, overridden)? else {
        return Ok(Err(status_alone(alloc, BAD_SETTING)));
    };
    let Some(value) = read_value(alloc, schema)? else {
        return Ok(Err(no_json(alloc, schema)?));
    };
    let ctx: Context<'_, DecimalJson> = Context::new(alloc, &settings);
    let ctx = ctx.with_object_layer(false);
    match compile(alloc, &ctx, &value) {
        Ok(node) => {
            let levels = wanted(alloc, &value)?;
            Ok(Ok(CompiledSchema::new(alloc, node, levels)?))
        }
        Err(CompileFault::Bad(error)) => Ok(Err(Outcome {
            status: BAD_SCHEMA,
            text: refusal_line(alloc, &error)?,
        })),
        Err(CompileFault::Memory(error)) => Err(error),
    }
}

// Returns the outcome for a schema that is not JSON: the place, if the reader of instances finds one.
// That reader takes a number such as `1e999`, which no schema may have.
pub(crate) fn no_json(alloc: Global, schema: &[u8]) -> Result<Outcome, AllocError>
    ensures { IfOk result (IsOutcome status.NOT_JSON (IsPositionOf schema.now (reading schema.now))) }
{
    match read_bytes(alloc, schema) {
        Err(ReadFault::NotJson(reason, at)) => no_json_at(alloc, schema, at, reason),
        Err(ReadFault::Memory(error)) => Err(error),
        Ok(_) | Err(ReadFault::Inexact(..)) => Ok(status_alone(alloc, NOT_JSON)),
    }
}

// Returns the outcome for bytes that stop being JSON at this place of theirs, for this reason.
fn no_json_at(
    alloc: Global,
    bytes: &[u8],
    at: Position,
    reason: NotJsonReason,
) -> Result<Outcome, AllocError>
    requires broken { IsBrokenAt bytes.now at.offset }
    requires place { IsPlaceIn bytes.now at }
    ensures { IfOk result (IsOutcome status.NOT_JSON (IsPositionLine bytes.now)) }
{
    Ok(Outcome {
        status: NOT_JSON,
        text: position_line(alloc, at, reason)?,
    })
}

// Returns a status with no text.
pub(crate) fn status_alone(alloc: Global, status: u32) -> Outcome
    ensures status { result.status ≡ status }
    ensures text { result.text.items ≡ [] }
{
    Outcome {
        status,
        text: Vec::new(alloc),
    }
}

// Returns the status of a verdict.
fn verdict(is_valid: bool) -> u32
    ensures { result ≡ verdict_status is_valid }
{
    if is_valid { VALID } else { INVALID }
}

// Returns the status of an instance that has these errors.
fn status_of_errors(errors: &[ValidationError<'_, DecimalJson>]) -> u32
    ensures { result ≡ verdict_status (is_empty (failures_of decimal_tree errors.now)) }
{
    match errors {
        [] => VALID,
        [_, ..] => INVALID,
    }
}

// Returns the status of the instance of these bytes.
pub(crate) fn validity(schema: &mut CompiledSchema, instance: &[u8]) -> Result<u32, AllocError>
    ensures status { IfOk result (λ status. status ≡ asked_status (Some schema.old) instance.now) }
    ensures kept { schema.new ≡ schema.old }
{
    match schema.read_wanted(instance) {
        Ok(tree) => {
            let is_valid = schema.node().is_valid(&tree, &mut ValidationContext::new());
            schema.reuse(tree);
            Ok(verdict(is_valid))
        }
        Err(ReadFault::NotJson(..)) => Ok(NOT_JSON),
        Err(ReadFault::Inexact(..)) => Ok(INEXACT),
        Err(ReadFault::Memory(error)) => Err(error),
    }
}

// What a call asks of an instance, besides whether it is valid.
#[derive(Clone, Copy)]
pub(crate) enum Detail {
    FirstError,
    // At most so many errors, or all for 0.
    Errors(u64),
    Evaluation,
}

// Returns the outcome on the instance of these bytes.
pub(crate) fn outcome_of(
    alloc: Global,
    detail: Detail,
    schema: &mut CompiledSchema,
    instance: &[u8],
) -> Result<Outcome, AllocError>
    ensures outcome { IfOk result (IsOutcomeOnBytes (Says detail) schema.old instance.now) }
    ensures kept { schema.new ≡ schema.old }
{
    match schema.read(instance) {
        Ok(tree) => {
            let outcome = outcome_on(alloc, detail, schema.node(), &tree);
            schema.reuse(tree);
            outcome
        }
        Err(ReadFault::NotJson(reason, at)) => no_json_at(alloc, instance, at, reason),
        Err(ReadFault::Inexact(location, at)) => Ok(Outcome {
            status: INEXACT,
            text: inexact_line(alloc, location.as_str(), at)?,
        }),
        Err(ReadFault::Memory(error)) => Err(error),
    }
}

// Returns the outcome on an instance.
fn outcome_on(
    alloc: Global,
    detail: Detail,
    schema: &SchemaNode<DecimalJson>,
    instance: &DecimalTree,
) -> Result<Outcome, AllocError>
    ensures { IfOk result (IsOutcomeOnTree (Says detail) schema.now (decimal_tree instance.now)) }
{
    match detail {
        Detail::FirstError => first_error_of(alloc, schema, instance),
        Detail::Errors(limit) => {
            let errors = first_errors(alloc, limit as usize, schema, instance)?;
            Ok(Outcome {
                status: status_of_errors(errors.as_slice()),
                text: error_lines(alloc, errors.as_slice())?,
            })
        }
        Detail::Evaluation => {
            let tree = schema.evaluate_instance(alloc, instance, &mut ValidationContext::new())?;
            Ok(Outcome {
                status: verdict(tree.valid()),
                text: tree_text(alloc, &tree)?,
            })
        }
    }
}

// Returns the line of the first error of the instance.
fn first_error_of(
    alloc: Global,
    schema: &SchemaNode<DecimalJson>,
    instance: &DecimalTree,
) -> Result<Outcome, AllocError>
    ensures { IfOk result (IsOutcomeOnTree SaysFirst schema.now (decimal_tree instance.now)) }
{
    let mut location = LazyLocation::new(alloc);
    match schema.validate(instance, &mut location, &mut ValidationContext::new()) {
        Ok(()) => Ok(status_alone(alloc, VALID)),
        Err(Fault::Invalid(error)) => Ok(Outcome {
            status: INVALID,
            text: error_lines(alloc, slice::from_ref(&error))?,
        }),
        Err(Fault::Memory(error)) => Err(error),
    }
}
