//! The answer to one document.
#![tactic(auto, using(jskw_value::proofs::DecimalTrees::lawful_tree))]

ghost use Rattle.std.specs.Prelude.{◌≡◌, ℕ, List, [], false, IfOk, if◌then◌else◌, length, option_map};
ghost use Rattle.jskw_text.specs.Position.{IsPlaceIn, line_at};
ghost use Rattle.jskw_value.specs.DecimalTree.{decimal_tree};
ghost use Rattle.jskw_report.specs.Errors.{failures_of};
ghost use Rattle.jskw_report.specs.Fail.{fail, is_empty};
ghost use Rattle.jskw_report.specs.Holds.{holds};
ghost use Rattle.jskw_documents.specs.Documents.{IsAnswer, IsAnswerToTree, IsRefusalAt, errors_in};
ghost use Rattle.jskw_documents.specs.Documents.{errors_of_tree, line_shown, verdict_if, verdict_on};
ghost use Rattle.jskw_documents.specs.Reports.{IsReportAs, first_of, is_cut};
ghost use Rattle.jskw_documents.specs.Streams.{worse_of};

use crate::errors::{Document, report};
use crate::options::Output;
use crate::place::{Place, refusal};
use crate::starts::Starts;
use crate::stream::Stream;
use jskw_array::SchemaNode;
use jskw_report::{ValidationContext, ValidationError};
use jskw_service::{Verdict, first_errors};
use jskw_text::{Position, ReadFault, TreeReader};
use jskw_value::{DecimalJson, DecimalTree};
use std::alloc::{AllocError, Global};

/// The answer to a document.
#[derive(Debug, Drop)]
pub struct Answer {
    /// Whether the document is valid, or was not checked.
    pub verdict: Verdict,
    /// How many errors of it were collected.
    pub errors: usize,
    /// What is written.
    pub text: Vec<u8>,
}

/// Answers the document of these bytes, which is a file, or a line of one. `reader` can serve for any
/// number of documents.
pub fn answer_to(
    stream: &Stream<'_, '_>,
    line: Option<usize>,
    document: &[u8],
    reader: &mut TreeReader,
) -> Result<Answer, AllocError>
    ensures verdict { IfOk result
        (λ answer. answer.verdict ≡ verdict_on stream.now.checker.now.schema document.now) }
    ensures text { IfOk result (λ answer. IsAnswer stream.now.checker.now stream.now.file.now line document.now
        answer.text.items) }
    ensures errors { IfOk result (λ answer. answer.errors ≡ errors_in stream.now.checker.now document.now) }
{
    match reader.read(document) {
        Ok(tree) => {
            let answer = answer_to_tree(stream, line, document, &tree);
            reader.reuse(tree);
            answer
        }
        Err(ReadFault::NotJson(reason, at)) => {
            refuse(stream, line, document, &at, None, reason.sentence())
        }
        Err(ReadFault::Inexact(location, at)) => {
            let (location, why) = (Some(location.as_str()), "the number has no exact decimal");
            refuse(stream, line, document, &at, location, why)
        }
        Err(ReadFault::Memory(error)) => Err(error),
    }
}

// Answers a document as `answer_to` does, and reads it twice unless it is valid: at first what the
// schema looks at alone.
pub(crate) fn quick_answer_to(
    stream: &Stream<'_, '_>,
    line: Option<usize>,
    document: &[u8],
    reader: &mut TreeReader,
) -> Result<Answer, AllocError>
    ensures verdict { IfOk result
        (λ answer. answer.verdict ≡ verdict_on stream.now.checker.now.schema document.now) }
    ensures text { IfOk result (λ answer. IsAnswer stream.now.checker.now stream.now.file.now line document.now
        answer.text.items) }
    ensures errors { IfOk result (λ answer. answer.errors ≡ errors_in stream.now.checker.now document.now) }
{
    if stream.checker.schema.finds_valid(document, reader) {
        return valid_answer(stream, line);
    }
    answer_to(stream, line, document, reader)
}

// Returns the answer to a valid document.
fn valid_answer(stream: &Stream<'_, '_>, line: Option<usize>) -> Result<Answer, AllocError>
    ensures verdict { IfOk result (λ answer. answer.verdict ≡ Verdict.Valid) }
    ensures text { IfOk result (λ answer. IsReportAs stream.now.checker.now.options.output
        stream.now.checker.now.options.verbose stream.now.file.now line false [] answer.text.items) }
    ensures errors { IfOk result (λ answer. answer.errors ≡ 0) }
{
    let starts = Starts::of(stream.alloc, b"")?;
    let document = Document {
        file: stream.file,
        line,
        starts: &starts,
    };
    let options = &stream.checker.options;
    Ok(Answer {
        verdict: Verdict::Valid,
        errors: 0,
        text: report(stream.alloc, options, &document, &[], false)?,
    })
}

// Returns the answer to a document that was not checked, for what stands at this place of it.
#[cold]
fn refuse(
    stream: &Stream<'_, '_>,
    line: Option<usize>,
    document: &[u8],
    at: &Position,
    location: Option<&str>,
    why: &str,
) -> Result<Answer, AllocError>
    requires { IsPlaceIn document.now at.now }
    ensures verdict { IfOk result (λ answer. answer.verdict ≡ Verdict.Refused) }
    ensures text { IfOk result (λ answer. IsRefusalAt at.now.offset stream.now.checker.now.options.output
        stream.now.file.now line document.now (option_map (λ l. l.now) location.entry) answer.text.items) }
    ensures errors { IfOk result (λ answer. answer.errors ≡ 0) }
{
    let place = Place {
        file: stream.file,
        line: Some(shown_line(line, at.line)),
        column: Some(at.column),
    };
    let output = stream.checker.options.output;
    Ok(Answer {
        verdict: Verdict::Refused,
        errors: 0,
        text: refusal(stream.alloc, output, &place, location, why)?,
    })
}

// Returns the line of the document, or the line in the document if it is a whole file.
fn shown_line(line: Option<usize>, within: usize) -> usize
    ensures { (offset : ℕ) (bytes : List ℕ) → within ≡ line_at offset bytes
        → result ≡ line_shown line offset bytes }
{
    match line {
        None => within,
        Some(line) => line,
    }
}

// Returns the answer to a document that was read.
fn answer_to_tree(
    stream: &Stream<'_, '_>,
    line: Option<usize>,
    document: &[u8],
    tree: &DecimalTree,
) -> Result<Answer, AllocError>
    ensures verdict { IfOk result (λ answer. answer.verdict
        ≡ verdict_if (holds stream.now.checker.now.schema (decimal_tree tree.now))) }
    ensures text { IfOk result (λ answer. IsAnswerToTree stream.now.checker.now stream.now.file.now line
        (decimal_tree tree.now) answer.text.items) }
    ensures errors { IfOk result (λ answer. answer.errors ≡ errors_of_tree stream.now.checker.now.options.output
        stream.now.checker.now.options.limit stream.now.checker.now.schema (decimal_tree tree.now)) }
{
    let checker = stream.checker;
    match checker.options.output {
        Output::Quiet => Ok(quiet_answer(stream.alloc, checker.schema.node(), tree)),
        Output::Text => answer_of_errors(stream, line, document, tree),
        Output::Basic => answer_of_errors(stream, line, document, tree),
    }
}

// Returns the answer without a text.
fn quiet_answer(alloc: Global, schema: &SchemaNode<DecimalJson>, tree: &DecimalTree) -> Answer
    ensures verdict { result.verdict ≡ verdict_if (holds schema.now (decimal_tree tree.now)) }
    ensures text { result.text.items ≡ [] }
    ensures errors { result.errors ≡ (if holds schema.now (decimal_tree tree.now) then 0 else 1) }
{
    let (verdict, errors) = match schema.is_valid(tree, &mut ValidationContext::new()) {
        true => (Verdict::Valid, 0),
        false => (Verdict::Invalid, 1),
    };
    Answer {
        verdict,
        errors,
        text: Vec::new(alloc),
    }
}

// Returns the answer that has the errors.
fn answer_of_errors(
    stream: &Stream<'_, '_>,
    line: Option<usize>,
    document: &[u8],
    tree: &DecimalTree,
) -> Result<Answer, AllocError>
    ensures verdict { IfOk result (λ answer. answer.verdict
        ≡ verdict_if (holds stream.now.checker.now.schema (decimal_tree tree.now))) }
    ensures text { IfOk result (λ answer. IsAnswerToTree stream.now.checker.now stream.now.file.now line
        (decimal_tree tree.now) answer.text.items) }
    ensures errors { IfOk result (λ answer. answer.errors ≡ length (first_of stream.now.checker.now.options.limit
        (fail stream.now.checker.now.schema (decimal_tree tree.now) []))) }
{
    let (alloc, checker) = (stream.alloc, stream.checker);
    let (errors, is_cut) = shown_errors(alloc, checker.options.limit, checker.schema.node(), tree)?;
    let starts = starts_for(alloc, errors.as_slice(), document)?;
    let document = Document {
        file: stream.file,
        line,
        starts: &starts,
    };
    Ok(Answer {
        verdict: verdict_of_errors(errors.as_slice()),
        errors: errors.len(),
        text: report(
            alloc,
            &checker.options,
            &document,
            errors.as_slice(),
            is_cut,
        )?,
    })
}

// Returns where the items of a document begin, if it has errors; a second pass over its bytes.
fn starts_for(
    alloc: Global,
    errors: &[ValidationError<'_, DecimalJson>],
    document: &[u8],
) -> Result<Starts, AllocError> {
    match errors {
        [] => Starts::of(alloc, b""),
        [_, ..] => Starts::of(alloc, document),
    }
}

// Returns the verdict on a document that has these errors.
fn verdict_of_errors(errors: &[ValidationError<'_, DecimalJson>]) -> Verdict
    ensures { result ≡ verdict_if (is_empty (failures_of decimal_tree errors.now)) }
{
    match errors {
        [] => Verdict::Valid,
        [_, ..] => Verdict::Invalid,
    }
}

// Returns the first `limit` errors of the document, or all if `limit` is 0, and whether there are more.
fn shown_errors<'i>(
    alloc: Global,
    limit: usize,
    schema: &'i SchemaNode<DecimalJson>,
    tree: &'i DecimalTree,
) -> Result<(Vec<ValidationError<'i, DecimalJson>>, bool), AllocError>
    ensures errors { IfOk result (λ shown. failures_of decimal_tree shown.0.items
        ≡ first_of limit (fail schema.now (decimal_tree tree.now) [])) }
    ensures more { IfOk result
        (λ shown. shown.1 ≡ is_cut limit (fail schema.now (decimal_tree tree.now) [])) }
{
    if limit == 0 {
        return Ok((first_errors(alloc, 0, schema, tree)?, false));
    }
    if limit == usize::MAX {
        return Ok((first_errors(alloc, limit, schema, tree)?, false));
    }
    let mut errors = first_errors(alloc, limit + 1, schema, tree)?;
    if errors.len() <= limit {
        return Ok((errors, false));
    }
    errors.truncate(limit);
    Ok((errors, true))
}

/// Returns the worse of two verdicts: that of a document that was not checked, that of an invalid
/// one, that of a valid one.
pub fn worse_of(one: Verdict, other: Verdict) -> Verdict
    ensures { result ≡ worse_of one other }
{
    match (one, other) {
        (Verdict::Refused, _) | (_, Verdict::Refused) => Verdict::Refused,
        (Verdict::Invalid, _) | (_, Verdict::Invalid) => Verdict::Invalid,
        (Verdict::Valid, Verdict::Valid) => Verdict::Valid,
    }
}
