//! The errors of a document, as lines or as JSON.
ghost use Rattle.std.specs.Prelude.{◌≡◌, ◌++◌, ◌∷◌, ℕ, List, OnOk, IfOk, None, Some};
ghost use Rattle.jskw_value.specs.DecimalTree.{decimal_tree};
ghost use Rattle.jskw_report.specs.Errors.{failure_of, failures_of};
ghost use Rattle.jskw_service.specs.Parts.{HasEach};
ghost use Rattle.jskw_documents.specs.Reports.{IsBasicReport, IsLineReport, IsReportAs};
ghost use Rattle.jskw_documents.specs.Shown.{IsErrorObject, IsErrorShown, IsLaterObject};
ghost use Rattle.jskw_documents.specs.Shown.{error_object, error_words, line_of, more_words, objects_end};
ghost use Rattle.jskw_documents.specs.Shown.{objects_text, place_and_message, place_members, place_words};

use crate::options::{Options, Output};
use crate::place::{Place, push_place, push_place_members};
use crate::starts::Starts;
use crate::words::{push_number_if_some, push_quoted_after, push_shown_after};
use jskw_report::ValidationError;
use jskw_sentence::{sentence, shown_place};
use jskw_service::push_bytes;
use jskw_value::DecimalJson;
use std::alloc::{AllocError, Global};

// A document: its place, and where its items begin.
#[derive(Drop)]
pub(crate) struct Document<'f, 's> {
    pub(crate) file: &'f str,
    // Its line in a stream.
    pub(crate) line: Option<usize>,
    pub(crate) starts: &'s Starts,
}

// Returns what is written of a document that has these errors, and more if they are cut.
pub(crate) fn report(
    alloc: Global,
    options: &Options,
    document: &Document<'_, '_>,
    errors: &[ValidationError<'_, DecimalJson>],
    is_cut: bool,
) -> Result<Vec<u8>, AllocError>
    ensures { IfOk result (λ text. IsReportAs options.now.output options.now.verbose document.now.file.now
        document.now.line is_cut (failures_of decimal_tree errors.now) text.items) }
{
    match options.output {
        Output::Text => line_report(alloc, options.verbose, document, errors, is_cut),
        Output::Basic => basic_report(alloc, document, errors, is_cut),
        Output::Quiet => Ok(Vec::new(alloc)),
    }
}

impl Document<'_, '_> {
    // Returns the place of the document: without a column.
    fn place(&self) -> Place<'_>
        ensures { (result.file.now ≡ self.now.file.now) × (result.line ≡ self.now.line) × (result.column ≡ None) }
    {
        Place {
            file: self.file,
            line: self.line,
            column: None,
        }
    }
}

// Returns a line for each error, or says that there is none, if that is wanted.
fn line_report(
    alloc: Global,
    verbose: bool,
    document: &Document<'_, '_>,
    errors: &[ValidationError<'_, DecimalJson>],
    is_cut: bool,
) -> Result<Vec<u8>, AllocError>
    ensures { IfOk result (λ text. IsLineReport verbose document.now.file.now document.now.line is_cut
        (failures_of decimal_tree errors.now) text.items) }
{
    match errors {
        [] if verbose => {
            let mut text = Vec::new(alloc);
            push_place(alloc, &mut text, &document.place())?;
            push_bytes(&mut text, b": valid\n")?;
            Ok(text)
        }
        [] => Ok(Vec::new(alloc)),
        [_, ..] => {
            let mut text = error_lines(alloc, document, errors)?;
            push_more(alloc, &mut text, &document.place(), is_cut)?;
            Ok(text)
        }
    }
}

// Appends that there are more errors, if they are cut.
fn push_more(
    alloc: Global,
    text: &mut Vec<u8>,
    place: &Place<'_>,
    is_cut: bool,
) -> Result<(), AllocError>
    ensures { OnOk result (text.new.items ≡ text.old.items
        ++ more_words (place_words place.now.file.now place.now.line place.now.column) is_cut) }
{
    if !is_cut {
        return Ok(());
    }
    push_place(alloc, text, place)?;
    push_bytes(text, b": .. and more\n")
}

// Appends the line of an error that has this message.
fn push_line_of(
    alloc: Global,
    text: &mut Vec<u8>,
    place: &Place<'_>,
    message: &str,
    error: &ValidationError<'_, DecimalJson>,
) -> Result<(), AllocError>
    ensures { OnOk result (text.new.items ≡ text.old.items ++ error_words
        (place_words place.now.file.now place.now.line place.now.column) message.now
        (failure_of decimal_tree error.now)) }
{
    push_place(alloc, text, place)?;
    push_shown_after(text, b": ", shown_place(error.instance_path().as_str()))?;
    push_shown_after(text, b": ", message)?;
    push_shown_after(text, b" [", error.schema_path().as_str())?;
    push_bytes(text, b"]\n")
}

// Appends the line of an error.
fn push_error_line(
    alloc: Global,
    text: &mut Vec<u8>,
    document: &Document<'_, '_>,
    error: &ValidationError<'_, DecimalJson>,
) -> Result<(), AllocError>
    ensures { OnOk result ((line : List ℕ) × IsErrorShown document.now.file.now document.now.line
        (failure_of decimal_tree error.now) line × (text.new.items ≡ text.old.items ++ line)) }
{
    let message = sentence(alloc, error)?;
    let start = document.starts.place_of(error.instance_path().as_str());
    let place = Place {
        file: document.file,
        line: Some(document.line.unwrap_or(start.line)),
        column: Some(start.column),
    };
    push_line_of(alloc, text, &place, message.as_str(), error)
}

// Returns the line of each error.
fn error_lines(
    alloc: Global,
    document: &Document<'_, '_>,
    errors: &[ValidationError<'_, DecimalJson>],
) -> Result<Vec<u8>, AllocError>
    ensures { IfOk result (λ text. HasEach (IsErrorShown document.now.file.now document.now.line)
        (failures_of decimal_tree errors.now) text.items) }
{
    let mut text = Vec::new(alloc);
    for error in errors {
        push_error_line(alloc, &mut text, document, error)?;
    }
    Ok(text)
}

// Returns the basic output of a document that has these errors.
fn basic_report(
    alloc: Global,
    document: &Document<'_, '_>,
    errors: &[ValidationError<'_, DecimalJson>],
    is_cut: bool,
) -> Result<Vec<u8>, AllocError>
    ensures { IfOk result (λ text. IsBasicReport document.now.file.now document.now.line is_cut
        (failures_of decimal_tree errors.now) text.items) }
{
    match errors.split_first() {
        None => {
            let mut text = Vec::new(alloc);
            push_place_members(alloc, &mut text, &document.place())?;
            push_bytes(&mut text, b",\"valid\":true}\n")?;
            Ok(text)
        }
        Some((first, others)) => basic_invalid(alloc, document, first, others, is_cut),
    }
}

// Returns the basic output of a document that has an error, and these others behind it.
fn basic_invalid(
    alloc: Global,
    document: &Document<'_, '_>,
    first: &ValidationError<'_, DecimalJson>,
    others: &[ValidationError<'_, DecimalJson>],
    is_cut: bool,
) -> Result<Vec<u8>, AllocError>
    ensures { IfOk result (λ text. IsBasicReport document.now.file.now document.now.line is_cut
        (failure_of decimal_tree first.now ∷ failures_of decimal_tree others.now) text.items) }
{
    let mut text = Vec::new(alloc);
    push_place_members(alloc, &mut text, &document.place())?;
    let first = error_object(alloc, document, first)?;
    let rest = later_objects(alloc, document, others)?;
    push_objects(&mut text, &first, &rest, is_cut)?;
    Ok(text)
}

// Appends what stands behind the place of a document that has errors: the objects of the first one
// and of the others, and whether there are more.
fn push_objects(
    text: &mut Vec<u8>,
    first: &[u8],
    rest: &[u8],
    is_cut: bool,
) -> Result<(), AllocError>
    ensures { OnOk result (text.new.items ≡ text.old.items ++ objects_text first.now rest.now is_cut) }
{
    push_bytes(text, b",\"valid\":false,\"errors\":[")?;
    push_bytes(text, first)?;
    push_bytes(text, rest)?;
    push_bytes(text, objects_end(is_cut))
}

// Returns what stands behind the objects of the errors.
fn objects_end(is_cut: bool) -> &'static [u8]
    ensures { result.now ≡ objects_end is_cut }
{
    if is_cut {
        b"],\"more\":true}\n"
    } else {
        b"]}\n"
    }
}

// Returns the object of an error.
fn error_object(
    alloc: Global,
    document: &Document<'_, '_>,
    error: &ValidationError<'_, DecimalJson>,
) -> Result<Vec<u8>, AllocError>
    ensures { IfOk result
        (λ text. IsErrorObject document.now.line (failure_of decimal_tree error.now) text.items) }
{
    let mut text = Vec::new(alloc);
    let message = sentence(alloc, error)?;
    let start = document.starts.place_of(error.instance_path().as_str());
    let line = document.line.unwrap_or(start.line);
    push_object_of(
        alloc,
        &mut text,
        line,
        start.column,
        message.as_str(),
        error,
    )?;
    Ok(text)
}

// Appends the object of an error that has this place and this message.
fn push_object_of(
    alloc: Global,
    text: &mut Vec<u8>,
    line: usize,
    column: usize,
    message: &str,
    error: &ValidationError<'_, DecimalJson>,
) -> Result<(), AllocError>
    ensures { OnOk result (text.new.items
        ≡ text.old.items ++ error_object line column message.now (failure_of decimal_tree error.now)) }
{
    push_quoted_after(
        alloc,
        text,
        b"{\"keywordLocation\":",
        error.schema_path().as_str(),
    )?;
    push_quoted_after(
        alloc,
        text,
        b",\"instanceLocation\":",
        error.instance_path().as_str(),
    )?;
    push_place_and_message(alloc, text, line, column, message)
}

// Appends what stands behind the locations of an error.
fn push_place_and_message(
    alloc: Global,
    text: &mut Vec<u8>,
    line: usize,
    column: usize,
    message: &str,
) -> Result<(), AllocError>
    ensures { OnOk result (text.new.items ≡ text.old.items ++ place_and_message line column message.now) }
{
    push_number_if_some(alloc, text, b",\"line\":", Some(line))?;
    push_number_if_some(alloc, text, b",\"column\":", Some(column))?;
    push_quoted_after(alloc, text, b",\"error\":", message)?;
    push_bytes(text, b"}")
}

// Appends the object of an error, behind another.
fn push_later_object(
    alloc: Global,
    text: &mut Vec<u8>,
    document: &Document<'_, '_>,
    error: &ValidationError<'_, DecimalJson>,
) -> Result<(), AllocError>
    ensures { OnOk result ((part : List ℕ) × IsLaterObject document.now.line
        (failure_of decimal_tree error.now) part × (text.new.items ≡ text.old.items ++ part)) }
{
    let object = error_object(alloc, document, error)?;
    push_bytes(text, b",")?;
    push_bytes(text, &object)
}

// Returns the objects of the errors, each behind another.
fn later_objects(
    alloc: Global,
    document: &Document<'_, '_>,
    errors: &[ValidationError<'_, DecimalJson>],
) -> Result<Vec<u8>, AllocError>
    ensures { IfOk result (λ text. HasEach (IsLaterObject document.now.line)
        (failures_of decimal_tree errors.now) text.items) }
{
    let mut text = Vec::new(alloc);
    for error in errors {
        push_later_object(alloc, &mut text, document, error)?;
    }
    Ok(text)
}
