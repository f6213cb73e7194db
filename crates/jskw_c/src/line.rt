//! Lines of words, with a tab between two words and a line feed at the end.
ghost use Rattle.std.specs.Prelude.{◌≡◌, ◌++◌, [], ◌∷◌, ℕ, List, IfOk, OnOk};
ghost use Rattle.jskw_value.specs.DecimalTree.{decimal_tree};
ghost use Rattle.jskw_report.specs.Compile.{refusal_of};
ghost use Rattle.jskw_report.specs.Errors.{failure_of, failures_of};
ghost use Rattle.jskw_c.specs.Line.{AreErrorLines, IsErrorLine, IsRefusalLine, escaped};
ghost use Rattle.jskw_c.specs.Line.{inexact_line, position_line, words_line};
ghost use Rattle.jskw_c.specs.Unchecked.{member_line};

use crate::expected::expected_text;
use jskw_report::ValidationError;
use jskw_sentence::{schema_sentence, sentence};
use jskw_service::push_bytes;
use jskw_text::{NotJsonReason, Position};
use jskw_unchecked::UncheckedMember;
use jskw_value::{DecimalJson, SerdeJson};
use std::alloc::{AllocError, Global};

// Appends a word. A tab, a line feed and a backslash are written as `\t`, `\n` and `\\`.
fn push_word(text: &mut Vec<u8>, word: &[u8]) -> Result<(), AllocError>
    ensures { OnOk result (text.new.items ≡ text.old.items ++ escaped word.now) }
{
    for &byte in word {
        match byte {
            b'\t' => push_bytes(text, b"\\t")?,
            b'\n' => push_bytes(text, b"\\n")?,
            b'\\' => push_bytes(text, b"\\\\")?,
            _ => text.push(byte)?,
        }
    }
    Ok(())
}

// Appends a word and a byte.
fn push_word_and(text: &mut Vec<u8>, word: &[u8], byte: u8) -> Result<(), AllocError>
    ensures { OnOk result (text.new.items ≡ text.old.items ++ (escaped word.now ++ byte ∷ [])) }
{
    push_word(text, word)?;
    text.push(byte)?;
    Ok(())
}

// Returns the line of a place in a text and of why it is refused there: the offset in bytes, the line,
// the column, and the reason as a word and as a sentence.
pub(crate) fn position_line(
    alloc: Global,
    at: Position,
    reason: NotJsonReason,
) -> Result<Vec<u8>, AllocError>
    ensures { IfOk result (λ line. line.items ≡ position_line at reason) }
{
    let (word, words) = (reason.as_str(), reason.sentence());
    let line = format!(in alloc;
        "{}\t{}\t{}\t{word}\t{words}\n",
        at.offset, at.line, at.column
    )?;
    Ok(line.into_bytes())
}

// Returns the line of a number that is not exact: its location, and its place in the text as above.
pub(crate) fn inexact_line(
    alloc: Global,
    location: &str,
    at: Position,
) -> Result<Vec<u8>, AllocError>
    ensures { IfOk result (λ line. line.items ≡ inexact_line location.now at) }
{
    let place = format!(in alloc; "{}\t{}\t{}\n", at.offset, at.line, at.column)?;
    let mut text = Vec::new(alloc);
    push_word_and(&mut text, location.as_bytes(), b'\t')?;
    push_bytes(&mut text, place.as_bytes())?;
    Ok(text)
}

// Appends the line of an unchecked member: its keyword location and the reason.
pub(crate) fn push_member(text: &mut Vec<u8>, member: &UncheckedMember) -> Result<(), AllocError>
    ensures { OnOk result (text.new.items ≡ text.old.items ++ member_line member.now) }
{
    push_reason(text, member.location().as_str(), member.reason().as_str())
}

// Appends the line of a location and a reason.
pub(crate) fn push_reason(
    text: &mut Vec<u8>,
    location: &str,
    reason: &str,
) -> Result<(), AllocError>
    ensures { OnOk result
        (text.new.items ≡ text.old.items ++ words_line (location.now ∷ reason.now ∷ [])) }
{
    push_word_and(text, location.as_bytes(), b'\t')?;
    push_word_and(text, reason.as_bytes(), b'\n')
}

// Returns the line of a compile error: its keyword, keyword location and message, and what was
// expected.
pub(crate) fn refusal_line(
    alloc: Global,
    error: &ValidationError<'_, SerdeJson>,
) -> Result<Vec<u8>, AllocError>
    ensures { IfOk result (λ text. IsRefusalLine (refusal_of error.now) text.items) }
{
    let message = schema_sentence(alloc, error)?;
    let expected = expected_text(alloc, error.kind())?;
    let mut text = Vec::new(alloc);
    push_word_and(&mut text, error.kind().keyword().as_bytes(), b'\t')?;
    push_word_and(&mut text, error.schema_path().as_str().as_bytes(), b'\t')?;
    push_word_and(&mut text, message.as_bytes(), b'\t')?;
    push_word_and(&mut text, expected.as_slice(), b'\n')?;
    Ok(text)
}

// Appends the line of an error: its keyword, instance location, keyword location and message, and
// what was expected.
fn push_error(
    alloc: Global,
    text: &mut Vec<u8>,
    error: &ValidationError<'_, DecimalJson>,
) -> Result<(), AllocError>
    ensures { OnOk result ((line : List ℕ) × IsErrorLine (failure_of decimal_tree error.now) line
        × (text.new.items ≡ text.old.items ++ line)) }
{
    let message = sentence(alloc, error)?;
    let expected = expected_text(alloc, error.kind())?;
    push_word_and(text, error.kind().keyword().as_bytes(), b'\t')?;
    push_word_and(text, error.instance_path().as_str().as_bytes(), b'\t')?;
    push_word_and(text, error.schema_path().as_str().as_bytes(), b'\t')?;
    push_word_and(text, message.as_bytes(), b'\t')?;
    push_word_and(text, expected.as_slice(), b'\n')
}

// Returns the line of each error.
pub(crate) fn error_lines(
    alloc: Global,
    errors: &[ValidationError<'_, DecimalJson>],
) -> Result<Vec<u8>, AllocError>
    ensures { IfOk result
        (λ text. AreErrorLines (failures_of decimal_tree errors.now) text.items) }
{
    let mut text = Vec::new(alloc);
    for error in errors {
        push_error(alloc, &mut text, error)?;
    }
    Ok(text)
}
