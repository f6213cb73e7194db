//! Places: a file, and the line and the column in it.
ghost use Rattle.std.specs.Prelude.{◌≡◌, ◌++◌, OnOk, IfOk, option_map};
ghost use Rattle.jskw_sentence.specs.Place.{place_shown};
ghost use Rattle.jskw_documents.specs.Shown.{place_members, place_words, refusal_text};

use crate::options::Output;
use crate::words::{
    push_number_if_some, push_quoted_after, push_quoted_if_some, push_shown, push_shown_after,
    push_shown_if_some,
};
use jskw_sentence::shown_place;
use jskw_service::push_bytes;
use std::alloc::{AllocError, Global};

/// A file, and what is known of the place in it.
#[derive(Clone, Copy, Debug)]
pub struct Place<'f> {
    /// The name of the file.
    pub file: &'f str,
    /// The line, from 1 on.
    pub line: Option<usize>,
    /// The column in its line, in characters, from 1 on.
    pub column: Option<usize>,
}

// Appends FILE, FILE:LINE or FILE:LINE:COLUMN.
pub(crate) fn push_place(
    alloc: Global,
    text: &mut Vec<u8>,
    place: &Place<'_>,
) -> Result<(), AllocError>
    ensures { OnOk result (text.new.items ≡ text.old.items
        ++ place_words place.now.file.now place.now.line place.now.column) }
{
    push_shown(text, place.file.as_bytes())?;
    push_number_if_some(alloc, text, b":", place.line)?;
    push_number_if_some(alloc, text, b":", place.column)
}

// Appends the beginning of an object, with the members `file`, `line` and `column`.
pub(crate) fn push_place_members(
    alloc: Global,
    text: &mut Vec<u8>,
    place: &Place<'_>,
) -> Result<(), AllocError>
    ensures { OnOk result (text.new.items ≡ text.old.items
        ++ place_members place.now.file.now place.now.line place.now.column) }
{
    push_quoted_after(alloc, text, b"{\"file\":", place.file)?;
    push_number_if_some(alloc, text, b",\"line\":", place.line)?;
    push_number_if_some(alloc, text, b",\"column\":", place.column)
}

/// Returns the text that says why a document was not checked: at which place, with the location of
/// the number at fault if it is one.
pub fn refusal(
    alloc: Global,
    output: Output,
    place: &Place<'_>,
    location: Option<&str>,
    why: &str,
) -> Result<Vec<u8>, AllocError>
    ensures { IfOk result (λ text. text.items ≡ refusal_text output place.now.file.now place.now.line
        place.now.column (option_map (λ l. l.now) location.entry) why.now) }
{
    let mut text = Vec::new(alloc);
    match output {
        Output::Basic => {
            push_place_members(alloc, &mut text, place)?;
            push_quoted_if_some(alloc, &mut text, b",\"instanceLocation\":", location)?;
            push_quoted_after(alloc, &mut text, b",\"refused\":", why)?;
            push_bytes(&mut text, b"}\n")?;
            Ok(text)
        }
        Output::Text | Output::Quiet => {
            push_place(alloc, &mut text, place)?;
            push_shown_if_some(&mut text, b": ", shown_location(location))?;
            push_shown_after(&mut text, b": ", why)?;
            push_bytes(&mut text, b"\n")?;
            Ok(text)
        }
    }
}

// Returns how the location of a number is written in a line, if there is one.
fn shown_location(location: Option<&str>) -> Option<&str>
    ensures { option_map (λ l. l.now) result ≡ option_map place_shown (option_map (λ l. l.now) location.entry) }
{
    match location {
        None => None,
        Some(pointer) => Some(shown_place(pointer)),
    }
}
