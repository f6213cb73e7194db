//! Values as JSON text that is cut at a bound.
#![tactic(auto, using(crate::proofs::Growth::steps))]

ghost use Rattle.std.specs.Prelude.{◌+◌, ◌*◌, ◌≤◌, OnOk, string_bytes};
ghost use Rattle.jskw_sentence.specs.Growth.{AppendsAtMost, GrowsWithin};

use crate::bounded::{cut, push_char, push_piece};
use jskw_value::{Array, Node, Object};
use std::alloc::{AllocError, Global};

/// Appends a value as compact JSON text of at most `most` characters; what is more is cut off, and `..`
/// stands there instead. Nothing is cut within an escape. Beside what JSON escapes, characters are that a
/// terminal may take as commands: U+007F to U+009F, U+2028 to U+202E and U+2066 to U+2069. A float is the
/// word `float`.
pub fn push_value<N: Node>(
    alloc: Global,
    text: &mut String,
    value: &N,
    most: usize,
) -> Result<(), AllocError>
    ensures { OnOk result (AppendsAtMost (4 * most + 2) (string_bytes text.old) (string_bytes text.new)) }
{
    write_value(alloc, text, &mut Some(most), value, most)
}

// Appends a value that nests at most so deep, or is cut there: each level takes room.
pub(crate) fn write_value<N: Node>(
    alloc: Global,
    text: &mut String,
    room: &mut Option<usize>,
    value: &N,
    depth: usize,
) -> Result<(), AllocError>
    ensures { OnOk result (GrowsWithin (string_bytes text.old) room.old (string_bytes text.new) room.new) }
{
    if depth == 0 {
        return cut(text, room);
    }
    if value.is_array() {
        push_piece(text, room, "[")?;
        for i in 0..Array::len(value) {
            if room.is_none() {
                return Ok(());
            }
            push_piece(text, room, if i > 0 { "," } else { "" })?;
            write_value(alloc, text, room, value.item(i), depth - 1)?;
        }
        return push_piece(text, room, "]");
    }
    if value.is_object() {
        push_piece(text, room, "{")?;
        let mut is_first = true;
        for (name, member) in value.walk() {
            if room.is_none() {
                return Ok(());
            }
            push_piece(text, room, if is_first { "" } else { "," })?;
            is_first = false;
            write_text(alloc, text, room, name)?;
            push_piece(text, room, ":")?;
            write_value(alloc, text, room, member, depth - 1)?;
        }
        return push_piece(text, room, "}");
    }
    write_scalar(alloc, text, room, value)
}

// Appends a value that is neither an array nor an object.
fn write_scalar<N: Node>(
    alloc: Global,
    text: &mut String,
    room: &mut Option<usize>,
    value: &N,
) -> Result<(), AllocError>
    ensures { OnOk result (GrowsWithin (string_bytes text.old) room.old (string_bytes text.new) room.new) }
{
    if let Some(words) = value.as_string() {
        return write_text(alloc, text, room, words);
    }
    let mut word = String::new(alloc);
    value.write_json(&mut word)?;
    push_piece(text, room, word.as_str())
}

// Appends a string between quotes.
pub(crate) fn write_text(
    alloc: Global,
    text: &mut String,
    room: &mut Option<usize>,
    words: &str,
) -> Result<(), AllocError>
    ensures { OnOk result (GrowsWithin (string_bytes text.old) room.old (string_bytes text.new) room.new) }
{
    push_piece(text, room, "\"")?;
    for c in words.chars() {
        if room.is_none() {
            return Ok(());
        }
        write_char(alloc, text, room, c)?;
    }
    push_piece(text, room, "\"")
}

// Appends a character of a string.
fn write_char(
    alloc: Global,
    text: &mut String,
    room: &mut Option<usize>,
    c: char,
) -> Result<(), AllocError>
    ensures { OnOk result (GrowsWithin (string_bytes text.old) room.old (string_bytes text.new) room.new) }
{
    match c {
        '"' => push_piece(text, room, "\\\""),
        '\\' => push_piece(text, room, "\\\\"),
        '\t' => push_piece(text, room, "\\t"),
        '\n' => push_piece(text, room, "\\n"),
        '\r' => push_piece(text, room, "\\r"),
        '\u{0}'..='\u{1f}'
        | '\u{7f}'..='\u{9f}'
        | '\u{2028}'..='\u{202e}'
        | '\u{2066}'..='\u{2069}' => {
            let escape = escape_of(alloc, c)?;
            push_piece(text, room, escape.as_str())
        }
        _ => push_char(text, room, c),
    }
}

// Returns the escape of a character below U+10000.
fn escape_of(alloc: Global, c: char) -> Result<String, AllocError> {
    let mut escape = String::from_str(alloc, "\\u")?;
    for place in [4096, 256, 16, 1] {
        escape.push(hexadecimal(c as u32 / place % 16))?;
    }
    Ok(escape)
}

// Returns the hexadecimal digit for a number from 0 to 15.
fn hexadecimal(number: u32) -> char
    requires { number ≤ 15 }
{
    char::from_digit(number, 16).unwrap()
}
