//! Parts of the texts that are written.
ghost use Rattle.std.specs.Prelude.{◌≡◌, ◌++◌, ◌<◌, IfOk, OnOk, get_or, option_map};
ghost use Rattle.std.specs.List.{prefix_len};
ghost use Rattle.jskw_documents.specs.Shown.{behind_byte, escape_of, hex_digit, if_some, is_control, is_from, is_plain};
ghost use Rattle.jskw_documents.specs.Shown.{number_after, obeyed, obeyed_code, quoted_after, shown, shown_after};
ghost use Rattle.jskw_documents.specs.Shown.{shown_byte, shown_first};

use jskw_service::push_bytes;
use serde_json::Value;
use std::alloc::{AllocError, Global};

// Returns whether the byte is a control character.
fn is_control(byte: u8) -> bool
    ensures { result ≡ is_control byte }
{
    byte < 32 || byte == 127
}

// Returns the digit of a number below 16.
fn hex_digit(digit: usize) -> u8
    requires { digit < 16 }
    ensures { result ≡ hex_digit digit }
{
    let digit = digit as u8;
    if digit < 10 { 48 + digit } else { 87 + digit }
}

// Appends the escape of a character.
fn push_escape(text: &mut Vec<u8>, code: usize) -> Result<(), AllocError>
    ensures { OnOk result (text.new.items ≡ text.old.items ++ escape_of code) }
{
    push_bytes(text, b"\\u")?;
    text.push(hex_digit(code / 4096 % 16))?;
    text.push(hex_digit(code / 256 % 16))?;
    text.push(hex_digit(code / 16 % 16))?;
    text.push(hex_digit(code % 16))?;
    Ok(())
}

// Returns whether a number is one of these.
fn is_from(least: u8, most: u8, byte: u8) -> bool
    ensures { result ≡ is_from least most byte }
{
    least <= byte && byte <= most
}

// Returns how many bytes the character has that three bytes begin with, if a terminal obeys it, or 0.
fn obeyed(byte: u8, second: u8, third: u8) -> usize
    ensures { result ≡ obeyed byte second third }
{
    if is_control(byte) {
        return 1;
    }
    if byte == 194 && is_from(128, 159, second) {
        return 2;
    }
    if byte == 226 && second == 128 && is_from(168, 174, third) {
        return 3;
    }
    if byte == 226 && second == 129 && is_from(166, 169, third) {
        return 3;
    }
    0
}

// Returns its code.
fn obeyed_code(byte: u8, second: u8, third: u8) -> usize
    ensures { result ≡ obeyed_code byte second third }
{
    if byte < 128 {
        return byte as usize;
    }
    if byte == 194 {
        return second as usize;
    }
    if second == 128 {
        return 8064 + third as usize;
    }
    8128 + third as usize
}

// Appends what is written of the first of three bytes.
fn push_first(text: &mut Vec<u8>, byte: u8, second: u8, third: u8) -> Result<(), AllocError>
    ensures { OnOk result (text.new.items ≡ text.old.items ++ shown_first byte second third) }
{
    if obeyed(byte, second, third) == 0 {
        text.push(byte)?;
        return Ok(());
    }
    push_escape(text, obeyed_code(byte, second, third))
}

// Appends what is written of the first of three bytes, if so many are those of a character that is
// written already, and returns how many behind it then are.
fn push_byte(
    text: &mut Vec<u8>,
    passed: usize,
    byte: u8,
    second: u8,
    third: u8,
) -> Result<usize, AllocError>
    ensures text { OnOk result (text.new.items ≡ text.old.items ++ shown_byte passed byte second third) }
    ensures passed { IfOk result (λ n. n ≡ behind_byte passed byte second third) }
{
    if passed > 0 {
        return Ok(passed - 1);
    }
    push_first(text, byte, second, third)?;
    Ok(obeyed(byte, second, third).saturating_sub(1))
}

// Returns the byte at an index, or 0 behind the end.
fn byte_at(bytes: &[u8], at: usize) -> u8
    ensures { result ≡ get_or bytes.now at 0 }
{
    match bytes.get(at) {
        Some(&byte) => byte,
        None => 0,
    }
}

// Returns how many bytes at the beginning of words are printable ASCII.
#[inline(always)]
fn plain_len(words: &[u8]) -> usize
    ensures { result ≡ prefix_len is_plain words.now }
{
    let mut at = 0;
    'bytes: while at < words.len() && is_from(32, 126, words[at]) {
        at += 1;
    }
    at
}

/// Appends words. Of characters that a terminal obeys it appends the escapes of JSON: of those to
/// U+001F, U+007F to U+009F, U+2028 to U+202E and U+2066 to U+2069.
pub fn push_shown(text: &mut Vec<u8>, words: &[u8]) -> Result<(), AllocError>
    ensures { OnOk result (text.new.items ≡ text.old.items ++ shown words.now) }
{
    let (mut rest, mut passed) = (words, 0);
    'words: while let Some((byte, behind)) = rest.split_first() {
        let plain = plain_len(rest);
        if passed == 0 && plain > 0 {
            push_bytes(text, &rest[..plain])?;
            rest = &rest[plain..];
        } else {
            let (second, third) = (byte_at(behind, 0), byte_at(behind, 1));
            passed = push_byte(text, passed, *byte, second, third)?;
            rest = behind;
        }
    }
    Ok(())
}

// Appends bytes as they are, and then words.
pub(crate) fn push_shown_after(
    text: &mut Vec<u8>,
    before: &[u8],
    words: &str,
) -> Result<(), AllocError>
    ensures { OnOk result (text.new.items ≡ text.old.items ++ shown_after before.now words.now) }
{
    push_bytes(text, before)?;
    push_shown(text, words.as_bytes())
}

// Appends bytes as they are, and then words, if there are any.
pub(crate) fn push_shown_if_some(
    text: &mut Vec<u8>,
    before: &[u8],
    words: Option<&str>,
) -> Result<(), AllocError>
    ensures { OnOk result (text.new.items ≡ text.old.items
        ++ if_some (shown_after before.now) (option_map (λ w. w.now) words.entry)) }
{
    match words {
        None => Ok(()),
        Some(words) => push_shown_after(text, before, words),
    }
}

// Appends bytes as they are, and then words as a string of JSON.
pub(crate) fn push_quoted_after(
    alloc: Global,
    text: &mut Vec<u8>,
    before: &[u8],
    words: &str,
) -> Result<(), AllocError>
    ensures { OnOk result (text.new.items ≡ text.old.items ++ quoted_after before.now words.now) }
{
    let value = Value::String(String::from_str(alloc, words)?);
    let quoted = value.to_string(alloc)?;
    push_bytes(text, before)?;
    push_bytes(text, quoted.as_bytes())
}

// Appends bytes as they are, and then words as a string of JSON, if there are any.
pub(crate) fn push_quoted_if_some(
    alloc: Global,
    text: &mut Vec<u8>,
    before: &[u8],
    words: Option<&str>,
) -> Result<(), AllocError>
    ensures { OnOk result (text.new.items ≡ text.old.items
        ++ if_some (quoted_after before.now) (option_map (λ w. w.now) words.entry)) }
{
    match words {
        None => Ok(()),
        Some(words) => push_quoted_after(alloc, text, before, words),
    }
}

// Appends bytes as they are, and then a number, if there is one.
pub(crate) fn push_number_if_some(
    alloc: Global,
    text: &mut Vec<u8>,
    before: &[u8],
    number: Option<usize>,
) -> Result<(), AllocError>
    ensures { OnOk result (text.new.items ≡ text.old.items
        ++ if_some (number_after before.now) number) }
{
    match number {
        None => Ok(()),
        Some(number) => {
            let digits = format!(in alloc; "{number}")?;
            push_bytes(text, before)?;
            push_bytes(text, digits.as_bytes())
        }
    }
}
