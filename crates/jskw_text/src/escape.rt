//! The content of a string that has escapes.
ghost use Rattle.std.specs.Prelude.{◌≡◌, ◌<◌, ◌≤◌, [], IfOk, IfSome, string_bytes};
ghost use Rattle.std.specs.Char.{digit_value};
ghost use Rattle.std.specs.Str.{IsCharBoundary};
ghost use Rattle.json.specs.Lex.{in_escape, in_string};
ghost use Rattle.json.specs.Text.{after_backslash, after_high, after_u, short_escape};
ghost use Rattle.jskw_text.specs.Escapes.{Escape, IsString, IsUnit};

use crate::scan::{byte_at, plain_end};
use std::alloc::AllocError;

// Appends the content of the string whose first byte behind the quote is at `start`. Returns the
// offset of the quote that ends it, or `None` if there is no such string.
pub(crate) fn unescape(
    text: &str,
    start: usize,
    content: &mut String,
) -> Result<Option<usize>, AllocError>
    requires start { IsCharBoundary text.now start }
    requires empty { string_bytes content.old ≡ [] }
    ensures { IfOk result
        (λ end. IfSome end (IsString text.now start (string_bytes content.new))) }
{
    let bytes = text.as_bytes();
    let mut at = start;
    'runs: while at < bytes.len() {
        let stop = plain_end(bytes, at);
        let byte = byte_at(bytes, stop);
        if byte != b'"' && byte != b'\\' {
            return Ok(None);
        }
        content.push_str(&text[at..stop])?;
        if byte == b'"' {
            return Ok(Some(stop));
        }
        let Some((character, next)) = escape_at(bytes, stop + 1) else {
            return Ok(None);
        };
        content.push(character)?;
        at = next;
    }
    Ok(None)
}

// Returns the character that is escaped behind the backslash before an offset, and the offset behind
// it.
pub(crate) fn escape_at(bytes: &[u8], at: usize) -> Option<(char, usize)>
    ensures { IfSome result (Escape in_escape after_backslash bytes.now at) }
{
    if at >= bytes.len() {
        return None;
    }
    if bytes[at] == b'u' {
        return unicode_at(bytes, at + 1);
    }
    let byte = short(bytes[at])?;
    Some((byte as char, at + 1))
}

// Returns what a backslash and this byte stand for, unless that is `\u`.
fn short(byte: u8) -> Option<u8>
    ensures value { result ≡ short_escape byte }
    ensures ascii { IfSome result (λ c. (c < 128) × (byte < 128)) }
{
    match byte {
        b'"' | b'\\' | b'/' => Some(byte),
        b'b' => Some(8),
        b'f' => Some(12),
        b'n' => Some(b'\n'),
        b'r' => Some(b'\r'),
        b't' => Some(b'\t'),
        _ => None,
    }
}

// Returns the character of the four hex digits at an offset, or of two times four if the first are a
// high surrogate, and the offset behind them.
fn unicode_at(bytes: &[u8], at: usize) -> Option<(char, usize)>
    ensures { IfSome result (Escape in_string after_u bytes.now at) }
{
    let unit = unit_at(bytes, at)?;
    if 0xd800 <= unit && unit < 0xdc00 {
        return low_half_at(bytes, at + 4, unit);
    }
    Some((char::from_u32(unit)?, at + 4))
}

// Returns the character of a high surrogate and of the low one that is escaped at an offset, and the
// offset behind it.
fn low_half_at(bytes: &[u8], at: usize, high: u32) -> Option<(char, usize)>
    requires { (0xd800 ≤ high) × (high < 0xdc00) }
    ensures { IfSome result (Escape in_string (after_high high) bytes.now at) }
{
    if byte_at(bytes, at) != b'\\' || byte_at(bytes, at + 1) != b'u' {
        return None;
    }
    let low = unit_at(bytes, at + 2)?;
    if low < 0xdc00 || 0xe000 <= low {
        return None;
    }
    let character = char::from_u32(0x10000 + (high - 0xd800) * 1024 + (low - 0xdc00))?;
    Some((character, at + 6))
}

// Returns the code unit that the four hex digits at an offset spell.
pub(crate) fn unit_at(bytes: &[u8], at: usize) -> Option<u32>
    ensures { IfSome result (IsUnit bytes.now at) }
{
    if at > bytes.len() || bytes.len() - at < 4 {
        return None;
    }
    let (a, b, c, d) = (
        digit(bytes[at]),
        digit(bytes[at + 1]),
        digit(bytes[at + 2]),
        digit(bytes[at + 3]),
    );
    if (a < 16) & (b < 16) & (c < 16) & (d < 16) {
        Some(a * 4096 + b * 256 + c * 16 + d)
    } else {
        None
    }
}

// Returns the value of a digit to the base 36, or 36.
fn digit(byte: u8) -> u32
    ensures value { result ≡ digit_value byte }
    ensures ascii { result < 16 → byte < 128 }
{
    match byte {
        b'0'..=b'9' => (byte - b'0') as u32,
        b'A'..=b'Z' => (byte - b'A') as u32 + 10,
        b'a'..=b'z' => (byte - b'a') as u32 + 10,
        _ => 36,
    }
}
