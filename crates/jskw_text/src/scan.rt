//! Runs of bytes: spaces, the plain text of a string, numbers.
ghost use Rattle.std.specs.Prelude.{◌≡◌, ◌+◌, ◌-◌, ◌*◌, ◌%◌, ◌^◌, ◌≤◌, ◌<◌, ◌||◌, ◌++◌, length, drop, get_or, map};
ghost use Rattle.std.specs.Prelude.{IfSome, IsTrue, Some, true};
ghost use Rattle.std.specs.Float.Numeral.{digits_len};
ghost use Rattle.std.specs.List.{prefix_len, slice_range};
ghost use Rattle.std.specs.Simd.Lanes.{mask_l};
ghost use Rattle.std.specs.Str.Parse.{digits_value};
ghost use Rattle.json.specs.Lex.{between, class, lex, operator};
ghost use Rattle.json.specs.Run.{is_no_digit, is_plain, is_stop};
ghost use Rattle.json.specs.Word.{after_whole, ends_word, head, is_operator, is_space};
ghost use Rattle.jskw_value.specs.Decimal.{value};
ghost use Rattle.jskw_text.specs.Passing.{IsNumberAt, IsUnsignedAt, PassesByte, SkipsLeaf, SkipsName, SkipsText, Spans};

use crate::number::parse_decimal;
use core::dec2flt::read_digits;
use jskw_value::Decimal;
use json::is_number;
use std::simd::prelude::*;

// Returns the byte at an offset, or a space behind the end.
#[inline(always)]
pub(crate) fn byte_at(bytes: &[u8], at: usize) -> u8
    ensures value { result ≡ get_or bytes.now at 32 }
    ensures head { result ≡ head (drop at bytes.now) }
{
    if at < bytes.len() { bytes[at] } else { b' ' }
}

// Returns whether a byte is a space between tokens.
#[inline(always)]
fn is_space(byte: u8) -> bool
    ensures { result ≡ is_space byte }
{
    byte <= b' ' && ((byte == b' ') | (byte == b'\t') | (byte == b'\n') | (byte == b'\r'))
}

// Returns whether a number, or a word, ends before this byte.
#[inline(always)]
pub(crate) fn ends_word(byte: u8) -> bool
    ensures { IsTrue result → (is_operator byte || is_space byte) ≡ true }
{
    (byte == b',') | (byte == b']') | (byte == b'}') || is_space(byte)
}

// Returns the offset behind the spaces that begin at an offset. Mostly there are none.
#[inline(always)]
pub(crate) fn behind_spaces(bytes: &[u8], from: usize) -> usize
    requires { from ≤ length bytes.now }
    ensures lexed { lex between (drop from bytes.now) ≡ lex between (drop result bytes.now) }
    ensures bounds { (from ≤ result) × (result ≤ length bytes.now) }
{
    if byte_at(bytes, from) > b' ' {
        from
    } else {
        behind_some_spaces(bytes, from)
    }
}

// Returns the same.
#[inline(never)]
fn behind_some_spaces(bytes: &[u8], from: usize) -> usize
    requires { from ≤ length bytes.now }
    ensures lexed { lex between (drop from bytes.now) ≡ lex between (drop result bytes.now) }
    ensures bounds { (from ≤ result) × (result ≤ length bytes.now) }
{
    let mut at = from;
    'spaces: while at < bytes.len() && is_space(bytes[at]) {
        at += 1;
    }
    at
}

// Returns a bit for each byte at which the plain text of a string stops. With its second bit turned, a
// quote comes right behind the control bytes.
#[inline(always)]
fn stops(bytes: u8x16) -> u64
    ensures { result ≡ mask_l (map is_stop bytes) }
{
    (bytes.simd_eq(u8x16::splat(b'\\'))
        | (bytes ^ u8x16::splat(2)).simd_le(u8x16::splat(0x20))).to_bitmask()
}

// Returns the offset of the first quote, backslash or control byte from an offset on, or the length.
// Most texts end within a block, for which there is no loop here.
#[inline(always)]
pub(crate) fn plain_end(bytes: &[u8], from: usize) -> usize
    requires { from ≤ length bytes.now }
    ensures value { result ≡ from + prefix_len is_plain (drop from bytes.now) }
    ensures bound { result ≤ length bytes.now }
{
    if bytes.len() - from >= 16 {
        let found = stops(u8x16::from_slice(&bytes[from..]));
        if found != 0 {
            return from + found.trailing_zeros() as usize;
        }
    }
    plain_end_by_blocks(bytes, from)
}

// Returns the same, a block at a time.
#[inline(never)]
fn plain_end_by_blocks(bytes: &[u8], from: usize) -> usize
    requires { from ≤ length bytes.now }
    ensures value { result ≡ from + prefix_len is_plain (drop from bytes.now) }
    ensures bound { result ≤ length bytes.now }
{
    let mut at = from;
    'blocks: while bytes.len() - at >= 16 {
        let found = stops(u8x16::from_slice(&bytes[at..]));
        if found != 0 {
            return at + found.trailing_zeros() as usize;
        }
        at += 16;
    }
    plain_end_slowly(bytes, at)
}

// Returns the same, a byte at a time.
#[inline(always)]
fn plain_end_slowly(bytes: &[u8], from: usize) -> usize
    requires { from ≤ length bytes.now }
    ensures { result ≡ from + prefix_len is_plain (drop from bytes.now) }
{
    let mut at = from;
    'bytes: while at < bytes.len() && bytes[at] != b'"' && bytes[at] != b'\\' && bytes[at] >= 0x20 {
        at += 1;
    }
    at
}

// Returns the offset behind a string without escapes or a whole number that begins at an offset. Returns
// `None` if it is another value, is long, or ends with the text.
#[inline(always)]
pub(crate) fn leaf_end(bytes: &[u8], at: usize) -> Option<usize>
    requires { at ≤ length bytes.now }
    ensures { IfSome result (Spans SkipsLeaf bytes.now at) }
{
    if bytes.len() - at < 19 {
        return None;
    }
    if bytes[at] == b'"' {
        text_end(bytes, at)
    } else {
        whole_number_end(bytes, at)
    }
}

// Returns the offset behind a name without escapes that begins at an offset, and its colon. Returns `None`
// if it is no such name, is long, or ends with the text.
#[inline(always)]
pub(crate) fn name_end(bytes: &[u8], at: usize) -> Option<usize>
    requires { at ≤ length bytes.now }
    ensures { IfSome result (Spans SkipsName bytes.now at) }
{
    if bytes.len() - at < 19 || bytes[at] != b'"' {
        return None;
    }
    let end = text_end(bytes, at)?;
    if bytes[end] != b':' {
        return None;
    }
    Some(end + 1)
}

// Returns the offset behind the string that begins at an offset, if it has no escapes and is short.
#[inline(always)]
fn text_end(bytes: &[u8], at: usize) -> Option<usize>
    requires room { at + 19 ≤ length bytes.now }
    requires quote { get_or bytes.now at 0 ≡ 34 }
    ensures inside { IfSome result (λ end. end < length bytes.now) }
    ensures text { IfSome result (Spans SkipsText bytes.now at) }
{
    let stop = plain_end_in_blocks(bytes, at + 1)?;
    if bytes[stop] != b'"' {
        return None;
    }
    Some(stop + 1)
}

// Returns what `plain_end` does, if that is within two blocks, and not among the last two bytes.
#[inline(always)]
fn plain_end_in_blocks(bytes: &[u8], from: usize) -> Option<usize>
    requires { from + 18 ≤ length bytes.now }
    ensures value { IfSome result (λ stop. stop ≡ from + prefix_len is_plain (drop from bytes.now)) }
    ensures bound { IfSome result (λ stop. stop + 1 < length bytes.now) }
{
    let found = stops(u8x16::from_slice(&bytes[from..]));
    if found != 0 {
        return Some(from + found.trailing_zeros() as usize);
    }
    if bytes.len() - from < 34 {
        return None;
    }
    let found = stops(u8x16::from_slice(&bytes[from + 16..]));
    if found != 0 {
        return Some(from + 16 + found.trailing_zeros() as usize);
    }
    None
}

// Returns the offset behind the number that begins at an offset, if it has up to 15 digits and nothing
// else.
#[inline(always)]
fn whole_number_end(bytes: &[u8], at: usize) -> Option<usize>
    requires { at + 19 ≤ length bytes.now }
    ensures { IfSome result (Spans SkipsLeaf bytes.now at) }
{
    if bytes[at] < b'1' || bytes[at] > b'9' {
        return None;
    }
    let found = other_than_digits(u8x16::from_slice(&bytes[at..]));
    if found == 0 {
        return None;
    }
    let end = at + found.trailing_zeros() as usize;
    if !ends_word(bytes[end]) {
        return None;
    }
    Some(end)
}

// Returns a bit for each byte that is no digit.
#[inline(always)]
fn other_than_digits(bytes: u8x16) -> u64
    ensures { result ≡ mask_l (map is_no_digit bytes) }
{
    (bytes - u8x16::splat(b'0'))
        .simd_ge(u8x16::splat(10))
        .to_bitmask()
}

// Returns the offset behind a bracket, brace, comma or colon that comes next, with or without spaces before it.
#[inline(always)]
pub(crate) fn behind_byte(bytes: &[u8], from: usize, byte: u8) -> Option<usize>
    requires within { from ≤ length bytes.now }
    requires operator { class byte ≡ operator }
    ensures { IfSome result (Spans (PassesByte byte) bytes.now from) }
{
    if byte_at(bytes, from) == byte {
        return Some(from + 1);
    }
    let at = behind_spaces(bytes, from);
    if byte_at(bytes, at) == byte {
        return Some(at + 1);
    }
    None
}

// Returns whether these bytes come at an offset.
fn has_at(bytes: &[u8], at: usize, name: &[u8]) -> bool
    requires { at ≤ length bytes.now }
    ensures { IsTrue result → drop at bytes.now ≡ name.now ++ drop (at + length name.now) bytes.now }
{
    bytes[at..].starts_with(name)
}

// Returns whether these bytes come at an offset as a word.
#[inline(always)]
pub(crate) fn has_word_at(bytes: &[u8], at: usize, name: &[u8]) -> bool
    requires { at ≤ length bytes.now }
    ensures { IsTrue result → (drop at bytes.now ≡ name.now ++ drop (at + length name.now) bytes.now)
        × IsTrue (ends_word (drop (at + length name.now) bytes.now)) }
{
    has_at(bytes, at, name) && ends_word(byte_at(bytes, at + name.len()))
}

// Returns the decimal of the number at an offset, and the offset behind it, if it has up to 18
// digits and no exponent.
#[inline(always)]
pub(crate) fn short_number_at(bytes: &[u8], from: usize) -> Option<(Decimal, usize)>
    requires { from ≤ length bytes.now }
    ensures { IfSome result (λ p. IsNumberAt bytes.now from p.1 (value p.0)) }
{
    if byte_at(bytes, from) == b'-' {
        unsigned_at(true, bytes, from + 1)
    } else {
        unsigned_at(false, bytes, from)
    }
}

// Returns the decimal of the number behind the sign, and the offset behind it.
#[inline(always)]
fn unsigned_at(is_negative: bool, bytes: &[u8], start: usize) -> Option<(Decimal, usize)>
    requires { start ≤ length bytes.now }
    ensures { IfSome result (λ p. IsUnsignedAt is_negative bytes.now start p.1 (value p.0)) }
{
    let (point, whole) = read_digits(bytes, start, 0);
    if !are_few(bytes, start, point - start) {
        return None;
    }
    if byte_at(bytes, point) == b'.' {
        return with_fraction(is_negative, bytes, start, point, whole);
    }
    if !ends_word(byte_at(bytes, point)) {
        return None;
    }
    let decimal = Decimal::from_parts(is_negative, whole, 0)?;
    Some((decimal, point))
}

// Returns whether so many digits are a whole number that fits 64 bits.
#[inline(always)]
fn are_few(bytes: &[u8], start: usize, digits: usize) -> bool
    ensures some { IsTrue result → 0 < digits }
    ensures few { IsTrue result → digits ≤ 18 }
    ensures zero { IsTrue result → head (drop start bytes.now) ≡ 48 → digits ≡ 1 }
{
    0 < digits && digits <= 18 && (digits == 1 || byte_at(bytes, start) != b'0')
}

// Returns the same of a number with a point, the digits before which are read.
#[inline(always)]
fn with_fraction(
    is_negative: bool,
    bytes: &[u8],
    start: usize,
    point: usize,
    whole: u64,
) -> Option<(Decimal, usize)>
    requires point { get_or bytes.now point 32 ≡ 46 }
    requires passed { after_whole (drop start bytes.now) ≡ Some (drop point bytes.now) }
    requires digits { point ≡ start + digits_len (drop start bytes.now) }
    requires some { start < point }
    requires whole { whole ≡ (0 * 10 ^ (point - start) + digits_value 10 (slice_range bytes.now start point))
        % 2 ^ 64 }
    ensures { IfSome result (λ p. IsUnsignedAt is_negative bytes.now start p.1 (value p.0)) }
{
    let (end, size) = read_digits(bytes, point + 1, whole);
    if end == point + 1 || end - start > 19 || !ends_word(byte_at(bytes, end)) {
        return None;
    }
    let decimal = Decimal::from_parts(is_negative, size, (end - point - 1) as u8)?;
    Some((decimal, end))
}

// Returns the decimal of any number at an offset, and the offset behind it.
#[cold]
#[inline(never)]
pub(crate) fn number_at(text: &str, from: usize) -> Option<(Decimal, usize)>
    requires { from ≤ length text.now }
    ensures { IfSome result (λ p. IsNumberAt text.now from p.1 (value p.0)) }
{
    let bytes = text.as_bytes();
    if !begins_number(byte_at(bytes, from)) {
        return None;
    }
    let end = word_end(bytes, from);
    let word = &text[from..end];
    if !is_number(word) {
        return None;
    }
    Some((parse_decimal(word)?, end))
}

// Returns whether a number begins with this byte.
fn begins_number(byte: u8) -> bool
    ensures { IsTrue result → byte < 128 }
{
    byte == b'-' || byte.is_ascii_digit()
}

// Returns the offset behind the word that begins at an offset.
fn word_end(bytes: &[u8], from: usize) -> usize
    requires { from ≤ length bytes.now }
    ensures bounds { (from ≤ result) × (result ≤ length bytes.now) }
    ensures ended { ends_word (drop result bytes.now) ≡ true }
{
    let mut at = from;
    'bytes: while at < bytes.len() && !ends_word(bytes[at]) {
        at += 1;
    }
    at
}
