//! Values that are passed over: all that is checked of a value is checked of them, and nothing is kept. Each
//! function takes an offset and returns the one behind what it passes over, or `None` if it gives up: the
//! text is refused, or memory ran out.
ghost use Rattle.std.specs.Prelude.{◌≡◌, ◌≤◌, IfSome, IsTrue, get_or, length, true};
ghost use Rattle.std.specs.Str.{IsUtf8};
ghost use Rattle.jskw_text.specs.Passing.{Skips, SkipsItems, SkipsLeaf, SkipsMembers, SkipsName, SkipsText, Spans};

use crate::escape::unescape;
use crate::scan::{
    behind_byte, behind_spaces, byte_at, has_word_at, leaf_end, name_end, number_at, plain_end,
    short_number_at,
};
use crate::spare::Spare;

// Passes over the next value.
#[cycle(skip)]
#[inline(always)]
pub(crate) fn skip(text: &str, from: usize, spare: &mut Spare, depth: usize) -> Option<usize>
    requires within { from ≤ length text.now }
    requires utf8 { IsUtf8 text.now }
    ensures { IfSome result (Spans (Skips depth) text.now from) }
{
    if let Some(end) = leaf_end(text.as_bytes(), from) {
        return Some(end);
    }
    let at = behind_spaces(text.as_bytes(), from);
    match byte_at(text.as_bytes(), at) {
        b'"' => skip_text(text, at, spare),
        b'[' => {
            if depth == 0 {
                return None;
            }
            skip_items(text, at + 1, spare, depth - 1)
        }
        b'{' => {
            if depth == 0 {
                return None;
            }
            skip_members(text, at + 1, spare, depth - 1)
        }
        _ => skip_word(text, at),
    }
}

// Passes over a string.
#[inline(never)]
fn skip_text(text: &str, at: usize, spare: &mut Spare) -> Option<usize>
    requires utf8 { IsUtf8 text.now }
    requires quote { get_or text.now at 32 ≡ 34 }
    ensures { IfSome result (Spans SkipsText text.now at) }
{
    let stop = plain_end(text.as_bytes(), at + 1);
    if byte_at(text.as_bytes(), stop) == b'"' {
        return Some(stop + 1);
    }
    skip_escaped(text, at, spare)
}

// Passes over a string that has escapes.
#[cold]
#[inline(never)]
fn skip_escaped(text: &str, at: usize, spare: &mut Spare) -> Option<usize>
    requires utf8 { IsUtf8 text.now }
    requires quote { get_or text.now at 32 ≡ 34 }
    ensures { IfSome result (Spans SkipsText text.now at) }
{
    let Ok(mut content) = spare.text("") else {
        return None;
    };
    let Ok(Some(stop)) = unescape(text, at + 1, &mut content) else {
        return None;
    };
    Some(stop + 1)
}

// Passes over a number, a boolean or null.
#[inline(never)]
fn skip_word(text: &str, at: usize) -> Option<usize>
    requires { at ≤ length text.now }
    ensures { IfSome result (Spans SkipsLeaf text.now at) }
{
    if let Some((_, end)) = short_number_at(text.as_bytes(), at) {
        return Some(end);
    }
    if let Some(end) = named_end(text.as_bytes(), at) {
        return Some(end);
    }
    let (_, end) = number_at(text, at)?;
    Some(end)
}

// Passes over a boolean or null.
#[inline(always)]
fn named_end(bytes: &[u8], at: usize) -> Option<usize>
    requires { at ≤ length bytes.now }
    ensures { IfSome result (Spans SkipsLeaf bytes.now at) }
{
    if has_word_at(bytes, at, b"true") {
        return Some(at + 4);
    }
    if has_word_at(bytes, at, b"false") {
        return Some(at + 5);
    }
    if has_word_at(bytes, at, b"null") {
        return Some(at + 4);
    }
    None
}

// Passes over the items up to the end of an array.
#[cycle(skip)]
#[inline(never)]
pub(crate) fn skip_items(text: &str, from: usize, spare: &mut Spare, depth: usize) -> Option<usize>
    requires within { from ≤ length text.now }
    requires utf8 { IsUtf8 text.now }
    ensures { IfSome result (Spans (SkipsItems depth) text.now from) }
{
    if let Some(end) = behind_byte(text.as_bytes(), from, b']') {
        return Some(end);
    }
    let mut at = from;
    'items: loop {
        let end = skip(text, at, spare, depth)?;
        let Some(next) = behind_byte(text.as_bytes(), end, b',') else {
            return behind_byte(text.as_bytes(), end, b']');
        };
        at = next;
    }
}

// Passes over the members up to the end of an object.
#[cycle(skip)]
#[inline(never)]
pub(crate) fn skip_members(
    text: &str,
    from: usize,
    spare: &mut Spare,
    depth: usize,
) -> Option<usize>
    requires within { from ≤ length text.now }
    requires utf8 { IsUtf8 text.now }
    ensures { IfSome result (Spans (SkipsMembers depth) text.now from) }
{
    if let Some(end) = behind_byte(text.as_bytes(), from, b'}') {
        return Some(end);
    }
    let mut at = from;
    'members: loop {
        let value = skip_name(text, at, spare)?;
        let end = skip(text, value, spare, depth)?;
        let Some(next) = behind_byte(text.as_bytes(), end, b',') else {
            return behind_byte(text.as_bytes(), end, b'}');
        };
        at = next;
    }
}

// Passes over a name and its colon.
#[inline(always)]
fn skip_name(text: &str, from: usize, spare: &mut Spare) -> Option<usize>
    requires within { from ≤ length text.now }
    requires utf8 { IsUtf8 text.now }
    ensures { IfSome result (Spans SkipsName text.now from) }
{
    match name_end(text.as_bytes(), from) {
        Some(end) => Some(end),
        None => skip_any_name(text, from, spare),
    }
}

// Passes over any name and its colon.
#[inline(never)]
fn skip_any_name(text: &str, from: usize, spare: &mut Spare) -> Option<usize>
    requires within { from ≤ length text.now }
    requires utf8 { IsUtf8 text.now }
    ensures { IfSome result (Spans SkipsName text.now from) }
{
    let at = behind_spaces(text.as_bytes(), from);
    if byte_at(text.as_bytes(), at) != b'"' {
        return None;
    }
    let end = skip_text(text, at, spare)?;
    behind_byte(text.as_bytes(), end, b':')
}
