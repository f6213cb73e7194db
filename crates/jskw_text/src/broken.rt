//! Where a text stops being JSON, and why.
ghost use Rattle.std.specs.Prelude.{◌<◌, ◌≤◌, IfOk, IfSome, length};

use crate::escape::{escape_at, unit_at};
use crate::not_json::NotJsonReason;
use crate::scan::{behind_spaces, byte_at, plain_end, short_number_at};
use crate::tree::MAX_DEPTH;
use json::is_number;
use simdutf8::compat::from_utf8;

// What may come next in a text.
#[derive(Clone, Copy)]
enum Next {
    // A value: at the start, and behind a colon.
    Value,
    // An item: behind a comma. At first, behind a bracket, also the end of the array.
    Item,
    FirstItem,
    // A name, in the same way.
    Name,
    FirstName,
    // The colon behind a name.
    Colon,
    // A comma, or the end of the array or object.
    Comma,
    // Nothing.
    End,
}

// What may come next, and the arrays and objects that are open.
#[derive(Drop)]
struct Nesting {
    next: Next,
    depth: usize,
    // A bit for each array and object that is open, the lowest for the innermost: 1 for an object.
    objects: u128,
}

impl Nesting {
    // Goes on behind the token that begins at an offset. Returns the offset behind it, or why no text
    // has it there.
    fn pass(&mut self, text: &[u8], at: usize) -> Result<usize, NotJsonReason>
        requires { at < length text.now }
        ensures { IfOk result (λ end. (at < end) × (end ≤ length text.now)) }
    {
        match text[at] {
            b',' => self.pass_comma()?,
            b':' => self.pass_colon()?,
            b'[' => self.open(0)?,
            b'{' => self.open(1)?,
            b']' => self.close(0)?,
            b'}' => self.close(1)?,
            b'"' => {
                self.pass_string()?;
                return string_end(text, at);
            }
            _ => {
                self.pass_value()?;
                return word_end(text, at);
            }
        }
        Ok(at + 1)
    }

    // Goes on behind a comma.
    fn pass_comma(&mut self) -> Result<(), NotJsonReason> {
        match self.next {
            Next::Comma if self.is_in(1) => self.next = Next::Name,
            Next::Comma => self.next = Next::Item,
            Next::Colon => return Err(NotJsonReason::MissingColon),
            Next::End => return Err(NotJsonReason::MoreText),
            _ => return Err(NotJsonReason::Comma),
        }
        Ok(())
    }

    // Goes on behind a colon.
    fn pass_colon(&mut self) -> Result<(), NotJsonReason> {
        match self.next {
            Next::Colon => self.next = Next::Value,
            Next::End => return Err(NotJsonReason::MoreText),
            _ => return Err(NotJsonReason::Colon),
        }
        Ok(())
    }

    // Goes on behind a string, which is a name or a value.
    fn pass_string(&mut self) -> Result<(), NotJsonReason> {
        match self.next {
            Next::Name | Next::FirstName => self.next = Next::Colon,
            _ => return self.pass_value(),
        }
        Ok(())
    }

    // Goes on behind a value.
    fn pass_value(&mut self) -> Result<(), NotJsonReason> {
        match self.next {
            Next::Value | Next::Item | Next::FirstItem => self.next = self.behind_value(),
            Next::Name | Next::FirstName => return Err(NotJsonReason::Name),
            Next::Colon => return Err(NotJsonReason::MissingColon),
            Next::Comma => return Err(NotJsonReason::MissingComma),
            Next::End => return Err(NotJsonReason::MoreText),
        }
        Ok(())
    }

    // Goes on in an object, for 1, or in an array, for 0.
    fn open(&mut self, object: u128) -> Result<(), NotJsonReason> {
        self.pass_value()?;
        if self.depth >= MAX_DEPTH {
            return Err(NotJsonReason::TooDeep);
        }
        self.depth += 1;
        self.objects = self.objects << 1 | object;
        self.next = if object == 1 {
            Next::FirstName
        } else {
            Next::FirstItem
        };
        Ok(())
    }

    // Goes on behind an object, for 1, or behind an array, for 0.
    fn close(&mut self, object: u128) -> Result<(), NotJsonReason> {
        match self.next {
            Next::End => return Err(NotJsonReason::MoreText),
            Next::Colon => return Err(NotJsonReason::MissingColon),
            _ if !self.is_in(object) => return Err(NotJsonReason::Bracket),
            Next::Value => return Err(NotJsonReason::Bracket),
            Next::Item | Next::Name => return Err(NotJsonReason::TrailingComma),
            Next::FirstItem | Next::FirstName | Next::Comma => {}
        }
        self.depth = self.depth.saturating_sub(1);
        self.objects = self.objects >> 1;
        self.next = self.behind_value();
        Ok(())
    }

    // Returns whether the innermost is an object, for 1, or an array, for 0.
    fn is_in(&self, object: u128) -> bool {
        self.depth > 0 && self.objects % 2 == object
    }

    // Returns what may come behind a value.
    fn behind_value(&self) -> Next {
        if self.depth == 0 {
            Next::End
        } else {
            Next::Comma
        }
    }
}

// Returns the offset of the first token that no JSON text has there, and why; or the length, if the text
// is the beginning of one. A token is a bracket, a comma, a colon, a string, or what stands between
// these and spaces. Tests say which token it is, not contracts.
#[cold]
#[inline(never)]
pub(crate) fn break_of(text: &[u8]) -> (NotJsonReason, usize)
    ensures { result.1 ≤ length text.now }
{
    if text.starts_with(b"\xef\xbb\xbf") {
        return (NotJsonReason::ByteOrderMark, 0);
    }
    let mut nesting = Nesting {
        next: Next::Value,
        depth: 0,
        objects: 0,
    };
    let mut at = behind_spaces(text, 0);
    'tokens: while at < text.len() {
        match nesting.pass(text, at) {
            Ok(end) => at = behind_spaces(text, end),
            Err(reason) => return (reason, at),
        }
    }
    (NotJsonReason::EarlyEnd, at)
}

// Returns the offset behind the string that begins at an offset, or why it is none. The escape of a lone
// surrogate counts only if the rest is a string.
fn string_end(bytes: &[u8], from: usize) -> Result<usize, NotJsonReason>
    requires { from < length bytes.now }
    ensures { IfOk result (λ end. (from < end) × (end ≤ length bytes.now)) }
{
    let mut at = from + 1;
    let mut is_lone = false;
    'runs: while at < bytes.len() {
        let stop = plain_end(bytes, at);
        if stop >= bytes.len() {
            break;
        }
        if bytes[stop] == b'"' {
            return if is_lone {
                Err(NotJsonReason::LoneSurrogate)
            } else {
                Ok(stop + 1)
            };
        }
        if bytes[stop] != b'\\' {
            return Err(NotJsonReason::ControlCharacter);
        }
        if let Some((_, next)) = escape_at(bytes, stop + 1) {
            at = next;
        } else if let Some(next) = unit_end(bytes, stop + 1) {
            is_lone = true;
            at = next;
        } else if stop + 1 < bytes.len() {
            return Err(NotJsonReason::Escape);
        } else {
            break;
        }
    }
    Err(NotJsonReason::UnclosedString)
}

// Returns the offset behind the four hex digits of the escape whose `u` is at an offset.
fn unit_end(bytes: &[u8], at: usize) -> Option<usize>
    ensures { IfSome result (λ end. (at < end) × (end ≤ length bytes.now)) }
{
    if byte_at(bytes, at) != b'u' {
        return None;
    }
    let _ = unit_at(bytes, at + 1)?;
    Some(at + 5)
}

// Returns the offset behind the number or word that begins at an offset, or why it is none.
fn word_end(text: &[u8], from: usize) -> Result<usize, NotJsonReason>
    requires { from < length text.now }
    ensures { IfOk result (λ end. (from < end) × (end ≤ length text.now)) }
{
    if let Some((_, end)) = short_number_at(text, from) {
        return Ok(end);
    }
    let mut end = from + 1;
    'bytes: while end < text.len() && !ends_token(text[end]) {
        end += 1;
    }
    match &text[from..end] {
        b"true" | b"false" | b"null" => Ok(end),
        [b'0'..=b'9' | b'-' | b'+' | b'.', ..] => match from_utf8(&text[from..end]) {
            Ok(word) if is_number(word) => Ok(end),
            _ => Err(NotJsonReason::Number),
        },
        _ => Err(NotJsonReason::Word),
    }
}

// Returns whether a number or a word ends before this byte.
fn ends_token(byte: u8) -> bool {
    match byte {
        b' ' | b'\t' | b'\n' | b'\r' | b'"' | b',' | b':' | b'[' | b']' | b'{' | b'}' => true,
        _ => false,
    }
}
