//! The rest of a text, and what comes first in it.
ghost use Rattle.std.specs.Prelude.{◌≡◌, ◌≤◌, [], ◌∷◌, ◌++◌, IfNone, IfOk, IfSome, MatchBool, IsTrue, length};
ghost use Rattle.std.specs.Prelude.{string_bytes};
ghost use Rattle.json.specs.Lex.{class, operator, operator_lexeme, token, between, lex};
ghost use Rattle.json.specs.Token.{string};
ghost use Rattle.json.specs.Word.{head, ends_word};
ghost use Rattle.jskw_value.specs.Decimal.{value};
ghost use Rattle.jskw_text.specs.Passing.{Passes, PassesNumber, Skips, SkipsItems, SkipsMembers};

use crate::escape::unescape;
use crate::scan::{behind_spaces, byte_at, has_word_at, number_at, plain_end, short_number_at};
use crate::skip::{skip, skip_items, skip_members};
use crate::spare::Spare;
use jskw_value::Decimal;
use std::alloc::AllocError;
use std::marker::Model;

// A text and an offset. Contracts see the text from there on.
#[derive(Drop)]
pub(crate) struct Cursor<'a> {
    text: &'a str,
    at: usize,
}

impl<'a> Model for Cursor<'a> {
    ghost use Rattle.std.specs.Prelude.{ℕ, List, ◌≤◌, drop, length};
    ghost use Rattle.std.specs.Str.{IsUtf8};

    ghost Value = { List ℕ };

    ghost view = { λ a. drop a.at a.text.now };

    ghost invariant = { λ a. (a.at ≤ length a.text.now) × IsUtf8 a.text.now };
}

impl<'a> Cursor<'a> {
    // Creates a cursor at the beginning of a text.
    pub(crate) fn new(text: &'a str) -> Cursor<'a>
        ensures { result ≡ text.now }
    {
        Cursor { text, at: 0 }
    }

    // Returns the offset.
    pub(crate) fn offset(&self) -> usize {
        self.at
    }

    // Returns whether nothing is left.
    pub(crate) fn is_at_end(&self) -> bool
        ensures { IsTrue result → self.now ≡ [] }
    {
        self.at == self.text.len()
    }

    // Returns the first byte, or a space at the end.
    #[inline(always)]
    pub(crate) fn peek(&self) -> u8
        ensures { result ≡ head self.now }
    {
        byte_at(self.text.as_bytes(), self.at)
    }

    // Passes over the spaces that come first.
    #[inline(always)]
    pub(crate) fn skip_spaces(&mut self)
        ensures { Passes self.old [] self.new }
    {
        self.at = behind_spaces(self.text.as_bytes(), self.at);
    }

    // Passes over the bracket, brace, comma or colon that comes first.
    #[inline(always)]
    pub(crate) fn advance(&mut self)
        requires { class (head self.old) ≡ operator }
        ensures { Passes self.old (operator_lexeme (head self.old) ∷ []) self.new }
    {
        self.at += 1;
    }

    // Passes over spaces, and over a bracket, brace, comma or colon if it comes next. Returns whether
    // it did.
    #[inline(always)]
    pub(crate) fn takes(&mut self, byte: u8) -> bool
        requires { class byte ≡ operator }
        ensures { MatchBool result (Passes self.old (operator_lexeme byte ∷ []) self.new)
            (Passes self.old [] self.new) }
    {
        if self.peek() != byte {
            self.skip_spaces();
            if self.peek() != byte {
                return false;
            }
        }
        self.advance();
        true
    }

    // Passes over the string that comes first and returns it, if it has no escape.
    #[inline(always)]
    pub(crate) fn string(&mut self) -> Option<&'a str>
        requires { head self.old ≡ 34 }
        ensures string { IfSome result (λ s. Passes self.old (token (string s.now) ∷ []) self.new) }
        ensures none { IfNone result (self.new ≡ self.old) }
    {
        let text = self.text;
        let start = self.at + 1;
        let stop = plain_end(text.as_bytes(), start);
        if byte_at(text.as_bytes(), stop) != b'"' {
            return None;
        }
        self.at = stop + 1;
        Some(&text[start..stop])
    }

    // Passes over the string that comes first and appends its content to a text. Returns whether there
    // is one.
    pub(crate) fn escaped_string(&mut self, content: &mut String) -> Result<bool, AllocError>
        requires first { head self.old ≡ 34 }
        requires empty { string_bytes content.old ≡ [] }
        ensures { IfOk result (λ found. IsTrue found
            → Passes self.old (token (string (string_bytes content.new)) ∷ []) self.new) }
    {
        let Some(stop) = unescape(self.text, self.at + 1, content)? else {
            return Ok(false);
        };
        self.at = stop + 1;
        Ok(true)
    }

    // Passes over the number that comes first and returns it, if it is a decimal of few digits.
    #[inline(always)]
    pub(crate) fn short_number(&mut self) -> Option<Decimal>
        ensures number { IfSome result (λ d. PassesNumber self.old (value d) self.new) }
        ensures none { IfNone result (self.new ≡ self.old) }
    {
        let (decimal, end) = short_number_at(self.text.as_bytes(), self.at)?;
        self.at = end;
        Some(decimal)
    }

    // Passes over the number that comes first and returns it, if it is a decimal.
    #[cold]
    #[inline(never)]
    pub(crate) fn number(&mut self) -> Option<Decimal>
        ensures { IfSome result (λ d. PassesNumber self.old (value d) self.new) }
    {
        let (decimal, end) = number_at(self.text, self.at)?;
        self.at = end;
        Some(decimal)
    }

    // Passes over the next value. Returns whether it did.
    #[inline(always)]
    pub(crate) fn skips(&mut self, spare: &mut Spare, depth: usize) -> bool
        ensures skipped { IsTrue result → Skips depth self.old self.new }
        ensures shorter { IsTrue result → length self.new ≤ length self.old }
    {
        let Some(end) = skip(self.text, self.at, spare, depth) else {
            return false;
        };
        self.at = end;
        true
    }

    // Passes over the items up to the end of an array. Returns whether it did.
    #[inline(always)]
    pub(crate) fn skips_items(&mut self, spare: &mut Spare, depth: usize) -> bool
        ensures skipped { IsTrue result → SkipsItems depth self.old self.new }
        ensures shorter { IsTrue result → length self.new ≤ length self.old }
    {
        let Some(end) = skip_items(self.text, self.at, spare, depth) else {
            return false;
        };
        self.at = end;
        true
    }

    // Passes over the members up to the end of an object. Returns whether it did.
    #[inline(always)]
    pub(crate) fn skips_members(&mut self, spare: &mut Spare, depth: usize) -> bool
        ensures skipped { IsTrue result → SkipsMembers depth self.old self.new }
        ensures shorter { IsTrue result → length self.new ≤ length self.old }
    {
        let Some(end) = skip_members(self.text, self.at, spare, depth) else {
            return false;
        };
        self.at = end;
        true
    }

    // Passes over a name if it comes first as a word. Returns whether it did.
    #[inline(always)]
    pub(crate) fn takes_word(&mut self, name: &[u8]) -> bool
        ensures { MatchBool result ((self.old ≡ name.now ++ self.new) × IsTrue (ends_word self.new))
            (self.new ≡ self.old) }
    {
        if !has_word_at(self.text.as_bytes(), self.at, name) {
            return false;
        }
        self.at += name.len();
        true
    }
}
