//! Short texts, which take no memory.
ghost use Rattle.std.specs.Prelude.{◌≡◌, ◌++◌, [], IfSome, true, false};

use std::marker::Model;
use std::str;

// A text of at most 19 bytes, in place: enough for the step of an index or of a keyword, and for most
// locations.
#[derive(Debug, Drop)]
pub(crate) struct ShortText {
    bytes: [u8; 19],
    len: u8,
    // of no size: behind a tag the text begins at a multiple of four bytes, so that moves of both are
    // moves of whole words
    words: [u32; 0],
}

impl Model for ShortText {
    ghost use Rattle.std.specs.Prelude.{◌≡◌, ◌≤◌, List, ℕ, length, take, IsUtf8};

    ghost Value = { List ℕ };

    ghost view = { λ t. take t.len t.bytes };

    ghost invariant = { λ t. (t.len ≤ 19) × (length t.bytes ≡ 19) × ∥ IsUtf8 (take t.len t.bytes) ∥₁ };
}

impl ShortText {
    // Returns the empty text.
    pub(crate) fn new() -> ShortText
        ensures { result ≡ [] }
    {
        ShortText {
            bytes: [0; 19],
            len: 0,
            words: [],
        }
    }

    // Returns the text, if it has at most 19 bytes.
    pub(crate) fn from(text: &str) -> Option<ShortText>
        ensures { IfSome result (λ short. short ≡ text.now) }
    {
        let mut short = ShortText::new();
        if short.push_str(text) {
            Some(short)
        } else {
            None
        }
    }

    // Returns the text.
    #[inline(always)]
    pub(crate) fn as_str(&self) -> &str
        ensures { result.now ≡ self.now }
    {
        unsafe { str::from_utf8_unchecked(&self.bytes[..self.len as usize]) }
    }

    // Returns a copy.
    #[inline(always)]
    pub(crate) fn copy(&self) -> ShortText
        ensures { result ≡ self.now }
    {
        ShortText {
            bytes: self.bytes,
            len: self.len,
            words: [],
        }
    }

    // Appends a part, if there is room for it. Returns whether there is.
    #[inline(always)]
    pub(crate) fn push_str(&mut self, part: &str) -> bool
        ensures appended { result ≡ true → self.new ≡ self.old ++ part.now }
        ensures unchanged { result ≡ false → self.new ≡ self.old }
    {
        let start = self.len as usize;
        if part.len() > 19 - start {
            return false;
        }
        let end = start + part.len();
        self.bytes[start..end].copy_from_slice(part.as_bytes());
        self.len = end as u8;
        true
    }
}
