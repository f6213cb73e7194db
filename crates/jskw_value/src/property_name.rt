//! Names that are compared often, with a head that differs for most different names.
ghost use Rattle.std.specs.Prelude.{◌≡◌, ◌≤◌, ◌<◌, length, get_or, IfOk};
ghost use Rattle.std.specs.Int.{w64, from_le_bytes};
ghost use Rattle.std.specs.Str.{bytes_eq};
ghost use Rattle.jskw_value.specs.PropertyName.{hash, head_of, padded};

use std::alloc::{AllocError, Global};
use std::marker::Model;

// A text's last bytes are multiplied by it, so that they do not cancel out its first ones.
const SPREAD: u64 = 0x9E37_79B9_7F4A_7C15;

/// The head of a text: its length in bytes, and its first and last eight bytes. Equal texts have
/// equal heads. Texts with equal heads may differ.
#[derive(Clone, Copy, PartialEq, Eq, Debug)]
pub struct KeyHead {
    length: usize,
    first: u64,
    last: u64,
}

impl KeyHead {
    /// Returns the head of a text. Allocates nothing.
    #[tactic(auto, using(crate::proofs::TextHeads::head_of_few, crate::proofs::TextHeads::head_of_many))]
    pub fn of(text: &str) -> KeyHead
        ensures { result ≡ head_of text.now }
    {
        let bytes = text.as_bytes();
        let length = bytes.len();
        if length < 8 {
            let word = number_of_few(bytes);
            return KeyHead {
                length,
                first: word,
                last: word,
            };
        }
        KeyHead {
            length,
            first: number_of(&bytes[..8]),
            last: number_of(&bytes[length - 8..]),
        }
    }

    /// Returns a hash of the head: a number that differs for most different heads.
    #[inline(always)]
    #[tactic(auto, unfolding(crate::specs::PropertyName::hash))]
    pub fn hash(&self) -> u64
        ensures { result ≡ hash self.now }
    {
        self.first ^ self.last.wrapping_mul(SPREAD) ^ self.length as u64
    }
}

// Returns up to eight bytes as a number, the lowest byte first.
pub(crate) fn number_of(bytes: &[u8]) -> u64
    requires { length bytes.now ≤ 8 }
    ensures { result ≡ from_le_bytes w64 (padded bytes.now) }
{
    u64::from_le_bytes(padded(bytes))
}

// Returns up to eight bytes, followed by zeros.
fn padded(bytes: &[u8]) -> [u8; 8]
    requires { length bytes.now ≤ 8 }
    ensures { result ≡ padded bytes.now }
{
    let mut eight = [0u8; 8];
    eight[..bytes.len()].copy_from_slice(bytes);
    eight
}

// Returns fewer than eight bytes as a number, the lowest byte first. The number is put together in
// registers: the processor would have to wait for a copy of a few bytes into memory.
#[tactic(auto, using(crate::proofs::TextHeads::few_padded))]
pub(crate) fn number_of_few(bytes: &[u8]) -> u64
    requires { length bytes.now < 8 }
    ensures { result ≡ from_le_bytes w64 (padded bytes.now) }
{
    u64::from_le_bytes([
        byte_at(bytes, 0),
        byte_at(bytes, 1),
        byte_at(bytes, 2),
        byte_at(bytes, 3),
        byte_at(bytes, 4),
        byte_at(bytes, 5),
        byte_at(bytes, 6),
        0,
    ])
}

// Returns the byte at an index, or 0 if the index is past the end.
fn byte_at(bytes: &[u8], index: usize) -> u8
    ensures { result ≡ get_or bytes.now index 0 }
{
    if index < bytes.len() { bytes[index] } else { 0 }
}

/// A name with its head, for comparisons with many other names. Contracts refer to it as its text.
#[derive(Debug, Drop)]
pub struct PropertyName {
    text: String,
    head: KeyHead,
}

impl Model for PropertyName {
    ghost use Rattle.std.specs.Prelude.{◌≡◌, ℕ, List, string_bytes};
    ghost use Rattle.jskw_value.specs.PropertyName.{head_of};

    ghost Value = { List ℕ };

    ghost view = { λ n. string_bytes n.text };

    ghost invariant = { λ n. n.head ≡ head_of (string_bytes n.text) };
}

impl PropertyName {
    /// Creates the name from a copy of `text`.
    pub fn new(alloc: Global, text: &str) -> Result<PropertyName, AllocError>
        ensures { IfOk result (λ n. n ≡ text.now) }
    {
        Ok(PropertyName {
            text: String::from_str(alloc, text)?,
            head: KeyHead::of(text),
        })
    }

    /// Returns the name as text.
    pub fn as_str(&self) -> &str
        ensures { result.now ≡ self.now }
    {
        self.text.as_str()
    }

    /// Returns whether the name is equal to `text`. `head` must be the head of `text`. The heads
    /// are compared first, and the texts only if the heads are equal. Allocates nothing.
    pub fn matches(&self, head: KeyHead, text: &str) -> bool
        requires { head ≡ head_of text.now }
        ensures { result ≡ bytes_eq self.now text.now }
    {
        self.head == head && self.as_str() == text
    }
}
