//! Texts with their hashes, sorted by these.
ghost use Rattle.std.specs.Prelude.{◌≡◌, IfOk};
ghost use Rattle.std.specs.List.Sorted.{IsSorted, IsPermutation};
ghost use Rattle.std.specs.Str.{bytes_eq};
ghost use Rattle.jskw_leaf.specs.Options.{hash_of, some_text, text_order};

use jskw_value::{KeyHead, is_same_name};
use std::alloc::{AllocError, Global};
use std::cmp::Ordering;
use std::marker::Model;

/// A text with its hash. In contracts it is the text.
#[derive(Debug, Drop)]
pub struct HashedText {
    hash: u64,
    text: String,
}

impl Model for HashedText {
    ghost use Rattle.std.specs.Prelude.{◌≡◌, ℕ, List, string_bytes};
    ghost use Rattle.jskw_leaf.specs.Options.{hash_of};

    ghost Value = { List ℕ };

    ghost view = { λ t. string_bytes t.text };

    ghost invariant = { λ t. t.hash ≡ hash_of (string_bytes t.text) };
}

impl HashedText {
    // Copies the text.
    pub(super) fn new(alloc: Global, text: &str) -> Result<HashedText, AllocError>
        ensures { IfOk result (λ t. t ≡ text.now) }
    {
        Ok(HashedText {
            hash: hash_of(text),
            text: String::from_str(alloc, text)?,
        })
    }

    // Returns whether the two texts are equal.
    #[inline(always)]
    fn is(&self, text: &str) -> bool
        ensures { result ≡ bytes_eq self.now text.now }
    {
        is_same_name(self.text.as_str(), text)
    }

    // Compares the text with another, which has this hash: by their hashes, then by their bytes.
    fn cmp_text(&self, hash: u64, text: &str) -> Ordering
        requires { hash ≡ hash_of text.now }
        ensures { result ≡ text_order self.now text.now }
    {
        match self.hash.cmp(&hash) {
            Ordering::Equal => self.text.as_str().cmp(text),
            order => order,
        }
    }
}

// Returns the hash of a text.
fn hash_of(text: &str) -> u64
    ensures { result ≡ hash_of text.now }
{
    KeyHead::of(text).hash()
}

// Sorts the texts by their hashes, then by their bytes. Allocates nothing.
pub(super) fn sorted(mut texts: Vec<HashedText>) -> Vec<HashedText>
    ensures sorted { IsSorted text_order result.items }
    ensures same { IsPermutation texts.items result.items }
{
    texts.sort_unstable_by(|left, right| left.cmp_text(right.hash, right.text.as_str()));
    texts
}

// Returns whether the sorted table has the text. Searches by the hash, which most texts share with no
// other.
#[inline(never)]
pub(super) fn has_text(table: &[HashedText], text: &str) -> bool
    requires { IsSorted text_order table.now }
    ensures { result ≡ some_text table.now text.now }
{
    let hash = hash_of(text);
    match table.binary_search_by_key(&hash, |entry| entry.hash) {
        Ok(index) => table[index].is(text) || is_found(table, hash, text),
        Err(_) => false,
    }
}

// `has_text` by a search that compares the texts too, if several have this hash.
#[inline(never)]
fn is_found(table: &[HashedText], hash: u64, text: &str) -> bool
    requires sorted { IsSorted text_order table.now }
    requires hash { hash ≡ hash_of text.now }
    ensures { result ≡ some_text table.now text.now }
{
    table
        .binary_search_by(|entry| entry.cmp_text(hash, text))
        .is_ok()
}
