//! Sorted tables of strings, for a binary search.
ghost use Rattle.std.specs.Prelude.{◌≡◌, map, string_bytes, string_cmp};
ghost use Rattle.std.specs.List.Sorted.{IsSorted, IsPermutation};
ghost use Rattle.jskw_leaf.specs.Options.{some_text, text_against};

use std::cmp::Ordering;

// Sorts the strings by their bytes. Allocates nothing.
pub(crate) fn sorted(mut texts: Vec<String>) -> Vec<String>
    ensures sorted { IsSorted string_cmp result.items }
    ensures same { IsPermutation (map string_bytes texts.items) (map string_bytes result.items) }
{
    texts.sort_unstable();
    texts
}

// Returns whether the sorted table has the string.
#[inline(never)]
pub(crate) fn is_in_table(table: &[String], text: &str) -> bool
    requires { IsSorted string_cmp table.now }
    ensures { result ≡ some_text (map string_bytes table.now) text.now }
{
    table.binary_search_by(|entry| compare(entry, text)).is_ok()
}

// Returns how the entry compares to the text, by their bytes.
fn compare(entry: &String, text: &str) -> Ordering
    ensures { result ≡ text_against text.now entry.now }
{
    entry.as_str().cmp(text)
}
