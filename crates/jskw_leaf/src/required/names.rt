//! Lists of required names, each name once.
ghost use Rattle.std.specs.Prelude.{◌≡◌, ◌<◌, ℕ, List, IfOk, IfSome, length, map, slice_index_or};
ghost use Rattle.std.specs.Prelude.{string_bytes};
ghost use Rattle.std.specs.List.{IsDistinct};
ghost use Rattle.std.specs.List.Sorted.{IsPermutation};
ghost use Rattle.std.specs.Str.{bytes_eq};
ghost use Rattle.jskw_leaf.specs.Required.{is_among};

use super::prepared::PreparedName;
use crate::text_table::{is_in_table, sorted};
use jskw_value::Json;
use std::alloc::{AllocError, Global};
use std::marker::Model;

/// A list of distinct names.
pub trait Names<F: Json> {
    /// The names, in order.
    ghost names: { Self → List (List ℕ) };

    /// Returns the names.
    fn list(&self) -> &[PreparedName<F>]
        ensures list { result.now ≡ names self.now }
        ensures distinct { IsDistinct bytes_eq (names self.now) };

    /// Returns the number of names.
    final fn len(&self) -> usize
        ensures count { result ≡ length (names self.now) }
        ensures distinct { IsDistinct bytes_eq (names self.now) }
    {
        self.list().len()
    }

    /// Returns the name at `index`, which must be less than [`len`](Names::len).
    final fn at(&self, index: usize) -> &PreparedName<F>
        requires { index < length (names self.now) }
        ensures { result.now ≡ slice_index_or (names self.now) index result.now }
    {
        &self.list()[index]
    }

    /// Returns the names in the order of their bytes, if they are kept so.
    fn table(&self) -> Option<&[String]>
        ensures { IfSome result (λ table. IsPermutation (names self.now) (map string_bytes table.now)) };

    /// Returns whether `text` is one of the names.
    fn contains(&self, text: &str) -> bool
        ensures { result ≡ is_among (names self.now) text.now };
}

/// A list of names with a sorted copy for lookups. In contracts it is the list.
#[derive(Drop)]
#[derive_where(Debug)]
pub struct NameList<F: Json> {
    names: Vec<PreparedName<F>>,
    table: Vec<String>,
}

impl<F: Json> Model for NameList<F> {
    ghost use Rattle.std.specs.Prelude.{ℕ, List, map, string_bytes, string_cmp};
    ghost use Rattle.std.specs.List.{IsDistinct};
    ghost use Rattle.std.specs.List.Sorted.{IsSorted, IsPermutation};
    ghost use Rattle.std.specs.Str.{bytes_eq};

    ghost Value = { List (List ℕ) };

    ghost view = { λ l. l.names.items };

    ghost invariant = { λ l. record {
      distinct : IsDistinct bytes_eq l.names.items;
      sorted : IsSorted string_cmp l.table.items;
      same : IsPermutation l.names.items (map string_bytes l.table.items);
    } };
}

impl<F: Json> NameList<F> {
    // Creates the list of these names, which must be distinct.
    pub(crate) fn new(alloc: Global, texts: &[&str]) -> Result<NameList<F>, AllocError>
        requires { IsDistinct bytes_eq (map (λ text. text.now) texts.now) }
        ensures { IfOk result (λ names. names ≡ map (λ text. text.now) texts.now) }
    {
        let names = prepared(alloc, texts)?;
        let table = sorted(strings_of(alloc, texts)?);
        Ok(NameList { names, table })
    }
}

// Prepares the names.
fn prepared<F: Json>(alloc: Global, texts: &[&str]) -> Result<Vec<PreparedName<F>>, AllocError>
    ensures { IfOk result (λ v. v.items ≡ map (λ text. text.now) texts.now) }
{
    let mut names = Vec::with_capacity(alloc, texts.len())?;
    for text in texts {
        names.push(PreparedName::new(alloc, text)?)?;
    }
    Ok(names)
}

// Copies the texts.
fn strings_of(alloc: Global, texts: &[&str]) -> Result<Vec<String>, AllocError>
    ensures { IfOk result (λ v. map string_bytes v.items ≡ map (λ text. text.now) texts.now) }
{
    let mut strings = Vec::new(alloc);
    for text in texts {
        strings.push(String::from_str(alloc, text)?)?;
    }
    Ok(strings)
}

impl<F: Json> Names<F> for NameList<F> {
    ghost names = { λ names. names };

    fn list(&self) -> &[PreparedName<F>] {
        &self.names
    }

    fn table(&self) -> Option<&[String]> {
        Some(self.table.as_slice())
    }

    fn contains(&self, text: &str) -> bool {
        is_in_table(&self.table, text)
    }
}

/// One to three names, without a table. In contracts it is the list.
#[derive(Drop)]
#[derive_where(Debug)]
pub struct FewNames<F: Json> {
    names: Vec<PreparedName<F>>,
}

impl<F: Json> Model for FewNames<F> {
    ghost use Rattle.std.specs.Prelude.{ℕ, List};
    ghost use Rattle.std.specs.List.{IsDistinct};
    ghost use Rattle.std.specs.Str.{bytes_eq};

    ghost Value = { List (List ℕ) };

    ghost view = { λ l. l.names.items };

    ghost invariant = { λ l. IsDistinct bytes_eq l.names.items };
}

impl<F: Json> FewNames<F> {
    // Creates the list of these names, which must be distinct.
    pub(crate) fn new(alloc: Global, texts: &[&str]) -> Result<FewNames<F>, AllocError>
        requires { IsDistinct bytes_eq (map (λ text. text.now) texts.now) }
        ensures { IfOk result (λ names. names ≡ map (λ text. text.now) texts.now) }
    {
        Ok(FewNames {
            names: prepared(alloc, texts)?,
        })
    }
}

impl<F: Json> Names<F> for FewNames<F> {
    ghost names = { λ names. names };

    fn list(&self) -> &[PreparedName<F>] {
        &self.names
    }

    #[inline(always)]
    fn table(&self) -> Option<&[String]> {
        None
    }

    #[inline(always)]
    fn contains(&self, text: &str) -> bool {
        // Three names without a loop, which would take longer than to compare the lengths.
        if let [one, two, three] = self.names.as_slice() {
            return one.is(text) || two.is(text) || three.is(text);
        }
        for name in &self.names {
            if name.is(text) {
                return true;
            }
        }
        false
    }
}
