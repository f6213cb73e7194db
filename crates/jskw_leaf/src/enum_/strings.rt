//! Options that are strings.
ghost use Rattle.std.specs.Prelude.{◌≡◌, IfOk};
ghost use Rattle.std.specs.List.Sorted.{IsSorted};
ghost use Rattle.serde_json.specs.Find.{as_str};
ghost use Rattle.serde_json.specs.View.{items_view};
ghost use Rattle.jskw_leaf.specs.Options.{has_null, has_text, is_text, picked, some_text, text_order};

use super::hashed_text::{HashedText, has_text, sorted};
use super::table::{OptionTable, TableEnumValidator};
use jskw_number::QuickSet;
use jskw_value::{Json, Node, PropertyName, is_same_name};
use serde_json::Value;
use std::alloc::{AllocError, Global};

/// A table of at most 10 strings. Compares an instance with each.
#[derive(Debug, Drop)]
pub struct FewStrings {
    names: Vec<PropertyName>,
}

/// The validator of at most 10 strings, and of null too if `N` is
/// [`Nullable`](jskw_value::Nullable).
pub type SmallStringEnumValidator<N> = TableEnumValidator<FewStrings, N>;

impl OptionTable for FewStrings {
    ghost takes = { is_text };

    ghost leaves_out_null = { has_null };

    ghost has = { λ table. has_text table.names.items };

    fn takes(value: &Value) -> bool {
        value.as_str().is_some()
    }

    fn new(alloc: Global, _options: &Value, items: &[Value]) -> Result<FewStrings, AllocError> {
        Ok(FewStrings {
            names: names_of(alloc, items)?,
        })
    }

    fn quick_set(&self) -> QuickSet {
        QuickSet::none()
    }

    fn has<F: Json>(&self, instance: &F::Node) -> bool {
        match instance.as_string() {
            Some(text) => is_one_of(&self.names, text),
            None => false,
        }
    }
}

/// A table of more than 10 strings, sorted for a binary search.
#[derive(Debug, Drop)]
pub struct SortedStrings {
    texts: Vec<HashedText>,
    ghost sorted: { IsSorted text_order texts.items },
}

/// The validator of more than 10 strings, and of null too if `N` is
/// [`Nullable`](jskw_value::Nullable).
pub type BigStringEnumValidator<N> = TableEnumValidator<SortedStrings, N>;

impl OptionTable for SortedStrings {
    ghost takes = { is_text };

    ghost leaves_out_null = { has_null };

    ghost has = { λ table. has_text table.texts.items };

    fn takes(value: &Value) -> bool {
        value.as_str().is_some()
    }

    fn new(alloc: Global, _options: &Value, items: &[Value]) -> Result<SortedStrings, AllocError> {
        Ok(SortedStrings {
            texts: sorted(texts_of(alloc, items)?),
        })
    }

    fn quick_set(&self) -> QuickSet {
        QuickSet::none()
    }

    fn has<F: Json>(&self, instance: &F::Node) -> bool {
        match instance.as_string() {
            Some(text) => has_text(&self.texts, text),
            None => false,
        }
    }
}

// Returns whether the text is one of the names.
#[inline(never)]
fn is_one_of(names: &[PropertyName], text: &str) -> bool
    ensures { result ≡ some_text names.now text.now }
{
    for name in names {
        if is_same_name(name.as_str(), text) {
            return true;
        }
    }
    false
}

// Returns the strings among the items, each with its first bytes beside it.
fn names_of(alloc: Global, items: &[Value]) -> Result<Vec<PropertyName>, AllocError>
    ensures { IfOk result (λ v. v.items ≡ picked as_str (items_view items.now)) }
{
    let mut names = Vec::new(alloc);
    for item in items {
        if let Some(text) = item.as_str() {
            names.push(PropertyName::new(alloc, text)?)?;
        }
    }
    Ok(names)
}

// Returns the strings among the items.
fn texts_of(alloc: Global, items: &[Value]) -> Result<Vec<HashedText>, AllocError>
    ensures { IfOk result (λ v. v.items ≡ picked as_str (items_view items.now)) }
{
    let mut texts = Vec::new(alloc);
    for item in items {
        if let Some(text) = item.as_str() {
            texts.push(HashedText::new(alloc, text)?)?;
        }
    }
    Ok(texts)
}
