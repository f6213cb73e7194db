//! Options that are integers from -2^63 to 2^63-1.
ghost use Rattle.std.specs.Prelude.{◌≡◌, IfOk, ℤ, true, zero};
ghost use Rattle.std.specs.List.Sorted.{IsSorted};
ghost use Rattle.std.specs.Ordering.{int_cmp};
ghost use Rattle.serde_json.specs.View.{items_view};
ghost use Rattle.jskw_value.specs.Decimal.{coefficient, value};
ghost use Rattle.jskw_value.specs.Number.{exact};
ghost use Rattle.jskw_number.specs.QuickSet.{in_range};
ghost use Rattle.jskw_leaf.specs.Options.{has_integer, has_null, integer_against, integer_of};
ghost use Rattle.jskw_leaf.specs.Options.{is_integer_option, picked, some_integer};

use super::table::{OptionTable, TableEnumValidator};
use jskw_number::QuickSet;
use jskw_number::quick_set::IntegerRange;
use jskw_value::{Decimal, Json, JsonNumber, Node};
use serde_json::Value;
use std::alloc::{AllocError, Global};
use std::cmp::Ordering;

/// A table of integers from -2^63 to 2^63-1, sorted for a binary search. Looks a number up by its
/// value: 1.0 is 1.
#[derive(Debug, Drop)]
pub struct SortedIntegers {
    integers: Vec<i64>,
    ghost sorted: { IsSorted int_cmp integers.items },
}

/// The validator of integers from -2^63 to 2^63-1, and of null too if `N` is
/// [`Nullable`](jskw_value::Nullable).
pub type IntegerEnumValidator<N> = TableEnumValidator<SortedIntegers, N>;

impl OptionTable for SortedIntegers {
    ghost takes = { is_integer_option };

    ghost leaves_out_null = { has_null };

    ghost has = { λ table. has_integer table.integers.items };

    fn takes(value: &Value) -> bool {
        value.as_i64().is_some()
    }

    fn new(alloc: Global, _options: &Value, items: &[Value]) -> Result<SortedIntegers, AllocError> {
        let mut integers = integers_of(alloc, items)?;
        integers.sort_unstable();
        Ok(SortedIntegers { integers })
    }

    fn quick_set(&self) -> QuickSet {
        match self.integers.first() {
            Some(first) => QuickSet::of_integers(first_run(&self.integers, *first)),
            None => QuickSet::none(),
        }
    }

    fn has<F: Json>(&self, instance: &F::Node) -> bool {
        let Some(number) = instance.as_number() else {
            return false;
        };
        match number.as_i64() {
            Some(integer) => has_word(&self.integers, &integer),
            None => is_in_table(&self.integers, &number.decimal()),
        }
    }
}

// Returns the integers of the sorted table from its first one to the last before a gap.
fn first_run(table: &[i64], first: i64) -> IntegerRange
    ensures { some_integer table.now (exact first zero) ≡ true → (z : ℤ) → in_range result z ≡ true
        → some_integer table.now (exact z zero) ≡ true }
{
    let mut last = first;
    for integer in table {
        if last.checked_add(1) == Some(*integer) {
            last = *integer;
        }
    }
    IntegerRange::between(first, last)
}

// Returns whether the sorted table has the integer. It is faster than `is_in_table`, since it
// compares machine words.
#[inline(never)]
fn has_word(table: &[i64], integer: &i64) -> bool
    requires { IsSorted int_cmp table.now }
    ensures { result ≡ some_integer table.now (exact integer.now zero) }
{
    table.binary_search(integer).is_ok()
}

// Returns whether the sorted table has an integer of the number's value.
#[inline(never)]
fn is_in_table(table: &[i64], number: &Decimal) -> bool
    requires { IsSorted int_cmp table.now }
    ensures { result ≡ some_integer table.now (value number.now) }
{
    table
        .binary_search_by(|entry| compare(*entry, number))
        .is_ok()
}

// Returns how the entry compares to the number.
#[tactic(auto, using(crate::proofs::SortedTables::reversed))]
fn compare(entry: i64, number: &Decimal) -> Ordering
    ensures { result ≡ integer_against (coefficient number.now) number.now.scale entry }
{
    number.cmp_whole(i128::from(entry)).reverse()
}

// Returns the integers among the items.
fn integers_of(alloc: Global, items: &[Value]) -> Result<Vec<i64>, AllocError>
    ensures { IfOk result (λ v. v.items ≡ picked integer_of (items_view items.now)) }
{
    let mut integers = Vec::new(alloc);
    for item in items {
        if let Some(integer) = item.as_i64() {
            integers.push(integer)?;
        }
    }
    Ok(integers)
}
