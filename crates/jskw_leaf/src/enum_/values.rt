//! More than 8 options of any types.
ghost use Rattle.std.specs.Prelude.{◌≡◌, IfOk, true, false};
ghost use Rattle.std.specs.List.{list_all};
ghost use Rattle.std.specs.List.Sorted.{IsNonDecreasingBy};
ghost use Rattle.serde_json.specs.View.{items_view};
ghost use Rattle.jskw_value.specs.Tree.{Tree};
ghost use Rattle.jskw_value.specs.Types.{has_type_of};
ghost use Rattle.jskw_report.specs.Holds.{is_option};
ghost use Rattle.jskw_leaf.specs.Values.{IsRun, has_value, is_fingerprinted, is_repeat};

use super::compilation::types_of;
use super::table::{OptionTable, TableEnumValidator};
use jskw_number::QuickSet;
use jskw_value::fingerprint::of_whole;
use jskw_value::seed::seed_of;
use jskw_value::{Json, JsonTypeSet, Node, NotNullable};
use serde_json::Value;
use std::alloc::{AllocError, Global};

/// An option with its fingerprint.
#[derive(Debug, Drop)]
pub struct FingerprintedValue {
    fingerprint: u64,
    value: Value,
}

/// A table of more than 8 options of any types, null included, sorted by their fingerprints. Equal
/// options are there once, since an instance of their fingerprint is compared with each. The seed of
/// the fingerprints comes from the whole list. A lookup takes the fingerprint of the
/// instance, a binary search, and a comparison with each option of that fingerprint: in most cases
/// one or none.
#[derive(Debug, Drop)]
pub struct SortedValues {
    types: JsonTypeSet,
    seed: u64,
    options: Vec<FingerprintedValue>,
    ghost typed: { (t : Tree) → has_type_of types t ≡ false
        → has_value options.items t ≡ false },
    ghost fingerprinted: { list_all (is_fingerprinted seed) options.items ≡ true },
    ghost sorted: { IsNonDecreasingBy (λ o. o.fingerprint) options.items },
}

/// The validator of more than 8 options of any types. An instance whose type no option has is not
/// looked up.
pub type BigEnumValidator = TableEnumValidator<SortedValues, NotNullable>;

impl OptionTable for SortedValues {
    ghost takes = { λ _. true };

    ghost leaves_out_null = { λ _. false };

    ghost has = { λ table. has_value table.options.items };

    fn takes(_value: &Value) -> bool {
        true
    }

    fn new(alloc: Global, options: &Value, items: &[Value]) -> Result<SortedValues, AllocError> {
        let seed = seed_of(options);
        let mut sorted = fingerprinted(alloc, items, seed)?;
        sorted.sort_unstable_by_key(|option| option.fingerprint);
        sorted.dedup_by(|option, last| is_repeat(option, last));
        Ok(SortedValues {
            types: types_of(items),
            seed,
            options: sorted,
        })
    }

    fn quick_set(&self) -> QuickSet {
        QuickSet::none()
    }

    fn has<F: Json>(&self, instance: &F::Node) -> bool {
        self.types.contains_value_type::<F>(instance)
            && is_among::<F>(&self.options, self.seed, instance)
    }
}

// Returns the items with their fingerprints under the seed.
fn fingerprinted(
    alloc: Global,
    items: &[Value],
    seed: u64,
) -> Result<Vec<FingerprintedValue>, AllocError>
    ensures same { IfOk result (λ v. (t : Tree) → has_value v.items t
        ≡ is_option (items_view items.now) t) }
    ensures fingerprinted { IfOk result (λ v. list_all (is_fingerprinted seed) v.items ≡ true) }
{
    let mut options = Vec::new(alloc);
    for item in items {
        options.push(FingerprintedValue {
            fingerprint: of_whole(item, seed),
            value: item.clone()?,
        })?;
    }
    Ok(options)
}

// Returns whether an option is equal to the last one before it.
fn is_repeat(option: &FingerprintedValue, last: &FingerprintedValue) -> bool
    ensures { result ≡ is_repeat last.now option.now }
{
    option.fingerprint == last.fingerprint && option.value.equals_value(&last.value)
}

// Returns whether one of the options equals the instance. The options must be sorted by their
// fingerprints, which are those under the seed.
#[inline(never)]
fn is_among<F: Json>(options: &[FingerprintedValue], seed: u64, instance: &F::Node) -> bool
    requires fingerprinted { list_all (is_fingerprinted seed) options.now ≡ true }
    requires sorted { IsNonDecreasingBy (λ o. o.fingerprint) options.now }
    ensures { result ≡ has_value options.now (F.Node.tree instance.now) }
{
    let fingerprint = of_whole(instance, seed);
    let start = options.partition_point(|option| option.fingerprint < fingerprint);
    starts_with_equal::<F>(&options[start..], fingerprint, instance)
}

// Returns whether one of the options equals the instance. The options with this fingerprint must
// come first, and no other may equal the instance.
fn starts_with_equal<F: Json>(
    options: &[FingerprintedValue],
    fingerprint: u64,
    instance: &F::Node,
) -> bool
    requires { IsRun fingerprint (F.Node.tree instance.now) options.now }
    ensures { result ≡ has_value options.now (F.Node.tree instance.now) }
{
    for option in options {
        if option.fingerprint != fingerprint {
            return false;
        }
        if instance.equals_value(&option.value) {
            return true;
        }
    }
    false
}
