//! What the arguments of calls say, and representations of trees of decimals. An argument of another kind is
//! read as if it were empty.
use crate::printer::{Made, Printer};
use jskw_text::read_bytes;
use jskw_value::{DecimalJson, DecimalTree, Json};
use serde_json::{Map, Value};
use std::alloc::Global;

/// The members of an object.
pub(crate) type Members = Map<String, Value>;

/// The text that a value is; empty if it is none.
pub(crate) fn text_of(value: &Value) -> &str {
    value.as_str().unwrap_or("")
}

/// The items of an array; none of another value.
pub(crate) fn items_of(value: &Value) -> &[Value] {
    match value {
        Value::Array(items) => items.as_slice(),
        _ => &[],
    }
}

/// An argument of a call; all of them if there is none at the place.
pub(crate) fn value(case: &Value, index: usize) -> &Value {
    case.get(index).unwrap_or(case)
}

/// The tree of a text; null if there is none.
pub(crate) fn tree_of(alloc: Global, value: &Value) -> DecimalTree {
    read_bytes(alloc, text_of(value).as_bytes()).unwrap_or(DecimalTree::Null)
}

/// Returns the bytes of texts and of numbers below 256.
pub(crate) fn bytes_of(to: &mut Printer, parts: &[Value]) -> Vec<u8> {
    let mut bytes = Vec::new(to.alloc);
    for part in parts {
        let is_read = match part.as_u64() {
            Some(byte @ 0..256) => bytes.push(byte as u8).is_ok(),
            _ => bytes.extend_from_slice(text_of(part).as_bytes()).is_ok(),
        };
        to.check(is_read);
    }
    bytes
}

/// Trees of decimals of which `N` members are visited in the time of a lookup: with 0 every
/// required name is looked up, with the greatest all names are walked for.
pub(crate) struct Keys<const N: usize>;

impl<const N: usize> Json for Keys<N> {
    type Node = DecimalTree;

    const KEYS_PER_LOOKUP: usize = N;

    fn prepare_key(alloc: Global, name: &str) -> Made<String> {
        DecimalJson::prepare_key(alloc, name)
    }
}
