//! Loops written by hand, to compare the validators with: one for each workload of
//! `bench/workloads.py`. Each tests what its schema does, on values of `serde_json`. The values
//! have no floats, so that each number is an integer.
use serde_json::{Map, Value};

// Returns whether a value is an array whose items all pass a test.
macro_rules! each_item {
    ($value:expr, $test:expr) => {{
        let Value::Array(items) = $value else {
            return false;
        };
        for item in items {
            if !$test(item) {
                return false;
            }
        }
        true
    }};
}

/// Returns whether the value is an array of integers.
pub(crate) fn integers(value: &Value) -> bool {
    each_item!(value, Value::is_number)
}

/// Returns whether the value is an array of strings.
pub(crate) fn strings(value: &Value) -> bool {
    each_item!(value, Value::is_string)
}

/// Returns whether the value is an array of integers of at least 0.
pub(crate) fn naturals(value: &Value) -> bool {
    each_item!(value, natural)
}

/// Returns whether the value is an integer of at least 0.
pub(crate) fn natural(value: &Value) -> bool {
    match value {
        Value::Number(number) => number.as_u64().is_some(),
        _ => false,
    }
}

/// Returns whether the value is an array of multiples of 5 from 0 to 100,000.
pub(crate) fn multiples(value: &Value) -> bool {
    each_item!(value, is_multiple)
}

// Returns whether the value is a multiple of 5 from 0 to 100,000.
fn is_multiple(value: &Value) -> bool {
    match value {
        Value::Number(number) => number
            .as_u64()
            .is_some_and(|number| number <= 100_000 && number % 5 == 0),
        _ => false,
    }
}

/// Returns whether the value is an array of arrays of integers.
pub(crate) fn rows(value: &Value) -> bool {
    each_item!(value, integers)
}

/// Returns whether the value is an array of arrays of arrays of integers.
pub(crate) fn layers(value: &Value) -> bool {
    each_item!(value, rows)
}

// Returns whether the value is an array of 1 to 10,000 items.
fn is_limited(value: &Value) -> bool {
    match value {
        Value::Array(items) => 1 <= items.len() && items.len() <= 10_000,
        _ => false,
    }
}

/// Returns whether the value is an array of 1 to 10,000 integers.
pub(crate) fn limited_integers(value: &Value) -> bool {
    is_limited(value) && integers(value)
}

/// Returns whether the value is an array of 1 to 10,000 arrays, of 1 to 10,000 integers of at least
/// 0 each.
pub(crate) fn limited_rows(value: &Value) -> bool {
    if !is_limited(value) {
        return false;
    }
    each_item!(value, limited_naturals)
}

// Returns whether the value is an array of 1 to 10,000 integers of at least 0.
fn limited_naturals(value: &Value) -> bool {
    is_limited(value) && naturals(value)
}

/// Returns whether the value is an array of tuples.
pub(crate) fn tuples(value: &Value) -> bool {
    each_item!(value, is_tuple)
}

// Returns whether the value is an array of an integer, a string and a boolean, or a beginning of
// one.
fn is_tuple(value: &Value) -> bool {
    let Value::Array(parts) = value else {
        return false;
    };
    match parts.as_slice() {
        [] => true,
        [number] => number.is_number(),
        [number, string] => number.is_number() && string.is_string(),
        [number, string, boolean] => {
            number.is_number() && string.is_string() && boolean.is_boolean()
        }
        _ => false,
    }
}

/// Returns whether the value is an array of arrays of a string and two limited numbers.
pub(crate) fn limited_tuples(value: &Value) -> bool {
    each_item!(value, is_limited_tuple)
}

// Returns whether the value is an array of a string, an integer from 1 to 1,000 and one of at least
// 0.
fn is_limited_tuple(value: &Value) -> bool {
    let Value::Array(parts) = value else {
        return false;
    };
    match parts.as_slice() {
        [name, quantity, price] => name.is_string() && is_quantity(quantity) && natural(price),
        _ => false,
    }
}

// Returns whether the value is an integer from 1 to 1,000.
fn is_quantity(value: &Value) -> bool {
    match value {
        Value::Number(number) => number
            .as_u64()
            .is_some_and(|number| 1 <= number && number <= 1_000),
        _ => false,
    }
}

/// Returns whether the value is an array of objects with the members `id`, `name` and `email`.
pub(crate) fn objects(value: &Value) -> bool {
    each_item!(value, has_names)
}

// Returns whether the value is an object with the members `id`, `name` and `email`.
fn has_names(value: &Value) -> bool {
    match value {
        Value::Object(members) => count_names(members) == 3,
        _ => false,
    }
}

// Returns how many of these three are among the names. A map has each name once.
fn count_names(members: &Map<String, Value>) -> usize {
    let mut found = 0usize;
    for name in members.keys() {
        if matches!(name.as_str(), "id" | "name" | "email") {
            found = found.wrapping_add(1);
        }
    }
    found
}

/// Returns whether no two items of the array are equal; true for a non-array.
pub(crate) fn unique(value: &Value) -> bool {
    let Value::Array(items) = value else {
        return true;
    };
    for place in 0..items.len() {
        if occurs(&items[place], &items[place + 1..]) {
            return false;
        }
    }
    true
}

// Returns whether the value equals one of the others. Compares integers of at least 0 as `u64`.
fn occurs(value: &Value, others: &[Value]) -> bool {
    let Some(number) = value.as_u64() else {
        return others.contains(value);
    };
    for other in others {
        if other.as_u64() == Some(number) {
            return true;
        }
    }
    false
}

/// Returns whether the value is an array of orders: arrays of a number, a status, 1 to 10,000 lines
/// and different tags.
pub(crate) fn orders(value: &Value) -> bool {
    each_item!(value, is_order)
}

// Returns whether the value is an order.
fn is_order(value: &Value) -> bool {
    let Value::Array(parts) = value else {
        return false;
    };
    match parts.as_slice() {
        [number, status, lines, tags] => {
            natural(number)
                && is_status(status)
                && is_limited(lines)
                && limited_tuples(lines)
                && strings(tags)
                && unique(tags)
        }
        _ => false,
    }
}

// Returns whether the value is the status of an order.
fn is_status(value: &Value) -> bool {
    match value {
        Value::String(text) => matches!(text.as_str(), "open" | "paid" | "sent" | "returned"),
        _ => false,
    }
}
