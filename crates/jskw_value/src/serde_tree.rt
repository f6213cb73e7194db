//! The values of `serde_json` as nodes. To get a member by its place takes time in proportion to
//! the place; a walk takes constant time for each member.
ghost use Rattle.std.specs.Prelude.{◌≡◌, ◌<◌, ◌≤◌, length, take, true, string_bytes, slice_index_or};
ghost use Rattle.std.specs.List.{list_all};
ghost use Rattle.std.specs.BTreeMap.{btree_map_len, keys, values};
ghost use Rattle.jskw_value.specs.Serde.{value_tree, number_num};
ghost use Rattle.jskw_value.specs.Tree.{is_lawful as lawful};

use crate::decimal::Decimal;
use crate::json::{Array, Json, JsonNumber, Node, Object, Rooted};
use crate::types::JsonType;
use crate::walk::Walk;
use serde_json::{Map, Number, Value};
use std::alloc::{AllocError, Global};

// Fewer items are looked at one by one.
const FEW_ITEMS: usize = 8;

/// The representation whose nodes are the values of `serde_json`, with its numbers. A number that
/// is neither an `i64` nor a `u64` is a float. Members are in the order of the bytes of their
/// names.
#[derive(Clone, Copy, Debug, PartialEq, Eq)]
pub struct SerdeJson;

impl Rooted for Value {
    ghost tree = { value_tree };
}

impl JsonNumber for Number {
    ghost number = { number_num };

    fn is_lawful(&self) -> bool {
        !self.is_f64()
    }

    fn decimal(&self) -> Decimal {
        match self.as_u64() {
            Some(whole) => Decimal::from(whole),
            None => Decimal::from(self.as_i64().unwrap()),
        }
    }

    fn as_u64(&self) -> Option<u64> {
        Number::as_u64(self)
    }

    fn as_i64(&self) -> Option<i64> {
        Number::as_i64(self)
    }

    fn is_integer(&self) -> bool {
        true
    }

    fn is_written_as_integer(&self) -> bool {
        true
    }
}

#[tactic(auto, using(crate::proofs::SerdeTrees::arrays))]
impl Array for Value {
    fn len(&self) -> usize {
        match self {
            Value::Array(items) => items.len(),
            _ => unreachable!(),
        }
    }

    fn item(&self, index: usize) -> &Value {
        match self {
            Value::Array(items) => &items[index],
            _ => unreachable!(),
        }
    }
}

#[tactic(auto, using(crate::proofs::SerdeTrees::objects))]
impl Object for Value {
    type PreparedKey = String;

    ghost key_name = { string_bytes };

    fn len(&self) -> usize {
        match self {
            Value::Object(members) => members.len(),
            _ => unreachable!(),
        }
    }

    fn name_at(&self, place: usize) -> &str {
        match self {
            Value::Object(members) => key_at(members, place).as_str(),
            _ => unreachable!(),
        }
    }

    fn member_at(&self, place: usize) -> &Value {
        match self {
            Value::Object(members) => value_at(members, place),
            _ => unreachable!(),
        }
    }

    fn walk(&self) -> Walk<'_, Value> {
        match self {
            Value::Object(members) => Walk::of_map(members),
            _ => unreachable!(),
        }
    }

    fn find(&self, name: &str) -> Option<&Value> {
        match self {
            Value::Object(members) => members.get(name),
            _ => unreachable!(),
        }
    }

    fn get(&self, key: &String) -> Option<&Value> {
        self.find(key.as_str())
    }
}

// Returns the key at a place of a map.
fn key_at(members: &Map<String, Value>, place: usize) -> &String
    requires { place < btree_map_len members.now }
    ensures { result.now ≡ slice_index_or (keys members.now) place result.now }
{
    members.keys().nth(place).unwrap()
}

// Returns the value at a place of a map.
fn value_at(members: &Map<String, Value>, place: usize) -> &Value
    requires { place < btree_map_len members.now }
    ensures { result.now ≡ slice_index_or (values members.now) place result.now }
{
    members.values().nth(place).unwrap()
}

#[tactic(auto, using(crate::proofs::Lawful::lawful_number))]
impl Node for Value {
    type Number = Number;

    fn json_type(&self) -> JsonType {
        match self {
            Value::Null => JsonType::Null,
            Value::Bool(_) => JsonType::Boolean,
            Value::Number(_) => JsonType::Number,
            Value::String(_) => JsonType::String,
            Value::Array(_) => JsonType::Array,
            Value::Object(_) => JsonType::Object,
        }
    }

    fn is_null(&self) -> bool {
        Value::is_null(self)
    }

    fn is_array(&self) -> bool {
        Value::is_array(self)
    }

    fn is_object(&self) -> bool {
        Value::is_object(self)
    }

    fn as_boolean(&self) -> Option<bool> {
        self.as_bool()
    }

    fn as_number(&self) -> Option<&Number> {
        Value::as_number(self)
    }

    fn as_string(&self) -> Option<&str> {
        self.as_str()
    }

    fn is_lawful(&self) -> bool {
        value_is_lawful(self)
    }
}

// Returns whether no number in the value is a float. In line, so that a loop over items looks at
// scalars without a call.
#[inline(always)]
#[cycle(lawful)]
#[tactic(auto, using(crate::proofs::SerdeTrees::lawful_by_level))]
fn value_is_lawful(value: &Value) -> bool
    ensures { result ≡ lawful (value_tree value.now) }
{
    match value {
        Value::Number(number) => JsonNumber::is_lawful(number),
        Value::Array(items) => items_are_lawful(items),
        Value::Object(members) => members_are_lawful(members),
        Value::Null | Value::Bool(_) | Value::String(_) => true,
    }
}

// Returns whether no number in an item is a float.
#[inline(never)]
#[cycle(lawful)]
fn items_are_lawful(items: &Vec<Value>) -> bool
    ensures { result ≡ list_all (λ v. lawful (value_tree v)) items.now.items }
{
    if items.len() < FEW_ITEMS {
        return are_lawful_from(items, 0);
    }
    are_lawful_from(items, behind_scalars(items))
}

// Returns the same if no item before `start` holds a float.
#[inline(always)]
#[cycle(lawful)]
fn are_lawful_from(items: &[Value], start: usize) -> bool
    requires within { start ≤ length items.now }
    requires lawful { list_all (λ v. lawful (value_tree v)) (take start items.now) ≡ true }
    ensures { result ≡ list_all (λ v. lawful (value_tree v)) items.now }
{
    for index in start..items.len() {
        if !value_is_lawful(&items[index]) {
            return false;
        }
    }
    true
}

// Returns an index before which no item holds a float. Most arrays have items of one type, so the
// first numbers are passed over, then the first scalars.
#[inline(always)]
fn behind_scalars(items: &[Value]) -> usize
    ensures within { result ≤ length items.now }
    ensures lawful { list_all (λ v. lawful (value_tree v)) (take result items.now) ≡ true }
{
    let start = behind::<false>(items, 0);
    behind::<true>(items, start)
}

// Returns an index before which no item holds a float, if none does before `start`: behind the numbers
// from there on, or with `ANY` behind the scalars, taken four a turn.
#[inline(always)]
fn behind<const ANY: bool>(items: &[Value], start: usize) -> usize
    requires within { start ≤ length items.now }
    requires lawful { list_all (λ v. lawful (value_tree v)) (take start items.now) ≡ true }
    ensures within { result ≤ length items.now }
    ensures lawful { list_all (λ v. lawful (value_tree v)) (take result items.now) ≡ true }
{
    let mut index = start;
    while items.len() - index >= 4 {
        if !is_passed::<ANY>(&items[index])
            || !is_passed::<ANY>(&items[index + 1])
            || !is_passed::<ANY>(&items[index + 2])
            || !is_passed::<ANY>(&items[index + 3])
        {
            break;
        }
        index += 4;
    }
    index
}

// Returns whether the value is a number that is no float, or with `ANY` another scalar.
#[inline(always)]
fn is_passed<const ANY: bool>(value: &Value) -> bool
    ensures { result ≡ true → lawful (value_tree value.now) ≡ true }
{
    match value {
        Value::Number(number) => JsonNumber::is_lawful(number),
        Value::Null | Value::Bool(_) | Value::String(_) => ANY,
        Value::Array(_) | Value::Object(_) => false,
    }
}

// Returns whether no number in a member is a float.
#[inline(never)]
#[cycle(lawful)]
fn members_are_lawful(members: &Map<String, Value>) -> bool
    ensures { result ≡ list_all (λ v. lawful (value_tree v)) (values members.now) }
{
    for member in members.values() {
        if !value_is_lawful(member) {
            return false;
        }
    }
    true
}

impl Json for SerdeJson {
    type Node = Value;

    const KEYS_PER_LOOKUP: usize = 2;

    fn prepare_key(alloc: Global, name: &str) -> Result<String, AllocError> {
        String::from_str(alloc, name)
    }
}
