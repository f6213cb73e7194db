//! Times calls other than a compile and the observers.
use crate::observers::{accepts_tree, compiled};
use crate::timing::{Instance, Timing, fastest, instances, time_test};
use jskw_array::SchemaNode;
use jskw_report::{
    Context, Draft, Fault, LazyLocation, Settings, ValidationContext, VocabularySet,
};
use jskw_text::read_bytes;
use jskw_unchecked::unchecked;
use jskw_value::{DecimalJson, DecimalTree, Member, Members, Node, SerdeJson};
use serde_json::Value;
use std::alloc::{AllocError, Global};
use std::io;

/// A call.
#[derive(Clone, Copy)]
pub(crate) enum Call {
    Read,
    ReadBytes,
    Ask,
    AskDecimals,
    FirstUnlawful,
    Message,
    Insert,
    FromPairs,
    FromValue,
    Settings,
    Unchecked,
}

impl Call {
    /// Returns the call of this name. No schema is written like one.
    pub(crate) fn named(name: &str) -> Option<Call> {
        match name {
            "read" => Some(Call::Read),
            "read_bytes" => Some(Call::ReadBytes),
            "ask" => Some(Call::Ask),
            "ask_decimals" => Some(Call::AskDecimals),
            "first_unlawful" => Some(Call::FirstUnlawful),
            "message" => Some(Call::Message),
            "insert" => Some(Call::Insert),
            "from_pairs" => Some(Call::FromPairs),
            "from_value" => Some(Call::FromValue),
            "settings" => Some(Call::Settings),
            "unchecked" => Some(Call::Unchecked),
            _ => None,
        }
    }
}

/// Times a call on a text. Returns `None` if the call does not take the text.
pub(crate) fn time_call(
    rt: &HostRuntime,
    span: u128,
    call: Call,
    text: &str,
) -> io::Result<Option<Timing>> {
    let alloc = rt.alloc();
    match call {
        Call::Read => time(rt, span, || Value::from_str(alloc, text).is_ok()),
        Call::ReadBytes => time(rt, span, || read_bytes(alloc, text.as_bytes()).is_ok()),
        Call::Message => time_message(rt, span, text),
        _ => match Value::from_str(alloc, text) {
            Ok(value) => time_on(rt, span, call, &value),
            Err(_) => Ok(None),
        },
    }
}

// Times a call on a value.
fn time_on(rt: &HostRuntime, span: u128, call: Call, value: &Value) -> io::Result<Option<Timing>> {
    if takes(call, value) {
        time(rt, span, || succeeds(rt.alloc(), call, value))
    } else {
        Ok(None)
    }
}

// Returns whether a call takes a value.
fn takes(call: Call, value: &Value) -> bool {
    match call {
        Call::FirstUnlawful | Call::FromValue | Call::Unchecked => true,
        Call::Insert | Call::FromPairs | Call::Settings => value.is_array(),
        _ => false,
    }
}

// Makes a call on a value, and returns whether it succeeds.
fn succeeds(alloc: Global, call: Call, value: &Value) -> bool {
    match call {
        Call::FirstUnlawful => has_no_float(alloc, value),
        Call::FromValue => has_decimals(alloc, value),
        Call::Unchecked => lists_unchecked(alloc, value),
        Call::Insert => inserts_all(alloc, items_of(value)),
        Call::FromPairs => takes_pairs(alloc, items_of(value)),
        Call::Settings => settings_of(alloc, Draft::Draft202012, items_of(value)).is_ok(),
        _ => false,
    }
}

// Returns the items of an array; none of another value.
fn items_of(value: &Value) -> &[Value] {
    match value {
        Value::Array(items) => items.as_slice(),
        _ => &[],
    }
}

/// Returns the settings of a draft with all vocabularies. The strings among `names` are overridden.
pub(crate) fn settings_of(
    alloc: Global,
    draft: Draft,
    names: &[Value],
) -> Result<Settings, AllocError> {
    let mut overridden = Vec::new(alloc);
    for name in names {
        if let Some(name) = name.as_str() {
            overridden.push(String::from_str(alloc, name)?)?;
        }
    }
    Ok(Settings::new(draft, VocabularySet::all(), overridden))
}

/// Times reading a text and asking a schema whether it is valid: as a value of `serde_json` by the
/// call `ask`, as a tree of decimals by `ask_decimals`. A text that is not read is not valid, nor is
/// one with a float for `serde_json`. Returns `None` for another call, or if there is no such schema.
pub(crate) fn time_asking(
    rt: &HostRuntime,
    span: u128,
    settings: &Settings,
    call: Call,
    text: &str,
    schema: &str,
) -> io::Result<Option<Timing>> {
    let alloc = rt.alloc();
    let Ok(schema) = Value::from_str(alloc, schema) else {
        return Ok(None);
    };
    match call {
        Call::Ask => match &compiled(alloc, settings, &schema) {
            Some(node) => time(rt, span, || accepts_text(alloc, node, text)),
            None => Ok(None),
        },
        Call::AskDecimals => match &compiled(alloc, settings, &schema) {
            Some(node) => time(rt, span, || accepts_bytes(alloc, node, text.as_bytes())),
            None => Ok(None),
        },
        _ => Ok(None),
    }
}

// Reads a text as a value of `serde_json`, and returns whether it is valid.
fn accepts_text(alloc: Global, node: &SchemaNode<SerdeJson>, text: &str) -> bool {
    match Value::from_str(alloc, text) {
        Ok(value) => value.is_lawful() && node.is_valid(&value, &mut ValidationContext::new()),
        Err(_) => false,
    }
}

// Reads bytes as a tree of decimals, and returns whether it is valid.
fn accepts_bytes(alloc: Global, node: &SchemaNode<DecimalJson>, bytes: &[u8]) -> bool {
    match read_bytes(alloc, bytes) {
        Ok(tree) => accepts_tree(node, &tree),
        Err(_) => false,
    }
}

// Times a call.
fn time<F: Fn() -> bool>(rt: &HostRuntime, span: u128, call: F) -> io::Result<Option<Timing>>
    requires { F.IsAlwaysCallable call }
{
    Ok(Some(fastest(rt, span, 1, |calls| count_accepted(calls, &call))?))
}

// Makes `calls` calls, and returns how many return true.
fn count_accepted<F: Fn() -> bool>(calls: usize, call: &F) -> usize
    requires { F.IsAlwaysCallable call.now }
{
    let mut count = 0usize;
    for _ in 0..calls {
        if call() {
            count = count.wrapping_add(1);
        }
    }
    count
}

// Returns whether no float is found in the value.
fn has_no_float(alloc: Global, value: &Value) -> bool {
    matches!(value.first_unlawful(alloc), Ok(None))
}

// Returns whether there is memory to list what is not checked of a schema.
fn lists_unchecked(alloc: Global, schema: &Value) -> bool {
    let settings = Settings::new(Draft::Draft202012, VocabularySet::all(), Vec::new(alloc));
    let ctx: Context<SerdeJson> = Context::new(alloc, &settings);
    unchecked(alloc, &ctx, schema).is_ok()
}

// Times an error of the text's value under the schema `false`, and its message, which has the value.
fn time_message(rt: &HostRuntime, span: u128, text: &str) -> io::Result<Option<Timing>> {
    let alloc = rt.alloc();
    match instances(alloc, text)? {
        Some(instances) => time_first_error(rt, span, &instances, false_schema(alloc)),
        None => Ok(None),
    }
}

// Returns the schema `false`, if there is memory.
fn false_schema(alloc: Global) -> Option<SchemaNode<SerdeJson>> {
    let settings = Settings::new(Draft::Draft202012, VocabularySet::all(), Vec::new(alloc));
    compiled(alloc, &settings, &Value::Bool(false))
}

// Times the first error of the instances under a schema, if that was compiled, and its message.
fn time_first_error(
    rt: &HostRuntime,
    span: u128,
    instances: &[Instance],
    node: Option<SchemaNode<SerdeJson>>,
) -> io::Result<Option<Timing>> {
    match &node {
        Some(node) => Ok(Some(time_test(
            rt,
            span,
            instances,
            |i| has_message(rt.alloc(), node, i),
        )?)),
        None => Ok(None),
    }
}

// Returns whether the first error of an instance has a message.
fn has_message(alloc: Global, node: &SchemaNode<SerdeJson>, instance: &Instance) -> bool {
    let mut location = LazyLocation::new(alloc);
    let mut ctx = ValidationContext::new();
    match node.validate(&instance.value, &mut location, &mut ctx) {
        Err(Fault::Invalid(error)) => error.message(alloc).is_ok(),
        _ => false,
    }
}

// Returns whether a tree of decimals can be made of the value.
fn has_decimals(alloc: Global, value: &Value) -> bool {
    matches!(DecimalTree::from_value(alloc, value), Ok(Some(_)))
}

// Inserts a member of each name, one by one. Returns whether all could be inserted.
fn inserts_all(alloc: Global, names: &[Value]) -> bool {
    let mut members = Members::new(alloc);
    for name in names {
        if !inserts(alloc, &mut members, name) {
            return false;
        }
    }
    true
}

// Inserts a member. Returns whether its name is a text and there is memory.
fn inserts(alloc: Global, members: &mut Members, name: &Value) -> bool {
    match name_of(alloc, name) {
        Some(name) => members.insert(name, DecimalTree::Null).is_ok(),
        None => false,
    }
}

// Returns a copy of a text, if the value is one and there is memory.
fn name_of(alloc: Global, value: &Value) -> Option<String> {
    match value {
        Value::String(name) => String::from_str(alloc, name.as_str()).ok(),
        _ => None,
    }
}

// Makes the members of these names at once. Returns whether this succeeds.
fn takes_pairs(alloc: Global, names: &[Value]) -> bool {
    match pairs_of(alloc, names) {
        Some(pairs) => Members::from_pairs(pairs).is_ok(),
        None => false,
    }
}

// Returns a pair for each of these names, if all are texts and there is memory.
fn pairs_of(alloc: Global, names: &[Value]) -> Option<Vec<Member<DecimalTree>>> {
    let mut pairs = Vec::new(alloc);
    for name in names {
        let pair = Member {
            name: name_of(alloc, name)?,
            value: DecimalTree::Null,
        };
        pairs.push(pair).ok()?;
    }
    Some(pairs)
}
