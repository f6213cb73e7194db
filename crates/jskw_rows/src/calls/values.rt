//! Calls of values: their trees and texts, decimals, nodes, objects, their members, and names; and reads of bytes.
use crate::members::{bytes_of, items_of, text_of, tree_of, value};
use crate::printer::{Made, Printer};
use jskw_text::{Position, ReadFault, read_bytes};
use jskw_value::InsertFault::{Memory, Repeated};
use jskw_value::fingerprint::of_whole;
use jskw_value::laws::equal_values_have_one_fingerprint;
use jskw_value::seed::seed_of;
use jskw_value::{
    Decimal, DecimalTree, JsonNumber, KeyHead, Member, Members, Node, Object, PropertyName,
    RepeatedName, Walk,
};
use serde_json::Value;
use std::alloc::Global;

/// Asks a value for its first float, its tree of decimals and its text, which goes behind an old one.
pub(super) fn ask(to: &mut Printer, value: &Value) {
    to.announce("first_unlawful", "asked");
    let found = value.first_unlawful(to.alloc);
    to.tell(found.is_err());
    if let Ok(Some(location)) = &found {
        write!(to, "\n\t{location}");
    }
    to.announce("from_value", "asked");
    let tree = DecimalTree::from_value(to.alloc, value);
    to.tell(tree.is_err());
    if let Ok(Some(tree)) = &tree {
        to.push_node(tree);
    }
    let mut text = String::new(to.alloc);
    to.check(text.push_str("old ").is_ok());
    to.announce("write_json", "asked");
    let written = value.write_json(&mut text);
    to.tell(written.is_err());
    write!(to, "\n\t{text}");
}

/// Reads the bytes of texts and numbers, and prints their tree, or why there is none.
pub(super) fn read(to: &mut Printer, parts: &[Value], word: &str) {
    let bytes = bytes_of(to, parts);
    to.announce("read_bytes", word);
    let read = read_bytes(to.alloc, &bytes);
    to.tell(matches!(read, Err(ReadFault::Memory(_))));
    match &read {
        Ok(tree) => to.push_node(tree),
        Err(ReadFault::NotJson(reason, at)) => {
            write!(to, "\n\t{}", reason.as_str());
            push_place(to, *at);
        }
        Err(ReadFault::Inexact(location, at)) => {
            write!(to, "\n\tinexact \"{location}\"");
            push_place(to, *at);
        }
        Err(ReadFault::Memory(_)) => {}
    }
}

// Appends a place in the bytes.
fn push_place(to: &mut Printer, at: Position) {
    let (offset, line, column) = (at.offset, at.line, at.column);
    write!(to, " at {offset}, line {line}, column {column}");
}

/// The coefficient and the scale of the decimal that is made of them, if there is one.
pub(super) fn push_new(to: &mut Printer, case: &Value) {
    let scale = value(case, 1).as_u64().unwrap_or(0);
    if let (Ok(coefficient), Ok(scale)) = (text_of(value(case, 0)).parse(), scale.try_into()) {
        match Decimal::new(coefficient, scale) {
            Some(it) => write!(to, "{} {}", it.coefficient(), it.scale()),
            None => to.push("none"),
        }
    }
}

/// What a decimal says of itself, against a whole number, and of another one.
pub(super) fn push_decimal(to: &mut Printer, case: &Value) {
    let decimal = tree_of(to.alloc, value(case, 0));
    let other = tree_of(to.alloc, value(case, 2));
    if let (DecimalTree::Number(decimal), DecimalTree::Number(other)) = (decimal, other) {
        push_number(to, &decimal, value(case, 1));
        let (is_equal, equals) = (decimal.equals(&other), other.equals(&decimal.decimal()));
        write!(to, ", {is_equal} {equals}");
    }
}

fn push_number(to: &mut Printer, decimal: &Decimal, whole: &Value) {
    if decimal.is_lawful() {
        let (is_integer, is_written) = (decimal.is_integer(), decimal.is_written_as_integer());
        let (u64, i64) = (decimal.as_u64(), decimal.as_i64());
        let divisor = whole.as_u64().unwrap_or(0);
        let order = decimal.cmp_whole(whole.as_i64().map_or(i128::from(divisor), i128::from));
        write!(to, "{is_integer} {is_written} {u64:?} {i64:?}, {order:?}");
        if divisor > 0 {
            write!(to, " {}", decimal.is_multiple_of(divisor));
        }
    }
}

/// The text of a tree behind another text, and whether it is equal to a value.
pub(super) fn push_equality(to: &mut Printer, case: &Value) {
    let tree = tree_of(to.alloc, value(case, 0));
    to.push_json(&tree);
    write!(to, " {}", tree.equals_value(value(case, 1)));
}

/// The members of an object by names, and as the walks over it give them.
pub(super) fn push_object(to: &mut Printer, case: &Value) {
    let object = value(case, 0);
    if let Ok(Some(DecimalTree::Object(members))) = &DecimalTree::from_value(to.alloc, object) {
        write!(to, "{} {}", members.is_empty(), members.len());
        for name in items_of(value(case, 1)) {
            to.push(" ");
            match members.get(text_of(name)) {
                Some(member) => to.push_json(member),
                None => to.push("none"),
            }
        }
    }
    if object.is_object() {
        write!(to, " {}", Object::is_empty(object));
        push_walk(to, object.walk());
        push_walk(to, Walk::by_place(object));
    }
}

// The names that a walk gives, each followed by its member's text.
fn push_walk(to: &mut Printer, members: Walk<Value>) {
    to.push(" ");
    for (name, member) in members {
        to.push(name);
        to.push_json(member);
    }
}

/// For each name, how it stands to each: 3 if it matches it, 2 if their heads alone are equal, else 0.
pub(super) fn push_names(to: &mut Printer, names: &[Value]) {
    for name in names {
        let name = PropertyName::new(to.alloc, text_of(name));
        if let Some(name) = &to.made(name) {
            for other in names {
                let (other, own) = (text_of(other), KeyHead::of(name.as_str()));
                let (matches, head) = (name.matches(KeyHead::of(other), other), KeyHead::of(other));
                write!(to, "{}", u8::from(matches) | u8::from(head == own) << 1);
            }
        }
        to.push(" ");
    }
}

/// Whether both items of an array have one fingerprint under seeds, and whether another has another seed.
pub(super) fn push_prints(to: &mut Printer, array: &Value, other: &Value) {
    equal_values_have_one_fingerprint();
    for seed in &[0, 1, seed_of(array)] {
        let first = of_whole(value(array, 0), *seed);
        write!(to, "{} ", first == of_whole(value(array, 1), *seed));
    }
    write!(to, "{}", seed_of(array) != seed_of(other));
}

/// Appends the numbers below another one whose fingerprints are of a sixteenth of the words of a sketch.
pub(super) fn push_crowded(to: &mut Printer, most: &Value) {
    for number in 0..most.as_u64().unwrap_or(0) {
        let print = of_whole(&DecimalTree::Number(Decimal::from(number)), 0);
        if print >> 60 == 0 && (print >> 28) % 16 == 0 {
            write!(to, " {number}");
        }
    }
}

/// Makes members of pairs of a name and its place, in the way of the line.
pub(super) fn ask_members(to: &mut Printer, names: &[Value]) {
    match (to.kind, pairs_of(to.alloc, names)) {
        ("insert", Ok(pairs)) => insert(to, pairs),
        ("from_pairs", Ok(pairs)) => from_pairs(to, pairs),
        (_, Ok(pairs)) => from_last_pairs(to, pairs),
        (_, Err(_)) => to.check(false),
    }
}

// Returns pairs of a name and its place.
fn pairs_of(alloc: Global, names: &[Value]) -> Made<Vec<Member<DecimalTree>>> {
    let mut pairs = Vec::new(alloc);
    for (place, name) in names.iter().enumerate() {
        let name = String::from_str(alloc, text_of(name))?;
        let value = DecimalTree::Number(Decimal::from(place as u64));
        pairs.push(Member { name, value })?;
    }
    Ok(pairs)
}

// Inserts the last pair behind the others, and prints it and the members before and afterwards. A name
// that is there already stays, and takes no memory.
fn insert(to: &mut Printer, mut pairs: Vec<Member<DecimalTree>>) {
    let Some(Member { name, value }) = pairs.pop() else {
        return to.check(false);
    };
    to.push("\nbefore");
    push_pair(to, name.as_str(), &value);
    let mut members = Members::new(to.alloc);
    for Member { name, value } in pairs {
        // the members are printed, so that it shows if one is not there because memory ran out
        let _ = members.insert(name, value);
    }
    let mut object = DecimalTree::Object(members);
    to.push_node(&object);
    if let DecimalTree::Object(members) = &mut object {
        let is_new = members.get(&name).is_none();
        to.announce("insert", if is_new { "asked" } else { "ready" });
        let inserted = members.insert(name, value);
        to.tell(matches!(inserted, Err(Memory(_, _))));
        if let Err(Repeated(name, value) | Memory(name, value)) = &inserted {
            push_pair(to, name, value);
        }
    }
    to.push_node(&object);
}

// Makes members of the pairs, and prints them, or the pairs and the place of a name.
fn from_pairs(to: &mut Printer, pairs: Vec<Member<DecimalTree>>) {
    to.announce("from_pairs", "ready");
    let made = Members::from_pairs(pairs);
    to.tell(false);
    match made {
        Ok(members) => to.push_node(&DecimalTree::Object(members)),
        Err(RepeatedName { pairs, place }) => {
            for pair in &pairs {
                push_pair(to, pair.name.as_str(), &pair.value);
            }
            write!(to, "\n\trepeated at {place}");
        }
    }
}

// Makes members of the pairs, of one name the last. Few pairs are sorted without memory.
fn from_last_pairs(to: &mut Printer, pairs: Vec<Member<DecimalTree>>) {
    let word = if pairs.len() > 20 { "asked" } else { "ready" };
    to.announce("from_last_pairs", word);
    let made = Members::from_last_pairs(pairs);
    to.tell(made.is_err());
    if let Ok(members) = made {
        to.push_node(&DecimalTree::Object(members));
    }
}

fn push_pair(to: &mut Printer, name: &str, tree: &DecimalTree) {
    write!(to, "\n\t{name} ");
    to.push_json(tree);
}
