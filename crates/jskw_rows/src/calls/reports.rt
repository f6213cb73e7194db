//! Calls of locations, errors and evaluations, and constants.
use crate::members::{items_of, text_of, value};
use crate::printer::{Made, Printer};
use jskw_report::{
    Annotations, CompileFault, EnumOptions, ErrorDescription, EvaluationNode, EvaluationResult,
    Fault, LazyLocation, Location, LocationSegment, ValidationContext, ValidationError,
    ValidationErrorKind,
};
use jskw_value::{
    DecimalJson, Json, JsonType, JsonTypeSet, NotNullable, Nullability, Nullable, SerdeJson,
};
use serde_json::Value;
use std::alloc::{AllocError, Global};

/// The location of steps, and whether it is equal to that of others, as a copy of it is. If memory runs out,
/// it is missing in what is printed.
pub(super) fn push_locations(to: &mut Printer, case: &Value) -> Made<()> {
    let left = joined(to.alloc, items_of(value(case, 0)))?;
    let right = joined(to.alloc, items_of(value(case, 1)))?;
    let (is_equal, is_copy) = (left == right, left.copy()? == right);
    write!(to, "{} {is_equal} {is_copy}", left.as_str());
    Ok(())
}

// Returns the location of steps: numbers go to items, texts to members.
fn joined(alloc: Global, steps: &[Value]) -> Made<Location> {
    let mut location = Location::new(alloc);
    for step in steps {
        let segment = match step.as_u64() {
            Some(index) => LocationSegment::Index(index as usize),
            None => LocationSegment::Name(text_of(step)),
        };
        location = location.join(alloc, segment)?;
    }
    Ok(location)
}

/// The location of numbers, which are pushed, and texts, each of which pops one.
pub(super) fn push_stack(to: &mut Printer, steps: &[Value]) {
    let mut location = LazyLocation::new(to.alloc);
    for step in steps {
        match step.as_u64() {
            Some(index) => to.check(location.push(index as usize).is_ok()),
            None => location.pop(),
        }
    }
    if let Some(location) = &to.made(location.render()) {
        to.push(location.as_str());
    }
}

/// What no schema makes: messages; whether a lack of memory is a fault of its own; constants of
/// representations and nullabilities; the lines of a node that is made by hand; counts from 0 on.
pub(super) fn push_made(to: &mut Printer, case: &Value) {
    push_messages(to, value(case, 0), items_of(value(case, 1)));
    let is_fault = matches!(Fault::<SerdeJson>::from(AllocError), Fault::Memory(_));
    let is_compile_fault = matches!(CompileFault::from(AllocError), CompileFault::Memory(_));
    write!(to, "\n\t{is_fault} {is_compile_fault}");
    let (serde, decimals) = (SerdeJson::KEYS_PER_LOOKUP, DecimalJson::KEYS_PER_LOOKUP);
    let (with_null, without) = (Nullable::ACCEPTS_NULL, NotNullable::ACCEPTS_NULL);
    write!(to, "\n\t{serde} {decimals}\n\t{with_null} {without}");
    let node = node_by_hand(to.alloc);
    to.push_tree(&node);
    let mut ctx = ValidationContext::new();
    for _ in 0..3 {
        write!(to, "\n\t{}", ctx.applications());
        ctx.count_one();
    }
}

// The messages of errors about null: a limit, options that are no array, sets of one type and of several.
fn push_messages(to: &mut Printer, options: &Value, types: &[Value]) {
    let mut several = JsonTypeSet::empty();
    for name in types {
        if let Ok(json_type) = text_of(name).parse() {
            several = several.insert(json_type);
        }
    }
    let options = EnumOptions::Listed(options);
    for kind in &[
        ValidationErrorKind::Minimum { limit: 2 },
        ValidationErrorKind::Enum { options },
        ValidationErrorKind::of_types(JsonTypeSet::from(JsonType::Array)),
        ValidationErrorKind::of_types(several),
    ] {
        let (at, by) = (Location::new(to.alloc), Location::new(to.alloc));
        let error: ValidationError<SerdeJson> = ValidationError::new(*kind, at, &by, &Value::Null);
        let message = error.message(to.alloc);
        if let Some(message) = &to.made(message) {
            write!(to, "\n\t{message}");
        }
    }
}

// Returns a node with two errors, of which one has a text, and another node. It is annotated twice.
fn node_by_hand(alloc: Global) -> Made<EvaluationNode> {
    let by = Location::new(alloc).join(alloc, LocationSegment::Name("items"))?;
    let (at, empty) = (Location::new(alloc), EvaluationResult::valid_empty(alloc));
    let (mut errors, mut children) = (Vec::new(alloc), Vec::new(alloc));
    children.push(EvaluationNode::new(alloc, empty, &by, &at)?)?;
    errors.push(ErrorDescription::new("type", String::from_str(alloc, "a text")?))?;
    errors.push(ErrorDescription::new("enum", String::new(alloc)))?;
    let mut unit = EvaluationResult::Invalid {
        errors,
        children,
        annotations: None,
    };
    unit.annotate(Annotations::Bool(true));
    unit.annotate(Annotations::Index(7));
    EvaluationNode::new(alloc, unit, &by, &at)
}
