//! What a shop asks of its orders.
use crate::contracts::verdict;
use crate::decimals::print_prices;
use crate::tree::evaluated;
use crate::{compiled, node_of, value_of};
use lotsibegn::{
    Annotations, CompileFault, EvaluationNode, Fault, LazyLocation, Node, SchemaNode, SerdeJson,
    ValidationContext, ValidationError, ValidationErrorKind, Value,
};
use std::alloc::{AllocError, Global};
use std::io;

const ORDER: &str = r#"{
    "type": "array",
    "minItems": 1,
    "items": {"type": "object", "required": ["name", "count"], "maxProperties": 3}
}"#;

const ORDERS: [&str; 4] = [
    r#"[{"name": "pen", "count": 2}]"#,
    "[]",
    r#"[{"name": "pen"}, 7]"#,
    r#"[{"name": "pen", "count": 2.5}]"#,
];

const LARGE_COUNTS: &str = r#"{"contains": {"minimum": 100}, "minContains": 2}"#;

const BAD_SCHEMA: &str = r#"{"items": {"minItems": -1}}"#;

// Checks orders and prices, and prints which counts are large and why a schema does not compile.
pub(crate) fn print_example(rt: &HostRuntime) -> io::Result<()> {
    check_orders(rt, &node_of(rt.alloc(), ORDER)?)?;
    print_matches(rt, &evaluated(rt, LARGE_COUNTS, "[5, 100, 250]")?)?;
    print_prices(rt)?;
    print_refusal(rt, &value_of(rt.alloc(), BAD_SCHEMA)?)
}

fn check_orders(rt: &HostRuntime, schema: &SchemaNode<SerdeJson>) -> io::Result<()> {
    for order in ORDERS {
        check_order(rt, schema, &value_of(rt.alloc(), order)?)?;
    }
    Ok(())
}

fn check_order(rt: &HostRuntime, schema: &SchemaNode<SerdeJson>, order: &Value) -> io::Result<()> {
    if verdict(schema, order) == Some(true) {
        println!(rt; "valid")
    } else {
        print_errors(rt, schema, order)
    }
}

// Prints the first error of an order, and then all of them with their locations.
fn print_errors(rt: &HostRuntime, schema: &SchemaNode<SerdeJson>, order: &Value) -> io::Result<()> {
    if !order.is_lawful() {
        return println!(rt; "it holds a float");
    }
    let (mut location, mut ctx) = (LazyLocation::new(rt.alloc()), ValidationContext::new());
    print_first(rt, schema.validate(order, &mut location, &mut ctx))?;
    let mut errors = Vec::new(rt.alloc());
    schema.collect_errors(order, &mut location, &mut ctx, &mut errors)?;
    for error in &errors {
        print_error(rt, error)?;
    }
    Ok(())
}

// Prints the first error of an order, if it has one.
fn print_first(rt: &HostRuntime, checked: Result<(), Fault<'_, SerdeJson>>) -> io::Result<()> {
    match checked {
        Ok(()) => println!(rt; "no error"),
        Err(Fault::Invalid(error)) => println!(rt; "first: {}", error.message(rt.alloc())?),
        Err(Fault::Memory(error)) => Err(error)?,
    }
}

// Prints an error with its locations.
fn print_error(rt: &HostRuntime, error: &ValidationError<SerdeJson>) -> io::Result<()> {
    let (at, by) = (error.instance_path().as_str(), error.schema_path().as_str());
    println!(rt; "  {at} {} ({by})", text_of(rt.alloc(), error)?)
}

// Returns what the shop says of an error.
fn text_of(alloc: Global, error: &ValidationError<SerdeJson>) -> Result<String, AllocError> {
    match error.kind() {
        ValidationErrorKind::Required { property } => { format!(in alloc; "{property} is missing") }
        ValidationErrorKind::MinItems { limit } => {
            format!(in alloc; "needs {limit} or more items")
        }
        _ => error.message(alloc),
    }
}

// Prints why a schema does not compile.
fn print_refusal(rt: &HostRuntime, schema: &Value) -> io::Result<()> {
    match compiled::<SerdeJson>(rt.alloc(), schema) {
        Ok(_) => println!(rt; "the schema compiles"),
        Err(CompileFault::Bad(error)) => {
            let (by, message) = (error.schema_path().as_str(), error.message(rt.alloc())?);
            println!(rt; "refused schema: {by} {message}")
        }
        Err(CompileFault::Memory(error)) => Err(error)?,
    }
}

// Prints the indices of the items that match `contains`.
fn print_matches(rt: &HostRuntime, tree: &EvaluationNode) -> io::Result<()> {
    for child in tree.children() {
        if let Some(Annotations::Indices(indices)) = child.annotations() {
            for index in indices {
                println!(rt; "item {index} matches")?;
            }
        }
    }
    Ok(())
}
