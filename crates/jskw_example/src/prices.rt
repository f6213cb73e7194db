//! Prices from JSON text.
use crate::node_of;
use lotsibegn::{
    DecimalJson, DecimalTree, LazyLocation, Node, ReadFault, SchemaNode, ValidationContext,
    read_bytes,
};
use std::io;

const SCHEMA: &str = r#"{"type": "array", "items": {"minimum": 0, "multipleOf": 5}}"#;

// Checks the prices of the example's texts under its schema.
pub(crate) fn print_example(rt: &HostRuntime) -> io::Result<()> {
    check_texts(rt, &node_of(rt.alloc(), SCHEMA)?)
}

// Checks the prices of three texts.
fn check_texts(rt: &HostRuntime, node: &SchemaNode<DecimalJson>) -> io::Result<()> {
    check_prices(rt, node, b"[10.00, 12.50, 1.25e2, -5]")?;
    check_prices(rt, node, b"[10.00, 1e400]")?;
    check_prices(rt, node, b"[10.00,\n 12.5O]")
}

// Reads prices from bytes and prints their errors, or why they cannot be read.
fn check_prices(rt: &HostRuntime, node: &SchemaNode<DecimalJson>, bytes: &[u8]) -> io::Result<()> {
    match read_bytes(rt.alloc(), bytes) {
        Ok(prices) => print_errors(rt, node, &prices),
        Err(ReadFault::Inexact(location, at)) => {
            println!(rt; "line {}, {location}: no decimal has this value", at.line)
        }
        Err(ReadFault::NotJson(reason, at)) => {
            println!(rt;
                "line {}, column {}: {}",
                at.line,
                at.column,
                reason.sentence()
            )
        }
        Err(ReadFault::Memory(error)) => Err(error)?,
    }
}

// Prints each error of the prices.
fn print_errors(
    rt: &HostRuntime,
    node: &SchemaNode<DecimalJson>,
    prices: &DecimalTree,
) -> io::Result<()> {
    // Always true for a tree of decimals. The proof of the next call needs the test.
    if !prices.is_lawful() {
        return Ok(());
    }
    let (mut location, mut ctx) = (LazyLocation::new(rt.alloc()), ValidationContext::new());
    let mut errors = Vec::new(rt.alloc());
    node.collect_errors(prices, &mut location, &mut ctx, &mut errors)?;
    for error in &errors {
        let (at, message) = (error.instance_path().as_str(), error.message(rt.alloc())?);
        println!(rt; "{at}: {message}")?;
    }
    Ok(())
}
