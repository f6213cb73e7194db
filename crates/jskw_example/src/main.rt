//! Checks the JSON value in each line of standard input against a schema and prints its errors.
//! Then it prints an evaluation tree, the first error of a value with decimals, the errors of prices
//! that are read from text, what a shop asks of its orders, and what a schema says that is not
//! checked.
#![tactic(auto)]

mod contracts;
mod coverage;
mod decimals;
mod orders;
mod prices;
mod tree;

use contracts::verdict;
use lotsibegn::{
    CompilationResult, CompileFault, Context, Draft, Json, LazyLocation, Node, SchemaNode,
    SerdeJson, Settings, ValidationContext, Value, VocabularySet, compile,
};
use std::alloc::Global;
use std::io;

// Compiles a schema of Draft 2020-12. No other code checks the keywords of objects.
fn compiled<F: Json>(alloc: Global, schema: &Value) -> CompilationResult<'_, SchemaNode<F>> {
    let settings = Settings::new(Draft::Draft202012, VocabularySet::all(), Vec::new(alloc));
    let ctx = Context::new(alloc, &settings).with_object_layer(false);
    compile(alloc, &ctx, schema)
}

// Prints each error of an instance: keyword, message, and both locations.
fn print_errors(
    rt: &HostRuntime,
    node: &SchemaNode<SerdeJson>,
    instance: &Value,
) -> io::Result<()> {
    if !instance.is_lawful() {
        return println!(rt; "not checked: it holds a float");
    }
    let mut location = LazyLocation::new(rt.alloc());
    let mut ctx = ValidationContext::new();
    let mut errors = Vec::new(rt.alloc());
    node.collect_errors(instance, &mut location, &mut ctx, &mut errors)?;
    for error in &errors {
        let (keyword, message) = (error.kind().keyword(), error.message(rt.alloc())?);
        let (at, by) = (error.instance_path().as_str(), error.schema_path().as_str());
        println!(rt; "{keyword}: {message} (instance {at}, schema {by})")?;
    }
    Ok(())
}

// Checks each line of standard input.
fn check_lines(rt: &HostRuntime, node: &SchemaNode<SerdeJson>) -> io::Result<()> {
    for line in rt.lines(rt.alloc()) {
        check_line(rt, node, line?.as_str())?;
    }
    Ok(())
}

// Checks the instance of a line.
fn check_line(rt: &HostRuntime, node: &SchemaNode<SerdeJson>, line: &str) -> io::Result<()> {
    match Value::from_str(rt.alloc(), line) {
        Ok(instance) => check_instance(rt, node, &instance),
        Err(_) => println!(rt; "not checked: it is not JSON"),
    }
}

// Checks an instance.
fn check_instance(
    rt: &HostRuntime,
    node: &SchemaNode<SerdeJson>,
    instance: &Value,
) -> io::Result<()> {
    if verdict(node, instance) == Some(true) {
        println!(rt; "valid")
    } else {
        print_errors(rt, node, instance)
    }
}

const SCHEMA: &str = r#"{"type": "array", "items": {"type": "object", "required": ["name"]}}"#;

// Parses a text that is JSON.
fn value_of(alloc: Global, text: &str) -> io::Result<Value> {
    match Value::from_str(alloc, text) {
        Ok(value) => Ok(value),
        Err(_) => Err(io::ErrorKind::InvalidData)?,
    }
}

// Compiles the text of a schema that is not refused.
fn node_of<F: Json>(alloc: Global, text: &str) -> io::Result<SchemaNode<F>> {
    match compiled(alloc, &value_of(alloc, text)?) {
        Ok(node) => Ok(node),
        Err(CompileFault::Bad(_)) => Err(io::ErrorKind::InvalidData)?,
        Err(CompileFault::Memory(error)) => Err(error)?,
    }
}

fn main(rt: HostRuntime) -> io::Result<()> {
    check_lines(&rt, &node_of(rt.alloc(), SCHEMA)?)?;
    tree::print_example(&rt)?;
    decimals::print_example(&rt)?;
    prices::print_example(&rt)?;
    orders::print_example(&rt)?;
    coverage::print_example(&rt)
}
