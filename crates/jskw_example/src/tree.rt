//! An evaluation tree.

use crate::{node_of, value_of};
use lotsibegn::{
    Annotations, EvaluationNode, Node, SchemaNode, SerdeJson, ValidationContext, Value,
};
use std::io;

const SCHEMA: &str = r#"{"contains": {"minimum": 10}, "minContains": 1, "maxContains": 2}"#;

// Prints the tree of `[5, 10, 25]` under a `contains` with bounds.
pub(crate) fn print_example(rt: &HostRuntime) -> io::Result<()> {
    print_tree(rt, 0, &evaluated(rt, SCHEMA, "[5, 10, 25]")?)
}

// Returns the tree of an instance without floats under a schema.
pub(crate) fn evaluated(
    rt: &HostRuntime,
    schema: &str,
    instance: &str,
) -> io::Result<EvaluationNode> {
    let instance = value_of(rt.alloc(), instance)?;
    evaluated_by(rt, &node_of(rt.alloc(), schema)?, &instance)
}

fn evaluated_by(
    rt: &HostRuntime,
    node: &SchemaNode<SerdeJson>,
    instance: &Value,
) -> io::Result<EvaluationNode> {
    if !instance.is_lawful() {
        return Err(io::ErrorKind::InvalidData)?;
    }
    Ok(node.evaluate_instance(rt.alloc(), instance, &mut ValidationContext::new())?)
}

// Prints a node and those below it, each indented by its depth.
fn print_tree(rt: &HostRuntime, depth: u64, node: &EvaluationNode) -> io::Result<()> {
    print_node(rt, depth, node)?;
    for child in node.children() {
        print_tree(rt, depth.saturating_add(1), child)?;
    }
    Ok(())
}

// Prints a node by itself: whether it is valid, both locations, annotation and errors.
fn print_node(rt: &HostRuntime, depth: u64, node: &EvaluationNode) -> io::Result<()> {
    for _ in 0..depth {
        print!(rt; "  ")?;
    }
    print_unit(rt, node)?;
    if let Some(annotations) = node.annotations() {
        print_annotations(rt, annotations)?;
    }
    for error in node.errors() {
        print!(rt; ", {}", error.message())?;
    }
    println!(rt; "")
}

// Prints whether a node is valid, and both locations.
fn print_unit(rt: &HostRuntime, node: &EvaluationNode) -> io::Result<()> {
    let word = if node.valid() { "valid" } else { "invalid" };
    let (at, by) = (
        node.instance_location().as_str(),
        node.schema_location().as_str(),
    );
    print!(rt; "{word}: instance \"{at}\", schema \"{by}\"")
}

// Prints the annotation of a node.
fn print_annotations(rt: &HostRuntime, annotations: &Annotations) -> io::Result<()> {
    match annotations {
        Annotations::Bool(flag) => print!(rt; ", annotation {flag}"),
        Annotations::Index(index) => print!(rt; ", annotation {index}"),
        Annotations::Indices(indices) => print!(rt; ", annotation {indices:?}"),
    }
}
