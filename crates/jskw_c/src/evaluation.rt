//! Evaluation trees as JSON.
ghost use Rattle.std.specs.Prelude.{◌≡◌, ◌++◌, IfOk, OnOk, false};
ghost use Rattle.jskw_report.specs.Evaluation.{annotation_at, evaluations, instance_location_at, is_valid};
ghost use Rattle.jskw_report.specs.Evaluation.{keyword_location_at, keywords_at};
ghost use Rattle.jskw_report.specs.EvaluationParts.{keywords_of};
ghost use Rattle.jskw_c.specs.Evaluated.{annotation_text};
ghost use Rattle.jskw_c.specs.Evaluated.{evaluation_text, evaluations_text, numbers_text};
ghost use Rattle.jskw_c.specs.Evaluated.{errors_text, place_text, strings_text, unit_text, verdict_text};

use crate::json_parts::{push_boolean, push_comma, push_number, push_string};
use jskw_report::{Annotations, ErrorDescription, EvaluationNode};
use jskw_service::push_bytes;
use std::alloc::{AllocError, Global};

// Returns the tree as a JSON object.
pub(crate) fn tree_text(alloc: Global, root: &EvaluationNode) -> Result<Vec<u8>, AllocError>
    ensures { IfOk result (λ text. text.items ≡ evaluation_text root.now) }
{
    let mut text = Vec::new(alloc);
    push_node(alloc, &mut text, root)?;
    Ok(text)
}

// Appends a node and those below it.
#[cycle(push)]
fn push_node(alloc: Global, text: &mut Vec<u8>, node: &EvaluationNode) -> Result<(), AllocError>
    ensures { OnOk result (text.new.items ≡ text.old.items ++ evaluation_text node.now) }
{
    push_part(alloc, text, node)?;
    push_bytes(text, b",\"details\":[")?;
    push_nodes(alloc, text, node.children())?;
    push_bytes(text, b"]}")
}

// Appends the items of an array of nodes.
#[cycle(push)]
fn push_nodes(alloc: Global, text: &mut Vec<u8>, nodes: &[EvaluationNode]) -> Result<(), AllocError>
    ensures { OnOk result (text.new.items
        ≡ text.old.items ++ evaluations_text false (evaluations nodes.now)) }
{
    let mut later = false;
    for node in nodes {
        push_comma(text, later)?;
        push_node(alloc, text, node)?;
        later = true;
    }
    Ok(())
}

// Appends what a node says itself.
#[tactic(auto, unfolding(crate::specs::Evaluated::unit_text))]
fn push_part(alloc: Global, text: &mut Vec<u8>, node: &EvaluationNode) -> Result<(), AllocError>
    ensures { OnOk result (text.new.items ≡ text.old.items
        ++ unit_text (is_valid node.now) (keyword_location_at node.now)
        (instance_location_at node.now) (annotation_at node.now) (keywords_at node.now)) }
{
    push_verdict(alloc, text, node)?;
    push_place(alloc, text, node)?;
    push_errors(alloc, text, node)
}

// Appends the validity and the keyword location of a node.
#[tactic(auto, unfolding(crate::specs::Evaluated::verdict_text))]
fn push_verdict(alloc: Global, text: &mut Vec<u8>, node: &EvaluationNode) -> Result<(), AllocError>
    ensures { OnOk result (text.new.items ≡ text.old.items
        ++ verdict_text (is_valid node.now) (keyword_location_at node.now)) }
{
    push_bytes(text, b"{\"valid\":")?;
    push_boolean(text, node.valid())?;
    push_bytes(text, b",\"keywordLocation\":")?;
    push_string(alloc, text, node.schema_location().as_str())
}

// Appends the instance location and the annotation of a node.
#[tactic(auto, unfolding(crate::specs::Evaluated::place_text))]
fn push_place(alloc: Global, text: &mut Vec<u8>, node: &EvaluationNode) -> Result<(), AllocError>
    ensures { OnOk result (text.new.items ≡ text.old.items
        ++ place_text (instance_location_at node.now) (annotation_at node.now)) }
{
    push_bytes(text, b",\"instanceLocation\":")?;
    push_string(alloc, text, node.instance_location().as_str())?;
    push_bytes(text, b",\"annotation\":")?;
    push_annotation(alloc, text, node)
}

// Appends the keywords of the errors of a node.
#[tactic(auto, using(jskw_service::proofs::Parts::three_parts), unfolding(crate::specs::Evaluated::errors_text))]
fn push_errors(alloc: Global, text: &mut Vec<u8>, node: &EvaluationNode) -> Result<(), AllocError>
    ensures { OnOk result (text.new.items ≡ text.old.items ++ errors_text (keywords_at node.now)) }
{
    push_bytes(text, b",\"errors\":[")?;
    push_keywords(alloc, text, node.errors())?;
    push_bytes(text, b"]")
}

// Appends the annotation of a node, or `null`.
fn push_annotation(
    alloc: Global,
    text: &mut Vec<u8>,
    node: &EvaluationNode,
) -> Result<(), AllocError>
    ensures { OnOk result
        (text.new.items ≡ text.old.items ++ annotation_text (annotation_at node.now)) }
{
    match node.annotations() {
        None => push_bytes(text, b"null"),
        Some(Annotations::Bool(flag)) => push_boolean(text, *flag),
        Some(Annotations::Index(index)) => push_number(alloc, text, *index),
        Some(Annotations::Indices(indices)) => {
            push_bytes(text, b"[")?;
            push_numbers(alloc, text, indices.as_slice())?;
            push_bytes(text, b"]")
        }
    }
}

// Appends the items of an array of numbers.
fn push_numbers(alloc: Global, text: &mut Vec<u8>, numbers: &[usize]) -> Result<(), AllocError>
    ensures { OnOk result (text.new.items ≡ text.old.items ++ numbers_text false numbers.now) }
{
    let mut later = false;
    for number in numbers {
        push_comma(text, later)?;
        push_number(alloc, text, *number)?;
        later = true;
    }
    Ok(())
}

// Appends the keywords of the descriptions, as the items of an array.
fn push_keywords(
    alloc: Global,
    text: &mut Vec<u8>,
    errors: &[ErrorDescription],
) -> Result<(), AllocError>
    ensures { OnOk result (text.new.items
        ≡ text.old.items ++ strings_text false (keywords_of errors.now)) }
{
    let mut later = false;
    for error in errors {
        push_comma(text, later)?;
        push_string(alloc, text, error.keyword())?;
        later = true;
    }
    Ok(())
}
