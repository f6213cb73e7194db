//! The steps of an evaluation that apply no schema. They stand apart from the walks that call each other: each `?`
//! in such a walk is one way more in a proof about all of them.
ghost use Rattle.std.specs.Prelude.{◌≡◌, ◌++◌, ◌∷◌, None, if◌then◌else◌};
ghost use Rattle.jskw_report.specs.Evaluation.{Result as Unit, is_valid};
ghost use Rattle.jskw_array.specs.Words.{[], Evaluation, IfOk, false_schema, node_at, of_children, path_of};
ghost use Rattle.jskw_array.specs.Words.{result_of, tree};

use jskw_report::validator::{evaluate_first, report_error};
use jskw_report::{
    EvaluationNode, EvaluationResult, KeywordLocation, LazyLocation, Location, Report,
    ValidationErrorKind,
};
use jskw_value::{Json, Node};
use std::alloc::{AllocError, Global};

// Begins the node of a schema: returns the text of the instance location, and room for so many nodes below.
#[inline(always)]
pub(crate) fn begin_node(
    alloc: Global,
    location: &LazyLocation,
    count: usize,
) -> Result<(Location, Vec<EvaluationNode>), AllocError>
    ensures { IfOk result (λ begun. (begun.0 ≡ path_of location.now) × (begun.1.items ≡ [])) }
{
    let path = location.render()?;
    Ok((path, Vec::with_capacity(alloc, count)?))
}

// Returns the node of a schema at `location`, with these nodes below it.
#[inline(always)]
pub(crate) fn end_node(
    alloc: Global,
    children: Vec<EvaluationNode>,
    location: &KeywordLocation,
    path: &Location,
) -> Result<EvaluationNode, AllocError>
    ensures { IfOk result (λ node. node
        ≡ node_at location.now path.now (of_children None children.items)) }
{
    let result = EvaluationResult::from_children(alloc, children);
    EvaluationNode::at_keyword(alloc, result, location, path)
}

// Returns the node of the schema `false`.
pub(crate) fn evaluate_refusal<'i, F: Json>(
    alloc: Global,
    schema_path: &'i KeywordLocation,
    instance: &'i F::Node,
    location: &LazyLocation,
) -> Result<EvaluationNode, AllocError>
    ensures { IfOk result (λ node. node ≡ tree (false_schema schema_path.now)
        (F.Node.tree instance.now) (path_of location.now)) }
{
    let path = location.render()?;
    let kind = ValidationErrorKind::FalseSchema;
    let mut report: Report<F> = Report::First(None);
    let reported = report_error(kind, schema_path, instance, location, &mut report);
    let result = evaluate_first(alloc, report.first_result(reported))?;
    EvaluationNode::at_keyword(alloc, result, schema_path, &path)
}

// Appends the node of a keyword at `location`, if its unit was made.
#[inline(always)]
pub(crate) fn push_unit(
    alloc: Global,
    made: Result<EvaluationResult, AllocError>,
    location: &KeywordLocation,
    path: &Location,
    children: &mut Vec<EvaluationNode>,
) -> Result<(), AllocError>
    ensures { (r : Unit) → IfOk made (λ it. result_of it ≡ r) → IfOk result (λ _.
        children.new.items ≡ children.old.items ++ node_at location.now path.now r ∷ []) }
{
    children.push(EvaluationNode::at_keyword(alloc, made?, location, path)?)?;
    Ok(())
}

// Appends the node of an item, if it was made.
#[inline(always)]
pub(crate) fn push_item(
    made: Result<EvaluationNode, AllocError>,
    children: &mut Vec<EvaluationNode>,
) -> Result<(), AllocError>
    ensures { (e : Evaluation) → IfOk made (λ node. node ≡ e)
        → IfOk result (λ _. children.new.items ≡ children.old.items ++ e ∷ []) }
{
    children.push(made?)?;
    Ok(())
}

// Appends the node of the item at `index`, if it was made, and the index, both only if it is valid.
#[inline(always)]
pub(crate) fn push_match(
    made: Result<EvaluationNode, AllocError>,
    index: usize,
    children: &mut Vec<EvaluationNode>,
    matches: &mut Vec<usize>,
) -> Result<(), AllocError>
    ensures { (e : Evaluation) → IfOk made (λ node. node ≡ e) → IfOk result (λ _.
        (children.new.items ≡ children.old.items ++ (if is_valid e then e ∷ [] else []))
        × (matches.new.items ≡ matches.old.items ++ (if is_valid e then index ∷ [] else []))) }
{
    let child = made?;
    if child.valid() {
        children.push(child)?;
        matches.push(index)?;
    }
    Ok(())
}
