//! The evaluation node of an assertion that is checked together with others.
ghost use Rattle.std.specs.Prelude.{◌≡◌, IfOk, false};
ghost use Rattle.jskw_report.specs.Errors.{kind_of};
ghost use Rattle.jskw_report.specs.Evaluation.{node_at, of_errors, unit};
ghost use Rattle.jskw_report.specs.EvaluationView.{result_of};
ghost use Rattle.jskw_report.specs.Holds.{assertion_holds};
ghost use Rattle.jskw_report.specs.Meaning.{as_keyword};
ghost use Rattle.jskw_report.specs.Observe.{failures_unless};

use jskw_report::validator::evaluate_first;
use jskw_report::{
    Assertion, EvaluationNode, EvaluationResult, Fault, KeywordLocation, Location, ValidationError,
    ValidationErrorKind,
};
use jskw_value::Json;
use std::alloc::{AllocError, Global};

// Returns the evaluation node of the assertion for the instance at `path`. `holds` must be whether
// it holds.
pub(super) fn evaluate_assertion<F: Json, A: Assertion>(
    alloc: Global,
    assertion: &A,
    holds: bool,
    instance: &F::Node,
    path: &Location,
) -> Result<EvaluationNode, AllocError>
    requires { holds
        ≡ assertion_holds (A.asserts assertion.now).assertion (F.Node.tree instance.now) }
    ensures { let a = A.asserts assertion.now in IfOk result (λ node. node
        ≡ node_at a.location path.now (unit (as_keyword a) (F.Node.tree instance.now) path.now)) }
{
    let kind = assertion.kind();
    let schema_path = assertion.location();
    let result = evaluate_unless::<F>(alloc, holds, kind, schema_path, instance, path)?;
    EvaluationNode::at_keyword(alloc, result, schema_path, path)
}

// Returns the evaluation of an assertion: valid if `holds`, else with the error made of the other
// arguments. In line, so that an assertion that holds takes no call.
#[inline(always)]
#[tactic(auto, unfolding(jskw_report::specs::Evaluation::of_errors))]
fn evaluate_unless<'i, F: Json>(
    alloc: Global,
    holds: bool,
    kind: ValidationErrorKind<'i>,
    schema_path: &'i KeywordLocation,
    instance: &'i F::Node,
    path: &Location,
) -> Result<EvaluationResult, AllocError>
    ensures { IfOk result (λ r. result_of r ≡ of_errors (failures_unless holds (kind_of kind.entry)
        schema_path.now (F.Node.tree instance.now) path.now)) }
{
    if holds {
        return Ok(EvaluationResult::valid_empty(alloc));
    }
    evaluate_error::<F>(alloc, kind, schema_path, instance, path)
}

// Returns the evaluation of an assertion that fails, with the error made of the arguments.
#[inline(never)]
fn evaluate_error<'i, F: Json>(
    alloc: Global,
    kind: ValidationErrorKind<'i>,
    schema_path: &'i KeywordLocation,
    instance: &'i F::Node,
    path: &Location,
) -> Result<EvaluationResult, AllocError>
    ensures { IfOk result (λ r. result_of r ≡ of_errors (failures_unless false (kind_of kind.entry)
        schema_path.now (F.Node.tree instance.now) path.now)) }
{
    let error = ValidationError::at_keyword(alloc, kind, path.copy()?, schema_path, instance)?;
    evaluate_first::<F>(alloc, Err(Fault::Invalid(error)))
}
