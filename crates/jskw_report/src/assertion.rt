//! The trait of validators that give at most one error: those of the keywords without subschemas
//! (JSON Schema Core 7.6) other than `required`, of the schema `false`, and of `additionalItems`
//! with `false`.
ghost use Rattle.std.specs.Prelude.{◌≡◌, IfOk, IsOk, IsTrue, Some, false};
ghost use Rattle.jskw_report.specs.Evaluation.{of_errors};
ghost use Rattle.jskw_report.specs.EvaluationView.{result_of};
ghost use Rattle.jskw_value.specs.Tree.{is_lawful};
ghost use Rattle.jskw_report.specs.Errors.{kind_of};
ghost use Rattle.jskw_report.specs.Fail.{keyword_fail, kind_for};
ghost use Rattle.jskw_report.specs.Holds.{assertion_holds, keyword_holds};
ghost use Rattle.jskw_report.specs.Meaning.{LocatedAssertion, as_keyword, one_keyword};
ghost use Rattle.jskw_report.specs.Observe.{Reports};
ghost use Rattle.jskw_report.specs.Paths.{path_of};

use crate::error::{Stop, ValidationError, ValidationErrorKind};
use crate::evaluation::EvaluationResult;
use crate::paths::{KeywordLocation, LazyLocation};
use crate::report::Report;
use crate::validator::{Validate, ValidationContext, evaluate_first, report_error};
use jskw_value::Json;
use std::alloc::{AllocError, Global};

/// A validator that gives at most one error for an instance. It says whether it holds, and the kind
/// and the keyword location of its error. From these it gets the four observers of [`Validate`],
/// for every representation. Of `required` there is none: `kind` returns what `kind_for` has for the
/// assertion, and it has nothing for `required`.
pub trait Assertion {
    /// What is asserted, and the keyword location of the error.
    ghost asserts: { Self → LocatedAssertion };

    /// Returns whether the assertion holds for `instance`. The instance must be lawful: it contains
    /// no float. Allocates nothing.
    fn holds<F: Json>(&self, instance: &F::Node) -> bool
        requires { IsTrue (is_lawful (F.Node.tree instance.now)) }
        ensures { result
            ≡ assertion_holds (asserts self.now).assertion (F.Node.tree instance.now) };

    /// Returns the kind of the error, with what the keyword expects.
    fn kind(&self) -> ValidationErrorKind<'_>
        ensures { kind_for (asserts self.now).assertion ≡ Some (kind_of result) };

    /// Returns the keyword location of the error (JSON Schema Core 12.3.1).
    fn location(&self) -> &KeywordLocation
        ensures { result.now ≡ (asserts self.now).location };
}

impl<F: Json, A: Assertion> Validate<F> for A {
    ghost meaning = { λ a. one_keyword (as_keyword (A.asserts a)) };

    fn is_valid(&self, instance: &F::Node, _ctx: &mut ValidationContext) -> bool {
        self.holds::<F>(instance)
    }

    fn report_errors<'i>(
        &'i self,
        instance: &'i F::Node,
        location: &mut LazyLocation,
        _ctx: &mut ValidationContext,
        report: &mut Report<'i, F>,
    ) -> Result<(), Stop> {
        report_assertion(self, instance, location, report)
    }

    // The body that the trait has: the checker does not take that over for every type at once.
    fn collect_errors<'i>(
        &'i self,
        instance: &'i F::Node,
        location: &mut LazyLocation,
        ctx: &mut ValidationContext,
        errors: &mut Vec<ValidationError<'i, F>>,
    ) -> Result<(), AllocError> {
        let mut report = Report::appending_to(errors, None);
        let reported = Validate::<F>::report_errors(self, instance, location, ctx, &mut report);
        report.into_list(reported, errors)
    }

    fn evaluate(
        &self,
        alloc: Global,
        instance: &F::Node,
        location: &mut LazyLocation,
        _ctx: &mut ValidationContext,
    ) -> Result<EvaluationResult, AllocError> {
        if self.holds::<F>(instance) {
            return Ok(EvaluationResult::valid_empty(alloc));
        }
        evaluate_failure::<F, A>(alloc, self, instance, location)
    }
}

/// Adds the error of an assertion to `report`, unless it holds of the instance, which must be
/// lawful. Allocates nothing if it holds.
#[inline(always)]
pub fn report_assertion<'i, F: Json, A: Assertion>(
    assertion: &'i A,
    instance: &'i F::Node,
    location: &LazyLocation,
    report: &mut Report<'i, F>,
) -> Result<(), Stop>
    requires { IsTrue (is_lawful (F.Node.tree instance.now)) }
    ensures quiet { IsTrue (keyword_holds (as_keyword (A.asserts assertion.now))
        (F.Node.tree instance.now)) → IsOk result }
    ensures reported { Reports F.Node.tree report.old report.new (keyword_fail
        (as_keyword (A.asserts assertion.now)) (F.Node.tree instance.now)
        (path_of location.now)) result }
{
    if assertion.holds::<F>(instance) {
        return Ok(());
    }
    report_failure(assertion, instance, location, report)
}

// Adds the error of an assertion to `report`. A function of its own, so that the frame of an error
// is not cleared where the assertion holds.
#[inline(never)]
fn report_failure<'i, F: Json, A: Assertion>(
    assertion: &'i A,
    instance: &'i F::Node,
    location: &LazyLocation,
    report: &mut Report<'i, F>,
) -> Result<(), Stop>
    requires { assertion_holds (A.asserts assertion.now).assertion (F.Node.tree instance.now)
        ≡ false }
    ensures { Reports F.Node.tree report.old report.new (keyword_fail
        (as_keyword (A.asserts assertion.now)) (F.Node.tree instance.now)
        (path_of location.now)) result }
{
    let schema_path = assertion.location();
    report_error(assertion.kind(), schema_path, instance, location, report)
}

// Returns the unit of an assertion that does not hold of the instance.
#[inline(never)]
fn evaluate_failure<'i, F: Json, A: Assertion>(
    alloc: Global,
    assertion: &'i A,
    instance: &'i F::Node,
    location: &LazyLocation,
) -> Result<EvaluationResult, AllocError>
    requires { assertion_holds (A.asserts assertion.now).assertion (F.Node.tree instance.now)
        ≡ false }
    ensures { IfOk result (λ r. result_of r ≡ of_errors (keyword_fail
        (as_keyword (A.asserts assertion.now)) (F.Node.tree instance.now)
        (path_of location.now))) }
{
    let mut report: Report<F> = Report::First(None);
    let schema_path = assertion.location();
    let reported = report_error(
        assertion.kind(),
        schema_path,
        instance,
        location,
        &mut report,
    );
    evaluate_first(alloc, report.first_result(reported))
}
