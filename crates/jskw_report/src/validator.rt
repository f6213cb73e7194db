//! The trait of validators, with its four observers, and the steps that their implementations
//! share.
ghost use Rattle.std.specs.Prelude.{◌≡◌, ◌≤◌, ◌+◌, [], min, length, IfOk, IsOk, List, IsTrue};
ghost use Rattle.std.specs.Prelude.{false};
ghost use Rattle.jskw_value.specs.Tree.{is_lawful};
ghost use Rattle.jskw_report.specs.Errors.{kind_of, failures_of};
ghost use Rattle.jskw_report.specs.Evaluation.{of_errors};
ghost use Rattle.jskw_report.specs.EvaluationView.{result_of};
ghost use Rattle.jskw_report.specs.Fail.{Failure};
ghost use Rattle.jskw_report.specs.Meaning.{Meaning, is_assertion, meaning_holds, meaning_fail};
ghost use Rattle.jskw_report.specs.Meaning.{meaning_applications, meaning_needed, meaning_pairs};
ghost use Rattle.jskw_report.specs.Meaning.{meaning_unit};
ghost use Rattle.jskw_report.specs.Observe.{Appends, CountsUpTo, IsFirst, Reports};
ghost use Rattle.jskw_report.specs.Observe.{failures_unless, keeps_list};
ghost use Rattle.jskw_report.specs.Paths.{path_of};

use crate::error::{Fault, Stop, ValidationError, ValidationErrorKind};
use crate::evaluation::{ErrorDescription, EvaluationResult};
use crate::paths::{KeywordLocation, LazyLocation, Location};
use crate::report::Report;
use jskw_value::Json;
use std::alloc::{AllocError, Global};
use std::marker::Model;

/// The state of one validation: the number of times that a schema or a subschema was applied.
#[derive(Debug, Drop)]
pub struct ValidationContext {
    applications: u64,
}

impl Model for ValidationContext {
    ghost use Rattle.std.specs.Prelude.{ℕ};

    ghost Value = { ℕ };

    ghost view = { λ c. c.applications };
}

impl ValidationContext {
    /// Creates the context for an instance: nothing was applied yet.
    pub fn new() -> ValidationContext
        ensures { result ≡ 0 }
    {
        ValidationContext { applications: 0 }
    }

    /// Counts one more application. A count of 2^64-1 is unchanged.
    pub fn count_one(&mut self)
        ensures applied { min (self.old + 1) u64.MAX ≤ self.new }
        ensures counted { CountsUpTo self.old self.new 1 }
    {
        self.applications = self.applications.saturating_add(1);
    }

    /// Counts `number` more applications. The count stops at 2^64-1.
    pub fn count_more(&mut self, number: usize)
        ensures applied { min (self.old + number) u64.MAX ≤ self.new }
        ensures counted { CountsUpTo self.old self.new number }
    {
        self.applications = self.applications.saturating_add(number as u64);
    }

    /// Returns how many times a schema or a subschema was applied to the instance or to one of its
    /// items. The count stops at 2^64-1.
    pub fn applications(&self) -> u64
        ensures { result ≡ self.now }
    {
        self.applications
    }
}

/// A validator over the representation `F`, with four observers that agree with each other:
/// `is_valid`, `validate`, `collect_errors` and `evaluate`.
///
/// Each observer requires a lawful instance: one that contains no float, as
/// [`is_lawful`](jskw_value::Node::is_lawful) checks. `location` is the instance location (JSON
/// Schema Core 12.3.3); whatever the observer returns, it is unchanged afterwards.
///
/// `ctx` counts the applications of subschemas to items, at all levels. `collect_errors` and
/// `evaluate` add at most one for each pair of a subschema and an item that it is for; `is_valid`
/// and `validate` at most one for each such pair up to the first failure.
pub trait Validate<F: Json> {
    /// The keyword that the validator checks, or the several keywords that it checks together.
    ghost meaning: { Self → Meaning };

    /// Returns whether the instance is valid. Stops at the first failure and allocates nothing.
    fn is_valid(&self, instance: &F::Node, ctx: &mut ValidationContext) -> bool
        requires { IsTrue (is_lawful (F.Node.tree instance.now)) }
        ensures answer { result ≡ meaning_holds (meaning self.now) (F.Node.tree instance.now) }
        ensures counted { CountsUpTo ctx.old ctx.new
            (meaning_needed (meaning self.now) (F.Node.tree instance.now)) };

    /// Adds the errors of the instance to `report`, in order, until no other is wanted. A keyword
    /// without subschemas allocates nothing if the instance is valid.
    ///
    /// This is [`validate`](Validate::validate) and [`collect_errors`](Validate::collect_errors) in
    /// one, for validators that hold others.
    ///
    /// # Errors
    ///
    /// - [`Stop::Invalid`] if the instance is invalid and no other error is wanted.
    /// - [`Stop::Memory`] if memory runs out. This says nothing about the instance.
    fn report_errors<'i>(
        &'i self,
        instance: &'i F::Node,
        location: &mut LazyLocation,
        ctx: &mut ValidationContext,
        report: &mut Report<'i, F>,
    ) -> Result<(), Stop>
        requires { IsTrue (is_lawful (F.Node.tree instance.now)) }
        ensures quiet { IsTrue (is_assertion (meaning self.now))
            → IsTrue (meaning_holds (meaning self.now) (F.Node.tree instance.now))
            → IsOk result }
        ensures reported { Reports F.Node.tree report.old report.new
            (meaning_fail (meaning self.now) (F.Node.tree instance.now) (path_of location.old))
            result }
        ensures location { location.new ≡ location.old }
        ensures counted { CountsUpTo ctx.old ctx.new (meaning_applications (keeps_list report.old)
            (meaning self.now) (F.Node.tree instance.now)) };

    /// Returns `Ok` if the instance is valid. Stops at the first failure. A keyword without
    /// subschemas allocates nothing if the instance is valid.
    ///
    /// # Errors
    ///
    /// - [`Fault::Invalid`] with the first error, if the instance is invalid.
    /// - [`Fault::Memory`] if memory runs out. This says nothing about the instance.
    fn validate<'i>(
        &'i self,
        instance: &'i F::Node,
        location: &mut LazyLocation,
        ctx: &mut ValidationContext,
    ) -> Result<(), Fault<'i, F>>
        requires { IsTrue (is_lawful (F.Node.tree instance.now)) }
        ensures quiet { IsTrue (is_assertion (meaning self.now))
            → IsTrue (meaning_holds (meaning self.now) (F.Node.tree instance.now))
            → IsOk result }
        ensures first { IsFirst F.Node.tree
            (meaning_fail (meaning self.now) (F.Node.tree instance.now) (path_of location.old))
            result }
        ensures location { location.new ≡ location.old }
        ensures counted { CountsUpTo ctx.old ctx.new
            (meaning_needed (meaning self.now) (F.Node.tree instance.now)) }
    {
        let mut report = Report::First(None);
        let reported = self.report_errors(instance, location, ctx, &mut report);
        report.first_result(reported)
    }

    /// Appends all errors of the instance to `errors`, in order. If memory runs out, `errors` keeps
    /// what it held, and a beginning of the new errors, possibly none, follows. A keyword without
    /// subschemas allocates nothing if the instance is valid.
    fn collect_errors<'i>(
        &'i self,
        instance: &'i F::Node,
        location: &mut LazyLocation,
        ctx: &mut ValidationContext,
        errors: &mut Vec<ValidationError<'i, F>>,
    ) -> Result<(), AllocError>
        requires { IsTrue (is_lawful (F.Node.tree instance.now)) }
        ensures quiet { IsTrue (is_assertion (meaning self.now))
            → IsTrue (meaning_holds (meaning self.now) (F.Node.tree instance.now))
            → IsOk result }
        ensures appended { Appends F.Node.tree errors.old.items errors.new.items
            (meaning_fail (meaning self.now) (F.Node.tree instance.now) (path_of location.old))
            result }
        ensures location { location.new ≡ location.old }
        ensures counted { CountsUpTo ctx.old ctx.new
            (meaning_pairs (meaning self.now) (F.Node.tree instance.now)) }
    {
        let mut report = Report::appending_to(errors, None);
        let reported = self.report_errors(instance, location, ctx, &mut report);
        report.into_list(reported, errors)
    }

    /// Returns what the keyword reports of the instance: its unit of the evaluation tree (JSON
    /// Schema Core 12.3). A keyword without subschemas allocates nothing if the instance is valid.
    fn evaluate(
        &self,
        alloc: Global,
        instance: &F::Node,
        location: &mut LazyLocation,
        ctx: &mut ValidationContext,
    ) -> Result<EvaluationResult, AllocError>
        requires { IsTrue (is_lawful (F.Node.tree instance.now)) }
        ensures quiet { IsTrue (is_assertion (meaning self.now))
            → IsTrue (meaning_holds (meaning self.now) (F.Node.tree instance.now))
            → IsOk result }
        ensures gives { IfOk result (λ r. result_of r
            ≡ meaning_unit (meaning self.now) (F.Node.tree instance.now) (path_of location.old)) }
        ensures location { location.new ≡ location.old }
        ensures counted { CountsUpTo ctx.old ctx.new
            (meaning_pairs (meaning self.now) (F.Node.tree instance.now)) };
}

/// Adds the error that is made of the other arguments to `report`.
///
/// # Errors
///
/// - [`Stop::Invalid`] if no other error is wanted.
/// - [`Stop::Memory`] if memory runs out. The report is unchanged then.
pub fn report_error<'i, F: Json>(
    kind: ValidationErrorKind<'i>,
    schema_path: &'i KeywordLocation,
    instance: &'i F::Node,
    location: &LazyLocation,
    report: &mut Report<'i, F>,
) -> Result<(), Stop>
    ensures { Reports F.Node.tree report.old report.new (failures_unless false (kind_of kind.entry)
        schema_path.now (F.Node.tree instance.now) (path_of location.now)) result }
{
    let instance_path = location.render()?;
    match schema_path.whole() {
        Some(whole) => report.add(ValidationError::new(kind, instance_path, whole, instance)),
        None => report_copied(
            location.alloc(),
            kind,
            instance_path,
            schema_path,
            instance,
            report,
        ),
    }
}

// Adds an error for a keyword location of which the error needs a text of its own. Apart from
// `report_error`, in which the error is written at once to where it is kept.
#[inline(never)]
fn report_copied<'i, F: Json>(
    alloc: Global,
    kind: ValidationErrorKind<'i>,
    instance_path: Location,
    schema_path: &'i KeywordLocation,
    instance: &'i F::Node,
    report: &mut Report<'i, F>,
) -> Result<(), Stop>
    ensures { Reports F.Node.tree report.old report.new (failures_unless false (kind_of kind.entry)
        schema_path.now (F.Node.tree instance.now) instance_path) result }
{
    report.add(ValidationError::at_keyword(alloc, kind, instance_path, schema_path, instance)?)
}

/// Returns the unit for the result of `validate`. This is `evaluate` for a validator that gives at
/// most one error. Fails if memory ran out in `validate` or runs out here; never if `answer` is
/// `Ok`.
#[tactic(auto, unfolding(crate::specs::Evaluation::of_errors))]
pub fn evaluate_first<F: Json>(
    alloc: Global,
    answer: Result<(), Fault<'_, F>>,
) -> Result<EvaluationResult, AllocError>
    ensures unit { (fs : List Failure) → length fs ≤ 1 → IsFirst F.Node.tree fs answer.entry
        → IfOk result (λ r. result_of r ≡ of_errors fs) }
    ensures ok { IsOk answer.entry → IsOk result }
{
    match answer {
        Ok(()) => Ok(EvaluationResult::valid_empty(alloc)),
        Err(Fault::Invalid(error)) => {
            let mut errors = Vec::new(alloc);
            errors.push(ErrorDescription::from_validation_error(alloc, &error)?)?;
            Ok(EvaluationResult::invalid_empty(alloc, errors))
        }
        Err(Fault::Memory(error)) => Err(error),
    }
}

/// Returns the unit for collected errors. This is `evaluate` for a validator that may give several
/// errors and has no nodes below. Without errors the unit is valid and nothing is allocated; else
/// it is invalid, with a description of each error.
pub fn evaluate_errors<F: Json>(
    alloc: Global,
    errors: &[ValidationError<'_, F>],
) -> Result<EvaluationResult, AllocError>
    ensures unit { IfOk result
        (λ r. result_of r ≡ of_errors (failures_of F.Node.tree errors.now)) }
    ensures ok { errors.now ≡ [] → IsOk result }
{
    if errors.is_empty() {
        return Ok(EvaluationResult::valid_empty(alloc));
    }
    let mut descriptions = Vec::new(alloc);
    for error in errors {
        descriptions.push(ErrorDescription::from_validation_error(alloc, error)?)?;
    }
    Ok(EvaluationResult::invalid_empty(alloc, descriptions))
}
