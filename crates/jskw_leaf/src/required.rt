//! `required` (JSON Schema Validation 6.5.3): the object has a member of each name.
ghost use Rattle.std.specs.Prelude.{◌≡◌};
ghost use Rattle.jskw_report.specs.Meaning.{as_keyword, one_keyword};
ghost use Rattle.jskw_leaf.specs.Meaning.{required_names};

mod compilation;
mod delegation;
mod lookup;
mod missing;
mod names;
mod prepared;

pub use crate::upstream::{Required2Validator, SingleItemRequiredValidator};
pub use compilation::{compile, compile_checked, compile_with_path};
pub use delegation::{is_delegated, is_handed_on};
use jskw_report::validator::evaluate_errors;
use jskw_report::{
    EvaluationResult, KeywordLocation, LazyLocation, Report, Stop, Validate, ValidationContext,
};
use jskw_value::{Json, Node};
use lookup::has_all;
use missing::report_missing;
use names::{FewNames, NameList, Names};
use std::alloc::{AllocError, Global};
use std::marker::PhantomData;

/// The validator of `required`, over the representation `F`. `L` holds the names, each once. It
/// accepts an object with all of them, and every non-object; otherwise it gives an error for each
/// name that is missing.
#[derive(Drop)]
#[derive_where(Debug; L)]
pub struct RequiredNames<F: Json, L> {
    names: L,
    location: KeywordLocation,
    representation: PhantomData<F>,
}

impl<F: Json, L> RequiredNames<F, L> {
    // Creates the validator. `location` is the keyword location of its errors.
    fn new(names: L, location: KeywordLocation) -> RequiredNames<F, L>
        ensures names { result.names ≡ names }
        ensures location { result.location ≡ location }
    {
        RequiredNames {
            names,
            location,
            representation: PhantomData,
        }
    }

    // Returns the keyword location of the errors.
    pub(crate) fn location(&self) -> &KeywordLocation
        ensures { result.now ≡ self.now.location }
    {
        &self.location
    }
}

/// The validator of `required` with any number of names but one to three.
pub type RequiredValidator<F> = RequiredNames<F, NameList<F>>;

/// The validator of `required` with one to three names.
pub type Required3Validator<F> = RequiredNames<F, FewNames<F>>;

impl<F: Json, L: Names<F>> Validate<F> for RequiredNames<F, L> {
    ghost meaning = { λ v. one_keyword (as_keyword (required_names L.names v)) };

    fn is_valid(&self, instance: &F::Node, _ctx: &mut ValidationContext) -> bool {
        !instance.is_object() || has_all(&self.names, instance)
    }

    fn report_errors<'i>(
        &'i self,
        instance: &'i F::Node,
        location: &mut LazyLocation,
        ctx: &mut ValidationContext,
        report: &mut Report<'i, F>,
    ) -> Result<(), Stop> {
        if Validate::<F>::is_valid(self, instance, ctx) {
            return Ok(());
        }
        report_missing(&self.names, &self.location, instance, location, report)
    }

    fn evaluate(
        &self,
        alloc: Global,
        instance: &F::Node,
        location: &mut LazyLocation,
        ctx: &mut ValidationContext,
    ) -> Result<EvaluationResult, AllocError> {
        let mut errors = Vec::new(alloc);
        self.collect_errors(instance, location, ctx, &mut errors)?;
        evaluate_errors(alloc, &errors)
    }
}
