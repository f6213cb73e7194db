//! The validators of all keywords as one type.
ghost use Rattle.std.specs.Prelude.{◌≡◌};
ghost use Rattle.jskw_array.specs.Words.{Accepts, AcceptsOutline, keyword_delegates};
ghost use Rattle.jskw_array.specs.Words.{one_keyword, validator_keyword};

use crate::each::{Each, some_schema_delegates};
use crate::matching::Matching;
use crate::rest::Rest;
use jskw_leaf::LeafValidator;
use jskw_leaf::in_place::BareItems;
use jskw_number::{Outline, QuickSet};
use jskw_report::{
    EvaluationResult, KeywordLocation, LazyLocation, Report, Stop, Validate, ValidationContext,
};
use jskw_value::Json;
use std::alloc::{AllocError, Global};

/// The validator of one keyword, over the representation `F`.
#[cycle(schema)]
#[derive(Drop)]
#[derive_where(Debug)]
pub enum Validator<F: Json> {
    /// A keyword without subschemas.
    Leaf(LeafValidator<F>),
    /// `prefixItems`, or `items` of an array of schemas.
    Each(Each<F>),
    /// `items` of one schema, or `additionalItems` of one.
    Rest(Rest<F>),
    /// `contains`, with `minContains` and `maxContains`.
    Matching(Matching<F>),
    /// `items` of a schema that has only `type`.
    Bare(BareItems<F>),
}

// Matches on the validator, with the same expression for each variant.
macro_rules! dispatch {
    ($any:expr, $validator:ident => $answer:expr) => {
        match $any {
            Validator::Leaf($validator) => $answer,
            Validator::Each($validator) => $answer,
            Validator::Rest($validator) => $answer,
            Validator::Matching($validator) => $answer,
            Validator::Bare($validator) => $answer,
        }
    };
}

impl<F: Json> Validate<F> for Validator<F> {
    ghost meaning = { λ v. one_keyword (validator_keyword v) };

    #[inline(always)]
    #[cycle(is_valid)]
    fn is_valid(&self, instance: &F::Node, ctx: &mut ValidationContext) -> bool {
        dispatch!(self, v => Validate::<F>::is_valid(v, instance, ctx))
    }

    #[inline(always)]
    #[cycle(report)]
    fn report_errors<'i>(
        &'i self,
        instance: &'i F::Node,
        location: &mut LazyLocation,
        ctx: &mut ValidationContext,
        report: &mut Report<'i, F>,
    ) -> Result<(), Stop> {
        dispatch!(self, v => v.report_errors(instance, location, ctx, report))
    }

    #[cycle(evaluate)]
    fn evaluate(
        &self,
        alloc: Global,
        instance: &F::Node,
        location: &mut LazyLocation,
        ctx: &mut ValidationContext,
    ) -> Result<EvaluationResult, AllocError> {
        dispatch!(self, v => Validate::<F>::evaluate(v, alloc, instance, location, ctx))
    }
}

impl<F: Json> Validator<F> {
    // Returns values that the keyword accepts: one with subschemas accepts everything but arrays.
    pub(crate) fn quick_set(&self) -> QuickSet
        ensures { Accepts result (validator_keyword self.now) }
    {
        match self {
            Validator::Leaf(v) => v.quick_set(),
            _ => QuickSet::but_arrays(),
        }
    }

    // Returns arrays and objects that the keyword accepts, whatever their items and members are.
    pub(crate) fn outline(&self) -> Outline
        ensures { AcceptsOutline result (validator_keyword self.now) }
    {
        match self {
            Validator::Leaf(v) => v.outline(),
            Validator::Rest(v) => Outline::between(0, v.start as u64),
            _ => Outline::of(self.quick_set()),
        }
    }

    // Returns a keyword location that the validator has: of its errors, or of its one subschema.
    pub(crate) fn location(&self) -> Option<&KeywordLocation> {
        match self {
            Validator::Leaf(v) => Some(v.location()),
            Validator::Rest(v) => Some(v.node.location()),
            Validator::Matching(v) => Some(v.node.location()),
            Validator::Each(_) | Validator::Bare(_) => None,
        }
    }

    // Returns whether the `required` of a subschema is delegated.
    pub(crate) fn hands_on_required(&self) -> bool
        ensures { result ≡ keyword_delegates (validator_keyword self.now) }
    {
        match self {
            Validator::Each(v) => some_schema_delegates(v.nodes.as_slice()),
            Validator::Rest(v) => v.node.hands_on_required(),
            Validator::Matching(v) => v.node.hands_on_required(),
            Validator::Leaf(_) | Validator::Bare(_) => false,
        }
    }
}
