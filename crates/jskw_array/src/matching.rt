//! The items that match one schema: `contains` (JSON Schema Core 10.3.1.3) with `minContains` and
//! `maxContains` (JSON Schema Validation 6.4.4, 6.4.5).
ghost use Rattle.std.specs.Prelude.{◌≡◌};
ghost use Rattle.jskw_array.specs.Words.{CountsUpTo, IfOk, IsTrue, bounds_of, boxed_bounds, count_by};
ghost use Rattle.jskw_array.specs.Words.{deciding_count, failing_bound, failing_locations, holds};
ghost use Rattle.jskw_array.specs.Words.{is_lawful, items, length, locations_of, matching_keyword};
ghost use Rattle.jskw_array.specs.Words.{matching_result, needed, one_keyword, result_of, sum_by};

use crate::evaluation::push_match;
use crate::node::Subschema;
use jskw_report::validator::report_error;
use jskw_report::{
    Annotations, ErrorDescription, EvaluationNode, EvaluationResult, KeywordLocation, LazyLocation,
    Report, Stop, Validate, ValidationContext, ValidationError, ValidationErrorKind,
};
use jskw_value::{Array, Json, Node};
use std::alloc::{AllocError, Global};

/// How many items must match, and the keyword locations of a failure with too few and with too many
/// matches.
#[derive(Debug, Drop)]
pub struct ItemBounds {
    pub(crate) lower: u64,
    pub(crate) upper: Option<u64>,
    pub(crate) too_few_at: KeywordLocation,
    // None if it is the same location
    pub(crate) too_many_at: Option<KeywordLocation>,
}

impl ItemBounds {
    // Returns the number of matches at which the result is known: one more than the upper bound, or
    // the lower bound if there is no upper one.
    fn deciding_count(&self) -> u64
        ensures { result ≡ deciding_count (bounds_of self.now) }
    {
        match self.upper {
            Some(upper) => upper.saturating_add(1),
            None => self.lower,
        }
    }

    // Returns the keyword location of the error for this number of matches, or `None` if it is
    // between the bounds.
    fn failing_location(&self, matches: u64) -> Option<&KeywordLocation>
        ensures { locations_of result ≡ failing_bound (bounds_of self.now) matches }
    {
        match (self.upper, &self.too_many_at) {
            (Some(upper), Some(location)) if matches > upper => Some(location),
            (Some(upper), None) if matches > upper => Some(&self.too_few_at),
            _ if matches >= self.lower => None,
            _ => Some(&self.too_few_at),
        }
    }
}

/// The validator of `contains`: a schema, and how many items must match it. It accepts an array in
/// which that many items do, and every non-array.
#[cycle(schema)]
#[derive(Drop)]
#[derive_where(Debug)]
pub struct Matching<F: Json> {
    pub(crate) node: Subschema<F>,
    // in a box: else every keyword would take room for them
    pub(crate) bounds: Box<ItemBounds>,
}

impl<F: Json> Matching<F> {
    // Returns the keyword location of the error for the instance, or `None` if it is valid. Applies
    // the schema to no more items than the result needs.
    #[inline(never)]
    #[cycle(is_valid)]
    fn failing_location(
        &self,
        instance: &F::Node,
        ctx: &mut ValidationContext,
    ) -> Option<&KeywordLocation>
        requires { IsTrue (is_lawful (F.Node.tree instance.now)) }
        ensures answer { let t = F.Node.tree instance.now in locations_of result
            ≡ failing_locations (boxed_bounds self.now.bounds)
            (count_by (holds self.now.node) (items t)) t }
        ensures counted { CountsUpTo ctx.old ctx.new
            (sum_by (needed self.now.node) (items (F.Node.tree instance.now))) }
    {
        if !instance.is_array() {
            return None;
        }
        let deciding_count = self.bounds.deciding_count();
        let mut matches = 0;
        for index in 0..instance.item_count() {
            if matches == deciding_count {
                return self.bounds.failing_location(matches);
            }
            if self.node.is_valid(instance.item(index), ctx) {
                matches += 1;
            }
        }
        self.bounds.failing_location(matches)
    }

    // Returns the unit for an instance whose items at the indices `matches` match. `children` are
    // the nodes of these items.
    fn unit<'i>(
        &'i self,
        alloc: Global,
        children: Vec<EvaluationNode>,
        matches: Vec<usize>,
        instance: &'i F::Node,
        location: &LazyLocation,
    ) -> Result<EvaluationResult, AllocError>
        ensures { IfOk result (λ r. result_of r ≡ matching_result
            (failing_locations (boxed_bounds self.now.bounds) (length matches.items)
            (F.Node.tree instance.now))
            matches.items children.items) }
    {
        if instance.is_array()
            && let Some(schema_path) = self.bounds.failing_location(matches.len() as u64)
        {
            let kind = ValidationErrorKind::Contains;
            let path = location.render()?;
            let error: ValidationError<F> = ValidationError::at_keyword(
                alloc,
                kind,
                path,
                schema_path,
                instance,
            )?;
            let mut errors = Vec::new(alloc);
            errors.push(ErrorDescription::from_validation_error::<F>(alloc, &error)?)?;
            return Ok(EvaluationResult::invalid_empty(alloc, errors));
        }
        Ok(EvaluationResult::Valid {
            annotations: Some(Annotations::Indices(matches)),
            children,
        })
    }
}

impl<F: Json> Validate<F> for Matching<F> {
    ghost meaning = { λ v. one_keyword (matching_keyword v) };

    #[cycle(is_valid)]
    fn is_valid(&self, instance: &F::Node, ctx: &mut ValidationContext) -> bool {
        self.failing_location(instance, ctx).is_none()
    }

    fn report_errors<'i>(
        &'i self,
        instance: &'i F::Node,
        location: &mut LazyLocation,
        ctx: &mut ValidationContext,
        report: &mut Report<'i, F>,
    ) -> Result<(), Stop> {
        match self.failing_location(instance, ctx) {
            Some(schema_path) => {
                let kind = ValidationErrorKind::Contains;
                report_error(kind, schema_path, instance, location, report)
            }
            None => Ok(()),
        }
    }

    #[cycle(evaluate)]
    fn evaluate(
        &self,
        alloc: Global,
        instance: &F::Node,
        location: &mut LazyLocation,
        ctx: &mut ValidationContext,
    ) -> Result<EvaluationResult, AllocError> {
        let mut children = Vec::new(alloc);
        let mut matches = Vec::new(alloc);
        for index in 0..instance.item_count() {
            let item = instance.item(index);
            let made = self.node.evaluate_item(alloc, index, item, location, ctx);
            push_match(made, index, &mut children, &mut matches)?;
        }
        self.unit(alloc, children, matches, instance, location)
    }
}
