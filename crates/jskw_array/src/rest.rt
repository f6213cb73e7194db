//! One schema for the items from an index on: `items` (JSON Schema Core 10.3.1.2), and
//! `additionalItems` (Draft 7 Validation 6.4.2). A non-array has no items.
ghost use Rattle.std.specs.Prelude.{◌≡◌, ◌-◌, false};
ghost use Rattle.jskw_array.specs.Words.{CompilesTo, IfOk, IsTrue, Reading, is_lawful, items};
ghost use Rattle.jskw_array.specs.Words.{map_ok, one_keyword, rest_keyword, rest_of, true};
ghost use Rattle.jskw_array.specs.Words.{CountsUpTo, keyword_pairs, path_of, result_of, unit, validator_keyword};

use crate::evaluation::push_item;
use crate::node::Subschema;
use crate::validator::Validator;
use jskw_leaf::in_place::item_type::items_unit;
use jskw_report::validator::evaluate_errors;
use jskw_report::{
    CompilationResult, EvaluationResult, LazyLocation, Report, Stop, Validate, ValidationContext,
};
use jskw_value::{Array, Json, Node};
use std::alloc::{AllocError, Global};

/// The validator of one schema for the items from an index on. It accepts an array in which each of
/// these items is valid, and every non-array.
#[cycle(schema)]
#[derive(Drop)]
#[derive_where(Debug)]
pub struct Rest<F: Json> {
    pub(crate) start: usize,
    pub(crate) node: Subschema<F>,
    // the keyword is `additionalItems`, whose unit has the errors and no nodes below; otherwise it
    // is `items`
    pub(crate) is_additional: bool,
}

impl<F: Json> Rest<F> {
    // Returns the unit of `additionalItems`, which has the errors and no nodes below.
    fn evaluate_additional(
        &self,
        alloc: Global,
        instance: &F::Node,
        location: &mut LazyLocation,
        ctx: &mut ValidationContext,
    ) -> Result<EvaluationResult, AllocError>
        requires lawful { IsTrue (is_lawful (F.Node.tree instance.now)) }
        requires additional { self.now.is_additional ≡ true }
        ensures gives { IfOk result (λ r. result_of r
            ≡ unit (rest_keyword self.now) (F.Node.tree instance.now) (path_of location.old)) }
        ensures location { location.new ≡ location.old }
        ensures counted { CountsUpTo ctx.old ctx.new
            (keyword_pairs (rest_keyword self.now) (F.Node.tree instance.now)) }
    {
        let mut errors = Vec::new(alloc);
        self.collect_errors(instance, location, ctx, &mut errors)?;
        evaluate_errors(alloc, errors.as_slice())
    }
}

impl<F: Json> Validate<F> for Rest<F> {
    ghost meaning = { λ v. one_keyword (rest_keyword v) };

    #[inline(never)]
    #[cycle(is_valid)]
    fn is_valid(&self, instance: &F::Node, ctx: &mut ValidationContext) -> bool {
        let count = instance.item_count();
        for index in self.node.skip(self.start, instance, ctx)..count {
            if !self.node.is_valid(instance.item(index), ctx) {
                return false;
            }
        }
        true
    }

    #[inline(always)]
    #[cycle(report)]
    fn report_errors<'i>(
        &'i self,
        instance: &'i F::Node,
        location: &mut LazyLocation,
        ctx: &mut ValidationContext,
        report: &mut Report<'i, F>,
    ) -> Result<(), Stop> {
        let count = instance.item_count();
        for index in self.node.skip(self.start, instance, ctx)..count {
            self.node
                .report_item(index, instance.item(index), location, ctx, report)?;
        }
        Ok(())
    }

    #[cycle(evaluate)]
    fn evaluate(
        &self,
        alloc: Global,
        instance: &F::Node,
        location: &mut LazyLocation,
        ctx: &mut ValidationContext,
    ) -> Result<EvaluationResult, AllocError> {
        if self.is_additional {
            return self.evaluate_additional(alloc, instance, location, ctx);
        }
        let count = instance.item_count();
        let mut children = Vec::with_capacity(alloc, count.saturating_sub(self.start))?;
        for index in self.start..count {
            let item = instance.item(index);
            let made = self.node.evaluate_item(alloc, index, item, location, ctx);
            push_item(made, &mut children)?;
        }
        Ok(items_unit(alloc, self.start, children, instance))
    }
}

// Returns the validator of a schema, if that was compiled, for the items from `start` on.
#[inline(never)]
pub(crate) fn of_schema<'a, F: Json>(
    start: usize,
    is_additional: bool,
    compiled: CompilationResult<'a, Subschema<F>>,
) -> CompilationResult<'a, Validator<F>>
    ensures { (read : Reading) → CompilesTo (λ s. s) compiled.entry read
        → CompilesTo validator_keyword result (map_ok
        (λ s. rest_of is_additional start s false) read) }
{
    Ok(Validator::Rest(Rest {
        start,
        node: compiled?,
        is_additional,
    }))
}
