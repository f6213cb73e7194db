//! A schema for each item: `prefixItems` (JSON Schema Core 10.3.1.1), and `items` of an array of
//! schemas (Draft 7 Validation 6.4.1). A non-array has no items.
ghost use Rattle.std.specs.Prelude.{◌≡◌};
ghost use Rattle.jskw_array.specs.Words.{items, min, true, each_keyword, one_keyword, schemas_of};
ghost use Rattle.jskw_array.specs.Words.{Pointer, evaluate_pairs, result_of, schemas_delegate, unit};

use crate::evaluation::push_item;
use crate::node::Subschema;
use crate::prefix_items::prefix_unit;
use jskw_report::{
    EvaluationNode, EvaluationResult, LazyLocation, Report, Stop, Validate, ValidationContext,
};
use jskw_value::{Array, Json, Node};
use std::alloc::{AllocError, Global};

/// The validator of a list of schemas, each for the item at its index. It accepts an array in which
/// each item that has a schema is valid, and every non-array.
#[cycle(schema)]
#[derive(Drop)]
#[derive_where(Debug)]
pub struct Each<F: Json> {
    pub(crate) nodes: Vec<Subschema<F>>,
    // the keyword is `prefixItems`, whose unit has an annotation; otherwise it is `items`
    pub(crate) is_prefix: bool,
}

impl<F: Json> Each<F> {
    // Returns the unit for an instance whose items that have a schema have these nodes.
    fn unit(
        &self,
        alloc: Global,
        children: Vec<EvaluationNode>,
        instance: &F::Node,
    ) -> EvaluationResult
        ensures { let t = F.Node.tree instance.now in (p : Pointer) → children.items
            ≡ evaluate_pairs (schemas_of self.now.nodes.items) 0 (items t) p
            → result_of result ≡ unit (each_keyword self.now) t p }
    {
        if self.is_prefix {
            prefix_unit(alloc, self.nodes.len(), children, instance)
        } else {
            EvaluationResult::from_children(alloc, children)
        }
    }
}

impl<F: Json> Validate<F> for Each<F> {
    ghost meaning = { λ v. one_keyword (each_keyword v) };

    #[inline(never)]
    #[cycle(is_valid)]
    fn is_valid(&self, instance: &F::Node, ctx: &mut ValidationContext) -> bool {
        let count = instance.item_count().min(self.nodes.len());
        for index in 0..count {
            if !self.nodes[index].is_valid(instance.item(index), ctx) {
                return false;
            }
        }
        true
    }

    #[inline(always)]
    #[cycle(report)]
    fn report_errors<'i>(
        &'i self,
        instance: &'i F::Node,
        location: &mut LazyLocation,
        ctx: &mut ValidationContext,
        report: &mut Report<'i, F>,
    ) -> Result<(), Stop> {
        let count = instance.item_count().min(self.nodes.len());
        for index in 0..count {
            self.nodes[index].report_item(index, instance.item(index), location, ctx, report)?;
        }
        Ok(())
    }

    #[cycle(evaluate)]
    fn evaluate(
        &self,
        alloc: Global,
        instance: &F::Node,
        location: &mut LazyLocation,
        ctx: &mut ValidationContext,
    ) -> Result<EvaluationResult, AllocError> {
        let count = instance.item_count().min(self.nodes.len());
        let mut children = Vec::with_capacity(alloc, count)?;
        for index in 0..count {
            let item = instance.item(index);
            let made = self.nodes[index].evaluate_item(alloc, index, item, location, ctx);
            push_item(made, &mut children)?;
        }
        Ok(self.unit(alloc, children, instance))
    }
}

// Returns whether the `required` of some schema, or of a subschema of it, is delegated.
#[tactic(auto, using(crate::proofs::KeywordsOfParts::schemas_delegate_at, crate::proofs::KeywordsOfParts::schemas_delegate_end))]
pub(crate) fn some_schema_delegates<F: Json>(nodes: &[Subschema<F>]) -> bool
    ensures { result ≡ schemas_delegate (schemas_of nodes.now) }
{
    for node in nodes {
        if node.hands_on_required() {
            return true;
        }
    }
    false
}
