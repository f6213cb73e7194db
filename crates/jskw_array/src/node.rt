//! A compiled schema: the validators of its keywords, in the order in which a schema is read.
ghost use Rattle.std.specs.Prelude.{◌≡◌, ◌+◌, ◌-◌, ◌≤◌, if◌then◌else◌};
ghost use Rattle.jskw_array.specs.Words.{AllValid, IsBeginning, CountsUpTo, HasParts, IfOk, IfSome, IsTrue};
ghost use Rattle.jskw_array.specs.Words.{RemainingParts, Reports, applications, fail, hands_on_required};
ghost use Rattle.jskw_array.specs.Words.{keeps_list, holds, is_fused_schema, is_lawful, is_some, items};
ghost use Rattle.jskw_array.specs.Words.{length, item_location, keywords_in, min, needed, pairs, path_of};
ghost use Rattle.jskw_array.specs.Words.{schema_location, shape_keywords, sum_by, tree, true, PassesOver};
ghost use Rattle.jskw_array.specs.Words.{CountsBetween, items_between};

mod making;

use crate::accepted::{Accepted, first_outside};
use crate::evaluation::{begin_node, end_node, evaluate_refusal, push_unit};
use crate::items::ArrayShapeValidator;
use crate::part::{Part, first_shape, parts_are_valid};
pub use crate::schema::SchemaNode;
pub use crate::validator::Validator;
use jskw_number::QuickSet;
use jskw_report::validator::report_error;
use jskw_report::{
    EvaluationNode, KeywordLocation, LazyLocation, Report, Stop, Validate, ValidationContext,
    ValidationErrorKind,
};
use jskw_value::{Json, Node};
use std::alloc::{AllocError, Global};
use std::fmt;
use std::marker::Model;

// A schema or a subschema, compiled over the representation `F`: what a `SchemaNode` holds. Each of
// its observers has the condition and the contract of the one of `SchemaNode`.
#[cycle(schema)]
#[derive(Drop)]
pub(crate) struct Subschema<F: Json> {
    location: KeywordLocation,
    // the `required` of this schema is delegated
    delegates: bool,
    // the `required` of this schema or of a subschema is delegated
    delegates_any: bool,
    // what is known to be valid against the schema without a look at its keywords
    accepted: Accepted,
    assertions: Assertions<F>,
}

impl<F: Json> fmt::Debug for Subschema<F> {
    fn fmt<W: fmt::Write>(&self, f: &mut fmt::Formatter<W>) -> fmt::Result {
        f.debug_struct("Subschema")
            .field("location", &self.location)
            .finish_non_exhaustive()
    }
}

// What a schema asserts.
#[cycle(schema)]
#[derive(Drop)]
enum Assertions<F: Json> {
    // The schema `false`.
    Never,
    // The keywords of an object, none for `true`.
    Keywords(Vec<Part<F>>),
}

impl<F: Json> Model for Subschema<F> {
    ghost use Rattle.jskw_report.specs.Keyword.{Schema, hands_on_required};
    ghost use Rattle.jskw_report.specs.SchemaCode.{schema_code};

    ghost Value = { Schema };

    ghost coded = { schema_code };

    ghost use Rattle.std.specs.Prelude.{◌≡◌};
    ghost use Rattle.jskw_report.specs.Applications.{height};
    ghost use Rattle.jskw_array.specs.Node.{Knows, schema_of};

    ghost view = { λ n. schema_of n.location n.delegates n.assertions };

    ghost invariant = { λ n.
        (n.delegates_any ≡ hands_on_required (schema_of n.location n.delegates n.assertions))
        × Knows n.accepted n.assertions };

    ghost size = { height };

    ghost use Rattle.std.proofs.Common.{arith};
    ghost use Rattle.jskw_array.specs.Heights.{height_falls};

    ghost size_decreases = { λ n h. omega (
      arith,
      height_falls F.Node.Rooted F.Node.Object
          F.Node.Number.JsonNumber n.location n.delegates n.assertions,
    ) };
}

impl<F: Json> Subschema<F> {
    // Returns the keyword location of the schema.
    pub(crate) fn location(&self) -> &KeywordLocation
        ensures { result.now ≡ schema_location self.now }
    {
        &self.location
    }

    // Returns whether the `required` of the schema or of a subschema is delegated.
    pub(crate) fn hands_on_required(&self) -> bool
        ensures { result ≡ hands_on_required self.now }
    {
        self.delegates_any
    }

    // Returns the validator of the fused shape, if the schema has it.
    pub(crate) fn array_shape(&self) -> Option<&ArrayShapeValidator<F>>
        ensures fused { is_some result ≡ is_fused_schema self.now }
        ensures keywords { IfSome result (λ v. IsBeginning (shape_keywords v.now)
            (keywords_in self.now)) }
    {
        first_shape(self.parts()?)
    }

    // Returns the parts of the schema, or `None` for `false`.
    fn parts(&self) -> Option<&[Part<F>]>
        ensures { HasParts self.now result }
    {
        match &self.assertions {
            Assertions::Never => None,
            Assertions::Keywords(parts) => Some(parts.as_slice()),
        }
    }

    // Counts one application of the schema, and returns the parts that are not known to hold of the
    // instance, or `None` for `false`.
    fn count_and_remaining_parts(
        &self,
        instance: &F::Node,
        ctx: &mut ValidationContext,
    ) -> Option<&[Part<F>]>
        ensures parts { RemainingParts self.now (F.Node.tree instance.now) result }
        ensures applied { min (ctx.old + 1) u64.MAX ≤ ctx.new }
        ensures counted { CountsUpTo ctx.old ctx.new 1 }
    {
        ctx.count_one();
        let parts = match &self.assertions {
            Assertions::Never => return None,
            Assertions::Keywords(parts) => parts.as_slice(),
        };
        if self.accepted.settled.count > 0 && self.accepted.settled.outline.contains(instance) {
            Some(&parts[self.accepted.settled.count..])
        } else {
            Some(parts)
        }
    }

    // Returns values that are valid.
    pub(crate) fn values(&self) -> QuickSet
        ensures { AllValid result self.now }
    {
        self.accepted.values
    }

    // Applies the schema to the items from `start` on, as far as they are known to be valid without a
    // look at the keywords. Returns the index of the first that is not; if there is none, the number
    // of items, or `start` if that is past them.
    #[inline(always)]
    pub(crate) fn skip(
        &self,
        start: usize,
        instance: &F::Node,
        ctx: &mut ValidationContext,
    ) -> usize
        requires { IsTrue (is_lawful (F.Node.tree instance.now)) }
        ensures passed { PassesOver (holds self.now) (F.Node.tree instance.now) start result }
        ensures counted { CountsBetween ctx.old ctx.new (result - start)
            (sum_by (needed self.now) (items_between start result (F.Node.tree instance.now))) }
    {
        let count = instance.item_count();
        if start >= count {
            return start;
        }
        let first = self.accepted.values.first_outside(start, count, instance);
        ctx.count_more(first - start);
        if first >= count {
            return first;
        }
        self.skip_arrays(first, instance, ctx)
    }

    // `skip` by the length of arrays and their items.
    #[inline(never)]
    fn skip_arrays(&self, start: usize, instance: &F::Node, ctx: &mut ValidationContext) -> usize
        requires lawful { IsTrue (is_lawful (F.Node.tree instance.now)) }
        requires start { start ≤ length (items (F.Node.tree instance.now)) }
        ensures passed { PassesOver (holds self.now) (F.Node.tree instance.now) start result }
        ensures counted { CountsBetween ctx.old ctx.new (result - start)
            (sum_by (needed self.now) (items_between start result (F.Node.tree instance.now))) }
    {
        let Assertions::Keywords(parts) = &self.assertions else {
            return start;
        };
        if let Some(arrays) = &self.accepted.arrays {
            return arrays.skip(start, instance, ctx);
        }
        let settled = &self.accepted.settled;
        match &parts[settled.count..] {
            [part] => {
                let end = first_outside(&settled.outline, part, start, instance, ctx);
                ctx.count_more(end - start);
                end
            }
            _ => start,
        }
    }

    // Applies the schema to an instance that is known to be valid without a look at the keywords.
    // Returns whether it is; if not, nothing is applied.
    #[inline(always)]
    pub(crate) fn apply_if_accepted(&self, instance: &F::Node, ctx: &mut ValidationContext) -> bool
        requires { IsTrue (is_lawful (F.Node.tree instance.now)) }
        ensures valid { result ≡ true → holds self.now (F.Node.tree instance.now) ≡ true }
        ensures applied { result ≡ true → min (ctx.old + 1) u64.MAX ≤ ctx.new }
        ensures counted { CountsUpTo ctx.old ctx.new (if result then 1 else 0) }
    {
        let accepted = self.accepted.values.contains(instance);
        if accepted {
            ctx.count_one();
        }
        accepted
    }

    // Returns whether the instance is valid.
    #[inline(always)]
    #[cycle(is_valid)]
    pub(crate) fn is_valid(&self, instance: &F::Node, ctx: &mut ValidationContext) -> bool
        requires { IsTrue (is_lawful (F.Node.tree instance.now)) }
        ensures answer { result ≡ holds self.now (F.Node.tree instance.now) }
        ensures applied { min (ctx.old + 1) u64.MAX ≤ ctx.new }
        ensures counted { CountsUpTo ctx.old ctx.new (needed self.now (F.Node.tree instance.now)) }
    {
        self.apply_if_accepted(instance, ctx) || self.keywords_are_valid(instance, ctx)
    }

    // `is_valid` by the keywords.
    #[inline(never)]
    #[cycle(is_valid)]
    fn keywords_are_valid(&self, instance: &F::Node, ctx: &mut ValidationContext) -> bool
        requires { IsTrue (is_lawful (F.Node.tree instance.now)) }
        ensures answer { result ≡ holds self.now (F.Node.tree instance.now) }
        ensures applied { min (ctx.old + 1) u64.MAX ≤ ctx.new }
        ensures counted { CountsUpTo ctx.old ctx.new (needed self.now (F.Node.tree instance.now)) }
    {
        let Some(parts) = self.count_and_remaining_parts(instance, ctx) else {
            return false;
        };
        match parts {
            [part] => part.keyword().validator.is_valid(instance, ctx),
            _ => parts_are_valid(parts, instance, ctx),
        }
    }

    // Adds the errors to `report`, by the keywords, until no other is wanted.
    #[inline(never)]
    #[cycle(report)]
    pub(crate) fn report_errors<'i>(
        &'i self,
        instance: &'i F::Node,
        location: &mut LazyLocation,
        ctx: &mut ValidationContext,
        report: &mut Report<'i, F>,
    ) -> Result<(), Stop>
        requires { IsTrue (is_lawful (F.Node.tree instance.now)) }
        ensures reported { Reports F.Node.tree report.old report.new
            (fail self.now (F.Node.tree instance.now) (path_of location.old)) result }
        ensures location { location.new ≡ location.old }
        ensures applied { min (ctx.old + 1) u64.MAX ≤ ctx.new }
        ensures counted { CountsUpTo ctx.old ctx.new
            (applications (keeps_list report.old) self.now (F.Node.tree instance.now)) }
    {
        let Some(parts) = self.count_and_remaining_parts(instance, ctx) else {
            let kind = ValidationErrorKind::FalseSchema;
            return report_error(kind, self.location(), instance, location, report);
        };
        for part in parts {
            part.keyword()
                .validator
                .report_errors(instance, location, ctx, report)?;
        }
        Ok(())
    }

    // Adds the errors of the item at `index` of the instance at `location` to `report`, until no
    // other is wanted.
    #[inline(always)]
    #[cycle(report)]
    pub(crate) fn report_item<'i>(
        &'i self,
        index: usize,
        item: &'i F::Node,
        location: &mut LazyLocation,
        ctx: &mut ValidationContext,
        report: &mut Report<'i, F>,
    ) -> Result<(), Stop>
        requires { IsTrue (is_lawful (F.Node.tree item.now)) }
        ensures reported { Reports F.Node.tree report.old report.new (fail self.now
            (F.Node.tree item.now) (item_location (path_of location.old) index)) result }
        ensures location { location.new ≡ location.old }
        ensures counted { CountsUpTo ctx.old ctx.new
            (applications (keeps_list report.old) self.now (F.Node.tree item.now)) }
    {
        if self.apply_if_accepted(item, ctx) {
            return Ok(());
        }
        location.push(index)?;
        let reported = self.report_errors(item, location, ctx, report);
        location.pop();
        reported
    }

    // Returns the evaluation tree of the instance at `location`.
    #[cycle(evaluate)]
    pub(crate) fn evaluate_instance_below(
        &self,
        alloc: Global,
        instance: &F::Node,
        location: &mut LazyLocation,
        ctx: &mut ValidationContext,
    ) -> Result<EvaluationNode, AllocError>
        requires { IsTrue (is_lawful (F.Node.tree instance.now)) }
        ensures gives { IfOk result (λ node. node
            ≡ tree self.now (F.Node.tree instance.now) (path_of location.old)) }
        ensures location { location.new ≡ location.old }
        ensures applied { min (ctx.old + 1) u64.MAX ≤ ctx.new }
        ensures counted { CountsUpTo ctx.old ctx.new (pairs self.now (F.Node.tree instance.now)) }
    {
        ctx.count_one();
        let Some(parts) = self.parts() else {
            return evaluate_refusal::<F>(alloc, self.location(), instance, location);
        };
        let (path, mut children) = begin_node(alloc, location, parts.len())?;
        for part in parts {
            let keyword = part.keyword();
            let made = keyword.validator.evaluate(alloc, instance, location, ctx);
            push_unit(alloc, made, &keyword.location, &path, &mut children)?;
        }
        end_node(alloc, children, self.location(), &path)
    }

    // Returns the evaluation tree of the item at `index` of the instance at `location`.
    #[cycle(evaluate)]
    pub(crate) fn evaluate_item(
        &self,
        alloc: Global,
        index: usize,
        item: &F::Node,
        location: &mut LazyLocation,
        ctx: &mut ValidationContext,
    ) -> Result<EvaluationNode, AllocError>
        requires { IsTrue (is_lawful (F.Node.tree item.now)) }
        ensures gives { IfOk result (λ node. node ≡ tree self.now (F.Node.tree item.now)
            (item_location (path_of location.old) index)) }
        ensures location { location.new ≡ location.old }
        ensures counted { CountsUpTo ctx.old ctx.new (pairs self.now (F.Node.tree item.now)) }
    {
        location.push(index)?;
        let answer = self.evaluate_instance_below(alloc, item, location, ctx);
        location.pop();
        answer
    }
}
