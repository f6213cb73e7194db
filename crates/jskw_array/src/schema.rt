//! A compiled schema, as callers have it.
ghost use Rattle.std.specs.Prelude.{◌≡◌, ◌+◌, ◌≤◌};
ghost use Rattle.jskw_array.specs.Words.{Appends, CountsUpTo, IfOk, IfSome, IsBeginning, IsFirst, IsTrue};
ghost use Rattle.jskw_array.specs.Words.{[], fail, hands_on_required, holds, is_fused_schema, is_lawful, is_some};
ghost use Rattle.jskw_array.specs.Words.{keywords_in, min, needed, pairs, path_of, schema_location};
ghost use Rattle.jskw_array.specs.Words.{shape_keywords, take, tree};

use crate::items::ArrayShapeValidator;
use crate::node::Subschema;
use jskw_report::{
    EvaluationNode, Fault, LazyLocation, Location, Report, ValidationContext, ValidationError,
};
use jskw_value::Json;
use std::alloc::{AllocError, Global};
use std::fmt;
use std::marker::Model;

/// A compiled schema over the representation `F`. It keeps no reference to the schema's value, the
/// settings or the context, and validating changes nothing in it: one node serves for any number of
/// instances.
///
/// Each of its observers has one condition: the instance is lawful, that is, it contains no float;
/// `Node::is_lawful` returns whether it is. In contracts a node is the schema that it was compiled
/// from, keyword by keyword. `Debug` shows its keyword location alone.
pub struct SchemaNode<F: Json> {
    // that of the schema, as a text
    location: Location,
    schema: Subschema<F>,
}

impl<F: Json> fmt::Debug for SchemaNode<F> {
    fn fmt<W: fmt::Write>(&self, f: &mut fmt::Formatter<W>) -> fmt::Result {
        f.debug_struct("SchemaNode")
            .field("location", &self.location)
            .finish_non_exhaustive()
    }
}

// Written out: a derived one is proved again, with those of all validators, in each crate that drops
// a node.
impl<F: Json> Drop for SchemaNode<F> {
    fn drop(self) {
        let SchemaNode {
            location: _,
            schema: _,
        } = self;
    }
}

impl<F: Json> Model for SchemaNode<F> {
    ghost use Rattle.std.specs.Prelude.{◌≡◌};
    ghost use Rattle.jskw_report.specs.Keyword.{Schema, schema_location};
    ghost use Rattle.jskw_report.specs.SchemaCode.{schema_code};

    ghost Value = { Schema };

    ghost coded = { schema_code };

    ghost view = { λ n. n.schema };

    ghost invariant = { λ n. n.location ≡ schema_location n.schema };
}

impl<F: Json> SchemaNode<F> {
    // Creates the node of a schema.
    pub(crate) fn new(alloc: Global, schema: Subschema<F>) -> Result<SchemaNode<F>, AllocError>
        ensures { IfOk result (λ node. node ≡ schema) }
    {
        let location = schema.location().to_location(alloc)?;
        Ok(SchemaNode { location, schema })
    }

    /// Returns the schema's keyword location (JSON Schema Core 12.3.1).
    pub fn location(&self) -> &Location
        ensures { result.now ≡ schema_location self.now }
    {
        &self.location
    }

    /// Returns whether the `required` of the schema or of a subschema is delegated: it asserts
    /// nothing here, and is left to the object layer, as
    /// [`is_handed_on`](jskw_leaf::required::is_handed_on) says.
    pub fn hands_on_required(&self) -> bool
        ensures { result ≡ hands_on_required self.now }
    {
        self.schema.hands_on_required()
    }

    /// Returns the validator of `type`, `minItems`, `maxItems` and `items`, if they are checked
    /// together: exactly if [`array_shape_fusion`](crate::items::array_shape_fusion) returns true
    /// for the schema.
    pub fn array_shape(&self) -> Option<&ArrayShapeValidator<F>>
        ensures fused { is_some result ≡ is_fused_schema self.now }
        ensures keywords { IfSome result (λ v. IsBeginning (shape_keywords v.now)
            (keywords_in self.now)) }
    {
        self.schema.array_shape()
    }

    /// Returns whether the instance, which must be lawful, is valid (JSON Schema Core 7.6). Stops
    /// at the first failure. Allocates nothing.
    #[inline(always)]
    pub fn is_valid(&self, instance: &F::Node, ctx: &mut ValidationContext) -> bool
        requires { IsTrue (is_lawful (F.Node.tree instance.now)) }
        ensures answer { result ≡ holds self.now (F.Node.tree instance.now) }
        ensures applied { min (ctx.old + 1) u64.MAX ≤ ctx.new }
        ensures counted { CountsUpTo ctx.old ctx.new (needed self.now (F.Node.tree instance.now)) }
    {
        self.schema.is_valid(instance, ctx)
    }

    /// Returns `Ok` if the instance, which must be lawful, is valid. `location` is the location of
    /// the instance (JSON Schema Core 12.3.3), and is unchanged at every return.
    ///
    /// # Errors
    ///
    /// - [`Fault::Invalid`] with the first error if the instance is invalid.
    /// - [`Fault::Memory`] if memory runs out. This says nothing about the instance.
    #[inline(always)]
    pub fn validate<'i>(
        &'i self,
        instance: &'i F::Node,
        location: &mut LazyLocation,
        ctx: &mut ValidationContext,
    ) -> Result<(), Fault<'i, F>>
        requires { IsTrue (is_lawful (F.Node.tree instance.now)) }
        ensures first { IsFirst F.Node.tree
            (fail self.now (F.Node.tree instance.now) (path_of location.old)) result }
        ensures location { location.new ≡ location.old }
        ensures applied { min (ctx.old + 1) u64.MAX ≤ ctx.new }
        ensures counted { CountsUpTo ctx.old ctx.new (needed self.now (F.Node.tree instance.now)) }
    {
        if self.schema.apply_if_accepted(instance, ctx) {
            return Ok(());
        }
        let mut report = Report::First(None);
        let reported = self
            .schema
            .report_errors(instance, location, ctx, &mut report);
        report.first_result(reported)
    }

    /// Appends all errors of the instance, which must be lawful, to `errors`, in order. `location`
    /// is the location of the instance (JSON Schema Core 12.3.3), and is unchanged at every return.
    /// If memory runs out, `errors` keeps its old entries, followed by a beginning of the new ones.
    #[inline(always)]
    pub fn collect_errors<'i>(
        &'i self,
        instance: &'i F::Node,
        location: &mut LazyLocation,
        ctx: &mut ValidationContext,
        errors: &mut Vec<ValidationError<'i, F>>,
    ) -> Result<(), AllocError>
        requires { IsTrue (is_lawful (F.Node.tree instance.now)) }
        ensures appended { Appends F.Node.tree errors.old.items errors.new.items
            (fail self.now (F.Node.tree instance.now) (path_of location.old)) result }
        ensures location { location.new ≡ location.old }
        ensures applied { min (ctx.old + 1) u64.MAX ≤ ctx.new }
        ensures counted { CountsUpTo ctx.old ctx.new (pairs self.now (F.Node.tree instance.now)) }
    {
        if self.schema.apply_if_accepted(instance, ctx) {
            return Ok(());
        }
        let mut report = Report::appending_to(errors, None);
        let reported = self
            .schema
            .report_errors(instance, location, ctx, &mut report);
        report.into_list(reported, errors)
    }

    /// Appends the first errors of the instance, which must be lawful, to `errors`, in order: the
    /// first `limit` of those that [`collect_errors`](SchemaNode::collect_errors) appends, or all if
    /// there are fewer. Stops at the last one that is wanted; with the limit 0 it does nothing.
    /// `location` is the location of the instance (JSON Schema Core 12.3.3), and is unchanged at
    /// every return. If memory runs out, `errors` keeps its old entries, followed by a beginning of
    /// the new ones.
    pub fn collect_first_errors<'i>(
        &'i self,
        limit: usize,
        instance: &'i F::Node,
        location: &mut LazyLocation,
        ctx: &mut ValidationContext,
        errors: &mut Vec<ValidationError<'i, F>>,
    ) -> Result<(), AllocError>
        requires { IsTrue (is_lawful (F.Node.tree instance.now)) }
        ensures appended { Appends F.Node.tree errors.old.items errors.new.items (take limit
            (fail self.now (F.Node.tree instance.now) (path_of location.old))) result }
        ensures location { location.new ≡ location.old }
        ensures applied { 1 ≤ limit → min (ctx.old + 1) u64.MAX ≤ ctx.new }
        ensures none { limit ≡ 0 → ctx.new ≡ ctx.old }
        ensures counted { CountsUpTo ctx.old ctx.new (pairs self.now (F.Node.tree instance.now)) }
    {
        if limit == 0 {
            return Ok(());
        }
        if self.schema.apply_if_accepted(instance, ctx) {
            return Ok(());
        }
        let mut report = Report::appending_to(errors, Some(limit));
        let reported = self
            .schema
            .report_errors(instance, location, ctx, &mut report);
        report.into_list(reported, errors)
    }

    /// Returns the evaluation tree of a whole instance, which must be lawful (JSON Schema Core
    /// 12.3). Fails only if memory runs out.
    pub fn evaluate_instance(
        &self,
        alloc: Global,
        instance: &F::Node,
        ctx: &mut ValidationContext,
    ) -> Result<EvaluationNode, AllocError>
        requires { IsTrue (is_lawful (F.Node.tree instance.now)) }
        ensures gives { IfOk result (λ node. node ≡ tree self.now (F.Node.tree instance.now) []) }
        ensures applied { min (ctx.old + 1) u64.MAX ≤ ctx.new }
        ensures counted { CountsUpTo ctx.old ctx.new (pairs self.now (F.Node.tree instance.now)) }
    {
        let mut location = LazyLocation::new(alloc);
        self.evaluate_instance_below(alloc, instance, &mut location, ctx)
    }

    /// Returns the evaluation tree of the instance at `location`, as part of a larger one. The
    /// instance must be lawful. `location` is unchanged at every return. Fails only if memory runs
    /// out.
    pub fn evaluate_instance_below(
        &self,
        alloc: Global,
        instance: &F::Node,
        location: &mut LazyLocation,
        ctx: &mut ValidationContext,
    ) -> Result<EvaluationNode, AllocError>
        requires { IsTrue (is_lawful (F.Node.tree instance.now)) }
        ensures gives { IfOk result (λ node. node
            ≡ tree self.now (F.Node.tree instance.now) (path_of location.old)) }
        ensures location { location.new ≡ location.old }
        ensures applied { min (ctx.old + 1) u64.MAX ≤ ctx.new }
        ensures counted { CountsUpTo ctx.old ctx.new (pairs self.now (F.Node.tree instance.now)) }
    {
        self.schema
            .evaluate_instance_below(alloc, instance, location, ctx)
    }
}
