//! `type` of `array`, `minItems` and `maxItems` of the fused shape of an array.
ghost use Rattle.std.specs.Prelude.{◌≡◌, ◌∷◌, [], IfOk, IfSome, IsTrue, is_some, length, true};
ghost use Rattle.serde_json.specs.View.{members_view};
ghost use Rattle.jskw_value.specs.Tree.{Tree, is_array as is_list, is_lawful, items};
ghost use Rattle.jskw_report.specs.Compile.{CompilesTo};
ghost use Rattle.jskw_report.specs.Evaluation.{node_at, unit, units};
ghost use Rattle.jskw_report.specs.Fail.{all_fail};
ghost use Rattle.jskw_report.specs.Holds.{all_hold};
ghost use Rattle.jskw_report.specs.Meaning.{as_keyword};
ghost use Rattle.jskw_report.specs.Observe.{Reports};
ghost use Rattle.jskw_report.specs.Paths.{path_of};
ghost use Rattle.jskw_report.specs.Read.{readings_named, read_keywords};
ghost use Rattle.jskw_report.specs.Sibling.{is_fused, takes_size};
ghost use Rattle.jskw_number.specs.Meaning.{max_items, min_items, sized};
ghost use Rattle.jskw_number.specs.Size.{size_of, size_keyword_name};
ghost use Rattle.jskw_leaf.specs.Items.{AppendsItems, absorbed_bounds, absorbed_keywords, absorbed_type};
ghost use Rattle.jskw_leaf.specs.Items.{count_of, optional};
ghost use Rattle.jskw_leaf.specs.Meaning.{leaf_assertion};

use super::assertion_node::evaluate_assertion;
use crate::leaf::LeafValidator;
use crate::type_::{ArrayTypeValidator, IntegerRule, TypeValidator};
use jskw_number::NumberValidator;
use jskw_number::max_items::MaxItemsValidator;
use jskw_number::min_items::MinItemsValidator;
use jskw_number::sizes::SizeLimit;
use jskw_report::assertion::report_assertion;
use jskw_report::context::member_of;
use jskw_report::{
    Assertion, CompilationResult, Context, EvaluationNode, KeywordName, LazyLocation, Location,
    Report, Stop, TypeKind,
};
use jskw_value::{Array, Json, JsonType, Node};
use serde_json::{Map, Value};
use std::alloc::{AllocError, Global};

/// The validators of `type` of `array`, `minItems` and `maxItems` (JSON Schema Validation 6.1.1,
/// 6.4.2, 6.4.1) in the fused shape: those that the schema has.
#[derive(Debug, Drop)]
pub struct AbsorbedKeywords {
    type_: ArrayTypeValidator,
    min_items: Option<MinItemsValidator>,
    max_items: Option<MaxItemsValidator>,
}

impl AbsorbedKeywords {
    /// Compiles the keywords of `parent`, for which
    /// [`array_shape_fusion`](crate::in_place::array_shape_fusion) must be true. In a box they take no
    /// room in the frames of a deep schema.
    ///
    /// # Errors
    ///
    /// Fails only if memory runs out.
    #[inline(never)]
    pub fn compile<'a, F: Json>(
        alloc: Global,
        ctx: &Context<'_, F>,
        parent: &'a Map<String, Value>,
    ) -> CompilationResult<'a, Box<AbsorbedKeywords>>
        requires { IsTrue (is_fused ctx.now.setting (members_view parent.now.entries)) }
        ensures { let ms = members_view parent.now.entries in
            CompilesTo (λ a. absorbed_keywords a.value) result
            (read_keywords (KeywordName.TypeKeyword ∷ KeywordName.MinItems ∷ KeywordName.MaxItems ∷ [])
            ctx.now.setting ctx.now.location ms (λ name. readings_named name ms)) }
    {
        let location = ctx.keyword_location(alloc, KeywordName::TypeKeyword)?;
        let min_items = compile_bound::<true, F>(alloc, ctx, parent)?;
        let max_items = compile_bound::<false, F>(alloc, ctx, parent)?;
        let absorbed = AbsorbedKeywords {
            type_: ArrayTypeValidator::at(location),
            min_items,
            max_items,
        };
        Ok(Box::new(alloc, absorbed)?)
    }

    /// Returns a validator of `type` alone. Fails only if memory runs out.
    pub fn type_validator<F: Json>(&self) -> Result<LeafValidator<F>, AllocError>
        ensures { IfOk result (λ v. leaf_assertion v ≡ absorbed_type self.now) }
    {
        let location = self.type_.location().copy()?;
        let kind = TypeKind::Single(JsonType::Array);
        let validator = TypeValidator::new(kind, IntegerRule::ByValue, location);
        Ok(LeafValidator::Types(validator))
    }

    /// Returns a validator of `minItems` alone, if the schema has it. Fails only if memory runs out.
    pub fn min_validator<F: Json>(&self) -> Result<Option<LeafValidator<F>>, AllocError>
        ensures { IfOk result (λ o. optional leaf_assertion o ≡ optional min_items self.now.min_items) }
    {
        let Some(bound) = &self.min_items else {
            return Ok(None);
        };
        let validator = NumberValidator::MinItems(bound.copy()?);
        Ok(Some(LeafValidator::Number(validator)))
    }

    /// Returns a validator of `maxItems` alone, if the schema has it. Fails only if memory runs out.
    pub fn max_validator<F: Json>(&self) -> Result<Option<LeafValidator<F>>, AllocError>
        ensures { IfOk result (λ o. optional leaf_assertion o ≡ optional max_items self.now.max_items) }
    {
        let Some(bound) = &self.max_items else {
            return Ok(None);
        };
        let validator = NumberValidator::MaxItems(bound.copy()?);
        Ok(Some(LeafValidator::Number(validator)))
    }

    /// Returns the number of items if the instance is an array that passes all three, else `None`.
    pub fn valid_count<N: Node>(&self, instance: &N) -> Option<usize>
        ensures holds { is_some result ≡ all_hold (absorbed_keywords self.now) (N.tree instance.now) }
        ensures count { IfSome result (λ n. n ≡ length (items (N.tree instance.now))) }
    {
        if !instance.is_array() {
            return None;
        }
        let length = Array::len(instance);
        let count = Some(length as u64);
        if bound_holds(&self.min_items, count) && bound_holds(&self.max_items, count) {
            Some(length)
        } else {
            None
        }
    }

    /// Adds the errors of the three to `report`, in order, until no other is wanted. The instance
    /// must be lawful.
    ///
    /// # Errors
    ///
    /// - [`Stop::Invalid`] if the instance is invalid and no other error is wanted.
    /// - [`Stop::Memory`] if memory runs out.
    pub fn report_errors<'i, F: Json>(
        &'i self,
        instance: &'i F::Node,
        location: &LazyLocation,
        report: &mut Report<'i, F>,
    ) -> Result<(), Stop>
        requires { IsTrue (is_lawful (F.Node.tree instance.now)) }
        ensures { Reports F.Node.tree report.old report.new (all_fail
            (absorbed_keywords self.now) (F.Node.tree instance.now) (path_of location.now)) result }
    {
        report_assertion(&self.type_, instance, location, report)?;
        report_bound(&self.min_items, instance, location, report)?;
        report_bound(&self.max_items, instance, location, report)
    }

    /// Appends the evaluation nodes of the three for the instance at `path`. If memory runs out, a
    /// beginning of the nodes is appended.
    pub fn evaluate<F: Json>(
        &self,
        alloc: Global,
        instance: &F::Node,
        path: &Location,
        children: &mut Vec<EvaluationNode>,
    ) -> Result<(), AllocError>
        ensures { AppendsItems children.old.items children.new.items (units (absorbed_keywords self.now)
            (F.Node.tree instance.now) path.now) result }
    {
        let is_array = instance.is_array();
        children.push(self.evaluate_type::<F>(alloc, instance, is_array, path)?)?;
        let length = instance.item_count() as u64;
        let count = if is_array { Some(length) } else { None };
        self.evaluate_counts::<F>(alloc, instance, count, path, children)
    }

    /// Returns the evaluation node of `type` for an instance at `instance_location`. `is_array`
    /// must be true exactly if the instance is an array. Fails only if memory runs out.
    pub fn evaluate_type<F: Json>(
        &self,
        alloc: Global,
        instance: &F::Node,
        is_array: bool,
        instance_location: &Location,
    ) -> Result<EvaluationNode, AllocError>
        requires { is_array ≡ is_list (F.Node.tree instance.now) }
        ensures { let a = absorbed_type self.now in IfOk result (λ node. node
            ≡ node_at a.location instance_location.now
            (unit (as_keyword a) (F.Node.tree instance.now) instance_location.now)) }
    {
        let type_ = &self.type_;
        evaluate_assertion::<F, _>(alloc, type_, is_array, instance, instance_location)
    }

    /// Appends the evaluation nodes of `minItems` and `maxItems`, if the schema has them, for an
    /// instance at `instance_location`. `count` must be the number of items, or `None` for a
    /// non-array. If memory runs out, a beginning of the nodes is appended.
    pub fn evaluate_counts<F: Json>(
        &self,
        alloc: Global,
        instance: &F::Node,
        count: Option<u64>,
        instance_location: &Location,
        children: &mut Vec<EvaluationNode>,
    ) -> Result<(), AllocError>
        requires { count ≡ count_of (F.Node.tree instance.now) }
        ensures { AppendsItems children.old.items children.new.items (units (absorbed_bounds self.now)
            (F.Node.tree instance.now) instance_location.now) result }
    {
        let path = instance_location;
        let holds = bound_holds(&self.min_items, count);
        evaluate_bound::<F, _>(alloc, &self.min_items, holds, instance, path, children)?;
        let holds = bound_holds(&self.max_items, count);
        evaluate_bound::<F, _>(alloc, &self.max_items, holds, instance, path, children)
    }
}

// Compiles `minItems` if `IS_LEAST`, else `maxItems`. Returns `None` if `parent` lacks it.
fn compile_bound<'a, const IS_LEAST: bool, F: Json>(
    alloc: Global,
    ctx: &Context<'_, F>,
    parent: &'a Map<String, Value>,
) -> CompilationResult<'a, Option<SizeLimit<true, IS_LEAST>>>
    requires { IsTrue (takes_size ctx.now.setting (members_view parent.now.entries)
        (size_keyword_name (size_of true IS_LEAST))) }
    ensures { let which = size_of true IS_LEAST in let ms = members_view parent.now.entries in
        CompilesTo (optional (sized which)) result (read_keywords (size_keyword_name which ∷ []) ctx.now.setting
        ctx.now.location ms (λ name. readings_named name ms)) }
{
    let Some(value) = member_of(parent, bound_keyword::<IS_LEAST>().as_str()) else {
        return Ok(None);
    };
    Ok(Some(SizeLimit::compile(alloc, ctx, value)?))
}

// Returns `minItems` if `IS_LEAST`, else `maxItems`.
fn bound_keyword<const IS_LEAST: bool>() -> KeywordName
    ensures { result ≡ size_keyword_name (size_of true IS_LEAST) }
{
    if IS_LEAST {
        KeywordName::MinItems
    } else {
        KeywordName::MaxItems
    }
}

// Returns whether the bound, if there is one, holds for an array of `count` items, or for a
// non-array if `count` is `None`.
fn bound_holds<const IS_LEAST: bool>(
    bound: &Option<SizeLimit<true, IS_LEAST>>,
    count: Option<u64>,
) -> bool
    ensures { (t : Tree) → count ≡ count_of t
        → result ≡ all_hold (optional (sized (size_of true IS_LEAST)) bound.now) t }
{
    match (bound, count) {
        (Some(bound), Some(count)) => bound.accepts(count),
        _ => true,
    }
}

// Adds the error of the bound to `report`, unless it holds or there is none.
fn report_bound<'i, F: Json, A: Assertion>(
    bound: &'i Option<A>,
    instance: &'i F::Node,
    location: &LazyLocation,
    report: &mut Report<'i, F>,
) -> Result<(), Stop>
    requires { IsTrue (is_lawful (F.Node.tree instance.now)) }
    ensures { Reports F.Node.tree report.old report.new (all_fail
        (optional A.asserts bound.now) (F.Node.tree instance.now) (path_of location.now)) result }
{
    match bound {
        Some(bound) => report_assertion(bound, instance, location, report),
        None => Ok(()),
    }
}

// Appends the evaluation node of the bound, if there is one. `holds` must be whether it holds for
// the instance.
fn evaluate_bound<F: Json, A: Assertion>(
    alloc: Global,
    bound: &Option<A>,
    holds: bool,
    instance: &F::Node,
    path: &Location,
    children: &mut Vec<EvaluationNode>,
) -> Result<(), AllocError>
    requires { holds ≡ all_hold (optional A.asserts bound.now) (F.Node.tree instance.now) }
    ensures { AppendsItems children.old.items children.new.items (units (optional A.asserts bound.now)
        (F.Node.tree instance.now) path.now) result }
{
    let Some(bound) = bound else {
        return Ok(());
    };
    children.push(evaluate_assertion::<F, A>(alloc, bound, holds, instance, path)?)?;
    Ok(())
}
