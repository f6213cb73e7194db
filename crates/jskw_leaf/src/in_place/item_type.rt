//! `items` of a schema that has only `type` (JSON Schema Core 10.3.1.2, Validation 6.1.1): each
//! item is tested in place, and no subschema is applied.
ghost use Rattle.std.specs.Prelude.{◌≡◌, ◌≤◌, ◌+◌, if◌then◌else◌};
ghost use Rattle.std.specs.Prelude.{◌&&◌, IfOk, IsTrue, Some, drop, length, nat_lt, true};
ghost use Rattle.jskw_value.specs.Tree.{is_array, is_lawful, items};
ghost use Rattle.jskw_report.specs.Evaluation.{flag, of_children, tree, valid_unit};
ghost use Rattle.jskw_report.specs.EvaluationView.{result_of};
ghost use Rattle.jskw_report.specs.Holds.{assertion_holds, is_integer_by};
ghost use Rattle.jskw_report.specs.Keyword.{as_written, type_is};
ghost use Rattle.jskw_report.specs.Meaning.{as_keyword, one_keyword};
ghost use Rattle.jskw_report.specs.declared.error.TypeKind.TheVariants.{Single};
ghost use Rattle.jskw_number.specs.QuickSet.{leading};
ghost use Rattle.jskw_leaf.specs.Items.{bare_items, bare_schema, items_type};
ghost use Rattle.jskw_leaf.specs.Meaning.{leaf_keyword, rule_of, single_type, type_at};

use super::assertion_node::evaluate_assertion;
use crate::leaf::LeafValidator;
use crate::legacy::type_draft_4;
use crate::type_::{
    BooleanType, IntegerRule, IntegerType, NumberType, SingleTypeValidator, StringType, TypeTest,
    TypeValidator,
};
use jskw_report::{
    Annotations, Assertion, EvaluationNode, EvaluationResult, KeywordLocation, LazyLocation,
    Location, Report, Stop, TypeKind, Validate, ValidationContext,
};
use jskw_value::{Array, Json, JsonNumber, JsonType, Node};
use std::alloc::{AllocError, Global};
use std::marker::PhantomData;

/// A type that items are tested for in place.
pub trait ItemType: TypeTest {
    /// Returns the validator of the type. `location` is the keyword location of `type` in `items`.
    fn compile_type<F: Json>(location: Location) -> LeafValidator<F>
        ensures { leaf_keyword result ≡ as_keyword (type_at Self.json_type Self.rule location) };
}

// Returns the validator of one type.
fn typed<F: Json>(json_type: JsonType, rule: IntegerRule, location: Location) -> LeafValidator<F>
    ensures { leaf_keyword result ≡ as_keyword (type_at json_type (rule_of rule) location) }
{
    let location = KeywordLocation::from(location);
    LeafValidator::Types(TypeValidator::new(TypeKind::Single(json_type), rule, location))
}

/// Tests items for the type number.
pub type NumberItems = NumberType;

impl ItemType for NumberItems {
    fn compile_type<F: Json>(location: Location) -> LeafValidator<F> {
        typed(JsonType::Number, IntegerRule::ByValue, location)
    }
}

/// Tests items for the type string.
pub type StringItems = StringType;

impl ItemType for StringItems {
    fn compile_type<F: Json>(location: Location) -> LeafValidator<F> {
        typed(JsonType::String, IntegerRule::ByValue, location)
    }
}

/// Tests items for the type boolean.
pub type BooleanItems = BooleanType;

impl ItemType for BooleanItems {
    fn compile_type<F: Json>(location: Location) -> LeafValidator<F> {
        typed(JsonType::Boolean, IntegerRule::ByValue, location)
    }
}

/// Tests items for the type integer after Draft 4: a number whose fractional part is zero.
pub type IntegerItems = IntegerType;

impl ItemType for IntegerItems {
    fn compile_type<F: Json>(location: Location) -> LeafValidator<F> {
        typed(JsonType::Integer, IntegerRule::ByValue, location)
    }
}

/// Tests items for the type integer of Draft 4: a number that is written without a fraction.
pub type IntegerItemsDraft4 = type_draft_4::IntegerType;

impl ItemType for IntegerItemsDraft4 {
    fn compile_type<F: Json>(location: Location) -> LeafValidator<F> {
        typed(JsonType::Integer, IntegerRule::AsWritten, location)
    }
}

/// The validator of `items` of a schema that has only `type`. It accepts an array whose items are
/// all of the type, and every non-array. It applies no subschema.
#[derive(Drop)]
#[derive_where(Debug)]
pub struct ItemsTypeValidator<T: ItemType, F: Json> {
    // that of `items`
    location: KeywordLocation,
    // that of the `type` in it
    validator: SingleTypeValidator<T>,
    representation: PhantomData<F>,
}

impl<T: ItemType, F: Json> ItemsTypeValidator<T, F> {
    /// Creates the validator. The arguments are the keyword locations of `items` and of the `type`
    /// in it.
    pub fn new(
        location: KeywordLocation,
        type_location: KeywordLocation,
    ) -> ItemsTypeValidator<T, F>
        ensures { items_type T.json_type T.rule result
            ≡ bare_items location (type_at T.json_type T.rule type_location) }
    {
        ItemsTypeValidator {
            location,
            validator: SingleTypeValidator::at(type_location),
            representation: PhantomData,
        }
    }

    // Returns the evaluation of the item at `path` by a schema that has only `type`.
    fn evaluate_item(
        &self,
        alloc: Global,
        item: &F::Node,
        path: &Location,
    ) -> Result<EvaluationNode, AllocError>
        requires { IsTrue (is_lawful (F.Node.tree item.now)) }
        ensures { let check = single_type T.json_type T.rule self.now.validator in
            IfOk result (λ node. node ≡ tree (bare_schema self.now.location check)
            (F.Node.tree item.now) path.now) }
    {
        let (check, holds) = (&self.validator, T::matches::<F>(item));
        let mut children = Vec::with_capacity(alloc, 1)?;
        children.push(evaluate_assertion::<F, _>(alloc, check, holds, item, path)?)?;
        let result = EvaluationResult::from_children(alloc, children);
        EvaluationNode::at_keyword(alloc, result, &self.location, path)
    }
}

impl<T: ItemType, F: Json> Validate<F> for ItemsTypeValidator<T, F> {
    ghost meaning = { λ v. one_keyword (items_type T.json_type T.rule v) };

    fn is_valid(&self, instance: &F::Node, _ctx: &mut ValidationContext) -> bool {
        let count = instance.item_count();
        first_other::<T, F>(0, count, instance) == count
    }

    fn report_errors<'i>(
        &'i self,
        instance: &'i F::Node,
        location: &mut LazyLocation,
        ctx: &mut ValidationContext,
        report: &mut Report<'i, F>,
    ) -> Result<(), Stop> {
        let count = instance.item_count();
        let mut index = first_other::<T, F>(0, count, instance);
        while index < count {
            location.push(index)?;
            let item = instance.item(index);
            let answer = self.validator.report_errors(item, location, ctx, report);
            location.pop();
            answer?;
            index = first_other::<T, F>(index + 1, count, instance);
        }
        Ok(())
    }

    fn evaluate(
        &self,
        alloc: Global,
        instance: &F::Node,
        location: &mut LazyLocation,
        _ctx: &mut ValidationContext,
    ) -> Result<EvaluationResult, AllocError> {
        let count = instance.item_count();
        let mut children = Vec::with_capacity(alloc, count)?;
        for index in 0..count {
            location.push(index)?;
            let path = location.render();
            location.pop();
            children.push(self.evaluate_item(alloc, instance.item(index), &path?)?)?;
        }
        Ok(items_unit(alloc, 0, children, instance))
    }
}

// Returns the index of the first item from `from` on that is not of the type, or `count`, the number
// of items, if there is none.
#[inline(never)]
fn first_other<T: ItemType, F: Json>(from: usize, count: usize, instance: &F::Node) -> usize
    requires lawful { IsTrue (is_lawful (F.Node.tree instance.now)) }
    requires count { count ≡ length (items (F.Node.tree instance.now)) }
    requires from { from ≤ count }
    ensures first { result ≡ from + leading (assertion_holds (type_is (Single T.json_type) T.rule))
        (drop from (items (F.Node.tree instance.now))) }
    ensures within { result ≤ count }
{
    let mut index = from;
    // Four items a turn: a turn of one item is as long as its test.
    while count - index >= 4 && match_four::<T, F>(index, instance) {
        index += 4;
    }
    for rest in index..count {
        if !T::matches::<F>(instance.item(rest)) {
            return rest;
        }
    }
    count
}

// Returns true only if the four items from `index` on are of the type. Of numbers with a fraction it
// is not asked whether they are integers, so that four integers take one jump together.
#[inline(always)]
fn match_four<T: ItemType, F: Json>(index: usize, instance: &F::Node) -> bool
    requires lawful { IsTrue (is_lawful (F.Node.tree instance.now)) }
    requires four { index + 4 ≤ length (items (F.Node.tree instance.now)) }
    requires word { index + 4 ≤ usize.MAX }
    ensures { let ts = items (F.Node.tree instance.now) in
        let matches = assertion_holds (type_is (Single T.json_type) T.rule) in
        result ≡ true → leading matches (drop index ts) ≡ 4 + leading matches (drop (index + 4) ts) }
{
    let (first, second) = (instance.item(index), instance.item(index + 1));
    let (third, fourth) = (instance.item(index + 2), instance.item(index + 3));
    if matches!(T::json_type(), JsonType::Integer) {
        return are_integers(first, second, third, fourth);
    }
    T::matches::<F>(first)
        && T::matches::<F>(second)
        && T::matches::<F>(third)
        && T::matches::<F>(fourth)
}

// Returns whether the four instances are numbers that are written without a fraction.
#[inline(always)]
fn are_integers<N: Node>(first: &N, second: &N, third: &N, fourth: &N) -> bool
    requires { IsTrue (is_lawful (N.tree first.now) && is_lawful (N.tree second.now)
        && is_lawful (N.tree third.now) && is_lawful (N.tree fourth.now)) }
    ensures { let is = is_integer_by as_written in result
        ≡ (is (N.tree first.now) && is (N.tree second.now) && is (N.tree third.now) && is (N.tree fourth.now)) }
{
    match (
        first.as_number(),
        second.as_number(),
        third.as_number(),
        fourth.as_number(),
    ) {
        (Some(first), Some(second), Some(third), Some(fourth)) => {
            first.is_written_as_integer()
                & second.is_written_as_integer()
                & third.is_written_as_integer()
                & fourth.is_written_as_integer()
        }
        _ => false,
    }
}

/// Returns the evaluation of `items` of one schema (JSON Schema Core 10.3.1.2) for the items from
/// `start` on. `nodes` are the nodes of these items. The annotation is whether there are any. A
/// non-array gets no annotation.
pub fn items_unit<N: Node>(
    alloc: Global,
    start: usize,
    nodes: Vec<EvaluationNode>,
    instance: &N,
) -> EvaluationResult
    ensures { result_of result ≡ (if is_array (N.tree instance.now)
        then of_children (Some (flag (nat_lt start (length (items (N.tree instance.now)))))) nodes.items
        else valid_unit) }
{
    if !instance.is_array() {
        return EvaluationResult::valid_empty(alloc);
    }
    let mut unit = EvaluationResult::from_children(alloc, nodes);
    unit.annotate(Annotations::Bool(start < instance.item_count()));
    unit
}
