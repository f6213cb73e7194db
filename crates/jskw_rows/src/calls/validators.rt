//! Calls of settings, of contexts, of keywords by themselves, and of validators that are made by hand.
#![tactic(auto, using(jskw_value::proofs::DecimalTrees::lawful_tree))]

use super::settings_of;
use crate::members::{Members, text_of, tree_of, value};
use crate::printer::Printer;
use jskw_array::additional_items;
use jskw_array::compiler::compile;
use jskw_array::items::{self, ArrayShapeValidator, ItemType};
use jskw_leaf::legacy::type_draft_4;
use jskw_leaf::{boolean, required, type_};
use jskw_number::helpers::map_get_u64;
use jskw_number::minmax::{Above, AtLeast, AtMost, Below, Limit, LimitTest, Whole};
use jskw_report::Vocabulary::{Applicator, Core, Validation};
use jskw_report::context::member_of;
use jskw_report::{
    CompilationResult, Context, Location, LocationSegment, Settings, Validate, ValidationContext,
    VocabularySet,
};
use jskw_service::vocabularies_of;
use jskw_value::{DecimalJson, DecimalTree, Node};
use serde_json::Value;
use std::alloc::AllocError;

type Ctx<'s> = Context<'s, DecimalJson>;

type Made<'a, V> = Option<CompilationResult<'a, V>>;

/// Makes a call of this kind under the settings that stand first, and appends what it returns.
pub(super) fn push_case(to: &mut Printer, kind: &str, case: &Value) {
    let settings = settings_of(to.alloc, value(case, 1), text_of(value(case, 0)));
    let (Some(settings), Value::Object(parent)) = (&settings, value(case, 1)) else {
        return to.push("no settings");
    };
    let ctx: Ctx = Context::new(to.alloc, settings);
    let instance = tree_of(to.alloc, value(case, 3));
    match kind {
        "Settings" => push_settings(to, settings, &ctx, case),
        "Context" => push_contexts(to, ctx, parent).unwrap_or(()),
        "map_get_u64" => push_bound(to, &ctx, parent, text_of(value(case, 2))),
        "additional_items" => push_rest(to, &ctx, parent, &instance),
        "ArrayShapeValidator" => push_shape(to, &ctx, value(case, 1), &instance),
        _ => to.push("an unknown call"),
    }
}

// What settings and a context under them say of the draft, the vocabularies and a name.
fn push_settings(to: &mut Printer, settings: &Settings, ctx: &Ctx, case: &Value) {
    let set = vocabularies_of(value(case, 1).get("vocabularies"));
    let set = set.unwrap_or(VocabularySet::empty());
    let is_all = set == VocabularySet::all();
    let (own, of_context) = (settings.draft(), ctx.draft());
    write!(to, "{own:?} {of_context:?} {is_all}");
    for one in &[Core, Applicator, Validation] {
        let (has, also) = (settings.has_vocabulary(*one), ctx.has_vocabulary(*one));
        write!(to, " {one:?} {has} {also} {}", set.contains(*one));
    }
    let name = text_of(value(case, 2));
    let is_one = settings.is_keyword_overridden(name);
    write!(to, ", {is_one} {}", ctx.is_keyword_overridden(name));
}

// What contexts say of themselves: with the layer, without it, two below, and with the layer again. If memory
// runs out, the rest is missing in what is printed.
fn push_contexts(to: &mut Printer, whole: Ctx, parent: &Members) -> Result<(), AllocError> {
    push_context(to, &whole);
    let whole = whole.with_object_layer(false);
    push_context(to, &whole);
    let items = whole.new_at_location(to.alloc, LocationSegment::Name("items"))?;
    push_context(to, &items);
    let second = items.new_at_location(to.alloc, LocationSegment::Index(1))?;
    push_context(to, &second);
    push_context(to, &second.with_object_layer(true));
    let (x, y) = (member_of(parent, "x"), member_of(parent, "y"));
    write!(to, "{} {}", x.is_some(), y.is_some());
    Ok(())
}

fn push_context(to: &mut Printer, ctx: &Ctx) {
    let (location, layer) = (ctx.location().as_str(), ctx.object_layer());
    write!(to, "{location} {:?} {layer};", ctx.draft());
}

// The value of a limit of each relation that is made of 7 and that value.
pub(super) fn push_limits(to: &mut Printer, value: &Value) {
    push_limit::<i64, AtLeast>(to, 7, value);
    push_limit::<i64, AtMost>(to, 7, value);
    push_limit::<i64, Above>(to, 7, value);
    push_limit::<u64, Below>(to, 7, value);
}

fn push_limit<T: Whole, R: LimitTest>(to: &mut Printer, limit: T, value: &Value) {
    if let Some(value) = to.made(value.clone()) {
        let limit: Limit<T, R> = Limit::from((limit, value, Location::new(to.alloc)));
        to.push_json(limit.limit_value());
    }
}

// What each validator that is made for `/a` says of an item of the index 7.
pub(super) fn push_new(to: &mut Printer, case: &Value) {
    let item = &tree_of(to.alloc, value(case, 0));
    push_owned(boolean::FalseValidator::new(place(to)), to, item);
    push_owned(type_::ArrayTypeValidator::new(place(to)), to, item);
    push_owned(type_::BooleanTypeValidator::new(place(to)), to, item);
    push_owned(type_::IntegerTypeValidator::new(place(to)), to, item);
    push_owned(type_draft_4::IntegerTypeValidator::new(place(to)), to, item);
    push_owned(type_::NullTypeValidator::new(place(to)), to, item);
    push_owned(type_::NumberTypeValidator::new(place(to)), to, item);
    push_owned(type_::ObjectTypeValidator::new(place(to)), to, item);
    push_owned(type_::StringTypeValidator::new(place(to)), to, item);
    push_owned(items::BooleanItems::compile_type(place(to)), to, item);
    push_owned(items::IntegerItems::compile_type(place(to)), to, item);
    push_owned(items::IntegerItemsDraft4::compile_type(place(to)), to, item);
    push_owned(items::NumberItems::compile_type(place(to)), to, item);
    push_owned(items::StringItems::compile_type(place(to)), to, item);
}

// The location `/a`.
fn place(to: &mut Printer) -> Location {
    let root = Location::new(to.alloc);
    let place = root.join(to.alloc, LocationSegment::Name("a"));
    to.made(place).unwrap_or(root)
}

fn push_owned<V: Validate<DecimalJson> + Drop>(made: V, to: &mut Printer, item: &DecimalTree) {
    push_said(to, &made, item);
}

// Appends the first error, and how many subschemas the evaluation applies.
fn push_said<V: Validate<DecimalJson>>(to: &mut Printer, it: &V, item: &DecimalTree) {
    let (mut ctx, mut other) = (ValidationContext::new(), ValidationContext::new());
    let first = it.validate(item, &mut to.location, &mut ctx);
    to.push_if(first.is_ok(), "\n\tvalid");
    to.push_first(&first);
    let _ = it.evaluate(to.alloc, item, &mut to.location, &mut other);
    write!(to, ", applied {}", other.applications());
}

// What the validator of a value of `required` says, or why there is none.
pub(super) fn push_required(to: &mut Printer, case: &Value) {
    let (at, item) = (Location::new(to.alloc), tree_of(to.alloc, value(case, 1)));
    let made = required::compile_with_path::<DecimalJson>(to.alloc, value(case, 0), at);
    push_made(to, &made, &item);
}

// What a validator says, or why there is none.
fn push_made<V: Validate<DecimalJson>>(to: &mut Printer, made: &Made<'_, V>, item: &DecimalTree) {
    to.push_refused(made);
    if let Some(Ok(it)) = made {
        push_said(to, it, item);
    }
}

// The bound that a schema has as its member of this name.
fn push_bound(to: &mut Printer, ctx: &Ctx, parent: &Members, name: &str) {
    let made = map_get_u64(to.alloc, parent, ctx, name);
    to.push_refused(&made);
    if let Some(Ok(bound)) = &made {
        write!(to, "{bound}");
    }
}

// What `additionalItems` by itself says of an array.
fn push_rest(to: &mut Printer, ctx: &Ctx, parent: &Members, of: &DecimalTree) {
    let value = parent.get("additionalItems").unwrap_or(&Value::Null);
    let made = additional_items::compile(to.alloc, ctx, parent, value);
    push_made(to, &made, of);
}

// The nodes of `type`, `minItems` and `maxItems` of a fused shape; nothing of a schema without one.
fn push_shape(to: &mut Printer, ctx: &Ctx, schema: &Value, of: &DecimalTree) {
    let made = Some(compile(to.alloc, ctx, schema));
    to.push_refused(&made);
    if let Some(Ok(node)) = &made
        && let Some(shape) = node.array_shape()
    {
        push_absorbed(to, shape, of);
    }
}

fn push_absorbed(to: &mut Printer, shape: &ArrayShapeValidator<DecimalJson>, of: &DecimalTree) {
    let (alloc, absorbed, is_array) = (to.alloc, shape.absorbed(), of.is_array());
    let (at, mut nodes) = (Location::new(alloc), Vec::new(alloc));
    let node = absorbed.evaluate_type::<DecimalJson>(alloc, of, is_array, &at);
    to.push_tree(&node);
    let count = is_array.then_some(of.item_count() as u64);
    let made = absorbed.evaluate_counts::<DecimalJson>(alloc, of, count, &at, &mut nodes);
    to.check(made.is_ok());
    for node in nodes {
        to.push_tree(&Ok(node));
    }
}
