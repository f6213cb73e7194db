//! The compile and the observers of schemas and of keywords by themselves, and what is not checked. What was
//! compiled is passed on at once: where a validator of a known type may be dropped, the checker goes
//! through all that it may be.
ghost use Rattle.std.specs.Prelude.{IsTrue};
ghost use Rattle.jskw_value.specs.Tree.{is_lawful};

use super::settings_of;
use crate::asked::Asked;
use crate::members::{Keys, items_of, tree_of};
use crate::printer::Printer;
use jskw_array::SchemaNode;
use jskw_array::compiler::compile;
use jskw_array::items::array_shape_fusion;
use jskw_leaf::is_leaf;
use jskw_report::{
    CompilationResult, CompileFault, Context, EvaluationNode, Fault, KeywordName, Location,
    LocationSegment, Settings, Validate, ValidationContext, ValidationError, ValidationErrorKind,
};
use jskw_unchecked::unchecked;
use jskw_value::{DecimalJson, Json, Node, SerdeJson};
use serde_json::Value;

/// Makes the calls of a kind that takes a draft, the rest of the settings, a schema and an instance, over
/// the representation of the line. A tree of decimals is read from a text.
pub(super) fn ask<'r>(to: &mut Printer<'r>, arguments: &'r [Value]) {
    let [Value::String(draft), group, schema, instance] = arguments else {
        return to.check(false);
    };
    to.layer = group.get("noObjectLayer").is_none();
    to.limits = items_of(group.get("limits").unwrap_or(group));
    let Some(settings) = &settings_of(to.alloc, group, draft) else {
        return to.check(false);
    };
    let (tree, nodes) = (&tree_of(to.alloc, instance), to.nodes);
    if matches!(to.over, "decimals" | "lookups" | "walks") {
        to.push_node(tree);
    }
    match (to.kind, to.over) {
        ("unchecked", _) => ask_unchecked(to, settings, schema),
        (_, "") => ask_over::<SerdeJson>(to, settings, schema, instance),
        (_, "decimals") => ask_over::<DecimalJson>(to, settings, schema, tree),
        (_, "lookups") => ask_over::<Keys<0>>(to, settings, schema, tree),
        (_, "walks") => ask_over::<Keys<{ usize::MAX }>>(to, settings, schema, tree),
        (_, "counted nodes") => ask_over::<Asked>(to, settings, schema, nodes),
        _ => to.check(false),
    }
}

fn ask_unchecked(to: &mut Printer, settings: &Settings, schema: &Value) {
    let ctx: Context<SerdeJson> = Context::new(to.alloc, settings).with_object_layer(to.layer);
    to.announce("unchecked", "asked");
    let list = unchecked(to.alloc, &ctx, schema);
    to.tell(list.is_err());
    if let Ok(list) = &list {
        for member in list {
            let (at, reason) = (member.location().as_str(), member.reason().as_str());
            write!(to, "\n\t{at} {reason}");
        }
    }
}

// Asks the keywords of a schema one by one, below a member, and the schema.
fn ask_over<F: Json>(to: &mut Printer, settings: &Settings, schema: &Value, of: &F::Node) {
    let ctx: Context<F> = Context::new(to.alloc, settings).with_object_layer(to.layer);
    let below = ctx.new_at_location(to.alloc, LocationSegment::Name("a/b"));
    if let Some(below) = &to.made(below) {
        ask_keywords(to, below, schema, of);
        let is_below = to.kind == "below";
        ask_schema(to, if is_below { below } else { &ctx }, schema, of);
    }
}

// Compiles each keyword that is read and has no subschemas, and asks it by itself.
fn ask_keywords<F: Json>(to: &mut Printer, ctx: &Context<F>, schema: &Value, of: &F::Node) {
    let Value::Object(parent) = schema else {
        return;
    };
    for keyword in KeywordName::ALL {
        match parent.get(keyword.as_str()) {
            Some(value) if is_leaf(keyword) && keyword.is_active(ctx) => {
                let name = LocationSegment::Name(keyword.as_str());
                let at = ctx.location().join(to.alloc, name);
                if let Some(at) = &to.made(at) {
                    let made = jskw_leaf::compile(to.alloc, ctx, parent, keyword, value);
                    ask_keyword(to, &made, at, of);
                }
            }
            Some(_) if keyword.is_active(ctx) => to.push("\nwith subschemas"),
            _ => {}
        }
    }
    write!(to, "\nfusion {}", array_shape_fusion(ctx, parent));
}

// Asks a keyword at a location by itself. Of `leaves` each holds, and takes no memory.
fn ask_keyword<F: Json, V: Validate<F>>(
    to: &mut Printer,
    made: &Option<CompilationResult<'_, V>>,
    at: &Location,
    of: &F::Node,
) {
    let word = to.ready_or("called");
    to.announce(at.as_str(), word);
    match made {
        Some(Ok(it)) if of.is_lawful() => observe_keyword(to, it, at, of),
        _ => to.push_refused(made),
    }
}

fn observe_keyword<F: Json, V: Validate<F>>(to: &mut Printer, it: &V, at: &Location, of: &F::Node)
    requires { IsTrue (is_lawful (F.Node.tree of.now)) }
{
    let (mut errors, mut ctx) = (Vec::new(to.alloc), ValidationContext::new());
    let is_valid = it.is_valid(of, &mut ctx);
    let first = it.validate(of, &mut to.location, &mut ctx);
    let all = it.collect_errors(of, &mut to.location, &mut ctx, &mut errors);
    let unit = it.evaluate(to.alloc, of, &mut to.location, &mut ctx);
    to.tell_at(all.is_err(), &ctx);
    write!(to, "\n\t{is_valid}\n\tfirst");
    to.push_first(&first);
    to.push("\n\tall");
    to.push_errors(&errors);
    let place = to.location.render();
    if let (Some(unit), Some(place)) = (to.made(unit), to.made(place)) {
        let node = EvaluationNode::new(to.alloc, unit, at, &place);
        to.push_tree(&node);
    }
}

fn ask_schema<F: Json>(to: &mut Printer, ctx: &Context<F>, schema: &Value, of: &F::Node) {
    to.announce("compile", "asked");
    let made = Some(compile(to.alloc, ctx, schema));
    to.tell(matches!(made, Some(Err(CompileFault::Memory(_)))));
    to.push_refused(&made);
    if let Some(Ok(node)) = &made {
        ask_node(to, node, of);
    }
}

fn ask_node<F: Json>(to: &mut Printer, node: &SchemaNode<F>, of: &F::Node) {
    let (has_shape, delegates) = (node.array_shape().is_some(), node.hands_on_required());
    write!(to, "\n\tshape {has_shape}, delegates {delegates}");
    if of.is_lawful() {
        ask_whole(to, node, of);
        ask_list(to, &Value::Null, node, of);
        for limit in to.limits {
            ask_list(to, limit, node, of);
        }
        ask_trees(to, node, of);
    } else {
        let found = of.first_unlawful(to.alloc);
        if let Some(Some(at)) = to.made(found) {
            write!(to, "\n\tfloat at {at}");
        }
    }
}

// Asks `is_valid` and `validate`.
fn ask_whole<F: Json>(to: &mut Printer, node: &SchemaNode<F>, of: &F::Node)
    requires { IsTrue (is_lawful (F.Node.tree of.now)) }
{
    let (mut ctx, mut other) = (counted_one(), counted_one());
    to.announce("is_valid", "ready");
    let is_valid = node.is_valid(of, &mut ctx);
    to.tell_at(false, &ctx);
    write!(to, "\n\t{is_valid}");
    let word = to.ready_or("asked");
    to.announce("validate", word);
    let first = node.validate(of, &mut to.location, &mut other);
    to.tell_at(matches!(first, Err(Fault::Memory(_))), &other);
    to.push_first(&first);
}

// Asks for all errors, or for so many of the first, behind an old one.
fn ask_list<F: Json>(to: &mut Printer, most: &Value, node: &SchemaNode<F>, of: &F::Node)
    requires { IsTrue (is_lawful (F.Node.tree of.now)) }
{
    let (mut errors, mut ctx) = (Vec::new(to.alloc), counted_one());
    let (kind, at) = (ValidationErrorKind::UniqueItems, Location::new(to.alloc));
    let old = errors.push(ValidationError::new(kind, at, node.location(), of));
    to.check(old.is_ok());
    let (limit, word) = (most.as_u64(), to.ready_or("asked"));
    to.announce(
        limit.map_or("collect_errors", |_| "collect_first_errors"),
        word,
    );
    let at = &mut to.location;
    let made = match limit {
        Some(limit) => node.collect_first_errors(limit as usize, of, at, &mut ctx, &mut errors),
        None => node.collect_errors(of, at, &mut ctx, &mut errors),
    };
    to.tell_at(made.is_err(), &ctx);
    // of the old one the value at fault is left out
    if let [old, errors @ ..] = errors.as_slice() {
        write!(to, "\n\told {}", old.kind().keyword());
        to.push_errors(errors);
    }
}

// Asks for the trees of the instance as the whole one, and as part of another.
fn ask_trees<F: Json>(to: &mut Printer, node: &SchemaNode<F>, of: &F::Node)
    requires { IsTrue (is_lawful (F.Node.tree of.now)) }
{
    let (mut ctx, mut other) = (counted_one(), counted_one());
    to.announce("evaluate_instance", "asked");
    let tree = node.evaluate_instance(to.alloc, of, &mut ctx);
    to.tell_at(tree.is_err(), &ctx);
    to.push_tree(&tree);
    to.announce("evaluate_instance_below", "asked");
    let tree = node.evaluate_instance_below(to.alloc, of, &mut to.location, &mut other);
    to.tell_at(tree.is_err(), &other);
    to.push_tree(&tree);
}

// A context that has counted an application of before.
fn counted_one() -> ValidationContext {
    let mut ctx = ValidationContext::new();
    ctx.count_one();
    ctx
}
