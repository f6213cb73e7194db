//! Times a compile, the observers of a schema, and the loop written by hand that goes with it.
use crate::by_hand;
use crate::timing::{COPIES, Instance, Row, Timing, decimal_trees, fastest, time_test};
use jskw_array::SchemaNode;
use jskw_array::compiler::compile;
use jskw_report::{Context, LazyLocation, Settings, ValidationContext, ValidationError};
use jskw_value::{DecimalJson, DecimalTree, Json, Node, SerdeJson};
use serde_json::Value;
use std::alloc::Global;
use std::io;

/// Compiles a schema; None if it is refused.
pub(crate) fn compiled<F: Json>(
    alloc: Global,
    settings: &Settings,
    schema: &Value,
) -> Option<SchemaNode<F>> {
    let ctx: Context<F> = Context::new(alloc, settings);
    compile(alloc, &ctx.with_object_layer(false), schema).ok()
}

// Compiles the schema `calls` times, and returns how often that succeeds.
fn count_compiled(alloc: Global, settings: &Settings, schema: &Value, calls: usize) -> usize {
    let mut count = 0usize;
    for _ in 0..calls {
        if compiled::<SerdeJson>(alloc, settings, schema).is_some() {
            count = count.wrapping_add(1);
        }
    }
    count
}

/// Times a compile.
pub(crate) fn time_compile(
    rt: &HostRuntime,
    span: u128,
    settings: &Settings,
    schema: &Value,
) -> io::Result<Timing> {
    let alloc = rt.alloc();
    let batch = |calls: usize| count_compiled(alloc, settings, schema, calls);
    fastest(rt, span, 1, batch)
}

/// Times `is_valid`.
pub(crate) fn time_is_valid(
    rt: &HostRuntime,
    span: u128,
    instances: &[Instance],
    node: &SchemaNode<SerdeJson>,
) -> io::Result<Timing> {
    time_test(rt, span, instances, |instance| {
        node.is_valid(&instance.value, &mut ValidationContext::new())
    })
}

/// Times `is_valid` over the trees of decimals that the text of an instance is read into; None if
/// there is no node or no tree.
pub(crate) fn time_decimals(
    rt: &HostRuntime,
    span: u128,
    settings: &Settings,
    schema: &Value,
    instance: &str,
) -> io::Result<Option<Timing>> {
    let alloc = rt.alloc();
    let Some(node) = compiled::<DecimalJson>(alloc, settings, schema) else {
        return Ok(None);
    };
    let Some(trees) = decimal_trees(alloc, instance)? else {
        return Ok(None);
    };
    let timing = time_test(rt, span, &trees, |tree| accepts_tree(&node, tree))?;
    Ok(Some(timing))
}

/// Returns whether a tree of decimals is valid.
#[inline(always)]
#[tactic(auto, using(jskw_value::proofs::DecimalTrees::lawful_tree))]
pub(crate) fn accepts_tree(node: &SchemaNode<DecimalJson>, tree: &DecimalTree) -> bool {
    node.is_valid(tree, &mut ValidationContext::new())
}

/// Times the other observers and `is_lawful`, and adds them to the row in this order: `validate`,
/// `collect_errors`, `evaluate_instance`, `is_lawful`.
pub(crate) fn time_others(
    rt: &HostRuntime,
    span: u128,
    instances: &[Instance],
    node: &SchemaNode<SerdeJson>,
    row: &mut Row,
) -> io::Result<()> {
    let alloc = rt.alloc();
    let validate = |rounds: usize| accepted::<false>(alloc, rounds, instances, node);
    row.add_answer(fastest(rt, span, COPIES, validate)?)?;
    let collect = |rounds: usize| accepted::<true>(alloc, rounds, instances, node);
    row.add_answer(fastest(rt, span, COPIES, collect)?)?;
    let evaluate = time_test(rt, span, instances, |i| is_evaluated(alloc, node, i))?;
    row.add_answer(evaluate)?;
    row.add(time_test(rt, span, instances, |i| i.value.is_lawful())?)?;
    Ok(())
}

// Returns how many calls accept their instance, in `rounds` rounds over the instances: of
// `collect_errors` if `ALL`, else of `validate`. The location and the list of errors are made once,
// as by a caller that makes many calls.
fn accepted<'i, const ALL: bool>(
    alloc: Global,
    rounds: usize,
    instances: &'i [Instance],
    node: &'i SchemaNode<SerdeJson>,
) -> usize {
    let mut location = LazyLocation::new(alloc);
    let mut errors = Vec::new(alloc);
    let mut count = 0usize;
    for _ in 0..rounds {
        let first = count;
        for step in 0..COPIES {
            let Some(instance) = instances.get(first.wrapping_add(step) % COPIES) else {
                continue;
            };
            let accepts = if ALL {
                has_no_errors(node, instance, &mut location, &mut errors)
            } else {
                has_no_first(node, instance, &mut location)
            };
            if accepts {
                count = count.wrapping_add(1);
            }
        }
    }
    count
}

#[inline(always)]
fn has_no_first(
    node: &SchemaNode<SerdeJson>,
    instance: &Instance,
    location: &mut LazyLocation,
) -> bool {
    let mut ctx = ValidationContext::new();
    node.validate(&instance.value, location, &mut ctx).is_ok()
}

#[inline(always)]
fn has_no_errors<'i>(
    node: &'i SchemaNode<SerdeJson>,
    instance: &'i Instance,
    location: &mut LazyLocation,
    errors: &mut Vec<ValidationError<'i, SerdeJson>>,
) -> bool {
    let mut ctx = ValidationContext::new();
    let collected = node.collect_errors(&instance.value, location, &mut ctx, errors);
    if collected.is_ok() && errors.is_empty() {
        return true;
    }
    errors.clear();
    false
}

fn is_evaluated(alloc: Global, node: &SchemaNode<SerdeJson>, instance: &Instance) -> bool {
    match node.evaluate_instance(alloc, &instance.value, &mut ValidationContext::new()) {
        Ok(tree) => tree.valid(),
        Err(_) => false,
    }
}

/// Times the loop of a name; None if no loop has the name.
pub(crate) fn time_by_hand(
    rt: &HostRuntime,
    span: u128,
    instances: &[Instance],
    name: &str,
) -> io::Result<Option<Timing>> {
    match name {
        "integers" => time_loop(rt, span, instances, by_hand::integers),
        "strings" => time_loop(rt, span, instances, by_hand::strings),
        "naturals" => time_loop(rt, span, instances, by_hand::naturals),
        "multiples" => time_loop(rt, span, instances, by_hand::multiples),
        "limited integers" => time_loop(rt, span, instances, by_hand::limited_integers),
        "rows" => time_loop(rt, span, instances, by_hand::rows),
        "limited rows" => time_loop(rt, span, instances, by_hand::limited_rows),
        "layers" => time_loop(rt, span, instances, by_hand::layers),
        "tuples" => time_loop(rt, span, instances, by_hand::tuples),
        "limited tuples" => time_loop(rt, span, instances, by_hand::limited_tuples),
        "objects" => time_loop(rt, span, instances, by_hand::objects),
        "unique" => time_loop(rt, span, instances, by_hand::unique),
        "orders" => time_loop(rt, span, instances, by_hand::orders),
        "natural" => time_loop(rt, span, instances, by_hand::natural),
        _ => Ok(None),
    }
}

// Times a loop.
fn time_loop<F: Fn(&Value) -> bool>(
    rt: &HostRuntime,
    span: u128,
    instances: &[Instance],
    accepts: F,
) -> io::Result<Option<Timing>>
    requires { F.IsAlwaysCallable accepts }
{
    Ok(Some(time_test(rt, span, instances, |i| accepts(&i.value))?))
}
