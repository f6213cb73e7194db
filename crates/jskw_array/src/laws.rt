//! Laws of compiled schemas. Each law is the contract of a function.
ghost use Rattle.std.specs.Prelude.{◌≡◌};
ghost use Rattle.jskw_array.specs.Words.{Agree, Appends, IsFirst, IsTrue, RejectsNonArrays};
ghost use Rattle.jskw_array.specs.Words.{fail, holds, is_lawful, path_of, shape_meaning};

use crate::items::ArrayShapeValidator;
use crate::node::SchemaNode;
use jskw_report::{Fault, LazyLocation, ValidationContext, ValidationError};
use jskw_value::Json;
use std::alloc::AllocError;

/// Returns what `is_valid`, `validate` and `collect_errors` return for one instance, which must be
/// lawful. The law: `validate` returns `Ok` exactly if `is_valid` returns true, and its error is
/// the first that `collect_errors` appends. If memory runs out in one of them, its result says
/// nothing about the instance. `location` is unchanged at every return.
pub fn observers_agree<'i, F: Json>(
    node: &'i SchemaNode<F>,
    instance: &'i F::Node,
    location: &mut LazyLocation,
    ctx: &mut ValidationContext,
    errors: &mut Vec<ValidationError<'i, F>>,
) -> (bool, Result<(), Fault<'i, F>>, Result<(), AllocError>)
    requires { IsTrue (is_lawful (F.Node.tree instance.now)) }
    ensures agree { Agree F.Node.tree result.0 result.1 result.2 errors.old.items
        errors.new.items }
    ensures valid { result.0 ≡ holds node.now (F.Node.tree instance.now) }
    ensures first { IsFirst F.Node.tree
        (fail node.now (F.Node.tree instance.now) (path_of location.old)) result.1 }
    ensures appended { Appends F.Node.tree errors.old.items errors.new.items
        (fail node.now (F.Node.tree instance.now) (path_of location.old)) result.2 }
    ensures location { location.new ≡ location.old }
{
    let is_valid = node.is_valid(instance, ctx);
    let first = node.validate(instance, location, ctx);
    let all = node.collect_errors(instance, location, ctx, errors);
    (is_valid, first, all)
}

/// The fused shape accepts no instance that is not an array, because `type` of `array` is one of its
/// keywords.
pub fn fused_shape_rejects_non_arrays<F: Json>(shape: &ArrayShapeValidator<F>)
    ensures { RejectsNonArrays (shape_meaning shape.now) }
{
    let _ = shape;
}
