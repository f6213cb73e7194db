//! The errors of an instance, up to a limit.
ghost use Rattle.std.specs.Prelude.{◌≡◌, [], IfOk, IsTrue};
ghost use Rattle.jskw_value.specs.Tree.{is_lawful};
ghost use Rattle.jskw_report.specs.Errors.{failures_of};
ghost use Rattle.jskw_report.specs.Fail.{fail};
ghost use Rattle.jskw_service.specs.FirstErrors.{first_of};

use jskw_array::SchemaNode;
use jskw_report::{LazyLocation, ValidationContext, ValidationError};
use jskw_value::Json;
use std::alloc::{AllocError, Global};

/// Returns the first `limit` errors of the instance, which must be lawful, or all if `limit` is 0.
pub fn first_errors<'i, F: Json>(
    alloc: Global,
    limit: usize,
    schema: &'i SchemaNode<F>,
    instance: &'i F::Node,
) -> Result<Vec<ValidationError<'i, F>>, AllocError>
    requires { IsTrue (is_lawful (F.Node.tree instance.now)) }
    ensures { IfOk result (λ errors. failures_of F.Node.tree errors.items
        ≡ first_of limit (fail schema.now (F.Node.tree instance.now) [])) }
{
    let mut errors = Vec::new(alloc);
    let mut location = LazyLocation::new(alloc);
    let mut ctx = ValidationContext::new();
    if limit == 0 {
        schema.collect_errors(instance, &mut location, &mut ctx, &mut errors)?;
    } else {
        schema.collect_first_errors(limit, instance, &mut location, &mut ctx, &mut errors)?;
    }
    Ok(errors)
}
