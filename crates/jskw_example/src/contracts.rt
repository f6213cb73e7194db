//! Functions whose contracts follow from those of the library.
ghost use Rattle.std.specs.Prelude.{◌≡◌, IfSome, is_some};
ghost use Rattle.lotsibegn.specs.{holds, is_lawful, value_tree};

use lotsibegn::{Node, SchemaNode, SerdeJson, ValidationContext, Value};

/// Returns whether the instance is valid, or None if it holds a float.
pub(crate) fn verdict(schema: &SchemaNode<SerdeJson>, instance: &Value) -> Option<bool>
    ensures valid { IfSome result (λ valid. valid ≡ holds schema.now (value_tree instance.now)) }
    ensures float { is_some result ≡ is_lawful (value_tree instance.now) }
{
    if !instance.is_lawful() {
        return None;
    }
    Some(schema.is_valid(instance, &mut ValidationContext::new()))
}
