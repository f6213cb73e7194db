//! The law that names of members are distinct, at every level.
ghost use Rattle.std.specs.Prelude.{IsTrue};
ghost use Rattle.jskw_value.specs.Tree.{has_distinct_names};

use crate::json::{Array, Node, Object};

/// States, for proofs, that no object in the node has a name twice, at any level. [`Object::len`]
/// states it for one object. Visits the whole node once and allocates nothing.
#[tactic(auto, using(crate::proofs::DistinctNames::by_level, crate::proofs::DistinctNames::by_index))]
pub fn names_are_distinct<N: Node>(node: &N)
    ensures { IsTrue (has_distinct_names (N.tree node.now)) }
{
    if node.is_array() {
        for i in 0..Array::len(node) {
            names_are_distinct(node.item(i));
        }
    } else if node.is_object() {
        for (_, member) in node.walk() {
            names_are_distinct(member);
        }
    }
}
