//! Seeds for the fingerprints of whole nodes, taken from what the nodes hold.
ghost use Rattle.std.specs.Prelude.{◌≡◌, ◌≤◌, ◌^◌, length, IsTrue};
ghost use Rattle.jskw_value.specs.Tree.{is_array};

use crate::doubt::fingerprint_of_undoubted;
use crate::fingerprint::{of_whole, of_whole_text, stir};
use crate::json::{Array, Node, Object};

// A hash of 128 bits. With 64 bits, some 2^32 trials would find two nodes with the same hash, and
// one could replace the other without a change of the seed.
#[derive(Clone, Copy)]
struct State {
    first: u64,
    second: u64,
}

// The hash of nothing.
const START: State = State {
    first: 7046029254386353131,
    second: 14029467366897019727,
};

impl State {
    // Returns the hash with two words mixed in.
    fn with(self, one: u64, other: u64) -> State {
        State {
            first: stir(self.first, one, other),
            second: stir(self.second, other, one),
        }
    }
}

/// Returns a seed for [`of_whole`] that depends on everything in the node: each item, name, number
/// and text, and their order.
///
/// If a seed is known in advance, different values with the same fingerprint are easy to find. They
/// are not if the seed is that of the array that contains them: an array with other items, or in
/// another order, has another seed. Any number works as a seed, so no contract says which one it
/// is: it decides how long a search for equal items takes, and never what it finds. Takes time in
/// proportion to the size of the node and allocates nothing.
pub fn seed_of<N: Node>(node: &N) -> u64 {
    with_node(START, node).first
}

// Returns such a seed for the items of an array. It depends on everything in the items in doubt, and
// on the fingerprints of the beginnings of the others.
pub(crate) fn seed_of_items<N: Node>(array: &N, doubtful: &[u64]) -> u64
    requires array { IsTrue (is_array (N.tree array.now)) }
    requires few_marks { length doubtful.now ≤ 2 ^ 32 }
{
    let count = Array::len(array);
    let mut state = START.with(4, count as u64);
    for i in 0..count {
        let item = array.item(i);
        state = match fingerprint_of_undoubted(item, doubtful) {
            Some(fingerprint) => state.with(fingerprint, 9),
            None => with_node(state, item),
        };
    }
    state.first
}

// Returns the hash with the whole node mixed in: the number of items and each item of an array, the
// number of members and each name and value of an object.
#[tactic(auto, using(crate::proofs::Depth::item_depth, crate::proofs::Depth::height_below))]
fn with_node<N: Node>(mut state: State, node: &N) -> State {
    if node.is_array() {
        let count = Array::len(node);
        state = state.with(4, count as u64);
        for i in 0..count {
            state = with_node(state, node.item(i));
        }
        state
    } else if node.is_object() {
        state = state.with(5, Object::len(node) as u64);
        for (name, member) in node.walk() {
            let one = of_whole_text(name, state.first);
            let other = of_whole_text(name, state.second);
            state = with_node(state.with(one, other), member);
        }
        state
    } else {
        state.with(of_whole(node, state.first), of_whole(node, state.second))
    }
}
