//! Counts what is visited, so that one way of finding equal items ends when another one would have
//! cost no more. What is counted decides how long a search takes, and never what it finds.
ghost use Rattle.std.specs.Prelude.{IsTrue};
ghost use Rattle.jskw_value.specs.Tree.{is_array, is_object};

use crate::json::{Array, Node, Object};

// Counts the nodes that a comparison or a walk visits, and pieces of 32 bytes of their texts.
pub(crate) trait Meter {
    // Counts so many visits.
    fn count(&mut self, visits: usize);
}

// Counts nothing.
#[derive(Clone, Copy)]
pub(crate) struct Unmetered;

impl Meter for Unmetered {
    #[inline(always)]
    fn count(&mut self, _visits: usize) {}
}

// The visits that are left of those that were granted.
#[derive(Drop)]
pub(crate) struct Allowance {
    granted: usize,
    left: usize,
}

impl Allowance {
    // Grants so many visits.
    pub(crate) fn new(granted: usize) -> Allowance {
        Allowance {
            granted,
            left: granted,
        }
    }

    // Returns whether no visit is left.
    pub(crate) fn is_used_up(&self) -> bool {
        self.left == 0
    }

    // Returns how many visits were granted.
    pub(crate) fn granted(&self) -> usize {
        self.granted
    }

    // Grants three times as many visits more.
    pub(crate) fn extend(&mut self) {
        self.left = self.granted.saturating_mul(3);
        self.granted = self.granted.saturating_mul(4);
    }
}

impl Meter for Allowance {
    #[inline(always)]
    fn count(&mut self, visits: usize) {
        self.left = self.left.saturating_sub(visits);
    }
}

// Returns how many visits a text is, beside that of its node.
pub(crate) fn visits_of(text: &str) -> usize {
    text.len() / 32
}

// Counts all that is in a node, and stops if the allowance is used up. In line, so that the loops
// over items and members count numbers without a call.
#[inline(always)]
#[cycle(visit)]
pub(crate) fn visit<N: Node>(node: &N, allowance: &mut Allowance) {
    allowance.count(1);
    if node.is_array() {
        visit_items(node, allowance);
    } else if node.is_object() {
        visit_members(node, allowance);
    } else if let Some(text) = node.as_string() {
        allowance.count(visits_of(text));
    }
}

// The same for the items of an array. Out of line, as `equal_arrays` is.
#[inline(never)]
#[cycle(visit)]
#[tactic(auto, using(crate::proofs::Depth::item_depth))]
fn visit_items<N: Node>(array: &N, allowance: &mut Allowance)
    requires { IsTrue (is_array (N.tree array.now)) }
{
    for i in 0..Array::len(array) {
        if allowance.is_used_up() {
            return;
        }
        visit(array.item(i), allowance);
    }
}

// The same for the members of an object.
#[inline(never)]
#[cycle(visit)]
#[tactic(auto, using(crate::proofs::Depth::height_below))]
fn visit_members<N: Node>(object: &N, allowance: &mut Allowance)
    requires { IsTrue (is_object (N.tree object.now)) }
{
    for (name, member) in object.walk() {
        if allowance.is_used_up() {
            return;
        }
        allowance.count(visits_of(name));
        visit(member, allowance);
    }
}
