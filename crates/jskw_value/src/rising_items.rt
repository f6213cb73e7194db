//! Arrays of integers that rise, as identifiers often do: their items differ, which one pass shows.
ghost use Rattle.std.specs.Prelude.{◌≡◌, IsTrue, true};
ghost use Rattle.jskw_value.specs.Equality.{unique};
ghost use Rattle.jskw_value.specs.Tree.{is_array, items};

use crate::json::{Array, Node};
use crate::unique_items::whole_number;

// Returns whether each item is an integer from 0 on, and more than the one before it.
#[tactic(auto, using(crate::proofs::RisingItems::rising))]
pub(crate) fn are_rising<N: Node>(array: &N) -> bool
    requires { IsTrue (is_array (N.tree array.now)) }
    ensures { result ≡ true → unique (items (N.tree array.now)) ≡ true }
{
    let mut least = 0u64;
    for i in 0..Array::len(array) {
        match whole_number(array.item(i)) {
            Some(number) if least <= number && number < u64::MAX => least = number + 1,
            _ => return false,
        }
    }
    true
}
