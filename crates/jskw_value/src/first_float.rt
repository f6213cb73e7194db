//! The location of the first float of a node.
ghost use Rattle.std.specs.Prelude.{◌≡◌, IfOk, option_map, string_bytes};
ghost use Rattle.jskw_value.specs.FirstFloat.{first_float, below_index};
ghost use Rattle.jskw_value.specs.FirstFloat.{below_name};
ghost use Rattle.jskw_value.specs.Tree.{is_array, is_object};

use crate::json::{Array, JsonNumber, Node, Object};
use crate::pointer::{push_index, push_name};
use std::alloc::{AllocError, Global};

// Returns the location of the first float in a node, as a JSON pointer relative to the node.
#[tactic(auto, using(crate::proofs::FirstFloat::by_level, crate::proofs::FirstFloat::by_index))]
pub(crate) fn location_of_float<N: Node>(
    alloc: Global,
    node: &N,
) -> Result<Option<String>, AllocError>
    ensures { IfOk result (λ o. option_map string_bytes o ≡ first_float (N.tree node.now)) }
{
    if node.is_array() {
        for i in 0..Array::len(node) {
            if let Some(below) = location_of_float(alloc, node.item(i))? {
                return Ok(Some(from_array(alloc, i, below)?));
            }
        }
    } else if node.is_object() {
        for (name, member) in node.walk() {
            if let Some(below) = location_of_float(alloc, member)? {
                return Ok(Some(from_object(alloc, name, below)?));
            }
        }
    } else if let Some(number) = node.as_number() {
        if !number.is_lawful() {
            return Ok(Some(String::new(alloc)));
        }
    }
    Ok(None)
}

// Returns a location in an item, relative to its array.
fn from_array(alloc: Global, index: usize, below: String) -> Result<String, AllocError>
    ensures { IfOk result (λ location. string_bytes location
        ≡ below_index index (string_bytes below)) }
{
    let mut location = String::new(alloc);
    push_index(&mut location, index)?;
    location.push_str(below.as_str())?;
    Ok(location)
}

// Returns a location in a member, relative to its object.
fn from_object(alloc: Global, name: &str, below: String) -> Result<String, AllocError>
    ensures { IfOk result (λ location. string_bytes location
        ≡ below_name name.now (string_bytes below)) }
{
    let mut location = String::new(alloc);
    push_name(&mut location, name)?;
    location.push_str(below.as_str())?;
    Ok(location)
}
