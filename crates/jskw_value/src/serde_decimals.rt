//! Trees of decimals from the values of `serde_json`.
ghost use Rattle.std.specs.Prelude.{◌≡◌, IfOk, IsTrue, map};
ghost use Rattle.std.specs.BTreeMap.{values};
ghost use Rattle.std.specs.List.{list_all};
ghost use Rattle.jskw_value.specs.DecimalTree.{decimal_tree, member_tree};
ghost use Rattle.jskw_value.specs.Serde.{value_tree, entry_tree as value_entry};
ghost use Rattle.jskw_value.specs.Tree.{is_lawful as lawful};

use crate::decimal_tree::{DecimalTree, Members};
use crate::json::JsonNumber;
use crate::members::Member;
use serde_json::{Map, Value};
use std::alloc::{AllocError, Global};

// Returns the tree of a value.
#[cycle(decimals)]
#[tactic(auto, using(crate::proofs::SerdeDecimals::by_level))]
pub(crate) fn tree_of_value(alloc: Global, value: &Value) -> Result<DecimalTree, AllocError>
    requires { IsTrue (lawful (value_tree value.now)) }
    ensures { IfOk result (λ tree. decimal_tree tree ≡ value_tree value.now) }
{
    match value {
        Value::Null => Ok(DecimalTree::Null),
        Value::Bool(boolean) => Ok(DecimalTree::Bool(*boolean)),
        Value::Number(number) => Ok(DecimalTree::Number(JsonNumber::decimal(number))),
        Value::String(text) => Ok(DecimalTree::Text(text.clone()?)),
        Value::Array(items) => Ok(DecimalTree::Array(trees_of_items(alloc, items)?)),
        Value::Object(members) => Ok(DecimalTree::Object(trees_of_members(alloc, members)?)),
    }
}

// Returns the trees of items.
#[cycle(decimals)]
fn trees_of_items(alloc: Global, items: &Vec<Value>) -> Result<Vec<DecimalTree>, AllocError>
    requires { IsTrue (list_all (λ v. lawful (value_tree v)) items.now.items) }
    ensures { IfOk result (λ trees. map decimal_tree trees.items ≡ map value_tree items.now.items) }
{
    let mut trees = Vec::new(alloc);
    for item in items {
        trees.push(tree_of_value(alloc, item)?)?;
    }
    Ok(trees)
}

// Returns the trees of members, with their names.
#[cycle(decimals)]
fn trees_of_members(alloc: Global, members: &Map<String, Value>) -> Result<Members, AllocError>
    requires { IsTrue (list_all (λ v. lawful (value_tree v)) (values members.now)) }
    ensures { IfOk result (λ trees. map member_tree trees ≡ map value_entry members.now.entries) }
{
    let mut list = Vec::new(alloc);
    for (name, member) in members.iter() {
        let value = tree_of_value(alloc, member)?;
        let name = name.clone()?;
        list.push(Member { name, value })?;
    }
    Ok(Members::of_sorted(list))
}
