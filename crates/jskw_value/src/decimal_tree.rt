//! JSON values whose numbers are exact decimals.
ghost use Rattle.std.specs.Prelude.{◌≡◌, ◌<◌, length, slice_index_or, string_bytes};
ghost use Rattle.std.specs.Prelude.{IfOk, IfSome, is_some};
ghost use Rattle.jskw_value.specs.DecimalTree.{decimal_tree};
ghost use Rattle.jskw_value.specs.Members.{AreSorted};
ghost use Rattle.jskw_value.specs.Serde.{value_tree};
ghost use Rattle.jskw_value.specs.Tree.{members, names, is_lawful as lawful};

use crate::decimal::Decimal;
use crate::json::{Array, Json, Node, Object, Rooted};
use crate::members::MemberList;
use crate::serde_decimals::tree_of_value;
use crate::types::JsonType;
use crate::walk::Walk;
use serde_json::Value;
use std::alloc::{AllocError, Global};

/// A JSON value whose numbers are decimals. It is always lawful.
#[derive(Debug, Drop)]
pub enum DecimalTree {
    /// `null`
    Null,
    /// A boolean.
    Bool(bool),
    /// A number.
    Number(Decimal),
    /// A string.
    Text(String),
    /// An array.
    Array(Vec<DecimalTree>),
    /// An object.
    Object(Members),
}

/// The members of an object, sorted by their names. Create them with [`MemberList::from_pairs`], or
/// with [`MemberList::new`] and [`MemberList::insert`].
pub type Members = MemberList<DecimalTree>;

/// The representation whose nodes are [`DecimalTree`]s.
#[derive(Clone, Copy, Debug, PartialEq, Eq)]
pub struct DecimalJson;

impl DecimalTree {
    /// Returns the tree of a value of `serde_json`, or `None` if the value holds a float, whose
    /// location [`first_unlawful`](Node::first_unlawful) returns.
    pub fn from_value(alloc: Global, value: &Value) -> Result<Option<DecimalTree>, AllocError>
        ensures lawful { IfOk result (λ found. is_some found ≡ lawful (value_tree value.now)) }
        ensures tree { IfOk result (λ found.
            IfSome found (λ tree. decimal_tree tree ≡ value_tree value.now)) }
    {
        if value.is_lawful() {
            Ok(Some(tree_of_value(alloc, value)?))
        } else {
            Ok(None)
        }
    }
}

impl Rooted for DecimalTree {
    ghost tree = { decimal_tree };
}

#[tactic(auto, using(crate::proofs::DecimalTrees::arrays))]
impl Array for DecimalTree {
    fn len(&self) -> usize {
        match self {
            DecimalTree::Array(items) => items.len(),
            _ => unreachable!(),
        }
    }

    fn item(&self, index: usize) -> &DecimalTree {
        match self {
            DecimalTree::Array(items) => &items[index],
            _ => unreachable!(),
        }
    }
}

#[tactic(auto, using(crate::proofs::DecimalTrees::objects))]
impl Object for DecimalTree {
    type PreparedKey = String;

    ghost key_name = { string_bytes };

    fn len(&self) -> usize {
        match self {
            DecimalTree::Object(members) => members.len(),
            _ => unreachable!(),
        }
    }

    /// Returns the name of the member at `place`. The node must be an object with more than `place`
    /// members. They are sorted by the bytes of their names.
    fn name_at(&self, place: usize) -> &str
        requires { place < length (members (decimal_tree self.now)) }
        ensures name { result.now
            ≡ slice_index_or (names (decimal_tree self.now)) place result.now }
        ensures sorted { AreSorted (names (decimal_tree self.now)) }
    {
        match self {
            DecimalTree::Object(members) => members.name_at(place),
            _ => unreachable!(),
        }
    }

    fn member_at(&self, place: usize) -> &DecimalTree {
        match self {
            DecimalTree::Object(members) => members.value_at(place),
            _ => unreachable!(),
        }
    }

    fn walk(&self) -> Walk<'_, DecimalTree> {
        match self {
            DecimalTree::Object(members) => Walk::of_list(members.as_slice()),
            _ => unreachable!(),
        }
    }

    fn find(&self, name: &str) -> Option<&DecimalTree> {
        match self {
            DecimalTree::Object(members) => members.get(name),
            _ => unreachable!(),
        }
    }

    fn get(&self, key: &String) -> Option<&DecimalTree> {
        self.find(key.as_str())
    }
}

#[tactic(auto, using(crate::proofs::DecimalTrees::lawful_tree))]
impl Node for DecimalTree {
    type Number = Decimal;

    fn json_type(&self) -> JsonType {
        match self {
            DecimalTree::Null => JsonType::Null,
            DecimalTree::Bool(_) => JsonType::Boolean,
            DecimalTree::Number(_) => JsonType::Number,
            DecimalTree::Text(_) => JsonType::String,
            DecimalTree::Array(_) => JsonType::Array,
            DecimalTree::Object(_) => JsonType::Object,
        }
    }

    fn is_null(&self) -> bool {
        matches!(self, DecimalTree::Null)
    }

    fn is_array(&self) -> bool {
        matches!(self, DecimalTree::Array(_))
    }

    fn is_object(&self) -> bool {
        matches!(self, DecimalTree::Object(_))
    }

    fn as_boolean(&self) -> Option<bool> {
        match self {
            DecimalTree::Bool(boolean) => Some(*boolean),
            _ => None,
        }
    }

    fn as_number(&self) -> Option<&Decimal> {
        match self {
            DecimalTree::Number(number) => Some(number),
            _ => None,
        }
    }

    fn as_string(&self) -> Option<&str> {
        match self {
            DecimalTree::Text(text) => Some(text.as_str()),
            _ => None,
        }
    }

    fn is_lawful(&self) -> bool {
        true
    }
}

impl Json for DecimalJson {
    type Node = DecimalTree;

    const KEYS_PER_LOOKUP: usize = 1;

    fn prepare_key(alloc: Global, name: &str) -> Result<String, AllocError> {
        String::from_str(alloc, name)
    }
}
