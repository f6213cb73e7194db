//! A representation whose nodes count how often they are asked whether they are null.
ghost use Rattle.std.specs.Prelude.{string_bytes};
ghost use Rattle.jskw_rows.specs.Asks.{asked_tree};

use crate::printer::Made;
use jskw_value::{Array, Decimal, Json, JsonType, Node, Object, Rooted, Walk};
use serde_json::Value;
use std::alloc::Global;
use std::cell::Cell;

/// Null or an array, with how often it was asked whether it is null, and the representation of these.
#[derive(Drop)]
pub(crate) enum Asked {
    Null(Cell<u64>),
    Array(Cell<u64>, Vec<Asked>),
}

impl Asked {
    /// Returns the array of a value that is one, with its arrays below; or else null.
    pub(crate) fn of(alloc: Global, value: &Value) -> Made<Asked> {
        let Value::Array(items) = value else {
            return Ok(Asked::Null(Cell::new(0)));
        };
        let mut nodes = Vec::new(alloc);
        for item in items {
            nodes.push(Asked::of(alloc, item)?)?;
        }
        Ok(Asked::Array(Cell::new(0), nodes))
    }

    /// Returns how often this node and those below it were asked since this call was made before.
    pub(crate) fn take_count(&self) -> u64 {
        match self {
            Asked::Null(asks) => asks.replace(0),
            Asked::Array(asks, items) => {
                let mut count = asks.replace(0);
                for item in items {
                    count = count.saturating_add(item.take_count());
                }
                count
            }
        }
    }
}

impl Rooted for Asked {
    ghost tree = { asked_tree };
}

#[tactic(auto, using(crate::proofs::Asks::arrays))]
impl Array for Asked {
    fn len(&self) -> usize {
        match self {
            Asked::Array(_, items) => items.len(),
            _ => unreachable!(),
        }
    }

    fn item(&self, index: usize) -> &Asked {
        match self {
            Asked::Array(_, items) => &items[index],
            _ => unreachable!(),
        }
    }
}

#[tactic(auto, using(crate::proofs::Asks::nodes))]
impl Object for Asked {
    type PreparedKey = String;

    ghost key_name = { string_bytes };

    fn len(&self) -> usize {
        unreachable!()
    }

    fn name_at(&self, _place: usize) -> &str {
        unreachable!()
    }

    fn member_at(&self, _place: usize) -> &Asked {
        unreachable!()
    }

    fn walk(&self) -> Walk<'_, Asked> {
        Walk::by_place(self)
    }

    fn find(&self, _name: &str) -> Option<&Asked> {
        unreachable!()
    }

    fn get(&self, _key: &String) -> Option<&Asked> {
        unreachable!()
    }
}

#[tactic(auto, using(crate::proofs::Asks::nodes))]
impl Node for Asked {
    type Number = Decimal;

    fn json_type(&self) -> JsonType {
        match self {
            Asked::Null(_) => JsonType::Null,
            Asked::Array(_, _) => JsonType::Array,
        }
    }

    fn is_null(&self) -> bool {
        match self {
            Asked::Null(asks) | Asked::Array(asks, _) => asks.set(asks.get().saturating_add(1)),
        }
        matches!(self, Asked::Null(_))
    }

    fn is_array(&self) -> bool {
        matches!(self, Asked::Array(_, _))
    }

    fn is_object(&self) -> bool {
        false
    }

    fn as_boolean(&self) -> Option<bool> {
        None
    }

    fn as_number(&self) -> Option<&Decimal> {
        None
    }

    fn as_string(&self) -> Option<&str> {
        None
    }

    fn is_lawful(&self) -> bool {
        true
    }
}

impl Json for Asked {
    type Node = Asked;

    const KEYS_PER_LOOKUP: usize = 1;

    fn prepare_key(alloc: Global, name: &str) -> Made<String> {
        String::from_str(alloc, name)
    }
}
