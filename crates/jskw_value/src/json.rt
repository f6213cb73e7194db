//! The traits of a representation of JSON: its values, their items, members and numbers.
ghost use Rattle.std.specs.Prelude.{◌≡◌, ℕ, ◌<◌, ◌==◌, option_and_then, List, length, IsTrue, IfOk};
ghost use Rattle.std.specs.Prelude.{IfSome, option_map, is_none, is_some, string_bytes};
ghost use Rattle.std.specs.Prelude.{slice_index_or};
ghost use Rattle.std.specs.List.{list_all, IsDistinct};
ghost use Rattle.std.specs.Str.{bytes_eq};
ghost use Rattle.jskw_value.specs.Equality.{equal, unique};
ghost use Rattle.jskw_value.specs.FirstFloat.{first_float};
ghost use Rattle.jskw_value.specs.Number.{Num, is_exact, is_integer, is_written_as_integer, written_integer};
ghost use Rattle.jskw_value.specs.Number.{u64_of, i64_of};
ghost use Rattle.jskw_value.specs.Text.{Extends};
ghost use Rattle.jskw_value.specs.Serde.{value_tree};
ghost use Rattle.jskw_value.specs.Tree.{Tree, items, members, names, values, get, is_null};
ghost use Rattle.jskw_value.specs.Tree.{as_boolean, as_number, as_string, is_array, is_object};
ghost use Rattle.jskw_value.specs.Tree.{is_lawful as lawful};
ghost use Rattle.jskw_value.specs.Types.{json_type};
ghost use Rattle.jskw_value.specs.Walk.{left};

use crate::decimal::Decimal;
use crate::equality::equal_nodes;
use crate::first_float::location_of_float;
use crate::json_text::write_node;
use crate::meter::Unmetered;
use crate::types::JsonType;
use crate::unique_items::has_unique_items;
use crate::walk::Walk;
use serde_json::Value;
use std::alloc::{AllocError, Global};

/// A value that represents a JSON value (JSON Schema Core 4.2.1). Contracts refer to the JSON value
/// as its tree.
pub trait Rooted {
    /// The JSON value that this value represents.
    ghost tree: { Self → Tree };
}

/// The methods of a node that is an array.
pub trait Array: Rooted {
    /// Returns the number of items. The node must be an array.
    fn len(&self) -> usize
        requires { IsTrue (is_array (Self.tree self.now)) }
        ensures { result ≡ length (items (Self.tree self.now)) };

    /// Returns the item at `index`, counted from 0, in constant time. The node must be an array
    /// with more than `index` items.
    fn item(&self, index: usize) -> &Self
        requires { index < length (items (Self.tree self.now)) }
        ensures value { Self.tree result.now
            ≡ slice_index_or (items (Self.tree self.now)) index (Self.tree result.now) }
        ensures lawful { IsTrue (lawful (Self.tree self.now))
            → IsTrue (lawful (Self.tree result.now)) };

    /// Returns whether no two items are equal (JSON Schema Validation 6.4.3). The node must be an
    /// array. Allocates nothing.
    final fn is_unique(&self) -> bool
    where
        Self: Node,
        requires { IsTrue (is_array (Self.tree self.now)) }
        ensures { result ≡ unique (items (Self.tree self.now)) }
    {
        has_unique_items(self)
    }
}

/// The methods of a node that is an object. Its members are in an order that the representation
/// chooses, each at a place counted from 0.
pub trait Object: Rooted {
    /// A name in the form in which it is looked up fastest. [`Json::prepare_key`] creates it.
    type PreparedKey: Drop;

    /// The name that a key was made from.
    ghost key_name: { Self.PreparedKey → List ℕ };

    /// Returns the number of members. The node must be an object. Its names are distinct.
    fn len(&self) -> usize
        requires { IsTrue (is_object (Self.tree self.now)) }
        ensures value { result ≡ length (members (Self.tree self.now)) }
        ensures distinct { IsDistinct bytes_eq (names (Self.tree self.now)) };

    /// Returns whether the object has no members. The node must be an object.
    final fn is_empty(&self) -> bool
        requires { IsTrue (is_object (Self.tree self.now)) }
        ensures { result ≡ (length (members (Self.tree self.now)) == 0) }
    {
        self.len() == 0
    }

    /// Returns the name of the member at `place`. The node must be an object with more than `place`
    /// members. A representation may need time in proportion to `place`: to visit all members, use
    /// [`walk`](Object::walk).
    fn name_at(&self, place: usize) -> &str
        requires { place < length (members (Self.tree self.now)) }
        ensures { result.now ≡ slice_index_or (names (Self.tree self.now)) place result.now };

    /// Returns the value of the member at `place`. The node must be an object with more than
    /// `place` members. To visit all members, use [`walk`](Object::walk).
    fn member_at(&self, place: usize) -> &Self
        requires { place < length (members (Self.tree self.now)) }
        ensures value { Self.tree result.now
            ≡ slice_index_or (values (Self.tree self.now)) place (Self.tree result.now) }
        ensures lawful { IsTrue (lawful (Self.tree self.now))
            → IsTrue (lawful (Self.tree result.now)) };

    /// Returns an iterator over the names and values of the members, in the order of their places.
    /// The node must be an object. Both representations of this crate take constant time for each
    /// member. A representation that stores its members in another form can return
    /// [`Walk::by_place`].
    fn walk(&self) -> Walk<'_, Self>
        requires { IsTrue (is_object (Self.tree self.now)) }
        ensures value { left Self.tree result ≡ members (Self.tree self.now) }
        ensures distinct { IsDistinct bytes_eq (names (Self.tree self.now)) }
        ensures lawful { IsTrue (lawful (Self.tree self.now))
            → IsTrue (list_all lawful (values (Self.tree self.now))) };

    /// Returns the value of the member `name`, or `None` if there is no such member. The node must
    /// be an object.
    fn find(&self, name: &str) -> Option<&Self>
        requires { IsTrue (is_object (Self.tree self.now)) }
        ensures value { option_map (λ x. Self.tree x.now) result
            ≡ get name.now (Self.tree self.now) }
        ensures lawful { IsTrue (lawful (Self.tree self.now))
            → IfSome result (λ x. IsTrue (lawful (Self.tree x.now))) };

    /// Returns the value of the member whose name `key` was made from, or `None` if there is no
    /// such member. The node must be an object.
    fn get(&self, key: &Self::PreparedKey) -> Option<&Self>
        requires { IsTrue (is_object (Self.tree self.now)) }
        ensures value { option_map (λ x. Self.tree x.now) result
            ≡ get (key_name key.now) (Self.tree self.now) }
        ensures lawful { IsTrue (lawful (Self.tree self.now))
            → IfSome result (λ x. IsTrue (lawful (Self.tree x.now))) };
}

/// A number of a node: an exact decimal, or a float, whose value no contract mentions.
pub trait JsonNumber {
    ghost use Rattle.jskw_value.specs.Decimal.{value};

    /// The number that this value represents, exactly if it is a decimal.
    ghost number: { Self → Num };

    /// Returns whether the number is a decimal. All other methods require that it is.
    fn is_lawful(&self) -> bool
        ensures { result ≡ is_exact (number self.now) };

    /// Returns the number, exactly. It must be a decimal.
    fn decimal(&self) -> Decimal
        requires { IsTrue (is_exact (number self.now)) }
        ensures { value result ≡ number self.now };

    /// Returns the number if it is written without digits after the point and is from 0 to 2^64-1,
    /// otherwise `None`. It must be a decimal.
    fn as_u64(&self) -> Option<u64>
        requires { IsTrue (is_exact (number self.now)) }
        ensures { result ≡ option_and_then u64_of (written_integer (number self.now)) };

    /// Returns the number if it is written without digits after the point and is from -2^63 to
    /// 2^63-1, otherwise `None`. It must be a decimal.
    fn as_i64(&self) -> Option<i64>
        requires { IsTrue (is_exact (number self.now)) }
        ensures { result ≡ option_and_then i64_of (written_integer (number self.now)) };

    /// Returns whether the fractional part is zero, as in 1 and 1.0 (JSON Schema Validation 6.1.1).
    /// The number must be a decimal.
    fn is_integer(&self) -> bool
        requires { IsTrue (is_exact (number self.now)) }
        ensures { result ≡ is_integer (number self.now) };

    /// Returns whether no digit is written after the point: true for 1, false for 1.0 (Draft 4 Core
    /// 3.5). The number must be a decimal.
    fn is_written_as_integer(&self) -> bool
        requires { IsTrue (is_exact (number self.now)) }
        ensures { result ≡ is_written_as_integer (number self.now) };
}

/// A JSON value of a representation. It is lawful if no number in it is a float, at any level.
pub trait Node: Array + Object {
    /// The numbers of the representation.
    type Number: JsonNumber;

    /// Returns the type of the value: `Number` for every number.
    fn json_type(&self) -> JsonType
        ensures { result ≡ json_type (Self.tree self.now) };

    /// Returns whether the value is null.
    fn is_null(&self) -> bool
        ensures { result ≡ is_null (Self.tree self.now) };

    /// Returns whether the value is an array.
    fn is_array(&self) -> bool
        ensures { result ≡ is_array (Self.tree self.now) };

    /// Returns whether the value is an object.
    fn is_object(&self) -> bool
        ensures { result ≡ is_object (Self.tree self.now) };

    /// Returns the boolean, or `None` if the value is not a boolean.
    fn as_boolean(&self) -> Option<bool>
        ensures { result ≡ as_boolean (Self.tree self.now) };

    /// Returns the number, or `None` if the value is not a number. If the node is lawful, the
    /// number is a decimal.
    fn as_number(&self) -> Option<&Self::Number>
        ensures value { option_map (λ n. Self.Number.number n.now) result
            ≡ as_number (Self.tree self.now) }
        ensures lawful { IsTrue (lawful (Self.tree self.now))
            → IfSome result (λ n. IsTrue (is_exact (Self.Number.number n.now))) };

    /// Returns the string, or `None` if the value is not a string.
    fn as_string(&self) -> Option<&str>
        ensures { option_map (λ s. s.now) result ≡ as_string (Self.tree self.now) };

    /// Returns whether no number in the value is a float, at any level. Allocates nothing.
    fn is_lawful(&self) -> bool
        ensures { result ≡ lawful (Self.tree self.now) };

    /// Returns whether the value is a number.
    final fn is_number(&self) -> bool
        ensures { result ≡ is_some (as_number (Self.tree self.now)) }
    {
        self.as_number().is_some()
    }

    /// Returns whether the value is a string.
    final fn is_string(&self) -> bool
        ensures { result ≡ is_some (as_string (Self.tree self.now)) }
    {
        self.as_string().is_some()
    }

    /// Returns the number of items of an array, and 0 for any other value.
    #[tactic(auto, using(crate::proofs::PlacesInTrees::items_elsewhere))]
    final fn item_count(&self) -> usize
        ensures { result ≡ length (items (Self.tree self.now)) }
    {
        if self.is_array() { Array::len(self) } else { 0 }
    }

    /// Returns the location of the first float as a JSON pointer (RFC 6901), or `None` if the node
    /// is lawful. The order is depth first, items by index, members by place.
    #[tactic(auto, using(crate::proofs::FirstFloat::none_from_location))]
    final fn first_unlawful(&self, alloc: Global) -> Result<Option<String>, AllocError>
        ensures location { IfOk result (λ o. option_map string_bytes o
            ≡ first_float (Self.tree self.now)) }
        ensures lawful { IfOk result (λ o. is_none o ≡ lawful (Self.tree self.now)) }
    {
        location_of_float(alloc, self)
    }

    /// Returns whether the two nodes are equal (JSON Schema Core 4.2.2): numbers by mathematical
    /// value, arrays item by item, objects in any order of their members. A float is equal to
    /// nothing, not even to itself. Allocates nothing.
    final fn equals(&self, other: &Self) -> bool
        ensures { result ≡ equal (Self.tree self.now) (Self.tree other.now) }
    {
        equal_nodes(self, other, &mut Unmetered)
    }

    /// Returns whether the node and a value of `serde_json` are equal in the sense of
    /// [`equals`](Node::equals). Allocates nothing.
    final fn equals_value(&self, other: &Value) -> bool
        ensures { result ≡ equal (value_tree other.now) (Self.tree self.now) }
    {
        equal_nodes(other, self, &mut Unmetered)
    }

    /// Appends the compact JSON text of the value to `out`. A decimal of scale k is written with k
    /// digits after the point, a float as the word `float`, members in the order of their places.
    /// In strings the quote, the backslash and the control characters are escaped, and nothing else
    /// (RFC 8259, section 7). If memory runs out, `out` keeps what it held, and a part of the text
    /// may follow.
    final fn write_json(&self, out: &mut String) -> Result<(), AllocError>
        ensures { Extends (string_bytes out.old) (string_bytes out.new) }
    {
        write_node(self, out)
    }
}

/// A representation of JSON values.
pub trait Json {
    /// The values of the representation.
    type Node: Node;

    /// An estimate of how many members an iterator visits in the time of one lookup by a prepared
    /// key. It decides how names are looked up, and never what is found.
    const KEYS_PER_LOOKUP: usize;

    /// Creates the key with which `name` is looked up in objects.
    fn prepare_key(
        alloc: Global,
        name: &str,
    ) -> Result<<Self::Node as Object>::PreparedKey, AllocError>
        ensures { IfOk result (λ k. Self.Node.key_name k ≡ name.now) };
}
