//! A required name, prepared for comparisons and lookups.
ghost use Rattle.std.specs.Prelude.{◌≡◌, IfOk, IsTrue};
ghost use Rattle.std.specs.Str.{bytes_eq};
ghost use Rattle.jskw_value.specs.Tree.{has_name, is_object};

use jskw_value::{Json, Node, Object, is_same_name};
use std::alloc::{AllocError, Global};
use std::marker::Model;

/// A required name with the key for its lookup. In contracts it is the name.
#[derive(Drop)]
#[derive_where(Debug)]
pub struct PreparedName<F: Json> {
    name: String,
    #[derive_where(skip)]
    key: <F::Node as Object>::PreparedKey,
}

impl<F: Json> Model for PreparedName<F> {
    ghost use Rattle.std.specs.Prelude.{◌≡◌, ℕ, List, string_bytes};

    ghost Value = { List ℕ };

    ghost view = { λ p. string_bytes p.name };

    ghost invariant = { λ p. F.Node.key_name p.key ≡ string_bytes p.name };
}

impl<F: Json> PreparedName<F> {
    // Prepares a name.
    pub(crate) fn new(alloc: Global, text: &str) -> Result<PreparedName<F>, AllocError>
        ensures { IfOk result (λ p. p ≡ text.now) }
    {
        Ok(PreparedName {
            name: String::from_str(alloc, text)?,
            key: F::prepare_key(alloc, text)?,
        })
    }

    // Returns the name.
    pub(crate) fn as_str(&self) -> &str
        ensures { result.now ≡ self.now }
    {
        self.name.as_str()
    }

    // Returns whether the name is this text.
    #[inline(always)]
    pub(crate) fn is(&self, text: &str) -> bool
        ensures { result ≡ bytes_eq text.now self.now }
    {
        is_same_name(text, self.as_str())
    }

    // Returns whether the object has a member with this name. Looks it up by the key.
    pub(crate) fn is_in(&self, object: &F::Node) -> bool
        requires { IsTrue (is_object (F.Node.tree object.now)) }
        ensures { result ≡ has_name (F.Node.tree object.now) self.now }
    {
        object.get(&self.key).is_some()
    }
}
