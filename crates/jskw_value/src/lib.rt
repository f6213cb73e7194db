//! JSON values behind one interface, for validators that are generic over the representation of an
//! instance.
//!
//! [`Json`] is a representation and [`Node`] a value of it. [`Array`], [`Object`] and
//! [`JsonNumber`] are the traits of its items, its members and its numbers. The crate has two
//! representations: [`SerdeJson`], whose nodes are the values of `serde_json`, and [`DecimalJson`],
//! whose numbers are exact decimals. Contracts refer to a node as the tree that it represents
//! (`specs/Tree.antt`), so nodes of two representations can be compared.
//!
//! A call that returns a `Result` with `AllocError` fails only if memory runs out. Sections are
//! those of JSON Schema Core and JSON Schema Validation, Draft 2020-12, unless another draft is
//! named.
#![tactic(auto)]

pub mod decimal;
pub mod decimal_tree;
mod doubt;
mod equality;
pub mod fingerprint;
mod first_float;
pub mod json;
mod json_text;
pub mod laws;
pub mod members;
mod meter;
mod name_equality;
pub mod names;
pub mod nullability;
pub mod pointer;
pub mod property_name;
mod rising_items;
pub mod seed;
mod serde_decimals;
pub mod serde_tree;
mod sketch;
pub mod types;
mod unique_by_fingerprints;
mod unique_items;
pub mod walk;

pub use decimal::Decimal;
pub use decimal_tree::{DecimalJson, DecimalTree, Members};
pub use json::{Array, Json, JsonNumber, Node, Object, Rooted};
pub use members::{InsertFault, Member, RepeatedName};
pub use name_equality::is_same_name;
pub use nullability::{NotNullable, Nullability, Nullable};
pub use property_name::{KeyHead, PropertyName};
pub use serde_tree::SerdeJson;
pub use types::{JsonType, JsonTypeSet};
pub use walk::Walk;
