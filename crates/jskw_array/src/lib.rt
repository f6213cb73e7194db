//! Whole schemas of the value and array keywords, and the keywords that have subschemas.
//!
//! [`compile`] turns a schema into a [`SchemaNode`], which validates instances: `is_valid`,
//! `validate`, `collect_errors`, `evaluate_instance`. These four have one condition: the instance
//! is lawful, that is, it contains no float. [`jskw_value::Node::is_lawful`] returns whether it is.
//!
//! The module of a keyword has its validators and a `compile`, which gives a [`Validator`].
//! Sections of the standard are those of JSON Schema Core and Validation 2020-12, unless a draft is
//! named.
#![tactic(auto)]

mod accepted;
pub mod additional_items;
pub mod compiler;
pub mod contains;
pub mod each;
mod evaluation;
pub mod items;
pub mod laws;
pub mod matching;
pub mod node;
mod part;
pub mod prefix_items;
pub mod rest;
mod schema;
pub mod upstream;
pub mod validator;

pub use compiler::compile;
pub use node::SchemaNode;
pub use validator::Validator;
