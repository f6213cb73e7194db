//! Validators for the keywords without subschemas (JSON Schema Core 7.6, Validation 6), and the
//! enum [`LeafValidator`] of them all. The validators of the keywords on numbers and sizes come
//! from `jskw_number`. The module [`in_place`] has the checks of items that apply no subschema.
//!
//! [`compile`](crate::compile) turns such a keyword of a schema into a `LeafValidator`, whose four
//! observers are those of [`Validate`](jskw_report::Validate). They require a lawful instance: one
//! that contains no float, as [`is_lawful`](jskw_value::Node::is_lawful) checks. Each keyword's
//! module has its own validators and its own `compile`.
//!
//! # Arguments
//!
//! Each `compile` takes an object of the schema as `parent`, the value that the keyword has in it
//! as `schema`, and the context of `parent` as `ctx`. The caller checks that the keyword is active,
//! by [`is_active`](jskw_report::KeywordName::is_active). Only `required` and Draft 4's `minimum` and
//! `maximum` read `parent`; the others take it to have the same signature.
//!
//! ```rust
//! let schema = member_of(parent, keyword.as_str())?;
//! if !jskw_leaf::is_leaf(keyword) || !keyword.is_active(ctx) {
//!     return None;
//! }
//! jskw_leaf::compile(alloc, ctx, parent, keyword, schema)
//! ```
//!
//! A `compile` returns `None` exactly if the keyword asserts nothing: for `uniqueItems` with any
//! value but `true`, and for a `required` that is [delegated](required::is_handed_on).
//!
//! # Errors
//!
//! A `compile` fails with [`CompileFault::Memory`](jskw_report::CompileFault::Memory) if memory
//! runs out, and with [`CompileFault::Bad`](jskw_report::CompileFault::Bad) if the keyword does not
//! accept the value. That error is at the location of the keyword, with one exception: for a Draft
//! 4 `minimum` that is exclusive it is at `exclusiveMinimum`, and for such a `maximum` at
//! `exclusiveMaximum`. The module of the keyword says which values are refused, and with which kind
//! of error.
#![tactic(auto)]

pub mod boolean;
pub mod const_;
pub mod enum_;
mod floats;
pub mod in_place;
pub mod leaf;
pub mod legacy;
pub mod required;
mod text_table;
pub mod type_;
pub mod unique_items;
pub mod upstream;

pub use leaf::{LeafValidator, compile, is_leaf};
