//! JSON Schema validation, proved: the items that a program needs, under one name.
//!
//! A program that depends on this crate needs no other of this repository:
//!
//! ```rust
//! use lotsibegn::{Context, Draft, SchemaNode, Settings, VocabularySet, compile};
//! ```
//!
//! - **Compile a schema**: [`compile`] returns a [`SchemaNode`] or a [`CompileFault`]. It takes a
//!   [`Context`] over [`Settings`]: a [`Draft`], a [`VocabularySet`] and overridden keywords.
//! - **Ask what is not checked**: [`unchecked`] lists what a schema says that no validator asserts,
//!   each an [`UncheckedMember`] with a [`Reason`].
//! - **Validate an instance**: the calls of [`SchemaNode`], with a [`LazyLocation`] and a
//!   [`ValidationContext`]. They require an instance without floats, as [`Node::is_lawful`] checks.
//! - **Errors**: a [`ValidationError`] has a [`ValidationErrorKind`], two [`Location`]s and a
//!   message. [`Fault`] and [`CompileFault`] separate it from a lack of memory.
//! - **Evaluation trees**: an [`EvaluationNode`] has [`Annotations`] and [`ErrorDescription`]s.
//! - **Instances**: [`SerdeJson`], whose nodes are [`Value`]s of `serde_json`, or [`DecimalJson`],
//!   whose nodes are [`DecimalTree`]s. [`read_bytes`] reads such a tree from JSON text, or returns a
//!   [`ReadFault`], with a [`NotJsonReason`] and a [`Position`]; [`position_of`] returns the line and
//!   column of an offset. To write another representation, implement [`Json`], [`Node`], [`Array`],
//!   [`Object`], [`JsonNumber`] and [`Rooted`].
//!
//! The crates themselves are re-exported for the rest: `lotsibegn::jskw_leaf::LeafValidator`.
//!
//! # Contracts
//!
//! `Rattle.lotsibegn.specs` has the definitions that clauses cite, such as `holds`, `is_lawful` and
//! `value_tree`:
//!
//! ```rust
//! ghost use Rattle.lotsibegn.specs.{holds, is_lawful, value_tree};
//! ```
#![tactic(auto)]

pub use jskw_array;
pub use jskw_array::{SchemaNode, compile};
pub use jskw_leaf;
pub use jskw_number;
pub use jskw_report;
pub use jskw_report::{
    Annotations, CompilationResult, CompileFault, Context, Draft, EnumOptions, ErrorDescription,
    EvaluationNode, Fault, KeywordName, LazyLocation, Location, Payload, Settings, TypeKind,
    ValidationContext, ValidationError, ValidationErrorKind, Vocabulary, VocabularySet,
};
pub use jskw_text;
pub use jskw_text::{NotJsonReason, Position, ReadFault, parse_decimal, position_of, read_bytes};
pub use jskw_unchecked;
pub use jskw_unchecked::{Reason, UncheckedMember, unchecked};
pub use jskw_value;
pub use jskw_value::{
    Array, Decimal, DecimalJson, InsertFault, Json, JsonNumber, JsonType, JsonTypeSet, Member,
    Members, Node, Object, RepeatedName, Rooted, SerdeJson, Walk,
};

// Aliases, since contracts cannot name a recursive enum that is re-exported from a crate which
// their own crate does not depend on.

/// A JSON value of `serde_json`: a schema, or an instance for [`SerdeJson`].
pub type Value = serde_json::Value;

/// A JSON value with exact decimals: an instance for [`DecimalJson`].
pub type DecimalTree = jskw_value::DecimalTree;
