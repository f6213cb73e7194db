//! Exact decimals from JSON text.
//!
//! [`read_bytes`] reads JSON text into a [`DecimalTree`](jskw_value::DecimalTree), or returns a
//! [`ReadFault`]: a [`NotJsonReason`] with its place, or the place of a number. [`TreeReader`] keeps the
//! room of trees that are no longer needed. [`position_of`] returns the line and the column of an offset,
//! [`parse_decimal`] reads one number.
//! `specs/Reading.antt` says which tree a text denotes, `specs/NumberText.antt` which decimal a number.
#![tactic(auto)]

mod broken;
mod cursor;
mod escape;
pub mod fault;
pub mod laws;
pub mod not_json;
pub mod number;
pub mod position;
mod quick;
pub mod reader;
mod scan;
mod skip;
mod sorted;
mod spare;
pub mod tree;
pub mod wanted;

pub use fault::ReadFault;
pub use not_json::NotJsonReason;
pub use number::parse_decimal;
pub use position::{Position, position_of};
pub use reader::TreeReader;
pub use tree::read_bytes;
pub use wanted::{Level, Names};
