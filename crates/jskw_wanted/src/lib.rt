//! What a schema wants of an instance: of what is left out, no keyword says anything.
//!
//! [`wanted`] returns it level by level, as [`TreeReader::read_wanted`](jskw_text::TreeReader::read_wanted)
//! takes it. `specs/Seen.antt` says what a schema looks at, and that the rest makes no difference.
//!
//! # Memory
//!
//! A call that returns a `Result` with `AllocError` fails only if memory runs out.
#![tactic(auto)]

mod asked;
pub mod laws;
mod levels;

pub use levels::wanted;
