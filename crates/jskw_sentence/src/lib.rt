//! Errors as sentences for people.
//!
//! [`sentence`] says of a [`ValidationError`](jskw_report::ValidationError) what is wrong with the value
//! at fault, [`shown_place`] where that is. Values are written by [`push_value`], which stops at a bound:
//! it takes the time and room of the bound, not of the value. Characters that a terminal may take as
//! commands are written as escapes. Sentences may change from one version to the next.
//!
//! # Memory
//!
//! A call that returns a `Result` with `AllocError` fails only if memory runs out.
#![tactic(auto)]

mod bounded;
pub mod error_sentence;
pub mod types;
pub mod value;

pub use error_sentence::{schema_sentence, sentence, shown_place};
pub use types::{TYPES, type_name};
pub use value::push_value;
