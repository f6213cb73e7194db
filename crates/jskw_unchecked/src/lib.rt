//! What is not checked of a schema: the members that assert nothing under given settings.
//!
//! A schema may use keywords that this library has not, names that no draft has, and keywords that
//! assert nothing as they stand. It compiles all the same, and these accept everything, as the
//! standard has it for unknown keywords. [`unchecked`] lists them, each with its location and a
//! [`Reason`]. If the list is empty, the validators of this library cover the schema whole:
//! [`laws::every_member_is_covered`] says what that means.
//!
//! # Memory
//!
//! A call that returns a `Result` with `AllocError` fails only if memory runs out.
#![tactic(auto)]

pub mod laws;
pub mod member;
mod names;
pub mod reason;
mod walk;

pub use member::UncheckedMember;
pub use reason::Reason;
pub use walk::unchecked;
