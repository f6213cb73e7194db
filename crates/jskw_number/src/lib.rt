//! Validators for the keywords on numbers and sizes: `minimum`, `maximum`, `exclusiveMinimum`,
//! `exclusiveMaximum`, `multipleOf`, `minItems`, `maxItems`, `minProperties` and `maxProperties`.
//!
//! [`compile`] turns such a keyword of a schema into a [`NumberValidator`]. A `NumberValidator` is
//! an [`Assertion`](jskw_report::Assertion), and so [`Validate`](jskw_report::Validate) gives it
//! four observers, over every representation. Each keyword's module has its own validator and its
//! own `compile`.
//!
//! # Arguments
//!
//! Each `compile` takes an object of the schema as `parent`, the value that the keyword has in it
//! as `schema`, and the context of `parent` as `ctx`. The caller checks that the keyword is active,
//! by [`is_active`](jskw_report::KeywordName::is_active). Only Draft 4's `minimum` and `maximum` read
//! `parent`; the others take it to have the same signature.
//!
//! ```rust
//! let keyword = KeywordName::MinItems;
//! let schema = member_of(parent, keyword.as_str())?;
//! if !keyword.is_active(ctx) {
//!     return None;
//! }
//! jskw_number::compile(alloc, ctx, parent, keyword, schema)
//! ```
//!
//! The result is always `Some`, since each of these keywords asserts something.
//!
//! # Errors
//!
//! A `compile` fails with [`CompileFault::Memory`](jskw_report::CompileFault::Memory) if memory
//! runs out, and with [`CompileFault::Bad`](jskw_report::CompileFault::Bad) if the keyword does not
//! accept the value. That error is at the location of the keyword, with one exception: for a Draft
//! 4 `minimum` that is exclusive it is at `exclusiveMinimum`, and for such a `maximum` at
//! `exclusiveMaximum`. Its kind is:
//!
//! - for a bound on a size: see [`helpers::fail_on_non_positive_integer`];
//! - for a limit: see [`minmax`];
//! - for a divisor: see [`multiple_of`].
#![tactic(auto)]

pub mod helpers;
mod keywords;
pub mod legacy;
pub mod minmax;
pub mod multiple_of;
pub mod number;
pub mod outline;
pub mod quick_set;
pub mod sizes;

/// `maxItems`.
pub mod max_items {
    pub use crate::sizes::{MaxItemsValidator, compile_max_items as compile};
}

/// `maxProperties`.
pub mod max_properties {
    pub use crate::sizes::{MaxPropertiesValidator, compile_max_properties as compile};
}

/// `minItems`.
pub mod min_items {
    pub use crate::sizes::{MinItemsValidator, compile_min_items as compile};
}

/// `minProperties`.
pub mod min_properties {
    pub use crate::sizes::{MinPropertiesValidator, compile_min_properties as compile};
}

pub use keywords::compile;
pub use number::NumberValidator;
pub use outline::Outline;
pub use quick_set::QuickSet;
