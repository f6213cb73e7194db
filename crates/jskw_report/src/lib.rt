//! The core of the library: the definitions of what a schema says and of what it says of an instance
//! (`specs/`), their laws, and what all keyword validators share: settings, locations, errors,
//! evaluations, and the traits [`Validate`] and [`Assertion`].
//!
//! The prefix `jskw` is short for "JSON Schema keywords". This crate covers the keywords on values
//! and arrays of Drafts 4, 6, 7, 2019-09 and 2020-12, which [`KeywordName`] lists.
//!
//! - [`Settings`] hold the draft, the vocabularies and the overridden keywords. A [`Context`] adds
//!   the keyword location at which a schema or a keyword is compiled.
//! - [`Validate`] has the four observers of a validator: `is_valid`, `validate`, `collect_errors`
//!   and `evaluate`. A validator has one body for the two that give errors, `report_errors`, which
//!   adds them to a [`Report`]. The contracts refer to the definitions in `specs/`. A validator that
//!   gives at most one error for an instance implements [`Assertion`], and gets the observers from
//!   it.
//! - A [`ValidationError`] says what is wrong with an instance or with a schema, an
//!   [`EvaluationNode`] what each schema and keyword reports of an instance.
//!
//! # Memory
//!
//! A call that returns a `Result` with `AllocError` fails only if memory runs out.
//! [`Fault::Memory`], [`Stop::Memory`] and [`CompileFault::Memory`] report the same.
//!
//! # Words and sections
//!
//! `docs/GLOSSARY.md` explains the words that this project uses in a sense of its own, such as
//! lawful, unit and delegated.
//!
//! Section numbers are those of JSON Schema Core and JSON Schema Validation, Draft 2020-12, unless
//! another draft is named.
#![tactic(auto)]

pub mod assertion;
pub mod context;
pub mod error;
pub mod evaluation;
pub mod keyword;
pub mod keyword_values;
pub mod laws;
mod message;
pub mod paths;
pub mod report;
pub mod settings;
pub mod validator;

pub use assertion::Assertion;
pub use context::Context;
pub use error::{
    CompilationResult, CompileFault, EnumOptions, Fault, Payload, Stop, TypeKind, ValidationError,
    ValidationErrorKind,
};
pub use evaluation::{Annotations, ErrorDescription, EvaluationNode, EvaluationResult};
pub use keyword::KeywordName;
pub use keyword_values::{KeywordValues, find_values};
pub use paths::{KeywordLocation, LazyLocation, Location, LocationSegment};
pub use report::{ErrorList, Report};
pub use settings::{Draft, Settings, Vocabulary, VocabularySet};
pub use validator::{Validate, ValidationContext};
