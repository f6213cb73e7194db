//! Checks documents against a compiled schema: files, and the lines of streams.
//!
//! - [`schema_of`] compiles the schema of a text.
//! - [`Stream`] names what is checked, and has what it is checked against.
//! - [`answer_to`] answers one document that is in memory.
//! - [`check_document`] reads a document from a reader and writes the answer.
//! - [`check_lines`] does so for each line of a reader, and keeps one line in memory at a time.
//! - [`check_files`] checks the files of a [`Folder`], one behind the other.
//!
//! The repository's docs/USE.md lists what is written, under "Files and streams".
//!
//! A call that returns a `Result` with `AllocError` fails only if memory runs out.
#![tactic(auto)]

mod answer;
mod checker;
mod compiled;
mod document;
mod errors;
mod fault;
mod files;
mod folder;
mod line_reader;
mod lines;
mod lost;
mod options;
mod place;
mod schema;
mod starts;
mod stream;
mod watcher;
mod words;

pub use answer::{Answer, answer_to, worse_of};
pub use checker::Checker;
pub use compiled::CompiledSchema;
pub use document::check_document;
pub use fault::CheckFault;
pub use files::check_files;
pub use folder::{FileSource, Folder, Opened};
pub use lines::check_lines;
pub use options::{Options, Output};
pub use place::{Place, refusal};
pub use schema::{SchemaOptions, schema_of};
pub use stream::Stream;
pub use watcher::{Counts, Watcher};
pub use words::push_shown;
