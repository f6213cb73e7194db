//! Validates one instance against one schema: from the bytes of a request to the bytes of its
//! answer, over any reader and any writer.
//!
//! - [`run`] reads a request and writes the answer.
//! - [`reply_to`] answers a request that is in memory.
//! - [`reply_to_instance`] answers an instance under a schema that is already compiled.
//! - [`first_errors`] collects errors up to a limit.
//!
//! A request is a JSON object with a schema, an instance and settings, an answer a text of lines: the
//! repository's docs/USE.md lists the members of the one and the lines of the other, under "The
//! program". There is no object layer, so every active `required` is asserted.
//!
//! A call that returns a `Result` with `AllocError` fails only if memory runs out.
#![tactic(auto)]

mod bytes;
mod device;
mod errors;
mod io;
mod request;
mod service;
mod std_device;

pub use bytes::push_bytes;
pub use device::{DeviceFault, Sink, Source};
pub use errors::first_errors;
pub use io::{SourceFault, read_all, write_all};
pub use request::{draft_named, overridden_of, vocabularies_of, vocabulary_named};
pub use service::{Reply, RunFault, Verdict, read_value, reply_to, reply_to_instance, run, status};
pub use std_device::{StdSink, StdSource};
