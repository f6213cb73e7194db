//! Streams of bytes, and what they are checked against.
ghost use Rattle.std.specs.Prelude.{◌≡◌, IfOk};
ghost use Rattle.jskw_documents.specs.Shown.{name_words};

use crate::checker::Checker;
use crate::options::Output;
use crate::words::{push_quoted_after, push_shown};
use std::alloc::{AllocError, Global};

/// A file or another stream of bytes: its name, and what its documents are checked against.
#[derive(Debug, Drop)]
pub struct Stream<'c, 'f> {
    pub(crate) alloc: Global,
    pub(crate) checker: &'c Checker,
    // The name of the stream.
    pub(crate) file: &'f str,
    // It again, as an answer names it: then a document can be refused without memory.
    pub(crate) name: Vec<u8>,
    ghost named: { name.items ≡ name_words checker.now.options.output file.now },
}

impl<'c, 'f> Stream<'c, 'f> {
    /// Creates the stream of this name.
    pub fn new(
        alloc: Global,
        checker: &'c Checker,
        file: &'f str,
    ) -> Result<Stream<'c, 'f>, AllocError>
        ensures checker { IfOk result (λ stream. stream.checker.now ≡ checker.now) }
        ensures file { IfOk result (λ stream. stream.file.now ≡ file.now) }
    {
        let name = named(alloc, checker.options.output, file)?;
        Ok(Stream {
            alloc,
            checker,
            file,
            name,
        })
    }
}

// Returns the name of a stream, as the answer to one of its documents begins.
fn named(alloc: Global, output: Output, file: &str) -> Result<Vec<u8>, AllocError>
    ensures { IfOk result (λ name. name.items ≡ name_words output file.now) }
{
    let mut name = Vec::new(alloc);
    match output {
        Output::Basic => push_quoted_after(alloc, &mut name, b"{\"file\":", file)?,
        Output::Text | Output::Quiet => push_shown(&mut name, file.as_bytes())?,
    }
    Ok(name)
}
