//! Replies and runs, also over readers and writers that fail.
use crate::members::bytes_of;
use crate::printer::Printer;
use jskw_service::{StdSink, StdSource, reply_to, run, status};
use serde_json::Value;
use std::io::{self, ErrorKind, Read, Write};

/// Has a request of the bytes of texts and numbers answered, and prints the verdict and the lines.
pub(super) fn reply(to: &mut Printer, parts: &[Value]) {
    let bytes = bytes_of(to, parts);
    to.announce("reply_to", "asked");
    let reply = reply_to(to.alloc, &bytes);
    to.tell(reply.is_err());
    if let Ok(reply) = &reply {
        write!(to, "\n\t{:?}", reply.verdict());
        push_lines(to, reply.text());
    }
}

/// Runs over such bytes, and appends the lines that are written, and the status.
pub(super) fn run_bytes(to: &mut Printer, parts: &[Value]) {
    let bytes = bytes_of(to, parts);
    let mut source = StdSource::new(&bytes[..]);
    let mut sink = StdSink::new(Vec::new(to.alloc));
    let status = status(&run(to.alloc, &mut source, &mut sink));
    push_lines(to, sink.into_inner().as_slice());
    write!(to, "\n\tstatus {status}");
}

fn push_lines(to: &mut Printer, bytes: &[u8]) {
    for line in std::str::from_utf8(bytes).unwrap_or("no text").lines() {
        write!(to, "\n\t{line}");
    }
}

// A request, which is read in 8 pieces of 4 bytes and the end. Its reply is written in 5 pieces of 3.
const REQUEST: &[u8] = b"{\"schema\":false,\"instance\":null}";

// A reader or a writer that fails once, after so many calls, and works before and afterwards. Without
// an error to give it moves no byte then.
#[derive(Drop)]
struct FailsOnce<T>(T, usize, Option<ErrorKind>);

impl<T> FailsOnce<T> {
    // Returns how many of so many bytes this call may move, or its error.
    fn most(&mut self, count: usize) -> io::Result<usize> {
        let fails = self.1 == 0;
        self.1 = self.1.wrapping_sub(1);
        match self.2 {
            Some(kind) if fails => Err(kind)?,
            _ => Ok(if fails { 0 } else { count }),
        }
    }
}

impl<R: Read> Read for FailsOnce<R> {
    fn read(&mut self, buf: &mut [u8]) -> io::Result<usize> {
        let most = self.most(4)?.min(buf.len());
        self.0.read(&mut buf[..most])
    }
}

impl<W: Write> Write for FailsOnce<W> {
    fn write(&mut self, bytes: &[u8]) -> io::Result<usize> {
        let most = self.most(3)?.min(bytes.len());
        self.0.write(&bytes[..most])
    }

    fn flush(&mut self) -> io::Result<()> {
        self.0.flush()
    }
}

/// Runs over a reader or a writer that fails after each number of calls up to 9, with an error after
/// which a call may be tried again, with another one, or without one: then no byte is moved. Appends how
/// the runs end, their status, and what they write.
pub(super) fn push_runs(to: &mut Printer) {
    for error in &[Some(ErrorKind::Interrupted), Some(ErrorKind::Other), None] {
        for calls in 0..10 {
            push_run(to, calls, usize::MAX, *error);
            push_run(to, usize::MAX, calls, *error);
        }
    }
}

fn push_run(to: &mut Printer, reads: usize, writes: usize, error: Option<ErrorKind>) {
    let mut source = StdSource::new(FailsOnce(REQUEST, reads, error));
    let mut sink = StdSink::new(FailsOnce(Vec::new(to.alloc), writes, error));
    let outcome = run(to.alloc, &mut source, &mut sink);
    let (status, written) = (status(&outcome), sink.into_inner().0);
    let written = std::str::from_utf8(written.as_slice()).unwrap_or("?");
    write!(to, "\n\t{error:?} {outcome:?} {status} {written:?}");
}
