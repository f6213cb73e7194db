//! What is done, shown on standard error.
use crate::program::Show;
use jskw_documents::{Counts, Watcher};
use std::alloc::{AllocError, Global};
use std::io::{IsTerminal, Write};
use std::time::Instant;

// The milliseconds between two lines, at least.
const PAUSE: u128 = 500;

// From how many bytes on progress is shown on a terminal.
const LARGE: usize = 10_000_000;

// Shows counts on standard error, if that is wanted.
#[derive(Drop)]
pub(crate) struct Progress<'r> {
    rt: &'r HostRuntime,
    // `--progress` was given.
    is_asked: bool,
    is_terminal: bool,
    // A file was begun.
    has_begun: bool,
    begun: Option<Instant>,
    told: Option<Instant>,
    // Of the files before this one.
    before: Counts,
    // Of this file.
    counts: Counts,
    size: Option<u64>,
}

impl<'r> Progress<'r> {
    pub(crate) fn new(rt: &'r HostRuntime) -> Progress<'r> {
        Progress {
            rt,
            is_asked: false,
            is_terminal: rt.stderr().is_terminal(),
            has_begun: false,
            begun: None,
            told: None,
            before: Counts::new(),
            counts: Counts::new(),
            size: None,
        }
    }

    // Shows the last line, if files were checked.
    pub(crate) fn end(&mut self) {
        let is_shown = self.is_asked || milliseconds(self.begun, self.told) > 0;
        if self.has_begun && is_shown {
            self.size = None;
            self.tell('\n');
        }
    }

    // Shows a line. If it cannot be written, it is left out.
    fn tell(&self, end: char) {
        if let Ok(line) = self.line(end) {
            let _ = Write::write_all(&mut self.rt.stderr(), line.as_str().as_bytes());
        }
    }

    // Returns the line.
    fn line(&self, end: char) -> Result<String, AllocError> {
        let alloc = self.rt.alloc();
        let all = self.before.plus(self.counts);
        let speed = all.bytes as u128 / 100 / milliseconds(self.begun, now(self.rt)).max(1);
        let mut line = String::new(alloc);
        push_counts(alloc, &mut line, all, speed)?;
        if let Some(size) = self.size {
            let part = self.counts.bytes as u128 * 100 / (size as u128).max(1);
            line.push_str(", ")?;
            push_grouped(alloc, &mut line, part, "% of the file")?;
        }
        format!(in alloc; "{:<79}{end}", line.as_str())
    }
}

impl Show for Progress<'_> {
    fn ask(&mut self) {
        self.is_asked = true;
    }
}

impl Watcher for Progress<'_> {
    // The first file begins the time.
    fn begins(&mut self, size: Option<u64>) {
        if !self.has_begun {
            self.has_begun = true;
            self.begun = now(self.rt);
            self.told = self.begun;
        }
        self.before = self.before.plus(self.counts);
        self.counts = Counts::new();
        self.size = size;
    }

    fn saw(&mut self, counts: Counts) {
        self.counts = counts;
        let bytes = self.before.plus(counts).bytes;
        if self.is_asked || self.is_terminal && bytes > LARGE {
            let now = now(self.rt);
            if milliseconds(self.told, now) > PAUSE {
                self.told = now;
                self.tell('\r');
            }
        }
    }
}

// Returns the time, if the clock can be read.
fn now(rt: &HostRuntime) -> Option<Instant> {
    Instant::now(rt).ok()
}

// Returns the milliseconds from one time to another, and 0 if one is not known.
fn milliseconds(from: Option<Instant>, to: Option<Instant>) -> u128 {
    match (from, to) {
        (Some(from), Some(to)) => to.duration_since(from).as_millis(),
        _ => 0,
    }
}

// Appends counts, and a speed in tenths of MB/s.
fn push_counts(
    alloc: Global,
    line: &mut String,
    all: Counts,
    speed: u128,
) -> Result<(), AllocError> {
    let bytes = all.bytes as u128 / 100_000;
    push_grouped(alloc, line, all.documents as u128, " documents, ")?;
    push_grouped(alloc, line, bytes / 10, ".")?;
    push_grouped(alloc, line, bytes % 10, " MB, ")?;
    push_grouped(alloc, line, all.errors as u128, " errors, ")?;
    push_grouped(alloc, line, speed / 10, ".")?;
    push_grouped(alloc, line, speed % 10, " MB/s")
}

// Appends a number, with a comma before each three digits, and its unit.
fn push_grouped(
    alloc: Global,
    text: &mut String,
    number: u128,
    unit: &str,
) -> Result<(), AllocError> {
    let digits = format!(in alloc; "{number}")?;
    let mut left = digits.len();
    for digit in digits.as_str().chars() {
        text.push(digit)?;
        left = left.saturating_sub(1);
        if left > 0 && left % 3 == 0 {
            text.push(',')?;
        }
    }
    text.push_str(unit)
}
