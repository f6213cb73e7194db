//! What is known of a run while it goes on.
ghost use Rattle.std.specs.Prelude.{◌≡◌, ◌+◌, min};

/// Counts of the documents of a reader so far.
#[derive(Clone, Copy, Debug)]
pub struct Counts {
    /// How many documents were answered.
    pub documents: usize,
    /// How many bytes they have, up to 2^64 - 1.
    pub bytes: usize,
    /// How many errors were collected, up to 2^64 - 1.
    pub errors: usize,
}

impl Counts {
    /// Returns the counts before the first document.
    pub fn new() -> Counts
        ensures { result ≡ record { documents = 0; bytes = 0; errors = 0 } }
    {
        Counts {
            documents: 0,
            bytes: 0,
            errors: 0,
        }
    }

    /// Returns these counts and others, added up. A sum stops at 2^64-1.
    pub fn plus(self, other: Counts) -> Counts
        ensures { result ≡ record {
          documents = min (self.documents + other.documents) usize.MAX;
          bytes = min (self.bytes + other.bytes) usize.MAX;
          errors = min (self.errors + other.errors) usize.MAX;
        } }
    {
        Counts {
            documents: self.documents.saturating_add(other.documents),
            bytes: self.bytes.saturating_add(other.bytes),
            errors: self.errors.saturating_add(other.errors),
        }
    }
}

/// What looks at the counts while documents are checked.
pub trait Watcher {
    /// Notes that a file is checked next, which has so many bytes if that is known.
    fn begins(&mut self, _size: Option<u64>) {}

    /// Looks at the counts of the reader so far, after answers were written.
    fn saw(&mut self, counts: Counts);
}
