//! Where files are found by their names.
ghost use Rattle.std.specs.Prelude.{◌≡◌, ℕ, List, Option, false, IfOk};

use jskw_service::Source;

/// A file that was opened.
#[derive(Debug, Drop)]
pub struct Opened<R> {
    /// What gives its bytes.
    pub reader: R,
    /// How many bytes it has, if that is known.
    pub size: Option<u64>,
}

/// What gives the bytes of a file.
pub trait FileSource: Source {
    /// Returns why a read has failed.
    fn why_failed(&self) -> &'static str;
}

/// What opens files by their names.
pub trait Folder {
    /// What gives the bytes of a file.
    type Reader: FileSource + Drop;

    /// The bytes of the file of each name, if they are known.
    ghost bytes_of: { Self → List ℕ → Option (List ℕ) };

    /// Opens the file of this name, or returns why it cannot be read.
    fn open(&self, name: &str) -> Result<Opened<Self::Reader>, &'static str>
        ensures bytes { IfOk result (λ file. Self.Reader.remaining file.reader ≡ bytes_of self.now name.now) }
        ensures works { IfOk result (λ file. Self.Reader.has_failed file.reader ≡ false) };
}
