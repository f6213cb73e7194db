//! Why the documents of a reader could not be checked to their end.
ghost use Rattle.std.specs.Prelude.{◌≡◌};
ghost use Rattle.jskw_documents.specs.declared.fault.CheckFault.TheVariants.{Memory};

use std::alloc::AllocError;
use std::error::Error;
use std::fmt;

/// Why the documents of a reader could not be checked to their end. It is displayed as its variant
/// says, in a sentence without a full stop.
#[derive(Clone, Copy, Debug, PartialEq, Eq)]
pub enum CheckFault {
    /// The reader failed.
    Read,
    /// The writer failed.
    Write,
    /// Memory ran out.
    Memory,
    /// The reader gave 2^64 blocks or lines.
    TooLong,
}

impl From<AllocError> for CheckFault {
    ghost from_gives = { λ _ e. e ≡ Memory };

    fn from(_e: AllocError) -> CheckFault {
        CheckFault::Memory
    }
}

impl fmt::Display for CheckFault {
    ghost use Rattle.std.specs.Prelude.{Some};
    ghost use Rattle.jskw_documents.specs.Devices.{check_fault_text};

    ghost output = { λ f. Some (check_fault_text f) };

    fn fmt<W: fmt::Write>(&self, f: &mut fmt::Formatter<W>) -> fmt::Result {
        f.write_str(match self {
            CheckFault::Read => "the reader failed",
            CheckFault::Write => "the writer failed",
            CheckFault::Memory => "memory ran out",
            CheckFault::TooLong => "the reader gave 2^64 blocks or lines",
        })
    }
}

impl Error for CheckFault {}
