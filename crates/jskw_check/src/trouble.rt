//! Why a run ended early.
ghost use Rattle.std.specs.Prelude.{◌≡◌};
ghost use Rattle.jskw_check.specs.declared.trouble.Trouble.TheVariants.{Memory};

use jskw_documents::CheckFault;
use std::alloc::AllocError;

// Why a run ended early.
#[derive(Clone, Copy)]
pub(crate) enum Trouble {
    // The output cannot be written.
    Output,
    // Memory ran out.
    Memory,
    // A file has 2^64 lines or blocks.
    TooLong,
}

impl From<AllocError> for Trouble {
    ghost from_gives = { λ _ e. e ≡ Memory };

    fn from(_e: AllocError) -> Trouble {
        Trouble::Memory
    }
}

impl Trouble {
    // Returns what is said of it.
    pub(crate) fn words(self) -> &'static str {
        match self {
            Trouble::Output => "jskw: the output cannot be written",
            Trouble::Memory => "jskw: memory ran out",
            Trouble::TooLong => "jskw: a file has 2^64 lines or blocks",
        }
    }
}
