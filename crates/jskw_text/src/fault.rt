//! Why bytes could not be read.
ghost use Rattle.std.specs.Prelude.{◌≡◌, alloc_error};
ghost use Rattle.jskw_text.specs.declared.fault.ReadFault.TheVariants as read_fault;
ghost use Rattle.jskw_text.specs.declared.fault.Stop.TheVariants as stop;

use crate::not_json::NotJsonReason;
use crate::position::Position;
use std::alloc::{AllocError, AllocFailed};
use std::error::Error;
use std::fmt;

/// Why bytes could not be read. It is displayed in one sentence without a full stop, with its line and
/// column or its location.
#[derive(Debug, Drop)]
pub enum ReadFault {
    /// The bytes are not UTF-8, not JSON, or JSON that is refused: with arrays and objects that nest
    /// deeper than 127 levels, or with the escape of a lone surrogate. The reason, and the place of what
    /// breaks the text.
    ///
    /// If the bytes are not UTF-8, the place is behind the longest beginning that is. Otherwise it is
    /// where the first string, number, word, bracket, comma or colon begins that no JSON text has there;
    /// a string, number or word that the end of the text cuts off is such. If the text ends too early
    /// between two of them, it is the end.
    NotJson(NotJsonReason, Position),
    /// A number is not exact: it is no `c / 10^k` with `c` from -2^63 to 2^64-1 and `k` from 0 to 18,
    /// or from 1 to 18 if it is written with a point or an exponent. The location of the first such
    /// number, in the order of the text, as a JSON pointer, and its place.
    Inexact(String, Position),
    /// Memory ran out. This says nothing about the bytes.
    Memory(AllocError),
}

impl fmt::Display for ReadFault {
    ghost use Rattle.std.specs.Prelude.{Some};
    ghost use Rattle.jskw_text.specs.ReadFault.{fault_text};

    ghost output = { λ f. Some (fault_text f) };

    fn fmt<W: fmt::Write>(&self, f: &mut fmt::Formatter<W>) -> fmt::Result {
        match self {
            ReadFault::NotJson(reason, at) => {
                write!(
                    f,
                    "{} at line {}, column {}",
                    reason.sentence(),
                    at.line,
                    at.column
                )
            }
            ReadFault::Inexact(location, _) => {
                write!(f, "the number at \"{location}\" is not exact")
            }
            ReadFault::Memory(_) => f.write_str("memory ran out"),
        }
    }
}

impl Error for ReadFault {}

// Why a text was not read to its end.
#[derive(Drop)]
pub(crate) enum Stop {
    // What was read begins no JSON text.
    Broken,
    // A number is not exact. The steps of its location, the innermost first, so that each level adds
    // one and copies none.
    Inexact(Vec<String>),
    // Memory ran out.
    Memory(AllocError),
}

impl From<AllocError> for ReadFault {
    ghost from_gives = { λ e f. f ≡ read_fault.Memory e };

    fn from(e: AllocError) -> ReadFault {
        ReadFault::Memory(e)
    }
}

impl From<json::Invalid> for Stop {
    ghost from_gives = { λ _ s. s ≡ stop.Broken };

    fn from(_e: json::Invalid) -> Stop {
        Stop::Broken
    }
}

impl From<AllocError> for Stop {
    ghost from_gives = { λ e s. s ≡ stop.Memory e };

    fn from(e: AllocError) -> Stop {
        Stop::Memory(e)
    }
}

impl<T: Drop> From<AllocFailed<T>> for Stop {
    ghost from_gives = { λ _ s. s ≡ stop.Memory alloc_error };

    fn from(e: AllocFailed<T>) -> Stop {
        Stop::Memory(AllocError::from(e))
    }
}
