//! The errors of an instance as they are found: the first alone, or a list.
ghost use Rattle.std.specs.Prelude.{◌≡◌, [], ◌∷◌, IsOk, List, None, Option, false, true, ℕ};
ghost use Rattle.jskw_report.specs.Errors.{failure_of, failures_of};
ghost use Rattle.jskw_report.specs.Fail.{Failure};
ghost use Rattle.jskw_report.specs.Observe.{AppendsFailures, IsFirst, Leaves, Reports, found};
ghost use Rattle.jskw_report.specs.Observe.{keeps_list, limited, room as room_of};
ghost use Rattle.jskw_report.specs.declared.report.Report.TheVariants.{First, Listed};

use crate::error::{Fault, Stop, ValidationError};
use jskw_value::Json;
use std::alloc::AllocError;
use std::{fmt, mem};

/// The errors of an instance that were found, and how many more are wanted.
#[derive(Drop)]
pub enum Report<'i, F: Json> {
    /// The first error, if it was found. No other is wanted.
    First(Option<ValidationError<'i, F>>),
    /// The errors so far, while others are wanted.
    Listed(ErrorList<'i, F>),
}

impl<F: Json> fmt::Debug for Report<'_, F> {
    fn fmt<W: fmt::Write>(&self, f: &mut fmt::Formatter<W>) -> fmt::Result {
        let name = match self {
            Report::First(_) => "First",
            Report::Listed(_) => "Listed",
        };
        f.debug_struct(name).finish_non_exhaustive()
    }
}

/// A list of errors, in order, and how many more it takes.
#[derive(Drop)]
pub struct ErrorList<'i, F: Json> {
    errors: Vec<ValidationError<'i, F>>,
    // all of them if `None`
    room: Option<usize>,
}

impl<F: Json> fmt::Debug for ErrorList<'_, F> {
    fn fmt<W: fmt::Write>(&self, f: &mut fmt::Formatter<W>) -> fmt::Result {
        f.debug_struct("ErrorList")
            .field("room", &self.room)
            .finish_non_exhaustive()
    }
}

impl<'i, F: Json> Report<'i, F> {
    /// Adds an error, if one is wanted.
    ///
    /// # Errors
    ///
    /// - [`Stop::Invalid`] if no other error is wanted.
    /// - [`Stop::Memory`] if memory runs out. The errors are unchanged then.
    #[inline(always)]
    pub fn add(&mut self, error: ValidationError<'i, F>) -> Result<(), Stop>
        ensures { Reports F.Node.tree self.old self.new (failure_of F.Node.tree error.entry ∷ [])
            result }
    {
        match self {
            Report::First(first) => {
                if first.is_none() {
                    *first = Some(error);
                }
                Err(Stop::Invalid)
            }
            Report::Listed(list) => list.add(error),
        }
    }

    /// Takes the errors out of a list, to report others behind them: at most `room`, or all if it is
    /// `None`.
    pub fn appending_to(
        errors: &mut Vec<ValidationError<'i, F>>,
        room: Option<usize>,
    ) -> Report<'i, F>
        ensures list { keeps_list result ≡ true }
        ensures room { room_of result ≡ room }
        ensures found { found F.Node.tree result ≡ failures_of F.Node.tree errors.old.items }
    {
        let alloc = *errors.allocator();
        let errors = mem::replace(errors, Vec::new(alloc));
        Report::Listed(ErrorList { errors, room })
    }

    /// Returns the result of `validate` for that of `report_errors`. The report must not be a list.
    #[inline(always)]
    pub fn first_result(self, reported: Result<(), Stop>) -> Result<(), Fault<'i, F>>
        requires { keeps_list self ≡ false }
        ensures first { (fs : List Failure) → Reports F.Node.tree (First None) self.entry fs reported
            → IsFirst F.Node.tree fs result }
        ensures ok { IsOk reported → found F.Node.tree self.entry ≡ [] → IsOk result }
    {
        let Report::First(first) = self else {
            unreachable!()
        };
        match (reported, first) {
            (Err(Stop::Memory(error)), _) => Err(Fault::Memory(error)),
            (_, Some(error)) => Err(Fault::Invalid(error)),
            (_, None) => Ok(()),
        }
    }

    /// Puts the errors into the list from which [`appending_to`](Report::appending_to) took them, and
    /// returns the result of `collect_errors` for that of `report_errors`. The report must be a list.
    pub fn into_list(
        self,
        reported: Result<(), Stop>,
        errors: &mut Vec<ValidationError<'i, F>>,
    ) -> Result<(), AllocError>
        requires { keeps_list self ≡ true }
        ensures list { failures_of F.Node.tree errors.new.items ≡ found F.Node.tree self.entry }
        ensures appended { (n : Option ℕ) (old new fs : List Failure) → Leaves n old new fs reported
            → AppendsFailures old new (limited n fs) result }
        ensures ok { IsOk reported → IsOk result }
    {
        let Report::Listed(list) = self else {
            unreachable!()
        };
        *errors = list.errors;
        match reported {
            Ok(()) | Err(Stop::Invalid) => Ok(()),
            Err(Stop::Memory(error)) => Err(error),
        }
    }
}

impl<'i, F: Json> ErrorList<'i, F> {
    // Adds an error, if there is room. `Stop::Invalid` if there is none for another then.
    #[inline(never)]
    fn add(&mut self, error: ValidationError<'i, F>) -> Result<(), Stop>
        ensures { Reports F.Node.tree (Listed self.old) (Listed self.new)
            (failure_of F.Node.tree error.entry ∷ []) result }
    {
        let behind = match self.room {
            Some(0) => return Err(Stop::Invalid),
            Some(room) => Some(room - 1),
            None => None,
        };
        self.errors.push(error)?;
        self.room = behind;
        if behind == Some(0) {
            Err(Stop::Invalid)
        } else {
            Ok(())
        }
    }
}
