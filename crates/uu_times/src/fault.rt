//! What can be wrong with a zone, a moment, a time string or a sys file.
ghost use Rattle.std.specs.Prelude.{◌≡◌};
ghost use Rattle.uu_times.specs.Fault.{code_of};

use std::alloc::{AllocError, AllocFailed};
use thiserror::Error;

/// A fault of a zone, of a moment, of a time string or of a sys file.
///
/// Lines count physical lines from 1, and are 0 if the text was one time string. An offset counts
/// bytes of the time string from 0.
#[derive(Clone, Copy, PartialEq, Eq, Debug, Drop, Error)]
pub enum TimeFault {
    /// The second is after the last moment.
    #[error("moment out of range")]
    MomentRange,
    /// The offset from UTC is a day or more.
    #[error("offset out of range")]
    OffsetRange,
    /// A text that isn't a time string: the line, and how many of its bytes begin one.
    #[error("line {0}: bad time string at {1}")]
    BadTime(u32, usize),
    /// The text names a timetable that isn't defined.
    #[error("line {0}: unknown timetable")]
    UnknownTable(u32),
    /// A second definition of a timetable.
    #[error("line {0}: timetable defined twice")]
    TableTwice(u32),
    /// The word isn't a number, or the number exceeds its limit.
    #[error("line {0}: bad number")]
    BadNumber(u32),
    /// A `system` line without exactly one site name.
    #[error("line {0}: bad system name")]
    BadSystem(u32),
    /// More time lines than a section may have.
    #[error("line {0}: too many time lines")]
    TooManyLines(u32),
    /// A second section of a system.
    #[error("line {0}: system defined twice")]
    SystemTwice(u32),
    /// The wrong words after a keyword.
    #[error("line {0}: bad words")]
    BadWords(u32),
    /// Out of memory.
    #[error("out of memory")]
    Memory,
    /// A text that isn't a POSIX rule of a zone.
    #[error("bad zone")]
    BadZone,
}

impl TimeFault {
    /// The number of the fault.
    pub fn code(&self) -> u8
        ensures { result ≡ code_of self.now }
    {
        match self {
            TimeFault::MomentRange => 1,
            TimeFault::OffsetRange => 2,
            TimeFault::BadTime(_, _) => 3,
            TimeFault::UnknownTable(_) => 4,
            TimeFault::TableTwice(_) => 5,
            TimeFault::BadNumber(_) => 6,
            TimeFault::BadSystem(_) => 7,
            TimeFault::TooManyLines(_) => 8,
            TimeFault::SystemTwice(_) => 9,
            TimeFault::BadWords(_) => 10,
            TimeFault::Memory => 11,
            TimeFault::BadZone => 12,
        }
    }
}

impl From<AllocError> for TimeFault {
    ghost use Rattle.std.specs.Prelude.{◌≡◌};
    ghost use Rattle.uu_times.specs.declared.fault.TimeFault.TheVariants.{Memory};

    ghost from_gives = { λ _ e. e ≡ Memory };

    fn from(_: AllocError) -> TimeFault {
        TimeFault::Memory
    }
}

impl<T: Drop> From<AllocFailed<T>> for TimeFault {
    ghost use Rattle.std.specs.Prelude.{◌≡◌};
    ghost use Rattle.uu_times.specs.declared.fault.TimeFault.TheVariants.{Memory};

    ghost from_gives = { λ _ e. e ≡ Memory };

    fn from(_: AllocFailed<T>) -> TimeFault {
        TimeFault::Memory
    }
}
