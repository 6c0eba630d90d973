// What is wrong with a text.
ghost use Rattle.std.specs.Prelude.{◌≡◌};
ghost use Rattle.uu_names.specs.declared.fault.NameFault.TheVariants.{Memory};
ghost use Rattle.uu_names.specs.Fault.{fault_code};

use std::alloc::{AllocError, AllocFailed};
use thiserror::Error;

/// Why a call of this crate failed. Offsets count bytes from 0.
#[derive(Clone, Copy, Debug, PartialEq, Eq, Error)]
pub enum NameFault {
    /// The byte isn't a digit or a letter of ASCII.
    #[error("no grade")]
    BadGrade,
    /// The text isn't a site name. The offset is that of the first byte that isn't allowed, or 0
    /// for the empty text.
    #[error("no site name, at byte {0}")]
    BadName(usize),
    /// The text isn't a bang path. The number says how many of its bytes could begin one.
    #[error("no bang path, at byte {0}")]
    BadPath(usize),
    /// The text isn't a word. The offset is that of the first byte that isn't allowed, or 0 for the
    /// empty text.
    #[error("no word, at byte {0}")]
    BadWord(usize),
    /// The message doesn't begin with an envelope line.
    #[error("no envelope")]
    NoEnvelope,
    /// The form is right, but the text has more bytes than the limit.
    #[error("too long")]
    TooLong,
    /// Out of memory.
    #[error("out of memory")]
    Memory,
}

impl NameFault {
    /// The fault's number, from 1 for [`NameFault::BadGrade`] to 7 for [`NameFault::Memory`], in
    /// the order of the variants.
    pub fn code(&self) -> u8
        ensures { result ≡ fault_code self.now }
    {
        match self {
            NameFault::BadGrade => 1,
            NameFault::BadName(_) => 2,
            NameFault::BadPath(_) => 3,
            NameFault::BadWord(_) => 4,
            NameFault::NoEnvelope => 5,
            NameFault::TooLong => 6,
            NameFault::Memory => 7,
        }
    }
}

impl From<AllocError> for NameFault {
    ghost from_gives = { λ _ fault. fault ≡ Memory };

    fn from(_refused: AllocError) -> NameFault {
        NameFault::Memory
    }
}

impl<T: Drop> From<AllocFailed<T>> for NameFault {
    ghost from_gives = { λ _ fault. fault ≡ Memory };

    fn from(_refused: AllocFailed<T>) -> NameFault {
        NameFault::Memory
    }
}
