// Why a map text is refused.
ghost use Rattle.std.specs.Prelude.{◌≡◌};
ghost use Rattle.uu_map.specs.declared.fault.MapFault.TheVariants.{Memory};
ghost use Rattle.uu_map.specs.Fault.{fault_code};

use std::alloc::{AllocError, AllocFailed};
use thiserror::Error;

/// Why a text of a map was refused.
#[derive(Clone, Copy, Debug, PartialEq, Eq, Error)]
pub enum MapFault {
    /// No line is a `#N` line, or the first one names nothing.
    #[error("no name")]
    NoName,
    /// The name on the first `#N` line isn't a site name, or is too long for one.
    #[error("bad host")]
    BadHost,
    /// The entry has more than 65,536 bytes.
    #[error("too large")]
    TooLarge,
    /// Out of memory, in [`read_entry`](crate::read_entry) or [`split`](crate::split). Any call may
    /// give it instead of another answer.
    #[error("out of memory")]
    Memory,
}

impl MapFault {
    /// The fault's number, from 1 for [`MapFault::NoName`] to 4 for [`MapFault::Memory`], in the
    /// order of the variants.
    pub fn code(&self) -> u8
        ensures { result ≡ fault_code self.now }
    {
        match self {
            MapFault::NoName => 1,
            MapFault::BadHost => 2,
            MapFault::TooLarge => 3,
            MapFault::Memory => 4,
        }
    }
}

impl From<AllocError> for MapFault {
    ghost from_gives = { λ _ fault. fault ≡ Memory };

    fn from(_refused: AllocError) -> MapFault {
        MapFault::Memory
    }
}

impl<T: Drop> From<AllocFailed<T>> for MapFault {
    ghost from_gives = { λ _ fault. fault ≡ Memory };

    fn from(_refused: AllocFailed<T>) -> MapFault {
        MapFault::Memory
    }
}
