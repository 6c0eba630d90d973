// Why a text isn't opened.
use std::alloc::{AllocError, AllocFailed};
use thiserror::Error;

/// Why a text isn't opened.
#[derive(Clone, Copy, Debug, PartialEq, Eq, Error)]
pub enum SealFault {
    /// The text doesn't begin as a sealed one.
    #[error("not sealed")]
    NotSealed,
    /// The text is sealed with none of the keys.
    #[error("sealed with another key")]
    WrongKey,
    /// Out of memory.
    #[error("out of memory")]
    Memory,
}

impl From<AllocError> for SealFault {
    ghost use Rattle.std.specs.Prelude.{◌≡◌};
    ghost use Rattle.uu_seal.specs.declared.fault.SealFault.TheVariants.{Memory};

    ghost from_gives = { λ _ fault. fault ≡ Memory };

    fn from(_refused: AllocError) -> SealFault {
        SealFault::Memory
    }
}

impl<T: Drop> From<AllocFailed<T>> for SealFault {
    ghost use Rattle.std.specs.Prelude.{◌≡◌};
    ghost use Rattle.uu_seal.specs.declared.fault.SealFault.TheVariants.{Memory};

    ghost from_gives = { λ _ fault. fault ≡ Memory };

    fn from(_refused: AllocFailed<T>) -> SealFault {
        SealFault::Memory
    }
}
