// Why a text isn't read as a bundle.
use std::alloc::{AllocError, AllocFailed};
use thiserror::Error;

/// Why a text isn't read as a bundle.
#[derive(Clone, Copy, Debug, PartialEq, Eq, Error)]
pub enum BundleFault {
    /// The text doesn't begin with the first line of a bundle.
    #[error("no bundle")]
    NoBundle,
    /// Out of memory.
    #[error("out of memory")]
    Memory,
}

impl From<AllocError> for BundleFault {
    ghost use Rattle.std.specs.Prelude.{◌≡◌};
    ghost use Rattle.uu_bundle.specs.declared.fault.BundleFault.TheVariants.{Memory};

    ghost from_gives = { λ _ fault. fault ≡ Memory };

    fn from(_refused: AllocError) -> BundleFault {
        BundleFault::Memory
    }
}

impl<T: Drop> From<AllocFailed<T>> for BundleFault {
    ghost use Rattle.std.specs.Prelude.{◌≡◌};
    ghost use Rattle.uu_bundle.specs.declared.fault.BundleFault.TheVariants.{Memory};

    ghost from_gives = { λ _ fault. fault ≡ Memory };

    fn from(_refused: AllocFailed<T>) -> BundleFault {
        BundleFault::Memory
    }
}
