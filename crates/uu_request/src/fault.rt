//! Why a line asks nothing of a spool.

use std::alloc::{AllocError, AllocFailed};
use thiserror::Error;
use uu_times::TimeFault;

/// Why a line asks nothing of a spool.
#[derive(Clone, Copy, PartialEq, Eq, Debug, Drop, Error)]
pub enum RequestFault {
    /// The input has more than 4,194,304 bytes.
    #[error("too much input")]
    Input,
    /// The input isn't a sys file.
    #[error("sys file: {0}")]
    Time(TimeFault),
    /// The site exchanges no bundles with the other, or the input isn't one from the other to it.
    #[error("bundle: {0:?}")]
    Bundle(WrongBundle),
    /// Out of memory.
    #[error("out of memory")]
    Memory,
}

/// Why no bundle is exchanged with a neighbour, or why an input isn't one from it to this site.
#[derive(Clone, Copy, PartialEq, Eq, Debug, Drop)]
pub enum WrongBundle {
    /// It doesn't begin with the first line of a bundle.
    NoBundle,
    /// It is from another site.
    OtherSender,
    /// It is for another site.
    OtherSite,
    /// The neighbour that the line names is this site.
    OwnSite,
    /// The site's bundles are sealed.
    Sealed,
}

impl From<AllocError> for RequestFault {
    ghost use Rattle.std.specs.Prelude.{◌≡◌};
    ghost use Rattle.uu_request.specs.declared.fault.RequestFault.TheVariants.{Memory};

    ghost from_gives = { λ _ fault. fault ≡ Memory };

    fn from(_error: AllocError) -> RequestFault {
        RequestFault::Memory
    }
}

impl<T: Drop> From<AllocFailed<T>> for RequestFault {
    ghost use Rattle.std.specs.Prelude.{◌≡◌};
    ghost use Rattle.uu_request.specs.declared.fault.RequestFault.TheVariants.{Memory};

    ghost from_gives = { λ _ fault. fault ≡ Memory };

    fn from(_error: AllocFailed<T>) -> RequestFault {
        RequestFault::Memory
    }
}
