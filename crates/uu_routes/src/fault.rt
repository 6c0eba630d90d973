// Why no routes are made.
ghost use Rattle.std.specs.Prelude.{◌≡◌};
ghost use Rattle.uu_routes.specs.declared.fault.RouteFault.TheVariants.{Memory};

use std::alloc::{AllocError, AllocFailed};
use thiserror::Error;

/// Why no routes are made.
#[derive(Clone, Copy, Debug, PartialEq, Eq, Error)]
pub enum RouteFault {
    /// A link costs more than 1,000,000,000,000.
    #[error("too costly")]
    TooCostly,
    /// Out of memory. Any call may give it instead of another answer.
    #[error("out of memory")]
    Memory,
}

impl From<AllocError> for RouteFault {
    ghost from_gives = { λ _ fault. fault ≡ Memory };

    fn from(_refused: AllocError) -> RouteFault {
        RouteFault::Memory
    }
}
