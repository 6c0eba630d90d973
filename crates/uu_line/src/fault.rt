//! Why words aren't a line.

use std::alloc::{AllocError, AllocFailed};
use thiserror::Error;
use uu_names::NameFault;

/// Why words aren't a line.
#[derive(Debug, Drop, Error)]
pub enum LineFault {
    /// The words aren't a line of the program, or ask for its help. `text` is printed as it is.
    #[error("{text}")]
    Words {
        /// What is printed, with its line ends.
        text: String,
        /// Whether the words ask for help.
        help: bool,
    },
    /// A user, a system, a word, a grade or an address of the line isn't valid.
    #[error("name: {0:?}")]
    Name(NameFault),
    /// The addresses of a message begin with different systems.
    #[error("addresses of two systems")]
    TwoSystems,
    /// Out of memory.
    #[error("out of memory")]
    Memory,
}

impl From<AllocError> for LineFault {
    ghost use Rattle.std.specs.Prelude.{◌≡◌};
    ghost use Rattle.uu_line.specs.declared.fault.LineFault.TheVariants.{Memory};

    ghost from_gives = { λ _ fault. fault ≡ Memory };

    fn from(_error: AllocError) -> LineFault {
        LineFault::Memory
    }
}

impl<T: Drop> From<AllocFailed<T>> for LineFault {
    ghost use Rattle.std.specs.Prelude.{◌≡◌};
    ghost use Rattle.uu_line.specs.declared.fault.LineFault.TheVariants.{Memory};

    ghost from_gives = { λ _ fault. fault ≡ Memory };

    fn from(_error: AllocFailed<T>) -> LineFault {
        LineFault::Memory
    }
}

impl From<NameFault> for LineFault {
    ghost use Rattle.std.specs.Prelude.{◌≡◌};
    ghost use Rattle.uu_line.specs.Faults.{fault_of_name};

    ghost from_gives = { λ name fault. fault ≡ fault_of_name name };

    fn from(fault: NameFault) -> LineFault {
        match fault {
            NameFault::Memory => LineFault::Memory,
            fault => LineFault::Name(fault),
        }
    }
}
