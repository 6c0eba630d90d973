//! Why the keys of a file can't be used.

use std::alloc::{AllocError, AllocFailed};
use std::io;
use thiserror::Error;
use uu_seal::KeyFault;

/// Why the keys of a file can't be used. Its text is that of its line on standard error, without
/// the program's name.
#[derive(Debug, Drop, Error)]
pub enum KeyFileFault {
    /// Out of memory.
    #[error("out of memory")]
    Memory,
    /// The file can't be read.
    #[error("cannot read {path}: {error}")]
    Read {
        path: String,
        error: io::Error,
    },
    /// The file of a neighbour can't be read.
    #[error("cannot read {path}: {error}: it has the keys of {neighbour}, and uuspool-setup {neighbour} seal makes it")]
    Neighbour {
        path: String,
        neighbour: String,
        error: io::Error,
    },
    /// It is a folder, a pipe or a device.
    #[error("{path} is not a regular file")]
    Kind {
        path: String,
    },
    /// Others than its owner may read or write the file.
    #[error("{path} may be read or written by others: chmod 600 {path}")]
    Exposed {
        path: String,
    },
    /// The text of the file isn't one of keys.
    #[error("{path}: {fault}: each line has to be a key of 64 hex digits")]
    Keys {
        path: String,
        fault: KeyFault,
    },
}

impl From<AllocError> for KeyFileFault {
    ghost use Rattle.std.specs.Prelude.{◌≡◌};
    ghost use Rattle.uu_keys.specs.declared.fault.KeyFileFault.TheVariants.{Memory};

    ghost from_gives = { λ _ fault. fault ≡ Memory };

    fn from(_error: AllocError) -> KeyFileFault {
        KeyFileFault::Memory
    }
}

impl<T: Drop> From<AllocFailed<T>> for KeyFileFault {
    ghost use Rattle.std.specs.Prelude.{◌≡◌};
    ghost use Rattle.uu_keys.specs.declared.fault.KeyFileFault.TheVariants.{Memory};

    ghost from_gives = { λ _ fault. fault ≡ Memory };

    fn from(_error: AllocFailed<T>) -> KeyFileFault {
        KeyFileFault::Memory
    }
}
