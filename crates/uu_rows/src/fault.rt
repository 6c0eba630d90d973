// Why a row isn't read.
ghost use Rattle.std.specs.Prelude.{◌≡◌, ◌≢◌};
ghost use Rattle.sqlite.specs.declared.error.Error.TheVariants.{SqliteFailure};
ghost use Rattle.sqlite.specs.declared.error.ErrorCode.TheVariants.{OutOfMemory};
ghost use Rattle.uu_rows.specs.declared.fault.RowFault.TheVariants.{Memory};
ghost use Rattle.uu_rows.specs.Faults.{error_of, or_error, or_none};

use sqlite::{Error, ErrorCode};
use std::alloc::{AllocError, AllocFailed};
use uu_names::NameFault;
use uu_schema::is_memory;
use uu_times::TimeFault;

/// Why a row isn't read.
#[derive(Clone, Copy, Debug, PartialEq, Eq)]
pub enum RowFault {
    /// Out of memory.
    Memory,
    /// The tables allow the row, but the format doesn't.
    Bad,
}

impl RowFault {
    /// The same as an error of the database: out of memory as out of memory, and a bad row as a row
    /// that isn't there.
    pub fn as_error(self) -> Error
        ensures { result ≡ error_of self }
    {
        match self {
            RowFault::Memory => Error::SqliteFailure(ErrorCode::OutOfMemory),
            RowFault::Bad => Error::QueryReturnedNoRows,
        }
    }
}

impl From<AllocError> for RowFault {
    ghost from_gives = { λ _ fault. fault ≡ Memory };

    fn from(_refused: AllocError) -> RowFault {
        RowFault::Memory
    }
}

impl<T: Drop> From<AllocFailed<T>> for RowFault {
    ghost from_gives = { λ _ fault. fault ≡ Memory };

    fn from(_refused: AllocFailed<T>) -> RowFault {
        RowFault::Memory
    }
}

/// What was read, or its fault as an error of the database.
pub fn or_error<T>(read: Result<T, RowFault>) -> Result<T, Error>
    ensures { result ≡ or_error read }
{
    match read {
        Ok(typed) => Ok(typed),
        Err(fault) => Err(fault.as_error()),
    }
}

/// What was read, or `None` if a row is bad. Out of memory stays an error.
pub fn or_none<T>(read: Result<T, RowFault>) -> Result<Option<T>, Error>
    ensures { result ≡ or_none read }
{
    match read {
        Ok(typed) => Ok(Some(typed)),
        Err(RowFault::Bad) => Ok(None),
        Err(RowFault::Memory) => Err(RowFault::Memory.as_error()),
    }
}

/// Why a column isn't read, from the error of the database.
pub fn read_fault(error: &Error) -> RowFault
    ensures memory { result ≡ RowFault.Memory → error.now ≡ SqliteFailure OutOfMemory }
    ensures bad { result ≡ RowFault.Bad → error.now ≢ SqliteFailure OutOfMemory }
{
    if is_memory(error) {
        RowFault::Memory
    } else {
        RowFault::Bad
    }
}

pub(crate) fn name_fault(fault: NameFault) -> RowFault
    ensures memory { result ≡ RowFault.Memory → fault ≡ NameFault.Memory }
    ensures bad { result ≡ RowFault.Bad → fault ≢ NameFault.Memory }
{
    match fault {
        NameFault::Memory => RowFault::Memory,
        _ => RowFault::Bad,
    }
}

pub(crate) fn time_fault(fault: TimeFault) -> RowFault
    ensures memory { result ≡ RowFault.Memory → fault ≡ TimeFault.Memory }
    ensures bad { result ≡ RowFault.Bad → fault ≢ TimeFault.Memory }
{
    match fault {
        TimeFault::Memory => RowFault::Memory,
        _ => RowFault::Bad,
    }
}
