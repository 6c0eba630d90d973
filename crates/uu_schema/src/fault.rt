// Why the store gives no answer.
ghost use Rattle.std.specs.Prelude.{◌≡◌, ◌↔◌, IsTrue};
ghost use Rattle.uu_schema.specs.Steps.{IsIdle, UnchangedIf, CommitsNothing};
ghost use Rattle.uu_schema.specs.Faults.{IsFaultOfThisCall, NamesPartOf, NamesPartOfCommit, NamesPartUnlessMemory, fault_code, kind_of_error};
ghost use Rattle.uu_schema.specs.declared.fault.StoreFault.TheVariants.{Memory};
ghost use Rattle.uu_schema.specs.declared.fault.Halt.TheVariants.{Before};

use sqlite::{Alter, Connection, Error as SqlError, ErrorCode};
use std::alloc::{AllocError, AllocFailed};
use thiserror::Error;

/// Which part of the store failed.
#[derive(Clone, Copy, Debug, PartialEq, Eq)]
pub enum StoreKind {
    /// The disk failed or is full, or it returned other bytes than were written.
    Disk,
    /// A row or the file is too big.
    Size,
    /// Another process has the database open.
    Busy,
    /// Any other error of the database.
    Database,
}

/// Why the store gives no answer.
#[derive(Clone, Copy, Debug, PartialEq, Eq, Error)]
pub enum StoreFault {
    /// Out of memory. Nothing changed, and the spool can be used.
    #[error("out of memory")]
    Memory,
    /// The database failed. The request in hand, a command or a bundle, may be in the file, whole,
    /// or not. From then on every command, bundle, question and close answers `Failed`.
    #[error("the store failed")]
    Store(StoreKind),
    /// An earlier call answered `Store`. The file has to be reopened.
    #[error("the store failed before")]
    Failed,
    /// The database isn't that of a spool.
    #[error("not a spool")]
    Foreign,
    /// The database is that of a later version of this program.
    #[error("a spool of a later version")]
    Newer,
}

impl StoreFault {
    /// The fault's number, from 1 for `Memory` to 5 for `Newer`.
    pub fn code(&self) -> u8
        ensures { result ≡ fault_code self.now }
    {
        match self {
            StoreFault::Memory => 1,
            StoreFault::Store(_) => 2,
            StoreFault::Failed => 3,
            StoreFault::Foreign => 4,
            StoreFault::Newer => 5,
        }
    }
}

impl From<AllocError> for StoreFault {
    ghost from_gives = { λ _ fault. fault ≡ Memory };

    fn from(_refused: AllocError) -> StoreFault {
        StoreFault::Memory
    }
}

impl<T: Drop> From<AllocFailed<T>> for StoreFault {
    ghost from_gives = { λ _ fault. fault ≡ Memory };

    fn from(_refused: AllocFailed<T>) -> StoreFault {
        StoreFault::Memory
    }
}

/// Why a transaction stopped.
#[derive(Debug, Drop)]
pub enum Halt {
    /// A statement before the commit failed, or memory ran out. Nothing is committed.
    Before(SqlError),
    /// The commit itself failed, so nobody knows what is kept.
    Commit(SqlError),
}

impl From<SqlError> for Halt {
    ghost from_gives = { λ error halt. halt ≡ Before error };

    fn from(error: SqlError) -> Halt {
        Halt::Before(error)
    }
}

/// Whether the error is out of memory.
pub fn is_memory(error: &SqlError) -> bool
    ensures { IsTrue result ↔ (error.now ≡ SqlError.SqliteFailure ErrorCode.OutOfMemory) }
{
    matches!(error, SqlError::SqliteFailure(ErrorCode::OutOfMemory))
}

/// Whether the connection still answers. We send it a string that isn't SQL. A connection that
/// works rejects it by name without allocating, so the answer is right even if memory is short.
pub fn is_alive<S: Alter>(conn: &mut Connection<S>) -> bool
    requires { IsIdle conn.old }
    ensures idle { IsIdle conn.new }
    ensures alive { UnchangedIf S.Store (IsTrue result) conn.old conn.new }
    ensures survives { CommitsNothing S.Store conn.old conn.new }
{
    matches!(conn.prepare("alive"), Err(SqlError::SqlInputError(_)))
}

/// Which part of the store an error of the database is about.
pub fn kind_of(error: &SqlError) -> StoreKind
    ensures { result ≡ kind_of_error error.now }
{
    match error {
        SqlError::SqliteFailure(ErrorCode::SystemIoFailure)
        | SqlError::SqliteFailure(ErrorCode::DatabaseCorrupt)
        | SqlError::SqliteFailure(ErrorCode::DiskFull) => StoreKind::Disk,
        SqlError::SqliteFailure(ErrorCode::TooBig) => StoreKind::Size,
        SqlError::SqliteFailure(ErrorCode::DatabaseBusy) => StoreKind::Busy,
        _ => StoreKind::Database,
    }
}

/// What an error of the database means for the caller. It is `Memory` only if the connection still
/// answers.
pub fn store_fault<S: Alter>(conn: &mut Connection<S>, error: &SqlError) -> StoreFault
    requires { IsIdle conn.old }
    ensures idle { IsIdle conn.new }
    ensures fresh { IsFaultOfThisCall result }
    ensures kind { NamesPartOf error.now result }
    ensures other { NamesPartUnlessMemory error.now result }
    ensures memory { UnchangedIf S.Store (result ≡ Memory) conn.old conn.new }
    ensures survives { CommitsNothing S.Store conn.old conn.new }
{
    if is_memory(error) && is_alive(conn) {
        StoreFault::Memory
    } else {
        StoreFault::Store(kind_of(error))
    }
}

/// What a command that stopped means for the caller. A failed commit is never `Memory`, because
/// nobody knows what it left, and the database isn't asked any more then.
pub fn halt_fault<S: Alter>(conn: &mut Connection<S>, halt: &Halt) -> StoreFault
    requires { IsIdle conn.old }
    ensures idle { IsIdle conn.new }
    ensures fresh { IsFaultOfThisCall result }
    ensures commit { NamesPartOfCommit halt.now result }
    ensures memory { UnchangedIf S.Store (result ≡ Memory) conn.old conn.new }
    ensures survives { CommitsNothing S.Store conn.old conn.new }
{
    match halt {
        Halt::Before(error) => store_fault(conn, error),
        Halt::Commit(error) => StoreFault::Store(kind_of(error)),
    }
}
