// What is left of the files of a spool that wasn't opened.
ghost use Rattle.std.specs.Prelude.{◌≡◌, ◌≢◌, codes, IfOk, IfErr, IsErrAnd};
ghost use Rattle.sqlite.specs.Files.{over_files};
ghost use Rattle.sqlite.specs.declared.error.Error.TheVariants.{SqliteFailure};
ghost use Rattle.sqlite.specs.declared.error.ErrorCode.TheVariants.{OutOfMemory};
ghost use Rattle.sqlite_wal.specs.Files.{image_at};
ghost use Rattle.uu_schema.specs.Faults.{kind_of_error};
ghost use Rattle.uu_schema.specs.Steps.{IsIdle};
ghost use Rattle.uu_schema.specs.declared.fault.StoreKind.TheVariants.{Database};
ghost use Rattle.uu_store.specs.Openings.{IsFoundIfClean, IsRightFault, IsOfNoContents, LeavesAlone, LeavesAsKept, remains_of, remains_of_opening};

use sqlite::{Connection, Error, FileStore, Leftover, Start};
use sqlite_disk::Disk;
use uu_files::{Room, SpoolFile, open_database};
use uu_schema::{StoreFault, is_memory, kind_of};

/// What is left of the two files of a spool that wasn't opened.
#[derive(Drop)]
pub enum Remains<D: Disk> {
    /// The files weren't opened.
    Unopened,
    /// The files, if no database was opened in them.
    Files(Leftover<D>),
    /// The store of a database that was opened and not taken as a spool.
    Store(FileStore<D>),
}

impl<D: Disk> Remains<D> {
    // What an opening that failed left of the files, if it opened them.
    fn of_opening(left: Option<Leftover<D>>) -> Remains<D>
        ensures { result ≡ remains_of_opening left }
    {
        match left {
            Some(left) => Remains::Files(left),
            None => Remains::Unopened,
        }
    }
}

/// Why no spool was opened, and what is left of its files.
///
/// Only the opening of the files can say that they weren't opened, because no other code can make
/// such a fault. An opening takes the value that stands for the contents, so no code opens the same
/// contents twice.
#[derive(Drop)]
pub struct OpenFault<D: Disk> {
    /// Why it wasn't opened.
    pub fault: StoreFault,
    remains: Remains<D>,
}

impl<D: Disk> OpenFault<D> {
    /// A database was opened and not taken as a spool, and its store was let go.
    pub(crate) fn not_taken(fault: StoreFault, store: FileStore<D>) -> OpenFault<D>
        ensures fault { result.fault ≡ fault }
        ensures remains { remains_of result ≡ Remains.Store store }
    {
        OpenFault {
            fault,
            remains: Remains::Store(store),
        }
    }
}

// Why no database was opened.
fn opening_fault(error: &Error) -> StoreFault
    ensures named { (result ≢ StoreFault.Failed) × IsOfNoContents result }
    ensures kind { (kind : _) → result ≡ StoreFault.Store kind → kind ≡ kind_of_error error.now }
    ensures memory { error.now ≡ SqliteFailure OutOfMemory → result ≡ StoreFault.Memory }
    ensures other { error.now ≢ SqliteFailure OutOfMemory → result ≡ StoreFault.Store (kind_of_error error.now) }
{
    if is_memory(error) {
        StoreFault::Memory
    } else {
        StoreFault::Store(kind_of(error))
    }
}

/// Opens the files at the path, or makes them, and the database in them.
pub(crate) fn open_files<T: Start>(
    rt: &HostRuntime,
    path: &str,
    room: Room,
    start: T,
) -> Result<Connection<FileStore<SpoolFile<T>>>, OpenFault<SpoolFile<T>>>
    ensures idle { IfOk result IsIdle }
    ensures found { IfOk result (IsFoundIfClean over_files (image_at T.Start)) }
    ensures never_failed { IfErr result (λ e. e.fault ≢ StoreFault.Failed) }
    ensures named { IfErr result (λ e. IsRightFault (image_at T.Start) e.fault (remains_of e)) }
    ensures left { IfErr result (λ e. LeavesAsKept (image_at T.Start) (remains_of e)) }
    ensures left_alone { IfErr result (λ e. LeavesAlone (image_at T.Start) e.fault (remains_of e)) }

    // The name of a database in memory isn't that of a file.
    ensures in_memory { path.now ≡ codes ":memory:" → IsErrAnd result (λ e. e.fault ≡ StoreFault.Store Database) }
{
    match open_database(rt, path, room, start) {
        Ok(conn) => Ok(conn),
        Err((error, left)) => Err(OpenFault {
            fault: opening_fault(&error),
            remains: Remains::of_opening(left),
        }),
    }
}
