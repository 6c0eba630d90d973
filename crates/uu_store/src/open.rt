// Opening the spool's files.
ghost use Rattle.std.specs.Prelude.{◌≡◌, ◌≢◌, false, codes, IfOk, IfErr, IsErrAnd};
ghost use Rattle.sqlite.specs.Files.{over_files};
ghost use Rattle.sqlite.specs.State.{HasCleanDisk};
ghost use Rattle.sqlite_wal.specs.Files.{image_at};
ghost use Rattle.sqlite_wal.specs.Recovery.{Image};
ghost use Rattle.uu_core.specs.State.{State};
ghost use Rattle.uu_schema.specs.Steps.{IsIdle};
ghost use Rattle.uu_schema.specs.declared.fault.StoreKind.TheVariants.{Database};
ghost use Rattle.uu_schema.specs.Encoded.{Leaves};
ghost use Rattle.uu_store.specs.Openings.{ImageHasUnversionedTables, ImageKeeps, IsFoundIfClean, IsRightFault, IsNotTaken, LeavesAlone, LeavesAsKept, LeavesSame, Started, remains_of};
ghost use Rattle.uu_store.specs.Spool.{disk, has_failed, Shows};
ghost use Rattle.uu_store.specs.Adopted.{IsAdoptedSpool};

use crate::adopt::AdoptFault;
use crate::remains::{OpenFault, open_files};
use crate::spool::Spool;
use sqlite::{Alter, Connection, FileStore, Start};
use sqlite_disk::Disk;
use std::alloc::Global;
use uu_files::{Room, SpoolFile};
use uu_schema::StoreFault;

/// A spool over a file.
pub type FileSpool<T> = Spool<FileStore<SpoolFile<T>>>;

/// Opens the file at the path, or makes it, and adopts the database in it. A new file gets sums on
/// its pages.
///
/// What the clauses say about the contents is about those that the files had when they were opened,
/// which `T` stands for. No clause ties them to the path.
///
/// # Errors
/// With what is left of the two files. While the disk returned what was written, a stop then leaves
/// files that keep what was kept (`left`). A database that was opened and has any of the spool's
/// tables stays what it was (`left_alone`). The exception is a store that failed while tables of an
/// earlier version were becoming those of version 4. Files that keep the state of a spool, or hold
/// nothing yet, are never `Foreign` or `Newer`.
///
/// Suppose that a database was opened. If it has exactly the tables of a version, it is `Newer`
/// only if a row names a later version. It is `Foreign` only if no row does and its rows are those
/// of no state. If one of the names is taken and no table says a version, it is `Foreign` (`named`).
pub fn open_spool<T: Start>(
    rt: &HostRuntime,
    path: &str,
    room: Room,
    start: T,
) -> Result<FileSpool<T>, OpenFault<SpoolFile<T>>>
    ensures usable { IfOk result (λ spool. has_failed spool ≡ false) }
    ensures never_failed { IfErr result (λ e. e.fault ≢ StoreFault.Failed) }
    ensures started { IfOk result (Started (image_at T.Start)) }

    // It shows the state that the files kept.
    ensures shows { IfOk result (λ spool. HasCleanDisk (disk spool) → (s : State) → ImageKeeps (image_at T.Start) s → Shows spool s) }

    // A stop at its end leaves only this state, in the tables of version 4.
    ensures alone { IfOk result (λ spool. HasCleanDisk (disk spool) → (s : State) → ImageKeeps (image_at T.Start) s → Leaves (disk spool) s) }

    // A database in which one of the names is taken and no table says a version is never taken.
    ensures never_other { IfOk result (λ spool. HasCleanDisk (disk spool) → ¬ ImageHasUnversionedTables (image_at T.Start)) }

    // A database with any of the spool's tables, except those of an earlier version, is left as it
    // was, with any other tables beside them.
    ensures left_same { IfOk result (λ spool. HasCleanDisk (disk spool) → LeavesSame (image_at T.Start) (disk spool).may_leave) }

    // What is left of files that were opened keeps what they kept, and the fault is right.
    ensures named { IfErr result (λ e. IsRightFault (image_at T.Start) e.fault (remains_of e)) }
    ensures left { IfErr result (λ e. LeavesAsKept (image_at T.Start) (remains_of e)) }
    ensures left_alone { IfErr result (λ e. LeavesAlone (image_at T.Start) e.fault (remains_of e)) }

    // The name of a database in memory isn't that of a file.
    ensures in_memory { path.now ≡ codes ":memory:" → IsErrAnd result (λ e. e.fault ≡ StoreFault.Store Database) }
{
    match open_files(rt, path, room, start) {
        Ok(conn) => adopted_in_files(rt.alloc(), conn),
        Err(failed) => Err(failed),
    }
}

// The spool in a database that was opened in files with any contents.
fn adopted_in_files<D: Disk + Drop>(
    alloc: Global,
    conn: Connection<FileStore<D>>,
) -> Result<Spool<FileStore<D>>, OpenFault<D>>
    requires { IsIdle conn }
    ensures usable { IfOk result (λ spool. has_failed spool ≡ false) }
    ensures never_failed { IfErr result (λ e. e.fault ≢ StoreFault.Failed) }
    ensures started { (before : Image) → IsFoundIfClean over_files before conn → IfOk result (Started before) }
    ensures shows { (before : Image) → IsFoundIfClean over_files before conn → IfOk result (λ spool. HasCleanDisk (disk spool) → (s : State) → ImageKeeps before s → Shows spool s) }
    ensures alone { (before : Image) → IsFoundIfClean over_files before conn → IfOk result (λ spool. HasCleanDisk (disk spool) → (s : State) → ImageKeeps before s → Leaves (disk spool) s) }
    ensures never_other { (before : Image) → IsFoundIfClean over_files before conn → IfOk result (λ spool. HasCleanDisk (disk spool) → ¬ ImageHasUnversionedTables before) }
    ensures left_same { (before : Image) → IsFoundIfClean over_files before conn → IfOk result (λ spool. HasCleanDisk (disk spool) → LeavesSame before (disk spool).may_leave) }
    ensures named { (before : Image) → IsFoundIfClean over_files before conn → IfErr result (λ e. IsRightFault before e.fault (remains_of e)) }
    ensures left { (before : Image) → IsFoundIfClean over_files before conn → IfErr result (λ e. LeavesAsKept before (remains_of e)) }
    ensures left_alone { (before : Image) → IsFoundIfClean over_files before conn → IfErr result (λ e. LeavesAlone before e.fault (remains_of e)) }
{
    match adopted(alloc, conn) {
        Ok(spool) => Ok(spool),
        Err((fault, store)) => Err(OpenFault::not_taken(fault, store)),
    }
}

// The spool in a database that was opened, or the store that was let go.
fn adopted<S: Alter + Drop>(alloc: Global, conn: Connection<S>) -> Result<Spool<S>, (StoreFault, S)>
    requires { IsIdle conn }
    ensures usable { IfOk result (λ spool. has_failed spool ≡ false) }
    ensures never_failed { IfErr result (λ e. e.0 ≢ StoreFault.Failed) }
    ensures adopted { IfOk result (IsAdoptedSpool conn) }
    ensures alone { IfOk result (λ spool. (s : State) → Shows spool s → Leaves (disk spool) s) }
    ensures away { IfErr result (λ e. IsNotTaken S.Store conn e.1 e.0) }
{
    match Spool::adopt(alloc, conn) {
        Ok(spool) => Ok(spool),
        Err(AdoptFault { fault, conn }) => Err((fault, conn.into_store())),
    }
}
