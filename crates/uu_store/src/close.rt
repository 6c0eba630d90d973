// Closing the files of a spool.
ghost use Rattle.std.specs.Prelude.{◌≡◌, ◌<◌, ℕ, List, length, true, false, IsTrue, IfOk, IfErr, MatchResult};
ghost use Rattle.sqlite_wal.specs.Reads.{AreClean};
ghost use Rattle.sqlite.specs.Files.{over_files};
ghost use Rattle.sqlite.specs.View.{IsClean};
ghost use Rattle.sqlite_store.specs.FileStore.{view};
ghost use Rattle.uu_schema.specs.declared.fault.StoreKind.{StoreKind};
ghost use Rattle.uu_store.specs.Closing.{HasCause, IsClosed};
ghost use Rattle.uu_store.specs.Spool.{connection_of, has_failed, IsFaultBetween};
ghost use Rattle.uu_store.specs.Stretches.{IsLetGo};

use crate::spool::Spool;
use sqlite::{FileStore, Files};
use sqlite_disk::Disk;
use uu_schema::{StoreFault, kind_of};

impl<D: Disk + Drop> Spool<FileStore<D>> {
    /// Copies the log into the database file, empties the log, and gives the two files back. With
    /// any answer, a stop at its end leaves nothing that it could not leave before. Once the files
    /// are closed they keep what the spool showed, and so does the database file alone.
    ///
    /// # Errors
    /// With the store as it was let go. `Failed` if the store failed before; then nothing is
    /// copied. Otherwise `Store`. On a clean disk its kind is `Disk` only if the disk failed or
    /// refused a call meanwhile, and never `Size`. If memory runs out, or the store was closed
    /// before, its kind is `Database`.
    pub fn close(self) -> Result<Files<D>, (StoreFault, FileStore<D>)>
        ensures closed { IfOk result (IsClosed self) }
        ensures let_go { IfErr result (λ e. IsLetGo over_files (connection_of self).store e.1) }
        ensures marked { MatchResult result (λ _. has_failed self ≡ false) (λ e. IsFaultBetween (has_failed self) true e.0) }
        ensures numbered { IsTrue (has_failed self) → IfErr result (λ e. IsClean (view e.1) → IsTrue (view e.1).is_numbered) }
        ensures cause { IfErr result (λ e. IsClean (view e.1) → (kind : StoreKind) → e.0 ≡ StoreFault.Store kind → HasCause kind (connection_of self).store e.1) }
    {
        match self.release_unless_failed() {
            Ok(conn) => match conn.close_files() {
                Ok(files) => Ok(files),
                Err((error, store)) => Err((StoreFault::Store(kind_of(&error)), store)),
            },
            Err(failed) => Err(failed),
        }
    }
}

/// The bytes of the shortest log that isn't passed over, with a head and that of a frame.
const SHORTEST_LOG: usize = 56;

/// Whether the log of these files is on the disk, and so short that it counts as none.
pub fn has_short_log<D: Disk>(files: &mut Files<D>) -> bool
    ensures short { IsTrue result → AreClean D.Disk files.new.log files.new.db → (log : List ℕ) → D.Disk.may_leave files.new.log log → length log < 56 }

    // Nothing is written.
    ensures database { files.new.db ≡ files.old.db }
    ensures log { (log : List ℕ) → D.Disk.may_leave files.new.log log → D.Disk.may_leave files.old.log log }
    ensures clean { AreClean D.Disk files.new.log files.new.db → AreClean D.Disk files.old.log files.old.db }
{
    if !files.log.may_be_used() || files.log.sync().is_err() {
        return false;
    }
    match files.log.len() {
        Ok(length) => length < SHORTEST_LOG,
        Err(_) => false,
    }
}
