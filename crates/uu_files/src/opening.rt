//! The two files of a spool, and the database in them.
ghost use Rattle.std.specs.Prelude.{◌≡◌, ◌≤◌, true, false, codes, None, Err, IsTrue, IfOk, IfErr, IfSome, IsErrAnd};
ghost use Rattle.sqlite.specs.Files.{file_state, FailsToOpenFiles, IsCleanLeft, IsOpened, LeavesFiles};
ghost use Rattle.sqlite.specs.Held.{IsNew};
ghost use Rattle.sqlite.specs.Start.{FindsIn};
ghost use Rattle.sqlite.specs.State.{HasCleanDisk};
ghost use Rattle.sqlite_std_file.specs.File.{IsFresh, file_is_usable};
ghost use Rattle.sqlite_wal.specs.Files.{image_at};
ghost use Rattle.sqlite_wal.specs.Recovery.{Image};
ghost use Rattle.uu_files.specs.Disk.{most_of};
ghost use Rattle.uu_files.specs.Room.{IsLimit};
ghost use Rattle.uu_files.specs.Settled.{AreSettled, pool_pages};
ghost use Rattle.uu_files.specs.Unopened.{IsWhyUnopened};

use crate::disk::SpoolDisk;
use crate::room::{PAGE, Room, most_beside};
use sqlite::{Connection, Error, ErrorCode, FileFrom, FileStore, Files, Leftover, Options, Start};
use sqlite_disk::Disk;
use sqlite_std_file::OpenError;
use std::alloc::Global;
use std::hash::{BuildHasher, RandomState};
use std::io::ErrorKind;

/// A file of a spool: it had the contents that `T` stands for, is synced only if it is dirty, and if
/// it is the log takes no page beyond the limit.
pub type SpoolFile<T> = SpoolDisk<FileFrom<T>>;

/// The pages of a pool beyond those of the files, for what is written.
const SPARE_PAGES: usize = 32;

const NO_MEMORY: Error = Error::SqliteFailure(ErrorCode::OutOfMemory);

const CANNOT_OPEN: Error = Error::SqliteFailure(ErrorCode::CannotOpen);

const UNREADABLE: Error = Error::SqliteFailure(ErrorCode::SystemIoFailure);

/// Opens the files at the path, or makes them, and the database in them. A new database has sums on
/// its pages. It does what `Connection::open_from` of `sqlite` does, but its files are synced only
/// if they are dirty, its log takes no page beyond the limit, and its pool is as large as they need
/// and the limit allows.
///
/// # Errors
/// With what is left of the files, if they were opened.
pub fn open_database<T: Start>(
    rt: &HostRuntime,
    path: &str,
    room: Room,
    start: T,
) -> Result<Connection<FileStore<SpoolFile<T>>>, (Error, Option<Leftover<SpoolFile<T>>>)>
    ensures fresh { IfOk result IsNew }
    ensures opened { IfOk result (λ c. HasCleanDisk (file_state c) → IsOpened c) }
    ensures found { IfOk result (λ c. HasCleanDisk (file_state c) → FindsIn (image_at T.Start) (file_state c)) }
    ensures unopened { IfErr result (λ e. e.1 ≡ None → IsWhyUnopened e.0) }
    ensures memory { path.now ≡ codes ":memory:" → IsErrAnd result (λ e. e.0 ≡ Error.SqliteFailure ErrorCode.CannotOpen) }
    ensures cause { IfErr result (λ e. IfSome e.1 (λ left. IsCleanLeft left
        → (files : _) × AreSettled ⟦<SpoolFile<T> as Disk>⟧ (image_at T.Start) files × FailsToOpenFiles files left e.0 × LeavesFiles files left)) }
{
    let seed = match RandomState::new(rt) {
        Ok(state) => state.hash_one(&0u8),
        Err(_) => return Err((CANNOT_OPEN, None)),
    };
    match open_pair(rt, path, room, start) {
        Ok(files) => match open_in(rt, seed, room, files) {
            Ok(conn) => Ok(conn),
            Err((error, left)) => Err((error, Some(left))),
        },
        Err(error) => Err((error, None)),
    }
}

// The files at the path, or new ones.
fn open_pair<T: Start>(
    rt: &HostRuntime,
    path: &str,
    room: Room,
    start: T,
) -> Result<Files<SpoolFile<T>>, Error>
    ensures memory { path.now ≡ codes ":memory:" → result ≡ Err (Error.SqliteFailure ErrorCode.CannotOpen) }
    ensures log { IfOk result (λ files. IsTrue (⟦<SpoolFile<T> as Disk>⟧.is_usable files.log)) }
    ensures db { IfOk result (λ files. IsTrue (⟦<SpoolFile<T> as Disk>⟧.is_usable files.db)) }
    ensures settled { IfOk result (AreSettled ⟦<SpoolFile<T> as Disk>⟧ (image_at T.Start)) }
    ensures limit { IfOk result (λ files. IsTrue (⟦<SpoolFile<T> as Disk>⟧.is_clean files.db) → IsLimit room (image_at T.Start).db (most_of files.log) × (most_of files.db ≡ None)) }
    ensures kind { IfErr result IsWhyUnopened }
{
    if path == ":memory:" || path.starts_with("file:") {
        return Err(CANNOT_OPEN);
    }
    match sqlite_std_file::open(rt, path, start) {
        Ok(files) => behind(files, room),
        Err(OpenError::OutOfMemory) => Err(NO_MEMORY),
        Err(OpenError::Busy) => Err(Error::SqliteFailure(ErrorCode::DatabaseBusy)),
        Err(OpenError::Io(error)) if error.kind() == ErrorKind::OutOfMemory => Err(NO_MEMORY),
        Err(_) => Err(CANNOT_OPEN),
    }
}

// Puts the disks of a spool before files that were just settled. If it can't be read how long the
// database file is, or of which size its pages are, nothing is opened.
fn behind<T: Start>(files: Files<FileFrom<T>>, room: Room) -> Result<Files<SpoolFile<T>>, Error>
    requires log { IsFresh true files.log }
    requires db { IsFresh false files.db }
    requires log_usable { IsTrue (file_is_usable T.Start files.log) }
    requires db_usable { IsTrue (file_is_usable T.Start files.db) }
    ensures log { IfOk result (λ new. IsTrue (⟦<SpoolFile<T> as Disk>⟧.is_usable new.log)) }
    ensures db { IfOk result (λ new. IsTrue (⟦<SpoolFile<T> as Disk>⟧.is_usable new.db)) }
    ensures settled { IfOk result (AreSettled ⟦<SpoolFile<T> as Disk>⟧ (image_at T.Start)) }
    ensures limit { IfOk result (λ new. IsTrue (⟦<SpoolFile<T> as Disk>⟧.is_clean new.db) → IsLimit room (image_at T.Start).db (most_of new.log) × (most_of new.db ≡ None)) }
    ensures kind { IfErr result (λ e. e ≡ Error.SqliteFailure ErrorCode.SystemIoFailure) }
{
    let mut files = files;
    let Ok(most) = most_beside(room, &mut files.db) else {
        return Err(UNREADABLE);
    };
    Ok(Files {
        log: SpoolDisk::synced(files.log, most),
        db: SpoolDisk::synced(files.db, None),
    })
}

// Opens the database in files, with a pool as large as they need and the limit allows.
fn open_in<D: Disk + Drop>(
    rt: &HostRuntime,
    seed: u64,
    room: Room,
    files: Files<D>,
) -> Result<Connection<FileStore<D>>, (Error, Leftover<D>)>
    requires log { IsTrue (D.Disk.is_usable files.log) }
    requires db { IsTrue (D.Disk.is_usable files.db) }
    ensures fresh { IfOk result IsNew }
    ensures opened { IfOk result (λ c. HasCleanDisk (file_state c) → IsOpened c) }
    ensures found { (image : Image) → AreSettled D.Disk image files → IfOk result (λ c. HasCleanDisk (file_state c) → FindsIn image (file_state c)) }
    ensures cause { (image : Image) → AreSettled D.Disk image files → IfErr result (λ e. IsCleanLeft e.1 → (files : _) × AreSettled D.Disk image files × FailsToOpenFiles files e.1 e.0 × LeavesFiles files e.1) }
{
    let mut files = files;
    let mut options = Options::new(seed);
    options.cache_pages = pool_for(rt.alloc(), room, &mut files);
    Connection::open_files_with(rt.alloc(), files, options, true)
}

// The pages of a pool for these files, for which there is memory. If a length can't be read, the
// pool is smaller than they need, which only costs time.
fn pool_for<D: Disk>(alloc: Global, room: Room, files: &mut Files<D>) -> usize
    requires log { IsTrue (D.Disk.is_usable files.old.log) }
    requires db { IsTrue (D.Disk.is_usable files.old.db) }
    ensures log { IsTrue (D.Disk.is_usable files.new.log) }
    ensures db { IsTrue (D.Disk.is_usable files.new.db) }
    ensures settled { (image : Image) → AreSettled D.Disk image files.old → AreSettled D.Disk image files.new }
{
    let log = files.log.len().unwrap_or(0);
    let db = files.db.len().unwrap_or(0);
    pages_in_memory(alloc, pool_pages(room.limit, log, db), db)
}

// The pages of a pool for a log and a database file of these lengths.
fn pool_pages(limit: usize, log: usize, db: usize) -> usize
    ensures { result ≡ pool_pages limit log db }
{
    (log / PAGE + db / PAGE).min(limit / PAGE) + SPARE_PAGES
}

// So many pages, or as many as there is memory for beside the rows of a database file of this
// length. An opening reads all of them.
fn pages_in_memory(alloc: Global, pages: usize, db: usize) -> usize
    ensures { result ≤ pages }
{
    let mut pages = pages;
    while pages > SPARE_PAGES && !is_there_memory(alloc, pages, db) {
        pages /= 2;
    }
    pages
}

// Whether memory for so many pages and as many bytes can be had now.
fn is_there_memory(alloc: Global, pages: usize, bytes: usize) -> bool {
    let size = pages.saturating_mul(PAGE).saturating_add(bytes);
    Vec::<u8>::with_capacity(alloc, size).is_ok()
}
