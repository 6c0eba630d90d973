// A spool over the two files of a disk, one of which refuses every call from some call on. Like the
// program's files, they are synced only if they are dirty.
ghost use Rattle.std.specs.Prelude.{◌≡◌, false};

use crate::rows::rows_of;
use crate::visitors::expect_stopped;
use sqlite::{Alter, Connection, FileStore, Options, Row};
use sqlite_disk::{Crash, Disk, Files, Fuse, Memory};
use std::alloc::Global;
use std::process::Abort;
use uu_files::SpoolDisk;
use uu_store::{Spool, StoreFault};

/// Which file the fuse is on.
#[derive(Clone, Copy)]
pub(crate) enum Place {
    Log,
    Database,
}

/// A file answers so many calls, and refuses every later one.
#[derive(Clone, Copy)]
pub(crate) struct Stop {
    pub(crate) place: Place,
    pub(crate) calls: u64,
}

/// All pages stay in memory. A log of eight frames is copied into the database file before the next
/// transaction.
pub(crate) const SHORT_LOG: Options = Options {
    cache_pages: 2_000,
    spill_pages: 4,
    checkpoint_frames: 8,
    seed: 7,
};

/// All pages stay in memory, and the log is copied into the database file before each transaction.
pub(crate) const SHORTEST_LOG: Options = Options {
    cache_pages: 2_000,
    spill_pages: 2_000,
    checkpoint_frames: 1,
    seed: 7,
};

/// All pages stay in memory, and the log is never copied.
pub(crate) const LONG_LOG: Options = Options {
    cache_pages: 2_000,
    spill_pages: 2_000,
    checkpoint_frames: 10_000,
    seed: 7,
};

/// Eight pages stay in memory, so questions read the files.
pub(crate) const FEW_PAGES: Options = Options {
    cache_pages: 8,
    spill_pages: 4,
    checkpoint_frames: 8,
    seed: 7,
};

/// How the files are used, when one of them stops, and whether they are closed at the end or let
/// go.
#[derive(Clone, Copy)]
pub(crate) struct Use {
    pub(crate) options: Options,
    pub(crate) stop: Stop,
    pub(crate) closes: bool,
}

impl Use {
    /// The files are let go.
    pub(crate) fn stopped(options: Options, stop: Stop) -> Use {
        Use {
            options,
            stop,
            closes: false,
        }
    }

    /// The same, and every call is answered.
    pub(crate) fn unstopped(options: Options) -> Use {
        let stop = Stop {
            place: Place::Log,
            calls: u64::MAX,
        };
        Use::stopped(options, stop)
    }
}

/// What the two files hold.
#[derive(Drop)]
pub(crate) struct Contents {
    log: Vec<u8>,
    db: Vec<u8>,
}

impl Contents {
    pub(crate) fn has_same_database(&self, other: &Contents) -> bool {
        self.db.as_slice() == other.db.as_slice()
    }

    pub(crate) fn is_same(&self, other: &Contents) -> bool {
        self.log.as_slice() == other.log.as_slice() && self.has_same_database(other)
    }

    /// The database file without a log.
    pub(crate) fn database_alone(self, alloc: Global) -> Contents {
        Contents {
            log: Vec::new(alloc),
            db: self.db,
        }
    }
}

/// Files that don't exist yet.
pub(crate) fn nothing(alloc: Global) -> Contents {
    Contents {
        log: Vec::new(alloc),
        db: Vec::new(alloc),
    }
}

/// How a visit ended.
#[derive(Clone, Copy)]
pub(crate) enum End {
    /// The files weren't taken as a spool.
    Untaken,
    LetGo,
    Closed,
    /// The files weren't closed.
    Refused(StoreFault),
}

/// What a visit leaves: what was synced, which every crash leaves, and all that was written, which
/// a crash may leave.
#[derive(Drop)]
pub(crate) struct Visit {
    pub(crate) end: End,
    pub(crate) synced: Contents,
    pub(crate) written: Contents,
}

impl Visit {
    /// Whether the files were taken as a spool, and it was visited.
    pub(crate) fn is_taken(&self) -> bool {
        !matches!(self.end, End::Untaken)
    }
}

/// What is done with a spool while its files are open.
pub(crate) trait Visitor {
    fn visit<R: Abort, S: Alter>(&mut self, rt: &R, alloc: Global, spool: &mut Spool<S>);
}

/// Opens files with these contents, takes them as a spool, lets it be visited, and closes it or
/// lets it go.
pub(crate) fn visit_files<R: Abort, V: Visitor>(
    rt: &R,
    alloc: Global,
    contents: &Contents,
    used: Use,
    visitor: &mut V,
) -> Visit {
    let files = fused_files(rt, alloc, contents, used.stop);
    let (files, end) = visited(rt, alloc, files, used, visitor);
    visit_of(rt, alloc, end, files)
}

/// The contents of files after these statements changed their database, and the rows of the answer
/// to a question after them. Nothing is taken as a spool.
pub(crate) fn change_files(
    rt: &impl Abort,
    alloc: Global,
    contents: &Contents,
    statements: &[&'static str],
    question: &'static str,
) -> (Contents, Vec<Row>) {
    let files = fused_files(rt, alloc, contents, Use::unstopped(LONG_LOG).stop);
    let (files, rows) = changed(rt, alloc, files, statements, question);
    (contents_of(rt, alloc, &files), rows)
}

/// The files after the statements, and the rows of the answer.
fn changed<D: Disk + Drop>(
    rt: &impl Abort,
    alloc: Global,
    files: Files<D>,
    statements: &[&'static str],
    question: &'static str,
) -> (Files<D>, Vec<Row>) {
    assert!(rt; files.may_be_used(), "a sync of these files has failed");
    match Connection::open_files(alloc, files, LONG_LOG) {
        Ok(conn) => {
            let (store, rows) = changed_in(rt, conn, statements, question);
            (store.close(), rows)
        }
        Err(_) => panic!(rt; "the files are not opened"),
    }
}

/// The same for a database over any store.
fn changed_in<S: Alter + Drop>(
    rt: &impl Abort,
    conn: Connection<S>,
    statements: &[&'static str],
    question: &'static str,
) -> (S, Vec<Row>) {
    let mut conn = conn;
    for statement in statements {
        let _rows = conn.execute(statement, &[]).expect(rt, statement);
    }
    let rows = rows_of(rt, &mut conn, question);
    (conn.into_store(), rows)
}

type FusedFiles = Files<SpoolDisk<Fuse<Memory>>>;

fn fused_files(rt: &impl Abort, alloc: Global, contents: &Contents, stop: Stop) -> FusedFiles {
    let (log, db) = match stop.place {
        Place::Log => (stop.calls, u64::MAX),
        Place::Database => (u64::MAX, stop.calls),
    };
    Files {
        log: SpoolDisk::new(Fuse::new(synced_file(rt, alloc, &contents.log), log)),
        db: SpoolDisk::new(Fuse::new(synced_file(rt, alloc, &contents.db), db)),
    }
}

fn synced_file(rt: &impl Abort, alloc: Global, bytes: &[u8]) -> Memory {
    let mut file = Memory::new(alloc);
    assert!(rt; file.write_at(0, bytes).is_ok(), "memory");
    assert!(rt; file.sync().is_ok(), "memory");
    file
}

fn visit_of(rt: &impl Abort, alloc: Global, end: End, files: FusedFiles) -> Visit {
    let written = contents_of(rt, alloc, &files);
    let mut files = files;
    files.log.crash();
    files.db.crash();
    Visit {
        end,
        synced: contents_of(rt, alloc, &files),
        written,
    }
}

fn contents_of(rt: &impl Abort, alloc: Global, files: &FusedFiles) -> Contents {
    Contents {
        log: files
            .log
            .inner()
            .inner()
            .bytes()
            .to_vec(alloc)
            .expect(rt, "memory"),
        db: files
            .db
            .inner()
            .inner()
            .bytes()
            .to_vec(alloc)
            .expect(rt, "memory"),
    }
}

/// The files after a visit, and how it ended.
fn visited<R: Abort, D: Disk + Drop, V: Visitor>(
    rt: &R,
    alloc: Global,
    files: Files<D>,
    used: Use,
    visitor: &mut V,
) -> (Files<D>, End) {
    assert!(rt; files.may_be_used(), "a sync of these files has failed");
    match Connection::open_files(alloc, files, used.options) {
        Ok(conn) => ended(visited_in(rt, alloc, conn, used.closes, visitor)),
        Err((_, left)) => (left.into_files(), End::Untaken),
    }
}

/// A database after a visit: not taken as a spool, let go, or still open.
enum Left<S: Alter> {
    Untaken(S),
    LetGo(S),
    Open(Spool<S>),
}

/// Lets the spool in a database be visited, and lets it go if its files aren't to be closed.
fn visited_in<R: Abort, S: Alter + Drop, V: Visitor>(
    rt: &R,
    alloc: Global,
    conn: Connection<S>,
    closes: bool,
    visitor: &mut V,
) -> Left<S>
    requires { conn.in_transaction ≡ false }
{
    match Spool::adopt(alloc, conn) {
        Ok(mut spool) => {
            visitor.visit(rt, alloc, &mut spool);
            left_open(spool, closes)
        }
        Err(refused) => {
            expect_stopped(rt, refused.fault);
            Left::Untaken(refused.conn.into_store())
        }
    }
}

/// A spool after its visit. It stays open if its files are to be closed.
fn left_open<S: Alter + Drop>(spool: Spool<S>, closes: bool) -> Left<S> {
    if closes {
        Left::Open(spool)
    } else {
        Left::LetGo(spool.release().into_store())
    }
}

/// The files. They are closed if the spool is open.
fn ended<D: Disk + Drop>(left: Left<FileStore<D>>) -> (Files<D>, End) {
    match left {
        Left::Untaken(store) => (store.close(), End::Untaken),
        Left::LetGo(store) => (store.close(), End::LetGo),
        Left::Open(spool) => closed(spool),
    }
}

/// The files of a spool after their close.
fn closed<D: Disk + Drop>(spool: Spool<FileStore<D>>) -> (Files<D>, End) {
    match spool.close() {
        Ok(files) => (files, End::Closed),
        Err((fault, store)) => (store.close(), End::Refused(fault)),
    }
}
