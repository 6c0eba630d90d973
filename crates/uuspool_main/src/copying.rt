//! Copying what the spool keeps into a new file, which may then take the place of the old one.
ghost use Rattle.std.specs.Prelude.{◌≡◌, ◌≢◌, false, IfOk, IfErr, IfSome, None};
ghost use Rattle.sqlite_wal.specs.Files.{image_at};
ghost use Rattle.sqlite_wal.specs.Recovery.{Image};
ghost use Rattle.uu_store.specs.Closing.{IsClosed};
ghost use Rattle.uu_store.specs.Openings.{IsRightFault, LeavesAlone, LeavesAsKept, Started, remains_of};
ghost use Rattle.uuspool_main.specs.Copying.{Closes, HasContents, HasCopied, HasLog, IsCopied, IsNeedless, Meets};
ghost use Rattle.uuspool_main.specs.Stretch.{ShowsKept};

use crate::stretch::{Rest, let_go};
use sqlite::{FileStore, Files, Start};
use sqlite_disk::Disk;
use std::alloc::Global;
use std::mem::drop;
use uu_renumber::laws::renumbered_spools_give_new_numbers;
use uu_store::laws::{calls_make_a_stretch, short_logs_count_as_none};
use uu_store::{
    Contents, OpenFault, Room, Spool, SpoolFile, StoreFault, has_short_log, open_spool,
};

/// The shortest files for which a copy is made.
const SHORTEST: u64 = 1_048_576;

/// How many times the room of their rows they have to take.
const TIMES: u64 = 4;

/// What a copy is made for.
#[derive(Clone, Copy, Drop)]
pub(crate) enum Purpose {
    /// Shorter files than these, which have so many bytes.
    Shrink { length: u64 },
    /// The next job gets this number, or a later one.
    Renumber { number: u32 },
}

/// How a copy ended.
#[derive(Drop)]
pub(crate) enum Copying<D: Disk, N: Disk> {
    /// The files of both were closed, and the database of the new ones may take the place of the old
    /// one.
    Whole { old: Files<D>, new: Files<N> },
    /// The files of both were closed, but the log of the old ones isn't short.
    Long { old: Files<D> },
    /// The spool was only read. A copy isn't needed.
    Needless { rest: Rest<D> },
    /// The spool was only read. Its database has something else, which a copy would lack.
    Shared { rest: Rest<D> },
    /// The spool was only read, and has this fault.
    Unread { fault: StoreFault, rest: Rest<D> },
    /// The spool was only read, and the new file has this fault.
    Unmade { fault: StoreFault, rest: Rest<D> },
}

/// Whether files of so many bytes may be longer than they have to be.
pub(crate) fn may_shrink(length: u64) -> bool {
    length >= SHORTEST
}

// Whether files of so many bytes are much longer than the rows in them need.
fn is_worth_it(length: u64, room: u64) -> bool {
    may_shrink(length) && length / TIMES >= room
}

/// Copies what the spool at the path keeps into the empty file at the place, for this purpose, if that
/// needs a copy and the spool's database has nothing else.
///
/// # Errors
/// Those of `open_spool`, of the spool at the path.
pub(crate) fn copy_on_file<T: Start, N: Start>(
    rt: &HostRuntime,
    path: &str,
    place: &str,
    purpose: Purpose,
    room: Room,
    start: T,
    blank: N,
) -> Result<Copying<SpoolFile<T>, SpoolFile<N>>, OpenFault<SpoolFile<T>>>
    // Nothing is assumed about a torn write.
    requires wary { T.Start.is_mixing ≡ false }
    requires wary_new { N.Start.is_mixing ≡ false }
    ensures copied { IfOk result (IsCopied ⟦<SpoolFile<N> as Disk>⟧ purpose (image_at T.Start) (image_at N.Start)) }
    ensures named { IfErr result (λ e. IsRightFault (image_at T.Start) e.fault (remains_of e)) }
    ensures never_failed { IfErr result (λ e. e.fault ≢ StoreFault.Failed) }
    ensures left { IfErr result (λ e. LeavesAsKept (image_at T.Start) (remains_of e)) }
    ensures left_alone { IfErr result (λ e. LeavesAlone (image_at T.Start) e.fault (remains_of e)) }
{
    match open_spool(rt, path, room, start) {
        Ok(spool) => Ok(copy_spool(rt, place, purpose, room, spool, blank)),
        Err(failed) => Err(failed),
    }
}

// Copies an opened spool, if its database has nothing else and the purpose needs a copy.
fn copy_spool<D: Disk + Drop, N: Start>(
    rt: &HostRuntime,
    place: &str,
    purpose: Purpose,
    room: Room,
    spool: Spool<FileStore<D>>,
    blank: N,
) -> Copying<D, SpoolFile<N>>
    ensures { (before : Image) → Started before spool → ShowsKept before spool → IsCopied ⟦<SpoolFile<N> as Disk>⟧ purpose before (image_at N.Start) result }
{
    calls_make_a_stretch::<D>();
    short_logs_count_as_none();
    let mut spool = spool;
    let is_alone = spool.is_alone();
    match spool.contents(rt.alloc()) {
        Ok(contents) if is_alone => match needed_for(purpose, contents) {
            Some(contents) => copy_contents(rt, place, room, &contents, spool, blank),
            None => Copying::Needless {
                rest: let_go(spool, true),
            },
        },
        Ok(_) => Copying::Shared {
            rest: let_go(spool, false),
        },
        Err(fault) => Copying::Unread {
            fault,
            rest: let_go(spool, false),
        },
    }
}

// What a copy of these contents gets for the purpose, or `None` if that needs no copy.
fn needed_for(purpose: Purpose, contents: Contents) -> Option<Contents>
    ensures needed { IfSome result (Meets purpose contents) }
    ensures needless { result ≡ None → IsNeedless purpose contents }
{
    renumbered_spools_give_new_numbers();
    match purpose {
        Purpose::Shrink { length } if is_worth_it(length, contents.room()) => Some(contents),
        Purpose::Renumber { number } if contents.next() < number => {
            let mut contents = contents;
            contents.renumber(number);
            Some(contents)
        }
        Purpose::Shrink { .. } | Purpose::Renumber { .. } => None,
    }
}

// Makes a copy with these contents in the new file, and closes both.
fn copy_contents<D: Disk + Drop, N: Start>(
    rt: &HostRuntime,
    place: &str,
    room: Room,
    contents: &Contents,
    spool: Spool<FileStore<D>>,
    blank: N,
) -> Copying<D, SpoolFile<N>>
    ensures { HasCopied ⟦<SpoolFile<N> as Disk>⟧ contents.now spool (image_at N.Start) result }
{
    match made_at(rt, place, room, contents, blank) {
        Ok(new) => close_old(spool, new),
        Err(fault) => Copying::Unmade {
            fault,
            rest: let_go(spool, false),
        },
    }
}

// The closed files of a new spool with these contents.
fn made_at<N: Start>(
    rt: &HostRuntime,
    place: &str,
    room: Room,
    contents: &Contents,
    blank: N,
) -> Result<Files<SpoolFile<N>>, StoreFault>
    ensures { IfOk result (HasContents ⟦<SpoolFile<N> as Disk>⟧ contents.now (image_at N.Start)) }
{
    match open_spool(rt, place, room, blank) {
        Ok(copy) => filled(rt.alloc(), contents, copy),
        Err(failed) => {
            let fault = failed.fault;
            drop(failed);
            Err(fault)
        }
    }
}

// The closed files of an empty spool, after it got these contents.
fn filled<N: Disk + Drop>(
    alloc: Global,
    contents: &Contents,
    copy: Spool<FileStore<N>>,
) -> Result<Files<N>, StoreFault>
    ensures { (blank : Image) → ShowsKept blank copy → IfOk result (HasContents N.Disk contents.now blank) }
{
    let mut copy = copy;
    match copy.fill(alloc, contents) {
        Ok(()) => closed(copy),
        Err(fault) => {
            drop(copy.into_store());
            Err(fault)
        }
    }
}

fn closed<N: Disk + Drop>(copy: Spool<FileStore<N>>) -> Result<Files<N>, StoreFault>
    ensures { IfOk result (IsClosed copy) }
{
    match copy.close() {
        Ok(files) => Ok(files),
        Err((fault, store)) => {
            drop(store);
            Err(fault)
        }
    }
}

// Closes the spool, whose log is short then.
fn close_old<D: Disk + Drop, N: Disk + Drop>(
    spool: Spool<FileStore<D>>,
    new: Files<N>,
) -> Copying<D, N>
    ensures { Closes spool new result }
{
    match spool.close() {
        Ok(old) => with_short_log(old, new),
        Err((fault, store)) => {
            drop(new);
            Copying::Unread {
                fault,
                rest: Rest::Unclosed(store),
            }
        }
    }
}

// Looks at the log of closed files.
fn with_short_log<D: Disk + Drop, N: Disk + Drop>(old: Files<D>, new: Files<N>) -> Copying<D, N>
    ensures { HasLog old new result }
{
    let mut old = old;
    if has_short_log(&mut old) {
        Copying::Whole { old, new }
    } else {
        drop(new);
        Copying::Long { old }
    }
}
