//! Giving the spool a new file, with a copy of what it keeps.

use crate::copying::{Copying, Purpose, copy_on_file};
use crate::serving::{is_busy, store_trouble};
use crate::trouble::Trouble;
use sqlite::Wary;
use sqlite_disk::Disk;
use std::mem::drop;
use uu_site::{Places, Turn, make_new, pause, put_new, remove_new};
use uu_store::{Room, StoreFault, StoreKind};
use uuspool::Settings;

/// Whether the spool has a new file.
#[derive(Clone, Copy, Drop)]
pub(crate) enum Replaced {
    /// It has.
    Yes,
    /// The purpose needs none.
    Needless,
    /// Its database has something else, which a copy would lack.
    Shared,
}

/// Copies the spool for this purpose, and gives the copy its place. What is left of a new file goes,
/// with any end.
pub(crate) fn replace(
    rt: &HostRuntime,
    settings: &Settings,
    places: &Places,
    turn: &Turn,
    purpose: Purpose,
) -> Result<Replaced, Trouble> {
    make_new(rt, places)?;
    let ended = replace_in_turn(rt, settings, places, turn, purpose);
    if !matches!(ended, Ok(Replaced::Yes)) {
        let _ = remove_new(rt, places);
    }
    ended
}

// Copies the spool into the new file, and gives that its place. While another program has the
// database open, it tries again, as long as the line may wait for its turn. The old files stay
// locked until the end.
fn replace_in_turn(
    rt: &HostRuntime,
    settings: &Settings,
    places: &Places,
    turn: &Turn,
    purpose: Purpose,
) -> Result<Replaced, Trouble> {
    for attempt in 0..turn.tries_left() {
        let path = settings.spool.as_str();
        let room = Room {
            limit: settings.limit,
            counts: false,
        };
        match copy_on_file(rt, path, places.new.as_str(), purpose, room, Wary, Wary) {
            Ok(copying) => return put_copy(rt, places, copying),
            Err(failed) => {
                let fault = failed.fault;
                drop(failed);
                if !is_busy(fault) {
                    return store_trouble(rt, places, fault);
                }
                pause(rt, attempt);
            }
        }
    }
    store_trouble(rt, places, StoreFault::Store(StoreKind::Busy))
}

// Gives a whole copy the place of the spool's file, and says why there is none.
fn put_copy<D: Disk + Drop, N: Disk + Drop>(
    rt: &HostRuntime,
    places: &Places,
    copying: Copying<D, N>,
) -> Result<Replaced, Trouble> {
    match copying {
        Copying::Whole { old, new } => {
            put_new(rt, places)?;
            drop(old);
            drop(new);
            Ok(Replaced::Yes)
        }
        Copying::Long { old } => {
            drop(old);
            store_trouble(rt, places, StoreFault::Store(StoreKind::Disk))
        }
        Copying::Needless { rest } => {
            drop(rest);
            Ok(Replaced::Needless)
        }
        Copying::Shared { rest } => {
            drop(rest);
            Ok(Replaced::Shared)
        }
        Copying::Unread { fault, rest } => {
            drop(rest);
            store_trouble(rt, places, fault)
        }
        Copying::Unmade { fault, rest } => {
            drop(rest);
            Err(Trouble::Store {
                fault,
                path: places.new.clone()?,
            })
        }
    }
}
