//! Whether a spool is there.

use crate::fault::{Lack, SiteFault};
use crate::paths::Places;
use std::fs::{Metadata, OpenOptions};
use std::io::Read;
use std::os::unix::fs::{MetadataExt, OpenOptionsExt};
use std::{fs, io};

/// The shortest log that may have jobs: its head and a page.
const SHORTEST_LOG_OF_JOBS: u64 = 4_096;

/// What stands at the places of a spool.
#[derive(Clone, Copy, Debug, PartialEq, Eq)]
pub enum Found {
    /// No file, or one without a byte, which an `init` that was killed may leave.
    Nothing,
    /// A database.
    Spool,
}

/// Checks that the spool's two files are there, that each is a regular file with one name that this
/// user may write, and that SQLite left no journal.
///
/// # Errors
/// `Spool` if one of them isn't as it has to be. `Read` if it can't be seen, `Write` if it can't be
/// written. `Memory`.
pub fn expect_spool(rt: &HostRuntime, places: &Places) -> Result<(), SiteFault> {
    let found = expect_file(rt, places.spool.as_str())?;
    if found.len() == 0 {
        return lacks(rt, places.spool.as_str(), Lack::Empty);
    }
    expect_file(rt, places.wal.as_str())?;
    expect_no_journal(rt, places.journal.as_str())?;
    expect_writable(rt, places.spool.as_str())?;
    expect_writable(rt, places.wal.as_str())
}

/// What stands at the places of a spool that is to be made.
///
/// # Errors
/// `Spool` if it is neither a database nor nothing, or if a log with jobs stands there alone.
/// `Read` if it can't be seen. `Memory`.
pub fn find_spool(rt: &HostRuntime, places: &Places) -> Result<Found, SiteFault> {
    let length = match seen(rt, places.spool.as_str())? {
        Some(found) => checked(rt, places.spool.as_str(), &found)?,
        None => 0,
    };
    if length > 0 {
        return Ok(Found::Spool);
    }
    match seen(rt, places.wal.as_str())? {
        Some(found) if found.len() >= SHORTEST_LOG_OF_JOBS => {
            lacks(rt, places.wal.as_str(), Lack::Alone)
        }
        _ => Ok(Found::Nothing),
    }
}

/// Makes an empty file for the database of a new spool, which only this user may read. The log will
/// have the same mode.
///
/// # Errors
/// `Write` if it can't be made. `Memory`.
pub fn make_place(rt: &HostRuntime, places: &Places) -> Result<(), SiteFault> {
    let made = OpenOptions::new()
        .write(true)
        .create(true)
        .mode(0o600)
        .open(rt, places.spool.as_str());
    match made {
        Ok(_) => Ok(()),
        Err(error) => Err(SiteFault::write(places.spool.clone()?, error)),
    }
}

// What is at a path, without following a link; `None` if nothing is.
fn seen(rt: &HostRuntime, path: &str) -> Result<Option<Metadata>, SiteFault> {
    match fs::symlink_metadata(rt, path) {
        Ok(found) => Ok(Some(found)),
        Err(error) if error.kind() == io::ErrorKind::NotFound => Ok(None),
        Err(error) => Err(SiteFault::read(String::from_str(rt.alloc(), path)?, error)),
    }
}

// The regular file with one name at a path.
fn expect_file(rt: &HostRuntime, path: &str) -> Result<Metadata, SiteFault> {
    match seen(rt, path)? {
        Some(found) => {
            checked(rt, path, &found)?;
            Ok(found)
        }
        None => lacks(rt, path, Lack::Missing),
    }
}

// The length of what was found, if it is a regular file with one name.
fn checked(rt: &HostRuntime, path: &str, found: &Metadata) -> Result<u64, SiteFault> {
    match lack_of(found) {
        Some(lack) => lacks(rt, path, lack),
        None => Ok(found.len()),
    }
}

fn lack_of(found: &Metadata) -> Option<Lack> {
    if found.is_symlink() {
        Some(Lack::Link)
    } else if !found.is_file() {
        Some(Lack::Kind)
    } else if found.nlink() != 1 {
        Some(Lack::Names)
    } else {
        None
    }
}

// A journal that is missing, is empty or begins with a zero has nothing to play back.
fn expect_no_journal(rt: &HostRuntime, path: &str) -> Result<(), SiteFault> {
    match seen(rt, path)? {
        Some(found) if !found.is_file() || has_first_byte(rt, path) => {
            lacks(rt, path, Lack::Journal)
        }
        _ => Ok(()),
    }
}

// Whether the file begins with a byte that isn't zero, or can't be read.
fn has_first_byte(rt: &HostRuntime, path: &str) -> bool {
    let mut first = [0];
    match fs::open(rt, path) {
        Ok(file) => {
            let mut file = file;
            match file.read(&mut first) {
                Ok(count) => count == 1 && first[0] != 0,
                Err(_) => true,
            }
        }
        Err(_) => true,
    }
}

fn expect_writable(rt: &HostRuntime, path: &str) -> Result<(), SiteFault> {
    match OpenOptions::new().read(true).write(true).open(rt, path) {
        Ok(_) => Ok(()),
        Err(error) => Err(SiteFault::write(String::from_str(rt.alloc(), path)?, error)),
    }
}

fn lacks<T: Drop>(rt: &HostRuntime, path: &str, lack: Lack) -> Result<T, SiteFault> {
    Err(SiteFault::Spool {
        path: String::from_str(rt.alloc(), path)?,
        lack,
    })
}
