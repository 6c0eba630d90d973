//! Giving the place of the spool's database to a new file.

use crate::fault::SiteFault;
use crate::paths::Places;
use std::fs::{File, Metadata, OpenOptions, Permissions};
use std::os::unix::fs::{MetadataExt, OpenOptionsExt, PermissionsExt, fchown};
use std::{fs, io};

/// The bits of a mode that say who may do what.
const ACCESS: u32 = 0o777;

/// How many bytes the spool's two files have.
///
/// # Errors
/// `Read` if one of them can't be seen. `Memory`.
pub fn spool_length(rt: &HostRuntime, places: &Places) -> Result<u64, SiteFault> {
    let spool = length_of(rt, places.spool.as_str())?;
    let log = length_of(rt, places.wal.as_str())?;
    Ok(spool.saturating_add(log))
}

fn length_of(rt: &HostRuntime, path: &str) -> Result<u64, SiteFault> {
    match fs::metadata(rt, path) {
        Ok(found) => Ok(found.len()),
        Err(error) => Err(SiteFault::read(String::from_str(rt.alloc(), path)?, error)),
    }
}

/// Makes an empty file beside the spool's, with the same mode, group and owner. What was left there
/// goes first.
///
/// # Errors
/// `Read` if the spool's file can't be seen. `Write` if what is there can't be removed, or the new
/// file can't be made or given to the same user. `Memory`.
pub fn make_new(rt: &HostRuntime, places: &Places) -> Result<(), SiteFault> {
    remove_new(rt, places)?;
    let spool = match fs::metadata(rt, places.spool.as_str()) {
        Ok(found) => found,
        Err(error) => return Err(SiteFault::read(places.spool.clone()?, error)),
    };
    match make_like(rt, places.new.as_str(), &spool) {
        Ok(()) => Ok(()),
        Err(error) => {
            let fault = SiteFault::write(places.new.clone()?, error);
            let _ = remove_new(rt, places);
            Err(fault)
        }
    }
}

// Makes a file that nobody has, with the access of another one.
fn make_like(rt: &HostRuntime, path: &str, other: &Metadata) -> io::Result<()> {
    let file = OpenOptions::new()
        .read(true)
        .write(true)
        .create_new(true)
        .mode(0o600)
        .open(rt, path)?;
    let made = file.metadata()?;
    if made.gid() != other.gid() {
        fchown(&file, None, Some(other.gid()))?;
    }
    if made.uid() != other.uid() {
        fchown(&file, Some(other.uid()), None)?;
    }
    file.set_permissions(Permissions::from_mode(other.mode() & ACCESS))?;
    file.sync_all()
}

/// Removes the new file and its log, if they are there.
///
/// # Errors
/// `Write` if one of them can't be removed. `Memory`.
pub fn remove_new(rt: &HostRuntime, places: &Places) -> Result<(), SiteFault> {
    remove(rt, places.new.as_str())?;
    remove(rt, places.new_wal.as_str())
}

fn remove(rt: &HostRuntime, path: &str) -> Result<(), SiteFault> {
    match fs::remove_file(rt, path) {
        Ok(()) => Ok(()),
        Err(error) if error.kind() == io::ErrorKind::NotFound => Ok(()),
        Err(error) => Err(SiteFault::write(String::from_str(rt.alloc(), path)?, error)),
    }
}

/// Gives the place of the spool's database to the new file, whose log is no longer needed.
///
/// # Errors
/// `Write` if the files can't be renamed, or the disk doesn't say that they are. `Memory`.
pub fn put_new(rt: &HostRuntime, places: &Places) -> Result<(), SiteFault> {
    match rename_new(rt, places) {
        Ok(()) => {
            let _ = fs::remove_file(rt, places.new_wal.as_str());
            Ok(())
        }
        Err(error) => Err(SiteFault::write(places.spool.clone()?, error)),
    }
}

fn rename_new(rt: &HostRuntime, places: &Places) -> io::Result<()> {
    fs::rename(rt, places.new.as_str(), places.spool.as_str())?;
    File::open(rt, places.folder.as_str())?.sync_all()
}
