//! The folder of the spool.

use crate::fault::{Access, SiteFault};
use std::fs;
use std::fs::Metadata;
use std::os::unix::fs::MetadataExt;

/// The folder of this process in Linux's file system of processes, which belongs to its effective
/// user.
const PROCESS: &str = "/proc/self";

/// The bits of a mode by which a group and others may write.
const OTHERS_WRITE: u32 = 0o022;

/// Checks that the folder is this user's and that nobody else may write it, so that no file of
/// another user gets into it.
///
/// # Errors
/// `Read` if it or the user of this process can't be seen, `Owner` if it is another user's, `Shared`
/// if others may write it. `Memory`.
pub fn expect_own_folder(rt: &HostRuntime, folder: &str) -> Result<(), SiteFault> {
    let path = String::from_str(rt.alloc(), folder)?;
    let found = match fs::metadata(rt, folder) {
        Ok(found) => found,
        Err(error) => return Err(SiteFault::read(path, error)),
    };
    match access_of(&found, this_user(rt)?) {
        Some(Access::Owner { owner, user }) => Err(SiteFault::Owner { path, owner, user }),
        Some(Access::Shared) => Err(SiteFault::Shared { path }),
        None => Ok(()),
    }
}

/// Whether something that isn't a regular file is at a path. To open, to read or to write it might
/// never end.
pub(crate) fn is_other(rt: &HostRuntime, path: &str) -> bool {
    match fs::metadata(rt, path) {
        Ok(found) => !found.is_file(),
        Err(_) => false,
    }
}

/// The effective user of this process.
///
/// # Errors
/// `Read` if the file system of processes isn't there. `Memory`.
pub(crate) fn this_user(rt: &HostRuntime) -> Result<u32, SiteFault> {
    match fs::metadata(rt, PROCESS) {
        Ok(process) => Ok(process.uid()),
        Err(error) => Err(SiteFault::read(String::from_str(rt.alloc(), PROCESS)?, error)),
    }
}

/// Why what was found isn't this user's alone, if it isn't.
pub(crate) fn access_of(found: &Metadata, user: u32) -> Option<Access> {
    let owner = found.uid();
    if owner != user {
        Some(Access::Owner { owner, user })
    } else if found.mode() & OTHERS_WRITE != 0 {
        Some(Access::Shared)
    } else {
        None
    }
}
