//! The log of a site: lines for each change that was asked for.

use crate::fault::SiteFault;
use crate::folder::is_other;
use std::fs::{File, OpenOptions};
use std::io;
use std::io::Write;
use std::os::unix::fs::{FileExt, OpenOptionsExt};

/// Appends lines to the log at this path, which is made if it is missing. If a full disk left a
/// part of a line at its end, an end of line comes between, so each of these is a line by itself.
///
/// # Errors
/// `UnwrittenKind` if it isn't a regular file, `Write` if they can't be written. `Memory`.
pub fn append_log(rt: &HostRuntime, path: &str, lines: &[u8]) -> Result<(), SiteFault> {
    if is_other(rt, path) {
        return Err(SiteFault::UnwrittenKind {
            path: String::from_str(rt.alloc(), path)?,
        });
    }
    match append(rt, path, lines) {
        Ok(()) => Ok(()),
        Err(error) => Err(SiteFault::write(String::from_str(rt.alloc(), path)?, error)),
    }
}

fn append(rt: &HostRuntime, path: &str, lines: &[u8]) -> io::Result<()> {
    let mut log = OpenOptions::new()
        .read(true)
        .append(true)
        .create(true)
        .mode(0o600)
        .open(rt, path)?;
    if ends_within_a_line(&log) {
        log.write_all(b"\n")?;
    }
    log.write_all(lines)
}

// Whether the last line of a file has no end. If nobody can read that, it counts as whole.
fn ends_within_a_line(file: &File) -> bool {
    let mut last = [b'\n'];
    let Ok(found) = file.metadata() else {
        return false;
    };
    if found.len() > 0 {
        let _ = file.read_at(&mut last, found.len() - 1);
    }
    last != [b'\n']
}
