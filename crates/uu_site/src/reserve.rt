//! The reserve: room on the disk that is kept for changes that only take away.

use crate::paths::Places;
use std::fs;
use std::fs::{File, OpenOptions};
use std::io::Write;
use std::os::unix::fs::OpenOptionsExt;

/// The blocks of a whole reserve, which has 4 MiB.
const BLOCKS: u64 = 64;

/// The bytes of a block. One is enough for a change that only takes away, and for its line in the log.
const BLOCK: usize = 65_536;

/// How large a reserve may become.
#[derive(Clone, Copy, Debug, PartialEq, Eq)]
pub enum Share {
    /// A whole one, or a quarter of the room if there is less: the room is everybody's.
    Quarter,
    /// As many blocks as it had, or what is left of them: it was the reserve's room before.
    Again(u64),
}

/// Gives up the reserve, so that its room is free. Returns how large the next one may become, or
/// `None` if there was none.
pub fn give_up_reserve(rt: &HostRuntime, places: &Places) -> Option<Share> {
    let path = places.reserve.as_str();
    let Ok(found) = fs::symlink_metadata(rt, path) else {
        return None;
    };
    if fs::remove_file(rt, path).is_err() {
        return None;
    }
    Some(Share::Again(found.len() / BLOCK as u64))
}

/// Makes the reserve if it is missing and there is room for one. How much room there is shows as it
/// is written. What can't be had is left out, because a line doesn't depend on it.
pub fn make_reserve(rt: &HostRuntime, places: &Places, share: Share) {
    let path = places.reserve.as_str();
    let made = OpenOptions::new()
        .write(true)
        .create_new(true)
        .mode(0o600)
        .open(rt, path);
    if let Ok(file) = made {
        if !is_kept(file, share) {
            let _ = fs::remove_file(rt, path);
        }
    }
}

// Writes a new reserve, and cuts it to its share. Returns whether enough is left.
fn is_kept(file: File, share: Share) -> bool {
    let mut file = file;
    let kept = match share {
        Share::Quarter => match blocks_written(&mut file, BLOCKS) {
            BLOCKS => BLOCKS,
            fewer => fewer / 4,
        },
        Share::Again(blocks) => blocks_written(&mut file, blocks.min(BLOCKS)),
    };
    kept > 0 && file.set_len(kept.saturating_mul(BLOCK as u64)).is_ok()
}

// How many of these blocks could be written.
fn blocks_written(file: &mut File, blocks: u64) -> u64 {
    let block = [0; BLOCK];
    for count in 0..blocks {
        if file.write_all(&block).is_err() {
            return count;
        }
    }
    blocks
}
