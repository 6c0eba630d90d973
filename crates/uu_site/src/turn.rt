//! The turn: one process at a time works over a spool.

ghost use Rattle.std.specs.Prelude.{◌≤◌};

use crate::fault::{Holder, SiteFault};
use std::fs::{File, OpenOptions, TryLockError};
use std::os::fd::AsRawFd;
use std::os::unix::fs::{FileExt, OpenOptionsExt};
use std::time::Duration;
use std::{env, fs, io, process, thread};

/// How many seconds a process waits for its turn.
pub const PATIENCE: u64 = 60;

/// The most seconds that the environment may ask for.
const MOST_PATIENCE: u64 = 86_400;

/// The variable of the environment with another number of seconds.
const VARIABLE: &str = "UUSPOOL_PATIENCE";

/// The longest pause between two tries, in milliseconds.
const LONGEST_PAUSE: u64 = 50;

/// The tries before the pauses are the longest.
const EARLY_TRIES: u64 = 8;

/// The turn, which ends when this value is dropped, or when the process ends in any way.
#[derive(Drop)]
pub struct Turn {
    file: File,
    left: u64,
}

impl Turn {
    /// How many tries were left when the turn came, at least one. A process whose turn it is may use
    /// them to wait for what else it needs, with [`pause`] after each.
    pub fn tries_left(&self) -> u64 {
        self.left
    }
}

/// Sleeps after a try of this number, from 0: 1, 2, 4 milliseconds and so on, up to 50.
pub fn pause(rt: &HostRuntime, attempt: u64) {
    thread::sleep(rt, pause_after(attempt));
}

/// The seconds that this process waits for its turn: `PATIENCE`, unless the environment says other
/// ones.
pub fn patience(rt: &HostRuntime) -> u64 {
    match env::var(rt, VARIABLE) {
        Ok(text) => match text.parse::<u64>() {
            Ok(seconds) => seconds.min(MOST_PATIENCE),
            Err(_) => PATIENCE,
        },
        Err(_) => PATIENCE,
    }
}

/// Takes the turn: locks the file at this path, which it makes if it is missing. It waits so many
/// seconds at most, and a little more on a busy system.
///
/// # Errors
/// `Turn` if another process had the lock all the time, with the number of that process. `Write` if
/// the file can't be opened or locked. `Memory`.
pub fn take_turn(rt: &HostRuntime, path: &str, seconds: u64) -> Result<Turn, SiteFault> {
    let file = open_lock(rt, path)?;
    let tries = tries_in(seconds);
    for attempt in 0..tries {
        match file.try_lock() {
            Ok(()) => {
                write_holder(rt, &file);
                return Ok(Turn {
                    file,
                    left: tries.saturating_sub(attempt),
                });
            }
            Err(TryLockError::WouldBlock) => pause(rt, attempt),
            Err(TryLockError::Error(error)) => {
                return Err(SiteFault::write(String::from_str(rt.alloc(), path)?, error));
            }
        }
    }
    Err(SiteFault::Turn {
        path: String::from_str(rt.alloc(), path)?,
        seconds,
        holder: holder_in(rt, path),
    })
}

// The file of the lock. Its content is the number of the process that had the last turn.
fn open_lock(rt: &HostRuntime, path: &str) -> Result<File, SiteFault> {
    let opened = OpenOptions::new()
        .read(true)
        .write(true)
        .create(true)
        .mode(0o600)
        .open(rt, path);
    match opened.and_then(above_streams) {
        Ok(file) => Ok(file),
        Err(error) => Err(SiteFault::write(String::from_str(rt.alloc(), path)?, error)),
    }
}

// The file, with another number than those of the standard streams: if one of these was closed, what
// is printed must not land in the file.
fn above_streams(file: File) -> io::Result<File> {
    if file.as_raw_fd() <= 2 {
        file.try_clone()
    } else {
        Ok(file)
    }
}

// So many tries take so many seconds, and at least one is made.
fn tries_in(seconds: u64) -> u64
    ensures { 1 ≤ result }
{
    if seconds == 0 {
        return 1;
    }
    seconds
        .saturating_mul(1_000 / LONGEST_PAUSE)
        .saturating_add(EARLY_TRIES)
}

// The pause after a try: 1, 2, 4 milliseconds and so on, up to the longest.
fn pause_after(attempt: u64) -> Duration {
    let pause = if attempt < 6 {
        1u64 << attempt
    } else {
        LONGEST_PAUSE
    };
    Duration::from_millis(pause.min(LONGEST_PAUSE))
}

// Writes the number of this process, over the last one. If it can't be written, only the message of
// a process that waits in vain is poorer.
fn write_holder(rt: &HostRuntime, file: &File) {
    let number = process::id(rt.process());
    if let Ok(text) = format!(in rt.alloc(); "{number:>10}\n") {
        let _ = file.write_at(text.as_bytes(), 0);
    }
}

// The number of the process that has the turn.
fn holder_in(rt: &HostRuntime, path: &str) -> Holder {
    match fs::read_to_string(rt, path) {
        Ok(text) => Holder(number_in(text.as_str())),
        Err(_) => Holder(None),
    }
}

fn number_in(text: &str) -> Option<u32> {
    text.trim().parse::<u32>().ok()
}
