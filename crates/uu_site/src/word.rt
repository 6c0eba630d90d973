//! The word of a spool, which names it in bundles. It stays the same if its files are moved.

use crate::fault::SiteFault;
use crate::folder::is_other;
use crate::paths::Places;
use std::fs::{File, OpenOptions};
use std::io::{Read, Write};
use std::os::unix::fs::OpenOptionsExt;
use std::{fs, io};
use uu_names::{NameFault, Word};

/// Where random bytes come from.
const RANDOM: &str = "/dev/urandom";

/// The random bytes of a word.
const WORD_BYTES: usize = 8;

/// The word of the spool.
///
/// # Errors
/// `UnreadKind` if it isn't in a regular file, `NoWord` if its file can't be read, `BadWord` if it
/// hasn't one word. `Memory`.
pub fn read_word(rt: &HostRuntime, places: &Places) -> Result<Word, SiteFault> {
    if is_other(rt, places.word.as_str()) {
        return Err(SiteFault::UnreadKind {
            path: places.word.clone()?,
        });
    }
    match fs::read_to_string(rt, places.word.as_str()) {
        Ok(text) => word_in(rt, places, text.as_str()),
        Err(error) if error.kind() == io::ErrorKind::OutOfMemory => Err(SiteFault::Memory),
        Err(error) => Err(SiteFault::NoWord {
            path: places.word.clone()?,
            error,
        }),
    }
}

/// Whether the spool has a file for its word that isn't empty.
pub fn has_word(rt: &HostRuntime, places: &Places) -> bool {
    match fs::metadata(rt, places.word.as_str()) {
        Ok(found) => found.len() > 0,
        Err(_) => false,
    }
}

// The word that a text has, which may end with a line feed.
fn word_in(rt: &HostRuntime, places: &Places, text: &str) -> Result<Word, SiteFault> {
    match Word::parse(rt.alloc(), text.trim_ascii_end()) {
        Ok(word) => Ok(word),
        Err(NameFault::Memory) => Err(SiteFault::Memory),
        Err(_) => Err(SiteFault::BadWord {
            path: places.word.clone()?,
        }),
    }
}

/// Gives the spool a word that no other spool has. It is on the disk before anything is said under
/// it.
///
/// # Errors
/// `Read` if there are no random bytes, `Write` if the word can't be written. `Memory`.
pub fn make_word(rt: &HostRuntime, places: &Places) -> Result<(), SiteFault> {
    let word = drawn_word(rt)?;
    let path = places.word.as_str();
    let new = format!(in rt.alloc(); "{path}.new")?;
    match put_word(
        rt,
        word.as_str(),
        new.as_str(),
        path,
        places.folder.as_str(),
    ) {
        Ok(()) => Ok(()),
        Err(error) => Err(SiteFault::write(places.word.clone()?, error)),
    }
}

// A word of random digits, as a line.
fn drawn_word(rt: &HostRuntime) -> Result<String, SiteFault> {
    match random_number(rt) {
        Ok(number) => Ok(format!(in rt.alloc(); "{number:016x}\n")?),
        Err(error) => Err(SiteFault::read(String::from_str(rt.alloc(), RANDOM)?, error)),
    }
}

fn random_number(rt: &HostRuntime) -> io::Result<u64> {
    let mut bytes = [0; WORD_BYTES];
    let mut source = fs::open(rt, RANDOM)?;
    source.read_exact(&mut bytes)?;
    Ok(u64::from_be_bytes(bytes))
}

// Writes a word to a new file, and gives that the place of the word.
fn put_word(rt: &HostRuntime, word: &str, new: &str, place: &str, folder: &str) -> io::Result<()> {
    let mut file = OpenOptions::new()
        .write(true)
        .create(true)
        .truncate(true)
        .mode(0o600)
        .open(rt, new)?;
    file.write_all(word.as_bytes())?;
    file.sync_all()?;
    fs::rename(rt, new, place)?;
    File::open(rt, folder)?.sync_all()
}
