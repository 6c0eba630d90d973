//! Reading the keys of a file.

ghost use Rattle.std.specs.Prelude.{◌≤◌, IfOk, IfSome, length};

use crate::fault::KeyFileFault;
use std::alloc::AllocError;
use std::fs::File;
use std::io::{ErrorKind, Read};
use std::os::unix::fs::PermissionsExt;
use std::{fs, io};
use uu_names::{Listed, SiteName};
use uu_seal::{Key, KeyFault, keys_in};

/// The most bytes of a key file that are read: a thousand keys.
const LIMIT: u64 = 65_001;

/// The text of a neighbour's file that says that its bundles aren't sealed.
const UNSEALED: &[u8] = b"unsealed\n";

/// The rights of others than its owner, of which a key file has none.
const OTHERS: u32 = 0o077;

/// The keys of a neighbour, which the file of its name in the folder has, or `None` if this says
/// that the neighbour's bundles aren't sealed.
///
/// # Errors
/// `Neighbour` if there is no such file, or it can't be read. `Kind` if it isn't a regular file.
/// `Exposed` if others than its owner may read or write it. `Keys` if it has no key, or a line that
/// isn't one. `Memory`.
pub fn keys_for(
    rt: &HostRuntime,
    folder: &str,
    neighbour: &SiteName,
) -> Result<Option<Listed<Key>>, KeyFileFault>
    ensures { IfOk result (λ found. IfSome found (λ keys. 1 ≤ length keys)) }
{
    let path = path_of(rt, folder, neighbour)?;
    match text_at(rt, path.as_str()) {
        Ok(text) => keys_said(rt, path, &text),
        Err(fault) => Err(with_neighbour(rt, neighbour, fault)?),
    }
}

// The path of a neighbour's file.
fn path_of(rt: &HostRuntime, folder: &str, neighbour: &SiteName) -> Result<String, AllocError> {
    let name = neighbour.as_str();
    format!(in rt.alloc(); "{folder}/{name}")
}

// The keys in the text of a neighbour's file, or `None` if it says that there is no seal.
fn keys_said(
    rt: &HostRuntime,
    path: String,
    text: &[u8],
) -> Result<Option<Listed<Key>>, KeyFileFault>
    ensures { IfOk result (λ found. IfSome found (λ keys. 1 ≤ length keys)) }
{
    if text == UNSEALED {
        return Ok(None);
    }
    match keys_of(rt, path, text) {
        Ok(keys) => Ok(Some(keys)),
        Err(fault) => Err(fault),
    }
}

// The fault of a neighbour's file.
fn with_neighbour(
    rt: &HostRuntime,
    neighbour: &SiteName,
    fault: KeyFileFault,
) -> Result<KeyFileFault, AllocError> {
    let neighbour = String::from_str(rt.alloc(), neighbour.as_str())?;
    match fault {
        KeyFileFault::Read { path, error } => Ok(KeyFileFault::Neighbour {
            path,
            neighbour,
            error,
        }),
        fault => Ok(fault),
    }
}

/// The keys that the file at a path has.
///
/// # Errors
/// Those of [`keys_for`], with `Read` in place of `Neighbour`.
pub fn keys_at(rt: &HostRuntime, path: &str) -> Result<Listed<Key>, KeyFileFault>
    ensures { IfOk result (λ keys. 1 ≤ length keys) }
{
    let text = text_at(rt, path)?;
    keys_of(rt, String::from_str(rt.alloc(), path)?, &text)
}

// The keys in the text of the file at a path.
fn keys_of(rt: &HostRuntime, path: String, text: &[u8]) -> Result<Listed<Key>, KeyFileFault>
    ensures { IfOk result (λ keys. 1 ≤ length keys) }
{
    match keys_in(rt.alloc(), text) {
        Ok(keys) => Ok(keys),
        Err(KeyFault::Memory) => Err(KeyFileFault::Memory),
        Err(fault) => Err(KeyFileFault::Keys { path, fault }),
    }
}

// The text of the file at a path, which is a regular one, and its owner's alone.
fn text_at(rt: &HostRuntime, path: &str) -> Result<Vec<u8>, KeyFileFault> {
    let path = String::from_str(rt.alloc(), path)?;
    match private_text(rt, path.as_str()) {
        Ok(Text::Private(text)) => Ok(text),
        Ok(Text::Kind) => Err(KeyFileFault::Kind { path }),
        Ok(Text::Exposed) => Err(KeyFileFault::Exposed { path }),
        Err(error) if error.kind() == ErrorKind::OutOfMemory => Err(KeyFileFault::Memory),
        Err(error) => Err(KeyFileFault::Read { path, error }),
    }
}

// What a key file is.
#[derive(Drop)]
enum Text {
    // A file of its owner's alone, with this text.
    Private(Vec<u8>),
    // A file that others may read or write.
    Exposed,
    // A folder, a pipe or a device.
    Kind,
}

// What is at a path. Nothing is read of a file that others may read or write.
fn private_text(rt: &HostRuntime, path: &str) -> io::Result<Text> {
    if !fs::metadata(rt, path)?.is_file() {
        return Ok(Text::Kind);
    }
    let file = File::open(rt, path)?;
    if file.metadata()?.permissions().mode() & OTHERS != 0 {
        return Ok(Text::Exposed);
    }
    let mut text = Vec::new(rt.alloc());
    file.take(LIMIT).read_to_end(&mut text)?;
    Ok(Text::Private(text))
}
