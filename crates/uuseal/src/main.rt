//! The program `uuseal`: `uuseal seal FILE` seals standard input with the first key of the file,
//! and `uuseal open FILE` opens it with one of the file's keys.
#![tactic(auto)]

ghost use Rattle.std.specs.Prelude.{◌≤◌, IfOk, length};

use std::alloc::{AllocError, AllocFailed};
use std::io::{ErrorKind, Read, Write};
use std::process::ExitCode;
use std::{env, io};
use thiserror::Error;
use uu_keys::{KeyFileFault, keys_at};
use uu_names::Listed;
use uu_seal::{Key, MAX_SEALED, SealFault, open, seal};

/// Where the reading of standard input ends: one byte behind the largest sealed bundle.
const LIMIT: u64 = 4_273_225;

/// What `--help` prints.
const USAGE: &[u8] = b"usage: uuseal seal|open FILE\n";

/// Why nothing is printed.
#[derive(Debug, Drop, Error)]
enum Fault {
    /// The words are others.
    #[error("usage: uuseal seal|open FILE")]
    Usage,
    /// The file has no keys that can be used.
    #[error("{0}")]
    Keys(KeyFileFault),
    /// Standard input isn't opened.
    #[error("standard input is {0}")]
    Sealed(SealFault),
    /// Standard input can't be read.
    #[error("cannot read standard input: {0}")]
    Read(io::Error),
    /// Standard input is longer than any bundle.
    #[error("standard input has more than 4,273,224 bytes")]
    Input,
    /// Standard output can't be written.
    #[error("cannot write standard output: {0}")]
    Write(io::Error),
    /// Out of memory.
    #[error("out of memory")]
    Memory,
}

impl Fault {
    // The exit status, as that of `uuspool`.
    fn status(&self) -> u8 {
        match self {
            Fault::Usage | Fault::Input | Fault::Sealed(_) => 2,
            Fault::Memory => 4,
            Fault::Keys(_) | Fault::Read(_) | Fault::Write(_) => 5,
        }
    }
}

impl From<AllocError> for Fault {
    fn from(_refused: AllocError) -> Fault {
        Fault::Memory
    }
}

impl<T: Drop> From<AllocFailed<T>> for Fault {
    fn from(_refused: AllocFailed<T>) -> Fault {
        Fault::Memory
    }
}

fn main(rt: HostRuntime) -> ExitCode {
    match run(&rt) {
        Ok(()) => ExitCode::from(0),
        Err(fault) => {
            let _ = writeln!(rt.stderr(), "uuseal: {fault}");
            ExitCode::from(fault.status())
        }
    }
}

// Does what the words ask for.
fn run(rt: &HostRuntime) -> Result<(), Fault> {
    let words = words_of(rt)?;
    let output = match words.as_slice() {
        [word] if word.as_str() == "--help" => Vec::from_slice(rt.alloc(), USAGE)?,
        [deed, path] if deed.as_str() == "seal" => sealed(rt, path.as_str())?,
        [deed, path] if deed.as_str() == "open" => opened(rt, path.as_str())?,
        _ => return Err(Fault::Usage),
    };
    match io::writer(rt).write_all(&output) {
        Ok(()) => Ok(()),
        Err(error) => Err(Fault::Write(error)),
    }
}

fn words_of(rt: &HostRuntime) -> Result<Vec<String>, Fault> {
    match env::args(rt) {
        Ok(args) => Ok(args.skip(1).collect(rt.alloc())?),
        Err(_) => Err(Fault::Usage),
    }
}

// Standard input, sealed with the first key of the file.
fn sealed(rt: &HostRuntime, path: &str) -> Result<Vec<u8>, Fault> {
    let keys = keys_of(rt, path)?;
    let input = input_of(rt)?;
    Ok(seal(rt.alloc(), &keys.as_slice()[0], &input)?)
}

// What is opened of standard input with one of the file's keys.
fn opened(rt: &HostRuntime, path: &str) -> Result<Vec<u8>, Fault> {
    let keys = keys_of(rt, path)?;
    let input = input_of(rt)?;
    match open(rt.alloc(), keys.as_slice(), &input) {
        Ok(text) => Ok(text),
        Err(SealFault::Memory) => Err(Fault::Memory),
        Err(fault) => Err(Fault::Sealed(fault)),
    }
}

// The keys of the file.
fn keys_of(rt: &HostRuntime, path: &str) -> Result<Listed<Key>, Fault>
    ensures { IfOk result (λ keys. 1 ≤ length keys) }
{
    match keys_at(rt, path) {
        Ok(keys) => Ok(keys),
        Err(KeyFileFault::Memory) => Err(Fault::Memory),
        Err(fault) => Err(Fault::Keys(fault)),
    }
}

// Standard input, read whole.
fn input_of(rt: &HostRuntime) -> Result<Vec<u8>, Fault> {
    let mut input = Vec::new(rt.alloc());
    match rt.stdin().take(LIMIT).read_to_end(&mut input) {
        Ok(_) if input.len() > MAX_SEALED => Err(Fault::Input),
        Ok(_) => Ok(input),
        Err(error) if error.kind() == ErrorKind::OutOfMemory => Err(Fault::Memory),
        Err(error) => Err(Fault::Read(error)),
    }
}
