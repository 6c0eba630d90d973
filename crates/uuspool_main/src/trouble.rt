//! Why the program has no answer, with what it prints about that.

use crate::misread::write_misread;
use std::alloc::{AllocError, AllocFailed};
use std::io::Write;
use std::{fmt, io};
use uu_keys::KeyFileFault;
use uu_line::Misread;
use uu_names::NameFault;
use uu_seal::SealFault;
use uu_site::SiteFault;
use uu_store::{StoreFault, StoreKind};
use uu_times::TimeFault;
use uuspool::{Fault, FaultLine, SettingsFault, fault_status};

const MEBIBYTE: u64 = 1_048_576;

/// Why the program has no answer.
#[derive(Drop)]
pub(crate) enum Trouble {
    /// A fault of the line.
    Line(Fault),
    /// This text of the line isn't valid.
    Name { fault: NameFault, misread: Misread },
    /// The settings in the file of this path aren't valid.
    Settings { fault: SettingsFault, path: String },
    /// The site doesn't let the program work.
    Site(SiteFault),
    /// The spool in the file of this path gave no answer.
    Store { fault: StoreFault, path: String },
    /// The spool in the file of this path has reached its limit of so many bytes.
    Full { path: String, limit: u64 },
    /// The spool's database, in the file of this path, has something else.
    Shared { path: String },
    /// The keys of the line's neighbour can't be used.
    Keys(KeyFileFault),
    /// The bundle of this neighbour isn't sealed with one of its keys.
    Unopened { neighbour: String, fault: SealFault },
    /// The answer could not be printed. Of a change, which was carried out, this is told instead.
    Unprinted { error: io::Error, told: String },
}

impl Trouble {
    /// The exit status.
    pub(crate) fn status(&self) -> u8 {
        match self {
            Trouble::Line(fault) => fault_status(fault),
            Trouble::Name { fault, .. } => fault_status(&Fault::Name(*fault)),
            Trouble::Settings { .. } => 2,
            Trouble::Site(fault) => fault.status(),
            Trouble::Store { fault, .. } => fault_status(&Fault::Store(*fault)),
            Trouble::Full { .. } => fault_status(&Fault::Store(StoreFault::Store(StoreKind::Disk))),
            Trouble::Shared { .. } => fault_status(&Fault::Store(StoreFault::Foreign)),
            Trouble::Unopened { .. } => 2,
            Trouble::Keys(_) | Trouble::Unprinted { .. } => 5,
        }
    }
}

impl From<Fault> for Trouble {
    fn from(fault: Fault) -> Trouble {
        Trouble::Line(fault)
    }
}

impl From<SiteFault> for Trouble {
    fn from(fault: SiteFault) -> Trouble {
        match fault {
            SiteFault::Memory => Trouble::Line(Fault::Memory),
            fault => Trouble::Site(fault),
        }
    }
}

impl From<KeyFileFault> for Trouble {
    fn from(fault: KeyFileFault) -> Trouble {
        match fault {
            KeyFileFault::Memory => Trouble::Line(Fault::Memory),
            fault => Trouble::Keys(fault),
        }
    }
}

impl From<AllocError> for Trouble {
    fn from(_error: AllocError) -> Trouble {
        Trouble::Line(Fault::Memory)
    }
}

impl<T: Drop> From<AllocFailed<T>> for Trouble {
    fn from(_error: AllocFailed<T>) -> Trouble {
        Trouble::Line(Fault::Memory)
    }
}

impl fmt::Display for Trouble {
    fn fmt<W: fmt::Write>(&self, f: &mut fmt::Formatter<W>) -> fmt::Result {
        match self {
            Trouble::Line(Fault::Time(fault)) => write_time(*fault, f),
            Trouble::Line(fault) => {
                let line = FaultLine(fault);
                write!(f, "{line}")
            }
            Trouble::Name { fault, misread } => write_misread(*fault, misread, f),
            Trouble::Settings { fault, path } => write_settings(*fault, path, f),
            Trouble::Site(fault) => write!(f, "uuspool: {fault}\n"),
            Trouble::Store { fault, path } => write_store(*fault, path, f),
            Trouble::Full { path, limit } => write_full(path, *limit, f),
            Trouble::Shared { path } => write_shared(path, f),
            Trouble::Keys(fault) => write!(f, "uuspool: {fault}\n"),
            Trouble::Unopened { neighbour, fault } => write_unopened(neighbour, *fault, f),
            Trouble::Unprinted { error, told } => {
                write!(f, "uuspool: cannot write the answer: {error}\n")?;
                if told.is_empty() {
                    return Ok(());
                }
                write!(f, "uuspool: it was carried out: {told}\n")
            }
        }
    }
}

// Writes the fault of the settings, the path of their file, and what isn't TOML there.
fn write_settings<W: fmt::Write>(
    fault: SettingsFault,
    path: &String,
    f: &mut fmt::Formatter<W>,
) -> fmt::Result {
    let whole = Fault::Settings(fault);
    match fault {
        SettingsFault::NotToml(why) => write!(f, "uuspool: {whole}: {path}: {why}\n"),
        _ => write!(f, "uuspool: {whole}: {path}\n"),
    }
}

// Writes the fault of a moment or of a sys file, and where a time string is wrong.
fn write_time<W: fmt::Write>(fault: TimeFault, f: &mut fmt::Formatter<W>) -> fmt::Result {
    let whole = Fault::Time(fault);
    match fault {
        TimeFault::BadTime(_, at) => {
            let place = at.saturating_add(1);
            write!(f, "uuspool: {whole}: at byte {place} of the time string\n")
        }
        _ => write!(f, "uuspool: {whole}\n"),
    }
}

// Writes why the bundle of a neighbour isn't opened.
fn write_unopened<W: fmt::Write>(
    neighbour: &String,
    fault: SealFault,
    f: &mut fmt::Formatter<W>,
) -> fmt::Result {
    match fault {
        SealFault::NotSealed => {
            write!(
                f,
                "uuspool: bundle: NotSealed: {neighbour} has a key, so its bundles have to be sealed\n"
            )
        }
        SealFault::WrongKey => {
            write!(
                f,
                "uuspool: bundle: WrongKey: it is sealed with none of the keys of {neighbour}\n"
            )
        }
        SealFault::Memory => f.write_str("uuspool: out of memory\n"),
    }
}

// Writes the fault of the store, the path of the spool, and what is known about it.
fn write_store<W: fmt::Write>(
    fault: StoreFault,
    path: &String,
    f: &mut fmt::Formatter<W>,
) -> fmt::Result {
    let whole = Fault::Store(fault);
    let text = store_text(fault);
    write!(f, "uuspool: {whole}: {path} {text}\n")
}

// Writes that the spool has reached its limit, and what to do.
fn write_full<W: fmt::Write>(path: &String, limit: u64, f: &mut fmt::Formatter<W>) -> fmt::Result {
    let whole = limit / MEBIBYTE;
    write!(
        f,
        "uuspool: spool: full: {path} has reached the limit of {whole} MiB: deliver or remove jobs, or raise limit in the settings\n"
    )
}

// Writes that a copy of the spool would lack something, and what to do.
fn write_shared<W: fmt::Write>(path: &String, f: &mut fmt::Formatter<W>) -> fmt::Result {
    write!(
        f,
        "uuspool: spool: shared: {path} has a table, index, view or column that isn't the spool's: remove that with sqlite3, and try again\n"
    )
}

fn store_text(fault: StoreFault) -> &'static str {
    match fault {
        StoreFault::Memory => "was not read",
        StoreFault::Store(kind) => kind_text(kind),
        StoreFault::Failed => "failed before",
        StoreFault::Foreign => "is not a spool, or another program changed it",
        StoreFault::Newer => "was made by a later version of this program",
    }
}

fn kind_text(kind: StoreKind) -> &'static str {
    match kind {
        StoreKind::Disk => {
            "could not be read or written: the disk is full or failed, or the file is damaged"
        }
        StoreKind::Size => "is as large as it can be",
        StoreKind::Busy => "is in use by another program, such as sqlite3",
        StoreKind::Database => "is not a database that this program can open",
    }
}

/// Prints a trouble: help on standard output, any other on standard error. Its lines allocate
/// nothing. If they can't be written, only the status reports the trouble.
pub(crate) fn print_trouble(rt: &HostRuntime, trouble: &Trouble) {
    let is_help = match trouble {
        Trouble::Line(fault) => fault.is_help(),
        _ => false,
    };
    let _ = if is_help {
        write!(rt.stdout(), "{trouble}")
    } else {
        write!(rt.stderr(), "{trouble}")
    };
}

/// Prints what failed beside a line that was answered.
pub(crate) fn print_warning(rt: &HostRuntime, fault: &SiteFault) {
    let _ = write!(
        rt.stderr(),
        "uuspool: warning: {fault}: it lacks this line\n"
    );
}
