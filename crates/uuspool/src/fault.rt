//! Why a line of the program failed, with its exit status and its line on standard error.

ghost use Rattle.std.specs.Prelude.{◌≡◌, Some, IfOk};
ghost use Rattle.std.specs.Fmt.{DisplaysOnOk};
ghost use Rattle.uu_names.specs.Fault.{fault_code};
ghost use Rattle.uuspool.specs.Faults.{code_of, is_help, status_of, line_of_fault, text_of_fault, settings_text, name_text, bundle_fault_text, time_text, time_name, fault_place, placed};

use std::alloc::{AllocError, AllocFailed, Global};
use std::fmt;
use thiserror::Error;
use uu_line::LineFault;
use uu_names::NameFault;
use uu_request::{RequestFault, WrongBundle};
use uu_settings::SettingsFault;
use uu_store::StoreFault;
use uu_times::TimeFault;

/// Why a line failed. Its text is that of its line on standard error, without the program's name
/// (see [`FaultLine`]).
#[derive(Debug, Drop, Error)]
pub enum Fault {
    /// The words aren't a line of the program, or ask for its help. `text` is printed as it is.
    Words {
        /// What is printed, with its line ends.
        text: String,
        /// Whether the words ask for help.
        help: bool,
    },
    /// The settings file isn't valid.
    Settings(SettingsFault),
    /// A user, system, word, grade or address isn't valid.
    Name(NameFault),
    /// The moment is after the last one, or the sys file has a fault.
    Time(TimeFault),
    /// The addresses of a message begin with different systems.
    TwoSystems,
    /// The input has more than 4,194,304 bytes.
    Input,
    /// The spool gave no answer.
    Store(StoreFault),
    /// Words, settings, input or the clock could not be read.
    Read,
    /// The output could not be written.
    Write,
    /// Out of memory.
    Memory,
    /// The site exchanges no bundles with the other, or the input isn't a bundle, or is one from
    /// another sender or for another site.
    Bundle(WrongBundle),
}

impl Fault {
    /// The fault's number.
    pub fn code(&self) -> u8
        ensures { result ≡ code_of self.now }
    {
        match self {
            Fault::Words { .. } => 1,
            Fault::Settings(_) => 2,
            Fault::Name(_) => 3,
            Fault::Time(_) => 4,
            Fault::TwoSystems => 5,
            Fault::Input => 6,
            Fault::Store(_) => 7,
            Fault::Read => 8,
            Fault::Write => 9,
            Fault::Memory => 10,
            Fault::Bundle(_) => 11,
        }
    }

    /// Whether the fault is that the user asked for help. Its text is printed on standard output.
    /// The line of any other fault is printed on standard error.
    pub fn is_help(&self) -> bool
        ensures { result ≡ is_help self.now }
    {
        matches!(self, Fault::Words { help: true, .. })
    }
}

impl From<AllocError> for Fault {
    ghost use Rattle.std.specs.Prelude.{◌≡◌};
    ghost use Rattle.uuspool.specs.declared.fault.Fault.TheVariants.{Memory};

    ghost from_gives = { λ _ fault. fault ≡ Memory };

    fn from(_error: AllocError) -> Fault {
        Fault::Memory
    }
}

impl<T: Drop> From<AllocFailed<T>> for Fault {
    ghost use Rattle.std.specs.Prelude.{◌≡◌};
    ghost use Rattle.uuspool.specs.declared.fault.Fault.TheVariants.{Memory};

    ghost from_gives = { λ _ fault. fault ≡ Memory };

    fn from(_error: AllocFailed<T>) -> Fault {
        Fault::Memory
    }
}

impl From<LineFault> for Fault {
    ghost use Rattle.std.specs.Prelude.{◌≡◌};
    ghost use Rattle.uuspool.specs.Faults.{fault_of_line};

    ghost from_gives = { λ line fault. fault ≡ fault_of_line line };

    fn from(fault: LineFault) -> Fault {
        match fault {
            LineFault::Words { text, help } => Fault::Words { text, help },
            LineFault::Name(name) => Fault::Name(name),
            LineFault::TwoSystems => Fault::TwoSystems,
            LineFault::Memory => Fault::Memory,
        }
    }
}

impl From<RequestFault> for Fault {
    ghost use Rattle.std.specs.Prelude.{◌≡◌};
    ghost use Rattle.uuspool.specs.Faults.{fault_of_request};

    ghost from_gives = { λ why fault. fault ≡ fault_of_request why };

    fn from(fault: RequestFault) -> Fault {
        match fault {
            RequestFault::Input => Fault::Input,
            RequestFault::Time(fault) => Fault::Time(fault),
            RequestFault::Bundle(fault) => Fault::Bundle(fault),
            RequestFault::Memory => Fault::Memory,
        }
    }
}

impl From<StoreFault> for Fault {
    ghost use Rattle.std.specs.Prelude.{◌≡◌};
    ghost use Rattle.uuspool.specs.declared.fault.Fault.TheVariants.{Store};

    ghost from_gives = { λ why fault. fault ≡ Store why };

    fn from(fault: StoreFault) -> Fault {
        Fault::Store(fault)
    }
}

/// The exit status of the program for this fault: 0 for help, 2 for words, settings, names, times,
/// addresses, input and bundles, 3 for the spool, 4 for out of memory anywhere, 5 for reading and
/// writing.
pub fn fault_status(fault: &Fault) -> u8
    ensures { result ≡ status_of fault.now }
{
    match fault {
        Fault::Words { help: true, .. } => 0,
        Fault::Memory
        | Fault::Settings(SettingsFault::Memory)
        | Fault::Name(NameFault::Memory)
        | Fault::Time(TimeFault::Memory)
        | Fault::Store(StoreFault::Memory) => 4,
        Fault::Words { .. }
        | Fault::Settings(_)
        | Fault::Name(_)
        | Fault::Time(_)
        | Fault::TwoSystems
        | Fault::Input
        | Fault::Bundle(_) => 2,
        Fault::Store(_) => 3,
        Fault::Read | Fault::Write => 5,
    }
}

impl fmt::Display for Fault {
    ghost output = { λ fault. Some (text_of_fault fault) };

    fn fmt<W: fmt::Write>(&self, f: &mut fmt::Formatter<W>) -> fmt::Result {
        let text = match self {
            Fault::Words { text, .. } => text.as_str(),
            Fault::Settings(settings) => return write_settings(*settings, f),
            Fault::Name(name) => name_text(*name),
            Fault::Time(time) => return write_time(*time, f),
            Fault::TwoSystems => "addresses of two systems",
            Fault::Input => "too much input",
            Fault::Store(StoreFault::Store(_)) => "spool: store",
            Fault::Store(StoreFault::Failed) => "spool: failed",
            Fault::Store(StoreFault::Foreign) => "spool: foreign",
            Fault::Store(StoreFault::Newer) => "spool: newer",
            Fault::Store(StoreFault::Memory) | Fault::Memory => "out of memory",
            Fault::Read => "cannot read",
            Fault::Write => "cannot write",
            Fault::Bundle(fault) => bundle_text(*fault),
        };
        f.write_str(text)
    }
}

/// What the program prints for a fault: the text of a fault of words as it is, and otherwise one
/// line that begins with the program's name. It is made while it is written, so it allocates
/// nothing.
#[derive(Clone, Copy)]
pub struct FaultLine<'a>(pub &'a Fault);

impl fmt::Display for FaultLine<'_> {
    ghost output = { λ line. Some (line_of_fault line.0.now) };

    fn fmt<W: fmt::Write>(&self, f: &mut fmt::Formatter<W>) -> fmt::Result {
        match self.0 {
            Fault::Words { text, .. } => f.write_str(text.as_str()),
            fault => write!(f, "uuspool: {fault}\n"),
        }
    }
}

/// What the program prints for this fault, as bytes.
pub fn fault_line(alloc: Global, fault: &Fault) -> Result<Vec<u8>, AllocError>
    ensures { IfOk result (λ line. line.items ≡ line_of_fault fault.now) }
{
    let line = FaultLine(fault);
    Ok(format!(in alloc; "{line}")?.into_bytes())
}

// Writes the text of a fault of the settings.
fn write_settings<W: fmt::Write>(fault: SettingsFault, f: &mut fmt::Formatter<W>) -> fmt::Result
    ensures { DisplaysOnOk W.write_str_gives f.old result (Some (settings_text fault)) f.new }
{
    match fault {
        SettingsFault::NotToml(_) => f.write_str("settings: not toml"),
        SettingsFault::Missing(key) => {
            let key = key.name();
            write!(f, "settings: {key} missing")
        }
        SettingsFault::BadValue(key) => {
            let key = key.name();
            write!(f, "settings: {key} bad")
        }
        SettingsFault::Memory => f.write_str("out of memory"),
    }
}

fn name_text(fault: NameFault) -> &'static str
    ensures { result.now ≡ name_text fault }
{
    match fault {
        NameFault::BadGrade => "name: BadGrade",
        NameFault::BadName(_) => "name: BadName",
        NameFault::BadPath(_) => "name: BadPath",
        NameFault::BadWord(_) => "name: BadWord",
        NameFault::NoEnvelope => "name: NoEnvelope",
        NameFault::TooLong => "name: TooLong",
        NameFault::Memory => "out of memory",
    }
}

fn bundle_text(fault: WrongBundle) -> &'static str
    ensures { result.now ≡ bundle_fault_text fault }
{
    match fault {
        WrongBundle::NoBundle => "bundle: NoBundle",
        WrongBundle::OtherSender => "bundle: OtherSender",
        WrongBundle::OtherSite => "bundle: OtherSite",
        WrongBundle::OwnSite => "bundle: OwnSite",
        WrongBundle::Sealed => "bundle: Sealed",
    }
}

// Writes the text of a fault of a moment or of a sys file.
fn write_time<W: fmt::Write>(fault: TimeFault, f: &mut fmt::Formatter<W>) -> fmt::Result
    ensures { DisplaysOnOk W.write_str_gives f.old result (Some (time_text fault)) f.new }
{
    match fault {
        TimeFault::Memory => f.write_str("out of memory"),
        _ => write_placed(place_of(fault), time_name(fault), f),
    }
}

// Writes the text of a fault of this name, at a line of a text, or without a line.
fn write_placed<W: fmt::Write>(place: u32, name: &str, f: &mut fmt::Formatter<W>) -> fmt::Result
    ensures { DisplaysOnOk W.write_str_gives f.old result (Some (placed place name.now)) f.new }
{
    if place == 0 {
        write!(f, "time: {name}")
    } else {
        write!(f, "line {place}: {name}")
    }
}

// The line of the text that has the fault, or 0 if it has none.
fn place_of(fault: TimeFault) -> u32
    ensures { result ≡ fault_place fault }
{
    match fault {
        TimeFault::MomentRange | TimeFault::OffsetRange | TimeFault::Memory | TimeFault::BadZone =>
            0,
        TimeFault::BadTime(line, _)
        | TimeFault::UnknownTable(line)
        | TimeFault::TableTwice(line)
        | TimeFault::BadNumber(line)
        | TimeFault::BadSystem(line)
        | TimeFault::TooManyLines(line)
        | TimeFault::SystemTwice(line)
        | TimeFault::BadWords(line) => line,
    }
}

fn time_name(fault: TimeFault) -> &'static str
    ensures { result.now ≡ time_name fault }
{
    match fault {
        TimeFault::MomentRange => "MomentRange",
        TimeFault::OffsetRange => "OffsetRange",
        TimeFault::BadTime(_, _) => "BadTime",
        TimeFault::UnknownTable(_) => "UnknownTable",
        TimeFault::TableTwice(_) => "TableTwice",
        TimeFault::BadNumber(_) => "BadNumber",
        TimeFault::BadSystem(_) => "BadSystem",
        TimeFault::TooManyLines(_) => "TooManyLines",
        TimeFault::SystemTwice(_) => "SystemTwice",
        TimeFault::BadWords(_) => "BadWords",
        TimeFault::Memory => "Memory",
        TimeFault::BadZone => "BadZone",
    }
}
