//! What a line is given by the system: its words, its settings, its moment and its input.

ghost use Rattle.std.specs.Prelude.{IfOk, unwrap_or};
ghost use Rattle.uuspool.specs.Served.{IsMomentOf, second_of};

use crate::sealing::Sealing;
use crate::trouble::Trouble;
use std::io::Read;
use std::time::SystemTime;
use std::{env, io};
use uu_site::{Site, SiteFault, settings_text};
use uu_times::Moment;
use uuspool::{CommandLine, Fault, Settings, SettingsFault, Task, moment_of, read_at_most};

/// The words after the program's name.
pub(crate) fn words_of(rt: &HostRuntime) -> Result<Vec<String>, Fault> {
    let words = match env::args(rt) {
        Ok(args) => args.skip(1).collect(rt.alloc()),
        Err(error) if error.kind() == io::ErrorKind::OutOfMemory => return Err(Fault::Memory),
        Err(_) => return Err(Fault::Read),
    };
    words.map_err(Fault::from)
}

/// The words from the subcommand on.
pub(crate) fn line_words(words: &[String]) -> &[String] {
    &words[front_of(words).len().min(words.len())..]
}

// The words before the subcommand: options and their values.
fn front_of(words: &[String]) -> &[String] {
    let mut is_value = false;
    for place in 0..words.len() {
        let word = words[place].as_str();
        if is_value {
            is_value = false;
        } else if takes_value(word) {
            is_value = true;
        } else if !word.starts_with('-') {
            return &words[..place];
        }
    }
    words
}

// Whether the next word is the value of this option.
fn takes_value(word: &str) -> bool {
    matches!(word, "-c" | "--at" | "--as")
}

/// The settings of a site.
pub(crate) fn settings_of(rt: &HostRuntime, site: &Site) -> Result<Settings, Trouble> {
    let text = settings_text(rt, site)?;
    settings_in(rt, site, text.as_str())
}

/// The settings in the text of a site's settings file.
pub(crate) fn settings_in(rt: &HostRuntime, site: &Site, text: &str) -> Result<Settings, Trouble> {
    match Settings::read(rt.alloc(), text) {
        Ok(settings) => Ok(settings),
        Err(SettingsFault::Memory) => Err(Trouble::from(Fault::Memory)),
        Err(fault) => Err(Trouble::Settings {
            fault,
            path: String::from_str(rt.alloc(), site.settings.as_str())?,
        }),
    }
}

/// What a line is given besides its words.
#[derive(Drop)]
pub(crate) struct Given {
    pub at: Moment,
    pub input: Vec<u8>,
}

/// What this line is given: its moment on the clock of these settings, and its input, which is
/// opened if it is sealed.
pub(crate) fn given_for(
    rt: &HostRuntime,
    settings: &Settings,
    sealing: &Sealing,
    line: &CommandLine,
) -> Result<Given, Trouble>
    ensures { IfOk result (λ given. (now : _) × IsMomentOf settings.now (second_of line.now now) given.at) }
{
    let at = moment_for(rt, line.at, settings)?;
    let input = input_for(rt, sealing, &line.task)?;
    Ok(Given { at, input })
}

// The moment of the line's second, or of the clock's if the line gives none.
pub(crate) fn moment_for(
    rt: &HostRuntime,
    second: Option<u64>,
    settings: &Settings,
) -> Result<Moment, Fault>
    ensures { IfOk result (λ at. (now : _) × IsMomentOf settings.now (unwrap_or second now) at) }
{
    match second {
        Some(second) => moment_of(second, settings),
        None => match second_of_clock(rt) {
            Ok(now) => moment_of(now, settings),
            Err(fault) => Err(fault),
        },
    }
}

/// The second of the system's clock.
pub(crate) fn second_of_clock(rt: &HostRuntime) -> Result<u64, Fault> {
    let Ok(now) = SystemTime::now(rt) else {
        return Err(Fault::Read);
    };
    match now.duration_since(SystemTime::UNIX_EPOCH) {
        Ok(since) => Ok(since.as_secs()),
        Err(_) => Err(Fault::Read),
    }
}

// The input of a task, read whole and opened, if the task takes one.
fn input_for(rt: &HostRuntime, sealing: &Sealing, task: &Task) -> Result<Vec<u8>, Trouble> {
    if !task.has_input() {
        return Ok(Vec::new(rt.alloc()));
    }
    match read_at_most(rt.alloc(), sealing.most_input(), &mut rt.stdin()) {
        Ok(input) => sealing.opened(rt.alloc(), task, input),
        Err(Fault::Read) => Err(unread_input(rt)?),
        Err(fault) => Err(Trouble::Line(fault)),
    }
}

// Why standard input can't be read: the error of one more read.
fn unread_input(rt: &HostRuntime) -> Result<Trouble, Trouble> {
    match rt.stdin().read(&mut [0]) {
        Ok(_) => Ok(Trouble::Line(Fault::Read)),
        Err(error) => Ok(Trouble::Site(SiteFault::Read {
            path: String::from_str(rt.alloc(), "standard input")?,
            error,
        })),
    }
}
