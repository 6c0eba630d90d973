//! The program `uuspool`: finds its site, takes its turn, lets the library serve the line over the
//! spool, and then prints the answer.
#![tactic(auto)]

mod batching;
mod copying;
mod given;
mod logged;
mod making;
mod misread;
mod renumbering;
mod replacing;
mod room;
mod sealing;
mod serving;
mod stretch;
mod telling;
mod trouble;
mod vacuuming;

use crate::given::{settings_in, settings_of, words_of};
use crate::making::make_spool;
use crate::misread::line_trouble;
use crate::renumbering::{number_of, renumber};
use crate::sealing::{sealing_for, take_seals};
use crate::serving::{serve_batch, serve_words};
use crate::telling::{tell_name, tell_site};
use crate::trouble::{Trouble, print_trouble};
use crate::vacuuming::vacuum;
use std::mem::drop;
use std::process::ExitCode;
use std::{fs, io};
use uu_site::{enter, find_site, settings_text};
use uuspool::{CommandLine, Settings, Task, batch_settings, line_of};

fn main(rt: HostRuntime) -> ExitCode {
    match run(&rt) {
        Ok(status) => ExitCode::from(status),
        Err(trouble) => {
            print_trouble(&rt, &trouble);
            ExitCode::from(trouble.status())
        }
    }
}

// Does what the words ask for.
fn run(rt: &HostRuntime) -> Result<u8, Trouble> {
    let words = words_of(rt)?;
    if batch_settings(&words).is_some() {
        return run_batch(rt, config_before(&words).0);
    }
    let (config, line) = config_before(&words);
    match line {
        [word] if word.as_str() == "init" => run_init(rt, config),
        [word] if word.as_str() == "site" => run_site(rt, config),
        [word] if word.as_str() == "vacuum" => run_vacuum(rt, config),
        [word, given @ ..] if word.as_str() == "renumber" => run_renumber(rt, config, given),
        _ => run_line(rt, &words),
    }
}

// The file of `-c`, if the words begin with it, and the words after it.
fn config_before(words: &[String]) -> (Option<&str>, &[String]) {
    match words {
        [option, file, line @ ..] if option.as_str() == "-c" => (Some(file.as_str()), line),
        _ => (None, words),
    }
}

// Answers the requests on standard input.
fn run_batch(rt: &HostRuntime, config: Option<&str>) -> Result<u8, Trouble> {
    let settings = enter_site(rt, config)?;
    serve_batch(rt, &settings)
}

// Makes the spool.
fn run_init(rt: &HostRuntime, config: Option<&str>) -> Result<u8, Trouble> {
    let settings = enter_site(rt, config)?;
    make_spool(rt, &settings)
}

// Gives back the room that the spool's file no longer needs.
fn run_vacuum(rt: &HostRuntime, config: Option<&str>) -> Result<u8, Trouble> {
    let settings = enter_site(rt, config)?;
    vacuum(rt, &settings)
}

// The next job gets the number that is given, or a later one.
fn run_renumber(rt: &HostRuntime, config: Option<&str>, given: &[String]) -> Result<u8, Trouble> {
    let number = number_of(rt, given)?;
    let settings = enter_site(rt, config)?;
    renumber(rt, &settings, number)
}

// Prints what the site is. Who asks need not be able to enter its folder.
fn run_site(rt: &HostRuntime, config: Option<&str>) -> Result<u8, Trouble> {
    let site = find_site(rt, config)?;
    let text = settings_text(rt, &site)?;
    let settings = settings_in(rt, &site, text.as_str())?;
    tell_site(rt, &site, &settings, text.as_str())
}

// Serves the line that these words mean. The name of the site needs no spool.
fn run_line(rt: &HostRuntime, words: &[String]) -> Result<u8, Trouble> {
    let line = match line_of(rt.alloc(), words) {
        Ok(line) => line,
        Err(fault) => return Err(line_trouble(rt, words, fault)),
    };
    if matches!(line.task, Task::Name) {
        let config = line.config;
        return run_name(rt, config_of(&config));
    }
    match enter_site(rt, config_of(&line.config)) {
        Ok(settings) => serve_opened(rt, settings, words, line),
        Err(trouble) => {
            drop(line);
            Err(trouble)
        }
    }
}

// Serves a line of these words, whose bundles are opened and sealed if its neighbour has keys.
fn serve_opened(
    rt: &HostRuntime,
    settings: Settings,
    words: &[String],
    line: CommandLine,
) -> Result<u8, Trouble> {
    let (settings, folder) = take_seals(settings);
    match sealing_for(rt, &settings, &folder, &line.task) {
        Ok(sealing) => serve_words(rt, &settings, &sealing, words, line),
        Err(trouble) => {
            drop(line);
            Err(trouble)
        }
    }
}

// Prints the name of the site.
fn run_name(rt: &HostRuntime, config: Option<&str>) -> Result<u8, Trouble> {
    let site = find_site(rt, config)?;
    let settings = settings_of(rt, &site)?;
    tell_name(rt, &settings)
}

// The path of `-c`, if a line has one.
fn config_of(config: &Option<String>) -> Option<&str> {
    match config {
        Some(path) => Some(path.as_str()),
        None => None,
    }
}

// The settings of the site. From then on relative paths start in its folder.
fn enter_site(rt: &HostRuntime, config: Option<&str>) -> Result<Settings, Trouble> {
    let site = find_site(rt, config)?;
    let settings = settings_of(rt, &site)?;
    enter(rt, &site)?;
    Ok(settings)
}

/// The most bytes of a log that a line leaves beside the spool's file. An opening reads the log
/// whole.
const LOG_LIMIT: u64 = 262_144;

// Whether the log of the spool at this path is longer than `LOG_LIMIT`. If its length can't be
// read, it counts as short.
fn is_log_long(rt: &HostRuntime, path: &str) -> bool {
    match log_length(rt, path) {
        Ok(length) => length > LOG_LIMIT,
        Err(_) => false,
    }
}

// The bytes of the log, which is beside the file to which a link may lead.
fn log_length(rt: &HostRuntime, path: &str) -> io::Result<u64> {
    let file = fs::canonicalize(rt, path)?;
    let name = file.as_str();
    let log = format!(in rt.alloc(); "{name}-wal")?;
    Ok(fs::metadata(rt, log.as_str())?.len())
}
