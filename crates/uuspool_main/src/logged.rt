//! What the log of the site says about a line.

ghost use Rattle.std.specs.Prelude.{◌≤◌};

use crate::given::{line_words, second_of_clock};
use crate::stretch::Answer;
use std::alloc::{AllocError, Global};
use std::str;
use uu_report::{Change, Form, answered_lines, ended_lines, log_moment};
use uu_site::{Places, SiteFault, append_log};
use uu_times::moment::LAST_SECOND;
use uuspool::{CommandLine, Fault, Settings, Task, fault_status};

/// The change that this line asks for, of these words; `None` if it asks a question, which isn't in
/// the log.
pub(crate) fn change_of(
    alloc: Global,
    words: &[String],
    line: &CommandLine,
) -> Result<Option<Change>, AllocError> {
    let Some(form) = form_of(&line.task) else {
        return Ok(None);
    };
    Ok(Some(Change {
        form,
        system: String::from_str(alloc, system_of(&line.task))?,
        user: String::from_str(alloc, line.user.as_str())?,
        jobs: jobs_of(alloc, &line.task)?,
        words: words_for(alloc, words, &line.task)?,
    }))
}

// The form of the answer to a change.
fn form_of(task: &Task) -> Option<Form> {
    match task {
        Task::Load => Some(Form::Load),
        Task::Map => Some(Form::Map),
        Task::Settle { .. } => Some(Form::Settle),
        Task::Unpack { .. } => Some(Form::Unpack),
        Task::Drop { .. }
        | Task::Send { .. }
        | Task::Request { .. }
        | Task::Execute { .. }
        | Task::Mail { .. }
        | Task::Kill { .. }
        | Task::Regrade { .. }
        | Task::Rejuvenate { .. }
        | Task::Failed { .. }
        | Task::Done { .. }
        | Task::Forget { .. } => Some(Form::One),
        Task::List { .. }
        | Task::Show { .. }
        | Task::Due { .. }
        | Task::When { .. }
        | Task::Polls { .. }
        | Task::Queues { .. }
        | Task::Status
        | Task::Systems { .. }
        | Task::Pack { .. }
        | Task::Answer { .. }
        | Task::Neighbours { .. }
        | Task::Name
        | Task::Routes { .. } => None,
    }
}

// The system that a change is about, or `-`.
fn system_of(task: &Task) -> &str {
    match task {
        Task::Drop { system }
        | Task::Send { system, .. }
        | Task::Request { system, .. }
        | Task::Execute { system, .. }
        | Task::Mail { system, .. }
        | Task::Failed { system, .. }
        | Task::Done { system, .. }
        | Task::Forget { system, .. }
        | Task::Settle { system, .. } => system.as_str(),
        Task::Unpack { sender, .. } => sender.as_str(),
        _ => "-",
    }
}

// The jobs that a change is about, if its words name them.
fn jobs_of(alloc: Global, task: &Task) -> Result<Vec<u32>, AllocError> {
    match task {
        Task::Kill { job } | Task::Regrade { job, .. } | Task::Rejuvenate { job } => {
            Vec::from_slice(alloc, &[*job])
        }
        Task::Done { jobs, .. } => Vec::from_slice(alloc, jobs.as_slice()),
        _ => Ok(Vec::new(alloc)),
    }
}

// The words of the line. Those of `done` leave out the jobs, which have lines of their own, and a
// line with an answer in several lines has only its first one.
fn words_for(alloc: Global, words: &[String], task: &Task) -> Result<String, AllocError> {
    let words = line_words(words);
    match task {
        Task::Done { system, .. } => {
            let system = system.as_str();
            format!(in alloc; "done {system}")
        }
        Task::Load | Task::Settle { .. } | Task::Unpack { .. } => joined(alloc, first_of(words)),
        _ => joined(alloc, words),
    }
}

fn first_of(words: &[String]) -> &[String] {
    if words.is_empty() { words } else { &words[..1] }
}

fn joined(alloc: Global, words: &[String]) -> Result<String, AllocError> {
    let mut text = String::new(alloc);
    for word in words {
        if !text.is_empty() {
            text.push(' ')?;
        }
        text.push_str(word.as_str())?;
    }
    Ok(text)
}

/// Notes in the log that the spool was made.
pub(crate) fn log_init(
    rt: &HostRuntime,
    settings: &Settings,
    places: &Places,
) -> Result<(), SiteFault> {
    log_done(rt, settings, places, "init")
}

/// Notes in the log that the spool has a new file.
pub(crate) fn log_vacuum(
    rt: &HostRuntime,
    settings: &Settings,
    places: &Places,
) -> Result<(), SiteFault> {
    log_done(rt, settings, places, "vacuum")
}

/// Notes in the log that the next job gets this number, or a later one.
pub(crate) fn log_renumber(
    rt: &HostRuntime,
    settings: &Settings,
    places: &Places,
    number: u32,
) -> Result<(), SiteFault> {
    let words = format!(in rt.alloc(); "renumber {number}")?;
    log_done(rt, settings, places, words.as_str())
}

// Notes in the log that this was done, which no user asked for by name.
fn log_done(
    rt: &HostRuntime,
    settings: &Settings,
    places: &Places,
    words: &str,
) -> Result<(), SiteFault> {
    let change = change_of_site(rt.alloc(), words)?;
    let moment = log_moment(rt.alloc(), &settings.zone, log_second(rt))?;
    let lines = ended_lines(rt.alloc(), moment.as_str(), &change, "done")?;
    append_log(rt, places.log.as_str(), &lines)
}

fn change_of_site(alloc: Global, words: &str) -> Result<Change, AllocError> {
    Ok(Change {
        form: Form::One,
        system: String::from_str(alloc, "-")?,
        user: String::from_str(alloc, "uucp")?,
        jobs: Vec::new(alloc),
        words: String::from_str(alloc, words)?,
    })
}

/// Notes a change with its answer in the log, unless its words or its input were faulty.
pub(crate) fn log_answer(
    rt: &HostRuntime,
    settings: &Settings,
    places: &Places,
    change: &Change,
    answer: &Answer,
) -> Result<(), SiteFault> {
    if is_of_words(&answer.end) {
        return Ok(());
    }
    let moment = log_moment(rt.alloc(), &settings.zone, log_second(rt))?;
    let lines = lines_for(rt.alloc(), moment.as_str(), change, answer)?;
    append_log(rt, places.log.as_str(), &lines)
}

// The lines of the log for a change with this answer.
fn lines_for(
    alloc: Global,
    moment: &str,
    change: &Change,
    answer: &Answer,
) -> Result<Vec<u8>, AllocError> {
    match &answer.end {
        Ok(_) => answered_lines(
            alloc,
            moment,
            change,
            str::from_utf8(&answer.output).unwrap_or(""),
        ),
        Err(fault) => {
            let how = format!(in alloc; "{fault}")?;
            ended_lines(alloc, moment, change, how.as_str())
        }
    }
}

// Whether a line ended with a fault of its words, its time or its input.
fn is_of_words(end: &Result<u8, Fault>) -> bool {
    match end {
        Ok(_) => false,
        Err(fault) => fault_status(fault) == 2,
    }
}

// The second of the clock, within the limit of a moment.
fn log_second(rt: &HostRuntime) -> u64
    ensures { result ≤ LAST_SECOND }
{
    match second_of_clock(rt) {
        Ok(second) => second.min(LAST_SECOND),
        Err(_) => 0,
    }
}

/// The first line of a text.
pub(crate) fn first_line(text: &str) -> &str {
    match text.split_once('\n') {
        Some((first, _)) => first,
        None => text,
    }
}
