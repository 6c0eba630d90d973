//! The lines of a site's log: a function of a change and its answer.

ghost use Rattle.std.specs.Prelude.{◌≡◌, ◌≤◌, ◌++◌, IfOk, OnOk, codes, map};
ghost use Rattle.std.specs.List.{flat_map};
ghost use Rattle.std.specs.String.{string_bytes};
ghost use Rattle.uu_report.specs.Logs as spec;
ghost use Rattle.uu_report.specs.Reports.{IsMoment};

use crate::clock::moment_text;
use std::alloc::{AllocError, Global};
use uu_times::Zone;
use uu_times::moment::LAST_SECOND;

/// How an answer is to be read.
#[derive(Clone, Copy, Debug, PartialEq, Eq)]
pub enum Form {
    /// One line for the whole change.
    One,
    /// A line for each system that was defined.
    Load,
    /// A line for each map entry, of which those that were refused are logged.
    Map,
    /// Lines with the jobs that the system has, and those that it refuses.
    Settle,
    /// A line for each job of a bundle.
    Unpack,
}

/// A change that a line asked for.
#[derive(Debug, Drop)]
pub struct Change {
    /// The form of its answer.
    pub form: Form,
    /// The system, or `-`.
    pub system: String,
    /// The user who asked.
    pub user: String,
    /// The jobs that the words name.
    pub jobs: Vec<u32>,
    /// The words that asked for it.
    pub words: String,
}

/// What the site's clock shows at a second, as a line of the log begins.
pub fn log_moment(alloc: Global, zone: &Zone, second: u64) -> Result<String, AllocError>
    requires { second ≤ LAST_SECOND }
    ensures { IfOk result (λ text. IsMoment zone.now second (string_bytes text)) }
{
    moment_text(alloc, second, zone)
}

/// The lines of the log for a change that was answered with this output at this moment.
pub fn answered_lines(
    alloc: Global,
    moment: &str,
    change: &Change,
    output: &str,
) -> Result<Vec<u8>, AllocError>
    ensures { IfOk result (λ lines. lines.items ≡ spec.answered_lines moment.now change.now output.now) }
{
    let lines = lines_of(alloc, output)?;
    let parts = parts_lines(alloc, moment, change, &lines)?;
    if !parts.as_slice().is_empty() {
        return Ok(parts);
    }
    let words = words_of(alloc, first_line(change.form, &lines))?;
    one_lines(alloc, moment, change, &words)
}

/// The lines of the log for a change that ended so, with a line for each job that its words name.
pub fn ended_lines(
    alloc: Global,
    moment: &str,
    change: &Change,
    how: &str,
) -> Result<Vec<u8>, AllocError>
    ensures { IfOk result (λ lines. lines.items ≡ spec.ended_lines moment.now change.now how.now) }
{
    let jobs = change.jobs.as_slice();
    if jobs.is_empty() {
        return job_line(alloc, moment, change, how, "-");
    }
    let mut lines = Vec::new(alloc);
    for job in jobs {
        let number = format!(in alloc; "{job}")?;
        let line = job_line(alloc, moment, change, how, number.as_str())?;
        lines.extend_from_slice(&line)?;
    }
    Ok(lines)
}

// The lines of a text.
fn lines_of<'a>(alloc: Global, text: &'a str) -> Result<Vec<&'a str>, AllocError>
    ensures { IfOk result (λ lines. map (λ line. line.now) lines.items ≡ spec.lines_of text.now) }
{
    text.split('\n').collect(alloc)
}

// The words of a line.
fn words_of<'a>(alloc: Global, line: &'a str) -> Result<Vec<&'a str>, AllocError>
    ensures { IfOk result (λ words. map (λ word. word.now) words.items ≡ spec.words_of line.now) }
{
    line.split(' ').collect(alloc)
}

// The word at a place, empty beyond the last.
fn word_at<'a>(words: &[&'a str], place: usize) -> &'a str
    ensures { result.now ≡ spec.word_at (map (λ word. word.now) words.now) place }
{
    match words.get(place) {
        Some(word) => word,
        None => "",
    }
}

// The line of an answer that says how the whole change ended.
fn first_line<'a>(form: Form, lines: &[&'a str]) -> &'a str
    ensures { result.now ≡ spec.first_line form (map (λ line. line.now) lines.now) }
{
    match form {
        Form::Map => "",
        _ => word_at(lines, 0),
    }
}

// The lines for the lines of an answer.
fn parts_lines(
    alloc: Global,
    moment: &str,
    change: &Change,
    lines: &[&str],
) -> Result<Vec<u8>, AllocError>
    ensures { IfOk result (λ text. text.items ≡ flat_map (spec.part_lines moment.now change.now change.now.form) (map (λ line. line.now) lines.now)) }
{
    let mut text = Vec::new(alloc);
    for line in lines {
        let part = part_lines(alloc, moment, change, line)?;
        text.extend_from_slice(&part)?;
    }
    Ok(text)
}

// The lines for a line of an answer.
fn part_lines(
    alloc: Global,
    moment: &str,
    change: &Change,
    line: &str,
) -> Result<Vec<u8>, AllocError>
    ensures { IfOk result (λ text. text.items ≡ spec.part_lines moment.now change.now change.now.form line.now) }
{
    let words = words_of(alloc, line)?;
    match change.form {
        Form::One => Ok(Vec::new(alloc)),
        Form::Load => load_lines(alloc, moment, change, &words),
        Form::Map => map_lines(alloc, moment, change, &words),
        Form::Settle => settle_lines(alloc, moment, change, &words),
        Form::Unpack => unpack_lines(alloc, moment, change, &words),
    }
}

// The lines for an answer in one line.
fn one_lines(
    alloc: Global,
    moment: &str,
    change: &Change,
    words: &[&str],
) -> Result<Vec<u8>, AllocError>
    ensures { IfOk result (λ text. text.items ≡ spec.one_lines moment.now change.now (map (λ word. word.now) words.now)) }
{
    let first = word_at(words, 0);
    if first == "job" {
        job_line(alloc, moment, change, "done", word_at(words, 1))
    } else if first == "refused" {
        ended_lines(alloc, moment, change, word_at(words, 1))
    } else {
        ended_lines(alloc, moment, change, "done")
    }
}

// The lines for a line of the answer to `load`.
fn load_lines(
    alloc: Global,
    moment: &str,
    change: &Change,
    words: &[&str],
) -> Result<Vec<u8>, AllocError>
    ensures { IfOk result (λ text. text.items ≡ spec.load_lines moment.now change.now (map (λ word. word.now) words.now)) }
{
    if word_at(words, 1) == "done" {
        line_about(
            alloc,
            moment,
            change,
            word_at(words, 0),
            "-",
            "done",
            change.words.as_str(),
        )
    } else {
        Ok(Vec::new(alloc))
    }
}

// The lines for a line of the answer to `map`.
fn map_lines(
    alloc: Global,
    moment: &str,
    change: &Change,
    words: &[&str],
) -> Result<Vec<u8>, AllocError>
    ensures { IfOk result (λ text. text.items ≡ spec.map_lines moment.now change.now (map (λ word. word.now) words.now)) }
{
    if word_at(words, 2) == "refused" {
        job_line(alloc, moment, change, word_at(words, 3), "-")
    } else {
        Ok(Vec::new(alloc))
    }
}

// The lines for a line of the answer to `settle`.
fn settle_lines(
    alloc: Global,
    moment: &str,
    change: &Change,
    words: &[&str],
) -> Result<Vec<u8>, AllocError>
    ensures { IfOk result (λ text. text.items ≡ spec.settle_lines moment.now change.now (map (λ word. word.now) words.now)) }
{
    if word_at(words, 1) == "refused" {
        return job_line(alloc, moment, change, word_at(words, 3), word_at(words, 2));
    }
    match words {
        [] => Ok(Vec::new(alloc)),
        [_, jobs @ ..] => done_lines(alloc, moment, change, jobs),
    }
}

// The lines of jobs that are done.
fn done_lines(
    alloc: Global,
    moment: &str,
    change: &Change,
    jobs: &[&str],
) -> Result<Vec<u8>, AllocError>
    ensures { IfOk result (λ text. text.items ≡ flat_map (spec.job_line moment.now change.now (codes "done")) (map (λ job. job.now) jobs.now)) }
{
    let mut text = Vec::new(alloc);
    for job in jobs {
        let line = job_line(alloc, moment, change, "done", job)?;
        text.extend_from_slice(&line)?;
    }
    Ok(text)
}

// The lines for a line of the answer to `unpack`.
fn unpack_lines(
    alloc: Global,
    moment: &str,
    change: &Change,
    words: &[&str],
) -> Result<Vec<u8>, AllocError>
    ensures { IfOk result (λ text. text.items ≡ spec.unpack_lines moment.now change.now (map (λ word. word.now) words.now)) }
{
    let how = word_at(words, 1);
    let is_job = how == "job";
    if !is_job && how != "refused" {
        return Ok(Vec::new(alloc));
    }
    let under = words_under(alloc, change, word_at(words, 0))?;
    let (system, under) = (change.system.as_str(), under.as_str());
    if is_job {
        line_about(
            alloc,
            moment,
            change,
            system,
            word_at(words, 2),
            "done",
            under,
        )
    } else {
        line_about(alloc, moment, change, system, "-", word_at(words, 2), under)
    }
}

// The words of a change with the key of a neighbour's job.
fn words_under(alloc: Global, change: &Change, number: &str) -> Result<String, AllocError>
    ensures { IfOk result (λ words. string_bytes words ≡ spec.words_under change.now number.now) }
{
    let system = change.system.as_str();
    let words = change.words.as_str();
    if number == system {
        String::from_str(alloc, words)
    } else {
        format!(in alloc; "{words} --once={system}!{number}")
    }
}

// A line about a job of the system of the change.
fn job_line(
    alloc: Global,
    moment: &str,
    change: &Change,
    how: &str,
    job: &str,
) -> Result<Vec<u8>, AllocError>
    ensures { IfOk result (λ line. line.items ≡ spec.job_line moment.now change.now how.now job.now) }
{
    let (system, words) = (change.system.as_str(), change.words.as_str());
    line_about(alloc, moment, change, system, job, how, words)
}

// A line: the moment, the system, the user, the job, how it ended, and the words.
fn line_about(
    alloc: Global,
    moment: &str,
    change: &Change,
    system: &str,
    job: &str,
    how: &str,
    words: &str,
) -> Result<Vec<u8>, AllocError>
    ensures { IfOk result (λ line. line.items ≡ spec.line_about moment.now change.now system.now job.now how.now words.now) }
{
    let mut line = String::from_str(alloc, moment)?.into_bytes();
    push_field(&mut line, system)?;
    push_field(&mut line, change.user.as_str())?;
    push_field(&mut line, job)?;
    push_field(&mut line, how)?;
    line.push(b' ')?;
    push_shown(&mut line, words)?;
    line.push(b'\n')?;
    Ok(line)
}

// Adds a field, in which no space stands.
fn push_field(line: &mut Vec<u8>, text: &str) -> Result<(), AllocError>
    ensures { OnOk result (line.new.items ≡ line.old.items ++ spec.field text.now) }
{
    let bytes = text.as_bytes();
    line.push(b' ')?;
    for byte in bytes {
        line.push(shown_in_field(*byte))?;
    }
    Ok(())
}

// Adds a text as the log shows it.
fn push_shown(line: &mut Vec<u8>, text: &str) -> Result<(), AllocError>
    ensures { OnOk result (line.new.items ≡ line.old.items ++ map spec.shown text.now) }
{
    let bytes = text.as_bytes();
    for byte in bytes {
        line.push(shown(*byte))?;
    }
    Ok(())
}

// A byte as the log shows it in a field.
fn shown_in_field(byte: u8) -> u8
    ensures { result ≡ spec.shown_in_field byte }
{
    if byte == b' ' { b'-' } else { shown(byte) }
}

// A byte as the log shows it.
fn shown(byte: u8) -> u8
    ensures { result ≡ spec.shown byte }
{
    if b' ' <= byte && byte <= b'~' {
        byte
    } else {
        b'?'
    }
}
