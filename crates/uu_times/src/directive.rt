// What a line of a sys file says.
ghost use Rattle.std.specs.Prelude.{◌≡◌, ◌≤◌, ◌∷◌, Ok, Err, IfOk, IfSome};
ghost use Rattle.uu_times.specs.Directives.{value_behind, number_of, retry_of, system_directive, timed, time_directive, grade_of, timegrade_directive, retries_directive, success_wait_directive, timetable_directive, directive_of, line_says, IsValid};
ghost use Rattle.uu_names.specs.Grade.{lowest_grade};
ghost use Rattle.uu_times.specs.System.{IsRetry, most_success_wait};
ghost use Rattle.uu_times.specs.Fault.{AnswersUnlessMemory};
ghost use Rattle.uu_times.specs.Lines.{words_of};
ghost use Rattle.std.specs.Option.{option_copied};

use crate::lines::{next_word, one_or_two, one_word, uncommented};
use crate::system::{MAX_RETRIES_LIMIT, RETRY_LIMIT, SUCCESS_WAIT_LIMIT};
use crate::timetable::{Timetables, equals_in_any_case, is_table_name, key_of, time_of};
use crate::{Line, TimeFault, Windows};
use std::alloc::Global;
use uu_names::{Grade, NameFault, SiteName};

/// What a line of a sys file says.
#[derive(Drop)]
pub enum Directive {
    /// A system's section begins.
    Begin(SiteName),
    /// A time line.
    Time(Line),
    /// After so many failures in a row calls become rare.
    Retries(u32),
    /// After a successful call, the system is left alone for so many seconds.
    SuccessWait(u32),
    /// A timetable is defined; its name is in lower case.
    Table(SiteName, Windows),
    /// The line of this number has another keyword.
    Skip(u32),
}

/// The rank of the lowest grade, `z`.
const LOWEST: u8 = 61;

/// The most digits of a number.
const MAX_DIGITS: usize = 9;

// The number that a word is, if it is one within the limit.
fn number_of(limit: u32, text: &[u8]) -> Option<u32>
    requires { limit ≤ most_success_wait }
    ensures value { result ≡ number_of limit text.now }
    ensures bound { IfSome result (λ number. number ≤ limit) }
{
    if text.is_empty() || text.len() > MAX_DIGITS {
        return None;
    }
    let mut value = 0;
    for digit in text {
        if !digit.is_ascii_digit() {
            return None;
        }
        value = value * 10 + (*digit - b'0') as u32;
        if value > limit {
            return None;
        }
    }
    Some(value)
}

// The retry number of a time line.
fn retry_of(line: u32, text: Option<&[u8]>) -> Result<Option<u32>, TimeFault>
    ensures value { result ≡ retry_of line (option_copied text.entry) }
    ensures bound { IfOk result (λ retry. IfSome retry IsRetry) }
{
    match text {
        None => Ok(None),
        Some(text) => match number_of(RETRY_LIMIT, text) {
            None => Err(TimeFault::BadNumber(line)),
            Some(0) => Ok(None),
            Some(minutes) => Ok(Some(minutes)),
        },
    }
}

fn system_directive(alloc: Global, line: u32, arguments: &[u8]) -> Result<Directive, TimeFault>
    ensures value { AnswersUnlessMemory result (system_directive line (words_of arguments.now)) }
    ensures valid { IfOk result IsValid }
{
    let Some(name) = one_word(arguments) else {
        return Err(TimeFault::BadSystem(line));
    };
    match SiteName::from_bytes(alloc, name) {
        Ok(name) => Ok(Directive::Begin(name)),
        Err(NameFault::Memory) => Err(TimeFault::Memory),
        Err(_) => Err(TimeFault::BadSystem(line)),
    }
}

// A time line of a grade.
fn timed(
    alloc: Global,
    tables: &Timetables,
    line: u32,
    grade: Grade,
    string: &[u8],
    minutes: Option<&[u8]>,
) -> Result<Directive, TimeFault>
    ensures value { AnswersUnlessMemory result (timed tables.now line grade (string.now, option_copied minutes.entry)) }
    ensures valid { IfOk result IsValid }
{
    let windows = time_of(alloc, tables, line, string)?;
    let retry = retry_of(line, minutes)?;
    Ok(Directive::Time(Line {
        grade,
        windows,
        retry,
    }))
}

fn time_directive(
    alloc: Global,
    tables: &Timetables,
    line: u32,
    arguments: &[u8],
) -> Result<Directive, TimeFault>
    ensures value { AnswersUnlessMemory result (time_directive tables.now line (words_of arguments.now)) }
    ensures valid { IfOk result IsValid }
{
    let Some((string, minutes)) = one_or_two(arguments) else {
        return Err(TimeFault::BadWords(line));
    };
    timed(alloc, tables, line, lowest(), string, minutes)
}

/// The lowest grade, `z`.
pub(crate) fn lowest() -> Grade
    ensures { result ≡ lowest_grade }
{
    Grade::of_rank(LOWEST).unwrap()
}

fn grade_of(word: &[u8]) -> Option<Grade>
    ensures { result ≡ grade_of word.now }
{
    match word {
        [byte] => Grade::parse(*byte).ok(),
        _ => None,
    }
}

fn timegrade_directive(
    alloc: Global,
    tables: &Timetables,
    line: u32,
    arguments: &[u8],
) -> Result<Directive, TimeFault>
    ensures value { AnswersUnlessMemory result (timegrade_directive tables.now line (words_of arguments.now)) }
    ensures valid { IfOk result IsValid }
{
    let Some((grade, rest)) = next_word(arguments) else {
        return Err(TimeFault::BadWords(line));
    };
    let Some(grade) = grade_of(grade) else {
        return Err(TimeFault::BadWords(line));
    };
    let Some((string, minutes)) = one_or_two(rest) else {
        return Err(TimeFault::BadWords(line));
    };
    timed(alloc, tables, line, grade, string, minutes)
}

fn retries_directive(line: u32, arguments: &[u8]) -> Result<Directive, TimeFault>
    ensures value { result ≡ retries_directive line (words_of arguments.now) }
    ensures valid { IfOk result IsValid }
{
    let Some(text) = one_word(arguments) else {
        return Err(TimeFault::BadWords(line));
    };
    match number_of(MAX_RETRIES_LIMIT, text) {
        None => Err(TimeFault::BadNumber(line)),
        Some(number) => Ok(Directive::Retries(number)),
    }
}

fn success_wait_directive(line: u32, arguments: &[u8]) -> Result<Directive, TimeFault>
    ensures value { result ≡ success_wait_directive line (words_of arguments.now) }
    ensures valid { IfOk result IsValid }
{
    let Some(text) = one_word(arguments) else {
        return Err(TimeFault::BadWords(line));
    };
    match number_of(SUCCESS_WAIT_LIMIT, text) {
        None => Err(TimeFault::BadNumber(line)),
        Some(seconds) => Ok(Directive::SuccessWait(seconds)),
    }
}

fn timetable_directive(
    alloc: Global,
    tables: &Timetables,
    line: u32,
    arguments: &[u8],
) -> Result<Directive, TimeFault>
    ensures value { AnswersUnlessMemory result (timetable_directive tables.now line (words_of arguments.now)) }
    ensures valid { IfOk result IsValid }
{
    let Some((name, rest)) = next_word(arguments) else {
        return Err(TimeFault::BadWords(line));
    };
    let Some(string) = one_word(rest) else {
        return Err(TimeFault::BadWords(line));
    };
    if !is_table_name(name) {
        return Err(TimeFault::BadWords(line));
    }
    let windows = time_of(alloc, tables, line, string)?;
    let key = key_of(alloc, name)?;
    Ok(Directive::Table(key, windows))
}

// What a line with the keyword says.
#[tactic(auto, unfolding(crate::specs::Directives::directive_of))]
fn directive_of(
    alloc: Global,
    tables: &Timetables,
    line: u32,
    keyword: &[u8],
    arguments: &[u8],
) -> Result<Directive, TimeFault>
    ensures value { AnswersUnlessMemory result (directive_of tables.now line keyword.now (words_of arguments.now)) }
    ensures valid { IfOk result IsValid }
{
    if equals_in_any_case(keyword, b"system") {
        system_directive(alloc, line, arguments)
    } else if equals_in_any_case(keyword, b"time") {
        time_directive(alloc, tables, line, arguments)
    } else if equals_in_any_case(keyword, b"timegrade") {
        timegrade_directive(alloc, tables, line, arguments)
    } else if equals_in_any_case(keyword, b"max-retries") {
        retries_directive(line, arguments)
    } else if equals_in_any_case(keyword, b"success-wait") {
        success_wait_directive(line, arguments)
    } else if equals_in_any_case(keyword, b"timetable") {
        timetable_directive(alloc, tables, line, arguments)
    } else {
        Ok(Directive::Skip(line))
    }
}

/// What a joined line says, if it has words.
pub fn line_says(
    alloc: Global,
    tables: &Timetables,
    line: u32,
    text: &[u8],
) -> Result<Option<Directive>, TimeFault>
    ensures value { AnswersUnlessMemory result (line_says tables.now line text.now) }
    ensures valid { IfOk result (λ said. IfSome said IsValid) }
{
    let clean = uncommented(alloc, text)?;
    match next_word(&clean) {
        None => Ok(None),
        Some((keyword, arguments)) => {
            let directive = directive_of(alloc, tables, line, keyword, arguments)?;
            Ok(Some(directive))
        }
    }
}
