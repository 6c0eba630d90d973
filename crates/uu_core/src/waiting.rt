// The lowest grade for which a system is called, and how long it is left alone after a failed call.
ghost use Rattle.std.specs.Prelude.{◌≡◌, ◌==◌, ◌&&◌, find, option_copied};
ghost use Rattle.uu_times.specs.Ranges.{holds};
ghost use Rattle.uu_core.specs.Waiting.{limit_at, line_at, one_more, growing_minutes, retry_minutes, wait_minutes, wait_after, is_held};

use crate::limits::MAX_FAILURES;
use crate::system::CallState;
use uu_names::Grade;
use uu_times::{Line, Moment, SystemDef};

/// The minutes of a day, which is the least wait after `max-retries` failures.
const DAY: u32 = 1440;

/// The lowest grade for which a system with these time lines is called at a minute of the week. It
/// is the grade of greatest rank among the lines whose windows contain the minute. `None` if no
/// line's windows do (Taylor UUCP 1.07 manual, `timegrade`).
pub fn limit(lines: &[Line], week: u16) -> Option<Grade>
    ensures { result ≡ limit_at lines.now week }
{
    let mut limit: Option<Grade> = None;
    for line in lines {
        if line.windows.contains(week) {
            limit = Some(match limit {
                Some(grade) => grade.max(line.grade),
                None => line.grade,
            });
        }
    }
    limit
}

/// Whether the system is left alone at a moment: its wait has begun and isn't over. A moment before
/// `last` never holds a system; there is one if the clock was set back (this project's choice).
pub fn held(call: &CallState, at: &Moment) -> bool
    ensures { result ≡ is_held call.now at.now.second }
{
    held_at(call, at.second)
}

// Whether the system is left alone at a second.
pub(crate) fn held_at(call: &CallState, second: u64) -> bool
    ensures { result ≡ is_held call.now second }
{
    call.last <= second && second - call.last < call.wait
}

// Among the lines whose windows contain the minute, the first of the lowest grade.
fn line_at(lines: &[Line], week: u16) -> Option<&Line>
    ensures { option_copied result ≡ line_at lines.now week }
{
    let lowest = limit(lines, week)?;
    first_of_grade(lines, week, lowest)
}

fn first_of_grade(lines: &[Line], week: u16, grade: Grade) -> Option<&Line>
    ensures { option_copied result ≡ find (λ line. holds line.windows week && line.grade == grade) lines.now }
{
    lines
        .iter()
        .find(|line| line.windows.contains(week) && line.grade == grade)
}

pub(crate) fn one_more(failures: u32) -> u32
    ensures { result ≡ one_more failures }
{
    failures.saturating_add(1).min(MAX_FAILURES)
}

fn growing_minutes(failures: u32) -> u32
    ensures { result ≡ growing_minutes failures }
{
    match failures {
        0 | 1 => 10,
        2 => 20,
        3 => 40,
        4 => 80,
        5 => 160,
        6 => 320,
        7 => 640,
        8 => 1280,
        _ => DAY,
    }
}

fn retry_minutes(lines: &[Line], week: u16, failures: u32) -> u32
    ensures { result ≡ retry_minutes lines.now week failures }
{
    line_at(lines, week)
        .and_then(|line| line.retry)
        .unwrap_or_else(|| growing_minutes(failures))
}

// The wait in seconds after so many failures, the last one at this minute of the week.
pub(crate) fn wait_after(def: &SystemDef, week: u16, failures: u32) -> u64
    ensures { result ≡ wait_after def.now week failures }
{
    let minutes = retry_minutes(def.lines.as_slice(), week, failures);
    let minutes = if failures >= def.max_retries {
        minutes.max(DAY)
    } else {
        minutes
    };
    60 * u64::from(minutes)
}
