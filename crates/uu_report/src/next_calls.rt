//! The report of when systems can next be called.

ghost use Rattle.std.specs.Prelude.{◌≡◌, ◌≤◌, Some, IfOk, IfSome, All};
ghost use Rattle.std.specs.String.{string_bytes};
ghost use Rattle.uu_core.specs.NextCalls.{IsAhead, IsPollAhead};
ghost use Rattle.uu_report.specs.Reports.{IsNextCallLine, IsNextCallsReport, IsNextPollLine, IsNextPollsReport, IsTimeText, why_text};

use crate::clock::moment_text;
use crate::jobs::letter;
use std::alloc::{AllocError, Global};
use uu_core::{NextCall, NextPoll, Why};
use uu_times::Zone;
use uu_times::moment::LAST_SECOND;

/// The report of these calls, in their order, a line for each:
/// `SYSTEM GRADE NUMBER SECONDS MOMENT WHY`, or `SYSTEM GRADE NUMBER never WHY`. The seconds are
/// counted from the second `now` on. The moment is the site's local time.
pub fn next_calls_report(
    alloc: Global,
    calls: &[NextCall],
    now: u64,
    zone: &Zone,
) -> Result<Vec<u8>, AllocError>
    requires ahead { All (IsAhead now) calls.now }
    ensures { IfOk result (λ report. IsNextCallsReport zone.now now calls.now report.items) }
{
    let mut report = Vec::new(alloc);
    for call in calls {
        let line = next_call_line(alloc, call, now, zone)?;
        report.extend_from_slice(line.as_bytes())?;
    }
    Ok(report)
}

/// The report of these polls, in their order, a line for each: `SYSTEM - - SECONDS MOMENT WHY`, or
/// `SYSTEM - - never WHY`, as in [`next_calls_report`] without the job.
pub fn next_polls_report(
    alloc: Global,
    polls: &[NextPoll],
    now: u64,
    zone: &Zone,
) -> Result<Vec<u8>, AllocError>
    requires ahead { All (IsPollAhead now) polls.now }
    ensures { IfOk result (λ report. IsNextPollsReport zone.now now polls.now report.items) }
{
    let mut report = Vec::new(alloc);
    for poll in polls {
        let line = next_poll_line(alloc, poll, now, zone)?;
        report.extend_from_slice(line.as_bytes())?;
    }
    Ok(report)
}

// The line of one system, with a job or without one.
fn next_poll_line(
    alloc: Global,
    poll: &NextPoll,
    now: u64,
    zone: &Zone,
) -> Result<String, AllocError>
    requires ahead { IsPollAhead now poll.now }
    ensures { IfOk result (λ line. IsNextPollLine zone.now now poll.now (string_bytes line)) }
{
    let system = poll.system.as_str();
    let time = time_text(alloc, poll.second, now, zone)?;
    let why = why_text(poll.why);
    format!(in alloc; "{system} - - {time} {why}\n")
}

// The line of one system.
fn next_call_line(
    alloc: Global,
    call: &NextCall,
    now: u64,
    zone: &Zone,
) -> Result<String, AllocError>
    requires ahead { IsAhead now call.now }
    ensures { IfOk result (λ line. IsNextCallLine zone.now now call.now (string_bytes line)) }
{
    let system = call.system.as_str();
    let grade = letter(call.grade);
    let number = call.number;
    let time = time_text(alloc, call.second, now, zone)?;
    let why = why_text(call.why);
    format!(in alloc; "{system} {grade} {number} {time} {why}\n")
}

// In how many seconds and at which moment the call comes, or that it never comes.
fn time_text(
    alloc: Global,
    second: Option<u64>,
    now: u64,
    zone: &Zone,
) -> Result<String, AllocError>
    requires ahead { IfSome second (λ s. (now ≤ s) × (s ≤ LAST_SECOND)) }
    ensures { IfOk result (λ text. IsTimeText zone.now now second (string_bytes text)) }
{
    match second {
        Some(second) => coming_text(alloc, second, now, zone),
        None => String::from_str(alloc, "never"),
    }
}

// In how many seconds and at which moment a call comes.
fn coming_text(alloc: Global, second: u64, now: u64, zone: &Zone) -> Result<String, AllocError>
    requires from { now ≤ second }
    requires in_range { second ≤ LAST_SECOND }
    ensures { IfOk result (λ text. IsTimeText zone.now now (Some second) (string_bytes text)) }
{
    let seconds = second - now;
    let moment = moment_text(alloc, second, zone)?;
    format!(in alloc; "{seconds} {moment}")
}

// Why the system isn't called earlier, or that it is called now.
fn why_text(why: Why) -> &'static str
    ensures { result.now ≡ why_text why }
{
    match why {
        Why::Due => "due",
        Why::Held => "held",
        Why::Closed => "closed",
        Why::Grade => "grade",
    }
}
