// When each system can next be called, and for which job.
ghost use Rattle.std.specs.Prelude.{◌≡◌, ◌+◌, ◌*◌, ◌≤◌, ◌/◌, ◌&&◌, ◌==◌, not, nat_le, min, max, length, true, IfOk, IfSome, All, if◌then◌else◌};
ghost use Rattle.std.specs.Int.{div_ceil};
ghost use Rattle.std.specs.List.{list_any};
ghost use Rattle.uu_times.specs.Moment.{last_second};
ghost use Rattle.uu_times.specs.Ranges.{holds};
ghost use Rattle.uu_core.specs.Waiting.{limit_at, is_held};
ghost use Rattle.uu_core.specs.Due.{is_within};
ghost use Rattle.uu_core.specs.Order.{AreByName};
ghost use Rattle.uu_core.specs.NextCalls.{week_at, limit_by, limit_in, free_from, is_callable, is_looked_at, is_looked_at_before, looked_ahead, highest, IsLeast, IsGreatest, why_by, IsReason, IsToldOf, IsPollToldOf, AreNextCalls, AreNextPolls, IsAhead, IsInTime, IsPollAhead, turn_of, poll_turn, IsFirstOpen};

use crate::job::JobHead;
use crate::queue::{Sums, sums_by_system};
use crate::system::{CallState, SystemRow};
use crate::waiting::{held, held_at, limit};
use crate::weeks::{Weeks, moment_at};
use std::alloc::{AllocError, Global};
use uu_names::{Grade, SiteName};
use uu_times::moment::LAST_SECOND;
use uu_times::{Line, Moment, Zone};

/// How many seconds ahead are looked at: 28 days.
const LOOKED_AHEAD: u64 = 2_419_200;

/// Why a system is called for a job, or why not.
#[derive(Clone, Copy, Debug, PartialEq, Eq)]
pub enum Why {
    /// It may be called for the job now.
    Due,
    /// It is left alone after a call.
    Held,
    /// None of its time lines is open.
    Closed,
    /// Its open time lines are for higher grades.
    Grade,
}

/// When a system can next be called, and for which job.
#[derive(Debug, Drop)]
pub struct NextCall {
    /// The system.
    pub system: SiteName,
    /// The job's grade.
    pub grade: Grade,
    /// The job's number.
    pub number: u32,
    /// The first of the seconds looked at when the system may be called for the job, if there is
    /// one.
    pub second: Option<u64>,
    /// Why it isn't called for the job earlier: the reason that ends last, or `Due` if it may be
    /// called now.
    pub why: Why,
}

/// When a system can next be called, with a job or without one.
#[derive(Debug, Drop)]
pub struct NextPoll {
    /// The system.
    pub system: SiteName,
    /// The first of the seconds looked at when the system may be called for any grade, if there is
    /// one.
    pub second: Option<u64>,
    /// Why it isn't called earlier: the reason that ends last, or `Due` if it may be called now.
    pub why: Why,
}

// Whether the line is open at the minute of the week, and for this grade.
fn is_open_for(line: &Line, week: u16, grade: Grade) -> bool
    ensures { result ≡ (nat_le grade line.now.grade && holds line.now.windows week) }
{
    grade <= line.grade && line.windows.contains(week)
}

// Whether a line is open at the minute of the week, and for this grade.
fn is_one_open_for(lines: &[Line], week: u16, grade: Grade) -> bool
    ensures { result ≡ list_any (λ line. nat_le grade line.grade && holds line.windows week) lines.now }
{
    lines.iter().any(|line| is_open_for(line, week, grade))
}

// Whether the limit at the minute of the week reaches this grade.
fn reaches(lines: &[Line], week: u16, grade: Grade) -> bool
    ensures { result ≡ is_within (limit_at lines.now week) grade }
{
    is_one_open_for(lines, week, grade)
}

// Whether the line is for this grade, and open at any minute of the week.
fn is_for(line: &Line, grade: Grade) -> bool
    ensures { result ≡ (nat_le grade line.now.grade && not (length line.now.windows == 0)) }
{
    grade <= line.grade && !line.windows.ranges().is_empty()
}

// Whether a line is for this grade, and open at any minute of the week.
fn is_ever_open_for(lines: &[Line], grade: Grade) -> bool
    ensures { result ≡ list_any (λ line. nat_le grade line.grade && not (length line.windows == 0)) lines.now }
{
    lines.iter().any(|line| is_for(line, grade))
}

// Whether the system may be called for the grade at a second, which is in this minute of the week.
fn may_be_called(row: &SystemRow, grade: Grade, second: u64, week: u16) -> bool
    ensures { result ≡ is_within (limit_by row.now second week) grade }
{
    !held_at(&row.call, second) && reaches(row.def.lines.as_slice(), week, grade)
}

// The first of these minutes, counted from 1970-01-01 00:00 UTC, in whose first second the system
// may be called for the grade.
fn first_open(
    row: &SystemRow,
    grade: Grade,
    from: u64,
    end: u64,
    weeks: &mut Weeks<'_>,
) -> Result<Option<u64>, AllocError>
    requires first { weeks.old.first ≤ from }
    requires in_range { 60 * end ≤ last_second + 60 }
    ensures open { IfOk result (IsFirstOpen (λ minute. is_within (limit_in weeks.old.zone.now row.now (60 * minute)) grade) from end) }
    ensures zone { weeks.new.zone ≡ weeks.old.zone }
    ensures first { weeks.new.first ≡ weeks.old.first }
{
    for minute in from..end {
        let week = weeks.at(minute)?;
        if may_be_called(row, grade, 60 * minute, week) {
            return Ok(Some(60 * minute));
        }
    }
    Ok(None)
}

// The second, or the end of the system's wait if that is later.
fn free_from(call: &CallState, second: u64) -> u64
    ensures { result ≡ min (free_from call.now second) u64.MAX }
{
    call.last.saturating_add(call.wait).max(second)
}

// The first minute to look at: the next one, or, if the system is held, the first one after its
// wait, which ends at the second `free`.
fn first_minute(call: &CallState, now: u64, free: u64) -> u64
    ensures { result ≡ (if is_held call.now now then max (now / 60 + 1) (div_ceil free 60) else now / 60 + 1) }
{
    let next = now / 60 + 1;
    if held_at(call, now) {
        next.max(free.div_ceil(60))
    } else {
        next
    }
}

// The first of the seconds looked at when the system may be called for the grade.
fn next_second(
    row: &SystemRow,
    grade: Grade,
    at: &Moment,
    weeks: &mut Weeks<'_>,
) -> Result<Option<u64>, AllocError>
    requires week { at.now.week ≡ week_at weeks.old.zone.now at.now.second }
    requires first { weeks.old.first ≤ at.now.second / 60 + 1 }
    ensures second { IfOk result (IsLeast (is_callable weeks.old.zone.now row.now grade at.now.second)) }
    ensures zone { weeks.new.zone ≡ weeks.old.zone }
    ensures first { weeks.new.first ≡ weeks.old.first }
{
    let now = at.second;
    if may_be_called(row, grade, now, at.week) {
        return Ok(Some(now));
    }
    if !is_ever_open_for(row.def.lines.as_slice(), grade) {
        return Ok(None);
    }
    let free = free_from(&row.call, now).min(LAST_SECOND);
    let last = (free + LOOKED_AHEAD).min(LAST_SECOND);
    let from = first_minute(&row.call, now, free);
    first_open(row, grade, from, last / 60 + 1, weeks)
}

// The last second that may be looked at.
fn last_looked_at(call: &CallState, now: u64) -> u64
    requires { now ≤ last_second }
    ensures { result ≡ min (free_from call.now now + looked_ahead) last_second }
{
    let free = free_from(call, now).min(LAST_SECOND);
    (free + LOOKED_AHEAD).min(LAST_SECOND)
}

// The last of the seconds looked at before the next call: the minute before it, or the last of all
// if no call comes. It isn't before the present second.
fn last_before(call: &CallState, now: u64, next: Option<u64>) -> u64
    requires in_range { now ≤ last_second }
    requires looked_at { IfSome next (λ second. is_looked_at call.now now second ≡ true) }
    ensures last { IsGreatest (is_looked_at_before call.now now next) result }
    ensures in_range { result ≤ last_second }
{
    match next {
        Some(second) => now.max(second.saturating_sub(60)),
        None => now.max(last_looked_at(call, now) / 60 * 60),
    }
}

// Why the system is, or isn't, called for the grade at a second, which is in this minute of the
// week.
fn why_at(row: &SystemRow, grade: Grade, second: u64, week: u16) -> Why
    ensures { result ≡ why_by row.now grade second week }
{
    match limit(row.def.lines.as_slice(), week) {
        None => Why::Closed,
        Some(limit) if grade > limit => Why::Grade,
        Some(_) if held_at(&row.call, second) => Why::Held,
        Some(_) => Why::Due,
    }
}

// Why the system isn't called for the grade before its next call, or `Due` if it is called now.
fn reason(row: &SystemRow, grade: Grade, now: u64, next: Option<u64>, zone: &Zone) -> Why
    requires in_range { now ≤ last_second }
    requires least { IsLeast (is_callable zone.now row.now grade now) next }
    ensures { IsReason zone.now row.now grade now next result }
{
    let last = last_before(&row.call, now, next);
    why_at(row, grade, last, moment_at(last, zone).week)
}

// When a system can next be called, if its jobs have these sums.
fn next_call(
    alloc: Global,
    row: &SystemRow,
    sums: &Sums,
    at: &Moment,
    weeks: &mut Weeks<'_>,
) -> Result<NextCall, AllocError>
    requires in_range { at.now.second ≤ last_second }
    requires week { at.now.week ≡ week_at weeks.old.zone.now at.now.second }
    requires first { weeks.old.first ≤ at.now.second / 60 + 1 }
    ensures told { IfOk result (IsToldOf weeks.old.zone.now row.now at.now.second) }
    ensures grade { IfOk result (λ call. call.grade ≡ sums.now.grade) }
    ensures number { IfOk result (λ call. call.number ≡ sums.now.number) }
    ensures zone { weeks.new.zone ≡ weeks.old.zone }
    ensures first { weeks.new.first ≡ weeks.old.first }
{
    let system = row.def.name.clone()?;
    let second = next_second(row, sums.grade, at, weeks)?;
    Ok(NextCall {
        system,
        grade: sums.grade,
        number: sums.number,
        second,
        why: reason(row, sums.grade, at.second, second, weeks.zone),
    })
}

// When a system can next be called for the highest grade.
fn next_poll(row: &SystemRow, at: &Moment, weeks: &mut Weeks<'_>) -> Result<NextPoll, AllocError>
    requires in_range { at.now.second ≤ last_second }
    requires week { at.now.week ≡ week_at weeks.old.zone.now at.now.second }
    requires first { weeks.old.first ≤ at.now.second / 60 + 1 }
    ensures told { IfOk result (IsPollToldOf weeks.old.zone.now row.now at.now.second) }
    ensures zone { weeks.new.zone ≡ weeks.old.zone }
    ensures first { weeks.new.first ≡ weeks.old.first }
{
    let system = row.def.name.clone()?;
    let grade = Grade::of_rank(0).unwrap();
    let second = next_second(row, grade, at, weeks)?;
    Ok(NextPoll {
        system,
        second,
        why: reason(row, grade, at.second, second, weeks.zone),
    })
}

// The key by which calls are sorted: the second, then the job's grade and number. Those that never
// come are last.
fn turn(call: &NextCall) -> (u64, u8, u32)
    ensures { result ≡ turn_of call.now }
{
    match call.second {
        Some(second) => (second, call.grade.rank(), call.number),
        None => (u64::MAX, 0, 0),
    }
}

/// For each system that has a job: when it can next be called, from the second `now` on, for the
/// first of its jobs by grade and number. It also says why not before. Of several reasons it is the
/// one that ends last, which is the reason at the last second before the call.
///
/// The seconds looked at are `now` and each later whole minute of UTC, up to 28 days after `now`.
/// If the system's wait ends after `now`, they go up to 28 days after that end. None is after the
/// last moment. The calls are in order of their seconds, then by grade and number. Systems that
/// can't be called at any of these seconds come last, in order of the bytes of their names.
///
/// The systems have to be in order of the bytes of their names, no two with the same name, as in
/// every spool.
///
/// The cost is a look-up for each job and system, and one sort. If a system can't be called at
/// once, but has a line for the job that is open at some time, its time lines are looked at for
/// each minute up to its next call. The clock's rule is used once for each minute from `now` to the
/// last one looked at, with two bytes kept for each, and once more for each system.
pub fn next_calls(
    alloc: Global,
    rows: &[SystemRow],
    jobs: &[JobHead],
    now: u64,
    zone: &Zone,
) -> Result<Vec<NextCall>, AllocError>
    requires { now ≤ last_second }
    ensures calls { IfOk result (λ calls. AreByName (λ row. row.def.name) rows.now → AreNextCalls zone.now rows.now jobs.now now calls.items) }
    ensures ahead { IfOk result (λ calls. All (IsAhead now) calls.items) }
{
    let by_system = sums_by_system(alloc, jobs)?;
    let at = moment_at(now, zone);
    let mut weeks = Weeks::from_minute(alloc, zone, now / 60 + 1);
    let mut calls = Vec::new(alloc);
    for row in rows {
        if let Some(sums) = by_system.get(&row.def.name) {
            calls.push(next_call(alloc, row, sums, &at, &mut weeks)?)?;
        }
    }
    // The sort is stable, so the systems that are never called stay in the order of their names.
    calls.sort_by_key(|call| turn(call))?;
    Ok(calls)
}

// The key by which polls are sorted: the second. Those that never come are last.
fn turn_of_poll(poll: &NextPoll) -> u64
    ensures { result ≡ poll_turn poll.now }
{
    match poll.second {
        Some(second) => second,
        None => u64::MAX,
    }
}

/// For each of these systems: when it can next be called, from the second `now` on, with a job or
/// without one. That is when it can be called for the highest grade, and so for any grade at all.
/// It also says why not before, as [`next_calls`] does.
///
/// The seconds looked at are those of [`next_calls`]. The polls are in order of their seconds, then
/// of the bytes of the names. Systems that can't be called at any of these seconds come last.
///
/// The systems have to be in order of the bytes of their names, no two with the same name, as in
/// every spool. The cost is that of [`next_calls`].
pub fn next_polls(
    alloc: Global,
    rows: &[SystemRow],
    now: u64,
    zone: &Zone,
) -> Result<Vec<NextPoll>, AllocError>
    requires { now ≤ last_second }
    ensures polls { IfOk result (λ polls. AreByName (λ row. row.def.name) rows.now → AreNextPolls zone.now rows.now now polls.items) }
    ensures ahead { IfOk result (λ polls. All (IsPollAhead now) polls.items) }
{
    let at = moment_at(now, zone);
    let mut weeks = Weeks::from_minute(alloc, zone, now / 60 + 1);
    let mut polls = Vec::new(alloc);
    for row in rows {
        polls.push(next_poll(row, &at, &mut weeks)?)?;
    }
    // The sort is stable, so the polls of one second stay in the order of the names.
    polls.sort_by_key(|poll| turn_of_poll(poll))?;
    Ok(polls)
}
