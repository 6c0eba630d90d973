// Worked answers of single decisions: what is refused, how long a system is left alone, and what is
// due.
use crate::expecting::{expect_same, expect_text};
use crate::values::{
    SUNDAY, all_week, by, file, grade, moment, new_job, office, resting, site, word,
};
use std::alloc::{AllocError, Global};
use std::fmt::Write;
use std::process::Abort;
use uu_core::{
    CallState, Due, JobHead, Outcome, Refusal, SystemRow, choose, decide_done, decide_drop,
    decide_failed, decide_job, decide_queue, held, limit,
};
use uu_times::SystemDef;

// A system that may be called all week for jobs of this grade and higher grades.
fn system(
    rt: &impl Abort,
    alloc: Global,
    name: &str,
    grade: u8,
    retry: Option<u32>,
    max_retries: u32,
) -> SystemRow {
    never_called(all_week(rt, alloc, name, grade, retry, max_retries))
}

fn never_called(def: SystemDef) -> SystemRow {
    let call = CallState {
        last: 0,
        failures: 0,
        wait: 0,
        outcome: Outcome::Never,
    };
    SystemRow { def, call }
}

fn job(rt: &impl Abort, alloc: Global, number: u32, system: &str, byte: u8) -> JobHead {
    JobHead {
        number,
        system: site(rt, alloc, system),
        grade: grade(rt, byte),
        user: word(rt, alloc, "ann"),
        kind: file(rt, alloc),
        queued: SUNDAY,
        size: 0,
    }
}

/// Jobs, each with its number, system and grade.
type Jobs = &'static [(u32, &'static str, u8)];

fn jobs(rt: &impl Abort, alloc: Global, rows: Jobs) -> Vec<JobHead> {
    let mut jobs = Vec::new(alloc);
    for (number, system, grade) in rows {
        let job = job(rt, alloc, *number, system, *grade);
        jobs.push(job).expect(rt, "memory");
    }
    jobs
}

/// Whether the system is defined, the next number, how many bytes are handed in, and the decision.
const HANDED_IN: [(bool, u32, usize, Result<u32, Refusal>); 7] = [
    (true, 1, 1_048_576, Ok(1)),
    (true, 2, 1_048_577, Err(Refusal::TooLarge)),
    (false, 2, 1_048_577, Err(Refusal::TooLarge)),
    (true, 2, 0, Ok(2)),
    (false, 2, 0, Err(Refusal::NoSystem)),
    (true, 4_294_967_294, 0, Ok(4_294_967_294)),
    (true, 4_294_967_295, 0, Err(Refusal::NumbersOut)),
];

#[test]
fn jobs_handed_in(rt: HostRuntime) {
    for (is_defined, next, size, want) in HANDED_IN.as_slice() {
        let job = new_job(&rt, rt.alloc(), "duke", b'N', *size);
        expect_same(&rt, &decide_queue(*is_defined, *next, &job), want);
    }
}

/// The success wait of duke, if it is known, the jobs that a call of it delivered, and its second
/// and wait, or why it is refused.
const CALLS: [(Option<u32>, &[u32], Result<(u64, u64), Refusal>); 9] = [
    (Some(600), &[1, 1], Err(Refusal::JobTwice)),
    (Some(600), &[1, 3], Err(Refusal::OtherSystem)),
    (Some(600), &[1, 4], Err(Refusal::NoJob)),
    (Some(600), &[1; 257], Err(Refusal::TooLarge)),
    (None, &[1; 257], Err(Refusal::TooLarge)),
    (None, &[1], Err(Refusal::NoSystem)),
    (Some(0), &[1], Ok((SUNDAY, 0))),
    (Some(600), &[1], Ok((SUNDAY, 600))),
    (Some(600), &[], Ok((SUNDAY, 600))),
];

fn second_and_wait(call: Result<CallState, Refusal>) -> Result<(u64, u64), Refusal> {
    let call = call?;
    Ok((call.last, call.wait))
}

fn done_decision(
    rt: &impl Abort,
    alloc: Global,
    success_wait: Option<u32>,
    numbers: &[u32],
) -> Result<(u64, u64), Refusal> {
    let name = site(rt, alloc, "duke");
    let jobs = jobs(rt, alloc, &[(1, "duke", b'N'), (3, "unc", b'N')]);
    let at = moment(rt, SUNDAY);
    let call = match success_wait {
        Some(seconds) => {
            let duke = never_called(resting(rt, alloc, "duke", seconds));
            decide_done(Some(&duke), &name, numbers, &jobs, &at)
        }
        None => decide_done(None, &name, numbers, &jobs, &at),
    };
    second_and_wait(call)
}

#[test]
fn jobs_of_a_call(rt: HostRuntime) {
    for (success_wait, numbers, want) in CALLS.as_slice() {
        let given = done_decision(&rt, rt.alloc(), *success_wait, numbers);
        expect_same(&rt, &given, want);
    }
}

/// Whether ann's job is there, a user who may or may not touch the jobs of others, and the
/// decision.
const TOUCHED: [(bool, &str, bool, Result<(), Refusal>); 6] = [
    (true, "bob", false, Err(Refusal::NotYours)),
    (true, "ann", false, Ok(())),
    (true, "root", true, Ok(())),
    (false, "bob", false, Err(Refusal::NoJob)),
    (false, "ann", false, Err(Refusal::NoJob)),
    (false, "root", true, Err(Refusal::NoJob)),
];

#[test]
fn owners_and_waiting_jobs(rt: HostRuntime) {
    let own = job(&rt, rt.alloc(), 1, "duke", b'N');
    for (is_there, user, admin, want) in TOUCHED.as_slice() {
        let by = by(&rt, rt.alloc(), user, *admin);
        expect_same(&rt, &decide_job(is_there.then_some(&own), &by), want);
    }
}

#[test]
fn systems_that_go(rt: HostRuntime) {
    expect_same(&rt, &decide_drop(true, true), &Err(Refusal::Busy));
    expect_same(&rt, &decide_drop(false, false), &Err(Refusal::NoSystem));
    expect_same(&rt, &decide_drop(true, false), &Ok(()));
}

fn fail(rt: &impl Abort, alloc: Global, system: &mut SystemRow, second: u64) {
    let why = word(rt, alloc, "busy");
    let call = decide_failed(Some(&*system), &moment(rt, second), why);
    system.call = call.expect(rt, "a system");
}

// The call state of a system whose calls failed at these seconds.
fn failed(
    rt: &impl Abort,
    alloc: Global,
    retry: Option<u32>,
    max_retries: u32,
    seconds: &[u64],
) -> CallState {
    let mut system = system(rt, alloc, "duke", b'z', retry, max_retries);
    for second in seconds {
        fail(rt, alloc, &mut system, *second);
    }
    system.call
}

/// A retry number and a most number of retries, the seconds of failed calls, and the wait after
/// them.
const WAITS: [(Option<u32>, u32, &[u64], u64); 11] = [
    (None, 26, &[SUNDAY; 1], 600),
    (None, 26, &[SUNDAY; 2], 1200),
    (None, 26, &[SUNDAY; 3], 2400),
    (None, 26, &[SUNDAY; 4], 4800),
    (None, 26, &[SUNDAY; 5], 9600),
    (None, 26, &[SUNDAY; 6], 19_200),
    (None, 26, &[SUNDAY; 7], 38_400),
    (None, 26, &[SUNDAY; 8], 76_800),
    (None, 26, &[SUNDAY; 9], 86_400),
    (Some(30), 2, &[SUNDAY], 1800),
    (Some(30), 2, &[SUNDAY, 1_000_116_000], 86_400),
];

#[test]
fn waits_double_up_to_a_day(rt: HostRuntime) {
    for (retry, most, seconds, wait) in WAITS.as_slice() {
        let call = failed(&rt, rt.alloc(), *retry, *most, seconds);
        expect_same(&rt, &(call.failures as usize), &seconds.len());
        expect_same(&rt, &call.wait, wait);
    }
}

/// Seconds, and whether a system is left alone then. Its last call failed at 1,000,116,000, and it
/// is left alone for a day.
const HELD: [(u64, bool); 4] = [
    (1_000_116_000, true),
    (1_000_202_399, true),
    (1_000_202_400, false),
    (1_000_115_999, false),
];

#[test]
fn systems_left_alone(rt: HostRuntime) {
    let seconds = [SUNDAY, 1_000_116_000];
    let call = failed(&rt, rt.alloc(), Some(30), 2, seconds.as_slice());
    for (second, want) in HELD.as_slice() {
        expect_same(&rt, &held(&call, &moment(&rt, *second)), want);
    }
}

const FOUR_JOBS: Jobs = &[
    (1, "duke", b'a'),
    (2, "duke", b'B'),
    (3, "unc", b'z'),
    (4, "unc", b'9'),
];

const THREE_JOBS: Jobs = &[(1, "duke", b'a'), (3, "unc", b'z'), (4, "unc", b'9')];

/// Whether a call of unc failed on Sunday, the jobs, a second, and which systems are called.
type Chosen = (bool, Jobs, u64, &'static str);

const CHOSEN: [Chosen; 6] = [
    (false, FOUR_JOBS, SUNDAY, "unc 9 4/duke B 2/"),
    (true, FOUR_JOBS, SUNDAY, "duke B 2/"),
    (true, THREE_JOBS, SUNDAY, ""),
    (true, THREE_JOBS, SUNDAY + 600, "unc 9 4/"),
    // Of two jobs of one grade the lower number, and a capital before a small letter.
    (
        false,
        &[(7, "duke", b'B'), (5, "duke", b'B')],
        SUNDAY,
        "duke B 5/",
    ),
    (
        false,
        &[(1, "unc", b'a'), (2, "unc", b'Z')],
        SUNDAY,
        "unc Z 2/",
    ),
];

// Duke may be called for grade C and higher ones, unc for each grade.
fn two_systems(rt: &impl Abort, alloc: Global, unc_failed: bool) -> Vec<SystemRow> {
    let duke = system(rt, alloc, "duke", b'C', None, 26);
    let mut unc = system(rt, alloc, "unc", b'z', None, 26);
    if unc_failed {
        fail(rt, alloc, &mut unc, SUNDAY);
    }
    (vec![in alloc; duke, unc]).expect(rt, "memory")
}

fn show_due(text: &mut String, due: &Due) -> Result<(), AllocError> {
    let grade = due.grade.as_byte() as char;
    write!(text, "{} {} {}/", due.system.as_str(), grade, due.number)
}

// Which systems are called: system, grade and job of each.
fn show_dues(alloc: Global, dues: Result<Vec<Due>, AllocError>) -> Result<String, AllocError> {
    let mut text = String::new(alloc);
    for due in &dues? {
        show_due(&mut text, due)?;
    }
    Ok(text)
}

fn expect_chosen(rt: &impl Abort, alloc: Global, row: &Chosen) {
    let (unc_failed, jobs_of_row, second, want) = *row;
    let systems = two_systems(rt, alloc, unc_failed);
    let jobs = jobs(rt, alloc, jobs_of_row);
    let dues = choose(alloc, &systems, &jobs, &moment(rt, second));
    expect_text(rt, show_dues(alloc, dues), want);
}

#[test]
fn systems_called_now(rt: HostRuntime) {
    for row in CHOSEN.as_slice() {
        expect_chosen(&rt, rt.alloc(), row);
    }
}

// The lowest grade for which a system may be called on Monday at 10:00, minute 2,040 of the week.
fn limit_on_monday(system: SystemDef) -> Option<u8> {
    let limit = limit(system.lines(), 2040)?;
    Some(limit.as_byte())
}

#[test]
fn the_lowest_grade_of_the_lines_is_the_limit(rt: HostRuntime) {
    let high = all_week(&rt, rt.alloc(), "duke", b'C', None, 26);
    expect_same(&rt, &limit_on_monday(high), &Some(b'C'));
    let office = office(&rt, rt.alloc(), "duke");
    expect_same(&rt, &limit_on_monday(office), &Some(b'z'));
}
