// Whether a command is accepted, decided from the rows concerned.
ghost use Rattle.std.specs.Prelude.{◌≡◌, ◌==◌, [], is_some, option_copied};
ghost use Rattle.std.specs.List.{list_any};
ghost use Rattle.uu_core.specs.Refusal.{decided};
ghost use Rattle.uu_core.specs.Verdict.{remove_reasons, queue_reasons, once_reasons, fresh_reasons, key_under, known_reasons, job_reasons, has_many_arguments, is_too_large, may_touch, has_repeat, has_number, is_missing_one, has_other, done_reasons};
ghost use Rattle.uu_core.specs.After.{failed_decision, done_call_of, hand_in_of};

use crate::custody::{HandIn, Key, Mark, Taken};
use crate::job::{By, JobHead, Kind, NewJob};
use crate::limits::{MAX_ARGUMENTS, MAX_BYTES, MAX_DONE, NUMBERS_END};
use crate::refusal::Refusal;
use crate::system::{CallState, Outcome, SystemRow};
use crate::waiting::{one_more, wait_after};
use uu_names::{SiteName, Word};
use uu_times::Moment;

/// Whether a system may be removed. `known` says whether it is known, and `waiting` whether a job
/// waits for it.
///
/// # Errors
/// [`Refusal::NoSystem`] if it isn't known. Otherwise [`Refusal::Busy`] if a job waits for it.
pub fn decide_drop(known: bool, waiting: bool) -> Result<(), Refusal>
    ensures { result ≡ decided (remove_reasons known waiting) tt }
{
    if !known {
        Err(Refusal::NoSystem)
    } else if waiting {
        Err(Refusal::Busy)
    } else {
        Ok(())
    }
}

fn has_many_arguments(kind: &Kind) -> bool
    ensures { result ≡ has_many_arguments kind.now }
{
    match kind {
        Kind::Execute { arguments, .. } => arguments.as_slice().len() > MAX_ARGUMENTS,
        Kind::Send { .. } | Kind::Request { .. } => false,
    }
}

fn is_too_large(job: &NewJob) -> bool
    ensures { result ≡ is_too_large job.now }
{
    job.bytes.as_slice().len() > MAX_BYTES as usize || has_many_arguments(&job.kind)
}

/// The number of a job that is handed in. `known` says whether its system is known, and `next` is
/// the next number.
///
/// # Errors
/// In this order: [`Refusal::TooLarge`] if the job has more than 1,048,576 bytes or 64 arguments,
/// [`Refusal::NoSystem`] if its system isn't known, and [`Refusal::NumbersOut`] if `next` is
/// 4,294,967,295.
pub fn decide_queue(known: bool, next: u32, job: &NewJob) -> Result<u32, Refusal>
    ensures { result ≡ decided (queue_reasons known next job.now) next }
{
    if is_too_large(job) {
        Err(Refusal::TooLarge)
    } else if !known {
        Err(Refusal::NoSystem)
    } else if next == NUMBERS_END {
        Err(Refusal::NumbersOut)
    } else {
        Ok(next)
    }
}

/// The result for a job that a neighbour hands on under a key. `known` says whether the neighbour
/// and the job's system are both known, and `next` is the next number. The neighbour won't ask
/// again for a number less than `below`. `taken` is what was taken from it under the key's number.
///
/// # Errors
/// None if the same job was taken before. Otherwise, in this order: the errors of [`decide_queue`],
/// [`Refusal::Stale`] if the key's number is less than `below`, and [`Refusal::Differs`] if another
/// job was taken.
pub fn decide_queue_once(
    known: bool,
    next: u32,
    below: u32,
    taken: Option<Taken>,
    key: &Key,
    job: &NewJob,
) -> Result<HandIn, Refusal>
    ensures { result ≡ decided (once_reasons known next below taken key.now job.now) (hand_in_of taken key.now next) }
{
    decide_under(known, next, below, taken, key.number, key.mark, job)
}

// The same from the key's number and mark: the neighbour's name doesn't matter.
pub(crate) fn decide_under(
    known: bool,
    next: u32,
    below: u32,
    taken: Option<Taken>,
    number: u32,
    mark: Mark,
    job: &NewJob,
) -> Result<HandIn, Refusal>
    ensures { result ≡ decided (once_reasons known next below taken (key_under [] number mark) job.now) (hand_in_of taken (key_under [] number mark) next) }
{
    match taken {
        Some(taken) if taken.mark == mark => Ok(HandIn::Again(taken.job)),
        Some(_) => decide_first(known, next, below, true, number, job),
        None => decide_first(known, next, below, false, number, job),
    }
}

// The same if the job comes for the first time. Another job was taken under its number or not.
fn decide_first(
    known: bool,
    next: u32,
    below: u32,
    other: bool,
    number: u32,
    job: &NewJob,
) -> Result<HandIn, Refusal>
    ensures { result ≡ decided (fresh_reasons known next below other (key_under [] number 0) job.now) (HandIn.First next) }
{
    match decide_queue(known, next, job) {
        Err(refusal) => Err(refusal),
        Ok(_) if number < below => Err(Refusal::Stale),
        Ok(_) if other => Err(Refusal::Differs),
        Ok(next) => Ok(HandIn::First(next)),
    }
}

/// Whether a system may say that it won't ask again for some jobs. `known` says whether it is
/// known.
///
/// # Errors
/// [`Refusal::NoSystem`] if it isn't known.
pub fn decide_forget(known: bool) -> Result<(), Refusal>
    ensures { result ≡ decided (known_reasons known) tt }
{
    if known {
        Ok(())
    } else {
        Err(Refusal::NoSystem)
    }
}

fn may_touch(by: &By, job: &JobHead) -> bool
    ensures { result ≡ may_touch by.now job.now }
{
    by.admin || by.user == job.user
}

/// Whether the job of a number, if there is one, may be killed, regraded or rejuvenated.
///
/// # Errors
/// [`Refusal::NoJob`] if there is no such job. [`Refusal::NotYours`] if it belongs to another user
/// and `by` isn't an administrator.
pub fn decide_job(job: Option<&JobHead>, by: &By) -> Result<(), Refusal>
    ensures { result ≡ decided (job_reasons (option_copied job.entry) by.now) tt }
{
    match job {
        None => Err(Refusal::NoJob),
        Some(job) if may_touch(by, job) => Ok(()),
        Some(_) => Err(Refusal::NotYours),
    }
}

/// The calls of a system, if it is known, after a call that failed at this moment for this reason.
///
/// # Errors
/// [`Refusal::NoSystem`] if it isn't known.
pub fn decide_failed(
    system: Option<&SystemRow>,
    at: &Moment,
    why: Word,
) -> Result<CallState, Refusal>
    ensures { result ≡ failed_decision (option_copied system.entry) at.now why }
{
    let Some(row) = system else {
        return Err(Refusal::NoSystem);
    };
    let failures = one_more(row.call.failures);
    Ok(CallState {
        last: at.second,
        failures,
        wait: wait_after(&row.def, at.week, failures),
        outcome: Outcome::Failed(why),
    })
}

fn has_repeat(numbers: &[u32]) -> bool
    ensures { result ≡ has_repeat numbers.now }
{
    for (i, number) in numbers.iter().enumerate() {
        if numbers[i + 1..].contains(number) {
            return true;
        }
    }
    false
}

fn has_number(jobs: &[JobHead], number: u32) -> bool
    ensures { result ≡ has_number jobs.now number }
{
    jobs.iter().any(|job| job.number == number)
}

fn is_missing_one(numbers: &[u32], jobs: &[JobHead]) -> bool
    ensures { result ≡ is_missing_one numbers.now jobs.now }
{
    numbers.iter().any(|number| !has_number(jobs, *number))
}

fn is_among(numbers: &[u32], number: u32) -> bool
    ensures { result ≡ list_any (λ other. other == number) numbers.now }
{
    numbers.iter().any(|other| *other == number)
}

fn has_other(system: &SiteName, numbers: &[u32], jobs: &[JobHead]) -> bool
    ensures { result ≡ has_other system.now numbers.now jobs.now }
{
    jobs.iter().any(|job| is_among(numbers, job.number) && job.system != *system)
}

/// The calls of a system, if it is known, after a call at this moment that delivered the jobs of
/// these numbers. The system is left alone for its success wait. `found` has the jobs of the spool
/// with one of these numbers.
///
/// # Errors
/// In this order: [`Refusal::TooLarge`] if there are more than 256 numbers, [`Refusal::NoSystem`]
/// if the system isn't known, [`Refusal::NoJob`] if a number has no job, [`Refusal::JobTwice`] if a
/// number occurs twice, and [`Refusal::OtherSystem`] if one of the jobs waits for another system.
pub fn decide_done(
    system: Option<&SystemRow>,
    name: &SiteName,
    numbers: &[u32],
    found: &[JobHead],
    at: &Moment,
) -> Result<CallState, Refusal>
    ensures { result ≡ decided (done_reasons (is_some (option_copied system.entry)) name.now numbers.now found.now) (done_call_of (option_copied system.entry) at.now) }
{
    if numbers.len() > MAX_DONE {
        return Err(Refusal::TooLarge);
    }
    let Some(row) = system else {
        return Err(Refusal::NoSystem);
    };
    if is_missing_one(numbers, found) {
        Err(Refusal::NoJob)
    } else if has_repeat(numbers) {
        Err(Refusal::JobTwice)
    } else if has_other(name, numbers, found) {
        Err(Refusal::OtherSystem)
    } else {
        Ok(CallState {
            last: at.second,
            failures: 0,
            wait: u64::from(row.def.success_wait),
            outcome: Outcome::Done,
        })
    }
}
