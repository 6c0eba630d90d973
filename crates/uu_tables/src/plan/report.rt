// Reports of calls.
ghost use Rattle.std.specs.Prelude.{◌≡◌, ℕ, ◌≤◌, List, IfOk, IfSome, is_some, map, filter, option_copied};
ghost use Rattle.uu_core.specs.declared.command.Command.TheVariants.{Failed, Done, Release};
ghost use Rattle.uu_times.specs.System.{AreWithinLimits};
ghost use Rattle.uu_core.specs.State.{State, IsWellFormed, head_of, last_second, most_wait, system_at};
ghost use Rattle.uu_core.specs.declared.job.JobHead.{JobHead};
ghost use Rattle.uu_core.specs.Refusal.{decided};
ghost use Rattle.uu_core.specs.Verdict.{done_reasons};
ghost use Rattle.uu_core.specs.Laws.{AreFound};
ghost use Rattle.uu_core.specs.After.{failed_decision, done_call_of};
ghost use Rattle.uu_tables.specs.Tables.{Tables, call_columns, outcome_number, reason_of};
ghost use Rattle.uu_tables.specs.Changes.{applied};
ghost use Rattle.uu_tables.specs.Parts.{without_jobs};
ghost use Rattle.uu_tables.specs.Plans.{IsPlan, waits_under};

use super::{Plan, one_change, refused};
use crate::change::Change;
use crate::rows::{CALL_FAILED, CALL_MADE, CallColumns, NEVER_CALLED};
use std::alloc::{AllocError, Global};
use uu_core::laws::named_jobs_decide;
use uu_core::{CallState, JobHead, Outcome, Refusal, Reply, SystemRow, decide_done, decide_failed};
use uu_names::{SiteName, Word};
use uu_times::Moment;
use uu_times::laws::limits_are_kept;

// The number of an outcome, and the reason of one that failed.
fn outcome_columns(outcome: Outcome) -> (u32, Option<Word>)
    ensures { result ≡ (outcome_number outcome, reason_of outcome) }
{
    match outcome {
        Outcome::Never => (NEVER_CALLED, None),
        Outcome::Failed(why) => (CALL_FAILED, Some(why)),
        Outcome::Done => (CALL_MADE, None),
    }
}

// The columns of calls whose numbers are within their limits.
fn call_columns(call: CallState) -> CallColumns
    requires last { call.last ≤ last_second }
    requires wait { call.wait ≤ most_wait }
    ensures { result ≡ call_columns call }
{
    let (outcome, why) = outcome_columns(call.outcome);
    CallColumns {
        last: call.last as u32,
        failures: call.failures,
        wait: call.wait as u32,
        outcome,
        why,
    }
}

// A law: a known system's retry numbers and success wait are within their limits.
fn definitions_are_within_limits(row: Option<&SystemRow>)
    ensures { IfSome (option_copied row.entry) (λ row. AreWithinLimits row.def.lines row.def.max_retries row.def.success_wait) }
{
    if let Some(row) = row {
        limits_are_kept(&row.def);
    }
}

// The calls of a system, if it is known, after one that failed. Its wait is at most a year, because
// its retry numbers are.
fn failed_call(row: Option<&SystemRow>, at: &Moment, why: Word) -> Result<CallState, Refusal>
    ensures call { result ≡ failed_decision (option_copied row.entry) at.now why }
    ensures last { IfOk result (λ call. call.last ≤ last_second) }
    ensures wait { IfOk result (λ call. call.wait ≤ most_wait) }
{
    definitions_are_within_limits(row);
    decide_failed(row, at, why)
}

/// A call that failed: the system's calls change.
pub(crate) fn plan_failed<'a>(
    alloc: Global,
    row: Option<&SystemRow>,
    system: &'a SiteName,
    at: &Moment,
    why: &Word,
) -> Result<Plan<'a>, AllocError>
    ensures { (s : State) → IsWellFormed s → option_copied row.entry ≡ system_at s system.now → IfOk result (IsPlan s (Failed system.now at.now why.now)) }
{
    match failed_call(row, at, why.clone()?) {
        Ok(call) => {
            let call = call_columns(call);
            one_change(alloc, Change::SetCall { system, call })
        }
        Err(refusal) => Ok(refused(alloc, refusal)),
    }
}

// Adds the changes that remove the jobs of these numbers.
fn remove_jobs<'a>(changes: &mut Vec<Change<'a>>, numbers: &[u32]) -> Result<(), AllocError>
    ensures { IfOk result (λ _. (t : Tables) → applied changes.new.items t ≡ without_jobs numbers.now (applied changes.old.items t)) }
{
    for number in numbers {
        changes.push(Change::RemoveJob { number: *number })?;
    }
    Ok(())
}

// The calls of a system, if it is known, after one that delivered jobs. The jobs that were found
// decide as all jobs do, and its wait is at most a year.
fn done_call(
    row: Option<&SystemRow>,
    found: &[JobHead],
    system: &SiteName,
    at: &Moment,
    jobs: &[u32],
) -> Result<CallState, Refusal>
    ensures last { IfOk result (λ call. call.last ≤ last_second) }
    ensures wait { IfOk result (λ call. call.wait ≤ most_wait) }
    ensures call { (all : List JobHead) → AreFound jobs.now all found.now → result ≡ decided (done_reasons (is_some (option_copied row.entry)) system.now jobs.now all) (done_call_of (option_copied row.entry) at.now) }
{
    named_jobs_decide();
    definitions_are_within_limits(row);
    decide_done(row, system, jobs, found, at)
}

/// A call that delivered jobs: the system's calls change, and the jobs are removed.
pub(crate) fn plan_done<'a>(
    alloc: Global,
    row: Option<&SystemRow>,
    found: &[JobHead],
    system: &'a SiteName,
    at: &Moment,
    jobs: &[u32],
) -> Result<Plan<'a>, AllocError>
    ensures { (s : State) → IsWellFormed s → option_copied row.entry ≡ system_at s system.now → AreFound jobs.now (map head_of s.jobs) found.now → IfOk result (IsPlan s (Done system.now at.now jobs.now)) }
{
    match done_call(row, found, system, at, jobs) {
        Ok(call) => {
            let call = call_columns(call);
            let mut changes = vec![in alloc; Change::SetCall { system, call }]?;
            remove_jobs(&mut changes, jobs)?;
            Ok(Plan {
                reply: Reply::Done,
                changes,
            })
        }
        Err(refusal) => Ok(refused(alloc, refusal)),
    }
}

/// Jobs that a system has. `found` has those of the named ones that wait for it; these are removed.
pub(crate) fn plan_release<'a>(alloc: Global, found: &[u32]) -> Result<Plan<'a>, AllocError>
    ensures { (s : State) → (system jobs : List ℕ) → IsWellFormed s → found.now ≡ filter (waits_under s system) jobs → IfOk result (IsPlan s (Release system jobs)) }
{
    let mut changes = Vec::new(alloc);
    remove_jobs(&mut changes, found)?;
    Ok(Plan {
        reply: Reply::Done,
        changes,
    })
}
