// The reply to a command, and what it changes in the tables.
ghost use Rattle.std.specs.Prelude.{◌≡◌, [], ◌∷◌, IfOk};
ghost use Rattle.uu_core.specs.State.{State, IsWellFormed};
ghost use Rattle.uu_tables.specs.Plans.{AreFacts, IsFor, IsPlan};

mod entry;
mod job;
mod link;
mod queue;
mod report;
mod system;
mod take_in;

use crate::change::Change;
use crate::facts::Facts;
use entry::plan_entry;
use job::{plan_kill, plan_regrade, plan_rejuvenate};
use link::{plan_forget, plan_queue_once};
use queue::plan_queue;
use report::{plan_done, plan_failed, plan_release};
use std::alloc::{AllocError, Global};
use system::{plan_define, plan_remove};
pub use take_in::{TakeInPlan, plan_take_in};
use uu_core::{Command, Refusal, Reply};

/// The reply to a command, and what it changes.
#[derive(Drop)]
pub struct Plan<'a> {
    /// The reply, once the changes are made.
    pub reply: Reply,
    /// The changes, one after the other; none if the command is refused.
    pub changes: Vec<Change<'a>>,
}

// The command is refused: nothing changes.
fn refused<'a>(alloc: Global, refusal: Refusal) -> Plan<'a>
    ensures reply { result.reply ≡ Reply.Refused refusal }
    ensures none { result.changes.items ≡ [] }
{
    Plan {
        reply: Reply::Refused(refusal),
        changes: Vec::new(alloc),
    }
}

// Nothing changes, and this is the reply.
fn unchanged<'a>(alloc: Global, reply: Reply) -> Plan<'a>
    ensures reply { result.reply ≡ reply }
    ensures none { result.changes.items ≡ [] }
{
    Plan {
        reply,
        changes: Vec::new(alloc),
    }
}

// One change, and the command is carried out.
fn one_change<'a>(alloc: Global, change: Change<'a>) -> Result<Plan<'a>, AllocError>
    ensures reply { IfOk result (λ plan. plan.reply ≡ Reply.Done) }
    ensures changes { IfOk result (λ plan. plan.changes.items ≡ change.entry ∷ []) }
{
    Ok(Plan {
        reply: Reply::Done,
        changes: vec![in alloc; change]?,
    })
}

/// The reply to a command, and its changes, if these facts were asked for it. The facts are of the
/// kind that it asks for.
pub fn make_plan<'a>(
    alloc: Global,
    facts: &Facts,
    command: &'a Command,
) -> Result<Plan<'a>, AllocError>
    requires suits { IsFor facts.now command.now }
    ensures { (s : State) → IsWellFormed s → AreFacts facts.now s command.now → IfOk result (IsPlan s command.now) }
{
    match (command, facts) {
        (Command::Define(def), Facts::Define { known }) => plan_define(alloc, *known, def),
        (Command::Remove(system), Facts::Remove { known, waiting }) => {
            plan_remove(alloc, *known, *waiting, system)
        }
        (Command::Queue(job), Facts::Queue { known, next }) => {
            plan_queue(alloc, *known, *next, job)
        }
        (
            Command::QueueOnce(key, job),
            Facts::QueueOnce {
                known,
                next,
                below,
                taken,
            },
        ) => { plan_queue_once(alloc, *known, *next, *below, *taken, key, job) }
        (Command::Kill { job, by }, Facts::Job(head)) => {
            plan_kill(alloc, head.as_ref(), *job, by)
        }
        (Command::Regrade { job, grade, by }, Facts::Job(head)) => {
            plan_regrade(alloc, head.as_ref(), *job, *grade, by)
        }
        (Command::Rejuvenate { job, at, by }, Facts::Job(head)) => {
            plan_rejuvenate(alloc, head.as_ref(), *job, at, by)
        }
        (Command::Failed { system, at, why }, Facts::Failed(row)) => {
            plan_failed(alloc, row.as_ref(), system, at, why)
        }
        (Command::Done { system, at, jobs }, Facts::Done { row, found }) => {
            plan_done(alloc, row.as_ref(), found, system, at, jobs.as_slice())
        }
        (Command::Release { .. }, Facts::Release { found }) => plan_release(alloc, found),
        (Command::Entry(bytes), Facts::Entry) => plan_entry(alloc, bytes.as_slice()),
        (Command::Forget { system, below }, Facts::Forget { known, before }) => {
            plan_forget(alloc, *known, *before, system, *below)
        }
        _ => unreachable!(),
    }
}
