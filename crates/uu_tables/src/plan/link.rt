// Jobs that a neighbour hands on under a key.
ghost use Rattle.std.specs.Prelude.{◌≡◌, ◌<◌, ◌∷◌, [], IfOk, false};
ghost use Rattle.uu_tables.specs.declared.change.Change.{Change};
ghost use Rattle.uu_core.specs.declared.command.Command.TheVariants.{QueueOnce, Forget};
ghost use Rattle.uu_core.specs.State.{State, IsWellFormed, has_system, link_of, numbers_end};
ghost use Rattle.uu_core.specs.Verdict.{are_known, is_too_large, key_under, taken_of};
ghost use Rattle.uu_tables.specs.Tables.{Tables};
ghost use Rattle.uu_tables.specs.Changes.{applied};
ghost use Rattle.uu_tables.specs.Parts.{with_new_job, with_new_key};
ghost use Rattle.uu_tables.specs.Plans.{IsPlan};

use super::queue::add_queued;
use super::{Plan, refused, unchanged};
use crate::change::Change;
use std::alloc::{AllocError, Global};
use uu_core::{HandIn, Key, Mark, NewJob, Reply, Taken, decide_forget, decide_queue_once};
use uu_names::SiteName;

// The changes that add a job under this number, and with it the key of a neighbour's job.
pub(super) fn add_queued_once<'a>(
    alloc: Global,
    number: u32,
    from: &'a SiteName,
    there: u32,
    mark: Mark,
    job: &'a NewJob,
) -> Result<Vec<Change<'a>>, AllocError>
    requires small { is_too_large job.now ≡ false }
    requires some_left { number < numbers_end }
    ensures { IfOk result (λ changes. (t : Tables) → applied changes.items t ≡ with_new_key (key_under from.now there mark) number (with_new_job number job.now t)) }
{
    let mut changes = add_queued(alloc, number, job)?;
    let taken = Taken {
        number: there,
        mark,
        job: number,
    };
    changes.push(Change::AddTaken {
        system: from,
        taken,
    })?;
    Ok(changes)
}

/// A job that a neighbour hands on. It is queued with its key, or nothing changes if the key is
/// kept.
pub(crate) fn plan_queue_once<'a>(
    alloc: Global,
    known: bool,
    next: u32,
    below: u32,
    taken: Option<Taken>,
    key: &'a Key,
    job: &'a NewJob,
) -> Result<Plan<'a>, AllocError>
    ensures { (s : State) → IsWellFormed s → known ≡ are_known s key.now job.now → next ≡ s.next → below ≡ (link_of s key.now.from).below → taken ≡ taken_of s key.now → IfOk result (IsPlan s (QueueOnce key.now job.now)) }
{
    match decide_queue_once(known, next, below, taken, key, job) {
        Ok(HandIn::First(number)) => {
            let changes = add_queued_once(alloc, number, &key.from, key.number, key.mark, job)?;
            Ok(Plan {
                reply: Reply::Number(number),
                changes,
            })
        }
        Ok(HandIn::Again(number)) => Ok(unchanged(alloc, Reply::Number(number))),
        Err(refusal) => Ok(refused(alloc, refusal)),
    }
}

// The changes that forget what was taken from a neighbour below this number. The neighbour never
// said such a number before.
fn forget<'a>(
    alloc: Global,
    system: &'a SiteName,
    below: u32,
) -> Result<Vec<Change<'a>>, AllocError>
    ensures { IfOk result (λ changes. changes.items ≡ Change.RemoveLink system.entry ∷ Change.AddLink system.entry below ∷ Change.ForgetTaken system.entry below ∷ []) }
{
    Ok(vec![in alloc;
        Change::RemoveLink { system },
        Change::AddLink { system, below },
        Change::ForgetTaken { system, below },
    ]?)
}

/// A neighbour that won't ask for some numbers again. If it said so before, nothing changes.
pub(crate) fn plan_forget<'a>(
    alloc: Global,
    known: bool,
    before: u32,
    system: &'a SiteName,
    below: u32,
) -> Result<Plan<'a>, AllocError>
    ensures { (s : State) → IsWellFormed s → known ≡ has_system s system.now → before ≡ (link_of s system.now).below → IfOk result (IsPlan s (Forget system.now below)) }
{
    match decide_forget(known) {
        Ok(()) if below <= before => Ok(unchanged(alloc, Reply::Done)),
        Ok(()) => {
            let changes = forget(alloc, system, below)?;
            Ok(Plan {
                reply: Reply::Done,
                changes,
            })
        }
        Err(refusal) => Ok(refused(alloc, refusal)),
    }
}
