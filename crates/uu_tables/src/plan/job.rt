// Commands on one job.
ghost use Rattle.std.specs.Prelude.{◌≡◌, IfOk, option_copied, option_map};
ghost use Rattle.uu_core.specs.declared.command.Command.TheVariants.{Kill, Regrade, Rejuvenate};
ghost use Rattle.uu_core.specs.State.{State, job_at, head_of};
ghost use Rattle.uu_tables.specs.Plans.{IsPlan};

use super::{Plan, one_change, refused};
use crate::change::Change;
use std::alloc::{AllocError, Global};
use uu_core::{By, JobHead, decide_job};
use uu_names::Grade;
use uu_times::Moment;

/// A job that is removed, with its bytes.
pub(crate) fn plan_kill<'a>(
    alloc: Global,
    head: Option<&JobHead>,
    number: u32,
    by: &By,
) -> Result<Plan<'a>, AllocError>
    ensures { (s : State) → option_copied head.entry ≡ option_map head_of (job_at s number) → IfOk result (IsPlan s (Kill number by.now)) }
{
    match decide_job(head, by) {
        Ok(()) => one_change(alloc, Change::RemoveJob { number }),
        Err(refusal) => Ok(refused(alloc, refusal)),
    }
}

/// Another grade for a job. Its number stays.
pub(crate) fn plan_regrade<'a>(
    alloc: Global,
    head: Option<&JobHead>,
    number: u32,
    grade: Grade,
    by: &By,
) -> Result<Plan<'a>, AllocError>
    ensures { (s : State) → option_copied head.entry ≡ option_map head_of (job_at s number) → IfOk result (IsPlan s (Regrade number grade by.now)) }
{
    match decide_job(head, by) {
        Ok(()) => one_change(alloc, Change::SetGrade { number, grade }),
        Err(refusal) => Ok(refused(alloc, refusal)),
    }
}

/// A job that counts as handed in at this moment.
pub(crate) fn plan_rejuvenate<'a>(
    alloc: Global,
    head: Option<&JobHead>,
    number: u32,
    at: &Moment,
    by: &By,
) -> Result<Plan<'a>, AllocError>
    ensures { (s : State) → option_copied head.entry ≡ option_map head_of (job_at s number) → IfOk result (IsPlan s (Rejuvenate number at.now by.now)) }
{
    match decide_job(head, by) {
        Ok(()) => {
            let queued = at.second as u32;
            one_change(alloc, Change::SetQueued { number, queued })
        }
        Err(refusal) => Ok(refused(alloc, refusal)),
    }
}
