// A job that is handed in.
ghost use Rattle.std.specs.Prelude.{◌≡◌, ◌<◌, ℕ, IfOk, false};
ghost use Rattle.uu_core.specs.declared.command.Command.TheVariants.{Queue};
ghost use Rattle.uu_core.specs.State.{State, has_system, numbers_end, head_of};
ghost use Rattle.uu_core.specs.Verdict.{is_too_large};
ghost use Rattle.uu_core.specs.After.{job_of};
ghost use Rattle.uu_tables.specs.Tables.{Tables};
ghost use Rattle.uu_tables.specs.Changes.{applied, new_job};
ghost use Rattle.uu_tables.specs.Parts.{with_new_job};
ghost use Rattle.uu_tables.specs.Plans.{IsPlan};

use super::{Plan, refused};
use crate::change::{Change, JobColumns};
use std::alloc::{AllocError, Global};
use uu_core::{NewJob, Reply, decide_queue};

// The columns of a job that isn't too large.
fn columns_of(job: &NewJob) -> JobColumns<'_>
    requires { is_too_large job.now ≡ false }
    ensures { (number : ℕ) → new_job number result ≡ head_of (job_of number job.now) }
{
    JobColumns {
        system: &job.system,
        grade: job.grade,
        user: &job.user,
        kind: &job.kind,
        queued: job.at.second as u32,
        size: job.bytes.as_slice().len() as u32,
    }
}

/// The changes that add a job under this number: its row, its bytes, and the next number.
pub(crate) fn add_queued<'a>(
    alloc: Global,
    number: u32,
    job: &'a NewJob,
) -> Result<Vec<Change<'a>>, AllocError>
    requires small { is_too_large job.now ≡ false }
    requires some_left { number < numbers_end }
    ensures { IfOk result (λ changes. (t : Tables) → applied changes.items t ≡ with_new_job number job.now t) }
{
    let columns = columns_of(job);
    let bytes = job.bytes.as_slice();
    Ok(vec![in alloc;
        Change::AddJob { number, columns },
        Change::AddBody { job: number, bytes },
        Change::SetNext { next: number + 1 },
    ]?)
}

/// A job that is handed in.
pub(crate) fn plan_queue<'a>(
    alloc: Global,
    known: bool,
    next: u32,
    job: &'a NewJob,
) -> Result<Plan<'a>, AllocError>
    ensures { (s : State) → known ≡ has_system s job.now.system → next ≡ s.next → IfOk result (IsPlan s (Queue job.now)) }
{
    match decide_queue(known, next, job) {
        Ok(number) => {
            let changes = add_queued(alloc, number, job)?;
            Ok(Plan {
                reply: Reply::Number(number),
                changes,
            })
        }
        Err(refusal) => Ok(refused(alloc, refusal)),
    }
}
