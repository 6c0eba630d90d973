// Copies of what the lists hold.
ghost use Rattle.std.specs.Prelude.{◌≡◌, IfOk, map};
ghost use Rattle.uu_core.specs.State.{head_of};

use crate::job::PlainJob;
use std::alloc::{AllocError, Global};
use uu_core::{CallState, JobHead, Kind, Outcome};
use uu_names::{Listed, Word};

fn copy_words(alloc: Global, words: &[Word]) -> Result<Listed<Word>, AllocError>
    ensures { IfOk result (λ copy. copy ≡ words.now) }
{
    let words = words.to_vec(alloc)?;
    Ok(Listed::from_vec(words))
}

fn copy_kind(alloc: Global, kind: &Kind) -> Result<Kind, AllocError>
    ensures { IfOk result (λ copy. copy ≡ kind.now) }
{
    Ok(match kind {
        Kind::Send { source, target } => Kind::Send {
            source: source.clone()?,
            target: target.clone()?,
        },
        Kind::Request { source, target } => Kind::Request {
            source: source.clone()?,
            target: target.clone()?,
        },
        Kind::Execute { command, arguments } => Kind::Execute {
            command: command.clone()?,
            arguments: copy_words(alloc, arguments.as_slice())?,
        },
    })
}

fn copy_head(alloc: Global, head: &JobHead) -> Result<JobHead, AllocError>
    ensures { IfOk result (λ copy. copy ≡ head.now) }
{
    Ok(JobHead {
        number: head.number,
        system: head.system.clone()?,
        grade: head.grade,
        user: head.user.clone()?,
        kind: copy_kind(alloc, &head.kind)?,
        queued: head.queued,
        size: head.size,
    })
}

// The jobs without their bytes.
pub(crate) fn heads_of(alloc: Global, jobs: &[PlainJob]) -> Result<Vec<JobHead>, AllocError>
    ensures { IfOk result (λ heads. heads.items ≡ map head_of jobs.now) }
{
    let mut heads = Vec::with_capacity(alloc, jobs.len())?;
    for job in jobs {
        heads.push(copy_head(alloc, job.head())?)?;
    }
    Ok(heads)
}

fn copy_outcome(outcome: &Outcome) -> Result<Outcome, AllocError>
    ensures { IfOk result (λ copy. copy ≡ outcome.now) }
{
    Ok(match outcome {
        Outcome::Never => Outcome::Never,
        Outcome::Failed(why) => Outcome::Failed(why.clone()?),
        Outcome::Done => Outcome::Done,
    })
}

pub(crate) fn copy_call(call: &CallState) -> Result<CallState, AllocError>
    ensures { IfOk result (λ copy. copy ≡ call.now) }
{
    Ok(CallState {
        last: call.last,
        failures: call.failures,
        wait: call.wait,
        outcome: copy_outcome(&call.outcome)?,
    })
}
