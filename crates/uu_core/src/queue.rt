// What waits for each system.
ghost use Rattle.std.specs.Prelude.{◌≡◌, ◌+◌, ◌<◌, ◌^◌, [], ◌∷◌, ◌++◌, ℕ, List, IfOk};
ghost use Rattle.std.specs.Ordering.{nat_cmp};
ghost use Rattle.std.specs.Cmp.Lexicographic.{slice_cmp};
ghost use Rattle.std.specs.BTreeMap.{get};
ghost use Rattle.uu_core.specs.declared.job.JobHead.{JobHead as AnyHead};
ghost use Rattle.uu_core.specs.Queues.{AreSums, AreSumsOf, AreQueues, jobs_for};

use crate::job::JobHead;
use std::alloc::{AllocError, Global};
use std::collections::BTreeMap;
use uu_names::{Grade, SiteName};

/// The sums of some jobs.
#[derive(Clone, Copy, Debug, PartialEq, Eq)]
pub struct Sums {
    /// How many there are.
    pub jobs: usize,
    /// The sum of their sizes.
    pub bytes: u128,
    /// The highest grade of one of them.
    pub grade: Grade,
    /// The number of the first of them, by grade and number.
    pub number: u32,
    /// When the oldest was handed in or rejuvenated: the least such second.
    pub oldest: u64,
}

/// What waits for a system.
#[derive(Debug, Drop)]
pub struct Queue {
    /// The system.
    pub system: SiteName,
    /// The sums of its jobs.
    pub sums: Sums,
}

fn size_of(job: &JobHead) -> u128
    ensures value { result ≡ job.now.size }
    ensures small { result < 2 ^ 32 }
{
    u128::from(job.size)
}

fn sums_of(job: &JobHead) -> Sums
    ensures sums { AreSums (job.now ∷ []) result }
    ensures small { result.bytes < 2 ^ 32 }
{
    Sums {
        jobs: 1,
        bytes: size_of(job),
        grade: job.grade,
        number: job.number,
        oldest: job.queued,
    }
}

// The sums of some jobs and one more.
fn sums_with(sums: Sums, job: &JobHead) -> Sums
    requires jobs { sums.jobs + 1 < 2 ^ 64 }
    requires bytes { sums.bytes + 2 ^ 32 < 2 ^ 128 }
    ensures sums { (jobs : List AnyHead) → AreSums jobs sums → AreSums (jobs ++ job.now ∷ []) result }
    ensures small { result.bytes < sums.bytes + 2 ^ 32 }
{
    let (grade, number) = if (job.grade, job.number) < (sums.grade, sums.number) {
        (job.grade, job.number)
    } else {
        (sums.grade, sums.number)
    };
    Sums {
        jobs: sums.jobs + 1,
        bytes: sums.bytes + size_of(job),
        grade,
        number,
        oldest: sums.oldest.min(job.queued),
    }
}

// The sums of each system's jobs. A system without jobs isn't in the map.
pub(crate) fn sums_by_system(
    alloc: Global,
    jobs: &[JobHead],
) -> Result<BTreeMap<SiteName, Sums>, AllocError>
    ensures { IfOk result (λ sums. (name : List ℕ) → AreSumsOf (jobs_for name jobs.now) (get (slice_cmp nat_cmp) sums name)) }
{
    let mut by_system = BTreeMap::new(alloc);
    for job in jobs {
        let sums = match by_system.get(&job.system).copied() {
            Some(sums) => sums_with(sums, job),
            None => sums_of(job),
        };
        by_system.insert(job.system.clone()?, sums)?;
    }
    Ok(by_system)
}

/// What waits for each system that has a job, in order of the bytes of their names. The cost is a
/// look-up for each job.
pub fn queues(alloc: Global, jobs: &[JobHead]) -> Result<Vec<Queue>, AllocError>
    ensures { IfOk result (λ queues. AreQueues jobs.now queues.items) }
{
    let by_system = sums_by_system(alloc, jobs)?;
    let mut queues = Vec::new(alloc);
    for (system, sums) in by_system {
        queues.push(Queue { system, sums })?;
    }
    Ok(queues)
}
