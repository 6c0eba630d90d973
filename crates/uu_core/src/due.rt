// Which systems may be called now, and for which job.
ghost use Rattle.std.specs.Prelude.{◌≡◌, ◌++◌, ◌∷◌, [], ℕ, List, map, filter, IfOk, OnOk, IsPermutation};
ghost use Rattle.std.specs.Ordering.{nat_cmp};
ghost use Rattle.std.specs.Cmp.Lexicographic.{slice_cmp};
ghost use Rattle.std.specs.BTreeMap.{get};
ghost use Rattle.uu_core.specs.Due.{limit_now, is_within, may_be_called, may_go, due_of, all_due, AreDue, HaveNumbers, AreInOrder};

use crate::callable::{is_free, lower};
use crate::job::JobHead;
use crate::system::SystemRow;
use crate::waiting::{held, limit};
use std::alloc::{AllocError, Global};
use std::collections::BTreeMap;
use uu_names::{Grade, SiteName};
use uu_times::Moment;

/// A system that may be called now, and the job for which it is called.
#[derive(Debug, Drop)]
pub struct Due {
    /// The system.
    pub system: SiteName,
    /// The job's grade.
    pub grade: Grade,
    /// The job's number.
    pub number: u32,
}

fn limit_now(row: &SystemRow, at: &Moment) -> Option<Grade>
    ensures { result ≡ limit_now row.now at.now }
{
    if held(&row.call, at) {
        None
    } else {
        limit(row.def.lines.as_slice(), at.week)
    }
}

// The lowest grade for which each system may be called now. A system that may not be called isn't
// in the map.
fn limits(
    alloc: Global,
    rows: &[SystemRow],
    at: &Moment,
) -> Result<BTreeMap<SiteName, Grade>, AllocError>
    ensures { IfOk result (λ limits. (name : List ℕ) (grade : ℕ) → is_within (get (slice_cmp nat_cmp) limits name) grade ≡ may_be_called rows.now at.now name grade) }
{
    let mut limits = BTreeMap::new(alloc);
    for row in rows {
        if let Some(lowest) = limit_now(row, at) {
            lower(&mut limits, &row.def.name, lowest)?;
        }
    }
    Ok(limits)
}

// The jobs in their order, each borrowed.
fn references(alloc: Global, jobs: &[JobHead]) -> Result<Vec<&JobHead>, AllocError>
    ensures { IfOk result (λ all. map (λ job. job.now) all.items ≡ jobs.now) }
{
    jobs.iter().collect(alloc)
}

// The jobs by grade and number.
fn in_order(alloc: Global, jobs: &[JobHead]) -> Result<Vec<&JobHead>, AllocError>
    ensures same { IfOk result (λ ordered. IsPermutation jobs.now (map (λ job. job.now) ordered.items)) }
    ensures order { IfOk result (λ ordered. HaveNumbers jobs.now → AreInOrder (map (λ job. job.now) ordered.items)) }
{
    let mut ordered = references(alloc, jobs)?;
    ordered.sort_by_key(|job| (job.grade.rank(), job.number))?;
    Ok(ordered)
}

// Adds the job's system and the job.
fn list(dues: &mut Vec<Due>, job: &JobHead) -> Result<(), AllocError>
    ensures { OnOk result (dues.new.items ≡ dues.old.items ++ due_of job.now ∷ []) }
{
    let system = job.system.clone()?;
    dues.push(Due {
        system,
        grade: job.grade,
        number: job.number,
    })?;
    Ok(())
}

/// The systems that may be called at this moment and have a job to be called for. Such a system
/// isn't held, and the first of its jobs by grade and number has a grade within its limit. The list
/// is in the order of these jobs, by grade and number.
///
/// No two jobs may have the same number, as in every spool. The cost is one sort, and a look-up for
/// each job and system.
pub fn choose(
    alloc: Global,
    rows: &[SystemRow],
    jobs: &[JobHead],
    at: &Moment,
) -> Result<Vec<Due>, AllocError>
    ensures { IfOk result (λ dues. HaveNumbers jobs.now → AreDue rows.now jobs.now at.now dues.items) }
{
    let mut free = limits(alloc, rows, at)?;
    let ordered = in_order(alloc, jobs)?;
    let mut dues = Vec::new(alloc);
    for job in &ordered {
        if is_free(&free, &job.system, job.grade) {
            free.remove(&job.system);
            list(&mut dues, job)?;
        }
    }
    Ok(dues)
}

// Adds the job if its system may be called for it.
fn list_free(
    free: &BTreeMap<SiteName, Grade>,
    dues: &mut Vec<Due>,
    job: &JobHead,
) -> Result<(), AllocError>
    ensures { (rows : List SystemRow) (at : Moment) → ((name : List ℕ) (grade : ℕ) → is_within (get (slice_cmp nat_cmp) free.now name) grade ≡ may_be_called rows at name grade)
        → OnOk result (dues.new.items ≡ dues.old.items ++ map due_of (filter (may_go rows at) (job.now ∷ []))) }
{
    if is_free(free, &job.system, job.grade) {
        return list(dues, job);
    }
    Ok(())
}

/// The jobs that may go at this moment, in their order: their system isn't held, and their grade is
/// within its limit. If they are in order by grade and number, the first one of a system is the one
/// that [`choose`] gives ([`the_first_to_go_is_due`](crate::laws::the_first_to_go_is_due)).
pub fn all_due(
    alloc: Global,
    rows: &[SystemRow],
    jobs: &[JobHead],
    at: &Moment,
) -> Result<Vec<Due>, AllocError>
    ensures { IfOk result (λ dues. dues.items ≡ all_due rows.now jobs.now at.now) }
{
    let free = limits(alloc, rows, at)?;
    let mut dues = Vec::new(alloc);
    for job in jobs {
        list_free(&free, &mut dues, job)?;
    }
    Ok(dues)
}
