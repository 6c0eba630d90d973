// For which job each system is called now.
ghost use Rattle.std.specs.Prelude.{◌≡◌, ◌≢◌, ◌<◌, ℕ, Bool, List, map, IfOk, IfErr, OnOk, IsTrue};
ghost use Rattle.std.specs.Ordering.{nat_cmp};
ghost use Rattle.std.specs.Cmp.Lexicographic.{slice_cmp};
ghost use Rattle.std.specs.BTreeMap.{get};
ghost use Rattle.uu_times.specs.declared.moment.Moment.{Moment};
ghost use Rattle.uu_core.specs.declared.due.Due.{Due};
ghost use Rattle.uu_core.specs.declared.system.SystemRow.{SystemRow};
ghost use Rattle.uu_core.specs.State.{head_of};
ghost use Rattle.uu_core.specs.Due.{may_be_called, AreDue};
ghost use Rattle.sqlite.specs.declared.error.Error.TheVariants.{SqliteFailure, QueryReturnedNoRows};
ghost use Rattle.sqlite.specs.declared.error.ErrorCode.TheVariants.{OutOfMemory};
ghost use Rattle.uu_names.specs.Grade.{grade_count};
ghost use Rattle.uu_names.specs.Name.{is_site_name};
ghost use Rattle.uu_rows.specs.Readable.{IsSmall};
ghost use Rattle.uu_rows.specs.Values.{NotIf};
ghost use Rattle.uu_questions.specs.Answers.{Asks};
ghost use Rattle.uu_questions.specs.Dues.{AreLimits, IsLeft, TakesRow, due_cells, with_due};

use crate::callable::callable;
use crate::walk::{RowTaker, walk_rows};
use sqlite::{Alter, Connection, Error, Row};
use std::alloc::{AllocError, Global};
use std::collections::BTreeMap;
use uu_core::Due;
use uu_core::callable::is_free;
use uu_core::laws::dues_are_found_job_by_job;
use uu_names::{Grade, SiteName};
use uu_rows::{RowFault, grade_in, name_in, number_in, or_error};
use uu_times::Moment;

fn read_due(alloc: Global, row: &Row) -> Result<Due, RowFault>
    ensures due { IfOk result (λ due. (other : Due) → row.now ≡ due_cells other → due ≡ other) }
    ensures bad { (due : Due) → IsTrue (is_site_name due.system) → due.grade < grade_count → IsSmall due.number → NotIf result (row.now ≡ due_cells due) }
{
    Ok(Due {
        system: name_in(alloc, row, 0)?,
        grade: grade_in(row, 1)?,
        number: number_in(row, 2)?,
    })
}

// The job of a row, with its system and grade.
fn due_in(alloc: Global, row: &Row) -> Result<Due, Error>
    ensures due { IfOk result (λ due. (other : Due) → row.now ≡ due_cells other → due ≡ other) }
    ensures memory { (due : Due) → IsTrue (is_site_name due.system) → due.grade < grade_count → IsSmall due.number → row.now ≡ due_cells due → IfErr result (λ error. error ≡ SqliteFailure OutOfMemory) }
    ensures bad { IfErr result (λ error. error ≢ SqliteFailure OutOfMemory → error ≡ QueryReturnedNoRows) }
{
    or_error(read_due(alloc, row))
}

// Lists the job if its system may be called for it, and then removes the system's limit.
fn offer(
    left: &mut BTreeMap<SiteName, Grade>,
    dues: &mut Vec<Due>,
    due: Due,
) -> Result<(), AllocError>
    ensures { OnOk result ((may : List ℕ → ℕ → Bool) → IsLeft may (get (slice_cmp nat_cmp) left.old) dues.old.items
        → IsLeft may (get (slice_cmp nat_cmp) left.new) dues.new.items × (dues.new.items ≡ with_due may dues.old.items due)) }
{
    if is_free(left, &due.system, due.grade) {
        left.remove(&due.system);
        dues.push(due)?;
    }
    Ok(())
}

// The systems that may still be called, each with its lowest grade, and what is listed so far.
#[derive(Drop)]
struct DueWalk {
    alloc: Global,
    left: BTreeMap<SiteName, Grade>,
    dues: Vec<Due>,
}

impl RowTaker for DueWalk {
    ghost takes = { λ old row new. TakesRow (get (slice_cmp nat_cmp) old.left) old.dues.items row (get (slice_cmp nat_cmp) new.left) new.dues.items };

    fn take(&mut self, row: &Row) -> Result<(), Error> {
        let due = due_in(self.alloc, row)?;
        offer(&mut self.left, &mut self.dues, due)?;
        Ok(())
    }
}

// What is due, if the systems have these limits.
fn due_within<S: Alter>(
    alloc: Global,
    conn: &mut Connection<S>,
    limits: BTreeMap<SiteName, Grade>,
) -> Result<Vec<Due>, Error>
    ensures { Asks S.Store (λ s dues. (rows : List SystemRow) (at : Moment)
        → AreLimits (get (slice_cmp nat_cmp) limits) (may_be_called rows at)
        → AreDue rows (map head_of s.jobs) at dues.items) conn.old conn.new result }
{
    dues_are_found_job_by_job();
    let mut walk = DueWalk {
        alloc,
        left: limits,
        dues: Vec::new(alloc),
    };
    walk_rows(
        conn,
        "SELECT system, rank, number FROM jobs ORDER BY rank, number",
        &[],
        &mut walk,
    )?;
    Ok(walk.dues)
}

/// The systems that may be called at this moment and have a job to be called for. Each comes with
/// the first of its jobs, by grade and number, whose grade is within its limit. The list is in the
/// order of these jobs, by grade and number. It reads all systems, and then the jobs one at a time,
/// without their bytes.
pub fn systems_due<S: Alter>(
    alloc: Global,
    conn: &mut Connection<S>,
    at: &Moment,
) -> Result<Vec<Due>, Error>
    ensures { Asks S.Store (λ s dues. AreDue s.systems (map head_of s.jobs) at.now dues.items) conn.old conn.new result }
{
    let limits = callable(alloc, conn, at)?;
    due_within(alloc, conn, limits)
}
