// Jobs without their bytes, and one job with them.
ghost use Rattle.std.specs.Prelude.{◌≡◌, ◌≢◌, ◌↔◌, length, Some, IsTrue, IfOk, IfErr, IfSome, option_map};
ghost use Rattle.sqlite.specs.declared.error.Error.TheVariants.{QueryReturnedNoRows};
ghost use Rattle.sqlite.specs.Held.{state};
ghost use Rattle.uu_schema.specs.Steps.{StaysIdle};
ghost use Rattle.uu_core.specs.declared.filter.Filter.{Filter};
ghost use Rattle.uu_core.specs.State.{Job, job_at};
ghost use Rattle.uu_tables.specs.Tables.{body_of};
ghost use Rattle.uu_tables.specs.declared.rows.Body.{Body};
ghost use Rattle.uu_questions.specs.Answers.{Answers, Asks};
ghost use Rattle.uu_questions.specs.Listing.{WantsAll, listed_jobs, handed_out, head_and_bytes};

use crate::asks::{typed_row, typed_rows};
use crate::facts::head_of_job;
use sqlite::{Alter, Connection, Error, params};
use std::alloc::Global;
use uu_core::{Filter, JobHead};
use uu_tables::Body;

// Whether the filter gives no system and no user.
fn wants_all(filter: &Filter) -> bool
    ensures { IsTrue result ↔ WantsAll filter.now }
{
    filter.system_text().is_none() && filter.user_text().is_none()
}

// All jobs, which match a filter that gives no system and no user.
fn list_all_jobs<S: Alter>(alloc: Global, conn: &mut Connection<S>) -> Result<Vec<JobHead>, Error>
    ensures { Asks S.Store (λ s heads. (f : Filter) → WantsAll f → heads.items ≡ listed_jobs f s) conn.old conn.new result }
{
    typed_rows(
        alloc,
        conn,
        "SELECT number, system, rank, user, kind, queued, first_word, second_word, size FROM jobs ORDER BY rank, number",
        &[],
    )
}

// The jobs that match.
fn list_fitting_jobs<S: Alter>(
    alloc: Global,
    conn: &mut Connection<S>,
    filter: &Filter,
) -> Result<Vec<JobHead>, Error>
    ensures { Asks S.Store (λ s heads. heads.items ≡ listed_jobs filter.now s) conn.old conn.new result }
{
    let system = filter.system_text();
    let user = filter.user_text();
    typed_rows(
        alloc,
        conn,
        "SELECT number, system, rank, user, kind, queued, first_word, second_word, size FROM jobs WHERE (?1 IS NULL OR system = ?1) AND (?2 IS NULL OR user = ?2) ORDER BY rank, number",
        params![system, user],
    )
}

/// The jobs that match, without their bytes, by (rank, number).
pub fn list_jobs<S: Alter>(
    alloc: Global,
    conn: &mut Connection<S>,
    filter: &Filter,
) -> Result<Vec<JobHead>, Error>
    ensures { Asks S.Store (λ s heads. heads.items ≡ listed_jobs filter.now s) conn.old conn.new result }
{
    if wants_all(filter) {
        list_all_jobs(alloc, conn)
    } else {
        list_fitting_jobs(alloc, conn, filter)
    }
}

// The row with the bytes of the job of this number, if it is there.
fn body_of_job<S: Alter>(
    alloc: Global,
    conn: &mut Connection<S>,
    number: u32,
) -> Result<Option<Body>, Error>
    ensures { Asks S.Store (λ s found. found ≡ option_map body_of (job_at s number)) conn.old conn.new result }
{
    typed_row(
        alloc,
        conn,
        "SELECT job, bytes FROM bodies WHERE job = ?1 ORDER BY job",
        params![number],
    )
}

// The bytes in the row, which every job has.
fn bytes_of(body: Option<Body>) -> Result<Vec<u8>, Error>
    ensures { (found : Body) → body ≡ Some found → IfOk result (λ bytes. bytes.items ≡ found.bytes) }
{
    match body {
        Some(body) => Ok(body.bytes.into_vec()),
        None => Err(Error::QueryReturnedNoRows),
    }
}

// The bytes of the job of this number.
fn bytes_of_job<S: Alter>(
    alloc: Global,
    conn: &mut Connection<S>,
    number: u32,
) -> Result<Vec<u8>, Error>
    ensures { Asks S.Store (λ s bytes. (job : Job) → job_at s number ≡ Some job → bytes.items ≡ job.bytes) conn.old conn.new result }
{
    let body = body_of_job(alloc, conn, number)?;
    bytes_of(body)
}

// The job, if it has as many bytes as its row says.
fn whole_job(head: JobHead, bytes: Vec<u8>) -> Result<Option<(JobHead, Vec<u8>)>, Error>
    ensures job { IfOk result (λ found. found ≡ Some (head, bytes)) }
    ensures size { IfOk result (λ _. head.size ≡ length bytes.items) }
    ensures refused { IfErr result (λ error. (error ≡ QueryReturnedNoRows) × (head.size ≢ length bytes.items)) }
{
    if head.size as usize == bytes.len() {
        Ok(Some((head, bytes)))
    } else {
        Err(Error::QueryReturnedNoRows)
    }
}

/// The job of this number with its bytes, if it is there. If a job hasn't as many bytes as its row
/// says, that is an error, on an unclean store too.
pub fn job_of_number<S: Alter>(
    alloc: Global,
    conn: &mut Connection<S>,
    number: u32,
) -> Result<Option<(JobHead, Vec<u8>)>, Error>
    ensures idle { StaysIdle conn.old conn.new }
    ensures answers { Answers (λ s found. option_map handed_out found ≡ option_map head_and_bytes (job_at s number)) (state S.Store conn.old) (state S.Store conn.new) result }
    ensures size { IfOk result (λ found. IfSome found (λ job. job.0.size ≡ length job.1.items)) }
{
    let Some(head) = head_of_job(alloc, conn, number)? else {
        return Ok(None);
    };
    let bytes = bytes_of_job(alloc, conn, number)?;
    whole_job(head, bytes)
}
