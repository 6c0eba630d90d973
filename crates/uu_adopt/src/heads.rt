// The jobs without their bytes, read when a database is inspected. A job's number is its rowid, so
// one question gives both.
ghost use Rattle.std.specs.Prelude.{◌≡◌, List, Err, IfOk, IfErr};
ghost use Rattle.sqlite.specs.declared.error.Error.TheVariants.{SqliteFailure};
ghost use Rattle.sqlite.specs.declared.error.ErrorCode.TheVariants.{OutOfMemory};
ghost use Rattle.uu_schema.specs.declared.version.Version.{Version};
ghost use Rattle.uu_schema.specs.Cells.{job_cells};
ghost use Rattle.uu_rows.specs.Readable.{IsTypedHead};
ghost use Rattle.uu_adopt.specs.Reading.{AnswersJobs, AreRead, FindsJobs, IsRead, ReadsFrom};

use crate::reading::{are_rowids, found};
use sqlite::{Alter, Connection, Error, Row};
use std::alloc::Global;
use uu_core::JobHead;
use uu_rows::{RowFault, ask, or_none, read_heads as read_borrowed};
use uu_tables::HeadColumns;

/// The rows of the jobs without their bytes, by number.
pub(crate) fn ask_heads<S: Alter>(conn: &mut Connection<S>) -> Result<Vec<Row>, Error>
    ensures { (v : Version) → ReadsFrom S.Store v (λ trees rows. AnswersJobs v trees rows.items) conn.old conn.new result }
{
    ask(
        conn,
        "SELECT number, system, rank, user, kind, queued, first_word, second_word, size FROM jobs ORDER BY number",
    )
}

/// The jobs without their bytes, by number; `None` if a row of the table isn't a job's.
pub(crate) fn read_heads<S: Alter>(
    alloc: Global,
    conn: &mut Connection<S>,
) -> Result<Option<Vec<JobHead>>, Error>
    ensures { (v : Version) → ReadsFrom S.Store v (FindsJobs v) conn.old conn.new result }
{
    let rows = ask_heads(conn)?;
    found(alloc, &rows, &rows)
}

// The heads, if the rows are theirs and their rowids rise.
fn typed_heads<'a>(alloc: Global, rows: &'a [Row]) -> Result<Vec<HeadColumns<'a>>, RowFault>
    ensures heads { IfOk result (λ all. AreRead job_cells IsTypedHead rows.now rows.now all.items) }
    ensures bad { result ≡ Err RowFault.Bad → (all : List JobHead) → ¬ AreRead job_cells IsTypedHead rows.now rows.now all }
{
    if are_rowids(rows) {
        read_borrowed(alloc, rows)
    } else {
        Err(RowFault::Bad)
    }
}

/// The heads of the jobs in these rows, which borrow from them. Out of memory is an error, and
/// `None` means rows that aren't those of heads.
pub(crate) fn found_heads<'a>(
    alloc: Global,
    rows: &'a [Row],
) -> Result<Option<Vec<HeadColumns<'a>>>, Error>
    ensures read { IfOk result (IsRead job_cells IsTypedHead rows.now rows.now) }
    ensures memory { IfErr result (λ error. error ≡ SqliteFailure OutOfMemory) }
{
    or_none(typed_heads(alloc, rows))
}
