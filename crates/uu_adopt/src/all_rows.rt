// Every row of a database with the tables of this version, read to decide whether they are those of a
// spool.
ghost use Rattle.std.specs.Prelude.{◌≡◌, None, Some, IfOk, IfErr, IfSome};
ghost use Rattle.sqlite.specs.declared.error.Error.TheVariants.{SqliteFailure};
ghost use Rattle.sqlite.specs.declared.error.ErrorCode.TheVariants.{OutOfMemory};
ghost use Rattle.sqlite.specs.Tree.{Trees};
ghost use Rattle.uu_schema.specs.declared.version.Version.{Version};
ghost use Rattle.uu_adopt.specs.Adoption.{IsOfNone};
ghost use Rattle.uu_adopt.specs.Reading.{FindsJobs, ReadsFrom};
ghost use Rattle.uu_adopt.specs.AllRows.{AreRowsOf, FindsAllRows, TellsState};

use crate::bodies::read_sizes;
use crate::heads::{ask_heads, found_heads};
use crate::reading::{read_entries, read_links, read_systems, read_taken};
use crate::spool::read_next;
use sqlite::{Alter, Connection, Error, ErrorCode, Row};
use std::alloc::{AllocError, Global};
use uu_check::{Rows, are_tables};
use uu_schema::Version;
use uu_tables::{BodySize, EntryColumns, HeadColumns, LinkColumns, SystemColumns, TakenColumns};

/// The rows of each table in the order of its key, or `None` if they aren't those of a state. Those
/// of the jobs are as the database answered them.
#[derive(Drop)]
struct AllRows {
    next: Option<u32>,
    systems: Option<Vec<SystemColumns>>,
    jobs: Vec<Row>,
    bodies: Option<Vec<BodySize>>,
    entries: Option<Vec<EntryColumns>>,
    links: Option<Vec<LinkColumns>>,
    taken: Option<Vec<TakenColumns>>,
}

fn read_all_rows<S: Alter>(alloc: Global, conn: &mut Connection<S>) -> Result<AllRows, Error>
    ensures { ReadsFrom S.Store Version.Fourth FindsAllRows conn.old conn.new result }
{
    Ok(AllRows {
        next: read_next(conn, Version::Fourth)?,
        systems: read_systems(alloc, conn)?,
        jobs: ask_heads(conn)?,
        bodies: read_sizes(alloc, conn)?,
        entries: read_entries(alloc, conn)?,
        links: read_links(alloc, conn, Version::Fourth)?,
        taken: read_taken(alloc, conn, Version::Fourth)?,
    })
}

// The rows with these heads of the jobs, if those of every other table were found.
fn rows_of<'a>(all: &'a AllRows, heads: &'a [HeadColumns<'a>]) -> Option<Rows<'a>>
    ensures rows { IfSome result (λ rows. AreRowsOf all.now heads.now rows) }
    ensures none { result ≡ None → (trees : Trees) → FindsAllRows trees all.now → IsOfNone Version.Fourth trees }
{
    Some(Rows {
        next: all.next?,
        systems: all.systems.as_deref()?,
        jobs: heads,
        bodies: all.bodies.as_deref()?,
        entries: all.entries.as_deref()?,
        links: all.links.as_deref()?,
        taken: all.taken.as_deref()?,
    })
}

// Whether the rows with these heads are those of a state. Out of memory is an error.
fn verdict_with(alloc: Global, all: &AllRows, heads: &[HeadColumns<'_>]) -> Result<bool, Error>
    ensures verdict { (trees : Trees) → FindsAllRows trees all.now → (found : _) → heads.now ≡ found.items → FindsJobs Version.Fourth trees (Some found) → IfOk result (TellsState Version.Fourth trees) }
    ensures memory { IfErr result (λ error. error ≡ SqliteFailure OutOfMemory) }
{
    let Some(rows) = rows_of(all, heads) else {
        return Ok(false);
    };
    match are_tables(alloc, &rows) {
        Ok(good) => Ok(good),
        Err(AllocError) => Err(Error::SqliteFailure(ErrorCode::OutOfMemory)),
    }
}

// The same, with the heads in the rows of the jobs.
fn verdict_on(alloc: Global, all: &AllRows) -> Result<bool, Error>
    ensures verdict { (trees : Trees) → FindsAllRows trees all.now → IfOk result (TellsState Version.Fourth trees) }
    ensures memory { IfErr result (λ error. error ≡ SqliteFailure OutOfMemory) }
{
    let read = found_heads(alloc, &all.jobs)?;
    match read {
        Some(heads) => verdict_with(alloc, all, &heads),
        None => Ok(false),
    }
}

/// Whether the rows of all tables are those of a state.
pub(crate) fn are_of_a_state<S: Alter>(
    alloc: Global,
    conn: &mut Connection<S>,
) -> Result<bool, Error>
    ensures { ReadsFrom S.Store Version.Fourth (TellsState Version.Fourth) conn.old conn.new result }
{
    let all = read_all_rows(alloc, conn)?;
    verdict_on(alloc, &all)
}
