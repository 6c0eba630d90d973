// Every row of a database with the tables of an earlier version, read to decide whether they are those
// of a spool, and to become rows of this version.
ghost use Rattle.std.specs.Prelude.{◌≡◌, None, IfOk, IfErr, IfSome};
ghost use Rattle.sqlite.specs.declared.error.Error.TheVariants.{SqliteFailure};
ghost use Rattle.sqlite.specs.declared.error.ErrorCode.TheVariants.{OutOfMemory};
ghost use Rattle.sqlite.specs.Tree.{Trees};
ghost use Rattle.uu_schema.specs.declared.version.Version.{Version};
ghost use Rattle.uu_schema.specs.Earlier.{IsEarlierVersion};
ghost use Rattle.uu_adopt.specs.Adoption.{IsOfNone};
ghost use Rattle.uu_adopt.specs.Reading.{ReadsFrom};
ghost use Rattle.uu_adopt.specs.AllRows.{AreEarlierRowsOf, FindsAllEarlier, TellsState};

use crate::heads::read_heads;
use crate::reading::{
    read_bare_systems, read_entries, read_lines, read_links, read_pieces, read_ranges, read_taken,
    read_waits,
};
use crate::spool::read_next;
use sqlite::{Alter, Connection, Error, ErrorCode};
use std::alloc::{AllocError, Global};
use uu_check::{EarlierRows, are_earlier_tables};
use uu_core::JobHead;
use uu_schema::Version;
use uu_tables::{
    BareSystem, EntryColumns, LineColumns, LinkColumns, Piece, RangeColumns, TakenColumns,
    WaitColumns,
};

/// The rows of each table in the order of its key, or `None` if they aren't those of a state.
#[derive(Drop)]
pub(crate) struct AllEarlier {
    pub(crate) next: Option<u32>,
    pub(crate) systems: Option<Vec<BareSystem>>,
    pub(crate) lines: Option<Vec<LineColumns>>,
    pub(crate) ranges: Option<Vec<RangeColumns>>,
    pub(crate) jobs: Option<Vec<JobHead>>,
    pub(crate) pieces: Option<Vec<Piece>>,
    pub(crate) entries: Option<Vec<EntryColumns>>,
    pub(crate) success_waits: Option<Vec<WaitColumns>>,
    pub(crate) links: Option<Vec<LinkColumns>>,
    pub(crate) taken: Option<Vec<TakenColumns>>,
}

pub(crate) fn read_all_earlier<S: Alter>(
    alloc: Global,
    conn: &mut Connection<S>,
    version: Version,
) -> Result<AllEarlier, Error>
    requires { IsEarlierVersion version }
    ensures { ReadsFrom S.Store version (FindsAllEarlier version) conn.old conn.new result }
{
    Ok(AllEarlier {
        next: read_next(conn, version)?,
        systems: read_bare_systems(alloc, conn)?,
        lines: read_lines(alloc, conn)?,
        ranges: read_ranges(alloc, conn)?,
        jobs: read_heads(alloc, conn)?,
        pieces: read_pieces(alloc, conn)?,
        entries: read_entries(alloc, conn)?,
        success_waits: read_waits(alloc, conn, version)?,
        links: read_links(alloc, conn, version)?,
        taken: read_taken(alloc, conn, version)?,
    })
}

// The rows, if those of every table were found.
pub(crate) fn earlier_rows_of(all: &AllEarlier) -> Option<EarlierRows<'_>>
    ensures rows { IfSome result (λ rows. AreEarlierRowsOf all.now rows) }
    ensures none { result ≡ None → (v : Version) (trees : Trees) → IsEarlierVersion v → FindsAllEarlier v trees all.now → IsOfNone v trees }
{
    Some(EarlierRows {
        next: all.next?,
        systems: all.systems.as_deref()?,
        lines: all.lines.as_deref()?,
        ranges: all.ranges.as_deref()?,
        jobs: all.jobs.as_deref()?,
        pieces: all.pieces.as_deref()?,
        entries: all.entries.as_deref()?,
        success_waits: all.success_waits.as_deref()?,
        links: all.links.as_deref()?,
        taken: all.taken.as_deref()?,
    })
}

// Whether the rows are those of a state. Out of memory is an error.
fn verdict_on(alloc: Global, all: &AllEarlier) -> Result<bool, Error>
    ensures verdict { (v : Version) (trees : Trees) → IsEarlierVersion v → FindsAllEarlier v trees all.now → IfOk result (TellsState v trees) }
    ensures memory { IfErr result (λ error. error ≡ SqliteFailure OutOfMemory) }
{
    let Some(rows) = earlier_rows_of(all) else {
        return Ok(false);
    };
    match are_earlier_tables(alloc, &rows) {
        Ok(good) => Ok(good),
        Err(AllocError) => Err(Error::SqliteFailure(ErrorCode::OutOfMemory)),
    }
}

/// Whether the rows of all tables of an earlier version are those of a state.
pub(crate) fn are_of_a_state<S: Alter>(
    alloc: Global,
    conn: &mut Connection<S>,
    version: Version,
) -> Result<bool, Error>
    requires { IsEarlierVersion version }
    ensures { ReadsFrom S.Store version (TellsState version) conn.old conn.new result }
{
    let all = read_all_earlier(alloc, conn, version)?;
    verdict_on(alloc, &all)
}
