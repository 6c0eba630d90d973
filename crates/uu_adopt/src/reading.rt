// Every row of each table, read when a database is inspected.
ghost use Rattle.std.specs.Prelude.{◌≡◌, ◌↔◌, List, Err, IfOk, IfErr, IsTrue};
ghost use Rattle.sqlite.specs.declared.error.Error.TheVariants.{SqliteFailure};
ghost use Rattle.sqlite.specs.declared.error.ErrorCode.TheVariants.{OutOfMemory};
ghost use Rattle.uu_schema.specs.declared.version.Version.{Version};
ghost use Rattle.uu_schema.specs.Earlier.{IsEarlierVersion};
ghost use Rattle.uu_adopt.specs.Reading.{AreRead, AreRowids, IsRead, HasWaits, HasLinks, FindsSystems, FindsBareSystems, FindsLines, FindsRanges, FindsEntries, FindsPieces, FindsWaits, FindsLinks, FindsTaken, ReadsFrom};

use crate::integer::integer_in;
use sqlite::{Alter, Connection, Error, Row};
use std::alloc::Global;
use uu_rows::{
    RowFault, TypedRow, ask, ask_bare_systems, ask_lines, ask_links, ask_ranges, ask_systems,
    ask_taken, ask_waits, or_none, read_all,
};
use uu_schema::Version;
use uu_tables::{
    BareSystem, EntryColumns, LineColumns, LinkColumns, Piece, RangeColumns, SystemColumns,
    TakenColumns, WaitColumns,
};

// Whether the first columns of the rows are whole numbers that rise, as rowids in their order do.
pub(crate) fn are_rowids(rows: &[Row]) -> bool
    ensures { IsTrue result ↔ AreRowids rows.now }
{
    let Some((first, rest)) = rows.split_first() else {
        return true;
    };
    let Some(mut last) = integer_in(first) else {
        return false;
    };
    for row in rest {
        let Some(id) = integer_in(row) else {
            return false;
        };
        if last.value >= id.value {
            return false;
        }
        last = id;
    }
    true
}

// The typed rows, if the rows are theirs and their rowids rise.
fn typed<T: TypedRow>(alloc: Global, rows: &[Row], ids: &[Row]) -> Result<Vec<T>, RowFault>
    ensures rows { IfOk result (λ all. AreRead T.cells T.IsReadable rows.now ids.now all.items) }
    ensures bad { result ≡ Err RowFault.Bad → (all : List T) → ¬ AreRead T.cells T.IsReadable rows.now ids.now all }
{
    if are_rowids(ids) {
        read_all(alloc, rows)
    } else {
        Err(RowFault::Bad)
    }
}

/// The same. Out of memory is an error, and `None` means rows that aren't typed rows. If the key is
/// the rowid, both are the same rows.
pub(crate) fn found<T: TypedRow>(
    alloc: Global,
    rows: &[Row],
    ids: &[Row],
) -> Result<Option<Vec<T>>, Error>
    ensures read { IfOk result (IsRead T.cells T.IsReadable rows.now ids.now) }
    ensures memory { IfErr result (λ error. error ≡ SqliteFailure OutOfMemory) }
{
    or_none(typed(alloc, rows, ids))
}

/// The systems, by name. `None` if a row of the table isn't a system's, or two rows have the same
/// rowid.
pub(crate) fn read_systems<S: Alter>(
    alloc: Global,
    conn: &mut Connection<S>,
) -> Result<Option<Vec<SystemColumns>>, Error>
    ensures { ReadsFrom S.Store Version.Fourth FindsSystems conn.old conn.new result }
{
    let rows = ask_systems(conn)?;
    let ids = ask(conn, "SELECT rowid FROM systems ORDER BY rowid")?;
    found(alloc, &rows, &ids)
}

/// The systems of an earlier version, by name. `None` if a row of the table isn't a system's, or two
/// rows have the same rowid.
pub(crate) fn read_bare_systems<S: Alter>(
    alloc: Global,
    conn: &mut Connection<S>,
) -> Result<Option<Vec<BareSystem>>, Error>
    ensures { (v : Version) → IsEarlierVersion v → ReadsFrom S.Store v FindsBareSystems conn.old conn.new result }
{
    let rows = ask_bare_systems(conn)?;
    let ids = ask(conn, "SELECT rowid FROM systems ORDER BY rowid")?;
    found(alloc, &rows, &ids)
}

/// The lines, by system and place. `None` if a row of the table isn't a line's, or two rows have
/// the same rowid.
pub(crate) fn read_lines<S: Alter>(
    alloc: Global,
    conn: &mut Connection<S>,
) -> Result<Option<Vec<LineColumns>>, Error>
    ensures { (v : Version) → IsEarlierVersion v → ReadsFrom S.Store v FindsLines conn.old conn.new result }
{
    let rows = ask_lines(conn)?;
    let ids = ask(conn, "SELECT rowid FROM lines ORDER BY rowid")?;
    found(alloc, &rows, &ids)
}

/// The ranges, by system, place and first minute. `None` if a row of the table isn't a range's, or
/// two rows have the same rowid.
pub(crate) fn read_ranges<S: Alter>(
    alloc: Global,
    conn: &mut Connection<S>,
) -> Result<Option<Vec<RangeColumns>>, Error>
    ensures { (v : Version) → IsEarlierVersion v → ReadsFrom S.Store v FindsRanges conn.old conn.new result }
{
    let rows = ask_ranges(conn)?;
    let ids = ask(conn, "SELECT rowid FROM ranges ORDER BY rowid")?;
    found(alloc, &rows, &ids)
}

/// The map entries with their bytes, by host. `None` if a row of the table isn't an entry's, or two
/// rows have the same rowid.
pub(crate) fn read_entries<S: Alter>(
    alloc: Global,
    conn: &mut Connection<S>,
) -> Result<Option<Vec<EntryColumns>>, Error>
    ensures { (v : Version) → ReadsFrom S.Store v (FindsEntries v) conn.old conn.new result }
{
    let rows = ask(conn, "SELECT host, bytes FROM entries ORDER BY host")?;
    let ids = ask(conn, "SELECT rowid FROM entries ORDER BY rowid")?;
    found(alloc, &rows, &ids)
}

/// The pieces with their bytes, by job and place. `None` if a row of the table isn't a piece's, or
/// two rows have the same rowid.
pub(crate) fn read_pieces<S: Alter>(
    alloc: Global,
    conn: &mut Connection<S>,
) -> Result<Option<Vec<Piece>>, Error>
    ensures { (v : Version) → IsEarlierVersion v → ReadsFrom S.Store v FindsPieces conn.old conn.new result }
{
    let rows = ask(
        conn,
        "SELECT job, place, bytes FROM pieces ORDER BY job, place",
    )?;
    let ids = ask(conn, "SELECT rowid FROM pieces ORDER BY rowid")?;
    found(alloc, &rows, &ids)
}

// The success waits, by system, if the version has a table of them.
fn read_waits_of_table<S: Alter>(
    alloc: Global,
    conn: &mut Connection<S>,
) -> Result<Option<Vec<WaitColumns>>, Error>
    ensures { (v : Version) → HasWaits v → ReadsFrom S.Store v (FindsWaits v) conn.old conn.new result }
{
    let rows = ask_waits(conn)?;
    let ids = ask(conn, "SELECT rowid FROM success_waits ORDER BY rowid")?;
    found(alloc, &rows, &ids)
}

/// The success waits, by system. Versions 1 and 4 have no table of them, so the list is empty
/// without a question.
/// `None` if a row of the table isn't a success wait's, or two rows have the same rowid.
pub(crate) fn read_waits<S: Alter>(
    alloc: Global,
    conn: &mut Connection<S>,
    version: Version,
) -> Result<Option<Vec<WaitColumns>>, Error>
    ensures { ReadsFrom S.Store version (FindsWaits version) conn.old conn.new result }
{
    match version {
        Version::First => Ok(Some(Vec::new(alloc))),
        Version::Second => read_waits_of_table(alloc, conn),
        Version::Third => read_waits_of_table(alloc, conn),
        Version::Fourth => Ok(Some(Vec::new(alloc))),
    }
}

// The numbers below which neighbours won't ask again, by system, if the version has a table of
// them.
fn read_links_of_table<S: Alter>(
    alloc: Global,
    conn: &mut Connection<S>,
) -> Result<Option<Vec<LinkColumns>>, Error>
    ensures { (v : Version) → HasLinks v → ReadsFrom S.Store v (FindsLinks v) conn.old conn.new result }
{
    let rows = ask_links(conn)?;
    let ids = ask(conn, "SELECT rowid FROM links ORDER BY rowid")?;
    found(alloc, &rows, &ids)
}

/// The numbers below which neighbours won't ask again, by system. Versions 1 and 2 have none, so
/// the list is empty without a question. `None` if a row of the table isn't a link's, or two rows
/// have the same rowid.
pub(crate) fn read_links<S: Alter>(
    alloc: Global,
    conn: &mut Connection<S>,
    version: Version,
) -> Result<Option<Vec<LinkColumns>>, Error>
    ensures { ReadsFrom S.Store version (FindsLinks version) conn.old conn.new result }
{
    match version {
        Version::First => Ok(Some(Vec::new(alloc))),
        Version::Second => Ok(Some(Vec::new(alloc))),
        Version::Third => read_links_of_table(alloc, conn),
        Version::Fourth => read_links_of_table(alloc, conn),
    }
}

// The jobs that were taken from neighbours, by system and number, if the version has a table of
// them.
fn read_taken_of_table<S: Alter>(
    alloc: Global,
    conn: &mut Connection<S>,
) -> Result<Option<Vec<TakenColumns>>, Error>
    ensures { (v : Version) → HasLinks v → ReadsFrom S.Store v (FindsTaken v) conn.old conn.new result }
{
    let rows = ask_taken(conn)?;
    let ids = ask(conn, "SELECT rowid FROM taken ORDER BY rowid")?;
    found(alloc, &rows, &ids)
}

/// The jobs that were taken from neighbours, by system and number. Versions 1 and 2 have none, so
/// the list is empty without a question. `None` if a row of the table isn't such a job's, or two
/// rows have the same rowid.
pub(crate) fn read_taken<S: Alter>(
    alloc: Global,
    conn: &mut Connection<S>,
    version: Version,
) -> Result<Option<Vec<TakenColumns>>, Error>
    ensures { ReadsFrom S.Store version (FindsTaken version) conn.old conn.new result }
{
    match version {
        Version::First => Ok(Some(Vec::new(alloc))),
        Version::Second => Ok(Some(Vec::new(alloc))),
        Version::Third => read_taken_of_table(alloc, conn),
        Version::Fourth => read_taken_of_table(alloc, conn),
    }
}
