// Map entries.
ghost use Rattle.std.specs.Prelude.{◌≡◌, IfOk, map, option_map};
ghost use Rattle.uu_core.specs.State.{entry_at};
ghost use Rattle.uu_tables.specs.Tables.{entry_columns};
ghost use Rattle.uu_questions.specs.Answers.{Asks};

use crate::asks::{typed_row, typed_rows};
use sqlite::{Alter, Connection, Error, params};
use std::alloc::{AllocError, Global};
use uu_names::{Listed, SiteName};
use uu_tables::EntryColumns;

// The row of the map entry of this host, if it is there.
fn row_of_host<S: Alter>(
    alloc: Global,
    conn: &mut Connection<S>,
    host: &SiteName,
) -> Result<Option<EntryColumns>, Error>
    ensures { Asks S.Store (λ s found. found ≡ option_map entry_columns (entry_at s host.now)) conn.old conn.new result }
{
    typed_row(
        alloc,
        conn,
        "SELECT host, bytes FROM entries WHERE host = ?1 ORDER BY host",
        params![host.as_str()],
    )
}

/// The text of the map entry of this host, if it is there.
pub fn entry_of_host<S: Alter>(
    alloc: Global,
    conn: &mut Connection<S>,
    host: &SiteName,
) -> Result<Option<Vec<u8>>, Error>
    ensures { Asks S.Store (λ s found. option_map (λ text. text.items) found ≡ option_map (λ entry. entry.bytes) (entry_at s host.now)) conn.old conn.new result }
{
    match row_of_host(alloc, conn, host)? {
        Some(row) => Ok(Some(row.bytes.into_vec())),
        None => Ok(None),
    }
}

// The rows of all map entries.
fn all_rows<S: Alter>(alloc: Global, conn: &mut Connection<S>) -> Result<Vec<EntryColumns>, Error>
    ensures { Asks S.Store (λ s found. found.items ≡ map entry_columns s.entries) conn.old conn.new result }
{
    typed_rows(
        alloc,
        conn,
        "SELECT host, bytes FROM entries ORDER BY host",
        &[],
    )
}

// The texts in these rows.
fn texts_of(alloc: Global, rows: Vec<EntryColumns>) -> Result<Vec<Listed<u8>>, AllocError>
    ensures { IfOk result (λ texts. texts.items ≡ map (λ row. row.bytes) rows.items) }
{
    let mut texts = Vec::new(alloc);
    for row in rows {
        texts.push(row.bytes)?;
    }
    Ok(texts)
}

/// The texts of all map entries, in byte order of their hosts.
pub fn all_entries<S: Alter>(
    alloc: Global,
    conn: &mut Connection<S>,
) -> Result<Vec<Listed<u8>>, Error>
    ensures { Asks S.Store (λ s texts. texts.items ≡ map (λ entry. entry.bytes) s.entries) conn.old conn.new result }
{
    let rows = all_rows(alloc, conn)?;
    let texts = texts_of(alloc, rows)?;
    Ok(texts)
}
