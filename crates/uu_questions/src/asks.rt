// Questions in SQL whose rows are read at once.
ghost use Rattle.sqlite.specs.Values.{bound};
ghost use Rattle.sqlite.specs.Given.{IsPlain};
ghost use Rattle.sqlite.specs.Listing.{understood};
ghost use Rattle.uu_schema.specs.Schema.{spool_schema};
ghost use Rattle.uu_questions.specs.Reading.{AsksAndReads, AreTyped, IsFirst, IsAnyRow};

use sqlite::types::ValueRef;
use sqlite::{Alter, Connection, Error};
use std::alloc::Global;
use uu_rows::{TypedRow, first_row, read_rows};

/// The rows of the answer, as typed rows.
pub(crate) fn typed_rows<S: Alter, T: TypedRow>(
    alloc: Global,
    conn: &mut Connection<S>,
    sql: &str,
    params: &[ValueRef<'_>],
) -> Result<Vec<T>, Error>
    requires { IsPlain (understood spool_schema sql.now) }
    ensures { AsksAndReads S.Store (AreTyped T.cells T.IsReadable) sql.now (bound params.now) conn.old conn.new result }
{
    let rows = conn.query_all(sql, params)?;
    read_rows(alloc, &rows)
}

/// The first row of the answer, as a typed row, if there is one.
pub(crate) fn typed_row<S: Alter, T: TypedRow>(
    alloc: Global,
    conn: &mut Connection<S>,
    sql: &str,
    params: &[ValueRef<'_>],
) -> Result<Option<T>, Error>
    requires { IsPlain (understood spool_schema sql.now) }
    ensures { AsksAndReads S.Store (IsFirst T.cells T.IsReadable) sql.now (bound params.now) conn.old conn.new result }
{
    let rows = conn.query_all(sql, params)?;
    first_row(alloc, &rows)
}

/// Whether the answer has a row.
pub(crate) fn has_row<S: Alter>(
    conn: &mut Connection<S>,
    sql: &str,
    params: &[ValueRef<'_>],
) -> Result<bool, Error>
    requires { IsPlain (understood spool_schema sql.now) }
    ensures { AsksAndReads S.Store IsAnyRow sql.now (bound params.now) conn.old conn.new result }
{
    let rows = conn.query_all(sql, params)?;
    Ok(!rows.is_empty())
}
