// The rows of an answer, read one at a time.
ghost use Rattle.std.specs.Prelude.{OnOk};
ghost use Rattle.sqlite.specs.Order.{Row};
ghost use Rattle.sqlite.specs.Values.{bound};
ghost use Rattle.sqlite.specs.Given.{IsPlain};
ghost use Rattle.sqlite.specs.Listing.{understood};
ghost use Rattle.uu_schema.specs.Schema.{spool_schema};
ghost use Rattle.uu_questions.specs.Walks.{AsksAndWalks};

use sqlite::types::ValueRef;
use sqlite::{Alter, Connection, Error, Row};

/// Something that takes the rows of an answer, one after the other.
pub(crate) trait RowTaker {
    /// What it is before a row, the row, and what it is after it.
    ghost takes: { Self → Row → Self → Type 0 };

    /// Takes the next row.
    fn take(&mut self, row: &Row) -> Result<(), Error>
        ensures { OnOk result (takes self.old row.now self.new) };
}

/// Passes on each row of the answer, one at a time.
pub(crate) fn walk_rows<S: Alter, T: RowTaker>(
    conn: &mut Connection<S>,
    sql: &str,
    params: &[ValueRef<'_>],
    taker: &mut T,
) -> Result<(), Error>
    requires { IsPlain (understood spool_schema sql.now) }
    ensures { AsksAndWalks S.Store T.takes sql.now (bound params.now) conn.old conn.new taker.old taker.new result }
{
    let mut rows = conn.query(sql, params)?;
    'rows: for _ in 0..u64::MAX {
        let Some(row) = rows.next()? else {
            return Ok(());
        };
        taker.take(row)?;
    }
    Err(Error::QueryReturnedNoRows)
}
