// The rows of a table, read from the database under a spool.
use sqlite::{Alter, Connection, Row};
use std::process::Abort;

/// All rows of the answer to a question.
pub(crate) fn rows_of<S: Alter>(
    rt: &impl Abort,
    conn: &mut Connection<S>,
    sql: &'static str,
) -> Vec<Row> {
    conn.query_all(sql, &[]).expect(rt, "rows")
}

/// The number at a place of a row.
pub(crate) fn number(rt: &impl Abort, row: &Row, place: usize) -> u32 {
    row.get(place).expect(rt, "a number")
}
