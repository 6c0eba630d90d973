// The bodies without their bytes, read when a database is checked. A body's job is its rowid, so one
// question gives both.
ghost use Rattle.uu_schema.specs.declared.version.Version.{Version};
ghost use Rattle.uu_adopt.specs.Reading.{FindsBodies, ReadsFrom};

use crate::reading::found;
use sqlite::{Alter, Connection, Error};
use std::alloc::Global;
use uu_rows::ask;
use uu_tables::BodySize;

/// How many bytes the body of each job has, by job. No byte is read. `None` if a row of the table
/// isn't a body's.
pub(crate) fn read_sizes<S: Alter>(
    alloc: Global,
    conn: &mut Connection<S>,
) -> Result<Option<Vec<BodySize>>, Error>
    ensures { ReadsFrom S.Store Version.Fourth FindsBodies conn.old conn.new result }
{
    let rows = ask(conn, "SELECT job, length(bytes) FROM bodies ORDER BY job")?;
    found(alloc, &rows, &rows)
}
