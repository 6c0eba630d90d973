// The statements on map entries.
ghost use Rattle.uu_schema.specs.Statements.{Writes};
ghost use Rattle.uu_tables.specs.declared.change.Change.{Change};
ghost use Rattle.uu_statements.specs.Makes.{Makes};

use sqlite::{Alter, Error, Transaction, params};
use uu_names::SiteName;

pub(crate) fn add_entry<S: Alter>(
    tx: &mut Transaction<'_, S>,
    host: &SiteName,
    bytes: &[u8],
) -> Result<usize, Error>
    ensures { Writes S.Store (Makes (Change.AddEntry host.now bytes.entry)) tx.old tx.new result }
{
    tx.execute(
        "INSERT INTO entries (host, bytes) VALUES (?1, ?2)",
        params![host.as_str(), bytes],
    )
}

pub(crate) fn remove_entry<S: Alter>(
    tx: &mut Transaction<'_, S>,
    host: &SiteName,
) -> Result<usize, Error>
    ensures { Writes S.Store (Makes (Change.RemoveEntry host.now)) tx.old tx.new result }
{
    tx.execute(
        "DELETE FROM entries WHERE host = ?1",
        params![host.as_str()],
    )
}
