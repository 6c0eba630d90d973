// What a database with a table `spool` is.
ghost use Rattle.std.specs.Prelude.{◌≡◌, ◌≢◌, Some, None, IfOk, IfErr, IsErr};
ghost use Rattle.sqlite.specs.Held.{state};
ghost use Rattle.uu_schema.specs.Steps.{IsIdle};
ghost use Rattle.uu_schema.specs.declared.version.Version.{Version};
ghost use Rattle.uu_adopt.specs.Reading.{ReadsFrom};
ghost use Rattle.uu_adopt.specs.Adoption.{Finds, Inspects};
ghost use Rattle.uu_adopt.specs.AllRows.{TellsState};

use crate::version::names_later;
use crate::{all_earlier, all_rows};
use sqlite::{Alter, Connection, Error};
use std::alloc::Global;
use uu_schema::{StoreFault, Version, store_fault};

/// What a database with a table `spool` is.
#[derive(Clone, Copy)]
pub(crate) enum Finding {
    /// A spool's.
    Spool,
    /// Another program's, or damaged.
    Foreign,
    /// Of a later version.
    Later,
}

// Whether the rows of all tables of a version are those of a state.
fn are_of_a_state<S: Alter>(
    alloc: Global,
    conn: &mut Connection<S>,
    version: Version,
) -> Result<bool, Error>
    ensures { ReadsFrom S.Store version (TellsState version) conn.old conn.new result }
{
    match version {
        Version::First => all_earlier::are_of_a_state(alloc, conn, Version::First),
        Version::Second => all_earlier::are_of_a_state(alloc, conn, Version::Second),
        Version::Third => all_earlier::are_of_a_state(alloc, conn, Version::Third),
        Version::Fourth => all_rows::are_of_a_state(alloc, conn),
    }
}

// What the database is, from the version whose tables are all there. The version that it names
// comes first.
fn inspect_rows<S: Alter>(
    alloc: Global,
    conn: &mut Connection<S>,
    tables: Option<Version>,
) -> Result<Finding, Error>
    ensures finds { (v : Version) → ReadsFrom S.Store v (λ trees finding. tables ≡ Some v → Finds v finding trees) conn.old conn.new result }
    ensures half { tables ≡ None → IfOk result (λ finding. finding ≢ Finding.Spool) }
{
    if names_later(conn)? {
        return Ok(Finding::Later);
    }
    let Some(version) = tables else {
        return Ok(Finding::Foreign);
    };
    if are_of_a_state(alloc, conn, version)? {
        Ok(Finding::Spool)
    } else {
        Ok(Finding::Foreign)
    }
}

/// Inspects a database with a table `spool`, and leaves it as it is.
pub(crate) fn inspect<S: Alter>(
    alloc: Global,
    conn: &mut Connection<S>,
    tables: Option<Version>,
) -> Result<(), StoreFault>
    requires { IsIdle conn.old }
    ensures idle { IsIdle conn.new }
    ensures never_failed { IfErr result (λ fault. fault ≢ StoreFault.Failed) }
    ensures half { tables ≡ None → IsErr result }
    ensures inspects { Inspects tables (state S.Store conn.old) (state S.Store conn.new) result }
{
    match inspect_rows(alloc, conn, tables) {
        Ok(Finding::Spool) => Ok(()),
        Ok(Finding::Foreign) => Err(StoreFault::Foreign),
        Ok(Finding::Later) => Err(StoreFault::Newer),
        Err(error) => Err(store_fault(conn, &error)),
    }
}
