// Adopting a database as a spool's. One with none of the tables gets them. One with any of them is
// inspected, and those of an earlier version become those of this one.
ghost use Rattle.std.specs.Prelude.{◌≡◌, ◌≢◌, None, Err, IfErr, IsErr, OnOk};
ghost use Rattle.sqlite.specs.Held.{state};
ghost use Rattle.sqlite.specs.State.{HasCleanDisk};
ghost use Rattle.uu_core.specs.State.{empty};
ghost use Rattle.uu_schema.specs.Faults.{IsFaultOfThisCall};
ghost use Rattle.uu_schema.specs.Schema.{no_schema, spool_schema};
ghost use Rattle.uu_schema.specs.Encoded.{HoldsAgain, HoldsState};
ghost use Rattle.uu_schema.specs.Statements.{TakesStep, Transacts};
ghost use Rattle.uu_schema.specs.Steps.{IsIdle, Stands};
ghost use Rattle.uu_schema.specs.Earlier.{IsEarlierVersion, schema_of};
ghost use Rattle.uu_adopt.specs.Adoption.{Adopts, AdoptsSpool, IsRefused, IsSpared, MakesSchema};
ghost use Rattle.uu_adopt.specs.AllRows.{FindsAllEarlier};
ghost use Rattle.uu_adopt.specs.FoundTables.{HasNone, HasNoneOrAll, HasUnversionedTables};

use crate::all_earlier::{AllEarlier, earlier_rows_of, read_all_earlier};
use crate::inspection::inspect;
use crate::renewal::{NewRows, changes_of, made_of};
use crate::tables::{Found, inspect_schema};
use sqlite::{Alter, Connection, Error, Transaction};
use std::alloc::Global;
use uu_core::laws::states_stay_well_formed;
use uu_rows::or_error;
use uu_schema::{Halt, StoreFault, Version, create, halt_fault, store_fault};
use uu_statements::rewrite;

// An empty spool in a database with none of its tables.
fn create_tables<S: Alter>(conn: &mut Connection<S>) -> Result<(), StoreFault>
    requires { IsIdle conn.old }
    ensures idle { IsIdle conn.new }
    ensures fresh { IfErr result IsFaultOfThisCall }
    ensures makes { MakesSchema no_schema spool_schema (λ old new. HoldsState new empty) (state S.Store conn.old) (state S.Store conn.new) result }
{
    states_stay_well_formed();
    match create(conn) {
        Ok(()) => Ok(()),
        Err(halt) => Err(halt_fault(conn, &halt)),
    }
}

// Within a transaction, makes the tables of this version in the place of those of an earlier one,
// with the rows of the state that had these rows.
fn write_rows<S: Alter>(
    alloc: Global,
    tx: &mut Transaction<'_, S>,
    from: Version,
    all: &AllEarlier,
) -> Result<(), Error>
    requires earlier { IsEarlierVersion from }
    requires found { HasCleanDisk (state S.Store tx.old.conn.now) → Stands (schema_of from) (state S.Store tx.old.conn.now).now → FindsAllEarlier from (state S.Store tx.old.conn.now).now.trees all.now }
    ensures { TakesStep S.Store (schema_of from) spool_schema (HoldsAgain from) tx.old tx.new result }
{
    let Some(rows) = earlier_rows_of(all) else {
        return Err(Error::QueryReturnedNoRows);
    };
    let made = or_error(made_of(alloc, &rows))?;
    let rows = NewRows {
        next: rows.next,
        systems: &made.systems,
        jobs: rows.jobs,
        bodies: &made.bodies,
        entries: rows.entries,
        links: rows.links,
        taken: rows.taken,
    };
    let changes = or_error(changes_of(alloc, &rows))?;
    rewrite(alloc, tx, from, &changes)
}

// The same in a transaction of its own: all of it, or nothing changes.
fn renew<S: Alter>(
    alloc: Global,
    conn: &mut Connection<S>,
    from: Version,
    all: &AllEarlier,
) -> Result<(), Halt>
    requires idle { IsIdle conn.old }
    requires earlier { IsEarlierVersion from }
    requires found { HasCleanDisk (state S.Store conn.old) → Stands (schema_of from) (state S.Store conn.old).now → FindsAllEarlier from (state S.Store conn.old).now.trees all.now }
    ensures { Transacts S.Store (schema_of from) spool_schema (HoldsAgain from) conn.old conn.new result }
{
    let mut tx = conn.transaction();
    write_rows(alloc, &mut tx, from, all)?;
    tx.commit().map_err(Halt::Commit)
}

// The same. A halt is a fault.
fn write_anew<S: Alter>(
    alloc: Global,
    conn: &mut Connection<S>,
    from: Version,
    all: &AllEarlier,
) -> Result<(), StoreFault>
    requires idle { IsIdle conn.old }
    requires earlier { IsEarlierVersion from }
    requires found { HasCleanDisk (state S.Store conn.old) → Stands (schema_of from) (state S.Store conn.old).now → FindsAllEarlier from (state S.Store conn.old).now.trees all.now }
    ensures idle { IsIdle conn.new }
    ensures fresh { IfErr result IsFaultOfThisCall }
    ensures makes { MakesSchema (schema_of from) spool_schema (HoldsAgain from) (state S.Store conn.old) (state S.Store conn.new) result }
    ensures spared { IsRefused result → IsSpared (state S.Store conn.old) (state S.Store conn.new) result }
{
    match renew(alloc, conn, from, all) {
        Ok(()) => Ok(()),
        Err(halt) => Err(halt_fault(conn, &halt)),
    }
}

// The tables of version 4 in a database that has those of an earlier version, with the same rows.
fn migrate_tables<S: Alter>(
    alloc: Global,
    conn: &mut Connection<S>,
    from: Version,
) -> Result<(), StoreFault>
    requires idle { IsIdle conn.old }
    requires earlier { IsEarlierVersion from }
    ensures idle { IsIdle conn.new }
    ensures fresh { IfErr result IsFaultOfThisCall }
    ensures makes { MakesSchema (schema_of from) spool_schema (HoldsAgain from) (state S.Store conn.old) (state S.Store conn.new) result }
    ensures spared { IsRefused result → IsSpared (state S.Store conn.old) (state S.Store conn.new) result }
{
    match read_all_earlier(alloc, conn, from) {
        Ok(all) => write_anew(alloc, conn, from, &all),
        Err(error) => Err(store_fault(conn, &error)),
    }
}

// Inspects a database with a table `spool`. If it is taken and has the tables of an earlier
// version, they become those of version 4.
fn adopt_spool<S: Alter>(
    alloc: Global,
    conn: &mut Connection<S>,
    tables: Option<Version>,
) -> Result<(), StoreFault>
    requires { IsIdle conn.old }
    ensures idle { IsIdle conn.new }
    ensures never_failed { IfErr result (λ fault. fault ≢ StoreFault.Failed) }
    ensures half { tables ≡ None → IsErr result }
    ensures adopts { AdoptsSpool tables (state S.Store conn.old) (state S.Store conn.new) result }
{
    match inspect(alloc, conn, tables) {
        Ok(()) => match tables {
            Some(Version::First) => migrate_tables(alloc, conn, Version::First),
            Some(Version::Second) => migrate_tables(alloc, conn, Version::Second),
            Some(Version::Third) => migrate_tables(alloc, conn, Version::Third),
            Some(Version::Fourth) => Ok(()),
            None => Ok(()),
        },
        Err(fault) => Err(fault),
    }
}

/// Creates the tables of a spool in a database that has none of them. Inspects any other database,
/// and leaves it as it is, except that it turns the tables of an earlier version into those of
/// version 4, in one transaction.
///
/// # Errors
/// `Foreign` if a table has one of the names and no table `spool` says a version; then the code
/// asks nothing else. Otherwise `Newer` if a row names a later version, and `Foreign` if a table is
/// missing or a row isn't a spool's. `Memory` and `Store` are those of the database.
pub fn adopt_database<S: Alter>(alloc: Global, conn: &mut Connection<S>) -> Result<(), StoreFault>
    requires { IsIdle conn.old }
    ensures idle { IsIdle conn.new }
    ensures never_failed { IfErr result (λ fault. fault ≢ StoreFault.Failed) }
    ensures adopted { OnOk result (HasNoneOrAll conn.old.schema) }
    ensures other { HasUnversionedTables conn.old.schema → (result ≡ Err StoreFault.Foreign) × (conn.new ≡ conn.old) }
    ensures empty_never_refused { HasNone conn.old.schema → IfErr result (λ fault. (fault ≢ StoreFault.Foreign) × (fault ≢ StoreFault.Newer)) }
    ensures adopts { Adopts (state S.Store conn.old) (state S.Store conn.new) result }
{
    match inspect_schema(conn.schema()) {
        Found::Nothing => create_tables(conn),
        Found::Spool { tables } => adopt_spool(alloc, conn, tables),
        Found::Other => Err(StoreFault::Foreign),
    }
}
