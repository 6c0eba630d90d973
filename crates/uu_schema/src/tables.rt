// The tables of an empty spool.
ghost use Rattle.uu_schema.specs.Steps.{IsIdle};
ghost use Rattle.uu_schema.specs.Statements.{TakesStep, Transacts, Writes};
ghost use Rattle.uu_schema.specs.Schema.{no_schema, schema_with_spool, schema_with_systems, schema_with_jobs, schema_with_bodies, schema_with_entries, schema_with_links, spool_schema};
ghost use Rattle.uu_schema.specs.Earlier.{schema_of, IsEarlierVersion};
ghost use Rattle.uu_schema.specs.Made.{StaysEmpty, BeginsEmpty, IsMadeAnew};
ghost use Rattle.uu_schema.specs.Held.{MakesEmpty};

use crate::drops::drop_tables;
use crate::fault::Halt;
use crate::version::Version;
use sqlite::{Alter, Connection, Error, Transaction};

fn create_spool<S: Alter>(tx: &mut Transaction<'_, S>) -> Result<usize, Error>
    ensures { TakesStep S.Store no_schema schema_with_spool (StaysEmpty no_schema schema_with_spool) tx.old tx.new result }
{
    tx.execute(
        "CREATE TABLE spool (id INTEGER PRIMARY KEY, version INTEGER NOT NULL, next INTEGER NOT NULL) STRICT",
        &[],
    )
}

fn create_systems<S: Alter>(tx: &mut Transaction<'_, S>) -> Result<usize, Error>
    ensures { TakesStep S.Store schema_with_spool schema_with_systems (StaysEmpty schema_with_spool schema_with_systems) tx.old tx.new result }
{
    tx.execute(
        "CREATE TABLE systems (name TEXT NOT NULL PRIMARY KEY, definition BLOB NOT NULL, last INTEGER NOT NULL, failures INTEGER NOT NULL, wait INTEGER NOT NULL, outcome INTEGER NOT NULL, why TEXT) STRICT",
        &[],
    )
}

fn create_jobs<S: Alter>(tx: &mut Transaction<'_, S>) -> Result<usize, Error>
    ensures { TakesStep S.Store schema_with_systems schema_with_jobs (StaysEmpty schema_with_systems schema_with_jobs) tx.old tx.new result }
{
    tx.execute(
        "CREATE TABLE jobs (number INTEGER PRIMARY KEY, system TEXT NOT NULL, rank INTEGER NOT NULL, user TEXT NOT NULL, kind INTEGER NOT NULL, queued INTEGER NOT NULL, first_word TEXT NOT NULL, second_word TEXT NOT NULL, size INTEGER NOT NULL) STRICT",
        &[],
    )
}

fn create_bodies<S: Alter>(tx: &mut Transaction<'_, S>) -> Result<usize, Error>
    ensures { TakesStep S.Store schema_with_jobs schema_with_bodies (StaysEmpty schema_with_jobs schema_with_bodies) tx.old tx.new result }
{
    tx.execute(
        "CREATE TABLE bodies (job INTEGER PRIMARY KEY, bytes BLOB NOT NULL) STRICT",
        &[],
    )
}

fn create_entries<S: Alter>(tx: &mut Transaction<'_, S>) -> Result<usize, Error>
    ensures { TakesStep S.Store schema_with_bodies schema_with_entries (StaysEmpty schema_with_bodies schema_with_entries) tx.old tx.new result }
{
    tx.execute(
        "CREATE TABLE entries (host TEXT NOT NULL PRIMARY KEY, bytes BLOB NOT NULL) STRICT",
        &[],
    )
}

fn create_links<S: Alter>(tx: &mut Transaction<'_, S>) -> Result<usize, Error>
    ensures { TakesStep S.Store schema_with_entries schema_with_links (StaysEmpty schema_with_entries schema_with_links) tx.old tx.new result }
{
    tx.execute(
        "CREATE TABLE links (system TEXT NOT NULL PRIMARY KEY, below INTEGER NOT NULL) STRICT",
        &[],
    )
}

fn create_taken<S: Alter>(tx: &mut Transaction<'_, S>) -> Result<usize, Error>
    ensures { TakesStep S.Store schema_with_links spool_schema (StaysEmpty schema_with_links spool_schema) tx.old tx.new result }
{
    tx.execute(
        "CREATE TABLE taken (system TEXT NOT NULL, number INTEGER NOT NULL, mark INTEGER NOT NULL, job INTEGER NOT NULL, PRIMARY KEY (system, number)) STRICT",
        &[],
    )
}

fn insert_spool<S: Alter>(tx: &mut Transaction<'_, S>) -> Result<usize, Error>
    ensures { Writes S.Store BeginsEmpty tx.old tx.new result }
{
    tx.execute(
        "INSERT INTO spool (id, version, next) VALUES (1, 4, 1)",
        &[],
    )
}

// The tables from one of them on, without rows.
fn create_from_links<S: Alter>(tx: &mut Transaction<'_, S>) -> Result<usize, Error>
    ensures { TakesStep S.Store schema_with_entries spool_schema (StaysEmpty schema_with_entries spool_schema) tx.old tx.new result }
{
    create_links(tx)?;
    create_taken(tx)
}

fn create_from_entries<S: Alter>(tx: &mut Transaction<'_, S>) -> Result<usize, Error>
    ensures { TakesStep S.Store schema_with_bodies spool_schema (StaysEmpty schema_with_bodies spool_schema) tx.old tx.new result }
{
    create_entries(tx)?;
    create_from_links(tx)
}

fn create_from_bodies<S: Alter>(tx: &mut Transaction<'_, S>) -> Result<usize, Error>
    ensures { TakesStep S.Store schema_with_jobs spool_schema (StaysEmpty schema_with_jobs spool_schema) tx.old tx.new result }
{
    create_bodies(tx)?;
    create_from_entries(tx)
}

fn create_from_jobs<S: Alter>(tx: &mut Transaction<'_, S>) -> Result<usize, Error>
    ensures { TakesStep S.Store schema_with_systems spool_schema (StaysEmpty schema_with_systems spool_schema) tx.old tx.new result }
{
    create_jobs(tx)?;
    create_from_bodies(tx)
}

fn create_from_systems<S: Alter>(tx: &mut Transaction<'_, S>) -> Result<usize, Error>
    ensures { TakesStep S.Store schema_with_spool spool_schema (StaysEmpty schema_with_spool spool_schema) tx.old tx.new result }
{
    create_systems(tx)?;
    create_from_jobs(tx)
}

fn create_from_spool<S: Alter>(tx: &mut Transaction<'_, S>) -> Result<usize, Error>
    ensures { TakesStep S.Store no_schema spool_schema (StaysEmpty no_schema spool_schema) tx.old tx.new result }
{
    create_spool(tx)?;
    create_from_systems(tx)
}

// All tables, and the row of `spool`.
fn create_tables<S: Alter>(tx: &mut Transaction<'_, S>) -> Result<usize, Error>
    ensures { TakesStep S.Store no_schema spool_schema IsMadeAnew tx.old tx.new result }
{
    create_from_spool(tx)?;
    insert_spool(tx)
}

/// Makes the tables of an empty spool in a database without tables, in one transaction: all of them
/// or none.
pub fn create<S: Alter>(conn: &mut Connection<S>) -> Result<(), Halt>
    requires { IsIdle conn.old }
    ensures { Transacts S.Store no_schema spool_schema MakesEmpty conn.old conn.new result }
{
    let mut tx = conn.transaction();
    create_tables(&mut tx)?;
    tx.commit().map_err(Halt::Commit)
}

/// Drops the tables of an earlier version, and makes those of an empty spool, within a transaction.
/// Whoever keeps what they held reads it before and writes it afterwards.
pub fn make_anew<S: Alter>(tx: &mut Transaction<'_, S>, from: Version) -> Result<usize, Error>
    requires { IsEarlierVersion from }
    ensures { TakesStep S.Store (schema_of from) spool_schema IsMadeAnew tx.old tx.new result }
{
    drop_tables(tx, from)?;
    create_tables(tx)
}
