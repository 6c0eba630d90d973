// Changes, each with its statements, and several changes in one transaction.
ghost use Rattle.uu_schema.specs.Steps.{IsIdle};
ghost use Rattle.uu_schema.specs.Statements.{TakesStep, Writes, Transacts};
ghost use Rattle.uu_schema.specs.Schema.{spool_schema};
ghost use Rattle.uu_schema.specs.Earlier.{schema_of, IsEarlierVersion};
ghost use Rattle.uu_statements.specs.Makes.{Makes, MakesAll, MakesAnew};

use crate::entries::{add_entry, remove_entry};
use crate::jobs::{add_body, add_job, remove_job, set_grade, set_next, set_queued};
use crate::links::{add_link, add_taken, forget_taken, remove_link};
use crate::systems::{add_system, remove_system, set_call, set_definition};
use sqlite::{Alter, Connection, Error, Transaction};
use std::alloc::Global;
use uu_schema::{Halt, Version, make_anew};
use uu_tables::Change;

// The statements of a change.
fn write<S: Alter>(
    alloc: Global,
    tx: &mut Transaction<'_, S>,
    change: &Change<'_>,
) -> Result<usize, Error>
    ensures { Writes S.Store (Makes change.now) tx.old tx.new result }
{
    match change {
        Change::AddSystem(def) => add_system(alloc, tx, def),
        Change::SetDefinition(def) => set_definition(alloc, tx, def),
        Change::SetCall { system, call } => set_call(tx, system, call),
        Change::RemoveSystem { system } => remove_system(tx, system),
        Change::AddLink { system, below } => add_link(tx, system, *below),
        Change::RemoveLink { system } => remove_link(tx, system),
        Change::AddTaken { system, taken } => add_taken(tx, system, taken),
        Change::ForgetTaken { system, below } => forget_taken(tx, system, *below),
        Change::AddJob { number, columns } => add_job(alloc, tx, *number, columns),
        Change::SetGrade { number, grade } => set_grade(tx, *number, *grade),
        Change::SetQueued { number, queued } => set_queued(tx, *number, *queued),
        Change::RemoveJob { number } => remove_job(tx, *number),
        Change::AddBody { job, bytes } => add_body(tx, *job, bytes),
        Change::RemoveEntry { host } => remove_entry(tx, host),
        Change::AddEntry { host, bytes } => add_entry(tx, host, bytes),
        Change::SetNext { next } => set_next(tx, *next),
    }
}

// The changes, one after the other.
fn write_all<S: Alter>(
    alloc: Global,
    tx: &mut Transaction<'_, S>,
    changes: &[Change<'_>],
) -> Result<(), Error>
    ensures { Writes S.Store (MakesAll changes.now) tx.old tx.new result }
{
    for change in changes {
        write(alloc, tx, change)?;
    }
    Ok(())
}

/// Makes the changes, one after the other, in one transaction: all of them or none.
pub(crate) fn commit<S: Alter>(
    alloc: Global,
    conn: &mut Connection<S>,
    changes: &[Change<'_>],
) -> Result<(), Halt>
    requires { IsIdle conn.old }
    ensures { Transacts S.Store spool_schema spool_schema (MakesAll changes.now) conn.old conn.new result }
{
    let mut tx = conn.transaction();
    write_all(alloc, &mut tx, changes)?;
    tx.commit().map_err(Halt::Commit)
}

/// Makes the tables of this version in the place of those of an earlier one, with what the changes
/// make of an empty spool.
pub fn rewrite<S: Alter>(
    alloc: Global,
    tx: &mut Transaction<'_, S>,
    from: Version,
    changes: &[Change<'_>],
) -> Result<(), Error>
    requires { IsEarlierVersion from }
    ensures { TakesStep S.Store (schema_of from) spool_schema (MakesAnew changes.now) tx.old tx.new result }
{
    make_anew(tx, from)?;
    write_all(alloc, tx, changes)
}
