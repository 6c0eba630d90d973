// The rows of an earlier version as those of this one, and the changes that make them in the tables of
// an empty spool.
ghost use Rattle.std.specs.Prelude.{◌≡◌, IfOk, OnOk, map};
ghost use Rattle.uu_core.specs.State.{State, IsWellFormed, empty};
ghost use Rattle.uu_tables.specs.Changes.{applied};
ghost use Rattle.uu_tables.specs.Tables.{Tables, tables_of, system_columns, body_of};
ghost use Rattle.uu_tables.specs.Earlier.{earlier_tables_of};
ghost use Rattle.uu_check.specs.OfState.{AreEarlierRowsOf};
ghost use Rattle.uu_adopt.specs.Renewal.{AreRowsOf, add_system, add_job, add_body, add_entry, add_link, add_taken, each};

use crate::assembly::systems_of;
use crate::joining::bodies_of;
use std::alloc::{AllocError, Global};
use uu_check::EarlierRows;
use uu_core::{JobHead, Taken};
use uu_rows::RowFault;
use uu_tables::{
    Body, CallColumns, Change, EntryColumns, JobColumns, LinkColumns, SystemColumns, TakenColumns,
};
use uu_times::SystemDef;

/// The rows of this version's tables, each table in the order of its key.
#[derive(Clone, Copy)]
pub(crate) struct NewRows<'a> {
    pub(crate) next: u32,
    pub(crate) systems: &'a [SystemColumns],
    pub(crate) jobs: &'a [JobHead],
    pub(crate) bodies: &'a [Body],
    pub(crate) entries: &'a [EntryColumns],
    pub(crate) links: &'a [LinkColumns],
    pub(crate) taken: &'a [TakenColumns],
}

fn add_system<'a>(
    changes: &mut Vec<Change<'a>>,
    def: &'a SystemDef,
    call: CallColumns,
) -> Result<(), AllocError>
    ensures { OnOk result ((t : Tables) → applied changes.new.items t ≡ add_system (record { def = def.now; call = call }) (applied changes.old.items t)) }
{
    changes.push(Change::AddSystem(def))?;
    changes.push(Change::SetCall {
        system: &def.name,
        call,
    })?;
    Ok(())
}

// When a job was handed in, at a second of 32 bits as in every spool.
fn second_of(job: &JobHead) -> Result<u32, RowFault>
    ensures { IfOk result (λ second. second ≡ job.now.queued) }
{
    u32::try_from(job.queued).map_err(|_| RowFault::Bad)
}

// A row that changes make.
trait Added<'a> {
    ghost adds: { Self → Tables → Tables };

    // Adds the changes that make it.
    fn add_to(&'a self, changes: &mut Vec<Change<'a>>) -> Result<(), RowFault>
        ensures { OnOk result ((t : Tables) → applied changes.new.items t ≡ adds self.now (applied changes.old.items t)) };
}

impl<'a> Added<'a> for SystemColumns {
    ghost adds = { add_system };

    fn add_to(&'a self, changes: &mut Vec<Change<'a>>) -> Result<(), RowFault> {
        let call = self.call.copied()?;
        add_system(changes, &self.def, call)?;
        Ok(())
    }
}

impl<'a> Added<'a> for JobHead {
    ghost adds = { add_job };

    fn add_to(&'a self, changes: &mut Vec<Change<'a>>) -> Result<(), RowFault> {
        let queued = second_of(self)?;
        changes.push(Change::AddJob {
            number: self.number,
            columns: JobColumns {
                system: &self.system,
                grade: self.grade,
                user: &self.user,
                kind: &self.kind,
                queued,
                size: self.size,
            },
        })?;
        Ok(())
    }
}

impl<'a> Added<'a> for Body {
    ghost adds = { add_body };

    fn add_to(&'a self, changes: &mut Vec<Change<'a>>) -> Result<(), RowFault> {
        changes.push(Change::AddBody {
            job: self.job,
            bytes: self.bytes.as_slice(),
        })?;
        Ok(())
    }
}

impl<'a> Added<'a> for EntryColumns {
    ghost adds = { add_entry };

    fn add_to(&'a self, changes: &mut Vec<Change<'a>>) -> Result<(), RowFault> {
        let host = self.host.clone()?;
        changes.push(Change::AddEntry {
            host,
            bytes: self.bytes.as_slice(),
        })?;
        Ok(())
    }
}

impl<'a> Added<'a> for LinkColumns {
    ghost adds = { add_link };

    fn add_to(&'a self, changes: &mut Vec<Change<'a>>) -> Result<(), RowFault> {
        changes.push(Change::AddLink {
            system: &self.system,
            below: self.below,
        })?;
        Ok(())
    }
}

impl<'a> Added<'a> for TakenColumns {
    ghost adds = { add_taken };

    fn add_to(&'a self, changes: &mut Vec<Change<'a>>) -> Result<(), RowFault> {
        changes.push(Change::AddTaken {
            system: &self.system,
            taken: Taken {
                number: self.taken.number,
                mark: self.taken.mark,
                job: self.taken.job,
            },
        })?;
        Ok(())
    }
}

fn add_all<'a, R: Added<'a>>(changes: &mut Vec<Change<'a>>, rows: &'a [R]) -> Result<(), RowFault>
    ensures { OnOk result ((t : Tables) → applied changes.new.items t ≡ each R.adds rows.now (applied changes.old.items t)) }
{
    for row in rows {
        row.add_to(changes)?;
    }
    Ok(())
}

/// The changes that make these rows in the tables of an empty spool, if they are those of a state.
pub(crate) fn changes_of<'a>(alloc: Global, rows: &NewRows<'a>) -> Result<Vec<Change<'a>>, RowFault>
    ensures { IfOk result (λ changes. (s : State) → IsWellFormed s → AreRowsOf rows.now (tables_of s) → applied changes.items (tables_of empty) ≡ tables_of s) }
{
    let mut changes = Vec::new(alloc);
    add_all(&mut changes, rows.systems)?;
    add_all(&mut changes, rows.jobs)?;
    add_all(&mut changes, rows.bodies)?;
    add_all(&mut changes, rows.entries)?;
    add_all(&mut changes, rows.links)?;
    add_all(&mut changes, rows.taken)?;
    changes.push(Change::SetNext { next: rows.next })?;
    Ok(changes)
}

// ---- from the rows of an earlier version

/// The rows that a state has in this version in another form than in earlier ones.
#[derive(Drop)]
pub(crate) struct Made {
    pub(crate) systems: Vec<SystemColumns>,
    pub(crate) bodies: Vec<Body>,
}

/// The rows of systems and bodies of the state that has these rows in an earlier version.
pub(crate) fn made_of(alloc: Global, rows: &EarlierRows<'_>) -> Result<Made, RowFault>
    ensures { (s : State) → IsWellFormed s → AreEarlierRowsOf rows.now (earlier_tables_of s)
        → IfOk result (λ made. (made.systems.items ≡ map system_columns s.systems) × (made.bodies.items ≡ map body_of s.jobs)) }
{
    let systems = systems_of(
        alloc,
        rows.systems,
        rows.lines,
        rows.ranges,
        rows.success_waits,
    )?;
    let bodies = bodies_of(alloc, rows.jobs, rows.pieces)?;
    Ok(Made { systems, bodies })
}
