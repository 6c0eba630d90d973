// Whether all tables are those of a spool.
ghost use Rattle.std.specs.Prelude.{◌≡◌, ◌↔◌, true, IfOk, All, map, nat_le, ◌&&◌};
ghost use Rattle.std.specs.List.{list_all};
ghost use Rattle.uu_core.specs.State.{IsDefinition, IsLine, numbers_end};
ghost use Rattle.uu_tables.specs.Tables.{Tables};
ghost use Rattle.uu_check.specs.OfState.{AreTables, AreRowsOf};
ghost use Rattle.uu_check.specs.Tests.{bare_of, is_call, is_spool, are_called, have_bodies, are_links, system_before};
ghost use Rattle.uu_check.specs.Walk.{rises};

use crate::earlier::{are_below, are_known};
use crate::entries::are_entries;
use crate::links::are_links;
use crate::systems::is_call;
use crate::walk::{rise, walk_owners};
use std::alloc::{AllocError, Global};
use uu_core::limits::NUMBERS_END;
use uu_names::laws::{grade_is_sound, name_is_sound};
use uu_tables::{
    BareSystem, BodySize, EntryColumns, HeadColumns, LinkColumns, SystemColumns, TakenColumns,
};
use uu_times::laws::windows_are_sound;
use uu_times::{Line, SystemDef};

/// The rows of the tables, each table in the order of its key.
#[derive(Clone, Copy)]
pub struct Rows<'a> {
    /// The next number.
    pub next: u32,
    /// The systems.
    pub systems: &'a [SystemColumns],
    /// The jobs.
    pub jobs: &'a [HeadColumns<'a>],
    /// How many bytes they have.
    pub bodies: &'a [BodySize],
    /// The map entries.
    pub entries: &'a [EntryColumns],
    /// The links of the systems.
    pub links: &'a [LinkColumns],
    /// What was taken by them.
    pub taken: &'a [TakenColumns],
}

fn line_is_sound(line: &Line)
    ensures { IsLine line.now }
{
    grade_is_sound(&line.grade);
    windows_are_sound(&line.windows);
}

fn definition_is_sound(def: &SystemDef)
    ensures { IsDefinition def.now }
{
    name_is_sound(&def.name);
    for line in def.lines() {
        line_is_sound(line);
    }
}

fn definitions_are_sound(systems: &[SystemColumns])
    ensures { All (λ system. IsDefinition system.def) systems.now }
{
    for system in systems {
        definition_is_sound(&system.def);
    }
}

fn bare_of(system: &SystemColumns) -> Result<BareSystem, AllocError>
    ensures { IfOk result (λ bare. bare ≡ bare_of system.now) }
{
    let name = system.def.name.clone()?;
    let call = system.call.copied()?;
    Ok(BareSystem {
        name,
        max_retries: system.def.max_retries,
        call,
    })
}

// The systems without their lines and success waits.
pub(crate) fn bare_systems(
    alloc: Global,
    systems: &[SystemColumns],
) -> Result<Vec<BareSystem>, AllocError>
    ensures { IfOk result (λ all. all.items ≡ map bare_of systems.now) }
{
    let mut all = Vec::new(alloc);
    for system in systems {
        all.push(bare_of(system)?)?;
    }
    Ok(all)
}

fn are_calls(systems: &[BareSystem]) -> bool
    ensures { result ≡ list_all is_call systems.now }
{
    for system in systems {
        if !is_call(system) {
            return false;
        }
    }
    true
}

fn are_called(systems: &[BareSystem]) -> bool
    ensures { result ≡ are_called systems.now }
{
    rise(systems) && are_calls(systems)
}

fn have_bodies(
    next: u32,
    systems: &[BareSystem],
    jobs: &[HeadColumns<'_>],
    bodies: &[BodySize],
) -> bool
    requires { rises system_before systems.now ≡ true }
    ensures { result ≡ have_bodies next systems.now jobs.now bodies.now }
{
    rise(jobs) && are_below(next, jobs) && are_known(systems, jobs) && walk_owners(jobs, bodies)
}

fn tested(rows: &Rows<'_>, systems: &[BareSystem]) -> bool
    ensures { result ≡ (nat_le 1 rows.now.next && nat_le rows.now.next numbers_end && are_called systems.now && have_bodies rows.now.next systems.now rows.now.jobs.now rows.now.bodies.now && are_links rows.now.next systems.now rows.now.links.now rows.now.taken.now) }
{
    rows.next >= 1
        && rows.next <= NUMBERS_END
        && are_called(systems)
        && have_bodies(rows.next, systems, rows.jobs, rows.bodies)
        && are_links(rows.next, systems, rows.links, rows.taken)
}

fn pass(alloc: Global, rows: &Rows<'_>) -> Result<bool, AllocError>
    ensures { IfOk result (λ good. good ≡ is_spool rows.now.next (map bare_of rows.now.systems.now) rows.now.jobs.now rows.now.bodies.now rows.now.entries.now rows.now.links.now rows.now.taken.now) }
{
    let systems = bare_systems(alloc, rows.systems)?;
    if tested(rows, systems.as_slice()) {
        are_entries(alloc, rows.entries)
    } else {
        Ok(false)
    }
}

/// Whether the rows are those of a state that a spool reaches.
pub fn are_tables(alloc: Global, rows: &Rows<'_>) -> Result<bool, AllocError>
    ensures { (t : Tables) → AreRowsOf rows.now t → IfOk result (λ good. (good ≡ true) ↔ AreTables t) }
{
    definitions_are_sound(rows.systems);
    pass(alloc, rows)
}
