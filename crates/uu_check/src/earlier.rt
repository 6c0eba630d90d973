// Whether all tables of an earlier version are those of a spool.
ghost use Rattle.std.specs.Prelude.{◌≡◌, ◌↔◌, true, IfOk, is_some, nat_le, ◌&&◌};
ghost use Rattle.std.specs.List.{list_all, list_any};
ghost use Rattle.uu_core.specs.State.{numbers_end, same_text};
ghost use Rattle.uu_tables.specs.Earlier.{EarlierTables};
ghost use Rattle.uu_check.specs.OfState.{AreEarlierTables, AreEarlierRowsOf};
ghost use Rattle.uu_check.specs.Tests.{is_below, is_known, is_earlier_spool, are_systems, are_jobs, are_links, system_before};
ghost use Rattle.uu_check.specs.Walk.{rises};

use crate::entries::are_entries;
use crate::jobs::Head;
use crate::links::are_links;
use crate::walk::{rise, walk_owners};
use std::alloc::{AllocError, Global};
use uu_core::JobHead;
use uu_core::limits::NUMBERS_END;
use uu_tables::{
    BareSystem, EntryColumns, LineColumns, LinkColumns, Piece, RangeColumns, TakenColumns,
    WaitColumns,
};

pub(crate) fn are_below<H: Head>(next: u32, jobs: &[H]) -> bool
    ensures { result ≡ list_all (λ job. is_below next (H.head job)) jobs.now }
{
    for job in jobs {
        if job.number() >= next {
            return false;
        }
    }
    true
}

// A mark of a name, under which the place of its system is remembered.
fn mark_of(name: &[u8]) -> u8 {
    let mut mark = 0u8;
    for byte in name {
        mark = mark.wrapping_mul(31).wrapping_add(*byte);
    }
    mark
}

fn is_named(system: &BareSystem, name: &[u8]) -> bool
    ensures { result ≡ same_text system.now.name name.now }
{
    system.name.as_str().as_bytes() == name
}

fn is_at(systems: &[BareSystem], place: usize, name: &[u8]) -> bool
    ensures { result ≡ true → list_any (λ system. same_text system.name name.now) systems.now ≡ true }
{
    if place >= systems.len() {
        return false;
    }
    is_named(&systems[place], name)
}

// The place of the job's system. The one that is remembered is tried first.
fn place_for<H: Head>(systems: &[BareSystem], remembered: usize, job: &H) -> Option<usize>
    requires { rises system_before systems.now ≡ true }
    ensures { is_some result ≡ is_known systems.now (H.head job.now) }
{
    let name = job.system();
    if is_at(systems, remembered, name) {
        return Some(remembered);
    }
    match systems.binary_search_by(|system| system.name.as_str().as_bytes().cmp(name)) {
        Ok(place) => Some(place),
        Err(_) => None,
    }
}

/// Whether the systems of the jobs are there. Most jobs are for few systems, so where each was found
/// last is remembered.
pub(crate) fn are_known<H: Head>(systems: &[BareSystem], jobs: &[H]) -> bool
    requires { rises system_before systems.now ≡ true }
    ensures { result ≡ list_all (λ job. is_known systems.now (H.head job)) jobs.now }
{
    let mut places = [0usize; 256];
    for job in jobs {
        let mark = usize::from(mark_of(job.system()));
        let Some(place) = place_for(systems, places[mark], job) else {
            return false;
        };
        places[mark] = place;
    }
    true
}

fn are_systems(
    systems: &[BareSystem],
    lines: &[LineColumns],
    ranges: &[RangeColumns],
    waits: &[WaitColumns],
) -> bool
    ensures { result ≡ are_systems systems.now lines.now ranges.now waits.now }
{
    rise(systems)
        && walk_owners(systems, lines)
        && walk_owners(lines, ranges)
        && walk_owners(systems, waits)
}

fn are_jobs(next: u32, systems: &[BareSystem], jobs: &[JobHead], pieces: &[Piece]) -> bool
    requires { rises system_before systems.now ≡ true }
    ensures { result ≡ are_jobs next systems.now jobs.now pieces.now }
{
    rise(jobs) && are_below(next, jobs) && are_known(systems, jobs) && walk_owners(jobs, pieces)
}

/// The rows of the tables, each table in the order of its key.
#[derive(Clone, Copy)]
pub struct EarlierRows<'a> {
    /// The next number.
    pub next: u32,
    /// The systems.
    pub systems: &'a [BareSystem],
    /// Their lines.
    pub lines: &'a [LineColumns],
    /// The ranges of these.
    pub ranges: &'a [RangeColumns],
    /// The jobs.
    pub jobs: &'a [JobHead],
    /// Their pieces.
    pub pieces: &'a [Piece],
    /// The map entries.
    pub entries: &'a [EntryColumns],
    /// The success waits of the systems.
    pub success_waits: &'a [WaitColumns],
    /// The links of the systems.
    pub links: &'a [LinkColumns],
    /// What was taken by them.
    pub taken: &'a [TakenColumns],
}

fn tested(rows: &EarlierRows<'_>) -> bool
    ensures { result ≡ (nat_le 1 rows.now.next && nat_le rows.now.next numbers_end && are_systems rows.now.systems.now rows.now.lines.now rows.now.ranges.now rows.now.success_waits.now && are_jobs rows.now.next rows.now.systems.now rows.now.jobs.now rows.now.pieces.now && are_links rows.now.next rows.now.systems.now rows.now.links.now rows.now.taken.now) }
{
    rows.next >= 1
        && rows.next <= NUMBERS_END
        && are_systems(rows.systems, rows.lines, rows.ranges, rows.success_waits)
        && are_jobs(rows.next, rows.systems, rows.jobs, rows.pieces)
        && are_links(rows.next, rows.systems, rows.links, rows.taken)
}

fn pass(alloc: Global, rows: &EarlierRows<'_>) -> Result<bool, AllocError>
    ensures { IfOk result (λ good. good ≡ is_earlier_spool rows.now.next rows.now.systems.now rows.now.lines.now rows.now.ranges.now rows.now.success_waits.now rows.now.jobs.now rows.now.pieces.now rows.now.entries.now rows.now.links.now rows.now.taken.now) }
{
    if tested(rows) {
        are_entries(alloc, rows.entries)
    } else {
        Ok(false)
    }
}

/// Whether the rows are those of a state that a spool reaches.
pub fn are_earlier_tables(alloc: Global, rows: &EarlierRows<'_>) -> Result<bool, AllocError>
    ensures { (t : EarlierTables) → AreEarlierRowsOf rows.now t → IfOk result (λ good. (good ≡ true) ↔ AreEarlierTables t) }
{
    pass(alloc, rows)
}
