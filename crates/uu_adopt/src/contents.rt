// Everything that a spool keeps, read at once, and the changes that make the same in an empty one.
ghost use Rattle.std.specs.Prelude.{◌≡◌, IfOk, IsSomeAnd};
ghost use Rattle.sqlite.specs.Tree.{Trees};
ghost use Rattle.uu_core.specs.State.{State, empty};
ghost use Rattle.uu_renumber.specs.Renumbered.{renumbered};
ghost use Rattle.uu_tables.specs.Changes.{applied};
ghost use Rattle.uu_tables.specs.Tables.{tables_of};
ghost use Rattle.uu_schema.specs.declared.version.Version.{Version};
ghost use Rattle.uu_schema.specs.Encoded.{HoldsState};
ghost use Rattle.uu_adopt.specs.Reading.{ReadsFrom};
ghost use Rattle.uu_adopt.specs.Contents.{AreContentsIn, AreContentsOf, FindsEvery, HasBodies};

use crate::heads::read_heads;
use crate::reading::{read_entries, read_links, read_systems, read_taken};
use crate::renewal::{NewRows, changes_of};
use crate::spool::read_next;
use sqlite::{Alter, Connection, Error};
use std::alloc::Global;
use uu_core::JobHead;
use uu_renumber::laws::renumbered_spools_give_new_numbers;
use uu_rows::{RowFault, ask, read_rows};
use uu_schema::Version;
use uu_tables::{Body, Change, EntryColumns, LinkColumns, SystemColumns, TakenColumns};

/// About how many bytes an empty spool takes in a file.
const FILE_ROOM: u64 = 65_536;

/// About how many bytes a row takes in a file besides its text.
const ROW_ROOM: u64 = 256;

/// Everything that a spool keeps: each row of its tables, in the order of its key.
#[derive(Drop)]
pub struct Contents {
    next: u32,
    systems: Vec<SystemColumns>,
    jobs: Vec<JobHead>,
    bodies: Vec<Body>,
    entries: Vec<EntryColumns>,
    links: Vec<LinkColumns>,
    taken: Vec<TakenColumns>,
}

impl Contents {
    /// The changes that make these rows in the tables of an empty spool.
    pub fn changes(&self, alloc: Global) -> Result<Vec<Change<'_>>, RowFault>
        ensures { IfOk result (λ changes. (s : State) → AreContentsOf s self.now → applied changes.items (tables_of empty) ≡ tables_of s) }
    {
        let rows = NewRows {
            next: self.next,
            systems: &self.systems,
            jobs: &self.jobs,
            bodies: &self.bodies,
            entries: &self.entries,
            links: &self.links,
            taken: &self.taken,
        };
        changes_of(alloc, &rows)
    }

    /// The number of the next job.
    pub fn next(&self) -> u32
        ensures { (s : State) → AreContentsOf s self.now → result ≡ s.next }
    {
        self.next
    }

    /// Gives the next job this number, unless it would get a higher one. All else stays.
    pub fn renumber(&mut self, number: u32)
        ensures { (s : State) → AreContentsOf s self.old → AreContentsOf (renumbered number s) self.new }
    {
        renumbered_spools_give_new_numbers();
        if self.next < number {
            self.next = number;
        }
    }

    /// About how many bytes of a file the rows take.
    pub fn room(&self) -> u64 {
        let mut room = FILE_ROOM;
        for body in self.bodies.as_slice() {
            room = with_row(room, body.bytes.as_slice().len());
        }
        for entry in self.entries.as_slice() {
            room = with_row(room, entry.bytes.as_slice().len());
        }
        let systems = self.systems.len().saturating_add(self.jobs.len());
        let links = self.links.len().saturating_add(self.taken.len());
        let rows = systems.saturating_add(links) as u64;
        room.saturating_add(rows.saturating_mul(ROW_ROOM))
    }
}

// The room with that of a row more, which has this text.
fn with_row(room: u64, text: usize) -> u64 {
    room.saturating_add(ROW_ROOM).saturating_add(text as u64)
}

// What was found of each table. `None` are rows that aren't those of a state.
#[derive(Drop)]
struct Every {
    next: Option<u32>,
    systems: Option<Vec<SystemColumns>>,
    jobs: Option<Vec<JobHead>>,
    bodies: Vec<Body>,
    entries: Option<Vec<EntryColumns>>,
    links: Option<Vec<LinkColumns>>,
    taken: Option<Vec<TakenColumns>>,
}

// The bodies with all their bytes, by job.
fn read_bodies<S: Alter>(alloc: Global, conn: &mut Connection<S>) -> Result<Vec<Body>, Error>
    ensures { ReadsFrom S.Store Version.Fourth HasBodies conn.old conn.new result }
{
    let rows = ask(conn, "SELECT job, bytes FROM bodies ORDER BY job")?;
    read_rows(alloc, &rows)
}

fn read_every<S: Alter>(alloc: Global, conn: &mut Connection<S>) -> Result<Every, Error>
    ensures { ReadsFrom S.Store Version.Fourth FindsEvery conn.old conn.new result }
{
    Ok(Every {
        next: read_next(conn, Version::Fourth)?,
        systems: read_systems(alloc, conn)?,
        jobs: read_heads(alloc, conn)?,
        bodies: read_bodies(alloc, conn)?,
        entries: read_entries(alloc, conn)?,
        links: read_links(alloc, conn, Version::Fourth)?,
        taken: read_taken(alloc, conn, Version::Fourth)?,
    })
}

// The contents, if the rows of every table were found.
fn contents_in(every: Every) -> Option<Contents>
    ensures { (trees : Trees) → FindsEvery trees every → (s : State) → HoldsState trees s → IsSomeAnd result (AreContentsOf s) }
{
    let Every {
        next,
        systems,
        jobs,
        bodies,
        entries,
        links,
        taken,
    } = every;
    Some(Contents {
        next: next?,
        systems: systems?,
        jobs: jobs?,
        bodies,
        entries: entries?,
        links: links?,
        taken: taken?,
    })
}

/// Everything that the spool in this database keeps. A row that no spool has is an error.
pub fn read_contents<S: Alter>(alloc: Global, conn: &mut Connection<S>) -> Result<Contents, Error>
    ensures { ReadsFrom S.Store Version.Fourth AreContentsIn conn.old conn.new result }
{
    let every = read_every(alloc, conn)?;
    match contents_in(every) {
        Some(contents) => Ok(contents),
        None => Err(Error::QueryReturnedNoRows),
    }
}
