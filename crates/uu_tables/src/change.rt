// One statement that writes, with its parameters.
use crate::rows::CallColumns;
use uu_core::{Kind, Taken};
use uu_names::{Grade, SiteName, Word};
use uu_times::SystemDef;

/// What the row of a new job has besides its number.
#[derive(Drop)]
pub struct JobColumns<'a> {
    /// The system for which it waits.
    pub system: &'a SiteName,
    /// Its grade, kept by its rank.
    pub grade: Grade,
    /// The user that it belongs to.
    pub user: &'a Word,
    /// What it is for.
    pub kind: &'a Kind,
    /// When it was handed in, in UTC seconds.
    pub queued: u32,
    /// How many bytes it has.
    pub size: u32,
}

/// A change of the tables, made by a statement for each table that it is about. If no row has the
/// name or number, it changes nothing.
#[derive(Drop)]
pub enum Change<'a> {
    /// One more system, which was never called.
    AddSystem(&'a SystemDef),
    /// Another definition of a system.
    SetDefinition(&'a SystemDef),
    /// Other calls of a system.
    SetCall {
        /// The system.
        system: &'a SiteName,
        /// How they went.
        call: CallColumns,
    },
    /// The system is removed, with its link: the number below which it won't ask again, and what
    /// was taken from it.
    RemoveSystem {
        /// The system.
        system: &'a SiteName,
    },
    /// The number below which a neighbour won't ask again, if it said none before.
    AddLink {
        /// The neighbour.
        system: &'a SiteName,
        /// The number.
        below: u32,
    },
    /// The number below which a neighbour won't ask again is removed.
    RemoveLink {
        /// The neighbour.
        system: &'a SiteName,
    },
    /// One more job that was taken from a neighbour.
    AddTaken {
        /// The neighbour.
        system: &'a SiteName,
        /// The job.
        taken: Taken,
    },
    /// Jobs that were taken from a neighbour under numbers below this one are removed.
    ForgetTaken {
        /// The neighbour.
        system: &'a SiteName,
        /// The number.
        below: u32,
    },
    /// One more job, without its bytes.
    AddJob {
        /// Its number.
        number: u32,
        /// The rest of its row.
        columns: JobColumns<'a>,
    },
    /// Another grade for a job.
    SetGrade {
        /// The job's number.
        number: u32,
        /// The grade.
        grade: Grade,
    },
    /// A job counts as handed in at another second.
    SetQueued {
        /// The job's number.
        number: u32,
        /// The second, in UTC.
        queued: u32,
    },
    /// The job is removed, with its bytes.
    RemoveJob {
        /// Its number.
        number: u32,
    },
    /// The bytes of a job.
    AddBody {
        /// The job's number.
        job: u32,
        /// The bytes.
        bytes: &'a [u8],
    },
    /// The map entry of a host is removed.
    RemoveEntry {
        /// The host.
        host: SiteName,
    },
    /// One more map entry.
    AddEntry {
        /// The host.
        host: SiteName,
        /// The entry's text.
        bytes: &'a [u8],
    },
    /// Another number for the next job.
    SetNext {
        /// The number.
        next: u32,
    },
}
