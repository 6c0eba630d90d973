// Rows of the tables, as their columns are read and written. A job's row is its `JobHead`.
ghost use Rattle.std.specs.Prelude.{◌≡◌, IfOk};

use std::alloc::AllocError;
use uu_core::Taken;
use uu_names::{Listed, SiteName, Word};
use uu_times::SystemDef;

/// The number of the outcome of a system that was never called.
pub const NEVER_CALLED: u32 = 0;

/// The number of the outcome of a call that failed.
pub const CALL_FAILED: u32 = 1;

/// The number of the outcome of a call that was made.
pub const CALL_MADE: u32 = 2;

/// The number of the kind of a job that sends a file.
pub const SEND: u32 = 0;

/// The number of the kind of a job that fetches a file.
pub const REQUEST: u32 = 1;

/// The number of the kind of a job that runs a command.
pub const EXECUTE: u32 = 2;

/// The columns of a system that say how its calls went.
#[derive(Drop)]
pub struct CallColumns {
    /// When the last call was reported, in UTC seconds, at most 4,102,444,800.
    pub last: u32,
    /// The failures in a row, at most 1,000,000.
    pub failures: u32,
    /// How many seconds after `last` the system is left alone, at most 31,536,000.
    pub wait: u32,
    /// How the last call went: [`NEVER_CALLED`], [`CALL_FAILED`] or [`CALL_MADE`].
    pub outcome: u32,
    /// Why it failed, if it did.
    pub why: Option<Word>,
}

fn copied_reason(why: &Option<Word>) -> Result<Option<Word>, AllocError>
    ensures { IfOk result (λ copy. copy ≡ why.now) }
{
    match why {
        Some(word) => Ok(Some(word.clone()?)),
        None => Ok(None),
    }
}

impl CallColumns {
    /// The same columns.
    pub fn copied(&self) -> Result<CallColumns, AllocError>
        ensures { IfOk result (λ copy. copy ≡ self.now) }
    {
        let why = copied_reason(&self.why)?;
        Ok(CallColumns {
            last: self.last,
            failures: self.failures,
            wait: self.wait,
            outcome: self.outcome,
            why,
        })
    }
}

/// A row of the table `systems`.
#[derive(Drop)]
pub struct SystemColumns {
    /// The system's definition, kept as its sys file. Its name is a column of its own, too.
    pub def: SystemDef,
    /// How its calls went.
    pub call: CallColumns,
}

/// A row of the table `bodies`.
#[derive(Drop)]
pub struct Body {
    /// The number of the job.
    pub job: u32,
    /// All its bytes.
    pub bytes: Listed<u8>,
}

/// A row of the table `bodies` without the bytes.
#[derive(Drop)]
pub struct BodySize {
    /// The number of the job.
    pub job: u32,
    /// How many bytes it has.
    pub length: u32,
}

/// A row of the table `links`. A neighbour that never said that it won't ask for some numbers again
/// has no such row.
#[derive(Drop)]
pub struct LinkColumns {
    /// The neighbour.
    pub system: SiteName,
    /// The number below which it won't ask again, at least 1.
    pub below: u32,
}

/// A row of the table `taken`.
#[derive(Drop)]
pub struct TakenColumns {
    /// The neighbour.
    pub system: SiteName,
    /// What was taken from it.
    pub taken: Taken,
}

/// A row of the table `entries`.
#[derive(Drop)]
pub struct EntryColumns {
    /// The host that the entry is about.
    pub host: SiteName,
    /// The entry's text.
    pub bytes: Listed<u8>,
}
