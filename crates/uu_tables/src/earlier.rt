// Rows of the tables of versions 1 to 3 that later versions don't have.
use crate::rows::CallColumns;
use uu_names::{Grade, Listed, SiteName};

/// The bytes of a piece; the last piece of a job may have fewer, but at least one.
pub const PIECE_BYTES: usize = 16_384;

/// A row of the table `systems`, whose lines are in tables of their own.
#[derive(Drop)]
pub struct BareSystem {
    /// The system's name.
    pub name: SiteName,
    /// After how many failures in a row calls become rare, at most 1,000,000.
    pub max_retries: u32,
    /// How its calls went.
    pub call: CallColumns,
}

/// A row of the table `lines`.
#[derive(Drop)]
pub struct LineColumns {
    /// The system that the line is of.
    pub system: SiteName,
    /// The line's place among the system's, from 0 on.
    pub place: u32,
    /// The lowest grade for which a call is made, kept by its rank.
    pub grade: Grade,
    /// The minutes to wait after a failure, if the line says so.
    pub retry: Option<u32>,
}

/// A row of the table `ranges`.
#[derive(Drop)]
pub struct RangeColumns {
    /// The system that the range's line is of.
    pub system: SiteName,
    /// The line's place among the system's.
    pub place: u32,
    /// The first minute of the week at which a call is made.
    pub low: u32,
    /// The last one of the range.
    pub high: u32,
}

/// A row of the table `success_waits`. A system whose success wait is 0 has no such row.
#[derive(Drop)]
pub struct WaitColumns {
    /// The system.
    pub system: SiteName,
    /// How many seconds it is left alone after a successful call, 1 to 31,536,000.
    pub wait: u32,
}

/// A row of the table `pieces`.
#[derive(Drop)]
pub struct Piece {
    /// The number of the job.
    pub job: u32,
    /// The piece's place among the job's, from 0 on.
    pub place: u32,
    /// Its bytes, at most 16,384.
    pub bytes: Listed<u8>,
}
