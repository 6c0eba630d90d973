// Rows of jobs that are checked and not kept: their texts are borrowed.
use std::marker::Model;
use uu_names::{Grade, Listed, Word};

/// What a job is for, in words that are borrowed.
#[derive(Drop)]
pub enum KindColumns<'a> {
    /// A file goes to the system.
    Send {
        /// The file here.
        source: &'a [u8],
        /// The file there.
        target: &'a [u8],
    },
    /// A file is fetched from the system.
    Request {
        /// The file there.
        source: &'a [u8],
        /// The file here.
        target: &'a [u8],
    },
    /// The system runs a command.
    Execute {
        /// The command.
        command: &'a [u8],
        /// Its arguments.
        arguments: Listed<Word>,
    },
}

/// A row of the table `jobs`, seen as its `JobHead`. Its names and words are borrowed from the row.
#[derive(Drop)]
pub struct HeadColumns<'a> {
    /// Its number.
    pub number: u32,
    /// The system for which it waits.
    pub system: &'a [u8],
    /// Its grade.
    pub grade: Grade,
    /// The user that it belongs to.
    pub user: &'a [u8],
    /// What it is for.
    pub kind: KindColumns<'a>,
    /// When it was handed in, or rejuvenated, in UTC seconds.
    pub queued: u64,
    /// How many bytes it has.
    pub size: u32,
}

impl<'a> Model for HeadColumns<'a> {
    ghost use Rattle.uu_core.specs.declared.job.JobHead.{JobHead};

    ghost Value = { JobHead };

    ghost use Rattle.uu_tables.specs.Heads.{head_in, HasForms};

    ghost view = { head_in };

    ghost invariant = { HasForms };
}
