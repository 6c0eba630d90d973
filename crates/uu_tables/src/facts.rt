// The facts from which a command is planned, asked of the tables.
use uu_core::{JobHead, SystemRow, Taken};

/// The answers of the tables before a command: only about what the command names. A fact that the
/// code didn't ask for can't be read.
#[derive(Drop)]
pub enum Facts {
    /// Before `Define`.
    Define {
        /// Whether the system is known.
        known: bool,
    },
    /// Before `Remove`.
    Remove {
        /// Whether the system is known.
        known: bool,
        /// Whether a job waits for it.
        waiting: bool,
    },
    /// Before `Queue`.
    Queue {
        /// Whether the job's system is known.
        known: bool,
        /// The number of the next job.
        next: u32,
    },
    /// Before `QueueOnce`.
    QueueOnce {
        /// Whether the neighbour and the job's system are known.
        known: bool,
        /// The number of the next job.
        next: u32,
        /// The number below which the neighbour won't ask again.
        below: u32,
        /// What was taken from it under the key's number.
        taken: Option<Taken>,
    },
    /// Before `Kill`, `Regrade` and `Rejuvenate`: the job of the number, if it is there.
    Job(Option<JobHead>),
    /// Before `Failed`: the system with its definition and its calls, if it is known.
    Failed(Option<SystemRow>),
    /// Before `Done`.
    Done {
        /// The system with its definition and its calls, if it is known.
        row: Option<SystemRow>,
        /// The jobs that are there under the named numbers.
        found: Vec<JobHead>,
    },
    /// Before `Release`.
    Release {
        /// Those of the named numbers under which a job waits for the system.
        found: Vec<u32>,
    },
    /// Before `Entry`: nothing.
    Entry,
    /// Before `Forget`.
    Forget {
        /// Whether the neighbour is known.
        known: bool,
        /// The number below which it wouldn't ask again so far.
        before: u32,
    },
}

/// The answers of the tables before a neighbour's bundle.
#[derive(Drop)]
pub struct TakeInFacts {
    /// Whether the neighbour is known.
    pub known: bool,
    /// The number of the next job.
    pub next: u32,
    /// The number below which the neighbour wouldn't ask again so far.
    pub before: u32,
    /// The answers about each job of the bundle, in their order.
    pub jobs: Vec<OfferedFacts>,
}

/// The answers about a job before its bundle.
#[derive(Clone, Copy, Debug)]
pub struct OfferedFacts {
    /// Whether the neighbour and the job's system are known.
    pub known: bool,
    /// What was taken from the neighbour under the job's number.
    pub taken: Option<Taken>,
}
