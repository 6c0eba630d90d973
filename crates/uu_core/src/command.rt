// Commands and their replies.
ghost use Rattle.std.specs.Prelude.{◌≡◌};
ghost use Rattle.uu_core.specs.Laws.{refusal_in};

use crate::custody::Key;
use crate::job::{By, NewJob};
use crate::refusal::Refusal;
use uu_names::{Grade, Listed, SiteName, Word};
use uu_times::{Moment, SystemDef};

/// A command: what changes a spool.
#[derive(Debug, Drop)]
pub enum Command {
    /// The definition is added, or replaces the one of its name. The system's calls stay as they
    /// are.
    Define(SystemDef),
    /// The system is removed, with the state of its calls and its link: the keys under which it
    /// handed on jobs.
    Remove(SiteName),
    /// The job is added under the next number.
    Queue(NewJob),
    /// A neighbour hands on the job under this key. A job under a new key is added under the next
    /// number, and the key is kept with it. For a key that is kept, the reply repeats the number of
    /// the first time, and nothing changes.
    QueueOnce(Key, NewJob),
    /// The job is removed.
    Kill {
        /// Its number.
        job: u32,
        /// Who gives the command.
        by: By,
    },
    /// The job's grade changes.
    Regrade {
        /// Its number, which stays.
        job: u32,
        /// The new grade.
        grade: Grade,
        /// Who gives the command.
        by: By,
    },
    /// From now on the job counts as handed in at this moment.
    Rejuvenate {
        /// Its number.
        job: u32,
        /// The moment.
        at: Moment,
        /// Who gives the command.
        by: By,
    },
    /// A call of the system failed.
    Failed {
        /// The system.
        system: SiteName,
        /// When it failed.
        at: Moment,
        /// The reason.
        why: Word,
    },
    /// The system was called, and these jobs were delivered.
    Done {
        /// The system.
        system: SiteName,
        /// When it was called.
        at: Moment,
        /// The numbers of the jobs, at most 256.
        jobs: Listed<u32>,
    },
    /// The system has the jobs of these numbers. Those that still wait for it are removed. A number
    /// without such a job is skipped, and no call is noted.
    Release {
        /// The system.
        system: SiteName,
        /// The numbers of the jobs, any count.
        jobs: Listed<u32>,
    },
    /// The bytes of a map entry replace those of its host.
    Entry(Listed<u8>),
    /// The system won't ask again for a job of its own below this number. No key of it with such a
    /// number is kept or taken any more.
    Forget {
        /// The system.
        system: SiteName,
        /// The least number that it may still ask for.
        below: u32,
    },
}

/// The reply to a command.
#[derive(Clone, Copy, Debug, PartialEq, Eq)]
pub enum Reply {
    /// The command was carried out.
    Done,
    /// The job was added under this number, now or, if the key was kept, before.
    Number(u32),
    /// The command was refused, and nothing changed.
    Refused(Refusal),
}

impl Reply {
    /// Why the command was refused, if it was.
    pub fn refusal(&self) -> Option<Refusal>
        ensures { result ≡ refusal_in self.now }
    {
        match self {
            Reply::Refused(refusal) => Some(*refusal),
            Reply::Done | Reply::Number(_) => None,
        }
    }
}
