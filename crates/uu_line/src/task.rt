//! What a line asks for: a task for each subcommand.

ghost use Rattle.std.specs.Prelude.{◌≡◌};
ghost use Rattle.uu_line.specs.Lines.{takes_input};

use crate::origin::Origin;
use uu_core::Filter;
use uu_names::{Grade, Listed, Path, SiteName, Word};

/// What a line asks for.
#[derive(Drop)]
pub enum Task {
    /// `load`: defines the systems of the sys file that is the input.
    Load,
    /// `drop SYSTEM`: removes a system, if no job waits for it.
    Drop {
        /// The neighbour to remove.
        system: SiteName,
    },
    /// `send SYSTEM FROM TO [-g GRADE] [--once SYSTEM!NUMBER[!WORD]]`: queues the input as a file
    /// for the system.
    Send {
        /// The neighbour that the file is for.
        system: SiteName,
        /// The file's name here.
        source: Word,
        /// The file's name there.
        target: Word,
        /// The job's grade, `N` if none is given.
        grade: Grade,
        /// The neighbour's job that it is, if it is to be queued once.
        once: Option<Origin>,
    },
    /// `request SYSTEM FROM TO [-g GRADE] [--once SYSTEM!NUMBER[!WORD]]`: queues a request for a
    /// file of the system.
    Request {
        /// The neighbour that has the file.
        system: SiteName,
        /// The file's name there.
        source: Word,
        /// The file's name here.
        target: Word,
        /// The job's grade, `N` if none is given.
        grade: Grade,
        /// The neighbour's job that it is, if it is to be queued once.
        once: Option<Origin>,
    },
    /// `exec [-g GRADE] [--once SYSTEM!NUMBER[!WORD]] SYSTEM COMMAND [ARG..]`: queues a command,
    /// with the input as its input.
    Execute {
        /// The job's grade, `N` if none is given.
        grade: Grade,
        /// The neighbour's job that it is, if it is to be queued once.
        once: Option<Origin>,
        /// The neighbour that runs the command.
        system: SiteName,
        /// The command.
        command: Word,
        /// Its arguments.
        arguments: Listed<Word>,
    },
    /// `mail [-g GRADE] [--once SYSTEM!NUMBER[!WORD]] ADDRESS..`: queues the input as a message.
    Mail {
        /// The job's grade, `N` if none is given.
        grade: Grade,
        /// The neighbour's job that it is, if it is to be queued once.
        once: Option<Origin>,
        /// The neighbour that each address begins with.
        system: SiteName,
        /// What the neighbour does with the message: each address without its first site.
        rests: Listed<Word>,
    },
    /// `list [-s SYSTEM] [-u USER]`: reports the jobs that are for the system and of the user, if
    /// they are given.
    List {
        /// Which jobs.
        filter: Filter,
    },
    /// `show JOB`: shows a job and its bytes.
    Show {
        /// The job's number.
        job: u32,
    },
    /// `kill JOB`: removes a job.
    Kill {
        /// The job's number.
        job: u32,
    },
    /// `regrade JOB GRADE`: gives a job another grade.
    Regrade {
        /// The job's number.
        job: u32,
        /// The new grade.
        grade: Grade,
    },
    /// `rejuvenate JOB`: marks a job as queued now.
    Rejuvenate {
        /// The job's number.
        job: u32,
    },
    /// `due [-s SYSTEM]`: reports which systems may be called now, each with its next job, or all
    /// jobs of one system that may go now.
    Due {
        /// The neighbour whose jobs are reported, if one is named.
        system: Option<SiteName>,
    },
    /// `when [-s SYSTEM]`: reports when each system that has a job can next be called, or when this
    /// one can, for which job, and why not before.
    When {
        /// Whose jobs.
        filter: Filter,
    },
    /// `when -a [-s SYSTEM]`: reports when each system can next be called, or when this one can,
    /// with a job or without one, and why not before.
    Polls {
        /// The one system, if not all.
        system: Option<SiteName>,
    },
    /// `queues [-s SYSTEM]`: reports how many jobs wait for each system, or for this one, and their
    /// size.
    Queues {
        /// Whose jobs.
        filter: Filter,
    },
    /// `status`: reports the systems and how their calls went.
    Status,
    /// `systems [-s SYSTEM]`: prints the definitions of the systems, or of one, as a sys file.
    Systems {
        /// The neighbour whose definition is printed, if one is named.
        system: Option<SiteName>,
    },
    /// `failed SYSTEM WHY`: notes that a call failed, and why.
    Failed {
        /// The neighbour that was called.
        system: SiteName,
        /// Why the call failed.
        why: Word,
    },
    /// `done SYSTEM [JOB..]`: notes that a call succeeded, and removes the jobs that it carried.
    Done {
        /// The neighbour that was called.
        system: SiteName,
        /// The numbers of the jobs that the call carried, in the order given.
        jobs: Listed<u32>,
    },
    /// `forget SYSTEM NUMBER`: forgets which jobs with numbers below this one came from the system,
    /// which won't hand them on again.
    Forget {
        /// The neighbour that handed the jobs on.
        system: SiteName,
        /// The lowest number that the neighbour may still hand on.
        below: u32,
    },
    /// `pack SYSTEM [-g GRADE] [--spool WORD] [--after JOB] [--most BYTES] [--no-jobs]`: reports the
    /// bundle for the system: which of its jobs were taken here, and the jobs that wait for it.
    Pack {
        /// The neighbour that the bundle is for.
        system: SiteName,
        /// The lowest grade of the jobs, `z` if none is given.
        grade: Grade,
        /// Which of this site's spools numbers the jobs, if the line says it.
        spool: Option<Word>,
        /// The job after which the jobs begin, if one is given.
        after: Option<u32>,
        /// The most bytes of the bundle, if that is given.
        most: Option<u32>,
        /// Whether the jobs are left out.
        no_jobs: bool,
    },
    /// `unpack SENDER [SYSTEM..]`: queues the jobs of the bundle that is the input, each once.
    Unpack {
        /// The neighbour whose bundle it is.
        sender: SiteName,
        /// The neighbours to which mail is passed on.
        onward: Listed<SiteName>,
    },
    /// `settle SYSTEM [--spool WORD]`: reads the system's bundle from the input, removes the jobs
    /// that the system has, and reports them and those that it refused.
    Settle {
        /// The neighbour whose bundle it is.
        system: SiteName,
        /// Which of this site's spools numbers the jobs, if the line says it.
        spool: Option<Word>,
    },
    /// `answer SENDER [SYSTEM..] [-g GRADE] [--spool WORD] [--after JOB] [--most BYTES]
    /// [--no-jobs]`: reads the sender's bundle from the input, and reports the bundle for the sender
    /// that answers it.
    Answer {
        /// The neighbour whose bundle it is.
        sender: SiteName,
        /// The neighbours to which mail is passed on.
        onward: Listed<SiteName>,
        /// The lowest grade of the jobs, `z` if none is given.
        grade: Grade,
        /// Which of this site's spools numbers the jobs, if the line says it.
        spool: Option<Word>,
        /// The job after which the jobs begin, if one is given.
        after: Option<u32>,
        /// The most bytes of the bundle, if that is given.
        most: Option<u32>,
        /// Whether the jobs are left out.
        no_jobs: bool,
    },
    /// `map`: keeps the map entries that are the input.
    Map,
    /// `neighbours HOST`: reports the links of a host's map entry.
    Neighbours {
        /// The host whose entry is shown.
        host: SiteName,
    },
    /// `name`: prints the site's own name.
    Name,
    /// `route [--cost] HOST` or `routes [--cost]`: prints the route to a host, or the routes to all
    /// hosts.
    Routes {
        /// The host, if one is given.
        host: Option<SiteName>,
        /// Whether each line begins with the cost.
        costs: bool,
    },
}

impl Task {
    /// Whether the task takes an input.
    pub fn has_input(&self) -> bool
        ensures { result ≡ takes_input self.now }
    {
        match self {
            Task::Load
            | Task::Send { .. }
            | Task::Execute { .. }
            | Task::Mail { .. }
            | Task::Unpack { .. }
            | Task::Settle { .. }
            | Task::Answer { .. }
            | Task::Map => true,
            Task::Drop { .. }
            | Task::Request { .. }
            | Task::List { .. }
            | Task::Show { .. }
            | Task::Kill { .. }
            | Task::Regrade { .. }
            | Task::Rejuvenate { .. }
            | Task::Due { .. }
            | Task::When { .. }
            | Task::Polls { .. }
            | Task::Queues { .. }
            | Task::Status
            | Task::Systems { .. }
            | Task::Failed { .. }
            | Task::Done { .. }
            | Task::Forget { .. }
            | Task::Pack { .. }
            | Task::Neighbours { .. }
            | Task::Name
            | Task::Routes { .. } => false,
        }
    }
}
