// A spool in memory: what each command makes of it, and what each question answers.
ghost use Rattle.std.specs.Prelude.{◌≡◌, ℕ, List, map, take, IfOk, OnErr, MatchResult, option_map, option_copied};
ghost use Rattle.uu_core.specs.State.{empty, head_of, job_at, entry_at};
ghost use Rattle.uu_core.specs.Due.{AreDue};
ghost use Rattle.uu_core.specs.Run.{run, state_after};
ghost use Rattle.uu_plain.specs.Lists.{IsGiven};

use crate::copy::heads_of;
use crate::entry::PlainEntry;
use crate::job::PlainJob;
use crate::link::PlainLink;
use crate::lists::Lists;
use crate::rows::{entry_at, job_at};
use std::alloc::{AllocError, Global};
use std::marker::Model;
use uu_core::{Command, Due, JobHead, Reply, SystemRow, choose};
use uu_names::SiteName;
use uu_times::Moment;

/// A spool in memory, seen as its state. No two jobs have the same number, no two systems or links
/// the same name, and no two entries the same host.
#[derive(Drop)]
pub struct Machine {
    lists: Lists,
}

impl Model for Machine {
    ghost use Rattle.uu_core.specs.State.{State};

    ghost Value = { State };

    ghost use Rattle.uu_core.specs.Order.{IsInOrder};
    ghost use Rattle.uu_plain.specs.Lists.{state_of};

    ghost view = { λ machine. state_of machine.lists };

    ghost invariant = { λ machine. IsInOrder (state_of machine.lists) };
}

impl Machine {
    /// A spool that holds nothing.
    pub fn new(alloc: Global) -> Machine
        ensures { result ≡ empty }
    {
        Machine {
            lists: Lists {
                jobs: Vec::new(alloc),
                systems: Vec::new(alloc),
                entries: Vec::new(alloc),
                next: 1,
                links: Vec::new(alloc),
            },
        }
    }

    /// Carries a command out, or refuses it. If memory runs out, nothing changes.
    pub fn step(&mut self, alloc: Global, command: Command) -> Result<Reply, AllocError>
        ensures { IsGiven self.old command result self.new }
    {
        self.lists.step(alloc, command)
    }

    /// Carries out commands in order, and gives each refused one its refusal. If memory runs out,
    /// the commands up to some place were carried out, and the others weren't.
    pub fn run(&mut self, alloc: Global, commands: Vec<Command>) -> Result<Vec<Reply>, AllocError>
        ensures done { IfOk result (λ replies. (self.new, replies.items) ≡ run self.old commands.items) }
        ensures failed { OnErr result ((count : ℕ) × (self.new ≡ state_after self.old (take count commands.items))) }
    {
        let mut replies = Vec::new(alloc);
        for command in commands {
            let reply = self.step(alloc, command)?;
            replies.push(reply)?;
        }
        Ok(replies)
    }

    /// The jobs without their bytes, in the order in which they were accepted.
    pub fn heads(&self, alloc: Global) -> Result<Vec<JobHead>, AllocError>
        ensures { IfOk result (λ heads. heads.items ≡ map head_of self.now.jobs) }
    {
        heads_of(alloc, self.lists.jobs.as_slice())
    }

    /// The job of a number, if it is there.
    pub fn job(&self, number: u32) -> Option<&PlainJob>
        ensures { option_copied result ≡ job_at self.now number }
    {
        job_at(self.lists.jobs.as_slice(), number)
    }

    /// The systems in the order of their names' bytes.
    pub fn systems(&self) -> &[SystemRow]
        ensures { result.now ≡ self.now.systems }
    {
        self.lists.systems.as_slice()
    }

    /// What is due at a moment: each system that may be called now, with its first job by grade and
    /// number.
    pub fn due(&self, alloc: Global, at: &Moment) -> Result<Vec<Due>, AllocError>
        ensures { IfOk result (λ dues. AreDue self.now.systems (map head_of self.now.jobs) at.now dues.items) }
    {
        let heads = heads_of(alloc, self.lists.jobs.as_slice())?;
        choose(alloc, &self.lists.systems, heads.as_slice(), at)
    }

    /// The map entry of a host, if it is there.
    pub fn entry(&self, host: &SiteName) -> Option<&PlainEntry>
        ensures { option_copied result ≡ entry_at self.now host.now }
    {
        entry_at(self.lists.entries.as_slice(), host)
    }

    /// What is kept of each neighbour that hands jobs on, in the order of their names' bytes.
    pub fn links(&self) -> &[PlainLink]
        ensures { result.now ≡ self.now.links }
    {
        self.lists.links.as_slice()
    }

    /// The number of the next job.
    pub fn next(&self) -> u32
        ensures { result ≡ self.now.next }
    {
        self.lists.next
    }
}
