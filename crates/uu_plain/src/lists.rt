// What the machine holds, and what each command makes of it.
ghost use Rattle.std.specs.Prelude.{◌≡◌, ◌<◌, ◌≤◌, length, MatchResult};
ghost use Rattle.uu_core.specs.State.{link_of, numbers_end, most_bytes};
ghost use Rattle.uu_core.specs.After.{after, with_job_once};
ghost use Rattle.uu_core.specs.Order.{IsInOrder};
ghost use Rattle.uu_plain.specs.Lists.{state_of, IsGiven};

use crate::copy::heads_of;
use crate::entry::PlainEntry;
use crate::job::PlainJob;
use crate::link::{PlainLink, link_of};
use crate::rows::{
    are_known, call_of, decide_on, has_system, is_waiting, put, put_link, regrade, rejuvenate,
    release_jobs, remove_job, remove_jobs, remove_link, remove_system, set_call, system_at,
};
use std::alloc::{AllocError, Global};
use uu_core::{
    By, Command, HandIn, Key, NewJob, Refusal, Reply, SystemRow, Taken, decide_done, decide_drop,
    decide_failed, decide_forget, decide_queue, decide_queue_once,
};
use uu_map::entry_host;
use uu_names::{Grade, Listed, SiteName, Word};
use uu_times::{Moment, SystemDef};

#[derive(Drop)]
pub(crate) struct Lists {
    pub(crate) jobs: Vec<PlainJob>,
    pub(crate) systems: Vec<SystemRow>,
    pub(crate) entries: Vec<PlainEntry>,
    pub(crate) next: u32,
    pub(crate) links: Vec<PlainLink>,
}

impl Lists {
    pub(crate) fn step(&mut self, alloc: Global, command: Command) -> Result<Reply, AllocError>
        requires { IsInOrder (state_of self.old) }
        ensures { IsGiven (state_of self.old) command result (state_of self.new) }
    {
        match command {
            Command::Define(def) => self.define(def),
            Command::Remove(name) => Ok(self.remove(&name)),
            Command::Queue(job) => self.queue(job),
            Command::QueueOnce(key, job) => self.queue_once(alloc, &key, job),
            Command::Kill { job, by } => Ok(self.kill(job, &by)),
            Command::Regrade { job, grade, by } => Ok(self.regrade(job, grade, &by)),
            Command::Rejuvenate { job, at, by } => Ok(self.rejuvenate(job, &at, &by)),
            Command::Failed { system, at, why } => Ok(self.failed(&system, &at, why)),
            Command::Done { system, at, jobs } => self.done(alloc, &system, &at, jobs.as_slice()),
            Command::Release { system, jobs } => Ok(self.release(&system, jobs.as_slice())),
            Command::Entry(bytes) => self.keep(alloc, bytes),
            Command::Forget { system, below } => self.forget(alloc, &system, below),
        }
    }

    fn define(&mut self, def: SystemDef) -> Result<Reply, AllocError>
        requires { IsInOrder (state_of self.old) }
        ensures { IsGiven (state_of self.old) (Command.Define def) result (state_of self.new) }
    {
        let call = call_of(self.systems.as_slice(), &def.name)?;
        put(&mut self.systems, SystemRow { def, call })?;
        Ok(Reply::Done)
    }

    fn remove(&mut self, name: &SiteName) -> Reply
        ensures { (state_of self.new, result) ≡ after (state_of self.old) (Command.Remove name.now) }
    {
        let known = has_system(self.systems.as_slice(), name);
        let waiting = is_waiting(self.jobs.as_slice(), name);
        match decide_drop(known, waiting) {
            Ok(()) => {
                remove_system(&mut self.systems, name);
                remove_link(&mut self.links, name);
                Reply::Done
            }
            Err(refusal) => Reply::Refused(refusal),
        }
    }

    fn queue(&mut self, job: NewJob) -> Result<Reply, AllocError>
        ensures { IsGiven (state_of self.old) (Command.Queue job) result (state_of self.new) }
    {
        let known = has_system(self.systems.as_slice(), &job.system);
        match decide_queue(known, self.next, &job) {
            Ok(number) => {
                self.jobs.push(PlainJob::new(number, job))?;
                self.next = number + 1;
                Ok(Reply::Number(number))
            }
            Err(refusal) => Ok(Reply::Refused(refusal)),
        }
    }

    fn queue_once(&mut self, alloc: Global, key: &Key, job: NewJob) -> Result<Reply, AllocError>
        requires { IsInOrder (state_of self.old) }
        ensures { IsGiven (state_of self.old) (Command.QueueOnce key.now job) result (state_of self.new) }
    {
        let link = link_of(alloc, self.links.as_slice(), &key.from)?;
        let known = are_known(self.systems.as_slice(), key, &job);
        let taken = link.taken_at(key.number);
        match decide_queue_once(known, self.next, link.below(), taken, key, &job) {
            Ok(HandIn::First(number)) => self.add_once(alloc, number, link, key, job),
            Ok(HandIn::Again(number)) => Ok(Reply::Number(number)),
            Err(refusal) => Ok(Reply::Refused(refusal)),
        }
    }

    // The job is queued under the next number, and its key kept in the link.
    fn add_once(
        &mut self,
        alloc: Global,
        number: u32,
        link: PlainLink,
        key: &Key,
        job: NewJob,
    ) -> Result<Reply, AllocError>
        requires in_order { IsInOrder (state_of self.old) }
        requires number_is { number ≡ self.old.next }
        requires some_left { number < numbers_end }
        requires small { length job.bytes ≤ most_bytes }
        requires link_is { link ≡ link_of (state_of self.old) key.now.from }
        ensures { MatchResult result (λ reply. (state_of self.new ≡ with_job_once (HandIn.First number) key.now job (state_of self.old)) × (reply ≡ Reply.Number number)) (λ _. state_of self.new ≡ state_of self.old) }
    {
        let mut link = link;
        link.take(
            alloc,
            Taken {
                number: key.number,
                mark: key.mark,
                job: number,
            },
        )?;
        self.jobs.push(PlainJob::new(number, job))?;
        match put_link(&mut self.links, link) {
            Ok(()) => {
                self.next = number + 1;
                Ok(Reply::Number(number))
            }
            Err(error) => {
                self.jobs.pop();
                Err(error)
            }
        }
    }

    fn kill(&mut self, job: u32, by: &By) -> Reply
        ensures { (state_of self.new, result) ≡ after (state_of self.old) (Command.Kill job by.now) }
    {
        match decide_on(self.jobs.as_slice(), job, by) {
            Ok(()) => {
                remove_job(&mut self.jobs, job);
                Reply::Done
            }
            Err(refusal) => Reply::Refused(refusal),
        }
    }

    fn regrade(&mut self, job: u32, grade: Grade, by: &By) -> Reply
        ensures { (state_of self.new, result) ≡ after (state_of self.old) (Command.Regrade job grade by.now) }
    {
        match decide_on(self.jobs.as_slice(), job, by) {
            Ok(()) => {
                regrade(self.jobs.as_mut_slice(), job, grade);
                Reply::Done
            }
            Err(refusal) => Reply::Refused(refusal),
        }
    }

    fn rejuvenate(&mut self, job: u32, at: &Moment, by: &By) -> Reply
        ensures { (state_of self.new, result) ≡ after (state_of self.old) (Command.Rejuvenate job at.now by.now) }
    {
        match decide_on(self.jobs.as_slice(), job, by) {
            Ok(()) => {
                rejuvenate(self.jobs.as_mut_slice(), job, at);
                Reply::Done
            }
            Err(refusal) => Reply::Refused(refusal),
        }
    }

    fn failed(&mut self, system: &SiteName, at: &Moment, why: Word) -> Reply
        requires { IsInOrder (state_of self.old) }
        ensures { (state_of self.new, result) ≡ after (state_of self.old) (Command.Failed system.now at.now why) }
    {
        match decide_failed(system_at(self.systems.as_slice(), system), at, why) {
            Ok(call) => {
                set_call(self.systems.as_mut_slice(), system, call);
                Reply::Done
            }
            Err(refusal) => Reply::Refused(refusal),
        }
    }

    fn done(
        &mut self,
        alloc: Global,
        system: &SiteName,
        at: &Moment,
        jobs: &[u32],
    ) -> Result<Reply, AllocError>
        requires { IsInOrder (state_of self.old) }
        ensures { IsGiven (state_of self.old) (Command.Done system.now at.now jobs.now) result (state_of self.new) }
    {
        let heads = heads_of(alloc, self.jobs.as_slice())?;
        let row = system_at(self.systems.as_slice(), system);
        match decide_done(row, system, jobs, heads.as_slice(), at) {
            Ok(call) => {
                remove_jobs(&mut self.jobs, jobs);
                set_call(self.systems.as_mut_slice(), system, call);
                Ok(Reply::Done)
            }
            Err(refusal) => Ok(Reply::Refused(refusal)),
        }
    }

    fn release(&mut self, system: &SiteName, jobs: &[u32]) -> Reply
        ensures { (state_of self.new, result) ≡ after (state_of self.old) (Command.Release system.now jobs.now) }
    {
        release_jobs(&mut self.jobs, system, jobs);
        Reply::Done
    }

    fn keep(&mut self, alloc: Global, bytes: Listed<u8>) -> Result<Reply, AllocError>
        requires { IsInOrder (state_of self.old) }
        ensures { IsGiven (state_of self.old) (Command.Entry bytes) result (state_of self.new) }
    {
        match entry_host(alloc, bytes.as_slice())? {
            Some(host) => {
                put(&mut self.entries, PlainEntry { host, bytes })?;
                Ok(Reply::Done)
            }
            None => Ok(Reply::Refused(Refusal::BadEntry)),
        }
    }

    fn forget(&mut self, alloc: Global, system: &SiteName, below: u32) -> Result<Reply, AllocError>
        requires { IsInOrder (state_of self.old) }
        ensures { IsGiven (state_of self.old) (Command.Forget system.now below) result (state_of self.new) }
    {
        match decide_forget(has_system(self.systems.as_slice(), system)) {
            Ok(()) => {
                let mut link = link_of(alloc, self.links.as_slice(), system)?;
                link.forget(below);
                put_link(&mut self.links, link)?;
                Ok(Reply::Done)
            }
            Err(refusal) => Ok(Reply::Refused(refusal)),
        }
    }
}
