// What a neighbour's bundle asks for. It is done whole or not at all.
use crate::custody::{HandIn, Mark, Taken};
use crate::decide::{decide_forget, decide_under};
use crate::job::NewJob;
use crate::refusal::Refusal;
use std::alloc::{AllocError, Global};
use std::collections::BTreeMap;
use std::marker::Model;
use uu_names::{Listed, SiteName};

/// A job that a neighbour hands on.
#[derive(Debug, Drop)]
pub struct Offered {
    /// Its number there.
    pub number: u32,
    /// The mark of what is handed in.
    pub mark: Mark,
    /// What is handed in.
    pub job: NewJob,
}

/// What a neighbour's bundle asks for. The neighbour won't ask again for a job of its own below a
/// number ([`Command::Forget`](crate::Command::Forget)), and it hands on these jobs, one after the
/// other ([`Command::QueueOnce`](crate::Command::QueueOnce)).
#[derive(Debug, Drop)]
pub struct TakeIn {
    /// The neighbour, as it is known here.
    pub from: SiteName,
    /// The least number that it may still ask for.
    pub below: u32,
    /// The jobs.
    pub jobs: Listed<Offered>,
}

/// How far a bundle was taken: what its first jobs changed of what was known before it. This
/// decides each next job without another look at the spool.
#[derive(Drop)]
pub struct Taking {
    // The number of the next job.
    next: u32,
    // The number below which the neighbour won't ask again.
    below: u32,
    // Jobs that were taken before the bundle under numbers below this one are forgotten.
    forgotten: u32,
    // What was taken from the bundle, by the number there.
    brought: BTreeMap<u32, Taken>,
}

impl Model for Taking {
    ghost use Rattle.uu_core.specs.TakeIns.{Progress};

    ghost Value = { Progress };

    ghost view = { λ taking. record { next = taking.next; below = taking.below; forgotten = taking.forgotten; brought = taking.brought.entries } };
}

impl Taking {
    ghost use Rattle.std.specs.Prelude.{◌≡◌, ℕ, List, Option, IfOk};
    ghost use Rattle.uu_core.specs.declared.command.Command.TheVariants.{Forget, QueueOnce};
    ghost use Rattle.uu_core.specs.State.{State, has_system, link_of};
    ghost use Rattle.uu_core.specs.Refusal.{decided};
    ghost use Rattle.uu_core.specs.Verdict.{key_under, are_known, taken_of, once_reasons_in};
    ghost use Rattle.uu_core.specs.After.{after, hand_in};
    ghost use Rattle.uu_core.specs.TakeIns.{IsTaking, IsRoomFor, kept_now};

    /// The state before the first job of a bundle. `known` says whether the neighbour is known, and
    /// `next` is the next number. The neighbour said before that it won't ask for a number below
    /// `before`, and now for none below `below`.
    pub fn begin(alloc: Global, known: bool, next: u32, before: u32, below: u32) -> Taking
        ensures { (s : State) (from : List ℕ) → known ≡ has_system s from → next ≡ s.next → before ≡ (link_of s from).below → IsTaking s from (after s (Forget from below)).0 result }
    {
        let brought = BTreeMap::new(alloc);
        match decide_forget(known) {
            Ok(()) => Taking {
                next,
                below: before.max(below),
                forgotten: below,
                brought,
            },
            Err(_) => Taking {
                next,
                below: before,
                forgotten: 0,
                brought,
            },
        }
    }

    // What is now kept under a number, if `before` was kept before the bundle.
    fn kept_now(&self, before: Option<Taken>, number: u32) -> Option<Taken>
        ensures { result ≡ kept_now self.now before number }
    {
        match self.brought.get(&number) {
            Some(taken) => Some(*taken),
            None if number < self.forgotten => None,
            None => before,
        }
    }

    /// The result for the next job. `known` says whether the neighbour and the job's system were
    /// both known before the bundle, and `taken` is what was taken under the job's number.
    ///
    /// # Errors
    /// Out of memory. The inner errors are those of
    /// [`decide_queue_once`](crate::decide_queue_once).
    pub fn decide(
        &mut self,
        known: bool,
        taken: Option<Taken>,
        offered: &Offered,
    ) -> Result<Result<HandIn, Refusal>, AllocError>
        ensures room { IfOk result (λ decision. IfOk decision (IsRoomFor offered.now.job)) }
        ensures decided { (s now : State) (from : List ℕ) → let key = key_under from offered.now.number offered.now.mark in IsTaking s from now self.old → known ≡ are_known s key offered.now.job → taken ≡ taken_of s key
            → IfOk result (λ decision. (decision ≡ decided (once_reasons_in now key offered.now.job) (hand_in now key)) × IsTaking s from (after now (QueueOnce key offered.now.job)).0 self.new) }
    {
        let taken = self.kept_now(taken, offered.number);
        let number = offered.number;
        let mark = offered.mark;
        match decide_under(
            known,
            self.next,
            self.below,
            taken,
            number,
            mark,
            &offered.job,
        ) {
            Ok(HandIn::First(job)) => {
                self.brought.insert(number, Taken { number, mark, job })?;
                self.next = job + 1;
                Ok(Ok(HandIn::First(job)))
            }
            Ok(HandIn::Again(job)) => Ok(Ok(HandIn::Again(job))),
            Err(refusal) => Ok(Err(refusal)),
        }
    }
}
