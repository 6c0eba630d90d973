// A neighbour's bundle, which is taken whole or not at all.
ghost use Rattle.std.specs.Prelude.{◌≡◌, ◌+◌, IfOk, length};
ghost use Rattle.uu_core.specs.State.{State, IsWellFormed};
ghost use Rattle.uu_core.specs.Verdict.{are_known, key_under, taken_of};
ghost use Rattle.uu_core.specs.After.{after};
ghost use Rattle.uu_core.specs.TakeIns.{IsTaking, offering};
ghost use Rattle.uu_tables.specs.Plans.{IsPlan};
ghost use Rattle.uu_tables.specs.TakeInPlans.{AreTakeInFacts, IsTakeInPlan};

use super::link::{add_queued_once, plan_forget};
use super::{Plan, refused, unchanged};
use crate::change::Change;
use crate::facts::{OfferedFacts, TakeInFacts};
use std::alloc::{AllocError, Global};
use uu_core::laws::{states_stay_well_formed, take_ins_are_sound};
use uu_core::{HandIn, Offered, Reply, TakeIn, Taking};
use uu_names::SiteName;

/// The replies to a bundle, and what it changes.
#[derive(Drop)]
pub struct TakeInPlan<'a> {
    /// The replies, once the changes are made: to the number below which the neighbour won't ask
    /// again, and to each job.
    pub replies: Vec<Reply>,
    /// The changes, one after the other.
    pub changes: Vec<Change<'a>>,
}

// A job of a bundle, after those before it were taken in.
fn plan_offered<'a>(
    alloc: Global,
    taking: &mut Taking,
    fact: OfferedFacts,
    from: &'a SiteName,
    offered: &'a Offered,
) -> Result<Plan<'a>, AllocError>
    ensures { (s now : State) → let key = key_under from.now offered.now.number offered.now.mark in IsWellFormed now → IsTaking s from.now now taking.old → fact.known ≡ are_known s key offered.now.job → fact.taken ≡ taken_of s key
        → IfOk result (λ plan. IsPlan now (offering from.now offered.now) plan × IsTaking s from.now (after now (offering from.now offered.now)).0 taking.new) }
{
    match taking.decide(fact.known, fact.taken, offered)? {
        Ok(HandIn::First(number)) => {
            let changes = add_queued_once(
                alloc,
                number,
                from,
                offered.number,
                offered.mark,
                &offered.job,
            )?;
            Ok(Plan {
                reply: Reply::Number(number),
                changes,
            })
        }
        Ok(HandIn::Again(number)) => Ok(unchanged(alloc, Reply::Number(number))),
        Err(refusal) => Ok(refused(alloc, refusal)),
    }
}

/// The replies to a bundle, and its changes, if these facts were asked for it. What it makes the
/// spool forget comes first, and then each job, planned from what those before it leave. There are
/// facts for each job, and there is a reply to each command (`every`).
pub fn plan_take_in<'a>(
    alloc: Global,
    facts: &TakeInFacts,
    it: &'a TakeIn,
) -> Result<TakeInPlan<'a>, AllocError>
    requires suits { length facts.now.jobs.items ≡ length it.now.jobs }
    ensures plan { (s : State) → IsWellFormed s → AreTakeInFacts facts.now s it.now → IfOk result (IsTakeInPlan s it.now) }
    ensures every { IfOk result (λ plan. length plan.replies.items ≡ length it.now.jobs + 1) }
{
    take_ins_are_sound(it);
    states_stay_well_formed();
    let first = plan_forget(alloc, facts.known, facts.before, &it.from, it.below)?;
    let mut changes = first.changes;
    let mut replies = vec![in alloc; first.reply]?;
    let mut taking = Taking::begin(alloc, facts.known, facts.next, facts.before, it.below);
    for (i, offered) in it.jobs.as_slice().iter().enumerate() {
        let plan = plan_offered(alloc, &mut taking, facts.jobs[i], &it.from, offered)?;
        let mut more = plan.changes;
        changes.append(&mut more)?;
        replies.push(plan.reply)?;
    }
    Ok(TakeInPlan { replies, changes })
}
