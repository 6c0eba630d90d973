//! What a site says about the jobs of a neighbour's bundle: which it has, and which it would
//! refuse.

ghost use Rattle.std.specs.Prelude.{◌≡◌, ◌||◌, ◌++◌, ◌∷◌, [], ℕ, false, if◌then◌else◌, IfOk, OnOk, ⊤};
ghost use Rattle.std.specs.BTreeSet.{contains};
ghost use Rattle.std.specs.List.{list_any};
ghost use Rattle.uu_bundle.specs.Bundles.{answer_front_text, text_with_refused};
ghost use Rattle.uu_core.specs.State.{link_of};
ghost use Rattle.uu_core.specs.Verdict.{verdict};
ghost use Rattle.uu_store.specs.Spool.{has_failed};
ghost use Rattle.uuspool.specs.Bundles as spec;
ghost use Rattle.uuspool.specs.Internal.Asked.{IsAsked, answer_front, heading_with};
ghost use Rattle.uuspool.specs.Internal.Keys.{by_key, is_of_key};

use crate::laws::lines_are_one_run;
use sqlite::Alter;
use std::alloc::{AllocError, Global};
use std::collections::BTreeSet;
use uu_bundle::{add_refused, begin_answer};
use uu_core::{Command, Refusal, Taken};
use uu_names::SiteName;
use uu_request::Answering;
use uu_store::{Spool, StoreFault};

/// The beginning of an answer: its first line, those of the jobs in question that were taken, and
/// those that would be refused.
pub(crate) fn begin_answering<S: Alter>(
    alloc: Global,
    own: &SiteName,
    answering: &Answering,
    below: u32,
    spool: &mut Spool<S>,
) -> Result<Vec<u8>, StoreFault>
    ensures { IsAsked (λ s. ⊤) (λ s text. text.items ≡ answer_front own.now answering.now below s) spool.old spool.new result }
{
    let mut text = tell_taken(alloc, own, answering, below, spool)?;
    add_refusals(alloc, answering.commands.as_slice(), spool, &mut text)?;
    Ok(text)
}

// The first line, and those of the jobs in question that were taken.
fn tell_taken<S: Alter>(
    alloc: Global,
    own: &SiteName,
    answering: &Answering,
    below: u32,
    spool: &mut Spool<S>,
) -> Result<Vec<u8>, StoreFault>
    ensures { IsAsked (λ s. ⊤)
        (λ s text. text.items ≡ answer_front_text (heading_with own.now answering.now.packing below) (spec.taken_among answering.now.commands (link_of s answering.now.packing.system).taken))
        spool.old spool.new result }
{
    let packing = &answering.packing;
    let taken = spool.taken(alloc, &packing.system)?;
    let asked = taken_among(alloc, answering.commands.as_slice(), &taken)?;
    let text = begin_answer(
        alloc,
        own,
        &packing.system,
        &packing.spool,
        below,
        packing.grade,
        &asked,
    )?;
    Ok(text)
}

// Those of the taken jobs that these commands hand in.
fn taken_among(
    alloc: Global,
    commands: &[Command],
    taken: &[Taken],
) -> Result<Vec<Taken>, AllocError>
    ensures { IfOk result (λ asked. asked.items ≡ spec.taken_among commands.now taken.now) }
{
    let keys = keys_of(alloc, commands)?;
    let mut asked = Vec::new(alloc);
    for one in taken {
        keep_if_asked(&keys, one, &mut asked)?;
    }
    Ok(asked)
}

// Keeps what was taken, if one of these numbers has its mark.
fn keep_if_asked(
    keys: &BTreeSet<(u32, u64)>,
    one: &Taken,
    asked: &mut Vec<Taken>,
) -> Result<(), AllocError>
    ensures { OnOk result (asked.new.items ≡ asked.old.items ++ (if contains by_key keys.now (one.now.number, one.now.mark) then one.now ∷ [] else [])) }
{
    if keys.contains(&(one.number, one.mark.number())) {
        asked.push(*one)?;
    }
    Ok(())
}

// The numbers and the marks under which these commands hand jobs in.
fn keys_of(alloc: Global, commands: &[Command]) -> Result<BTreeSet<(u32, u64)>, AllocError>
    ensures { IfOk result (λ keys. (number mark : ℕ) → contains by_key keys (number, mark) ≡ list_any (is_of_key number mark) commands.now) }
{
    let mut keys = BTreeSet::new(alloc);
    for command in commands {
        add_key(&mut keys, command)?;
    }
    Ok(keys)
}

// Adds the number and the mark under which the command hands in a job, if it does.
fn add_key(keys: &mut BTreeSet<(u32, u64)>, command: &Command) -> Result<(), AllocError>
    ensures { OnOk result ((number mark : ℕ) → contains by_key keys.new (number, mark) ≡ (contains by_key keys.old (number, mark) || is_of_key number mark command.now)) }
{
    if let Command::QueueOnce(key, _) = command {
        keys.insert((key.number, key.mark.number()))?;
    }
    Ok(())
}

// Adds the jobs that these commands hand in and that would be refused.
fn add_refusals<S: Alter>(
    alloc: Global,
    commands: &[Command],
    spool: &mut Spool<S>,
    text: &mut Vec<u8>,
) -> Result<(), StoreFault>
    requires { has_failed spool.old ≡ false }
    ensures { IsAsked (λ s. ⊤) (λ s done. text.new.items ≡ text_with_refused text.old.items (spec.refused_among commands.now s)) spool.old spool.new result }
{
    lines_are_one_run::<S>();
    for command in commands {
        add_if_refused(alloc, command, spool, text)?;
    }
    Ok(())
}

// Adds the job that the command hands in, if it would be refused.
fn add_if_refused<S: Alter>(
    alloc: Global,
    command: &Command,
    spool: &mut Spool<S>,
    text: &mut Vec<u8>,
) -> Result<(), StoreFault>
    ensures { IsAsked (λ s. ⊤) (λ s done. text.new.items ≡ text_with_refused text.old.items (spec.refused_for command.now (verdict s command.now))) spool.old spool.new result }
{
    let reason = spool.refusal(alloc, command)?;
    add_reason(alloc, command, reason, text)?;
    Ok(())
}

// Adds the job that the command hands in, if there is a reason.
fn add_reason(
    alloc: Global,
    command: &Command,
    reason: Option<Refusal>,
    text: &mut Vec<u8>,
) -> Result<(), AllocError>
    ensures { OnOk result (text.new.items ≡ text_with_refused text.old.items (spec.refused_for command.now reason)) }
{
    match (command, reason) {
        (Command::QueueOnce(key, _), Some(reason)) => {
            add_refused(alloc, text, key.number, key.mark, reason)
        }
        _ => Ok(()),
    }
}
