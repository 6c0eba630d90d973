//! Settling a neighbour's bundle: of the site's jobs, those that the neighbour has are removed, and
//! those that it refuses are reported.

ghost use Rattle.std.specs.Prelude.{◌≡◌, ◌⊎◌, ◌++◌, ◌∷◌, [], List, Some, false, IfOk, OnOk, All, Contains, map, ⊤};
ghost use Rattle.std.specs.Io.KnownBytes.{Appends};
ghost use Rattle.uu_bundle.specs.declared.bundle.Told.{Told as AnyTold};
ghost use Rattle.uu_handover.specs.Bundles.{is_settled};
ghost use Rattle.uu_request.specs.declared.request.Request.TheVariants as request;
ghost use Rattle.uu_store.specs.HandedOut.{job_with};
ghost use Rattle.uu_store.specs.Spool.{has_failed};
ghost use Rattle.uuspool.specs.Bundles.{IsSettleOutput, mark_for};
ghost use Rattle.uuspool.specs.Bundles as spec;
ghost use Rattle.uuspool.specs.Internal.Asked.{IsAsked, is_job_told};
ghost use Rattle.uuspool.specs.Served.{AreCommandsOf, IsServed};

use crate::fault::Fault;
use crate::laws::lines_are_one_run;
use crate::print::print;
use sqlite::Alter;
use std::alloc::{AllocError, Global};
use std::io::Write;
use uu_bundle::{Refused, Told, parcel_mark};
use uu_core::{Command, JobHead, Mark};
use uu_names::{Listed, SiteName, Word};
use uu_report::settle_report;
use uu_request::Settling;
use uu_settings::Settings;
use uu_store::laws::runs_are_one_run;
use uu_store::{Spool, StoreFault};

/// Removes the jobs that the system has, and prints their numbers and those of the jobs that it
/// refuses.
pub(crate) fn settle<S: Alter, W: Write>(
    alloc: Global,
    settling: &Settling,
    settings: &Settings,
    spool: &mut Spool<S>,
    out: &mut W,
) -> Result<u8, Fault>
    ensures { IsServed settings.now (request.Settling settling.now) spool.old spool.new (λ output. Appends (W.contents out.old) (W.contents out.new) output) result }
{
    runs_are_one_run::<S>();
    match found_by(alloc, &settings.name, settling, spool) {
        Ok(found) => {
            let Found { commands, report } = found;
            let end = spool.run(alloc, commands);
            match end.stopped {
                None => print(Ok(report), 0, out),
                Some(fault) => Err(Fault::Store(fault)),
            }
        }
        Err(fault) => Err(Fault::Store(fault)),
    }
}

// The result for a bundle: the command that removes jobs, if there are any, and what is reported.
#[derive(Drop)]
struct Found {
    commands: Vec<Command>,
    report: Vec<u8>,
}

// The result for the bundle.
fn found_by<S: Alter>(
    alloc: Global,
    own: &SiteName,
    settling: &Settling,
    spool: &mut Spool<S>,
) -> Result<Found, StoreFault>
    ensures asked { IsAsked (λ s. ⊤) (λ s found. (found.commands.items ≡ spec.release_of settling.now.system (spec.settled_by own.now settling.now s)) × IsSettleOutput own.now settling.now s found.report.items) spool.old spool.new result }
    ensures told { IfOk result (λ found. AreCommandsOf (request.Settling settling.now) found.commands.items) }
{
    let numbers = settled_numbers(alloc, own, settling, spool)?;
    let refused = refused_jobs(alloc, own, settling, spool)?;
    let report = settle_report(alloc, &settling.system, &numbers, &refused)?;
    let commands = release_of(alloc, &settling.system, numbers)?;
    Ok(Found { commands, report })
}

// The command that removes these jobs, if there are any.
fn release_of(
    alloc: Global,
    system: &SiteName,
    numbers: Vec<u32>,
) -> Result<Vec<Command>, AllocError>
    ensures { IfOk result (λ commands. commands.items ≡ spec.release_of system.now numbers.items) }
{
    let mut commands = Vec::new(alloc);
    if numbers.is_empty() {
        return Ok(commands);
    }
    let system = system.clone()?;
    let jobs = Listed::from_vec(numbers);
    commands.push(Command::Release { system, jobs })?;
    Ok(commands)
}

// The numbers of the jobs that are settled. It asks the spool for its next number first, so that a
// spool that has failed is reported.
fn settled_numbers<S: Alter>(
    alloc: Global,
    own: &SiteName,
    settling: &Settling,
    spool: &mut Spool<S>,
) -> Result<Vec<u32>, StoreFault>
    ensures asked { IsAsked (λ s. ⊤) (λ s numbers. numbers.items ≡ spec.settled_by own.now settling.now s) spool.old spool.new result }
    ensures told { IfOk result (λ numbers. All (Contains (spec.numbers_told settling.now.has)) numbers.items) }
{
    spool.next()?;
    let rising = rising(alloc, settling.has.as_slice())?;
    let mut numbers = Vec::new(alloc);
    for one in &rising {
        add_if_settled(alloc, own, settling, one, spool, &mut numbers)?;
    }
    Ok(numbers)
}

// Those with a greater number than each before them.
fn rising(alloc: Global, told: &[Told]) -> Result<Vec<Told>, AllocError>
    ensures { IfOk result (λ kept. kept.items ≡ spec.rising 0 told.now) }
{
    let mut kept = Vec::new(alloc);
    let mut last = 0;
    for one in told {
        last = keep_if_greater(&mut kept, last, one)?;
    }
    Ok(kept)
}

// Keeps one with a greater number than the last. Returns the last number after that.
fn keep_if_greater(kept: &mut Vec<Told>, last: u32, one: &Told) -> Result<u32, AllocError>
    ensures { (others : List AnyTold) → IfOk result (λ number. kept.new.items ++ spec.rising number others ≡ kept.old.items ++ spec.rising last (one.now ∷ others)) }
{
    let number = one.number;
    if last < number {
        kept.push(*one)?;
        Ok(number)
    } else {
        Ok(last)
    }
}

// Adds the number of a job that is settled.
fn add_if_settled<S: Alter>(
    alloc: Global,
    own: &SiteName,
    settling: &Settling,
    one: &Told,
    spool: &mut Spool<S>,
    numbers: &mut Vec<u32>,
) -> Result<(), StoreFault>
    ensures asked { IsAsked (λ s. ⊤) (λ s done. numbers.new.items ≡ numbers.old.items ++ spec.settled_among own.now settling.now.system settling.now.spool (one.now ∷ []) s) spool.old spool.new result }
    ensures told { OnOk result ((numbers.new.items ≡ numbers.old.items) ⊎ (numbers.new.items ≡ numbers.old.items ++ one.now.number ∷ [])) }
{
    if waits(alloc, own, settling, one.number, one.mark, spool)? {
        numbers.push(one.number)?;
    }
    Ok(())
}

// The jobs that the system refuses and that wait for it.
fn refused_jobs<S: Alter>(
    alloc: Global,
    own: &SiteName,
    settling: &Settling,
    spool: &mut Spool<S>,
) -> Result<Vec<Refused>, StoreFault>
    requires { has_failed spool.old ≡ false }
    ensures { IsAsked (λ s. ⊤) (λ s refused. refused.items ≡ spec.refused_still own.now settling.now.system settling.now.spool settling.now.refused s) spool.old spool.new result }
{
    lines_are_one_run::<S>();
    let mut refused = Vec::new(alloc);
    for one in settling.refused.as_slice() {
        add_if_refused(alloc, own, settling, one, spool, &mut refused)?;
    }
    Ok(refused)
}

// Adds a job that is refused, if it waits for the system.
fn add_if_refused<S: Alter>(
    alloc: Global,
    own: &SiteName,
    settling: &Settling,
    one: &Refused,
    spool: &mut Spool<S>,
    refused: &mut Vec<Refused>,
) -> Result<(), StoreFault>
    ensures { IsAsked (λ s. ⊤) (λ s done. refused.new.items ≡ refused.old.items ++ spec.refused_still own.now settling.now.system settling.now.spool (one.now ∷ []) s) spool.old spool.new result }
{
    if waits(alloc, own, settling, one.number, one.mark, spool)? {
        refused.push(*one)?;
    }
    Ok(())
}

// Whether a job of this number and this mark waits for the system.
fn waits<S: Alter>(
    alloc: Global,
    own: &SiteName,
    settling: &Settling,
    number: u32,
    mark: Mark,
    spool: &mut Spool<S>,
) -> Result<bool, StoreFault>
    ensures { IsAsked (λ s. ⊤) (λ s waits. waits ≡ is_settled settling.now.system (mark_for own.now settling.now.system settling.now.spool) s (record { number = number; mark = mark })) spool.old spool.new result }
{
    match spool.job(alloc, number) {
        Ok(Some((head, bytes))) => {
            let system = &settling.system;
            match is_job_told(alloc, own, system, &settling.spool, mark, &head, &bytes) {
                Ok(told) => Ok(told),
                Err(_) => Err(StoreFault::Memory),
            }
        }
        Ok(None) => Ok(false),
        Err(fault) => Err(fault),
    }
}

// Whether this job waits for the system and has this mark.
fn is_job_told(
    alloc: Global,
    own: &SiteName,
    system: &SiteName,
    word: &Word,
    mark: Mark,
    head: &JobHead,
    bytes: &[u8],
) -> Result<bool, AllocError>
    ensures { IfOk result (λ told. told ≡ is_job_told own.now system.now word.now mark (Some (job_with head.now bytes.now))) }
{
    if head.system != *system {
        return Ok(false);
    }
    let now = parcel_mark(
        alloc,
        own,
        system,
        word,
        head.number,
        &head.user,
        &head.kind,
        bytes,
    )?;
    Ok(now == mark)
}
