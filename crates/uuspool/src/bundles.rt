//! What a site has to say to a neighbour: the bundle for it, and the one that answers the
//! neighbour's own.

ghost use Rattle.std.specs.Prelude.{◌≡◌, ℕ, min, List, Some, false, IfOk, map, ⊤, option_map, unwrap_or};
ghost use Rattle.std.specs.Io.KnownBytes.{Appends};
ghost use Rattle.std.specs.List.{list_any};
ghost use Rattle.uu_bundle.specs.Bundles.{front_text, most_bundle, takes_job, text_with_job, text_with_jobs};
ghost use Rattle.uu_core.specs.State.{Job, has_system, is_system, job_at, link_of};
ghost use Rattle.uu_request.specs.declared.request.Question.TheVariants as question;
ghost use Rattle.uu_request.specs.declared.request.Request.TheVariants as request;
ghost use Rattle.uu_store.specs.Spool.{has_failed};
ghost use Rattle.uuspool.specs.Bundles.{IsAnswerText, IsBundleText, most_of, parcel_for, parcels_for};
ghost use Rattle.uuspool.specs.Internal.Asked.{ArePacked, AreThere, IsAsked, IsBundleFor, heading_with};
ghost use Rattle.uuspool.specs.Served.{IsServed};

use crate::asking::begin_answering;
use crate::choosing::{least_number, numbers_of};
use crate::fault::Fault;
use crate::print::print;
use sqlite::Alter;
use std::alloc::{AllocError, Global};
use std::io::Write;
use uu_bundle::laws::{pieces_make_a_bundle, pieces_make_an_answer};
use uu_bundle::{MAX_BUNDLE, add_job, begin_bundle, end_bundle};
use uu_core::{Filter, SystemRow};
use uu_names::{Grade, SiteName};
use uu_questions::laws::jobs_are_listed_in_order;
use uu_request::{Answering, Packing};
use uu_settings::Settings;
use uu_store::{Spool, StoreFault, StoreKind};

/// Prints the bundle for a system.
pub(crate) fn pack<S: Alter, W: Write>(
    alloc: Global,
    packing: &Packing,
    settings: &Settings,
    spool: &mut Spool<S>,
    out: &mut W,
) -> Result<u8, Fault>
    ensures { IsServed settings.now (request.Question (question.Pack packing.now)) spool.old spool.new (λ output. Appends (W.contents out.old) (W.contents out.new) output) result }
{
    match packed(alloc, &settings.name, packing, spool) {
        Ok(Some(text)) => print(Ok(text), 0, out),
        Ok(None) => print(Vec::from_slice(alloc, b"no system\n"), 1, out),
        Err(fault) => Err(Fault::Store(fault)),
    }
}

/// Prints the bundle for a system that answers one of its own.
pub(crate) fn answer<S: Alter, W: Write>(
    alloc: Global,
    answering: &Answering,
    settings: &Settings,
    spool: &mut Spool<S>,
    out: &mut W,
) -> Result<u8, Fault>
    ensures { IsServed settings.now (request.Question (question.Answer answering.now)) spool.old spool.new (λ output. Appends (W.contents out.old) (W.contents out.new) output) result }
{
    match answered(alloc, &settings.name, answering, spool) {
        Ok(Some(text)) => print(Ok(text), 0, out),
        Ok(None) => print(Vec::from_slice(alloc, b"no system\n"), 1, out),
        Err(fault) => Err(Fault::Store(fault)),
    }
}

// The bundle for a system, if the system is known.
fn packed<S: Alter>(
    alloc: Global,
    own: &SiteName,
    packing: &Packing,
    spool: &mut Spool<S>,
) -> Result<Option<Vec<u8>>, StoreFault>
    ensures { IsAsked (λ s. ⊤) (λ s text. IsBundleFor (has_system s packing.now.system) (IsBundleText own.now packing.now s) (option_map (λ text. text.items) text)) spool.old spool.new result }
{
    let known = is_known(alloc, &packing.system, spool)?;
    if !known {
        return Ok(None);
    }
    let text = bundle_text(alloc, own, packing, spool)?;
    Ok(Some(text))
}

// The bundle that answers a system, if the system is known.
fn answered<S: Alter>(
    alloc: Global,
    own: &SiteName,
    answering: &Answering,
    spool: &mut Spool<S>,
) -> Result<Option<Vec<u8>>, StoreFault>
    ensures { IsAsked (λ s. ⊤) (λ s text. IsBundleFor (has_system s answering.now.packing.system) (IsAnswerText own.now answering.now s) (option_map (λ text. text.items) text)) spool.old spool.new result }
{
    let known = is_known(alloc, &answering.packing.system, spool)?;
    if !known {
        return Ok(None);
    }
    let text = answer_text(alloc, own, answering, spool)?;
    Ok(Some(text))
}

fn is_known<S: Alter>(
    alloc: Global,
    system: &SiteName,
    spool: &mut Spool<S>,
) -> Result<bool, StoreFault>
    ensures { IsAsked (λ s. ⊤) (λ s known. known ≡ has_system s system.now) spool.old spool.new result }
{
    let rows = spool.systems(alloc)?;
    Ok(is_among(&rows, system))
}

// Whether one of these systems has this name.
fn is_among(rows: &[SystemRow], name: &SiteName) -> bool
    ensures { result ≡ list_any (is_system name.now) rows.now }
{
    rows.iter().any(|row| row.def.name == *name)
}

// The bundle for a system: its beginning, the jobs for which there is room, and its end.
fn bundle_text<S: Alter>(
    alloc: Global,
    own: &SiteName,
    packing: &Packing,
    spool: &mut Spool<S>,
) -> Result<Vec<u8>, StoreFault>
    ensures { IsAsked (λ s. ⊤) (λ s text. IsBundleText own.now packing.now s text.items) spool.old spool.new result }
{
    pieces_make_a_bundle();
    let (numbers, below) = waiting(alloc, packing, packing.grade, spool)?;
    let mut text = begin(alloc, own, packing, below, spool)?;
    add_jobs(alloc, own, packing, &numbers, spool, &mut text)?;
    end_bundle(&mut text)?;
    Ok(text)
}

// The bundle that answers a system: its beginning, the jobs for which there is room, and its end.
fn answer_text<S: Alter>(
    alloc: Global,
    own: &SiteName,
    answering: &Answering,
    spool: &mut Spool<S>,
) -> Result<Vec<u8>, StoreFault>
    ensures { IsAsked (λ s. ⊤) (λ s text. IsAnswerText own.now answering.now s text.items) spool.old spool.new result }
{
    pieces_make_an_answer();
    let lowest = higher(answering.packing.grade, answering.asked);
    let (numbers, below) = waiting(alloc, &answering.packing, lowest, spool)?;
    let mut text = begin_answering(alloc, own, answering, below, spool)?;
    add_jobs(alloc, own, &answering.packing, &numbers, spool, &mut text)?;
    end_bundle(&mut text)?;
    Ok(text)
}

// The higher of two grades.
fn higher(one: Grade, other: Grade) -> Grade
    ensures { result ≡ min one other }
{
    one.min(other)
}

// The numbers of the jobs that go into the bundle, if there is room, and the number below which no
// job waits for the system.
fn waiting<S: Alter>(
    alloc: Global,
    packing: &Packing,
    lowest: Grade,
    spool: &mut Spool<S>,
) -> Result<(Vec<u32>, u32), StoreFault>
    ensures { IsAsked (λ s. ⊤) (λ s it. ArePacked packing.now lowest s it.0.items it.1) spool.old spool.new result }
{
    jobs_are_listed_in_order();
    let next = spool.next()?;
    let filter = filter_for(&packing.system)?;
    let heads = spool.jobs(alloc, &filter)?;
    let numbers = numbers_of(alloc, packing, lowest, &heads)?;
    Ok((numbers, least_number(&heads, next)))
}

// All jobs for a system.
fn filter_for(system: &SiteName) -> Result<Filter, AllocError>
    ensures { IfOk result (λ filter. filter ≡ record { system = Some system.now; user = None }) }
{
    let name = system.clone()?;
    Ok(Filter {
        system: Some(name),
        user: None,
    })
}

// The beginning of a bundle: its first line, and the jobs that were taken from the system.
fn begin<S: Alter>(
    alloc: Global,
    own: &SiteName,
    packing: &Packing,
    below: u32,
    spool: &mut Spool<S>,
) -> Result<Vec<u8>, StoreFault>
    ensures { IsAsked (λ s. ⊤) (λ s text. text.items ≡ front_text (most_of packing.now) (heading_with own.now packing.now below) (link_of s packing.now.system).taken) spool.old spool.new result }
{
    let taken = spool.taken(alloc, &packing.system)?;
    let text = begin_bundle(
        alloc,
        own,
        &packing.system,
        &packing.spool,
        below,
        packing.grade,
        &taken,
        limit_of(packing.most),
    )?;
    Ok(text)
}

// The most bytes of a bundle, but for its first job, if these are given.
fn limit_of(given: Option<u32>) -> u32
    ensures { result ≡ min (unwrap_or given most_bundle) most_bundle }
{
    given.unwrap_or(MAX_BUNDLE).min(MAX_BUNDLE)
}

// Adds the jobs of these numbers, one after the other, until one doesn't fit. The first one may make
// the bundle longer than it is to be.
fn add_jobs<S: Alter>(
    alloc: Global,
    own: &SiteName,
    packing: &Packing,
    numbers: &[u32],
    spool: &mut Spool<S>,
    text: &mut Vec<u8>,
) -> Result<(), StoreFault>
    requires { has_failed spool.old ≡ false }
    ensures { (jobs : List Job) → numbers.now ≡ map (λ job. job.number) jobs
        → IsAsked (AreThere jobs) (λ s done. text.new.items ≡ text_with_jobs most_bundle (most_of packing.now) text.old.items (parcels_for own.now packing.now jobs)) spool.old spool.new result }
{
    let mut room = MAX_BUNDLE;
    for number in numbers {
        if !add_one(alloc, own, packing, *number, room, spool, text)? {
            return Ok(());
        }
        room = limit_of(packing.most);
    }
    Ok(())
}

// Adds the job of this number, if a bundle of this many bytes has room for it. A spool has each job
// that it lists.
fn add_one<S: Alter>(
    alloc: Global,
    own: &SiteName,
    packing: &Packing,
    number: u32,
    room: u32,
    spool: &mut Spool<S>,
    text: &mut Vec<u8>,
) -> Result<bool, StoreFault>
    ensures { (job : Job) → IsAsked (λ s. job_at s number ≡ Some job)
        (λ s added. (added ≡ takes_job room text.old.items (parcel_for own.now packing.now.system packing.now.spool job)) × (text.new.items ≡ text_with_job room text.old.items (parcel_for own.now packing.now.system packing.now.spool job)))
        spool.old spool.new result }
{
    match spool.job(alloc, number) {
        Ok(Some((head, bytes))) => {
            let system = &packing.system;
            match add_job(
                alloc,
                own,
                system,
                &packing.spool,
                &head,
                &bytes,
                room,
                text,
            ) {
                Ok(added) => Ok(added),
                Err(_) => Err(StoreFault::Memory),
            }
        }
        Ok(None) => Err(StoreFault::Store(StoreKind::Database)),
        Err(fault) => Err(fault),
    }
}
