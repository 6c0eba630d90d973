//! What is asked of a spool with bundles of neighbours.

ghost use Rattle.std.specs.Prelude.{◌≡◌, ◌++◌, ◌<◌, [], ◌∷◌, MatchOption, Ok, Some, IfOk, IfErr, IsTrue, nat_le, length, find, map, string_bytes, take, option_copied, unwrap_or, codes};
ghost use Rattle.std.specs.List.{list_all, slice_split};
ghost use Rattle.std.specs.Option.{option_to_list};
ghost use Rattle.std.specs.Str.{byte};
ghost use Rattle.uu_names.specs.Envelope.{envelope_of};
ghost use Rattle.uu_names.specs.Name.{is_site_byte, is_site_name, most_word};
ghost use Rattle.uu_names.specs.Path.{is_bang, rest_of};
ghost use Rattle.uu_times.specs.Moment.{IsDateTimeAt, local_second};
ghost use Rattle.uu_core.specs.TakeIns.{offering};
ghost use Rattle.uu_core.specs.declared.subject.Subject.TheVariants as subject;
ghost use Rattle.uu_request.specs.Requests.{AnswersUnlessMemory, UnlessMemory};
ghost use Rattle.uu_request.specs.Unpacking.{AsksOf, IsBundleBetween, are_steps};
ghost use Rattle.uu_request.specs.Unpacking as spec;

use crate::fault::{RequestFault, WrongBundle};
use crate::mail::with_envelope;
use crate::request::{Answering, Packing, Question, Request, Settling, Unpacking};
use std::alloc::{AllocError, Global};
use uu_bundle::{Bundle, BundleFault, Parcel, read_bundle};
use uu_core::limits::MAX_BYTES;
use uu_core::{Command, Key, Kind, NewJob, Offered, Subject, TakeIn};
use uu_names::{Grade, Listed, NameFault, SiteName, Word, is_site_byte};
use uu_settings::Settings;
use uu_times::Moment;

// The most bytes of a word.
const MAX_WORD: usize = 255;

/// Which bundle for a system is asked for.
pub(crate) fn packing(
    alloc: Global,
    system: SiteName,
    grade: Grade,
    spool: Option<Word>,
    after: Option<u32>,
    most: Option<u32>,
    no_jobs: bool,
) -> Result<Packing, RequestFault>
    ensures packing { IfOk result (λ packing. packing ≡ spec.packing system grade spool after most no_jobs) }
    ensures memory { IfErr result (λ fault. fault ≡ RequestFault.Memory) }
{
    let spool = spool_of(alloc, spool)?;
    Ok(Packing {
        system,
        grade,
        spool,
        after,
        most,
        no_jobs,
    })
}

/// The question for the bundle for a system.
pub(crate) fn pack(
    alloc: Global,
    system: SiteName,
    grade: Grade,
    spool: Option<Word>,
    after: Option<u32>,
    most: Option<u32>,
    no_jobs: bool,
) -> Result<Request, RequestFault>
    ensures { AnswersUnlessMemory result (Ok (spec.pack (spec.packing system grade spool after most no_jobs))) }
{
    let packing = packing(alloc, system, grade, spool, after, most, no_jobs)?;
    Ok(Request::Question(Question::Pack(packing)))
}

/// Which jobs a system has and which it refused, by its bundle.
pub(crate) fn settle(
    alloc: Global,
    system: SiteName,
    spool: Option<Word>,
    settings: &Settings,
    text: &[u8],
) -> Result<Request, RequestFault>
    ensures { UnlessMemory (AsksOf system settings.now.name text.now (spec.settle system spool)) result }
{
    match said(alloc, &system, &settings.name, text) {
        Ok(bundle) => settled_by(alloc, system, spool, bundle),
        Err(fault) => Err(fault),
    }
}

// The same for this bundle.
fn settled_by(
    alloc: Global,
    system: SiteName,
    spool: Option<Word>,
    bundle: Bundle,
) -> Result<Request, RequestFault>
    ensures { AnswersUnlessMemory result (Ok (spec.settle system spool bundle)) }
{
    let spool = spool_of(alloc, spool)?;
    Ok(Request::Settling(Settling {
        system,
        spool,
        has: bundle.has,
        refused: bundle.refused,
    }))
}

/// The question for the bundle that answers a sender's for this site. Mail is passed on to these
/// systems.
pub(crate) fn answer(
    alloc: Global,
    packing: Packing,
    onward: &[SiteName],
    settings: &Settings,
    at: &Moment,
    text: &[u8],
) -> Result<Request, RequestFault>
    requires { IsDateTimeAt at.now.local (local_second settings.now.zone at.now.second) }
    ensures { UnlessMemory (AsksOf packing.system settings.now.name text.now (spec.answer settings.now at.now onward.now packing)) result }
{
    match said(alloc, &packing.system, &settings.name, text) {
        Ok(bundle) => answered(alloc, packing, onward, settings, at, bundle),
        Err(fault) => Err(fault),
    }
}

// The same for this bundle.
fn answered(
    alloc: Global,
    packing: Packing,
    onward: &[SiteName],
    settings: &Settings,
    at: &Moment,
    bundle: Bundle,
) -> Result<Request, RequestFault>
    requires { IsDateTimeAt at.now.local (local_second settings.now.zone at.now.second) }
    ensures { AnswersUnlessMemory result (Ok (spec.answer settings.now at.now onward.now packing bundle)) }
{
    let asked = bundle.grade;
    let jobs = bundle.jobs.into_vec();
    let offers = offers_of(alloc, &packing.system, onward, settings, at, jobs)?;
    let commands = commands_of(alloc, &packing.system, offers)?;
    Ok(Request::Question(Question::Answer(Answering {
        packing,
        asked,
        commands: Listed::from_vec(commands),
    })))
}

// The word for this site's spool.
fn spool_of(alloc: Global, word: Option<Word>) -> Result<Word, RequestFault>
    ensures word { IfOk result (λ spool. spool ≡ spec.spool_of word) }
    ensures memory { IfErr result (λ fault. fault ≡ RequestFault.Memory) }
{
    match word {
        Some(word) => Ok(word),
        None => match Word::parse(alloc, "-") {
            Ok(word) => Ok(word),
            Err(_) => Err(RequestFault::Memory),
        },
    }
}

/// The request that takes a sender's bundle for this site. Mail is passed on to these systems.
pub(crate) fn unpack(
    alloc: Global,
    sender: SiteName,
    onward: &[SiteName],
    settings: &Settings,
    at: &Moment,
    text: &[u8],
) -> Result<Request, RequestFault>
    requires { IsDateTimeAt at.now.local (local_second settings.now.zone at.now.second) }
    ensures { UnlessMemory (AsksOf sender settings.now.name text.now (spec.unpack settings.now at.now sender onward.now)) result }
{
    match said(alloc, &sender, &settings.name, text) {
        Ok(bundle) => unpacked(alloc, sender, onward, settings, at, bundle),
        Err(fault) => Err(fault),
    }
}

// The bundle from one site to the other.
fn said(alloc: Global, from: &SiteName, to: &SiteName, text: &[u8]) -> Result<Bundle, RequestFault>
    ensures { UnlessMemory (IsBundleBetween from.now to.now text.now) result }
{
    match read_bundle(alloc, text) {
        Ok(bundle) => match wrong_sites(from, to, &bundle) {
            None => Ok(bundle),
            Some(why) => Err(RequestFault::Bundle(why)),
        },
        Err(BundleFault::NoBundle) => Err(RequestFault::Bundle(WrongBundle::NoBundle)),
        Err(BundleFault::Memory) => Err(RequestFault::Memory),
    }
}

// Why the bundle isn't from the one site to the other.
fn wrong_sites(from: &SiteName, to: &SiteName, bundle: &Bundle) -> Option<WrongBundle>
    ensures { result ≡ spec.wrong_sites from.now to.now bundle.now }
{
    if bundle.from.as_str() != from.as_str() {
        return Some(WrongBundle::OtherSender);
    }
    if bundle.to.as_str() != to.as_str() {
        return Some(WrongBundle::OtherSite);
    }
    None
}

// The request that takes this bundle.
fn unpacked(
    alloc: Global,
    sender: SiteName,
    onward: &[SiteName],
    settings: &Settings,
    at: &Moment,
    bundle: Bundle,
) -> Result<Request, RequestFault>
    requires { IsDateTimeAt at.now.local (local_second settings.now.zone at.now.second) }
    ensures { AnswersUnlessMemory result (Ok (spec.unpack settings.now at.now sender onward.now bundle)) }
{
    let Bundle {
        from: _,
        to: _,
        spool: _,
        below,
        grade: _,
        has: _,
        refused: _,
        jobs,
        stopped,
    } = bundle;
    let subjects = subjects_of(alloc, &sender, jobs.as_slice())?;
    let jobs = offers_of(alloc, &sender, onward, settings, at, jobs.into_vec())?;
    let skipped = lines_of(alloc, stopped)?;
    Ok(Request::Unpacking(Unpacking {
        bundle: TakeIn {
            from: sender,
            below,
            jobs: Listed::from_vec(jobs),
        },
        subjects: Listed::from_vec(subjects),
        skipped: Listed::from_vec(skipped),
    }))
}

// The line that was not read, if there is one.
fn lines_of(alloc: Global, stopped: Option<u32>) -> Result<Vec<u32>, AllocError>
    ensures { IfOk result (λ lines. lines.items ≡ option_to_list stopped) }
{
    let mut lines = Vec::new(alloc);
    if let Some(line) = stopped {
        lines.push(line)?;
    }
    Ok(lines)
}

// The first reply is about the sender, each other about the number that a job has there.
fn subjects_of(
    alloc: Global,
    sender: &SiteName,
    jobs: &[Parcel],
) -> Result<Vec<Subject>, AllocError>
    ensures { IfOk result (λ subjects. subjects.items ≡ subject.Site sender.now ∷ map (λ parcel. subject.Parcel parcel.number) jobs.now) }
{
    let mut subjects = Vec::new(alloc);
    let name = sender.clone()?;
    subjects.push(Subject::Site(name))?;
    for parcel in jobs {
        subjects.push(Subject::Parcel(parcel.number))?;
    }
    Ok(subjects)
}

// The jobs of a sender's, as they are offered.
fn offers_of(
    alloc: Global,
    sender: &SiteName,
    onward: &[SiteName],
    settings: &Settings,
    at: &Moment,
    jobs: Vec<Parcel>,
) -> Result<Vec<Offered>, RequestFault>
    requires { IsDateTimeAt at.now.local (local_second settings.now.zone at.now.second) }
    ensures offers { IfOk result (λ offers. offers.items ≡ map (spec.offered settings.now at.now sender.now onward.now) jobs.items) }
    ensures memory { IfErr result (λ fault. fault ≡ RequestFault.Memory) }
{
    let mut offers = Vec::new(alloc);
    for parcel in jobs {
        match offered(alloc, sender, onward, settings, at, parcel) {
            Ok(offered) => offers.push(offered)?,
            Err(fault) => return Err(fault),
        }
    }
    Ok(offers)
}

// The commands that queue what a sender offers, once.
fn commands_of(
    alloc: Global,
    sender: &SiteName,
    offers: Vec<Offered>,
) -> Result<Vec<Command>, AllocError>
    ensures { IfOk result (λ commands. commands.items ≡ map (offering sender.now) offers.items) }
{
    let mut commands = Vec::new(alloc);
    for offered in offers {
        let Offered { number, mark, job } = offered;
        let from = sender.clone()?;
        commands.push(Command::QueueOnce(Key { from, number, mark }, job))?;
    }
    Ok(commands)
}

// A job of the sender's, as it is offered.
fn offered(
    alloc: Global,
    sender: &SiteName,
    onward: &[SiteName],
    settings: &Settings,
    at: &Moment,
    parcel: Parcel,
) -> Result<Offered, RequestFault>
    requires { IsDateTimeAt at.now.local (local_second settings.now.zone at.now.second) }
    ensures offered { IfOk result (λ offered. offered ≡ spec.offered settings.now at.now sender.now onward.now parcel) }
    ensures memory { IfErr result (λ fault. fault ≡ RequestFault.Memory) }
{
    let number = parcel.number;
    let mark = parcel.mark;
    let user = user_of(alloc, sender, &parcel.user)?;
    let job = job_of(alloc, onward, settings, at, user, parcel)?;
    Ok(Offered { number, mark, job })
}

// The job that is made of one of a sender's, with the user that it has here.
fn job_of(
    alloc: Global,
    onward: &[SiteName],
    settings: &Settings,
    at: &Moment,
    user: Word,
    parcel: Parcel,
) -> Result<NewJob, RequestFault>
    requires { IsDateTimeAt at.now.local (local_second settings.now.zone at.now.second) }
    ensures job { IfOk result (λ job. job ≡ unwrap_or (spec.passed_on settings.now at.now user parcel (spec.next_hop onward.now parcel.kind)) (spec.own_job settings.now at.now user parcel)) }
    ensures memory { IfErr result (λ fault. fault ≡ RequestFault.Memory) }
{
    match passed_on(alloc, onward, settings, at, &user, &parcel) {
        Ok(Some(message)) => Ok(message),
        Ok(None) => own_job(settings, at, user, parcel),
        Err(fault) => Err(fault),
    }
}

// The job for the site itself.
fn own_job(
    settings: &Settings,
    at: &Moment,
    user: Word,
    parcel: Parcel,
) -> Result<NewJob, RequestFault>
    ensures job { IfOk result (λ job. job ≡ spec.own_job settings.now at.now user parcel) }
    ensures memory { IfErr result (λ fault. fault ≡ RequestFault.Memory) }
{
    let system = settings.name.clone()?;
    let Parcel {
        number: _,
        mark: _,
        grade,
        user: _,
        kind,
        bytes,
    } = parcel;
    Ok(NewJob {
        system,
        grade,
        user,
        kind,
        bytes,
        at: *at,
    })
}

// The message that is passed on.
fn passed_on(
    alloc: Global,
    onward: &[SiteName],
    settings: &Settings,
    at: &Moment,
    user: &Word,
    parcel: &Parcel,
) -> Result<Option<NewJob>, RequestFault>
    requires { IsDateTimeAt at.now.local (local_second settings.now.zone at.now.second) }
    ensures message { IfOk result (λ message. message ≡ spec.passed_on settings.now at.now user.now parcel.now (spec.next_hop onward.now parcel.now.kind)) }
    ensures memory { IfErr result (λ fault. fault ≡ RequestFault.Memory) }
{
    match next_hop(onward, &parcel.kind) {
        Some(system) => message_to(alloc, system, settings, at, user, parcel),
        None => Ok(None),
    }
}

// The message for a system, if its envelope isn't too large.
fn message_to(
    alloc: Global,
    system: &SiteName,
    settings: &Settings,
    at: &Moment,
    user: &Word,
    parcel: &Parcel,
) -> Result<Option<NewJob>, RequestFault>
    requires clock { IsDateTimeAt at.now.local (local_second settings.now.zone at.now.second) }
    requires rests { IsTrue (spec.have_rests parcel.now.kind) }
    ensures message { IfOk result (λ message. message ≡ spec.passed_on settings.now at.now user.now parcel.now (Some system.now)) }
    ensures memory { IfErr result (λ fault. fault ≡ RequestFault.Memory) }
{
    let Ok(envelope) = with_envelope(alloc, user, at, settings, parcel.bytes.as_slice()) else {
        return Err(RequestFault::Memory);
    };
    if envelope.len() > MAX_BYTES as usize {
        return Ok(None);
    }
    let kind = rmail(alloc, &parcel.kind)?;
    Ok(Some(NewJob {
        system: system.clone()?,
        grade: parcel.grade,
        user: user.clone()?,
        kind,
        bytes: Listed::from_vec(envelope),
        at: *at,
    }))
}

// What a system does with a message that is passed on.
fn rmail(alloc: Global, kind: &Kind) -> Result<Kind, RequestFault>
    requires { IsTrue (spec.have_rests kind.now) }
    ensures kind { IfOk result (λ made. made ≡ Kind.Execute (codes "rmail") (spec.rests_of kind.now)) }
    ensures memory { IfErr result (λ fault. fault ≡ RequestFault.Memory) }
{
    let Ok(command) = Word::parse(alloc, "rmail") else {
        return Err(RequestFault::Memory);
    };
    let arguments = Listed::from_vec(rests_of(alloc, kind)?);
    Ok(Kind::Execute { command, arguments })
}

// The addresses of a message without their first sites.
fn rests_of(alloc: Global, kind: &Kind) -> Result<Vec<Word>, RequestFault>
    requires { IsTrue (spec.have_rests kind.now) }
    ensures rests { IfOk result (λ rests. rests.items ≡ spec.rests_of kind.now) }
    ensures memory { IfErr result (λ fault. fault ≡ RequestFault.Memory) }
{
    match kind {
        Kind::Execute {
            command: _,
            arguments,
        } => rests(alloc, arguments.as_slice()),
        _ => Ok(Vec::new(alloc)),
    }
}

fn rests(alloc: Global, addresses: &[Word]) -> Result<Vec<Word>, RequestFault>
    requires { IsTrue (list_all (λ address. nat_le 1 (length (rest_of address))) addresses.now) }
    ensures rests { IfOk result (λ rests. rests.items ≡ map rest_of addresses.now) }
    ensures memory { IfErr result (λ fault. fault ≡ RequestFault.Memory) }
{
    let mut rests = Vec::new(alloc);
    for address in addresses {
        match rest(alloc, address) {
            Ok(rest) => rests.push(rest)?,
            Err(fault) => return Err(fault),
        }
    }
    Ok(rests)
}

// An address without its first site.
fn rest(alloc: Global, address: &Word) -> Result<Word, RequestFault>
    requires { IsTrue (nat_le 1 (length (rest_of address.now))) }
    ensures rest { IfOk result (λ rest. rest ≡ rest_of address.now) }
    ensures memory { IfErr result (λ fault. fault ≡ RequestFault.Memory) }
{
    match Word::parse(alloc, rest_of(address.as_str())) {
        Ok(word) => Ok(word),
        Err(fault) => match fault {
            NameFault::Memory => Err(RequestFault::Memory),
            _ => unreachable!(),
        },
    }
}

// What comes after the first `!`, or nothing if there is none.
fn rest_of(address: &str) -> &str
    ensures { result.now ≡ rest_of address.now }
{
    match address.split_once('!') {
        Some((_, rest)) => rest,
        None => "",
    }
}

// The user that a job of a sender's user has here.
fn user_of(alloc: Global, sender: &SiteName, user: &Word) -> Result<Word, RequestFault>
    ensures user { IfOk result (λ made. made ≡ spec.user_of sender.now user.now) }
    ensures memory { IfErr result (λ fault. fault ≡ RequestFault.Memory) }
{
    let both = with_bang(alloc, sender.as_str(), user.as_str())?;
    match Word::from_bytes(alloc, front_of(both.as_bytes())) {
        Ok(word) => Ok(word),
        Err(fault) => match fault {
            NameFault::Memory => Err(RequestFault::Memory),
            _ => unreachable!(),
        },
    }
}

// A site and a user, with a `!` between them.
fn with_bang(alloc: Global, site: &str, user: &str) -> Result<String, AllocError>
    ensures { IfOk result (λ both. string_bytes both ≡ site.now ++ byte "!" ∷ user.now) }
{
    format!(in alloc; "{site}!{user}")
}

// As much of a text's beginning as a word has room for.
fn front_of(text: &[u8]) -> &[u8]
    ensures { result.now ≡ take most_word text.now }
{
    let (front, _) = text.split_at(MAX_WORD.min(text.len()));
    front
}

// The system to which a job goes on, if it is a message.
fn next_hop<'a>(onward: &'a [SiteName], kind: &Kind) -> Option<&'a SiteName>
    ensures { option_copied result ≡ spec.next_hop onward.now kind.now }
{
    match kind {
        Kind::Execute { command, arguments } => hop_of(onward, command, arguments.as_slice()),
        _ => None,
    }
}

fn hop_of<'a>(onward: &'a [SiteName], command: &Word, addresses: &[Word]) -> Option<&'a SiteName>
    ensures { option_copied result ≡ spec.next_hop onward.now (Kind.Execute command.now addresses.now) }
{
    if command.as_str() == "rmail" && !addresses.is_empty() {
        first_hop(onward, addresses)
    } else {
        None
    }
}

// The first of the systems to which a message with all these addresses is passed on.
fn first_hop<'a>(onward: &'a [SiteName], addresses: &[Word]) -> Option<&'a SiteName>
    ensures { option_copied result ≡ find (λ system. list_all (spec.is_by_way_of system) addresses.now) onward.now }
{
    onward
        .iter()
        .find(|system| are_by_way_of(system, addresses))
}

// Whether all the addresses begin with the system.
fn are_by_way_of(system: &SiteName, addresses: &[Word]) -> bool
    ensures { result ≡ list_all (spec.is_by_way_of system.now) addresses.now }
{
    addresses
        .iter()
        .all(|address| is_by_way_of(system.as_str(), address.as_str()))
}

// Whether this address begins with the system.
fn is_by_way_of(system: &str, address: &str) -> bool
    ensures { result ≡ spec.is_by_way_of system.now address.now }
{
    match address.split_once('!') {
        Some((hop, rest)) => hop == system && has_steps(rest),
        None => false,
    }
}

// Whether a text is one or more sites, each followed by a `!`, and a local part.
fn has_steps(text: &str) -> bool
    ensures { result ≡ are_steps (slice_split is_bang text.now) }
{
    let mut left = text;
    while let Some((site, rest)) = cut(left) {
        if !is_site(site) {
            return false;
        }
        left = rest;
    }
    !left.is_empty()
}

// The parts of a text around its first `!`, if it has one.
fn cut(text: &str) -> Option<(&str, &str)>
    ensures { MatchOption result (slice_split is_bang text.now ≡ text.now ∷ [])
        (λ parts. (slice_split is_bang text.now ≡ parts.0.now ∷ slice_split is_bang parts.1.now) × (length parts.1.now < length text.now)) }
{
    text.split_once('!')
}

// Whether a text is the name of a site.
fn is_site(text: &str) -> bool
    ensures { result ≡ is_site_name text.now }
{
    let len = text.len();
    if len == 0 || len > 63 {
        return false;
    }
    has_site_bytes(text)
}

// Whether each byte of a text is one of a site's name.
fn has_site_bytes(text: &str) -> bool
    ensures { result ≡ list_all is_site_byte text.now }
{
    text.as_bytes().iter().all(|byte| is_site_byte(*byte))
}
