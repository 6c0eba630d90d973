//! Mail of this site: it goes to its system or, if the site doesn't have that, by the map.

ghost use Rattle.std.specs.Prelude.{◌≡◌, ◌≢◌, ◌++◌, [], ℕ, List, Some, None, Err, IfOk, IfErr, MatchResult, Contains, map, option_map, if◌then◌else◌, ⊤};
ghost use Rattle.std.specs.List.{AllZip, flat_map, list_all};
ghost use Rattle.std.specs.Io.KnownBytes.{Appends};
ghost use Rattle.std.specs.String.{string_bytes};
ghost use Rattle.uu_map.specs.Entry.{IsEntry};
ghost use Rattle.uu_map.specs.Text.{host_of};
ghost use Rattle.uu_map.specs.declared.entry.Entry.{Entry as AnyEntry};
ghost use Rattle.uu_map.specs.declared.fault.MapFault.TheVariants.{Memory};
ghost use Rattle.uu_names.specs.Name.{is_word};
ghost use Rattle.uu_report.specs.Reports.{site_text};
ghost use Rattle.uu_request.specs.declared.request.Request.TheVariants as request;
ghost use Rattle.uuspool.specs.Internal.Asked.{IsAsked};
ghost use Rattle.uuspool.specs.Mail.{IsRoutedWay, IsWayByMap, has_words, mail_by, way_by};
ghost use Rattle.uuspool.specs.Mail as spec;
ghost use Rattle.uuspool.specs.Served.{AreCommandsIn, AreCommandsOf, IsServed};

use crate::fault::Fault;
use crate::routing::{names_of, read_entries, routes_to, systems_and_entries};
use crate::serving::print_end;
use sqlite::Alter;
use std::alloc::{AllocError, Global};
use std::io::Write;
use uu_core::{Command, Kind, NewJob, Refusal, Subject, SystemRow};
use uu_map::MapFault;
use uu_names::{Listed, NameFault, SiteName, Word};
use uu_routes::{RouteFault, SiteRoute, meant_host, site_routes};
use uu_settings::Settings;
use uu_store::laws::runs_are_one_run;
use uu_store::{Spool, StoreFault, StoreKind};

/// Queues the mail, and prints the reply.
pub(crate) fn mail<S: Alter, W: Write>(
    alloc: Global,
    mail: NewJob,
    settings: &Settings,
    spool: &mut Spool<S>,
    out: &mut W,
) -> Result<u8, Fault>
    ensures { IsServed settings.now (request.Mailing mail) spool.old spool.new (λ output. Appends (W.contents out.old) (W.contents out.new) output) result }
{
    runs_are_one_run::<S>();
    match commands_for(alloc, settings, mail, spool) {
        Ok(commands) => {
            let end = spool.run(alloc, commands);
            print_end(alloc, &[Subject::Line], &[], &end, out)
        }
        Err(fault) => Err(Fault::Store(fault)),
    }
}

// The command that queues the mail.
fn commands_for<S: Alter>(
    alloc: Global,
    settings: &Settings,
    mail: NewJob,
    spool: &mut Spool<S>,
) -> Result<Vec<Command>, StoreFault>
    ensures asked { IsAsked (λ s. ⊤) (λ s commands. AreCommandsIn settings.now s (request.Mailing mail) commands.items) spool.old spool.new result }
    ensures told { IfOk result (λ commands. AreCommandsOf (request.Mailing mail) commands.items) }
{
    let sent = sent_mail(alloc, &settings.name, mail, spool)?;
    let mut commands = Vec::new(alloc);
    commands.push(Command::Queue(sent))?;
    Ok(commands)
}

// The mail as it is queued.
fn sent_mail<S: Alter>(
    alloc: Global,
    own: &SiteName,
    mail: NewJob,
    spool: &mut Spool<S>,
) -> Result<NewJob, StoreFault>
    ensures asked { IsAsked (λ s. ⊤) (λ s sent. (way : List (List ℕ)) × spec.IsWay own.now s mail way × (sent ≡ mail_by way mail)) spool.old spool.new result }
    ensures told { IfOk result (λ sent. (way : List (List ℕ)) × (sent ≡ mail_by way mail)) }
{
    let command = Command::Queue(mail);
    let refusal = spool.refusal(alloc, &command)?;
    match (command, is_for_no_system(refusal)) {
        (Command::Queue(mail), true) => mail_by_map(alloc, own, mail, spool),
        (Command::Queue(mail), false) => Ok(mail),
        _ => unreachable!(),
    }
}

// Whether that is why a command would be refused: the site doesn't have its system.
fn is_for_no_system(refusal: Option<Refusal>) -> bool
    ensures { result ≡ spec.is_for_no_system refusal }
{
    matches!(refusal, Some(Refusal::NoSystem))
}

// The mail by the map. A spool keeps only entries that can be read.
fn mail_by_map<S: Alter>(
    alloc: Global,
    own: &SiteName,
    mail: NewJob,
    spool: &mut Spool<S>,
) -> Result<NewJob, StoreFault>
    ensures asked { IsAsked (λ s. ⊤) (λ s sent. (way : List (List ℕ)) × IsWayByMap own.now s mail way × (sent ≡ mail_by way mail)) spool.old spool.new result }
    ensures told { IfOk result (λ sent. (way : List (List ℕ)) × (sent ≡ mail_by way mail)) }
{
    let (systems, texts) = systems_and_entries(alloc, spool)?;
    match routed_mail(alloc, own, &systems, &texts, mail) {
        Ok(sent) => Ok(sent),
        Err(fault) => match fault {
            MapFault::Memory => Err(StoreFault::Memory),
            _ => Err(StoreFault::Store(StoreKind::Database)),
        },
    }
}

// The mail by the map of these texts, from a site with these systems.
fn routed_mail(
    alloc: Global,
    own: &SiteName,
    systems: &[SystemRow],
    texts: &[Listed<u8>],
    mail: NewJob,
) -> Result<NewJob, MapFault>
    ensures sent { IfOk result (λ sent. (way : List (List ℕ)) × ((entries : List AnyEntry) × AllZip IsEntry texts.now entries
        × IsRoutedWay entries own.now (map (λ row. row.def.name) systems.now) mail way) × (sent ≡ mail_by way mail)) }
    ensures fault { IfErr result (λ fault. fault ≢ Memory → (text : List ℕ) × Contains texts.now text × (host_of text ≡ Err fault)) }
{
    let entries = read_entries(alloc, texts)?;
    let names = names_of(alloc, systems)?;
    match site_routes(alloc, &entries, own, &names) {
        Ok(routes) => {
            let host = meant_host(alloc, &entries, &mail.system)?;
            let found = routes_to(routes.into_vec(), &host);
            mail_on(alloc, &found, mail)
        }
        Err(fault) => match fault {
            RouteFault::TooCostly => Ok(mail),
            RouteFault::Memory => Err(MapFault::Memory),
        },
    }
}

// The mail by the first of these routes, if there is one and it can go by it.
fn mail_on(alloc: Global, routes: &[SiteRoute], mail: NewJob) -> Result<NewJob, MapFault>
    ensures { MatchResult result (λ sent. sent ≡ mail_by (way_by routes.now mail) mail) (λ fault. fault ≡ Memory) }
{
    match routes {
        [] => Ok(mail),
        [route, ..] => mail_over(alloc, route.sites.as_slice(), mail),
    }
}

// The mail by way of these sites, if it can go by it.
fn mail_over(alloc: Global, sites: &[SiteName], mail: NewJob) -> Result<NewJob, MapFault>
    ensures { MatchResult result (λ sent. sent ≡ mail_by (if has_words (mail_by sites.now mail).kind then sites.now else []) mail) (λ fault. fault ≡ Memory) }
{
    let [system, rest @ ..] = sites else {
        return Ok(mail);
    };
    match kind_over(alloc, rest, &mail.kind)? {
        Some(kind) => {
            let system = system.clone()?;
            Ok(NewJob {
                system,
                kind,
                ..mail
            })
        }
        None => Ok(mail),
    }
}

// What the first site does with the mail, if these sites can stand before each address.
fn kind_over(alloc: Global, sites: &[SiteName], kind: &Kind) -> Result<Option<Kind>, MapFault>
    ensures { MatchResult result (λ made. made ≡ (if has_words (spec.kind_by sites.now kind.now) then Some (spec.kind_by sites.now kind.now) else None)) (λ fault. fault ≡ Memory) }
{
    match kind {
        Kind::Execute { command, arguments } => {
            match addresses_over(alloc, sites, arguments.as_slice())? {
                Some(addresses) => {
                    let command = command.clone()?;
                    let arguments = Listed::from_vec(addresses);
                    Ok(Some(Kind::Execute { command, arguments }))
                }
                None => Ok(None),
            }
        }
        _ => Ok(None),
    }
}

// The addresses with these sites before each, if each is a word.
fn addresses_over(
    alloc: Global,
    sites: &[SiteName],
    addresses: &[Word],
) -> Result<Option<Vec<Word>>, MapFault>
    ensures { MatchResult result
        (λ made. option_map (λ words. words.items) made ≡ (if list_all is_word (map (spec.address_by sites.now) addresses.now) then Some (map (spec.address_by sites.now) addresses.now) else None))
        (λ fault. fault ≡ Memory) }
{
    let path = path_over(alloc, sites)?;
    let mut words = Vec::new(alloc);
    for address in addresses {
        match word_of(alloc, &path, address)? {
            Some(word) => words.push(word)?,
            None => return Ok(None),
        }
    }
    Ok(Some(words))
}

// What stands before an address by way of these sites.
fn path_over(alloc: Global, sites: &[SiteName]) -> Result<String, AllocError>
    ensures { IfOk result (λ path. string_bytes path ≡ flat_map site_text sites.now) }
{
    let mut path = String::new(alloc);
    for site in sites {
        let name = site.as_str();
        write!(path, "{name}!")?;
    }
    Ok(path)
}

// The address with this path before it, if it is a word.
fn word_of(alloc: Global, path: &str, address: &Word) -> Result<Option<Word>, MapFault>
    ensures { MatchResult result (λ made. made ≡ (if is_word (path.now ++ address.now) then Some (path.now ++ address.now) else None)) (λ fault. fault ≡ Memory) }
{
    let address = address.as_str();
    let text = format!(in alloc; "{path}{address}")?;
    match Word::parse(alloc, &text) {
        Ok(word) => Ok(Some(word)),
        Err(fault) => match fault {
            NameFault::Memory => Err(MapFault::Memory),
            _ => Ok(None),
        },
    }
}
