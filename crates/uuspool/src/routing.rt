//! The questions about the map.

ghost use Rattle.std.specs.Prelude.{◌≡◌, ◌≢◌, [], false, Bool, IfOk, IfErr, IsTrue, MatchResult, Contains, Err, List, Option, ℕ, find, map, option_copied, filter, ⊤};
ghost use Rattle.std.specs.List.{AllZip};
ghost use Rattle.std.specs.Io.KnownBytes.{Appends};
ghost use Rattle.sqlite.specs.State.{HasCleanDisk};
ghost use Rattle.uu_map.specs.Entry.{IsEntry};
ghost use Rattle.uu_map.specs.Text.{host_of};
ghost use Rattle.uu_map.specs.declared.entry.Entry.{Entry as AnyEntry};
ghost use Rattle.uu_map.specs.declared.fault.MapFault.TheVariants.{Memory};
ghost use Rattle.uu_request.specs.declared.request.Question.TheVariants as question;
ghost use Rattle.uu_request.specs.declared.request.Request.TheVariants as request;
ghost use Rattle.uu_store.specs.Runs.{Ran, fault_in};
ghost use Rattle.uu_store.specs.Spool.{IsFaultBetween, Shows, disk, has_failed};
ghost use Rattle.uuspool.specs.Answers.{IsEntryShown, entry_for, is_of};
ghost use Rattle.uuspool.specs.Internal.Asked.{IsAsked};
ghost use Rattle.uuspool.specs.Routes.{AreRoutesShown, IsRouteShown, IsRouted, IsRoutingShown, leads_to};
ghost use Rattle.uuspool.specs.Served.{IsServed};

use crate::fault::Fault;
use crate::print::print;
use sqlite::Alter;
use std::alloc::{AllocError, Global};
use std::io::Write;
use uu_core::SystemRow;
use uu_map::{Entry, MapFault, read_entry};
use uu_names::{Listed, SiteName};
use uu_report::{links_report, routes_report};
use uu_routes::{RouteFault, SiteRoute, meant_host, site_routes};
use uu_settings::Settings;
use uu_store::laws::runs_are_one_run;
use uu_store::{Spool, StoreFault, StoreKind};

/// Prints the report of the links of the host that a name means. A spool keeps only entries that can be
/// read.
pub(crate) fn neighbours<S: Alter, W: Write>(
    alloc: Global,
    name: &SiteName,
    settings: &Settings,
    spool: &mut Spool<S>,
    out: &mut W,
) -> Result<u8, Fault>
    ensures { IsServed settings.now (request.Question (question.Entry name.now)) spool.old spool.new (λ output. Appends (W.contents out.old) (W.contents out.new) output) result }
{
    let texts = spool.entries(alloc)?;
    match links_text(alloc, &texts, name) {
        Ok((text, status)) => print(Ok(text), status, out),
        Err(fault) => match fault {
            MapFault::Memory => Err(Fault::Memory),
            _ => Err(Fault::Store(StoreFault::Store(StoreKind::Database))),
        },
    }
}

// What is printed of the links, and the status.
fn links_text(
    alloc: Global,
    texts: &[Listed<u8>],
    name: &SiteName,
) -> Result<(Vec<u8>, u8), MapFault>
    ensures text { IfOk result (λ text. (entries : List AnyEntry) × AllZip IsEntry texts.now entries × IsEntryShown (entry_for entries name.now) text.0.items text.1) }
    ensures fault { IfErr result (λ fault. fault ≢ Memory → (text : List ℕ) × Contains texts.now text × (host_of text ≡ Err fault)) }
{
    let entries = read_entries(alloc, texts)?;
    let host = meant_host(alloc, &entries, name)?;
    entry_shown(alloc, entry_of(&entries, &host))
}

// The entry of a host.
fn entry_of<'a>(entries: &'a [Entry], host: &SiteName) -> Option<&'a Entry>
    ensures { option_copied result ≡ find (is_of host.now) entries.now }
{
    for entry in entries {
        if entry.host == *host {
            return Some(entry);
        }
    }
    None
}

// What is printed of an entry, if there is one, and the status.
fn entry_shown(alloc: Global, entry: Option<&Entry>) -> Result<(Vec<u8>, u8), MapFault>
    ensures { MatchResult result (λ text. IsEntryShown (option_copied entry.entry) text.0.items text.1) (λ fault. fault ≡ Memory) }
{
    match entry {
        None => {
            let text = Vec::from_slice(alloc, b"no entry\n")?;
            Ok((text, 1))
        }
        Some(entry) => {
            let text = links_report(alloc, entry)?;
            Ok((text, 0))
        }
    }
}

/// Prints the routes by the map, or the one to a host. A spool keeps only entries that can be read.
pub(crate) fn routes<S: Alter, W: Write>(
    alloc: Global,
    name: Option<&SiteName>,
    costs: bool,
    settings: &Settings,
    spool: &mut Spool<S>,
    out: &mut W,
) -> Result<u8, Fault>
    ensures { IsServed settings.now (request.Question (question.Routes (option_copied name.entry) costs)) spool.old spool.new (λ output. Appends (W.contents out.old) (W.contents out.new) output) result }
{
    let (systems, texts) = systems_and_entries(alloc, spool)?;
    match routes_text(alloc, &systems, &texts, settings, name, costs) {
        Ok((text, status)) => print(Ok(text), status, out),
        Err(fault) => match fault {
            MapFault::Memory => Err(Fault::Memory),
            _ => Err(Fault::Store(StoreFault::Store(StoreKind::Database))),
        },
    }
}

/// The systems and the texts of the map entries, both of one state.
pub(crate) fn systems_and_entries<S: Alter>(
    alloc: Global,
    spool: &mut Spool<S>,
) -> Result<(Vec<SystemRow>, Vec<Listed<u8>>), StoreFault>
    ensures marked { MatchResult result (λ _. (has_failed spool.old ≡ false) × (has_failed spool.new ≡ false)) (IsFaultBetween (has_failed spool.old) (has_failed spool.new)) }
    ensures answer { HasCleanDisk (disk spool.new) → (s : _) → Shows spool.old s
        → IfOk result (λ answer. (answer.0.items ≡ s.systems) × (answer.1.items ≡ map (λ entry. entry.bytes) s.entries) × Shows spool.new s) }
    ensures ran { Ran 1 [] spool.old spool.new [] (fault_in result) }
    ensures failed { IsTrue (has_failed spool.old) → spool.new ≡ spool.old }
    ensures asked { IsAsked (λ s. ⊤) (λ s answer. (answer.0.items ≡ s.systems) × (answer.1.items ≡ map (λ entry. entry.bytes) s.entries)) spool.old spool.new result }
{
    runs_are_one_run::<S>();
    let systems = spool.systems(alloc)?;
    let texts = spool.entries(alloc)?;
    Ok((systems, texts))
}

// What is printed, and the status.
fn routes_text(
    alloc: Global,
    systems: &[SystemRow],
    texts: &[Listed<u8>],
    settings: &Settings,
    name: Option<&SiteName>,
    costs: bool,
) -> Result<(Vec<u8>, u8), MapFault>
    ensures text { IfOk result (λ text. (entries : List AnyEntry) × AllZip IsEntry texts.now entries
        × IsRouted entries settings.now.name (map (λ row. row.def.name) systems.now) (option_copied name.entry) costs text.0.items text.1) }
    ensures fault { IfErr result (λ fault. fault ≢ Memory → (text : List ℕ) × Contains texts.now text × (host_of text ≡ Err fault)) }
{
    let entries = read_entries(alloc, texts)?;
    let names = names_of(alloc, systems)?;
    match site_routes(alloc, &entries, &settings.name, &names) {
        Ok(routes) => shown(alloc, &entries, routes.into_vec(), name, costs),
        Err(fault) => refused(alloc, fault),
    }
}

/// The entries of these texts.
pub(crate) fn read_entries(alloc: Global, texts: &[Listed<u8>]) -> Result<Vec<Entry>, MapFault>
    ensures entries { IfOk result (λ entries. AllZip IsEntry texts.now entries.items) }
    ensures fault { IfErr result (λ fault. fault ≢ Memory → (text : List ℕ) × Contains texts.now text × (host_of text ≡ Err fault)) }
{
    let mut entries = Vec::new(alloc);
    for text in texts {
        let entry = read_entry(alloc, text.as_slice())?;
        entries.push(entry)?;
    }
    Ok(entries)
}

/// The names of these systems.
pub(crate) fn names_of(alloc: Global, systems: &[SystemRow]) -> Result<Vec<SiteName>, AllocError>
    ensures { IfOk result (λ names. names.items ≡ map (λ row. row.def.name) systems.now) }
{
    let mut names = Vec::new(alloc);
    for system in systems {
        names.push(system.def.name.clone()?)?;
    }
    Ok(names)
}

// What is printed of these routes, and the status.
fn shown(
    alloc: Global,
    entries: &[Entry],
    routes: Vec<SiteRoute>,
    name: Option<&SiteName>,
    costs: bool,
) -> Result<(Vec<u8>, u8), MapFault>
    ensures { MatchResult result (λ text. AreRoutesShown entries.now (option_copied name.entry) costs routes.items text.0.items text.1) (λ fault. fault ≡ Memory) }
{
    match name {
        None => {
            let text = routes_report(alloc, &routes, costs)?;
            Ok((text, 0))
        }
        Some(name) => {
            let host = meant_host(alloc, entries, name)?;
            let found = routes_to(routes, &host);
            one_shown(alloc, &found, costs)
        }
    }
}

/// The routes to a host. There is at most one.
pub(crate) fn routes_to(mut routes: Vec<SiteRoute>, host: &SiteName) -> Vec<SiteRoute>
    ensures { result.items ≡ filter (leads_to host.now) routes.items }
{
    routes.retain(|route| route.host == *host);
    routes
}

// What is printed of the route to a host, and the status.
fn one_shown(alloc: Global, routes: &[SiteRoute], costs: bool) -> Result<(Vec<u8>, u8), MapFault>
    ensures { MatchResult result (λ text. IsRouteShown costs routes.now text.0.items text.1) (λ fault. fault ≡ Memory) }
{
    match routes {
        [] => {
            let text = Vec::from_slice(alloc, b"no route\n")?;
            Ok((text, 1))
        }
        [_, ..] => {
            let text = routes_report(alloc, routes, costs)?;
            Ok((text, 0))
        }
    }
}

// What is printed if there are no routes, and the status.
fn refused(alloc: Global, fault: RouteFault) -> Result<(Vec<u8>, u8), MapFault>
    ensures { MatchResult result (λ text. (entries : List AnyEntry) (name : Option (List ℕ)) (costs : Bool) → IsRoutingShown entries name costs (Err fault) text.0.items text.1) (λ fault. fault ≡ Memory) }
{
    match fault {
        RouteFault::TooCostly => {
            let text = Vec::from_slice(alloc, b"too costly\n")?;
            Ok((text, 1))
        }
        RouteFault::Memory => Err(MapFault::Memory),
    }
}
