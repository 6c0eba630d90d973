// The routes of a site, as they are printed.
ghost use Rattle.std.specs.Prelude.{◌≡◌, ◌++◌, IfOk, map};
ghost use Rattle.std.specs.List.{filter_map};
ghost use Rattle.std.specs.Option.{option_to_list};
ghost use Rattle.std.specs.Ordering.{nat_cmp};
ghost use Rattle.std.specs.Cmp.Lexicographic.{slice_cmp};
ghost use Rattle.std.specs.BTreeMap.{get};
ghost use Rattle.uu_routes.specs.Map.{host_for};
ghost use Rattle.uu_routes.specs.Site.{IsSiteAnswer, by_system, neighbour, route_to, site_route, system_for};
ghost use Rattle.uu_routes.specs.Internal.Claims.{AreClaims};

use crate::answer::routes;
use crate::claims::{Claim, host_for, table_of};
use crate::fault::RouteFault;
use crate::first::first_hops;
use crate::link::{Destination, Route};
use crate::map::map_links;
use crate::names::append;
use crate::network::{all_networks, map_networks};
use std::alloc::{AllocError, Global};
use std::collections::BTreeMap;
use uu_map::Entry;
use uu_names::{Listed, SiteName};

/// A route as it is printed.
#[derive(Debug, Drop)]
pub struct SiteRoute {
    /// The host to which it leads.
    pub host: SiteName,
    /// The sum of the costs of its links.
    pub cost: u64,
    /// Its sites: first a system, by the name under which it is defined, and last the host.
    pub sites: Listed<SiteName>,
}

// A system, and the host that its name means.
#[derive(Drop)]
struct Neighbour {
    system: SiteName,
    host: SiteName,
}

fn neighbours_of(
    alloc: Global,
    entries: &[Entry],
    table: &BTreeMap<SiteName, Claim>,
    systems: &[SiteName],
) -> Result<Vec<Neighbour>, AllocError>
    requires { AreClaims entries.now (get (slice_cmp nat_cmp) table.now) }
    ensures { IfOk result (λ neighbours. neighbours.items ≡ map (neighbour entries.now) systems.now) }
{
    let mut neighbours = Vec::new(alloc);
    for name in systems {
        let host = host_for(entries, table, name).clone()?;
        let system = name.clone()?;
        neighbours.push(Neighbour { system, host })?;
    }
    Ok(neighbours)
}

fn system_for<'a>(neighbours: &'a [Neighbour], host: &'a SiteName) -> &'a SiteName
    ensures { result.now ≡ system_for neighbours.now host.now }
{
    for neighbour in neighbours {
        if neighbour.host == *host {
            return &neighbour.system;
        }
    }
    host
}

fn by_system(
    alloc: Global,
    neighbours: &[Neighbour],
    sites: &[SiteName],
) -> Result<Vec<SiteName>, AllocError>
    ensures { IfOk result (λ names. names.items ≡ by_system neighbours.now sites.now) }
{
    let mut names = Vec::new(alloc);
    if let [first, rest @ ..] = sites {
        names.push(system_for(neighbours, first).clone()?)?;
        append(&mut names, rest)?;
    }
    Ok(names)
}

fn route_to(
    alloc: Global,
    neighbours: &[Neighbour],
    destination: &Destination,
) -> Result<Option<SiteRoute>, AllocError>
    ensures { IfOk result (λ found. found ≡ route_to neighbours.now destination.now.site destination.now.route) }
{
    match &destination.route {
        None => Ok(None),
        Some(route) => {
            let sites = by_system(alloc, neighbours, route.sites.as_slice())?;
            let host = destination.site.clone()?;
            Ok(Some(SiteRoute {
                host,
                cost: route.cost,
                sites: Listed::from_vec(sites),
            }))
        }
    }
}

fn site_route(
    alloc: Global,
    neighbours: &[Neighbour],
    own: &SiteName,
    destination: &Destination,
) -> Result<Option<SiteRoute>, AllocError>
    ensures { IfOk result (λ found. found ≡ site_route neighbours.now own.now destination.now) }
{
    if destination.site == *own {
        return Ok(None);
    }
    route_to(alloc, neighbours, destination)
}

fn push_if(found: &mut Vec<SiteRoute>, route: Option<SiteRoute>) -> Result<(), AllocError>
    ensures { IfOk result (λ _. found.new.items ≡ found.old.items ++ option_to_list route) }
{
    if let Some(route) = route {
        found.push(route)?;
    }
    Ok(())
}

fn printed(
    alloc: Global,
    neighbours: &[Neighbour],
    own: &SiteName,
    all: &[Destination],
) -> Result<Vec<SiteRoute>, AllocError>
    ensures { IfOk result (λ list. list.items ≡ filter_map (site_route neighbours.now own.now) all.now) }
{
    let mut list = Vec::new(alloc);
    for destination in all {
        let route = site_route(alloc, neighbours, own, destination)?;
        push_if(&mut list, route)?;
    }
    Ok(list)
}

/// The host that a name means: that of the only entry that claims it, or else the name itself.
pub fn meant_host(alloc: Global, entries: &[Entry], name: &SiteName) -> Result<SiteName, AllocError>
    ensures { IfOk result (λ host. host ≡ host_for entries.now name.now) }
{
    let table = table_of(alloc, entries)?;
    host_for(entries, &table, name).clone()
}

/// The routes of the site of this name with these systems: to each host but itself to which a way
/// leads, in order of their names.
pub fn site_routes(
    alloc: Global,
    entries: &[Entry],
    name: &SiteName,
    systems: &[SiteName],
) -> Result<Listed<SiteRoute>, RouteFault>
    ensures { IsSiteAnswer entries.now name.now systems.now result }
{
    let table = table_of(alloc, entries)?;
    let own = host_for(entries, &table, name);
    let neighbours = neighbours_of(alloc, entries, &table, systems)?;
    let networks = all_networks(alloc, entries, &table)?;
    let first = first_hops(alloc, entries, &table, &networks, own, systems)?;
    let links = map_links(alloc, entries, &table, own)?;
    let others = map_networks(alloc, &networks, own)?;
    let all = routes(alloc, &first, &links, &others)?;
    let list = printed(alloc, &neighbours, own, all.as_slice())?;
    Ok(Listed::from_vec(list))
}
