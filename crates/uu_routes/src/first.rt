// The first hops of a site.
ghost use Rattle.std.specs.Prelude.{◌≡◌, ◌++◌, IfOk};
ghost use Rattle.std.specs.Option.{option_to_list};
ghost use Rattle.std.specs.Ordering.{nat_cmp};
ghost use Rattle.std.specs.Cmp.Lexicographic.{slice_cmp};
ghost use Rattle.std.specs.BTreeMap.{get};
ghost use Rattle.uu_routes.specs.Map.{own_links, price, first_cost, first_hop, first_hops, all_networks};
ghost use Rattle.uu_routes.specs.Internal.Claims.{AreClaims};

use crate::claims::{Claim, host_for};
use crate::link::{FirstHop, SiteNetwork};
use crate::network::shared_cost;
use std::alloc::{AllocError, Global};
use std::collections::BTreeMap;
use uu_map::{Cost, Entry, Link};
use uu_names::SiteName;

/// What a first hop costs, if neither the site's own entry nor a network has a link to it.
pub const USUAL_COST: u64 = 4000;

fn own_links<'a>(entries: &'a [Entry], own: &SiteName) -> &'a [Link]
    ensures { result.now ≡ own_links entries.now own.now }
{
    for entry in entries {
        if entry.host == *own {
            return entry.links.as_slice();
        }
    }
    &[]
}

/// What a link of this cost costs, if it isn't dead.
pub(crate) fn price(cost: Cost) -> Option<u64>
    ensures { result ≡ price cost }
{
    match cost {
        Cost::Value(cost) => Some(cost),
        Cost::Dead => None,
    }
}

fn first_cost(
    entries: &[Entry],
    table: &BTreeMap<SiteName, Claim>,
    networks: &[SiteNetwork],
    own: &SiteName,
    host: &SiteName,
    links: &[Link],
) -> Option<u64>
    requires table { AreClaims entries.now (get (slice_cmp nat_cmp) table.now) }
    requires networks { networks.now ≡ all_networks entries.now }
    ensures { result ≡ first_cost entries.now own.now host.now links.now }
{
    for link in links {
        if *host_for(entries, table, &link.to) == *host {
            return price(link.cost);
        }
    }
    Some(shared_cost(networks, own, host).unwrap_or(USUAL_COST))
}

fn first_hop(
    entries: &[Entry],
    table: &BTreeMap<SiteName, Claim>,
    networks: &[SiteNetwork],
    own: &SiteName,
    links: &[Link],
    system: &SiteName,
) -> Result<Option<FirstHop>, AllocError>
    requires table { AreClaims entries.now (get (slice_cmp nat_cmp) table.now) }
    requires networks { networks.now ≡ all_networks entries.now }
    ensures { IfOk result (λ hop. hop ≡ first_hop entries.now own.now links.now system.now) }
{
    let host = host_for(entries, table, system);
    match first_cost(entries, table, networks, own, host, links) {
        None => Ok(None),
        Some(cost) => {
            let to = host.clone()?;
            Ok(Some(FirstHop { to, cost }))
        }
    }
}

fn push_if(found: &mut Vec<FirstHop>, hop: Option<FirstHop>) -> Result<(), AllocError>
    ensures { IfOk result (λ _. found.new.items ≡ found.old.items ++ option_to_list hop) }
{
    if let Some(hop) = hop {
        found.push(hop)?;
    }
    Ok(())
}

/// The first hops to the site's own systems.
pub(crate) fn first_hops(
    alloc: Global,
    entries: &[Entry],
    table: &BTreeMap<SiteName, Claim>,
    networks: &[SiteNetwork],
    own: &SiteName,
    systems: &[SiteName],
) -> Result<Vec<FirstHop>, AllocError>
    requires table { AreClaims entries.now (get (slice_cmp nat_cmp) table.now) }
    requires networks { networks.now ≡ all_networks entries.now }
    ensures { IfOk result (λ hops. hops.items ≡ first_hops entries.now own.now systems.now) }
{
    let links = own_links(entries, own);
    let mut found = Vec::new(alloc);
    for system in systems {
        let hop = first_hop(entries, table, networks, own, links, system)?;
        push_if(&mut found, hop)?;
    }
    Ok(found)
}
