// What the networks of a map say about ways.
ghost use Rattle.std.specs.Prelude.{◌≡◌, ◌++◌, [], ◌∷◌, Some, min, not, IfOk, filter, map};
ghost use Rattle.std.specs.List.{reduce};
ghost use Rattle.std.specs.Option.{option_to_list};
ghost use Rattle.std.specs.Ordering.{nat_cmp};
ghost use Rattle.std.specs.Cmp.Lexicographic.{slice_cmp};
ghost use Rattle.std.specs.BTreeMap.{get};
ghost use Rattle.std.specs.Str.{bytes_eq};
ghost use Rattle.uu_routes.specs.Map.{all_networks, host_for, is_in, network_if, networks_in, shared_cost, without};
ghost use Rattle.uu_routes.specs.Internal.Claims.{AreClaims};

use crate::claims::{Claim, host_for};
use crate::first::price;
use crate::link::SiteNetwork;
use std::alloc::{AllocError, Global};
use std::collections::BTreeMap;
use uu_map::{Entry, Network};
use uu_names::{Listed, SiteName};

fn hosts_for(
    alloc: Global,
    entries: &[Entry],
    table: &BTreeMap<SiteName, Claim>,
    names: &[SiteName],
) -> Result<Vec<SiteName>, AllocError>
    requires { AreClaims entries.now (get (slice_cmp nat_cmp) table.now) }
    ensures { IfOk result (λ hosts. hosts.items ≡ map (host_for entries.now) names.now) }
{
    let mut hosts = Vec::new(alloc);
    for name in names {
        hosts.push(host_for(entries, table, name).clone()?)?;
    }
    Ok(hosts)
}

fn network_if(
    alloc: Global,
    entries: &[Entry],
    table: &BTreeMap<SiteName, Claim>,
    network: &Network,
) -> Result<Option<SiteNetwork>, AllocError>
    requires { AreClaims entries.now (get (slice_cmp nat_cmp) table.now) }
    ensures { IfOk result (λ found. found ≡ network_if entries.now network.now) }
{
    match price(network.cost) {
        None => Ok(None),
        Some(cost) => {
            let hosts = hosts_for(alloc, entries, table, network.sites.as_slice())?;
            Ok(Some(SiteNetwork {
                sites: Listed::from_vec(hosts),
                cost,
            }))
        }
    }
}

fn push_if(found: &mut Vec<SiteNetwork>, network: Option<SiteNetwork>) -> Result<(), AllocError>
    ensures { IfOk result (λ _. found.new.items ≡ found.old.items ++ option_to_list network) }
{
    if let Some(network) = network {
        found.push(network)?;
    }
    Ok(())
}

fn add_networks(
    alloc: Global,
    entries: &[Entry],
    table: &BTreeMap<SiteName, Claim>,
    entry: &Entry,
    found: &mut Vec<SiteNetwork>,
) -> Result<(), AllocError>
    requires { AreClaims entries.now (get (slice_cmp nat_cmp) table.now) }
    ensures { IfOk result (λ _. found.new.items ≡ found.old.items ++ networks_in entries.now entry.now) }
{
    for network in entry.networks.as_slice() {
        let network = network_if(alloc, entries, table, network)?;
        push_if(found, network)?;
    }
    Ok(())
}

/// The networks of all entries, but no dead ones.
pub(crate) fn all_networks(
    alloc: Global,
    entries: &[Entry],
    table: &BTreeMap<SiteName, Claim>,
) -> Result<Vec<SiteNetwork>, AllocError>
    requires { AreClaims entries.now (get (slice_cmp nat_cmp) table.now) }
    ensures { IfOk result (λ networks. networks.items ≡ all_networks entries.now) }
{
    let mut found = Vec::new(alloc);
    for entry in entries {
        add_networks(alloc, entries, table, entry, &mut found)?;
    }
    Ok(found)
}

fn others(alloc: Global, sites: &[SiteName], own: &SiteName) -> Result<Vec<SiteName>, AllocError>
    ensures { IfOk result (λ v. v.items ≡ filter (λ site. not (bytes_eq site own.now)) sites.now) }
{
    let mut found = Vec::new(alloc);
    for site in sites {
        if *site != *own {
            found.push(site.clone()?)?;
        }
    }
    Ok(found)
}

/// These networks without the site itself.
pub(crate) fn map_networks(
    alloc: Global,
    networks: &[SiteNetwork],
    own: &SiteName,
) -> Result<Vec<SiteNetwork>, AllocError>
    ensures { IfOk result (λ v. v.items ≡ map (without own.now) networks.now) }
{
    let mut found = Vec::new(alloc);
    for network in networks {
        let sites = others(alloc, network.sites.as_slice(), own)?;
        found.push(SiteNetwork {
            sites: Listed::from_vec(sites),
            cost: network.cost,
        })?;
    }
    Ok(found)
}

fn is_in(network: &SiteNetwork, host: &SiteName) -> bool
    ensures { result ≡ is_in network.now host.now }
{
    network.sites.as_slice().iter().any(|site| *site == *host)
}

fn lesser(cost: u64, known: Option<u64>) -> u64
    ensures { Some result ≡ reduce min (option_to_list known ++ cost ∷ []) }
{
    match known {
        None => cost,
        Some(known) => known.min(cost),
    }
}

/// The least cost of the networks that have both hosts.
pub(crate) fn shared_cost(networks: &[SiteNetwork], own: &SiteName, host: &SiteName) -> Option<u64>
    ensures { result ≡ shared_cost networks.now own.now host.now }
{
    let mut least = None;
    for network in networks {
        if is_in(network, own) && is_in(network, host) {
            least = Some(lesser(network.cost, least));
        }
    }
    least
}
