// Names and their numbers.
ghost use Rattle.std.specs.Prelude.{◌≡◌, ◌↔◌, ◌++◌, ℕ, List, IfOk, Contains, IsPermutation, IsSorted, map, flat_map};
ghost use Rattle.std.specs.List.Sorted.{IsStrictlySortedBy};
ghost use Rattle.uu_routes.specs.Links.{name_cmp};
ghost use Rattle.uu_routes.specs.Internal.Numbers.{number_of, hop_to, link_from, link_to, network_sites};

use crate::link::{FirstHop, SiteLink, SiteNetwork};
use std::alloc::{AllocError, Global};
use uu_names::SiteName;

/// The number of a name, or how many names there are, if it isn't one of them.
pub(crate) fn number_of(names: &[SiteName], name: &SiteName) -> usize
    requires { IsStrictlySortedBy name_cmp names.now }
    ensures { result ≡ number_of names.now name.now }
{
    match names.binary_search(name) {
        Ok(place) => place,
        Err(_) => names.len(),
    }
}

// The names of the first hops and of the sites that have links, with few repeats: the links of a site
// follow each other.
fn starts(
    alloc: Global,
    first: &[FirstHop],
    links: &[SiteLink],
) -> Result<Vec<SiteName>, AllocError>
    ensures { IfOk result (λ names. (name : List ℕ) → Contains names.items name ↔ Contains (map hop_to first.now ++ map link_from links.now) name) }
{
    let mut names = Vec::new(alloc);
    for hop in first {
        names.push(hop.to.clone()?)?;
    }
    for link in links {
        names.push(link.from.clone()?)?;
    }
    names.dedup();
    Ok(names)
}

fn add_ends(names: &mut Vec<SiteName>, links: &[SiteLink]) -> Result<(), AllocError>
    ensures { IfOk result (λ _. names.new.items ≡ names.old.items ++ map link_to links.now) }
{
    for link in links {
        names.push(link.to.clone()?)?;
    }
    Ok(())
}

/// Adds names at the end.
pub(crate) fn append(names: &mut Vec<SiteName>, sites: &[SiteName]) -> Result<(), AllocError>
    ensures { IfOk result (λ _. names.new.items ≡ names.old.items ++ sites.now) }
{
    for site in sites {
        names.push(site.clone()?)?;
    }
    Ok(())
}

fn add_networks(names: &mut Vec<SiteName>, networks: &[SiteNetwork]) -> Result<(), AllocError>
    ensures { IfOk result (λ _. names.new.items ≡ names.old.items ++ flat_map network_sites networks.now) }
{
    for network in networks {
        append(names, network.sites.as_slice())?;
    }
    Ok(())
}

// Each name that is mentioned, with repeats.
fn mentioned(
    alloc: Global,
    first: &[FirstHop],
    links: &[SiteLink],
    networks: &[SiteNetwork],
) -> Result<Vec<SiteName>, AllocError>
    ensures { IfOk result (λ names. (name : List ℕ) → Contains names.items name ↔ Contains (((map hop_to first.now ++ map link_from links.now) ++ map link_to links.now) ++ flat_map network_sites networks.now) name) }
{
    let mut names = starts(alloc, first, links)?;
    add_ends(&mut names, links)?;
    add_networks(&mut names, networks)?;
    Ok(names)
}

fn sorted(mut names: Vec<SiteName>) -> Result<Vec<SiteName>, AllocError>
    ensures same { IfOk result (λ v. IsPermutation names.items v.items) }
    ensures sorted { IfOk result (λ v. IsSorted name_cmp v.items) }
{
    names.sort()?;
    Ok(names)
}

/// The names that are mentioned, each once, in order.
pub(crate) fn names_of(
    alloc: Global,
    first: &[FirstHop],
    links: &[SiteLink],
    networks: &[SiteNetwork],
) -> Result<Vec<SiteName>, AllocError>
    ensures same { IfOk result (λ v. (name : List ℕ) → Contains v.items name ↔ Contains (((map hop_to first.now ++ map link_from links.now) ++ map link_to links.now) ++ flat_map network_sites networks.now) name) }
    ensures order { IfOk result (λ v. IsStrictlySortedBy name_cmp v.items) }
{
    let mut names = sorted(mentioned(alloc, first, links, networks)?)?;
    names.dedup();
    Ok(names)
}
