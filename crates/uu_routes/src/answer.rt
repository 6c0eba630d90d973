// Routes to all sites.
ghost use Rattle.std.specs.Prelude.{◌≡◌, ◌↔◌, ◌≤◌, IsTrue, IfOk, All, Contains, ℕ, List};
ghost use Rattle.std.specs.List.Sorted.{IsStrictlySortedBy};
ghost use Rattle.uu_routes.specs.Links.{name_cmp};
ghost use Rattle.uu_routes.specs.Routes.{mentioned, most_cost, AreCheap, AreRoutes, IsAnswer};
ghost use Rattle.uu_routes.specs.Internal.Tables.{net_of};

use crate::destinations::destinations;
use crate::fault::RouteFault;
use crate::link::{Destination, FirstHop, SiteLink, SiteNetwork};
use crate::names::names_of;
use crate::net::{Net, first_edges, network_edges, out_edges};
use crate::search::least_ways;
use std::alloc::{AllocError, Global};
use uu_names::{Listed, SiteName};

/// The most that a link may cost.
pub const MAX_COST: u64 = 1_000_000_000_000;

fn are_hops_cheap(first: &[FirstHop]) -> bool
    ensures { IsTrue result ↔ All (λ h. h.cost ≤ most_cost) first.now }
{
    first.iter().all(|hop| hop.cost <= MAX_COST)
}

fn are_links_cheap(links: &[SiteLink]) -> bool
    ensures { IsTrue result ↔ All (λ l. l.cost ≤ most_cost) links.now }
{
    links.iter().all(|link| link.cost <= MAX_COST)
}

fn are_networks_cheap(networks: &[SiteNetwork]) -> bool
    ensures { IsTrue result ↔ All (λ n. n.cost ≤ most_cost) networks.now }
{
    networks.iter().all(|network| network.cost <= MAX_COST)
}

fn net_of(
    alloc: Global,
    names: &[SiteName],
    first: &[FirstHop],
    links: &[SiteLink],
    networks: &[SiteNetwork],
) -> Result<Net, AllocError>
    requires { IsStrictlySortedBy name_cmp names.now }
    ensures { IfOk result (λ net. net ≡ net_of names.now first.now links.now networks.now) }
{
    let edges = first_edges(alloc, names, first)?;
    let table = out_edges(alloc, names, links)?;
    let joined = network_edges(alloc, names, networks)?;
    Ok(Net {
        first: Listed::from_vec(edges),
        links: Listed::from_vec(table),
        networks: Listed::from_vec(joined),
    })
}

// The routes to all names.
fn all_routes(
    alloc: Global,
    names: &[SiteName],
    first: &[FirstHop],
    links: &[SiteLink],
    networks: &[SiteNetwork],
) -> Result<Vec<Destination>, AllocError>
    requires order { IsStrictlySortedBy name_cmp names.now }
    requires same { (name : List ℕ) → Contains names.now name ↔ Contains (mentioned first.now links.now networks.now) name }
    requires cheap { AreCheap first.now links.now networks.now }
    ensures { IfOk result (λ v. AreRoutes first.now links.now networks.now v.items) }
{
    let net = net_of(alloc, names, first, links, networks)?;
    let labels = least_ways(alloc, &net)?;
    destinations(alloc, names, &labels)
}

/// The least route to each site that a first hop, a link or a network names, in order of their names.
/// A route has at most [`MAX_HOPS`](crate::MAX_HOPS) sites. Any cost above [`MAX_COST`] is
/// [`RouteFault::TooCostly`].
pub(crate) fn routes(
    alloc: Global,
    first: &[FirstHop],
    links: &[SiteLink],
    networks: &[SiteNetwork],
) -> Result<Listed<Destination>, RouteFault>
    ensures { IsAnswer first.now links.now networks.now result }
{
    if !(are_hops_cheap(first) && are_links_cheap(links) && are_networks_cheap(networks)) {
        return Err(RouteFault::TooCostly);
    }
    let names = names_of(alloc, first, links, networks)?;
    let list = all_routes(alloc, &names, first, links, networks)?;
    Ok(Listed::from_vec(list))
}
