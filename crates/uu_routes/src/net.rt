// Hosts by their numbers, and the links between them.
ghost use Rattle.std.specs.Prelude.{◌≡◌, ◌++◌, ◌∷◌, [], IfOk, map, replicate, length, slice_set, get_or};
ghost use Rattle.std.specs.List.Sorted.{IsStrictlySortedBy};
ghost use Rattle.uu_routes.specs.Links.{name_cmp};
ghost use Rattle.uu_routes.specs.Internal.Tables.{hop_edge, linked, added, network_edges};

use crate::link::{FirstHop, SiteLink, SiteNetwork};
use crate::names::number_of;
use std::alloc::{AllocError, Global};
use std::marker::Model;
use uu_names::{Listed, SiteName};

/// A link to a host.
#[derive(Clone, Copy, Debug)]
pub(crate) struct Edge {
    /// The host's number.
    pub(crate) to: usize,
    /// What the link costs.
    pub(crate) cost: u64,
}

/// The links of one host, seen as their list.
#[derive(Drop)]
pub(crate) struct Outgoing {
    edges: Vec<Edge>,
}

impl Model for Outgoing {
    ghost use Rattle.std.specs.Prelude.{List};
    ghost use Rattle.uu_routes.specs.declared.net.Edge.{Edge};

    ghost Value = { List Edge };

    ghost view = { λ out. out.edges.items };
}

impl Outgoing {
    pub(crate) fn new(alloc: Global) -> Outgoing
        ensures { result ≡ [] }
    {
        Outgoing {
            edges: Vec::new(alloc),
        }
    }

    pub(crate) fn push(&mut self, edge: Edge) -> Result<(), AllocError>
        ensures { IfOk result (λ _. self.new ≡ self.old ++ edge ∷ []) }
    {
        self.edges.push(edge)?;
        Ok(())
    }

    pub(crate) fn as_slice(&self) -> &[Edge]
        ensures { result.now ≡ self.now }
    {
        self.edges.as_slice()
    }
}

/// The links of a site and of each host.
#[derive(Drop)]
pub(crate) struct Net {
    /// The links of the site itself.
    pub(crate) first: Listed<Edge>,
    /// The links of each host, by its number.
    pub(crate) links: Listed<Outgoing>,
    /// The links that each host of a network has, also to itself.
    pub(crate) networks: Listed<Outgoing>,
}

/// The first hops by number.
pub(crate) fn first_edges(
    alloc: Global,
    names: &[SiteName],
    first: &[FirstHop],
) -> Result<Vec<Edge>, AllocError>
    requires { IsStrictlySortedBy name_cmp names.now }
    ensures { IfOk result (λ v. v.items ≡ map (hop_edge names.now) first.now) }
{
    let mut edges = Vec::new(alloc);
    for hop in first {
        edges.push(Edge {
            to: number_of(names, &hop.to),
            cost: hop.cost,
        })?;
    }
    Ok(edges)
}

fn empty(alloc: Global, hosts: usize) -> Result<Vec<Outgoing>, AllocError>
    ensures { IfOk result (λ v. v.items ≡ replicate hosts []) }
{
    let mut table = Vec::new(alloc);
    for _ in 0..hosts {
        table.push(Outgoing::new(alloc))?;
    }
    Ok(table)
}

fn add(table: &mut Vec<Outgoing>, from: usize, edge: Edge) -> Result<(), AllocError>
    ensures { IfOk result (λ _. table.new.items ≡ added table.old.items from edge) }
{
    if from < table.len() {
        table[from].push(edge)?;
    }
    Ok(())
}

/// The links of each host by number.
pub(crate) fn out_edges(
    alloc: Global,
    names: &[SiteName],
    links: &[SiteLink],
) -> Result<Vec<Outgoing>, AllocError>
    requires { IsStrictlySortedBy name_cmp names.now }
    ensures { IfOk result (λ v. v.items ≡ linked names.now links.now (replicate (length names.now) [])) }
{
    let mut table = empty(alloc, names.len())?;
    for link in links {
        let from = number_of(names, &link.from);
        let edge = Edge {
            to: number_of(names, &link.to),
            cost: link.cost,
        };
        add(&mut table, from, edge)?;
    }
    Ok(table)
}

fn edges_of(
    alloc: Global,
    names: &[SiteName],
    network: &SiteNetwork,
) -> Result<Outgoing, AllocError>
    requires { IsStrictlySortedBy name_cmp names.now }
    ensures { IfOk result (λ edges. edges ≡ network_edges names.now network.now) }
{
    let mut edges = Outgoing::new(alloc);
    for site in network.sites.as_slice() {
        edges.push(Edge {
            to: number_of(names, site),
            cost: network.cost,
        })?;
    }
    Ok(edges)
}

/// The links of each network by number.
pub(crate) fn network_edges(
    alloc: Global,
    names: &[SiteName],
    networks: &[SiteNetwork],
) -> Result<Vec<Outgoing>, AllocError>
    requires { IsStrictlySortedBy name_cmp names.now }
    ensures { IfOk result (λ v. v.items ≡ map (network_edges names.now) networks.now) }
{
    let mut table = Vec::new(alloc);
    for network in networks {
        table.push(edges_of(alloc, names, network)?)?;
    }
    Ok(table)
}
