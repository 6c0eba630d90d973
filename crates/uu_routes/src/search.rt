// All least ways, round by round. A round goes on only from the ways that the one before it found: those
// that have as many hosts as there were rounds.
ghost use Rattle.std.specs.Prelude.{◌≡◌, ◌↔◌, ◌<◌, ◌^◌, ◌+◌, None, Some, IfOk, OnOk, IsTrue, All, length, map, option_copied, replicate};
ghost use Rattle.uu_routes.specs.Links.{most_hops};
ghost use Rattle.uu_routes.specs.declared.label.Label.{Label as AnyLabel};
ghost use Rattle.uu_routes.specs.Internal.Labels.{followed, joined, least_among, lesser, rounded, way_of};
ghost use Rattle.uu_routes.specs.Internal.Nets.{IsFitNet, AreFound, AreSound, AreSoundNetworks};

use crate::label::{Label, precedes, relax, start};
use crate::net::{Edge, Net, Outgoing};
use std::alloc::{AllocError, Global};
use uu_names::Listed;

/// The most sites of a route.
pub const MAX_HOPS: usize = 127;

// What is known before any link is followed.
fn blank(alloc: Global, hosts: usize) -> Result<Vec<Option<Label>>, AllocError>
    ensures { IfOk result (λ labels. labels.items ≡ replicate hosts None) }
{
    let mut labels = Vec::new(alloc);
    for _ in 0..hosts {
        labels.push(None)?;
    }
    Ok(labels)
}

// The way that is known, if it has this many hosts.
fn way_of(alloc: Global, hops: usize, known: &Option<Label>) -> Result<Option<Label>, AllocError>
    ensures { IfOk result (λ way. way ≡ way_of hops known.now) }
{
    match known {
        None => Ok(None),
        Some(label) => {
            if label.path.as_slice().len() != hops {
                return Ok(None);
            }
            let mut path = Vec::new(alloc);
            path.extend_from_slice(label.path.as_slice())?;
            Ok(Some(Label {
                cost: label.cost,
                path: Listed::from_vec(path),
            }))
        }
    }
}

// The ways that have this many hosts.
fn ways_of(
    alloc: Global,
    hops: usize,
    known: &[Option<Label>],
) -> Result<Vec<Option<Label>>, AllocError>
    ensures { IfOk result (λ ways. ways.items ≡ map (way_of hops) known.now) }
{
    let mut ways = Vec::new(alloc);
    for label in known {
        ways.push(way_of(alloc, hops, label)?)?;
    }
    Ok(ways)
}

fn are_none(ways: &[Option<Label>]) -> bool
    ensures { IsTrue result ↔ All (λ way. way ≡ None) ways.now }
{
    ways.iter().all(|way| way.is_none())
}

// Notes the ways that go on from what is known of a host.
fn follow(
    alloc: Global,
    labels: &mut Vec<Option<Label>>,
    label: Option<&Label>,
    edges: &[Edge],
) -> Result<(), AllocError>
    requires within { All (λ e. e.to < length labels.old.items) edges.now }
    requires sums { (base : AnyLabel) → option_copied label ≡ Some base → All (λ e. base.cost + e.cost < 2 ^ 64) edges.now }
    ensures { OnOk result (labels.new.items ≡ followed (option_copied label.entry) edges.now labels.old.items) }
{
    match label {
        None => Ok(()),
        Some(base) => relax(alloc, labels, base, edges),
    }
}

// Notes the ways that go on from these, one for each host.
fn round(
    alloc: Global,
    links: &[Outgoing],
    ways: &[Option<Label>],
    labels: &mut Vec<Option<Label>>,
) -> Result<(), AllocError>
    requires sound { AreSound links.now ways.now }
    requires size { length labels.old.items ≡ length ways.now }
    ensures { OnOk result (labels.new.items ≡ rounded links.now ways.now labels.old.items) }
{
    for (at, way) in ways.iter().enumerate() {
        follow(alloc, labels, way.as_ref(), links[at].as_slice())?;
    }
    Ok(())
}

// The one that comes first, if it is known.
fn lesser<'a>(way: &'a Option<Label>, least: Option<&'a Label>) -> Option<&'a Label>
    ensures { option_copied result ≡ lesser way.now (option_copied least.entry) }
{
    let Some(way) = way else {
        return least;
    };
    match least {
        None => Some(way),
        Some(known) => {
            if precedes(way, known) {
                Some(way)
            } else {
                Some(known)
            }
        }
    }
}

// The least of these ways to the hosts of a network.
fn least_among<'a>(ways: &'a [Option<Label>], edges: &[Edge]) -> Option<&'a Label>
    requires { All (λ e. e.to < length ways.now) edges.now }
    ensures { option_copied result ≡ least_among ways.now edges.now None }
{
    let mut least = None;
    for edge in edges {
        least = lesser(&ways[edge.to], least);
    }
    least
}

// Notes the ways that go on by each network from the least of these ways to its hosts. From the others
// they are no less.
fn join(
    alloc: Global,
    networks: &[Outgoing],
    ways: &[Option<Label>],
    labels: &mut Vec<Option<Label>>,
) -> Result<(), AllocError>
    requires sound { AreSoundNetworks networks.now ways.now }
    requires size { length labels.old.items ≡ length ways.now }
    ensures { OnOk result (labels.new.items ≡ joined networks.now ways.now labels.old.items) }
{
    for network in networks {
        let edges = network.as_slice();
        follow(alloc, labels, least_among(ways, edges), edges)?;
    }
    Ok(())
}

/// The least way of at most [`MAX_HOPS`] hosts to each host of a net, if there is one.
pub(crate) fn least_ways(alloc: Global, net: &Net) -> Result<Vec<Option<Label>>, AllocError>
    requires { IsFitNet net.now }
    ensures { IfOk result (λ labels. AreFound net.now most_hops labels.items) }
{
    let links = net.links.as_slice();
    let mut labels = blank(alloc, links.len())?;
    relax(alloc, &mut labels, &start(alloc), net.first.as_slice())?;
    for hops in 1..MAX_HOPS {
        let ways = ways_of(alloc, hops, &labels)?;
        if are_none(&ways) {
            return Ok(labels);
        }
        round(alloc, links, &ways, &mut labels)?;
        join(alloc, net.networks.as_slice(), &ways, &mut labels)?;
    }
    Ok(labels)
}
