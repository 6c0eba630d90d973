// The cheapest way so far to each host.
ghost use Rattle.std.specs.Prelude.{◌≡◌, ◌+◌, ◌<◌, ◌^◌, ◌++◌, ◌∷◌, [], IfOk, OnOk, length, All};
ghost use Rattle.std.specs.Ordering.{nat_cmp, is_lt};
ghost use Rattle.std.specs.Cmp.Lexicographic.{slice_cmp};
ghost use Rattle.uu_routes.specs.Internal.Labels.{start, onward, is_below, better, improved, relaxed};

use crate::net::Edge;
use std::alloc::{AllocError, Global};
use std::cmp::Ordering;
use uu_names::Listed;

/// A way and its cost.
#[derive(Drop)]
pub(crate) struct Label {
    /// The sum of the costs of its links.
    pub(crate) cost: u64,
    /// The numbers of its hosts, the first hop first.
    pub(crate) path: Listed<usize>,
}

/// The way that has no host.
pub(crate) fn start(alloc: Global) -> Label
    ensures { result ≡ start }
{
    Label {
        cost: 0,
        path: Listed::from_vec(Vec::new(alloc)),
    }
}

// A way, and then a link.
fn onward(alloc: Global, base: &Label, edge: &Edge) -> Result<Label, AllocError>
    requires { base.now.cost + edge.now.cost < 2 ^ 64 }
    ensures { IfOk result (λ way. way ≡ onward base.now edge.now) }
{
    let mut path = Vec::new(alloc);
    path.extend_from_slice(base.path.as_slice())?;
    path.push(edge.to)?;
    Ok(Label {
        cost: base.cost + edge.cost,
        path: Listed::from_vec(path),
    })
}

// Whether a path, and then a host, comes before another path of as many hosts.
fn is_path_below(path: &[usize], to: usize, other: &[usize]) -> bool
    requires { length path.now + 1 ≡ length other.now }
    ensures { result ≡ is_lt (slice_cmp nat_cmp (path.now ++ to ∷ []) other.now) }
{
    let (front, last) = other.split_at(path.len());
    path.cmp(front).then(to.cmp(&last[0])).is_lt()
}

/// Whether a way comes before another.
#[tactic(auto, unfolding(crate::specs::Internal::Labels::is_below))]
pub(crate) fn precedes(way: &Label, other: &Label) -> bool
    ensures { result ≡ is_below way.now other.now }
{
    let path = way.path.as_slice();
    let other_path = other.path.as_slice();
    way.cost
        .cmp(&other.cost)
        .then(path.len().cmp(&other_path.len()))
        .then(path.cmp(other_path))
        .is_lt()
}

// Whether a way, and then a link, comes before another way.
fn is_below(base: &Label, edge: &Edge, other: &Label) -> bool
    requires { base.now.cost + edge.now.cost < 2 ^ 64 }
    ensures { result ≡ is_below (onward base.now edge.now) other.now }
{
    let path = base.path.as_slice();
    let other_path = other.path.as_slice();
    let cost = base.cost + edge.cost;
    let order = cost
        .cmp(&other.cost)
        .then((path.len() + 1).cmp(&other_path.len()));
    match order {
        Ordering::Less => true,
        Ordering::Equal => is_path_below(path, edge.to, other_path),
        Ordering::Greater => false,
    }
}

// Whether a way, and then a link, comes before what is known.
fn is_better(base: &Label, edge: &Edge, known: &Option<Label>) -> bool
    requires { base.now.cost + edge.now.cost < 2 ^ 64 }
    ensures { result ≡ better (onward base.now edge.now) known.now }
{
    match known {
        None => true,
        Some(label) => is_below(base, edge, label),
    }
}

// Notes a way, and then a link, if it comes before what is known.
fn improve(
    alloc: Global,
    known: &mut Option<Label>,
    base: &Label,
    edge: &Edge,
) -> Result<(), AllocError>
    requires { base.now.cost + edge.now.cost < 2 ^ 64 }
    ensures { OnOk result (known.new ≡ improved (onward base.now edge.now) known.old) }
{
    if is_better(base, edge, known) {
        *known = Some(onward(alloc, base, edge)?);
    }
    Ok(())
}

/// Notes the ways that go on from one way.
pub(crate) fn relax(
    alloc: Global,
    labels: &mut Vec<Option<Label>>,
    base: &Label,
    edges: &[Edge],
) -> Result<(), AllocError>
    requires within { All (λ e. e.to < length labels.old.items) edges.now }
    requires sums { All (λ e. base.now.cost + e.cost < 2 ^ 64) edges.now }
    ensures { OnOk result (labels.new.items ≡ relaxed base.now edges.now labels.old.items) }
{
    for edge in edges {
        improve(alloc, &mut labels[edge.to], base, edge)?;
    }
    Ok(())
}
