// The least cost of each name.
ghost use Rattle.std.specs.Prelude.{◌≡◌, ◌↔◌, None, IfOk, Contains, IsPermutation, IsSorted, map, option_copied};
ghost use Rattle.std.specs.List.Sorted.{IsStrictlySortedBy};
ghost use Rattle.uu_map.specs.Listing.{IsListing};
ghost use Rattle.uu_map.specs.Internal.Ranking.{by_name_cmp, as_link, ranked_cmp, has_name_of, firsts_after};
ghost use Rattle.uu_map.specs.declared.least.Ranked.{Ranked};

use crate::entry::{Cost, Link};
use std::alloc::{AllocError, Global};
use uu_names::SiteName;

/// A link, ordered by its cost and then by its name.
#[derive(PartialEq, Eq, PartialOrd, Ord, Drop)]
pub(crate) struct Ranked {
    cost: Cost,
    to: SiteName,
}

fn has_name_of(before: Option<&Link>, link: &Link) -> bool
    ensures { result ≡ has_name_of (option_copied before.entry) link.now }
{
    match before {
        None => false,
        Some(before) => link.to == before.to,
    }
}

fn sorted_by_name(mut links: Vec<Link>) -> Result<Vec<Link>, AllocError>
    ensures same { IfOk result (λ v. IsPermutation links.items v.items) }
    ensures sorted { IfOk result (λ v. IsSorted by_name_cmp v.items) }
{
    links.sort()?;
    Ok(links)
}

// The links whose name isn't that of the link before them.
fn firsts(alloc: Global, links: &[Link]) -> Result<Vec<Ranked>, AllocError>
    ensures { IfOk result (λ v. map as_link v.items ≡ firsts_after None links.now) }
{
    let mut ranked = Vec::new(alloc);
    let mut before: Option<&Link> = None;
    for link in links {
        if !has_name_of(before, link) {
            ranked.push(Ranked {
                cost: link.cost,
                to: link.to.clone()?,
            })?;
        }
        before = Some(link);
    }
    Ok(ranked)
}

fn sorted_by_cost(mut ranked: Vec<Ranked>) -> Result<Vec<Ranked>, AllocError>
    ensures same { IfOk result (λ v. IsPermutation ranked.items v.items) }
    ensures sorted { IfOk result (λ v. IsSorted ranked_cmp v.items) }
{
    ranked.sort()?;
    Ok(ranked)
}

// The same links in order of cost and name, each once.
fn in_order(ranked: Vec<Ranked>) -> Result<Vec<Ranked>, AllocError>
    ensures same { IfOk result (λ v. (r : Ranked) → Contains v.items r ↔ Contains ranked.items r) }
    ensures order { IfOk result (λ v. IsStrictlySortedBy ranked_cmp v.items) }
{
    let mut ranked = sorted_by_cost(ranked)?;
    ranked.dedup();
    Ok(ranked)
}

fn as_links(alloc: Global, ranked: Vec<Ranked>) -> Result<Vec<Link>, AllocError>
    ensures { IfOk result (λ v. v.items ≡ map as_link ranked.items) }
{
    ranked
        .into_iter()
        .map(|link| Link {
            to: link.to,
            cost: link.cost,
        })
        .collect(alloc)
}

/// The links of an entry, each name with its least cost, in order of cost and then of the name's
/// bytes.
pub(crate) fn listed(alloc: Global, links: Vec<Link>) -> Result<Vec<Link>, AllocError>
    ensures { IfOk result (λ v. IsListing links.items v.items) }
{
    let links = sorted_by_name(links)?;
    let ranked = in_order(firsts(alloc, &links)?)?;
    as_links(alloc, ranked)
}
