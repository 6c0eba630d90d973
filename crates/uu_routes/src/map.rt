// What the entries of a map say about ways.
ghost use Rattle.std.specs.Prelude.{◌≡◌, ◌++◌, IfOk};
ghost use Rattle.std.specs.Option.{option_to_list};
ghost use Rattle.std.specs.Ordering.{nat_cmp};
ghost use Rattle.std.specs.Cmp.Lexicographic.{slice_cmp};
ghost use Rattle.std.specs.BTreeMap.{get};
ghost use Rattle.uu_routes.specs.Map.{link_if, links_in, map_links};
ghost use Rattle.uu_routes.specs.Internal.Claims.{AreClaims};

use crate::claims::{Claim, host_for};
use crate::link::SiteLink;
use std::alloc::{AllocError, Global};
use std::collections::BTreeMap;
use uu_map::{Cost, Entry, Link};
use uu_names::SiteName;

fn link_if(
    entries: &[Entry],
    table: &BTreeMap<SiteName, Claim>,
    from: &SiteName,
    link: &Link,
) -> Result<Option<SiteLink>, AllocError>
    requires { AreClaims entries.now (get (slice_cmp nat_cmp) table.now) }
    ensures { IfOk result (λ found. found ≡ link_if entries.now from.now link.now) }
{
    match link.cost {
        Cost::Dead => Ok(None),
        Cost::Value(cost) => {
            let to = host_for(entries, table, &link.to).clone()?;
            let from = from.clone()?;
            Ok(Some(SiteLink { from, to, cost }))
        }
    }
}

fn push_if(found: &mut Vec<SiteLink>, link: Option<SiteLink>) -> Result<(), AllocError>
    ensures { IfOk result (λ _. found.new.items ≡ found.old.items ++ option_to_list link) }
{
    if let Some(link) = link {
        found.push(link)?;
    }
    Ok(())
}

fn add_links(
    entries: &[Entry],
    table: &BTreeMap<SiteName, Claim>,
    entry: &Entry,
    found: &mut Vec<SiteLink>,
) -> Result<(), AllocError>
    requires { AreClaims entries.now (get (slice_cmp nat_cmp) table.now) }
    ensures { IfOk result (λ _. found.new.items ≡ found.old.items ++ links_in entries.now entry.now) }
{
    for link in entry.links.as_slice() {
        let link = link_if(entries, table, &entry.host, link)?;
        push_if(found, link)?;
    }
    Ok(())
}

/// The links of all entries but the site's own.
pub(crate) fn map_links(
    alloc: Global,
    entries: &[Entry],
    table: &BTreeMap<SiteName, Claim>,
    own: &SiteName,
) -> Result<Vec<SiteLink>, AllocError>
    requires { AreClaims entries.now (get (slice_cmp nat_cmp) table.now) }
    ensures { IfOk result (λ links. links.items ≡ map_links entries.now own.now) }
{
    let mut found = Vec::new(alloc);
    for entry in entries {
        if entry.host != *own {
            add_links(entries, table, entry, &mut found)?;
        }
    }
    Ok(found)
}
