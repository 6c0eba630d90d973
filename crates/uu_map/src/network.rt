// The networks of an entry.
ghost use Rattle.std.specs.Prelude.{◌≡◌, option_map, IfOk};
ghost use Rattle.std.specs.List.{list_all};
ghost use Rattle.uu_map.specs.Network.{is_plain};
ghost use Rattle.uu_map.specs.Internal.NetworkReading.{network_name, network_of, said_after, said_behind, said_from, said_in, sites_of};

use crate::entry::Network;
use crate::statement::{aliases_of, cost_behind, name_len, site_name, skip_blanks, skip_mark};
use std::alloc::{AllocError, Global};
use uu_names::text::len_before;
use uu_names::{Listed, SiteName};

// Whether a name isn't that of a domain, which begins with a dot.
fn is_plain(name: &SiteName) -> bool
    ensures { result ≡ is_plain name.now }
{
    match name.as_str().as_bytes() {
        [first, ..] => *first != b'.',
        [] => true,
    }
}

fn are_plain(names: &[SiteName]) -> bool
    ensures { result ≡ list_all is_plain names.now }
{
    names.iter().all(|name| is_plain(name))
}

// The name that a text begins with.
#[tactic(auto, unfolding(crate::specs::Internal::NetworkReading::network_name))]
fn network_name(alloc: Global, text: &[u8]) -> Result<Option<SiteName>, AllocError>
    ensures { IfOk result (λ name. name ≡ network_name text.now) }
{
    let (name, _) = text.split_at(name_len(text));
    let Some(name) = site_name(alloc, name)? else {
        return Ok(None);
    };
    if is_plain(&name) {
        Ok(Some(name))
    } else {
        Ok(None)
    }
}

// The sites of a list.
#[tactic(auto, unfolding(crate::specs::Internal::NetworkReading::sites_of))]
fn sites_of(alloc: Global, list: &[u8]) -> Result<Option<Vec<SiteName>>, AllocError>
    ensures { IfOk result (λ sites. option_map (λ v. v.items) sites ≡ sites_of list.now) }
{
    let Some(sites) = aliases_of(alloc, list)? else {
        return Ok(None);
    };
    if are_plain(&sites) {
        Ok(Some(sites))
    } else {
        Ok(None)
    }
}

// The network of this name, of what stands in the braces and behind them.
#[tactic(auto, unfolding(crate::specs::Internal::NetworkReading::said_in))]
fn said_in(
    alloc: Global,
    name: SiteName,
    list: &[u8],
    behind: &[u8],
) -> Result<Option<Network>, AllocError>
    ensures { IfOk result (λ network. network ≡ said_in name list.now behind.now) }
{
    let Some(sites) = sites_of(alloc, list)? else {
        return Ok(None);
    };
    let Some(cost) = cost_behind(alloc, skip_mark(behind))? else {
        return Ok(None);
    };
    Ok(Some(Network {
        name,
        sites: Listed::from_vec(sites),
        cost,
    }))
}

// The network of this name, of what stands after the brace that opens its list.
#[tactic(auto, unfolding(crate::specs::Internal::NetworkReading::said_from))]
fn said_from(alloc: Global, name: SiteName, text: &[u8]) -> Result<Option<Network>, AllocError>
    ensures { IfOk result (λ network. network ≡ said_from name text.now) }
{
    let (list, rest) = text.split_at(len_before(text, b'}'));
    match rest {
        [b'}', behind @ ..] => said_in(alloc, name, list, behind),
        _ => Ok(None),
    }
}

// The network of this name, of what stands after the equals sign.
#[tactic(auto, unfolding(crate::specs::Internal::NetworkReading::said_after))]
fn said_after(alloc: Global, name: SiteName, text: &[u8]) -> Result<Option<Network>, AllocError>
    ensures { IfOk result (λ network. network ≡ said_after name text.now) }
{
    match skip_mark(skip_blanks(text)) {
        [b'{', rest @ ..] => said_from(alloc, name, rest),
        _ => Ok(None),
    }
}

// The network of this name, of what stands after it.
#[tactic(auto, unfolding(crate::specs::Internal::NetworkReading::said_behind))]
fn said_behind(alloc: Global, name: SiteName, text: &[u8]) -> Result<Option<Network>, AllocError>
    ensures { IfOk result (λ network. network ≡ said_behind name text.now) }
{
    match skip_blanks(text) {
        [b'=', rest @ ..] => said_after(alloc, name, rest),
        _ => Ok(None),
    }
}

/// The network that a statement declares, or `None` if it declares none.
#[tactic(auto, unfolding(crate::specs::Internal::NetworkReading::network_of))]
pub(crate) fn network_of(alloc: Global, text: &[u8]) -> Result<Option<Network>, AllocError>
    ensures { IfOk result (λ network. network ≡ network_of text.now) }
{
    let Some(name) = network_name(alloc, text)? else {
        return Ok(None);
    };
    let (_, behind) = text.split_at(name_len(text));
    said_behind(alloc, name, behind)
}
