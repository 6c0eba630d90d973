//! The report of a map entry's networks.

ghost use Rattle.std.specs.Prelude.{◌≡◌, ◌++◌, IfOk, OnOk};
ghost use Rattle.std.specs.List.{flat_map};
ghost use Rattle.std.specs.String.{string_bytes};
ghost use Rattle.uu_report.specs.Reports.{after_comma, listed, network_text};

use std::alloc::{AllocError, Global};
use uu_map::{Cost, Network};
use uu_names::SiteName;

/// Appends a line for each network: its name, its cost, and its sites in braces.
pub(crate) fn append_networks(
    alloc: Global,
    report: &mut Vec<u8>,
    networks: &[Network],
) -> Result<(), AllocError>
    ensures { OnOk result (report.new.items ≡ report.old.items ++ flat_map network_text networks.now) }
{
    for network in networks {
        let line = network_line(alloc, network)?;
        report.extend_from_slice(line.as_bytes())?;
    }
    Ok(())
}

fn network_line(alloc: Global, network: &Network) -> Result<String, AllocError>
    ensures { IfOk result (λ line. string_bytes line ≡ network_text network.now) }
{
    let name = network.name.as_str();
    let sites = list_of(alloc, network.sites.as_slice())?;
    match network.cost {
        Cost::Value(cost) => format!(in alloc; "{name} {cost} {{{sites}}}\n"),
        Cost::Dead => format!(in alloc; "{name} dead {{{sites}}}\n"),
    }
}

// The names with a comma between two.
fn list_of(alloc: Global, sites: &[SiteName]) -> Result<String, AllocError>
    ensures { IfOk result (λ text. string_bytes text ≡ listed sites.now) }
{
    let mut text = String::new(alloc);
    if let [first, rest @ ..] = sites {
        text.push_str(first.as_str())?;
        append_rest(&mut text, rest)?;
    }
    Ok(text)
}

fn append_rest(text: &mut String, sites: &[SiteName]) -> Result<(), AllocError>
    ensures { OnOk result (string_bytes text.new ≡ string_bytes text.old ++ flat_map after_comma sites.now) }
{
    for site in sites {
        let name = site.as_str();
        write!(text, ", {name}")?;
    }
    Ok(())
}
