//! The report of a map entry's links.

ghost use Rattle.std.specs.Prelude.{◌≡◌, ◌++◌, IfOk, OnOk};
ghost use Rattle.std.specs.List.{flat_map};
ghost use Rattle.std.specs.String.{string_bytes};
ghost use Rattle.uu_report.specs.Reports.{link_text, alias_text, skipped_text, links_text};

use crate::networks::append_networks;
use std::alloc::{AllocError, Global};
use uu_map::{Cost, Entry, Link};
use uu_names::SiteName;

/// The report of an entry: `NAME COST` or `NAME dead` for each link, then `= ALIAS` for each alias,
/// then `NAME COST {SITE, SITE}` for each network, then `skipped LINE` for each skipped statement, all
/// in the entry's order.
pub fn links_report(alloc: Global, entry: &Entry) -> Result<Vec<u8>, AllocError>
    ensures { IfOk result (λ report. report.items ≡ links_text entry.now) }
{
    let mut report = Vec::new(alloc);
    append_links(alloc, &mut report, entry.links.as_slice())?;
    append_aliases(alloc, &mut report, entry.aliases.as_slice())?;
    append_networks(alloc, &mut report, entry.networks.as_slice())?;
    append_skipped(alloc, &mut report, entry.skipped.as_slice())?;
    Ok(report)
}

fn append_links(alloc: Global, report: &mut Vec<u8>, links: &[Link]) -> Result<(), AllocError>
    ensures { OnOk result (report.new.items ≡ report.old.items ++ flat_map link_text links.now) }
{
    for link in links {
        let line = link_line(alloc, link)?;
        report.extend_from_slice(line.as_bytes())?;
    }
    Ok(())
}

fn link_line(alloc: Global, link: &Link) -> Result<String, AllocError>
    ensures { IfOk result (λ line. string_bytes line ≡ link_text link.now) }
{
    let name = link.to.as_str();
    match link.cost {
        Cost::Value(cost) => format!(in alloc; "{name} {cost}\n"),
        Cost::Dead => format!(in alloc; "{name} dead\n"),
    }
}

fn append_aliases(
    alloc: Global,
    report: &mut Vec<u8>,
    aliases: &[SiteName],
) -> Result<(), AllocError>
    ensures { OnOk result (report.new.items ≡ report.old.items ++ flat_map alias_text aliases.now) }
{
    for alias in aliases {
        let line = alias_line(alloc, alias)?;
        report.extend_from_slice(line.as_bytes())?;
    }
    Ok(())
}

fn alias_line(alloc: Global, alias: &SiteName) -> Result<String, AllocError>
    ensures { IfOk result (λ line. string_bytes line ≡ alias_text alias.now) }
{
    let name = alias.as_str();
    format!(in alloc; "= {name}\n")
}

/// Appends a line for each line of the input that was skipped.
pub(crate) fn append_skipped(
    alloc: Global,
    report: &mut Vec<u8>,
    skipped: &[u32],
) -> Result<(), AllocError>
    ensures { OnOk result (report.new.items ≡ report.old.items ++ flat_map skipped_text skipped.now) }
{
    for number in skipped {
        let line = skipped_line(alloc, *number)?;
        report.extend_from_slice(line.as_bytes())?;
    }
    Ok(())
}

// The line of one line that was skipped.
fn skipped_line(alloc: Global, number: u32) -> Result<String, AllocError>
    ensures { IfOk result (λ line. string_bytes line ≡ skipped_text number) }
{
    format!(in alloc; "skipped {number}\n")
}
