//! The report of routes.

ghost use Rattle.std.specs.Prelude.{◌≡◌, ◌++◌, IfOk, OnOk};
ghost use Rattle.std.specs.List.{flat_map};
ghost use Rattle.std.specs.String.{string_bytes};
ghost use Rattle.uu_report.specs.Reports.{cost_first, path_text, route_text, site_text};

use std::alloc::{AllocError, Global};
use uu_names::SiteName;
use uu_routes::SiteRoute;

/// The report of these routes, in their order: for each a line with the host, a tab, and its sites
/// with a `!` after each and `%s` for the user. With `costs` the cost and a tab come first.
pub fn routes_report(
    alloc: Global,
    routes: &[SiteRoute],
    costs: bool,
) -> Result<Vec<u8>, AllocError>
    ensures { IfOk result (λ report. report.items ≡ flat_map (route_text costs) routes.now) }
{
    let mut report = Vec::new(alloc);
    for route in routes {
        let line = route_line(alloc, route, costs)?;
        report.extend_from_slice(line.as_bytes())?;
    }
    Ok(report)
}

// The line of one route.
fn route_line(alloc: Global, route: &SiteRoute, costs: bool) -> Result<String, AllocError>
    ensures { IfOk result (λ line. string_bytes line ≡ route_text costs route.now) }
{
    let first = cost_text(alloc, route.cost, costs)?;
    let host = route.host.as_str();
    let path = path_of(alloc, route.sites.as_slice())?;
    format!(in alloc; "{first}{host}\t{path}\n")
}

// The cost, if it is wanted.
fn cost_text(alloc: Global, cost: u64, wanted: bool) -> Result<String, AllocError>
    ensures { IfOk result (λ text. string_bytes text ≡ cost_first wanted cost) }
{
    if wanted {
        format!(in alloc; "{cost}\t")
    } else {
        Ok(String::new(alloc))
    }
}

// The sites, and then the user.
fn path_of(alloc: Global, sites: &[SiteName]) -> Result<String, AllocError>
    ensures { IfOk result (λ text. string_bytes text ≡ path_text sites.now) }
{
    let mut text = String::new(alloc);
    append_sites(&mut text, sites)?;
    text.push_str("%s")?;
    Ok(text)
}

fn append_sites(text: &mut String, sites: &[SiteName]) -> Result<(), AllocError>
    ensures { OnOk result (string_bytes text.new ≡ string_bytes text.old ++ flat_map site_text sites.now) }
{
    for site in sites {
        let name = site.as_str();
        write!(text, "{name}!")?;
    }
    Ok(())
}
