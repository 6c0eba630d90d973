// Links between sites, and routes over them.
use uu_names::{Listed, SiteName};

/// A link of the site itself, to one of its systems.
#[derive(Debug, Drop)]
pub struct FirstHop {
    /// The system.
    pub to: SiteName,
    /// What the link costs.
    pub cost: u64,
}

/// A link from one site to another.
#[derive(Debug, Drop)]
pub struct SiteLink {
    /// The site that has the link.
    pub from: SiteName,
    /// The site that it leads to.
    pub to: SiteName,
    /// What the link costs.
    pub cost: u64,
}

/// Sites of which each has a link to each other one.
#[derive(Debug, Drop)]
pub struct SiteNetwork {
    /// The sites, with repeats.
    pub sites: Listed<SiteName>,
    /// What each of these links costs.
    pub cost: u64,
}

/// A way to a site.
#[derive(Debug, Drop)]
pub struct Route {
    /// The sum of the costs of its links.
    pub cost: u64,
    /// Its sites, from the first hop to the last one.
    pub sites: Listed<SiteName>,
}

/// A site that is named, and the way to it.
#[derive(Debug, Drop)]
pub struct Destination {
    /// The site.
    pub site: SiteName,
    /// The least way to it, if there is one.
    pub route: Option<Route>,
}
