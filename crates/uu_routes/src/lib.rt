//! The cheapest ways from a site over the entries of its map.
#![tactic(auto)]

mod answer;
mod claims;
mod destinations;
mod fault;
mod first;
mod label;
mod link;
mod map;
mod names;
mod net;
mod network;
mod search;
mod site;

pub use answer::MAX_COST;
pub use fault::RouteFault;
pub use first::USUAL_COST;
pub use link::{Destination, FirstHop, Route, SiteLink, SiteNetwork};
pub use search::MAX_HOPS;
pub use site::{SiteRoute, meant_host, site_routes};
