// Routes by name, from labels by number.
ghost use Rattle.std.specs.Prelude.{◌≡◌, ◌<◌, IfOk, All, length};
ghost use Rattle.uu_routes.specs.Internal.Routing.{route_of, route_if, IsNumbered, destinations};

use crate::label::Label;
use crate::link::{Destination, Route};
use std::alloc::{AllocError, Global};
use uu_names::{Listed, SiteName};

fn route_of(alloc: Global, names: &[SiteName], label: &Label) -> Result<Route, AllocError>
    requires { All (λ i. i < length names.now) label.now.path }
    ensures { IfOk result (λ route. route ≡ route_of names.now label.now) }
{
    let path = label.path.as_slice();
    let mut sites = Vec::new(alloc);
    for at in path {
        sites.push(names[*at].clone()?)?;
    }
    Ok(Route {
        cost: label.cost,
        sites: Listed::from_vec(sites),
    })
}

fn route_if(
    alloc: Global,
    names: &[SiteName],
    label: &Option<Label>,
) -> Result<Option<Route>, AllocError>
    requires { IsNumbered (length names.now) label.now }
    ensures { IfOk result (λ route. route ≡ route_if names.now label.now) }
{
    match label {
        None => Ok(None),
        Some(label) => {
            let route = route_of(alloc, names, label)?;
            Ok(Some(route))
        }
    }
}

/// Each name with the route to its host.
pub(crate) fn destinations(
    alloc: Global,
    names: &[SiteName],
    labels: &[Option<Label>],
) -> Result<Vec<Destination>, AllocError>
    requires size { length labels.now ≡ length names.now }
    requires numbered { All (IsNumbered (length names.now)) labels.now }
    ensures { IfOk result (λ v. v.items ≡ destinations names.now names.now labels.now) }
{
    let mut list = Vec::new(alloc);
    for (at, label) in labels.iter().enumerate() {
        let route = route_if(alloc, names, label)?;
        let site = names[at].clone()?;
        list.push(Destination { site, route })?;
    }
    Ok(list)
}
