//! With which neighbour a line exchanges bundles.

ghost use Rattle.std.specs.Prelude.{◌≡◌, Some, option_map};
ghost use Rattle.uu_request.specs.Neighbours as spec;

use crate::fault::WrongBundle;
use uu_line::Task;
use uu_names::SiteName;
use uu_settings::Settings;

/// The site with which a task exchanges bundles: that of `pack`, `unpack`, `settle` and `answer`.
pub fn neighbour_of(task: &Task) -> Option<&SiteName>
    ensures { option_map (λ name. name.now) result ≡ spec.neighbour_of task.now }
{
    match task {
        Task::Pack { system, .. } | Task::Settle { system, .. } => Some(system),
        Task::Unpack { sender, .. } | Task::Answer { sender, .. } => Some(sender),
        _ => None,
    }
}

/// Why the site exchanges no bundles with the task's neighbour.
pub(crate) fn wrong_neighbour(task: &Task, settings: &Settings) -> Option<WrongBundle>
    ensures { result ≡ spec.wrong_neighbour settings.now (spec.neighbour_of task.now) }
{
    match neighbour_of(task) {
        Some(name) => wrong_name(name, settings),
        None => None,
    }
}

// Why the site exchanges no bundles with a site of this name.
fn wrong_name(name: &SiteName, settings: &Settings) -> Option<WrongBundle>
    ensures { result ≡ spec.wrong_neighbour settings.now (Some name.now) }
{
    if settings.seals.is_some() {
        return Some(WrongBundle::Sealed);
    }
    if name.as_str() == settings.name.as_str() {
        return Some(WrongBundle::OwnSite);
    }
    None
}
