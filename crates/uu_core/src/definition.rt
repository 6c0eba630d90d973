// The definitions of systems.
ghost use Rattle.std.specs.Prelude.{◌≡◌, IfOk, filter, map, option_copied};
ghost use Rattle.uu_core.specs.Definitions.{definitions_of, picked};
ghost use Rattle.uu_core.specs.State.{is_system};

use crate::system::SystemRow;
use std::alloc::{AllocError, Global};
use uu_names::SiteName;
use uu_times::SystemDef;

/// The definitions of the systems, in their order. If a name is given, only that of its system, if
/// there is one. [`write_sys`](uu_times::write_sys) makes a sys file of them
/// ([`definitions_are_read_back`](crate::laws::definitions_are_read_back)).
pub fn definitions(
    alloc: Global,
    rows: Vec<SystemRow>,
    name: Option<&SiteName>,
) -> Result<Vec<SystemDef>, AllocError>
    ensures { IfOk result (λ definitions. definitions.items ≡ definitions_of (option_copied name.entry) rows.items) }
{
    match name {
        None => as_definitions(alloc, rows),
        Some(name) => as_definitions(alloc, named(rows, name)),
    }
}

fn as_definitions(alloc: Global, rows: Vec<SystemRow>) -> Result<Vec<SystemDef>, AllocError>
    ensures { IfOk result (λ definitions. definitions.items ≡ map (λ row. row.def) rows.items) }
{
    rows.into_iter().map(|row| row.def).collect(alloc)
}

// The systems of this name. There is at most one.
fn named(mut rows: Vec<SystemRow>, name: &SiteName) -> Vec<SystemRow>
    ensures { result.items ≡ filter (is_system name.now) rows.items }
{
    rows.retain(|row| row.def.name == *name);
    rows
}

/// These systems, or only those of this name if one is given.
pub fn pick_systems(rows: Vec<SystemRow>, name: Option<&SiteName>) -> Vec<SystemRow>
    ensures { result.items ≡ picked (option_copied name.entry) rows.items }
{
    match name {
        None => rows,
        Some(name) => named(rows, name),
    }
}
