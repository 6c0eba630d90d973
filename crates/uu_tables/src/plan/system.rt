// Systems that are defined and removed.
ghost use Rattle.std.specs.Prelude.{◌≡◌, IfOk};
ghost use Rattle.uu_core.specs.declared.command.Command.TheVariants.{Define, Remove};
ghost use Rattle.uu_core.specs.State.{State, IsWellFormed, has_system, is_waiting};
ghost use Rattle.uu_tables.specs.Tables.{Tables};
ghost use Rattle.uu_tables.specs.Changes.{apply};
ghost use Rattle.uu_tables.specs.Parts.{with_definition};
ghost use Rattle.uu_tables.specs.Plans.{IsPlan};

use super::{Plan, one_change, refused};
use crate::change::Change;
use std::alloc::{AllocError, Global};
use uu_core::decide_drop;
use uu_names::SiteName;
use uu_times::SystemDef;

// The change that defines a system. A known one keeps its calls.
fn definition<'a>(is_known: bool, def: &'a SystemDef) -> Change<'a>
    ensures { (t : Tables) → apply result t ≡ with_definition is_known def.now t }
{
    if is_known {
        Change::SetDefinition(def)
    } else {
        Change::AddSystem(def)
    }
}

/// A system that is defined. A new one was never called, and a known one keeps its calls.
pub(crate) fn plan_define<'a>(
    alloc: Global,
    known: bool,
    def: &'a SystemDef,
) -> Result<Plan<'a>, AllocError>
    ensures { (s : State) → IsWellFormed s → known ≡ has_system s def.now.name → IfOk result (IsPlan s (Define def.now)) }
{
    one_change(alloc, definition(known, def))
}

/// A system that is removed, with its calls and its link: the number below which it won't ask again,
/// and what was taken from it.
pub(crate) fn plan_remove<'a>(
    alloc: Global,
    known: bool,
    waiting: bool,
    system: &'a SiteName,
) -> Result<Plan<'a>, AllocError>
    ensures { (s : State) → known ≡ has_system s system.now → waiting ≡ is_waiting s system.now → IfOk result (IsPlan s (Remove system.now)) }
{
    match decide_drop(known, waiting) {
        Ok(()) => one_change(alloc, Change::RemoveSystem { system }),
        Err(refusal) => Ok(refused(alloc, refusal)),
    }
}
