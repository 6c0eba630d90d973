// Map entries.
ghost use Rattle.std.specs.Prelude.{IfOk};
ghost use Rattle.uu_core.specs.declared.command.Command.TheVariants.{Entry};
ghost use Rattle.uu_core.specs.State.{State};
ghost use Rattle.uu_tables.specs.Plans.{IsPlan};

use super::{Plan, refused};
use crate::change::Change;
use std::alloc::{AllocError, Global};
use uu_core::{Refusal, Reply};
use uu_map::entry_host;

/// A map entry: that of its host is removed, if there is one, and the new one is added whole.
pub(crate) fn plan_entry<'a>(alloc: Global, bytes: &'a [u8]) -> Result<Plan<'a>, AllocError>
    ensures { (s : State) → IfOk result (IsPlan s (Entry bytes.now)) }
{
    match entry_host(alloc, bytes)? {
        Some(host) => {
            let old = host.clone()?;
            let changes = vec![in alloc;
                Change::RemoveEntry { host: old },
                Change::AddEntry { host, bytes },
            ]?;
            Ok(Plan {
                reply: Reply::Done,
                changes,
            })
        }
        None => Ok(refused(alloc, Refusal::BadEntry)),
    }
}
