// A definition as it is kept.
ghost use Rattle.std.specs.Prelude.{◌≡◌, IfOk};
ghost use Rattle.uu_tables.specs.Tables.{definition_text};

use std::alloc::{AllocError, Global};
use std::slice;
use uu_times::{SystemDef, write_sys};

/// The definition as it is kept: the sys file of the system alone.
pub fn definition_text(alloc: Global, def: &SystemDef) -> Result<Vec<u8>, AllocError>
    ensures { IfOk result (λ text. text.items ≡ definition_text def.now) }
{
    write_sys(alloc, slice::from_ref(def))
}
