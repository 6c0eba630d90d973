// The definition of a system, read from the bytes that are kept.
ghost use Rattle.std.specs.Prelude.{◌≡◌, ◌≤◌, [], ◌∷◌, IfOk, Ok, Some, length};
ghost use Rattle.sqlite.specs.Order.{column};
ghost use Rattle.sqlite.specs.declared.types.Value.TheVariants.{Text, Blob};
ghost use Rattle.uu_names.specs.Text.{most_text};
ghost use Rattle.uu_times.specs.Printed.{IsLine, IsSystem};
ghost use Rattle.uu_times.specs.SysFile.{sys_file_of};
ghost use Rattle.uu_times.specs.System.{System};
ghost use Rattle.uu_tables.specs.Tables.{definition_text};
ghost use Rattle.uu_rows.specs.Values.{NotIf};

use crate::fault::{RowFault, time_fault};
use crate::values::{bytes_of_blob_in, name_in};
use sqlite::Row;
use std::alloc::Global;
use uu_names::SiteName;
use uu_names::laws::{grade_is_sound, name_is_sound};
use uu_names::text::MAX_TEXT;
use uu_tables::definition_text;
use uu_times::laws::windows_are_sound;
use uu_times::{Line, SysFile, SystemDef, read_printed, read_sys};

fn line_is_sound(line: &Line)
    ensures { IsLine line.now }
{
    grade_is_sound(&line.grade);
    windows_are_sound(&line.windows);
}

/// What holds of each definition.
pub(crate) fn definition_is_sound(def: &SystemDef)
    ensures { IsSystem def.now }
{
    name_is_sound(&def.name);
    for line in def.lines() {
        line_is_sound(line);
    }
}

// The last system of a sys file.
fn last_system(file: SysFile) -> Option<SystemDef>
    ensures { (def : System) → file.systems ≡ def ∷ [] → result ≡ Some def }
{
    let mut systems = file.systems.into_vec();
    systems.pop()
}

// The definition in a sys file of one system. From another text it is any or none.
fn read_one(alloc: Global, bytes: &[u8]) -> Result<SystemDef, RowFault>
    requires { length bytes.now ≤ most_text }
    ensures kept { (def : System) → sys_file_of bytes.now ≡ Ok (record { systems = def ∷ []; skipped = [] }) → IfOk result (λ found. found ≡ def) }
    ensures bad { (def : System) → NotIf result (sys_file_of bytes.now ≡ Ok (record { systems = def ∷ []; skipped = [] })) }
{
    match read_sys(alloc, bytes) {
        Ok(file) => last_system(file).ok_or(RowFault::Bad),
        Err(fault) => Err(time_fault(fault)),
    }
}

// A definition from the bytes that are kept of it. From other bytes it is any or none.
fn read_kept(alloc: Global, bytes: &[u8]) -> Result<SystemDef, RowFault>
    ensures kept { (def : System) → IsSystem def → bytes.now ≡ definition_text def → IfOk result (λ found. found ≡ def) }
    ensures bad { (def : System) → IsSystem def → NotIf result (bytes.now ≡ definition_text def) }
{
    if bytes.len() > MAX_TEXT {
        return Err(RowFault::Bad);
    }
    read_one(alloc, bytes)
}

fn if_same(def: SystemDef, text: &[u8], bytes: &[u8]) -> Result<SystemDef, RowFault>
    ensures yes { IfOk result (λ same. (same ≡ def) × (text.now ≡ bytes.now)) }
    ensures no { NotIf result (text.now ≡ bytes.now) }
{
    if text == bytes {
        Ok(def)
    } else {
        Err(RowFault::Bad)
    }
}

// The definition that is kept as exactly these bytes, read as any sys file is.
fn definition_read(alloc: Global, bytes: &[u8]) -> Result<SystemDef, RowFault>
    ensures text { IfOk result (λ def. bytes.now ≡ definition_text def) }
    ensures bad { (def : System) → IsSystem def → NotIf result (bytes.now ≡ definition_text def) }
{
    let def = read_kept(alloc, bytes)?;
    let text = definition_text(alloc, &def)?;
    if_same(def, text.as_slice(), bytes)
}

// The same, read quickly if it can be.
fn definition_of(alloc: Global, bytes: &[u8]) -> Result<SystemDef, RowFault>
    ensures text { IfOk result (λ def. bytes.now ≡ definition_text def) }
    ensures bad { (def : System) → IsSystem def → NotIf result (bytes.now ≡ definition_text def) }
{
    match read_printed(alloc, bytes)? {
        Some(def) => Ok(def),
        None => definition_read(alloc, bytes),
    }
}

fn if_named(def: SystemDef, name: &SiteName) -> Result<SystemDef, RowFault>
    ensures yes { IfOk result (λ same. (same ≡ def) × (def.name ≡ name.now)) }
    ensures no { NotIf result (def.name ≡ name.now) }
{
    if def.name == *name {
        Ok(def)
    } else {
        Err(RowFault::Bad)
    }
}

/// The definition in the first two columns: the name, and the bytes that are kept.
pub(crate) fn definition_in(alloc: Global, row: &Row) -> Result<SystemDef, RowFault>
    ensures name { IfOk result (λ def. column row.now 0 ≡ Text def.name) }
    ensures text { IfOk result (λ def. column row.now 1 ≡ Blob (definition_text def)) }
    ensures def { IfOk result IsSystem }
    ensures bad { (def : System) → IsSystem def → column row.now 0 ≡ Text def.name → NotIf result (column row.now 1 ≡ Blob (definition_text def)) }
{
    let name = name_in(alloc, row, 0)?;
    let bytes = bytes_of_blob_in(row, 1)?;
    let def = definition_of(alloc, bytes)?;
    definition_is_sound(&def);
    if_named(def, &name)
}
