// The statements on systems.
ghost use Rattle.std.specs.Prelude.{◌≡◌, option_map};
ghost use Rattle.uu_schema.specs.Statements.{Writes};
ghost use Rattle.uu_tables.specs.declared.change.Change.{Change};
ghost use Rattle.uu_tables.specs.Tables.{definition_text};
ghost use Rattle.uu_tables.specs.Changes.{without, has_name};
ghost use Rattle.uu_statements.specs.Makes.{Makes, MakesOf};

use crate::links::remove_whole_link;
use sqlite::{Alter, Error, ErrorCode, Transaction, params};
use std::alloc::Global;
use uu_names::SiteName;
use uu_tables::{CallColumns, definition_text};
use uu_times::SystemDef;

fn insert_system<S: Alter>(
    tx: &mut Transaction<'_, S>,
    def: &SystemDef,
    text: &[u8],
) -> Result<usize, Error>
    requires text { text.now ≡ definition_text def.now }
    ensures { Writes S.Store (Makes (Change.AddSystem def.entry)) tx.old tx.new result }
{
    tx.execute(
        "INSERT INTO systems (name, definition, last, failures, wait, outcome, why) VALUES (?1, ?2, 0, 0, 0, 0, NULL)",
        params![def.name.as_str(), text],
    )
}

pub(crate) fn add_system<S: Alter>(
    alloc: Global,
    tx: &mut Transaction<'_, S>,
    def: &SystemDef,
) -> Result<usize, Error>
    ensures { Writes S.Store (Makes (Change.AddSystem def.entry)) tx.old tx.new result }
{
    match definition_text(alloc, def) {
        Ok(text) => insert_system(tx, def, text.as_slice()),
        Err(_) => Err(Error::SqliteFailure(ErrorCode::OutOfMemory)),
    }
}

fn update_definition<S: Alter>(
    tx: &mut Transaction<'_, S>,
    def: &SystemDef,
    text: &[u8],
) -> Result<usize, Error>
    requires text { text.now ≡ definition_text def.now }
    ensures { Writes S.Store (Makes (Change.SetDefinition def.entry)) tx.old tx.new result }
{
    tx.execute(
        "UPDATE systems SET definition = ?2 WHERE name = ?1",
        params![def.name.as_str(), text],
    )
}

pub(crate) fn set_definition<S: Alter>(
    alloc: Global,
    tx: &mut Transaction<'_, S>,
    def: &SystemDef,
) -> Result<usize, Error>
    ensures { Writes S.Store (Makes (Change.SetDefinition def.entry)) tx.old tx.new result }
{
    match definition_text(alloc, def) {
        Ok(text) => update_definition(tx, def, text.as_slice()),
        Err(_) => Err(Error::SqliteFailure(ErrorCode::OutOfMemory)),
    }
}

// Why a call failed, if it did.
fn reason(call: &CallColumns) -> Option<&str>
    ensures { option_map (λ text. text.now) result ≡ call.now.why }
{
    match &call.why {
        Some(word) => Some(word.as_str()),
        None => None,
    }
}

pub(crate) fn set_call<S: Alter>(
    tx: &mut Transaction<'_, S>,
    system: &SiteName,
    call: &CallColumns,
) -> Result<usize, Error>
    ensures { Writes S.Store (Makes (Change.SetCall system.entry call.now)) tx.old tx.new result }
{
    let why = reason(call);
    tx.execute(
        "UPDATE systems SET last = ?2, failures = ?3, wait = ?4, outcome = ?5, why = ?6 WHERE name = ?1",
        params![
            system.as_str(),
            call.last,
            call.failures,
            call.wait,
            call.outcome,
            why
        ],
    )
}

fn delete_system<S: Alter>(tx: &mut Transaction<'_, S>, system: &SiteName) -> Result<usize, Error>
    ensures { Writes S.Store (MakesOf (λ t. record t { systems = without (has_name system.now) t.systems })) tx.old tx.new result }
{
    tx.execute(
        "DELETE FROM systems WHERE name = ?1",
        params![system.as_str()],
    )
}

pub(crate) fn remove_system<S: Alter>(
    tx: &mut Transaction<'_, S>,
    system: &SiteName,
) -> Result<usize, Error>
    ensures { Writes S.Store (Makes (Change.RemoveSystem system.entry)) tx.old tx.new result }
{
    delete_system(tx, system)?;
    remove_whole_link(tx, system)
}
