// Systems with their definitions and their calls.
ghost use Rattle.std.specs.Prelude.{◌≡◌, ◌≢◌, true, false, List, map, Ok, IfOk, IfErr, option_map};
ghost use Rattle.sqlite.specs.Held.{state};
ghost use Rattle.uu_schema.specs.Steps.{StaysIdle};
ghost use Rattle.uu_core.specs.State.{IsWellFormed, system_at};
ghost use Rattle.uu_rows.specs.Values.{NotIf};
ghost use Rattle.uu_tables.specs.Tables.{system_columns};
ghost use Rattle.uu_questions.specs.Answers.{Answers, Asks};
ghost use Rattle.uu_questions.specs.Systems.{AreRowsOfSystems, holding, outcome_from, row_from};
ghost use Rattle.uu_core.specs.declared.system.SystemRow.{SystemRow};
ghost use Rattle.sqlite.specs.declared.error.Error.TheVariants.{SqliteFailure, QueryReturnedNoRows};
ghost use Rattle.sqlite.specs.declared.error.ErrorCode.TheVariants.{OutOfMemory};

use crate::asks::typed_row;
use sqlite::{Alter, Connection, Error, params};
use std::alloc::{AllocError, Global};
use uu_check::{Rows, are_tables};
use uu_core::{CallState, Outcome, SystemRow};
use uu_names::{SiteName, Word};
use uu_rows::{RowFault, ask_systems, or_error, read_rows};
use uu_tables::{NEVER_CALLED, SystemColumns};

// ---- what the tables say

// The row of the system of this name, if it is there.
fn columns_of_name<S: Alter>(
    alloc: Global,
    conn: &mut Connection<S>,
    name: &str,
) -> Result<Option<SystemColumns>, Error>
    ensures { Asks S.Store (λ s found. found ≡ option_map system_columns (system_at s name.now)) conn.old conn.new result }
{
    typed_row(
        alloc,
        conn,
        "SELECT name, definition, last, failures, wait, outcome, why FROM systems WHERE name = ?1 ORDER BY name",
        params![name],
    )
}

// The rows of all systems.
fn all_columns<S: Alter>(
    alloc: Global,
    conn: &mut Connection<S>,
) -> Result<Vec<SystemColumns>, Error>
    ensures { Asks S.Store (λ s found. found.items ≡ map system_columns s.systems) conn.old conn.new result }
{
    let rows = ask_systems(conn)?;
    read_rows(alloc, &rows)
}

// ---- systems of rows

// The outcome of this number and reason. Of others it is any.
fn outcome_from(number: u32, why: Option<Word>) -> Outcome
    ensures { result ≡ outcome_from number why }
{
    match why {
        Some(why) => Outcome::Failed(why),
        None => {
            if number == NEVER_CALLED {
                Outcome::Never
            } else {
                Outcome::Done
            }
        }
    }
}

// The system of a row.
fn row_from(columns: SystemColumns) -> SystemRow
    ensures { result ≡ row_from columns }
{
    let call = columns.call;
    SystemRow {
        def: columns.def,
        call: CallState {
            last: u64::from(call.last),
            failures: call.failures,
            wait: u64::from(call.wait),
            outcome: outcome_from(call.outcome, call.why),
        },
    }
}

// The system of a row, if there is one.
fn row_found(found: Option<SystemColumns>) -> Option<SystemRow>
    ensures { result ≡ option_map row_from found }
{
    match found {
        Some(columns) => Some(row_from(columns)),
        None => None,
    }
}

// The systems of the rows.
fn rows_from(alloc: Global, systems: Vec<SystemColumns>) -> Result<Vec<SystemRow>, AllocError>
    ensures { IfOk result (λ rows. rows.items ≡ map row_from systems.items) }
{
    let mut rows = Vec::new(alloc);
    for columns in systems {
        rows.push(row_from(columns))?;
    }
    Ok(rows)
}

// Whether the rows are those of systems that a spool may have.
fn are_of_systems(alloc: Global, systems: &[SystemColumns]) -> Result<bool, AllocError>
    ensures yes { result ≡ Ok true → (made : List SystemRow) × AreRowsOfSystems made systems.now }
    ensures no { result ≡ Ok false → (made : List SystemRow) → ¬ AreRowsOfSystems made systems.now }
{
    are_tables(
        alloc,
        &Rows {
            next: 1,
            systems,
            jobs: &[],
            bodies: &[],
            entries: &[],
            links: &[],
            taken: &[],
        },
    )
}

// The systems with these rows, in the order of their names.
fn systems_of(alloc: Global, systems: Vec<SystemColumns>) -> Result<Vec<SystemRow>, RowFault>
    ensures systems { IfOk result (λ made. AreRowsOfSystems made.items systems.items) }
    ensures bad { (made : List SystemRow) → NotIf result (AreRowsOfSystems made systems.items) }
{
    if !are_of_systems(alloc, &systems)? {
        return Err(RowFault::Bad);
    }
    Ok(rows_from(alloc, systems)?)
}

// The same, but rows that the format doesn't allow are an error of the database.
fn systems_or_error(alloc: Global, systems: Vec<SystemColumns>) -> Result<Vec<SystemRow>, Error>
    ensures systems { IfOk result (λ made. AreRowsOfSystems made.items systems.items) }

    // If the rows are those of systems that a spool may have, the only error is out of memory.
    ensures memory { (made : List SystemRow) → AreRowsOfSystems made systems.items → IfErr result (λ error. error ≡ SqliteFailure OutOfMemory) }

    // Any other error is that of rows that the format doesn't allow.
    ensures bad { IfErr result (λ error. error ≢ SqliteFailure OutOfMemory → error ≡ QueryReturnedNoRows) }
{
    or_error(systems_of(alloc, systems))
}

// ---- the answers

/// The system of this name, if it is known, with its definition and its calls.
pub(crate) fn system_of_name<S: Alter>(
    alloc: Global,
    conn: &mut Connection<S>,
    name: &SiteName,
) -> Result<Option<SystemRow>, Error>
    ensures { Asks S.Store (λ s found. found ≡ system_at s name.now) conn.old conn.new result }
{
    let found = columns_of_name(alloc, conn, name.as_str())?;
    Ok(row_found(found))
}

/// All systems in the byte order of their names, with their definitions and their calls. The result
/// could be in a spool, on an unclean store too.
pub fn all_systems<S: Alter>(
    alloc: Global,
    conn: &mut Connection<S>,
) -> Result<Vec<SystemRow>, Error>
    ensures idle { StaysIdle conn.old conn.new }
    ensures answers { Answers (λ s systems. systems.items ≡ s.systems) (state S.Store conn.old) (state S.Store conn.new) result }
    ensures formed { IfOk result (λ systems. IsWellFormed (holding systems.items)) }
{
    let systems = all_columns(alloc, conn)?;
    systems_or_error(alloc, systems)
}
