// Carrying out a plan over a connection: its changes are made in one transaction, and its answer is
// given.
ghost use Rattle.std.specs.Prelude.{◌≡◌, [], IfOk, IfErr, Ok, Err};
ghost use Rattle.sqlite.specs.Held.{state};
ghost use Rattle.sqlite.specs.declared.error.Error.{Error};
ghost use Rattle.uu_core.specs.State.{State};
ghost use Rattle.uu_tables.specs.Tables.{tables_of};
ghost use Rattle.uu_tables.specs.Changes.{applied};
ghost use Rattle.uu_schema.specs.Steps.{IsIdle, CommitsNothing, StaysUnclean};
ghost use Rattle.uu_schema.specs.Faults.{IsFaultOfThisCall};
ghost use Rattle.uu_schema.specs.declared.fault.Halt.TheVariants.{Before};
ghost use Rattle.uu_schema.specs.declared.fault.StoreFault.TheVariants.{Memory};
ghost use Rattle.uu_statements.specs.Step.{IsWrittenStep, IsToldStep};

use crate::changes::commit;
use sqlite::{Alter, Connection};
use std::alloc::Global;
use uu_schema::{Halt, StoreFault, halt_fault};
use uu_tables::Change;

// Makes the changes, and gives the answer. Without changes, as when a command is refused, it
// doesn't call the database.
fn write_changes<S: Alter, R: Drop>(
    alloc: Global,
    conn: &mut Connection<S>,
    reply: R,
    changes: &[Change<'_>],
) -> Result<R, Halt>
    requires { IsIdle conn.old }
    ensures idle { IsIdle conn.new }
    ensures clean { StaysUnclean (state S.Store conn.old) (state S.Store conn.new) }
    ensures same { IfOk result (λ answer. answer ≡ reply) }
    ensures untouched { changes.now ≡ [] → (result ≡ Ok reply) × (conn.new ≡ conn.old) }
    ensures step { (s t : State) → applied changes.now (tables_of s) ≡ tables_of t → IsWrittenStep s t reply (state S.Store conn.old) (state S.Store conn.new) result }
    ensures before { (error : Error) → result ≡ Err (Before error) → CommitsNothing S.Store conn.old conn.new }
{
    if changes.is_empty() {
        return Ok(reply);
    }
    commit(alloc, conn, changes)?;
    Ok(reply)
}

/// Makes the planned changes, all of them in one transaction, and gives the planned answer. Without
/// changes it doesn't call the database.
pub fn carry_out<S: Alter, R: Drop>(
    alloc: Global,
    conn: &mut Connection<S>,
    reply: R,
    changes: &[Change<'_>],
) -> Result<R, StoreFault>
    requires { IsIdle conn.old }
    ensures idle { IsIdle conn.new }
    ensures fresh { IfErr result IsFaultOfThisCall }
    ensures clean { StaysUnclean (state S.Store conn.old) (state S.Store conn.new) }
    ensures same { IfOk result (λ answer. answer ≡ reply) }
    ensures untouched { changes.now ≡ [] → (result ≡ Ok reply) × (conn.new ≡ conn.old) }
    ensures step { (s t : State) → applied changes.now (tables_of s) ≡ tables_of t → IsToldStep s t reply (state S.Store conn.old) (state S.Store conn.new) result }

    // A failed commit is never reported as out of memory. After out of memory, a stop leaves what
    // it could leave before, with any database.
    ensures memory { result ≡ Err Memory → CommitsNothing S.Store conn.old conn.new }
{
    match write_changes(alloc, conn, reply, changes) {
        Ok(reply) => Ok(reply),
        Err(halt) => Err(halt_fault(conn, &halt)),
    }
}
