// Taking a database as a spool.
ghost use Rattle.std.specs.Prelude.{◌≡◌, ◌≢◌, IfErr};
ghost use Rattle.sqlite.specs.Held.{state};
ghost use Rattle.uu_schema.specs.Steps.{IsIdle};
ghost use Rattle.uu_adopt.specs.FoundTables.{HasUnversionedTables};

use crate::laws::no_answered_command_is_lost_over;
use crate::spool::Spool;
use sqlite::{Alter, Connection};
use std::alloc::Global;
use uu_adopt::adopt_database;
use uu_schema::StoreFault;

/// Why a database wasn't taken, and the connection to it, with no transaction open.
#[derive(Drop)]
pub struct AdoptFault<S: Alter> {
    /// Why it wasn't taken.
    pub fault: StoreFault,
    /// The connection that was handed in.
    pub conn: Connection<S>,
    ghost idle: { IsIdle conn },
}

impl<S: Alter> Spool<S> {
    ghost use Rattle.std.specs.Prelude.{false, IfOk, IsErrAnd};
    ghost use Rattle.uu_store.specs.Spool.{has_failed};
    ghost use Rattle.uu_store.specs.Adopted.{IsAdoptedSpool, IsHandedBack};
    ghost use Rattle.uu_store.specs.Remembered.{Remembers};

    /// Takes the database as a spool. One with none of the spool's tables gets them, in one
    /// transaction. One with exactly these tables is taken exactly if its rows are those of a
    /// spool's state. Tables of an earlier version then become those of version 4, in one
    /// transaction. A database that has some of the tables, but not all of a version with their
    /// columns, is never taken.
    ///
    /// # Errors
    /// The connection is given back with no transaction open. `Foreign` if a table has one of the
    /// names, and there is no table `spool` with the columns that say its version. Then the code
    /// asks nothing else, and the connection comes back as it was. Otherwise `Newer` if a row of id
    /// 1 in the table `spool` names a version later than this program's, which is asked first. Then
    /// `Foreign` if another table or a column is missing, or a row isn't a spool's. After these
    /// errors, and after `Memory`, a database with any of the spool's tables, or with no tables, is
    /// as it was, and so is what a stop leaves. Every row is read, but not a job's bytes, only
    /// their number.
    pub fn adopt(alloc: Global, conn: Connection<S>) -> Result<Spool<S>, AdoptFault<S>>
        requires { IsIdle conn }

        // The spool that it gives can be used, and the error is never `Failed`.
        ensures usable { IfOk result (λ spool. has_failed spool ≡ false) }
        ensures never_failed { IfErr result (λ back. back.fault ≢ StoreFault.Failed) }

        // What was found, what the spool shows of it, and what a stop leaves.
        ensures adopted { IfOk result (IsAdoptedSpool conn) }
        ensures handed_back { IfErr result (IsHandedBack conn) }

        // A database in which a name of the spool's tables is taken and no table says a version is
        // foreign, and comes back as it was.
        ensures other_is_foreign { HasUnversionedTables (state S.Store conn).now.schema → IsErrAnd result (λ back. (back.fault ≡ StoreFault.Foreign) × (back.conn ≡ conn)) }

        // No answered command is lost, over any stretches before.
        ensures remembers { IfOk result (Remembers conn) }
    {
        no_answered_command_is_lost_over::<S>();
        let mut conn = conn;
        match adopt_database(alloc, &mut conn) {
            Ok(()) => Ok(Spool::over(conn)),
            Err(fault) => Err(AdoptFault { fault, conn }),
        }
    }
}
