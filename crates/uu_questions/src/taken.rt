// What was taken from a neighbour.
ghost use Rattle.std.specs.Prelude.{◌≡◌, ◌++◌, [], ◌∷◌};
ghost use Rattle.uu_core.specs.State.{link_of};
ghost use Rattle.uu_tables.specs.declared.rows.TakenColumns.{TakenColumns};
ghost use Rattle.uu_schema.specs.Cells.{taken_cells};
ghost use Rattle.uu_questions.specs.Answers.{Asks};

use crate::walk::{RowTaker, walk_rows};
use sqlite::{Alter, Connection, Error, Row, params};
use std::alloc::Global;
use uu_core::Taken;
use uu_names::SiteName;
use uu_rows::{TypedRow, or_error};
use uu_tables::TakenColumns;

// What was taken, according to the rows so far.
#[derive(Drop)]
struct TakenWalk {
    alloc: Global,
    taken: Vec<Taken>,
}

impl RowTaker for TakenWalk {
    ghost takes = { λ old row new. (shown : TakenColumns) × (row ≡ taken_cells shown) × (new.taken.items ≡ old.taken.items ++ shown.taken ∷ []) };

    fn take(&mut self, row: &Row) -> Result<(), Error> {
        let shown = or_error(TakenColumns::read(self.alloc, row))?;
        self.taken.push(shown.taken)?;
        Ok(())
    }
}

/// What was taken from the neighbour of this name, by its number there. The rows of other
/// neighbours aren't read, and its own are read one at a time.
pub fn taken_from<S: Alter>(
    alloc: Global,
    conn: &mut Connection<S>,
    name: &SiteName,
) -> Result<Vec<Taken>, Error>
    ensures { Asks S.Store (λ s taken. taken.items ≡ (link_of s name.now).taken) conn.old conn.new result }
{
    let mut walk = TakenWalk {
        alloc,
        taken: Vec::new(alloc),
    };
    walk_rows(
        conn,
        "SELECT system, number, mark, job FROM taken WHERE system = ?1 ORDER BY system, number",
        params![name.as_str()],
        &mut walk,
    )?;
    Ok(walk.taken)
}
