// The rows of each table, read from the answer to a question.
ghost use Rattle.std.specs.Prelude.{◌≡◌, ◌≢◌, ℕ, pos, [], ◌∷◌, length, IfOk, Err};
ghost use Rattle.sqlite.specs.declared.types.Value.TheVariants.{Int, Text};
ghost use Rattle.sqlite.specs.Order.{column};
ghost use Rattle.uu_schema.specs.Cells.{system_cells, job_cells, body_cells, entry_cells, link_cells, taken_cells, bare_cells, line_cells, range_cells, wait_cells, piece_cells, kind_number, first_word, second_word};
ghost use Rattle.uu_rows.specs.Values.{NotIf, number_cell};
ghost use Rattle.uu_core.specs.WellFormed.{HasWords};
ghost use Rattle.uu_rows.specs.Readable.{IsTypedSystem, IsTypedHead, IsTypedBody, IsTypedSize, IsTypedEntry, IsTypedLink, IsTypedTaken, IsTypedBare, IsTypedLine, IsTypedRange, IsTypedWait, IsTypedPiece, size_cells};

use crate::definition::definition_in;
use crate::fault::RowFault;
use crate::reading::TypedRow;
use crate::values::{
    arguments_in, bytes_in, grade_in, mark_in, name_in, number_in, number_or_null_in, seconds_in,
    word_in, word_or_null_in,
};
use sqlite::Row;
use std::alloc::Global;
use uu_core::{JobHead, Kind, Taken};
use uu_names::Listed;
use uu_tables::{
    BareSystem, Body, BodySize, CallColumns, EXECUTE, EntryColumns, LineColumns, LinkColumns,
    Piece, REQUEST, RangeColumns, SEND, SystemColumns, TakenColumns, WaitColumns,
};

/// The row, if it has this many columns.
pub fn has_width(row: &Row, width: usize) -> Result<(), RowFault>
    ensures width { IfOk result (λ _. length row.now ≡ width) }
    ensures bad { NotIf result (length row.now ≡ width) }
    ensures no_memory { result ≢ Err RowFault.Memory }
{
    if row.column_count() == width {
        Ok(())
    } else {
        Err(RowFault::Bad)
    }
}

impl TypedRow for SystemColumns {
    ghost cells = { system_cells };

    ghost IsReadable = { IsTypedSystem };

    fn read(alloc: Global, row: &Row) -> Result<SystemColumns, RowFault> {
        has_width(row, 7)?;
        Ok(SystemColumns {
            def: definition_in(alloc, row)?,
            call: CallColumns {
                last: number_in(row, 2)?,
                failures: number_in(row, 3)?,
                wait: number_in(row, 4)?,
                outcome: number_in(row, 5)?,
                why: word_or_null_in(alloc, row, 6)?,
            },
        })
    }
}

impl TypedRow for BareSystem {
    ghost cells = { bare_cells };

    ghost IsReadable = { IsTypedBare };

    fn read(alloc: Global, row: &Row) -> Result<BareSystem, RowFault> {
        has_width(row, 7)?;
        Ok(BareSystem {
            name: name_in(alloc, row, 0)?,
            max_retries: number_in(row, 1)?,
            call: CallColumns {
                last: number_in(row, 2)?,
                failures: number_in(row, 3)?,
                wait: number_in(row, 4)?,
                outcome: number_in(row, 5)?,
                why: word_or_null_in(alloc, row, 6)?,
            },
        })
    }
}

impl TypedRow for LineColumns {
    ghost cells = { line_cells };

    ghost IsReadable = { IsTypedLine };

    fn read(alloc: Global, row: &Row) -> Result<LineColumns, RowFault> {
        has_width(row, 4)?;
        Ok(LineColumns {
            system: name_in(alloc, row, 0)?,
            place: number_in(row, 1)?,
            grade: grade_in(row, 2)?,
            retry: number_or_null_in(row, 3)?,
        })
    }
}

impl TypedRow for RangeColumns {
    ghost cells = { range_cells };

    ghost IsReadable = { IsTypedRange };

    fn read(alloc: Global, row: &Row) -> Result<RangeColumns, RowFault> {
        has_width(row, 4)?;
        Ok(RangeColumns {
            system: name_in(alloc, row, 0)?,
            place: number_in(row, 1)?,
            low: number_in(row, 2)?,
            high: number_in(row, 3)?,
        })
    }
}

impl TypedRow for Body {
    ghost cells = { body_cells };

    ghost IsReadable = { IsTypedBody };

    fn read(_alloc: Global, row: &Row) -> Result<Body, RowFault> {
        has_width(row, 2)?;
        Ok(Body {
            job: number_in(row, 0)?,
            bytes: Listed::from_vec(bytes_in(row, 1)?),
        })
    }
}

impl TypedRow for BodySize {
    ghost cells = { size_cells };

    ghost IsReadable = { IsTypedSize };

    fn read(_alloc: Global, row: &Row) -> Result<BodySize, RowFault> {
        has_width(row, 2)?;
        Ok(BodySize {
            job: number_in(row, 0)?,
            length: number_in(row, 1)?,
        })
    }
}

impl TypedRow for Piece {
    ghost cells = { piece_cells };

    ghost IsReadable = { IsTypedPiece };

    fn read(_alloc: Global, row: &Row) -> Result<Piece, RowFault> {
        has_width(row, 3)?;
        Ok(Piece {
            job: number_in(row, 0)?,
            place: number_in(row, 1)?,
            bytes: Listed::from_vec(bytes_in(row, 2)?),
        })
    }
}

impl TypedRow for EntryColumns {
    ghost cells = { entry_cells };

    ghost IsReadable = { IsTypedEntry };

    fn read(alloc: Global, row: &Row) -> Result<EntryColumns, RowFault> {
        has_width(row, 2)?;
        Ok(EntryColumns {
            host: name_in(alloc, row, 0)?,
            bytes: Listed::from_vec(bytes_in(row, 1)?),
        })
    }
}

impl TypedRow for WaitColumns {
    ghost cells = { wait_cells };

    ghost IsReadable = { IsTypedWait };

    fn read(alloc: Global, row: &Row) -> Result<WaitColumns, RowFault> {
        has_width(row, 2)?;
        Ok(WaitColumns {
            system: name_in(alloc, row, 0)?,
            wait: number_in(row, 1)?,
        })
    }
}

impl TypedRow for LinkColumns {
    ghost cells = { link_cells };

    ghost IsReadable = { IsTypedLink };

    fn read(alloc: Global, row: &Row) -> Result<LinkColumns, RowFault> {
        has_width(row, 2)?;
        Ok(LinkColumns {
            system: name_in(alloc, row, 0)?,
            below: number_in(row, 1)?,
        })
    }
}

impl TypedRow for TakenColumns {
    ghost cells = { taken_cells };

    ghost IsReadable = { IsTypedTaken };

    fn read(alloc: Global, row: &Row) -> Result<TakenColumns, RowFault> {
        has_width(row, 4)?;
        Ok(TakenColumns {
            system: name_in(alloc, row, 0)?,
            taken: Taken {
                number: number_in(row, 1)?,
                mark: mark_in(row, 2)?,
                job: number_in(row, 3)?,
            },
        })
    }
}

// What the job is for.
fn kind_in(alloc: Global, row: &Row) -> Result<Kind, RowFault>
    ensures number { IfOk result (λ kind. column row.now 4 ≡ number_cell (kind_number kind)) }
    ensures first { IfOk result (λ kind. column row.now 6 ≡ Text (first_word kind)) }
    ensures second { IfOk result (λ kind. column row.now 7 ≡ Text (second_word kind)) }
    ensures words { IfOk result HasWords }
    ensures bad { (kind : _) → HasWords kind → column row.now 4 ≡ number_cell (kind_number kind) → column row.now 6 ≡ Text (first_word kind) → NotIf result (column row.now 7 ≡ Text (second_word kind)) }
{
    let number = number_in(row, 4)?;
    let first = word_in(alloc, row, 6)?;
    match number {
        SEND => Ok(Kind::Send {
            source: first,
            target: word_in(alloc, row, 7)?,
        }),
        REQUEST => Ok(Kind::Request {
            source: first,
            target: word_in(alloc, row, 7)?,
        }),
        EXECUTE => Ok(Kind::Execute {
            command: first,
            arguments: arguments_in(alloc, row, 7)?,
        }),
        _ => Err(RowFault::Bad),
    }
}

impl TypedRow for JobHead {
    ghost cells = { job_cells };

    ghost IsReadable = { IsTypedHead };

    fn read(alloc: Global, row: &Row) -> Result<JobHead, RowFault> {
        has_width(row, 9)?;
        Ok(JobHead {
            number: number_in(row, 0)?,
            system: name_in(alloc, row, 1)?,
            grade: grade_in(row, 2)?,
            user: word_in(alloc, row, 3)?,
            kind: kind_in(alloc, row)?,
            queued: seconds_in(row, 5)?,
            size: number_in(row, 8)?,
        })
    }
}
