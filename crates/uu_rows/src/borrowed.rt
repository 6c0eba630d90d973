// The rows of jobs, with names and words that are borrowed from them.
ghost use Rattle.std.specs.Prelude.{◌≡◌, ℕ, List, IfOk, IsTrue, map};
ghost use Rattle.std.specs.List.{AllByRecursion};
ghost use Rattle.sqlite.specs.Order.{column};
ghost use Rattle.sqlite.specs.declared.types.Value.TheVariants.{Text};
ghost use Rattle.uu_core.specs.declared.job.JobHead.{JobHead};
ghost use Rattle.uu_core.specs.WellFormed.{HasWords};
ghost use Rattle.uu_names.specs.Name.{is_site_name, is_word};
ghost use Rattle.uu_schema.specs.Cells.{job_cells, kind_number, first_word, second_word};
ghost use Rattle.uu_tables.specs.Heads as heads;
ghost use Rattle.uu_rows.specs.Readable.{IsTypedHead};
ghost use Rattle.uu_rows.specs.Values.{NotIf, number_cell};

use crate::fault::RowFault;
use crate::rows::has_width;
use crate::values::{arguments_in, bytes_of_text_in, grade_in, number_in, seconds_in};
use sqlite::Row;
use std::alloc::Global;
use uu_names::{is_site_name, is_word};
use uu_tables::{EXECUTE, HeadColumns, KindColumns, REQUEST, SEND};

// The site name in this column.
fn name_in<'a>(row: &'a Row, at: usize) -> Result<&'a [u8], RowFault>
    ensures value { IfOk result (λ name. column row.now at ≡ Text name.now) }
    ensures name { IfOk result (λ name. IsTrue (is_site_name name.now)) }
    ensures bad { (t : List ℕ) → IsTrue (is_site_name t) → NotIf result (column row.now at ≡ Text t) }
{
    let bytes = bytes_of_text_in(row, at)?;
    if is_site_name(bytes) {
        Ok(bytes)
    } else {
        Err(RowFault::Bad)
    }
}

// The word in this column.
fn word_in<'a>(row: &'a Row, at: usize) -> Result<&'a [u8], RowFault>
    ensures value { IfOk result (λ word. column row.now at ≡ Text word.now) }
    ensures word { IfOk result (λ word. IsTrue (is_word word.now)) }
    ensures bad { (t : List ℕ) → IsTrue (is_word t) → NotIf result (column row.now at ≡ Text t) }
{
    let bytes = bytes_of_text_in(row, at)?;
    if is_word(bytes) {
        Ok(bytes)
    } else {
        Err(RowFault::Bad)
    }
}

// What the job is for.
fn kind_in<'a>(alloc: Global, row: &'a Row) -> Result<KindColumns<'a>, RowFault>
    ensures number { IfOk result (λ kind. column row.now 4 ≡ number_cell (kind_number (heads.kind_in kind))) }
    ensures first { IfOk result (λ kind. column row.now 6 ≡ Text (first_word (heads.kind_in kind))) }
    ensures second { IfOk result (λ kind. column row.now 7 ≡ Text (second_word (heads.kind_in kind))) }
    ensures words { IfOk result (λ kind. HasWords (heads.kind_in kind)) }
    ensures bad { (kind : _) → HasWords kind → column row.now 4 ≡ number_cell (kind_number kind) → column row.now 6 ≡ Text (first_word kind) → NotIf result (column row.now 7 ≡ Text (second_word kind)) }
{
    let number = number_in(row, 4)?;
    let first = word_in(row, 6)?;
    match number {
        SEND => Ok(KindColumns::Send {
            source: first,
            target: word_in(row, 7)?,
        }),
        REQUEST => Ok(KindColumns::Request {
            source: first,
            target: word_in(row, 7)?,
        }),
        EXECUTE => Ok(KindColumns::Execute {
            command: first,
            arguments: arguments_in(alloc, row, 7)?,
        }),
        _ => Err(RowFault::Bad),
    }
}

// The head that has these columns.
fn head_in<'a>(alloc: Global, row: &'a Row) -> Result<HeadColumns<'a>, RowFault>
    ensures row { IfOk result (λ head. row.now ≡ job_cells head) }
    ensures readable { IfOk result IsTypedHead }
    ensures bad { (head : JobHead) → IsTypedHead head → NotIf result (row.now ≡ job_cells head) }
{
    has_width(row, 9)?;
    Ok(HeadColumns {
        number: number_in(row, 0)?,
        system: name_in(row, 1)?,
        grade: grade_in(row, 2)?,
        user: word_in(row, 3)?,
        kind: kind_in(alloc, row)?,
        queued: seconds_in(row, 5)?,
        size: number_in(row, 8)?,
    })
}

/// The heads that have the columns of these rows, in their order.
pub fn read_heads<'a>(alloc: Global, rows: &'a [Row]) -> Result<Vec<HeadColumns<'a>>, RowFault>
    ensures rows { IfOk result (λ all. rows.now ≡ map job_cells all.items) }
    ensures readable { IfOk result (λ all. AllByRecursion IsTypedHead all.items) }
    ensures bad { (all : List JobHead) → AllByRecursion IsTypedHead all → NotIf result (rows.now ≡ map job_cells all) }
{
    let mut all = Vec::new(alloc);
    for row in rows {
        all.push(head_in(alloc, row)?)?;
    }
    Ok(all)
}
