// Rows of a table as typed rows.
ghost use Rattle.std.specs.Prelude.{◌≡◌, ◌≢◌, List, Option, map, option_map, slice_get, IfOk, IfErr, IfSome};
ghost use Rattle.std.specs.List.{AllByRecursion};
ghost use Rattle.sqlite.specs.declared.error.Error.TheVariants.{SqliteFailure, QueryReturnedNoRows};
ghost use Rattle.sqlite.specs.declared.error.ErrorCode.TheVariants.{OutOfMemory};
ghost use Rattle.sqlite.specs.Order.{Row};
ghost use Rattle.uu_rows.specs.Values.{NotIf};

use crate::fault::{RowFault, or_error};
use sqlite::{Error, Row};
use std::alloc::Global;

/// A typed row of a table.
pub trait TypedRow: Drop {
    /// The columns of its row.
    ghost cells: { Self → Row };

    /// Its values are within the limits of their types, so its row can be read.
    ghost IsReadable: { Self → Type 0 };

    /// The typed row that has these columns.
    fn read(alloc: Global, row: &Row) -> Result<Self, RowFault>
        ensures row { IfOk result (λ typed. row.now ≡ cells typed) }
        ensures readable { IfOk result (λ typed. IsReadable typed) }
        ensures bad { (typed : Self) → IsReadable typed → NotIf result (row.now ≡ cells typed) };
}

/// The typed rows that have the columns of these rows, in their order.
pub fn read_all<T: TypedRow>(alloc: Global, rows: &[Row]) -> Result<Vec<T>, RowFault>
    ensures rows { IfOk result (λ all. rows.now ≡ map T.cells all.items) }
    ensures readable { IfOk result (λ all. AllByRecursion T.IsReadable all.items) }
    ensures bad { (all : List T) → AllByRecursion T.IsReadable all → NotIf result (rows.now ≡ map T.cells all) }
{
    let mut all = Vec::new(alloc);
    for row in rows {
        all.push(T::read(alloc, row)?)?;
    }
    Ok(all)
}

/// The same, but a row that the format doesn't allow is an error of the database.
pub fn read_rows<T: TypedRow>(alloc: Global, rows: &[Row]) -> Result<Vec<T>, Error>
    ensures rows { IfOk result (λ all. rows.now ≡ map T.cells all.items) }
    ensures readable { IfOk result (λ all. AllByRecursion T.IsReadable all.items) }

    // If the rows are typed rows, the only error is out of memory.
    ensures memory { (all : List T) → AllByRecursion T.IsReadable all → rows.now ≡ map T.cells all → IfErr result (λ error. error ≡ SqliteFailure OutOfMemory) }

    // Any other error is that of a row that the format doesn't allow.
    ensures bad { IfErr result (λ error. error ≢ SqliteFailure OutOfMemory → error ≡ QueryReturnedNoRows) }
{
    or_error(read_all(alloc, rows))
}

// The first of the rows as a typed row, if there is one.
fn read_first<T: TypedRow>(alloc: Global, rows: &[Row]) -> Result<Option<T>, RowFault>
    ensures row { IfOk result (λ found. option_map T.cells found ≡ slice_get rows.now 0) }
    ensures readable { IfOk result (λ found. IfSome found T.IsReadable) }
    ensures bad { (found : Option T) → IfSome found T.IsReadable → NotIf result (option_map T.cells found ≡ slice_get rows.now 0) }
{
    match rows.first() {
        None => Ok(None),
        Some(row) => Ok(Some(T::read(alloc, row)?)),
    }
}

/// The first of the rows as a typed row, if there is one. A row that the format doesn't allow is an
/// error of the database.
pub fn first_row<T: TypedRow>(alloc: Global, rows: &[Row]) -> Result<Option<T>, Error>
    ensures row { IfOk result (λ found. option_map T.cells found ≡ slice_get rows.now 0) }
    ensures readable { IfOk result (λ found. IfSome found T.IsReadable) }

    // If there is no row, or it is a typed row, the only error is out of memory.
    ensures memory { (found : Option T) → IfSome found T.IsReadable → option_map T.cells found ≡ slice_get rows.now 0 → IfErr result (λ error. error ≡ SqliteFailure OutOfMemory) }

    // Any other error is that of a row that the format doesn't allow.
    ensures bad { IfErr result (λ error. error ≢ SqliteFailure OutOfMemory → error ≡ QueryReturnedNoRows) }
{
    or_error(read_first(alloc, rows))
}
