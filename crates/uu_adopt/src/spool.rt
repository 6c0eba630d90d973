// The one row of the table `spool`.
ghost use Rattle.std.specs.Prelude.{◌≡◌, ◌≢◌, ℕ, [], ◌∷◌, IfOk, IfErr, MatchOption};
ghost use Rattle.sqlite.specs.declared.error.Error.TheVariants.{SqliteFailure};
ghost use Rattle.sqlite.specs.declared.error.ErrorCode.TheVariants.{OutOfMemory};
ghost use Rattle.sqlite.specs.Held.{state};
ghost use Rattle.sqlite.specs.State.{HasCleanDisk};
ghost use Rattle.uu_rows.specs.Shows.{IsQueryError};
ghost use Rattle.uu_adopt.specs.Texts.{spool_text};
ghost use Rattle.uu_schema.specs.Made.{version_number};
ghost use Rattle.uu_rows.specs.Values.{NotIf};
ghost use Rattle.uu_rows.specs.Readable.{IsSmall};
ghost use Rattle.uu_adopt.specs.Reading.{FindsNext, ReadsFrom, spool_cells};

use sqlite::{Alter, Connection, Error, Row};
use uu_rows::{RowFault, ask, has_width, number_in, or_none};
use uu_schema::Version;

// The number by which a row names a version.
fn number_of(version: Version) -> u32
    ensures { result ≡ version_number version }
{
    match version {
        Version::First => 1,
        Version::Second => 2,
        Version::Third => 3,
        Version::Fourth => 4,
    }
}

// The next number, from the one row.
fn next_in_row(rows: &[Row], wanted: Version) -> Result<u32, RowFault>
    ensures row { IfOk result (λ next. rows.now ≡ spool_cells wanted next ∷ []) }
    ensures bad { (next : ℕ) → IsSmall next → NotIf result (rows.now ≡ spool_cells wanted next ∷ []) }
{
    let [row] = rows else {
        return Err(RowFault::Bad);
    };
    has_width(row, 3)?;
    let id = number_in(row, 0)?;
    let version = number_in(row, 1)?;
    let next = number_in(row, 2)?;
    if id == 1 && version == number_of(wanted) {
        Ok(next)
    } else {
        Err(RowFault::Bad)
    }
}

// The same. Out of memory is an error, and `None` means anything except this one row.
fn found_next(rows: &[Row], wanted: Version) -> Result<Option<u32>, Error>
    ensures found { IfOk result (λ found. MatchOption found ((next : ℕ) → IsSmall next → rows.now ≢ spool_cells wanted next ∷ []) (λ next. rows.now ≡ spool_cells wanted next ∷ [])) }
    ensures memory { IfErr result (λ error. error ≡ SqliteFailure OutOfMemory) }
{
    or_none(next_in_row(rows, wanted))
}

/// The next number, from the one row of the table `spool`. `None` unless the table has exactly one
/// row, with this version and a number of 32 bits.
pub(crate) fn read_next<S: Alter>(
    conn: &mut Connection<S>,
    version: Version,
) -> Result<Option<u32>, Error>
    ensures reads { ReadsFrom S.Store version (FindsNext version) conn.old conn.new result }
    ensures refused { HasCleanDisk (state S.Store conn.new) → IfErr result (IsQueryError spool_text [] (state S.Store conn.old) (state S.Store conn.new)) }
{
    let rows = ask(conn, "SELECT id, version, next FROM spool")?;
    found_next(&rows, version)
}
