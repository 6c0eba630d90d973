// The version that the table `spool` names.
ghost use Rattle.std.specs.Prelude.{◌≡◌, true, false, [], IfErr};
ghost use Rattle.sqlite.specs.Held.{state};
ghost use Rattle.uu_schema.specs.declared.version.Version.{Version};
ghost use Rattle.sqlite.specs.State.{HasCleanDisk};
ghost use Rattle.uu_rows.specs.Shows.{IsQueryError};
ghost use Rattle.uu_adopt.specs.Texts.{version_text};
ghost use Rattle.uu_adopt.specs.Version.{HasLater, ShowsLater, IsLater};
ghost use Rattle.uu_adopt.specs.Reading.{ReadsFrom, Tells};

use crate::integer::integer_in;
use sqlite::{Alter, Connection, Error, Row};
use uu_rows::ask;

/// The version of the tables that this program makes and reads.
const VERSION: i64 = 4;

// Whether the row shows a later version than ours.
fn is_later(row: &Row) -> bool
    ensures later { result ≡ true → ShowsLater row.now }
    ensures none { result ≡ false → ¬ ShowsLater row.now }
{
    match integer_in(row) {
        Some(version) => version.value > VERSION,
        None => false,
    }
}

// Whether a row of the answer names a later version than ours.
fn later_in(rows: &[Row]) -> bool
    ensures later { result ≡ true → HasLater rows.now }
    ensures none { result ≡ false → ¬ HasLater rows.now }
{
    for row in rows {
        if is_later(row) {
            return true;
        }
    }
    false
}

/// Whether the table `spool` names a later version than this program's. This question comes first,
/// because the other tables of a later version may differ.
pub(crate) fn names_later<S: Alter>(conn: &mut Connection<S>) -> Result<bool, Error>
    ensures reads { (v : Version) → ReadsFrom S.Store v (λ trees later. Tells later (IsLater trees) (¬ IsLater trees)) conn.old conn.new result }
    ensures refused { HasCleanDisk (state S.Store conn.new) → IfErr result (IsQueryError version_text [] (state S.Store conn.old) (state S.Store conn.new)) }
{
    let rows = ask(conn, "SELECT version FROM spool WHERE id = 1")?;
    Ok(later_in(&rows))
}
