// Which systems may be called now, and for which grades.
ghost use Rattle.std.specs.Prelude.{◌≡◌, IfOk};
ghost use Rattle.std.specs.Ordering.{nat_cmp};
ghost use Rattle.std.specs.Cmp.Lexicographic.{slice_cmp};
ghost use Rattle.std.specs.BTreeMap.{get};
ghost use Rattle.uu_core.specs.Due.{limit_now, may_be_called};
ghost use Rattle.uu_questions.specs.Answers.{Asks};
ghost use Rattle.uu_questions.specs.Dues.{AreLimits};

use crate::systems::all_systems;
use sqlite::{Alter, Connection, Error};
use std::alloc::{AllocError, Global};
use std::collections::BTreeMap;
use uu_core::callable::lower;
use uu_core::{SystemRow, held, limit};
use uu_names::{Grade, SiteName};
use uu_times::Moment;

fn limit_now(row: &SystemRow, at: &Moment) -> Option<Grade>
    ensures { result ≡ limit_now row.now at.now }
{
    if held(&row.call, at) {
        None
    } else {
        limit(row.def.lines.as_slice(), at.week)
    }
}

// The lowest grade for which each system may be called now. A system that may not be called isn't
// in the map.
fn limits(
    alloc: Global,
    rows: &[SystemRow],
    at: &Moment,
) -> Result<BTreeMap<SiteName, Grade>, AllocError>
    ensures { IfOk result (λ limits. AreLimits (get (slice_cmp nat_cmp) limits) (may_be_called rows.now at.now)) }
{
    let mut limits = BTreeMap::new(alloc);
    for row in rows {
        if let Some(lowest) = limit_now(row, at) {
            lower(&mut limits, &row.def.name, lowest)?;
        }
    }
    Ok(limits)
}

/// The lowest grade for which each system may be called at this moment. A system that may not be
/// called isn't in the map.
pub(crate) fn callable<S: Alter>(
    alloc: Global,
    conn: &mut Connection<S>,
    at: &Moment,
) -> Result<BTreeMap<SiteName, Grade>, Error>
    ensures { Asks S.Store (λ s limits. AreLimits (get (slice_cmp nat_cmp) limits) (may_be_called s.systems at.now)) conn.old conn.new result }
{
    let rows = all_systems(alloc, conn)?;
    Ok(limits(alloc, &rows, at)?)
}
