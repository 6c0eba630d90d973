//! The lowest grade for which each system may be called, kept by name. A system that may not be
//! called isn't in the map.
ghost use Rattle.std.specs.Prelude.{◌≡◌, ◌&&◌, ◌||◌, ℕ, List, OnOk, nat_le, max};
ghost use Rattle.std.specs.Ordering.{nat_cmp};
ghost use Rattle.std.specs.Cmp.Lexicographic.{slice_cmp};
ghost use Rattle.std.specs.BTreeMap.{get};
ghost use Rattle.uu_core.specs.State.{same_text};
ghost use Rattle.uu_core.specs.Due.{is_within};

use std::alloc::AllocError;
use std::collections::BTreeMap;
use uu_names::{Grade, SiteName};

fn lower_of(grade: Grade, other: Grade) -> Grade
    ensures { result ≡ max grade other }
{
    grade.max(other)
}

/// The system may be called for this grade too, and for each higher one.
pub fn lower(
    limits: &mut BTreeMap<SiteName, Grade>,
    name: &SiteName,
    lowest: Grade,
) -> Result<(), AllocError>
    ensures { OnOk result ((other : List ℕ) (grade : ℕ) → is_within (get (slice_cmp nat_cmp) limits.new other) grade
        ≡ (is_within (get (slice_cmp nat_cmp) limits.old other) grade || (same_text name.now other && nat_le grade lowest))) }
{
    let lowest = match limits.get(name).copied() {
        Some(other) => lower_of(lowest, other),
        None => lowest,
    };
    limits.insert(name.clone()?, lowest)?;
    Ok(())
}

/// Whether the system may be called for this grade.
pub fn is_free(limits: &BTreeMap<SiteName, Grade>, name: &SiteName, grade: Grade) -> bool
    ensures { result ≡ is_within (get (slice_cmp nat_cmp) limits.now name.now) grade }
{
    match limits.get(name) {
        Some(lowest) => grade <= *lowest,
        None => false,
    }
}
