//! Sets of week minutes.
ghost use Rattle.std.specs.Prelude.{◌≡◌, ◌↔◌, IfOk, IsNone, IfSome, IsTrue, []};
ghost use Rattle.uu_times.specs.Ranges.{holds, AreSeparateRanges, maximal_runs};

use std::alloc::{AllocError, Global};
use std::marker::Model;
use std::rc::Rc;

/// The minutes in a week. Minute 0 is Sunday 00:00, local.
pub const WEEK: u16 = 10_080;

/// A set of week minutes: those at which a time string allows a call. Minute 0 is Sunday 00:00,
/// local.
///
/// It is kept as its maximal runs in order, each with its first and its last minute. Between two
/// runs at least one minute isn't in the set. Systems share the runs of a timetable of their file.
#[derive(Debug, Drop)]
pub struct Windows {
    runs: Rc<Vec<(u16, u16)>>,
}

impl Model for Windows {
    ghost use Rattle.std.specs.Prelude.{List, ℕ};
    ghost use Rattle.uu_times.specs.Ranges.{AreSeparateRanges};

    ghost Value = { List (ℕ × ℕ) };

    ghost view = { λ w. w.runs.value.items };

    ghost invariant = { λ w. AreSeparateRanges w.runs.value.items };
}

impl Windows {
    /// Whether the minute of the week is in the set.
    pub fn contains(&self, week: u16) -> bool
        ensures { result ≡ holds self.now week }
    {
        self.runs
            .as_ref()
            .iter()
            .any(|run| run.0 <= week && week <= run.1)
    }

    /// The maximal runs of the set: the first and the last minute of each, in order.
    pub fn ranges(&self) -> &[(u16, u16)]
        ensures value { result.now ≡ self.now }
        ensures separate { AreSeparateRanges self.now }
        ensures maximal { result.now ≡ maximal_runs (holds self.now) }
    {
        self.runs.as_ref().as_slice()
    }

    /// The set of these maximal runs, or `None` if the list isn't of that form or exceeds the
    /// minute 10,079.
    pub fn from_ranges(alloc: Global, ranges: &[(u16, u16)]) -> Result<Option<Windows>, AllocError>
        ensures refused { IfOk result (λ windows. IsNone windows ↔ (¬ AreSeparateRanges ranges.now)) }
        ensures value { IfOk result (λ windows. IfSome windows (λ w. w ≡ ranges.now)) }
    {
        if !are_runs(ranges) {
            return Ok(None);
        }
        let runs = Rc::new(alloc, ranges.to_vec(alloc)?)?;
        Ok(Some(Windows { runs }))
    }
}

impl Windows {
    /// The set of these runs.
    pub(crate) fn from_runs(alloc: Global, runs: Vec<(u16, u16)>) -> Result<Windows, AllocError>
        requires { AreSeparateRanges runs.items }
        ensures { IfOk result (λ windows. windows ≡ runs.items) }
    {
        let runs = Rc::new(alloc, runs)?;
        Ok(Windows { runs })
    }

    /// No minute.
    pub(crate) fn never(alloc: Global) -> Result<Windows, AllocError>
        ensures { IfOk result (λ windows. windows ≡ []) }
    {
        Windows::from_runs(alloc, Vec::new(alloc))
    }
}

impl Clone for Windows {
    ghost use Rattle.std.specs.Prelude.{◌≡◌};

    ghost is_clone = { λ windows copy. copy ≡ windows };

    /// The same set, which shares the runs.
    fn clone(&self) -> Result<Windows, AllocError> {
        let runs = self.runs.clone()?;
        Ok(Windows { runs })
    }
}

// Whether the ranges are in order, within the week and apart.
fn are_runs(ranges: &[(u16, u16)]) -> bool
    ensures { IsTrue result ↔ AreSeparateRanges ranges.now }
{
    let mut start = 0;
    for (low, high) in ranges {
        if *low < start || *high < *low || *high >= WEEK {
            return false;
        }
        start = *high + 2;
    }
    true
}
