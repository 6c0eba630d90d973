// From simple strings to the runs of their minutes.
ghost use Rattle.std.specs.Prelude.{◌≡◌, ◌≤◌, ◌<◌, ◌++◌, All, IfOk, IfSome, OnOk};
ghost use Rattle.uu_times.specs.Internal.Simples.{any_has};
ghost use Rattle.uu_times.specs.Ranges.{maximal_runs};
ghost use Rattle.uu_times.specs.Internal.Union.{IsDaily, day_ranges, ranges_on, days_ranges, week_ranges, merged};

use crate::Windows;
use crate::days::Simple;
use std::alloc::{AllocError, Global};

/// The minutes of simple strings.
pub fn windows_of(alloc: Global, simples: &[Simple]) -> Result<Windows, AllocError>
    requires { All IsDaily simples.now }
    ensures { IfOk result (λ windows. windows ≡ maximal_runs (any_has simples.now)) }
{
    let mut ranges = week_ranges(alloc, simples)?;
    ranges.sort_by_key(|range| range.0)?;
    Windows::from_runs(alloc, merged(alloc, &ranges)?)
}

// The ranges of simple strings, in the order of the text.
fn week_ranges(alloc: Global, simples: &[Simple]) -> Result<Vec<(u16, u16)>, AllocError>
    requires { All IsDaily simples.now }
    ensures { IfOk result (λ ranges. ranges.items ≡ week_ranges simples.now) }
{
    let mut ranges = Vec::with_capacity(alloc, 14)?;
    for simple in simples {
        push_simple(&mut ranges, simple)?;
    }
    Ok(ranges)
}

// Adds the ranges of a simple string.
#[tactic(auto, unfolding(crate::specs::Internal::Union::days_ranges))]
fn push_simple(ranges: &mut Vec<(u16, u16)>, simple: &Simple) -> Result<(), AllocError>
    requires { IsDaily simple.now }
    ensures { OnOk result (ranges.new.items ≡ ranges.old.items ++ days_ranges simple.now 7) }
{
    for day in 0..7u16 {
        push_day(ranges, simple, day)?;
    }
    Ok(())
}

// Adds the ranges of a simple string on a day.
fn push_day(ranges: &mut Vec<(u16, u16)>, simple: &Simple, day: u16) -> Result<(), AllocError>
    requires simple { IsDaily simple.now }
    requires day { day < 7 }
    ensures { OnOk result (ranges.new.items ≡ ranges.old.items ++ ranges_on simple.now day) }
{
    if simple.days.has(day) {
        push_hours(ranges, 1440 * day, simple.hours)?;
    }
    Ok(())
}

// Adds the hours of the day that begins at the minute of the week.
fn push_hours(
    ranges: &mut Vec<(u16, u16)>,
    first: u16,
    hours: Option<(u16, u16)>,
) -> Result<(), AllocError>
    requires first { first ≤ 8640 }
    requires hours { IfSome hours (λ h. (h.0 < 1440) × (h.1 < 1440)) }
    ensures { OnOk result (ranges.new.items ≡ ranges.old.items ++ day_ranges first hours) }
{
    let (start, end) = hours.unwrap_or((0, 1439));
    if start <= end {
        ranges.push((first + start, first + end))?;
    } else {
        ranges.extend_from_slice(&[(first, first + end), (first + start, first + 1439)])?;
    }
    Ok(())
}

// Sorted ranges, merged if no minute lies between them.
fn merged(alloc: Global, sorted: &[(u16, u16)]) -> Result<Vec<(u16, u16)>, AllocError>
    ensures { IfOk result (λ runs. runs.items ≡ merged sorted.now) }
{
    let mut runs = Vec::with_capacity(alloc, sorted.len().min(8))?;
    let [first, rest @ ..] = sorted else {
        return Ok(runs);
    };
    let mut run = *first;
    for range in rest {
        if range.0 as u32 <= run.1 as u32 + 1 {
            run = (run.0, run.1.max(range.1));
        } else {
            runs.push(run)?;
            run = *range;
        }
    }
    runs.push(run)?;
    Ok(runs)
}
