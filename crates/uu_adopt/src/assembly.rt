// Systems assembled from the rows of four tables.
ghost use Rattle.std.specs.Prelude.{◌≡◌, ◌≤◌, Bool, map, IfOk, length};
ghost use Rattle.std.specs.List.{prefix_len};
ghost use Rattle.uu_adopt.specs.Assembly.{is_line_of, is_range_of, is_wait_of, is_range_of_line, own_rows, rows_behind, range_of, lines_from, wait_from, definition_from, system_from, systems_from};

use std::alloc::Global;
use uu_names::Listed;
use uu_rows::RowFault;
use uu_tables::{BareSystem, LineColumns, RangeColumns, SystemColumns, WaitColumns};
use uu_times::{Line, SystemDef, Windows};

/// A row to which rows of another table belong.
pub(crate) trait Owner<C> {
    ghost owns: { Self → C → Bool };

    /// Whether the row belongs to this one.
    fn owns(&self, child: &C) -> bool
        ensures { result ≡ owns self.now child.now };
}

impl Owner<LineColumns> for BareSystem {
    ghost owns = { is_line_of };

    fn owns(&self, child: &LineColumns) -> bool {
        child.system == self.name
    }
}

impl Owner<RangeColumns> for BareSystem {
    ghost owns = { is_range_of };

    fn owns(&self, child: &RangeColumns) -> bool {
        child.system == self.name
    }
}

impl Owner<WaitColumns> for BareSystem {
    ghost owns = { is_wait_of };

    fn owns(&self, child: &WaitColumns) -> bool {
        child.system == self.name
    }
}

impl Owner<RangeColumns> for LineColumns {
    ghost owns = { is_range_of_line };

    fn owns(&self, child: &RangeColumns) -> bool {
        child.system == self.system && child.place == self.place
    }
}

// How many rows at the beginning belong to the owner.
fn count_own<P: Owner<C>, C>(owner: &P, children: &[C]) -> usize
    ensures within { result ≤ length children.now }
    ensures count { result ≡ prefix_len (P.owns owner.now) children.now }
{
    let mut count = 0;
    for child in children {
        if !owner.owns(child) {
            return count;
        }
        count += 1;
    }
    count
}

// The rows at the beginning that belong to the owner, and the rest.
pub(crate) fn split_own<'a, P: Owner<C>, C>(owner: &P, children: &'a [C]) -> (&'a [C], &'a [C])
    ensures own { result.0.now ≡ own_rows P.owns owner.now children.now }
    ensures others { result.1.now ≡ rows_behind P.owns owner.now children.now }
{
    children.split_at(count_own(owner, children))
}

fn minute_of(minute: u32) -> Result<u16, RowFault>
    ensures { IfOk result (λ week. week ≡ minute) }
{
    u16::try_from(minute).map_err(|_| RowFault::Bad)
}

// The set of minutes with these ranges.
fn windows_of(alloc: Global, ranges: &[RangeColumns]) -> Result<Windows, RowFault>
    ensures { IfOk result (λ windows. windows ≡ map range_of ranges.now) }
{
    let mut runs = Vec::new(alloc);
    for range in ranges {
        runs.push((minute_of(range.low)?, minute_of(range.high)?))?;
    }
    Windows::from_ranges(alloc, &runs)?.ok_or(RowFault::Bad)
}

fn lines_of(
    alloc: Global,
    lines: &[LineColumns],
    ranges: &[RangeColumns],
) -> Result<Listed<Line>, RowFault>
    ensures { IfOk result (λ made. made ≡ lines_from lines.now ranges.now) }
{
    let mut made = Vec::new(alloc);
    let mut rest = ranges;
    for line in lines {
        let (own, others) = split_own(line, rest);
        made.push(Line {
            grade: line.grade,
            windows: windows_of(alloc, own)?,
            retry: line.retry,
        })?;
        rest = others;
    }
    Ok(Listed::from_vec(made))
}

// The seconds of the first row, or 0 if there is none.
fn wait_of(waits: &[WaitColumns]) -> u32
    ensures { result ≡ wait_from waits.now }
{
    match waits.first() {
        Some(wait) => wait.wait,
        None => 0,
    }
}

fn definition_of(
    alloc: Global,
    system: &BareSystem,
    lines: &[LineColumns],
    ranges: &[RangeColumns],
    wait: u32,
) -> Result<SystemDef, RowFault>
    ensures { IfOk result (λ def. def ≡ definition_from system.now lines.now ranges.now wait) }
{
    let lines = lines_of(alloc, lines, ranges)?;
    let name = system.name.clone()?;
    SystemDef::new(name, lines, system.max_retries, wait).ok_or(RowFault::Bad)
}

fn system_of(
    alloc: Global,
    system: &BareSystem,
    lines: &[LineColumns],
    ranges: &[RangeColumns],
    wait: u32,
) -> Result<SystemColumns, RowFault>
    ensures { IfOk result (λ made. made ≡ system_from system.now lines.now ranges.now wait) }
{
    let def = definition_of(alloc, system, lines, ranges, wait)?;
    let call = system.call.copied()?;
    Ok(SystemColumns { def, call })
}

/// The systems with these rows: their own, those of their lines, of the ranges of these, and of
/// their success waits, each list in the order of its key.
pub(crate) fn systems_of(
    alloc: Global,
    systems: &[BareSystem],
    lines: &[LineColumns],
    ranges: &[RangeColumns],
    waits: &[WaitColumns],
) -> Result<Vec<SystemColumns>, RowFault>
    ensures { IfOk result (λ made. made.items ≡ systems_from systems.now lines.now ranges.now waits.now) }
{
    let mut made = Vec::new(alloc);
    let mut lines = lines;
    let mut ranges = ranges;
    let mut waits = waits;
    for system in systems {
        let (own_lines, other_lines) = split_own(system, lines);
        let (own_ranges, other_ranges) = split_own(system, ranges);
        let (own_waits, other_waits) = split_own(system, waits);
        let wait = wait_of(own_waits);
        made.push(system_of(alloc, system, own_lines, own_ranges, wait)?)?;
        lines = other_lines;
        ranges = other_ranges;
        waits = other_waits;
    }
    Ok(made)
}
