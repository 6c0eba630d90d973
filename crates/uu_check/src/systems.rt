// Systems, their lines, and the ranges of these.
ghost use Rattle.std.specs.Prelude.{◌≡◌};
ghost use Rattle.uu_check.specs.Tests.{are_ranges, is_retry, owns_range, fits_line, is_outcome, is_call, are_placed, owns_line, fits_system, owns_wait, fits_wait, system_before};

use crate::walk::{Owner, Ranked};
use uu_core::limits::{MAX_FAILURES, MAX_WAIT};
use uu_names::laws::{grade_is_sound, name_is_sound, word_is_sound};
use uu_tables::{
    BareSystem, CALL_FAILED, CALL_MADE, LineColumns, NEVER_CALLED, RangeColumns, WaitColumns,
};
use uu_times::moment::LAST_SECOND;
use uu_times::system::{LINE_LIMIT, MAX_RETRIES_LIMIT, RETRY_LIMIT, SUCCESS_WAIT_LIMIT};
use uu_times::windows::WEEK;

fn are_ranges(ranges: &[RangeColumns]) -> bool
    ensures { result ≡ are_ranges 0 ranges.now }
{
    let mut start = 0;
    for range in ranges {
        if range.low < start || range.high < range.low || range.high >= u32::from(WEEK) {
            return false;
        }
        start = range.high + 2;
    }
    true
}

fn is_retry(retry: Option<u32>) -> bool
    ensures { result ≡ is_retry retry }
{
    match retry {
        None => true,
        Some(minutes) => 1 <= minutes && minutes <= RETRY_LIMIT,
    }
}

impl Owner<RangeColumns> for LineColumns {
    ghost owns = { owns_range };

    ghost fits = { fits_line };

    fn owns(&self, child: &RangeColumns) -> bool {
        self.system == child.system && self.place == child.place
    }

    fn fits(&self, children: &[RangeColumns]) -> bool {
        grade_is_sound(&self.grade);
        is_retry(self.retry) && are_ranges(children)
    }
}

fn is_outcome(cells: &BareSystem) -> bool
    ensures { result ≡ is_outcome cells.now.call.why cells.now.call.outcome cells.now.call.last cells.now.call.failures cells.now.call.wait }
{
    match &cells.call.why {
        None => {
            cells.call.outcome == CALL_MADE
                || cells.call.outcome == NEVER_CALLED
                    && cells.call.last == 0
                    && cells.call.failures == 0
                    && cells.call.wait == 0
        }
        Some(why) => {
            word_is_sound(why);
            cells.call.outcome == CALL_FAILED
        }
    }
}

pub(crate) fn is_call(cells: &BareSystem) -> bool
    ensures { result ≡ is_call cells.now }
{
    u64::from(cells.call.last) <= LAST_SECOND
        && cells.call.failures <= MAX_FAILURES
        && cells.call.wait <= MAX_WAIT
        && is_outcome(cells)
}

fn are_placed(lines: &[LineColumns]) -> bool
    ensures { result ≡ are_placed 0 lines.now }
{
    let mut place = 0;
    for line in lines {
        if line.place as usize != place {
            return false;
        }
        place += 1;
    }
    true
}

impl Owner<LineColumns> for BareSystem {
    ghost owns = { owns_line };

    ghost fits = { fits_system };

    fn owns(&self, child: &LineColumns) -> bool {
        self.name == child.system
    }

    fn fits(&self, children: &[LineColumns]) -> bool {
        name_is_sound(&self.name);
        self.max_retries <= MAX_RETRIES_LIMIT
            && is_call(self)
            && children.len() <= LINE_LIMIT
            && are_placed(children)
    }
}

impl Owner<WaitColumns> for BareSystem {
    ghost owns = { owns_wait };

    ghost fits = { fits_wait };

    fn owns(&self, child: &WaitColumns) -> bool {
        self.name == child.system
    }

    fn fits(&self, children: &[WaitColumns]) -> bool {
        match children {
            [] => true,
            [one] => 1 <= one.wait && one.wait <= SUCCESS_WAIT_LIMIT,
            _ => false,
        }
    }
}

impl Ranked for BareSystem {
    ghost before = { system_before };

    fn before(&self, other: &BareSystem) -> bool {
        self.name < other.name
    }
}
