// The minutes of the week that a site's clock shows.
ghost use Rattle.std.specs.Prelude.{◌≡◌, ◌+◌, ◌*◌, ◌<◌, ◌≤◌, ℕ, IfOk, slice_index, vec_len};
ghost use Rattle.uu_times.specs.Moment.{last_second};
ghost use Rattle.uu_core.specs.NextCalls.{week_at};

use std::alloc::{AllocError, Global};
use uu_times::{Moment, Zone};

/// The most minutes that are kept. These are the longest wait after a call, which is a year, the 28
/// days that are looked at after it, and 28 days before it, in case the clock was set back.
const MOST_KEPT: u64 = 40_320 + 525_600 + 40_320;

/// The minutes of the week at minutes of UTC, which are counted from 1970-01-01 00:00 on. The first
/// `MOST_KEPT` are computed once each. A later one is computed each time; it is looked at only if
/// the clock was set back by more than 28 days and no line was open within them.
#[derive(Drop)]
pub(crate) struct Weeks<'a> {
    /// The site's clock.
    pub(crate) zone: &'a Zone,
    /// The first minute.
    pub(crate) first: u64,
    weeks: Vec<u16>,
    ghost known: { (k : ℕ) → k < vec_len weeks → slice_index weeks.items k ≡ week_at zone.now (60 * (first + k)) },
}

impl<'a> Weeks<'a> {
    /// The minutes from this one on, before any of them is computed.
    pub(crate) fn from_minute(alloc: Global, zone: &'a Zone, first: u64) -> Weeks<'a>
        ensures zone { result.zone.now ≡ zone.now }
        ensures first { result.first ≡ first }
    {
        Weeks {
            zone,
            first,
            weeks: Vec::new(alloc),
        }
    }

    /// The minute of the week at a minute.
    pub(crate) fn at(&mut self, minute: u64) -> Result<u16, AllocError>
        requires from { self.old.first ≤ minute }
        requires in_range { 60 * minute ≤ last_second }
        ensures week { IfOk result (λ week. week ≡ week_at self.old.zone.now (60 * minute)) }
        ensures zone { self.new.zone ≡ self.old.zone }
        ensures first { self.new.first ≡ self.old.first }
    {
        if minute - self.first >= MOST_KEPT {
            return Ok(moment_at(60 * minute, self.zone).week);
        }
        let place = (minute - self.first) as usize;
        for known in self.weeks.len()..place + 1 {
            let at = moment_at(60 * (self.first + known as u64), self.zone);
            self.weeks.push(at.week)?;
        }
        Ok(self.weeks[place])
    }
}

/// The moment of a second.
pub(crate) fn moment_at(second: u64, zone: &Zone) -> Moment
    requires { second ≤ last_second }
    ensures second { result.second ≡ second }
    ensures week { result.week ≡ week_at zone.now second }
{
    Moment::new(second, zone).unwrap()
}
