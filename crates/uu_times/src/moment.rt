//! A moment: an instant with the local time and the minute of the local week.
ghost use Rattle.std.specs.Prelude.{◌≡◌, ◌<◌, ◌≤◌, ◌↔◌, ◌+ℤ◌, IfOk, IfErr, pos};
ghost use Rattle.jiff_core.specs.Timestamp.{IsOffsetSeconds};
ghost use Rattle.uu_times.specs.Ranges.{week_minutes};
ghost use Rattle.uu_times.specs.Moment.{last_second, IsPast, local_second, week_minute, IsDateTimeAt};

use crate::windows::WEEK;
use crate::{TimeFault, Zone};
use jiff_core::civil::DateTime;

/// The last second that a moment may have, counted from 1970-01-01 00:00:00 UTC: the first
/// second of the year 2100.
pub const LAST_SECOND: u64 = 4_102_444_800;

/// The seconds of two days: no clock is as far behind UTC.
const TWO_DAYS: i64 = 172_800;

/// The first minute of a Tuesday, counted from Sunday 00:00 on.
const TUESDAY: u64 = 2880;

/// An instant as a site's clock shows it.
#[derive(Clone, Copy, Debug, PartialEq, Eq)]
pub struct Moment {
    /// UTC seconds from 1970-01-01 00:00:00 on.
    pub second: u64,
    /// The minute of the local week: 0 is Sunday 00:00, 10,079 Saturday 23:59.
    pub week: u16,
    /// The local date and time.
    pub local: DateTime,
    ghost in_range: { second ≤ last_second },
    ghost in_week: { week < week_minutes },
}

impl Moment {
    /// The moment of a second on a site's clock.
    ///
    /// `MomentRange` if the second is over 4,102,444,800.
    pub fn new(second: u64, zone: &Zone) -> Result<Moment, TimeFault>
        ensures second { IfOk result (λ moment. moment.second ≡ second) }
        ensures week { IfOk result (λ moment. pos moment.week ≡ week_minute (local_second zone.now second)) }
        ensures local { IfOk result (λ moment. IsDateTimeAt moment.local (local_second zone.now second)) }
        ensures refused { (result ≡ Err TimeFault.MomentRange) ↔ IsPast second }
        ensures only { IfErr result (λ fault. fault ≡ TimeFault.MomentRange) }
    {
        if second > LAST_SECOND {
            return Err(TimeFault::MomentRange);
        }
        Ok(Moment {
            second,
            week: week_minute(second, zone.offset_at(second)),
            local: zone.local_time(second),
        })
    }
}

// The minute of the week at a second, on a clock so many seconds ahead of UTC.
fn week_minute(second: u64, offset: i32) -> u16
    requires in_range { second ≤ last_second }
    requires offset { IsOffsetSeconds offset }
    ensures value { pos result ≡ week_minute (pos second +ℤ offset) }
    ensures in_week { result < week_minutes }
{
    // Counted from 1969-12-30, a Tuesday, because the clock may still show that day.
    let shown = (second as i64 + offset as i64 + TWO_DAYS) as u64;
    ((shown / 60 + TUESDAY) % WEEK as u64) as u16
}
