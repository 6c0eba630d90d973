//! The clock of a site.
ghost use Rattle.std.specs.Prelude.{◌≡◌, ◌≤◌, ◌↔◌, ◌*ℤ◌, pos, ℕ, Some, IsNone, IfOk, IfErr};
ghost use Rattle.jiff_core.specs.DateTime.{civil_nanos};
ghost use Rattle.jiff_core.specs.Timestamp.{IsOffsetSeconds, nanos_of_seconds};
ghost use Rattle.uu_times.specs.Moment.{last_second, local_second, IsDateTimeAt};
ghost use Rattle.uu_times.specs.Zone.{IsFarOff, always, offset_at, zone_view, zone_of};

use crate::TimeFault;
use jiff_core::civil::DateTime;
use jiff_core::{Offset, Timestamp};
use jiff_tz::{Abbreviation, posix};

/// The most minutes that a fixed zone may be before or after UTC: a day less a minute.
pub const OFFSET_LIMIT: i32 = 1439;

/// The rule of a site's clock: how far it is ahead of UTC at each second.
#[derive(Clone, Copy, Debug, PartialEq, Eq)]
pub struct Zone {
    rule: posix::TimeZone,
}

impl Zone {
    /// The clock that is always so many minutes ahead of UTC.
    ///
    /// `OffsetRange` if the minutes aren't from -1439 to 1439.
    pub fn fixed(minutes: i32) -> Result<Zone, TimeFault>
        ensures value { IfOk result (λ zone. zone_view zone ≡ always minutes) }
        ensures offset { IfOk result (λ zone. (second : ℕ) → offset_at zone second ≡ pos 60 *ℤ minutes) }
        ensures refused { (result ≡ Err TimeFault.OffsetRange) ↔ IsFarOff minutes }
        ensures only { IfErr result (λ fault. fault ≡ TimeFault.OffsetRange) }
    {
        if minutes < -OFFSET_LIMIT || minutes > OFFSET_LIMIT {
            return Err(TimeFault::OffsetRange);
        }
        let offset = Offset::from_seconds(60 * minutes as i64).unwrap();
        Ok(Zone {
            rule: posix::TimeZone {
                std_abbrev: Abbreviation::from_offset(offset),
                std_offset: offset,
                dst: None,
            },
        })
    }

    /// The clock of a POSIX rule, as `EST5EDT,M3.2.0,M11.1.0`.
    ///
    /// `BadZone` if the text isn't such a rule.
    pub fn posix(text: &str) -> Result<Zone, TimeFault>
        ensures value { IfOk result (λ zone. zone_of text.now ≡ Some (zone_view zone)) }
        ensures refused { (result ≡ Err TimeFault.BadZone) ↔ IsNone (zone_of text.now) }
        ensures only { IfErr result (λ fault. fault ≡ TimeFault.BadZone) }
    {
        match posix::TimeZone::parse(text.as_bytes()) {
            Ok(rule) => Ok(Zone { rule }),
            Err(_) => Err(TimeFault::BadZone),
        }
    }

    /// The seconds that the clock is ahead of UTC at a UTC second.
    pub fn offset_at(&self, second: u64) -> i32
        requires { second ≤ last_second }
        ensures value { result ≡ offset_at self.now second }
        ensures in_range { IsOffsetSeconds result }
    {
        self.offset(second).seconds
    }

    /// What the clock shows at a UTC second.
    pub fn local_time(&self, second: u64) -> DateTime
        requires { second ≤ last_second }
        ensures value { civil_nanos result ≡ nanos_of_seconds (local_second self.now second) }
        ensures shows { IsDateTimeAt result (local_second self.now second) }
    {
        self.offset(second).to_datetime(instant(second))
    }

    // How far the clock is ahead of UTC at a UTC second.
    fn offset(&self, second: u64) -> Offset
        requires { second ≤ last_second }
        ensures { result.seconds ≡ offset_at self.now second }
    {
        self.rule.to_offset(instant(second))
    }
}

// The instant of a UTC second.
fn instant(second: u64) -> Timestamp
    requires { second ≤ last_second }
    ensures { result.nanosecond ≡ nanos_of_seconds (pos second) }
{
    Timestamp::from_nanosecond(second as i128 * 1_000_000_000).unwrap()
}
