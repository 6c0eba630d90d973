//! The moment of a line.

ghost use Rattle.std.specs.Prelude.{◌≡◌, IfOk, IfErr, OnOk};
ghost use Rattle.uu_times.specs.Moment.{IsPast};
ghost use Rattle.uuspool.specs.Served.{IsMomentOf};

use crate::fault::Fault;
use uu_settings::Settings;
use uu_times::{Moment, TimeFault};

/// The moment of this second, on the site's clock.
///
/// # Errors
/// `Time` exactly if the second is after the last one of a moment.
pub fn moment_of(second: u64, settings: &Settings) -> Result<Moment, Fault>
    ensures moment { IfOk result (IsMomentOf settings.now second) }
    ensures in_range { OnOk result (¬ IsPast second) }
    ensures past { IfErr result (λ fault. (fault ≡ Fault.Time TimeFault.MomentRange) × IsPast second) }
{
    Moment::new(second, &settings.zone).map_err(Fault::Time)
}
