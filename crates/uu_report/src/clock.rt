//! The local time of a site at a second, as a text.

ghost use Rattle.std.specs.Prelude.{◌≤◌, IfOk};
ghost use Rattle.std.specs.String.{string_bytes};
ghost use Rattle.uu_report.specs.Reports.{IsMoment};

use jiff_fmt::temporal::DateTimePrinter;
use std::alloc::{AllocError, Global};
use uu_times::Zone;
use uu_times::moment::LAST_SECOND;

/// What the site's clock shows at a second, as `yyyy-mm-dd hh:mm:ss`.
#[tactic(auto, unfolding(crate::specs::Reports::clock_text))]
pub(crate) fn moment_text(alloc: Global, second: u64, zone: &Zone) -> Result<String, AllocError>
    requires { second ≤ LAST_SECOND }
    ensures { IfOk result (λ text. IsMoment zone.now second (string_bytes text)) }
{
    let local = zone.local_time(second);
    let text = DateTimePrinter::new().separator(b' ').datetime_text(local);
    String::from_str(alloc, text.as_str())
}
