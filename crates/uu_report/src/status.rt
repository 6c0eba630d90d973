//! The report of systems and how their calls went.

ghost use Rattle.std.specs.Prelude.{◌≤◌, IfOk, All};
ghost use Rattle.std.specs.String.{string_bytes};
ghost use Rattle.uu_report.specs.Reports.{IsCallText, IsSystemLine, IsStatusReport};

use crate::clock::moment_text;
use std::alloc::{AllocError, Global};
use uu_core::{CallState, Outcome, SystemRow};
use uu_times::Zone;
use uu_times::moment::LAST_SECOND;

/// The report of these systems, in their order, a line for each: `SYSTEM FAILURES WAIT STATE`. The
/// wait is in seconds. The state is `never`, `done MOMENT` or `failed MOMENT WHY`, the moment in
/// the site's local time.
pub fn status_report(
    alloc: Global,
    systems: &[SystemRow],
    zone: &Zone,
) -> Result<Vec<u8>, AllocError>
    requires seconds { All (λ row. row.call.last ≤ LAST_SECOND) systems.now }
    ensures { IfOk result (λ report. IsStatusReport zone.now systems.now report.items) }
{
    let mut report = Vec::new(alloc);
    for system in systems {
        let line = system_line(alloc, system, zone)?;
        report.extend_from_slice(line.as_bytes())?;
    }
    Ok(report)
}

fn system_line(alloc: Global, row: &SystemRow, zone: &Zone) -> Result<String, AllocError>
    requires second { row.now.call.last ≤ LAST_SECOND }
    ensures { IfOk result (λ line. IsSystemLine zone.now row.now (string_bytes line)) }
{
    let system = row.def.name.as_str();
    let failures = row.call.failures;
    let wait = row.call.wait;
    let state = call_text(alloc, &row.call, zone)?;
    format!(in alloc; "{system} {failures} {wait} {state}\n")
}

// How the last call went, and when.
fn call_text(alloc: Global, call: &CallState, zone: &Zone) -> Result<String, AllocError>
    requires second { call.now.last ≤ LAST_SECOND }
    ensures { IfOk result (λ text. IsCallText zone.now call.now (string_bytes text)) }
{
    let moment = moment_text(alloc, call.last, zone)?;
    match &call.outcome {
        Outcome::Never => String::from_str(alloc, "never"),
        Outcome::Done => format!(in alloc; "done {moment}"),
        Outcome::Failed(why) => {
            let why = why.as_str();
            format!(in alloc; "failed {moment} {why}")
        }
    }
}
