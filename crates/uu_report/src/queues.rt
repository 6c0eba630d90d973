//! The report of what waits for each system.

ghost use Rattle.std.specs.Prelude.{◌≤◌, IfOk, All};
ghost use Rattle.std.specs.String.{string_bytes};
ghost use Rattle.uu_report.specs.Reports.{IsQueueLine, IsQueuesReport};

use crate::clock::moment_text;
use crate::jobs::letter;
use std::alloc::{AllocError, Global};
use uu_core::Queue;
use uu_times::Zone;
use uu_times::moment::LAST_SECOND;

/// The report of these queues, in their order, a line for each: `SYSTEM JOBS BYTES GRADE MOMENT`.
/// It says how many jobs there are, the sum of their sizes, the highest grade, and the site's local
/// time when the oldest was queued.
pub fn queues_report(alloc: Global, queues: &[Queue], zone: &Zone) -> Result<Vec<u8>, AllocError>
    requires seconds { All (λ queue. queue.sums.oldest ≤ LAST_SECOND) queues.now }
    ensures { IfOk result (λ report. IsQueuesReport zone.now queues.now report.items) }
{
    let mut report = Vec::new(alloc);
    for queue in queues {
        let line = queue_line(alloc, queue, zone)?;
        report.extend_from_slice(line.as_bytes())?;
    }
    Ok(report)
}

// The line of one system.
fn queue_line(alloc: Global, queue: &Queue, zone: &Zone) -> Result<String, AllocError>
    requires second { queue.now.sums.oldest ≤ LAST_SECOND }
    ensures { IfOk result (λ line. IsQueueLine zone.now queue.now (string_bytes line)) }
{
    let system = queue.system.as_str();
    let jobs = queue.sums.jobs;
    let bytes = queue.sums.bytes;
    let grade = letter(queue.sums.grade);
    let moment = moment_text(alloc, queue.sums.oldest, zone)?;
    format!(in alloc; "{system} {jobs} {bytes} {grade} {moment}\n")
}
