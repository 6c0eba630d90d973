//! The report of what is due.

ghost use Rattle.std.specs.Prelude.{◌≡◌, IfOk};
ghost use Rattle.std.specs.List.{flat_map};
ghost use Rattle.std.specs.String.{string_bytes};
ghost use Rattle.uu_report.specs.Reports.{due_text};

use crate::jobs::letter;
use std::alloc::{AllocError, Global};
use uu_core::Due;

/// The report of these systems, in their order, a line for each: `SYSTEM GRADE NUMBER`.
pub fn due_report(alloc: Global, dues: &[Due]) -> Result<Vec<u8>, AllocError>
    ensures { IfOk result (λ report. report.items ≡ flat_map due_text dues.now) }
{
    let mut report = Vec::new(alloc);
    for due in dues {
        let line = due_line(alloc, due)?;
        report.extend_from_slice(line.as_bytes())?;
    }
    Ok(report)
}

// The line of one system.
fn due_line(alloc: Global, due: &Due) -> Result<String, AllocError>
    ensures { IfOk result (λ line. string_bytes line ≡ due_text due.now) }
{
    let system = due.system.as_str();
    let grade = letter(due.grade);
    let number = due.number;
    format!(in alloc; "{system} {grade} {number}\n")
}
