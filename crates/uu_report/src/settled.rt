//! The report of the jobs that a neighbour has, and of those that it refuses.

ghost use Rattle.std.specs.Prelude.{◌≡◌, ◌≤◌, ℕ, List, ◌∷◌, [], ◌++◌, IfOk, OnOk};
ghost use Rattle.std.specs.List.{flat_map};
ghost use Rattle.std.specs.String.{string_bytes};
ghost use Rattle.uu_report.specs.Internal.SettledLines.{AreBegun};
ghost use Rattle.uu_report.specs.Reports.{AreSettledLines, IsSettleReport, refused_line};

use std::alloc::{AllocError, Global};
use uu_bundle::Refused;
use uu_core::limits::MAX_DONE;
use uu_names::SiteName;

/// The report of the jobs of these numbers, which the system has, and then of those that it
/// refuses. First come `SYSTEM NUMBER ..`, at most 256 numbers on a line, and at least one line;
/// then `SYSTEM refused NUMBER NAME` for each of the others.
pub fn settle_report(
    alloc: Global,
    system: &SiteName,
    numbers: &[u32],
    refused: &[Refused],
) -> Result<Vec<u8>, AllocError>
    ensures { IfOk result (λ report. IsSettleReport system.now numbers.now refused.now report.items) }
{
    let mut report = settled_lines(alloc, system, numbers)?;
    append_refused(alloc, system, &mut report, refused)?;
    Ok(report)
}

// The lines of the jobs that the system has.
fn settled_lines(alloc: Global, system: &SiteName, numbers: &[u32]) -> Result<Vec<u8>, AllocError>
    ensures { IfOk result (λ report. AreSettledLines system.now numbers.now report.items) }
{
    let mut text = String::from_str(alloc, system.as_str())?;
    let mut count = 0;
    for number in numbers {
        count = append_number(&mut text, system, count, *number)?;
    }
    text.push_str("\n")?;
    Ok(text.into_bytes())
}

// Appends a number to the last line, which has this many, or to a new one if that is full. Returns
// how many the last line then has.
fn append_number(
    text: &mut String,
    system: &SiteName,
    count: usize,
    number: u32,
) -> Result<usize, AllocError>
    requires { count ≤ MAX_DONE }
    ensures { (numbers : List ℕ) → AreBegun system.now numbers count (string_bytes text.old)
        → IfOk result (λ more. AreBegun system.now (numbers ++ number ∷ []) more (string_bytes text.new)) }
{
    if count < MAX_DONE {
        write!(text, " {number}")?;
        Ok(count + 1)
    } else {
        let system = system.as_str();
        write!(text, "\n{system} {number}")?;
        Ok(1)
    }
}

// Appends a line for each job that the system refuses.
fn append_refused(
    alloc: Global,
    system: &SiteName,
    report: &mut Vec<u8>,
    refused: &[Refused],
) -> Result<(), AllocError>
    ensures { OnOk result (report.new.items ≡ report.old.items ++ flat_map (refused_line system.now) refused.now) }
{
    for job in refused {
        let line = line_of_refused(alloc, system, job)?;
        report.extend_from_slice(line.as_bytes())?;
    }
    Ok(())
}

// The line of one of them.
fn line_of_refused(alloc: Global, system: &SiteName, job: &Refused) -> Result<String, AllocError>
    ensures { IfOk result (λ line. string_bytes line ≡ refused_line system.now job.now) }
{
    let system = system.as_str();
    let number = job.number;
    let name = job.reason.name();
    format!(in alloc; "{system} refused {number} {name}\n")
}
