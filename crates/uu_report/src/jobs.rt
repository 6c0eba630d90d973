//! The report of jobs.

ghost use Rattle.std.specs.Prelude.{◌≡◌, ◌≤◌, ℕ, List, ◌∷◌, ◌++◌, IfOk, OnOk, All, codes, encode_utf8};
ghost use Rattle.std.specs.String.{string_bytes};
ghost use Rattle.uu_report.specs.Reports.{IsJobLine, IsJobsReport, grade_text, spaced, work_text};

use crate::clock::moment_text;
use std::alloc::{AllocError, Global};
use uu_core::{JobHead, Kind};
use uu_names::{Grade, Word};
use uu_times::Zone;
use uu_times::moment::LAST_SECOND;

/// The report of these jobs, in their order, a line for each:
/// `NUMBER SYSTEM USER GRADE MOMENT SIZE KIND WORDS`. The moment is the site's local time, as
/// `yyyy-mm-dd hh:mm:ss`.
pub fn jobs_report(alloc: Global, jobs: &[JobHead], zone: &Zone) -> Result<Vec<u8>, AllocError>
    requires seconds { All (λ job. job.queued ≤ LAST_SECOND) jobs.now }
    ensures { IfOk result (λ report. IsJobsReport zone.now jobs.now report.items) }
{
    let mut report = String::new(alloc);
    for job in jobs {
        append_job(alloc, &mut report, job, zone)?;
    }
    Ok(report.into_bytes())
}

/// The line of one job.
pub fn job_line(alloc: Global, job: &JobHead, zone: &Zone) -> Result<String, AllocError>
    requires second { job.now.queued ≤ LAST_SECOND }
    ensures { IfOk result (λ line. IsJobLine zone.now job.now (string_bytes line)) }
{
    let mut line = String::new(alloc);
    append_job(alloc, &mut line, job, zone)?;
    Ok(line)
}

// Appends the line of one job.
fn append_job(
    alloc: Global,
    text: &mut String,
    job: &JobHead,
    zone: &Zone,
) -> Result<(), AllocError>
    requires second { job.now.queued ≤ LAST_SECOND }
    ensures { OnOk result ((line : List ℕ) × IsJobLine zone.now job.now line × (string_bytes text.new ≡ string_bytes text.old ++ line)) }
{
    let number = job.number;
    let system = job.system.as_str();
    let user = job.user.as_str();
    let grade = letter(job.grade);
    let moment = moment_text(alloc, job.queued, zone)?;
    let size = job.size;
    write!(text, "{number} {system} {user} {grade} {moment} {size} ")?;
    append_work(text, &job.kind)?;
    text.push_str("\n")?;
    Ok(())
}

/// The letter or digit of a grade.
pub(crate) fn letter(grade: Grade) -> char
    ensures { encode_utf8 result ≡ grade_text grade }
{
    char::from(grade.as_byte())
}

// Appends what the job is for.
fn append_work(text: &mut String, kind: &Kind) -> Result<(), AllocError>
    ensures { OnOk result (string_bytes text.new ≡ string_bytes text.old ++ work_text kind.now) }
{
    match kind {
        Kind::Send { source, target } => {
            let source = source.as_str();
            let target = target.as_str();
            write!(text, "send {source} {target}")
        }
        Kind::Request { source, target } => {
            let source = source.as_str();
            let target = target.as_str();
            write!(text, "request {source} {target}")
        }
        Kind::Execute { command, arguments } => append_execution(
            text,
            command,
            arguments.as_slice(),
        ),
    }
}

// Appends the command with its arguments, each after one space.
fn append_execution(text: &mut String, command: &Word, arguments: &[Word]) -> Result<(), AllocError>
    ensures { OnOk result (string_bytes text.new ≡ string_bytes text.old ++ spaced (codes "exec" ∷ command.now ∷ arguments.now)) }
{
    let command = command.as_str();
    write!(text, "exec {command}")?;
    for argument in arguments {
        text.push_str(" ")?;
        text.push_str(argument.as_str())?;
    }
    Ok(())
}
