//! Reports: the lines that the program prints of the spool's contents.

ghost use Rattle.std.specs.Prelude.{◌≡◌, ◌≤◌, IfOk, IfErr, All};
ghost use Rattle.std.specs.List.{flat_map};
ghost use Rattle.uu_core.specs.NextCalls.{IsAhead, IsPollAhead};
ghost use Rattle.uu_report.specs.Reports.{IsJobsReport, IsNextCallsReport, IsNextPollsReport, IsQueuesReport, IsStatusReport, due_text, links_text};

use crate::fault::Fault;
use std::alloc::Global;
use uu_core::{Due, JobHead, NextCall, NextPoll, Queue, SystemRow};
use uu_map::Entry;
use uu_report::{
    due_report, jobs_report, links_report, next_calls_report, next_polls_report, queues_report,
    status_report,
};
use uu_settings::Settings;
use uu_times::Moment;
use uu_times::moment::LAST_SECOND;

/// The report of these jobs, in their order, a line for each:
/// `NUMBER SYSTEM USER GRADE MOMENT SIZE KIND WORDS`. The moment is the site's local time, as
/// `yyyy-mm-dd hh:mm:ss`. The only error is `Memory`.
pub fn report_jobs(alloc: Global, jobs: &[JobHead], settings: &Settings) -> Result<Vec<u8>, Fault>
    requires { All (λ job. job.queued ≤ LAST_SECOND) jobs.now }
    ensures lines { IfOk result (λ report. IsJobsReport settings.now.zone jobs.now report.items) }
    ensures memory { IfErr result (λ fault. fault ≡ Fault.Memory) }
{
    Ok(jobs_report(alloc, jobs, &settings.zone)?)
}

/// The report of what is due, in the given order, a line for each system: `SYSTEM GRADE NUMBER`.
/// The only error is `Memory`.
pub fn report_due(alloc: Global, dues: &[Due]) -> Result<Vec<u8>, Fault>
    ensures lines { IfOk result (λ report. report.items ≡ flat_map due_text dues.now) }
    ensures memory { IfErr result (λ fault. fault ≡ Fault.Memory) }
{
    Ok(due_report(alloc, dues)?)
}

/// The report of when systems can next be called, in the given order, a line for each:
/// `SYSTEM GRADE NUMBER SECONDS MOMENT WHY`, or `SYSTEM GRADE NUMBER never WHY`. The seconds are
/// counted from this moment on. The moment is as in [`report_jobs`]. The only error is `Memory`.
pub fn report_next_calls(
    alloc: Global,
    calls: &[NextCall],
    at: &Moment,
    settings: &Settings,
) -> Result<Vec<u8>, Fault>
    requires { All (IsAhead at.now.second) calls.now }
    ensures lines { IfOk result (λ report. IsNextCallsReport settings.now.zone at.now.second calls.now report.items) }
    ensures memory { IfErr result (λ fault. fault ≡ Fault.Memory) }
{
    Ok(next_calls_report(alloc, calls, at.second, &settings.zone)?)
}

/// The report of when systems can next be called, with a job or without one. There is a line for
/// each, in the given order: `SYSTEM - - SECONDS MOMENT WHY`, or `SYSTEM - - never WHY`, as in
/// [`report_next_calls`]. The only error is `Memory`.
pub fn report_next_polls(
    alloc: Global,
    polls: &[NextPoll],
    at: &Moment,
    settings: &Settings,
) -> Result<Vec<u8>, Fault>
    requires { All (IsPollAhead at.now.second) polls.now }
    ensures lines { IfOk result (λ report. IsNextPollsReport settings.now.zone at.now.second polls.now report.items) }
    ensures memory { IfErr result (λ fault. fault ≡ Fault.Memory) }
{
    Ok(next_polls_report(alloc, polls, at.second, &settings.zone)?)
}

/// The report of what waits for systems, in the given order, a line for each:
/// `SYSTEM JOBS BYTES GRADE MOMENT`. The moment is the one when the oldest job was queued, as in
/// [`report_jobs`]. The only error is `Memory`.
pub fn report_queues(alloc: Global, queues: &[Queue], settings: &Settings) -> Result<Vec<u8>, Fault>
    requires { All (λ queue. queue.sums.oldest ≤ LAST_SECOND) queues.now }
    ensures lines { IfOk result (λ report. IsQueuesReport settings.now.zone queues.now report.items) }
    ensures memory { IfErr result (λ fault. fault ≡ Fault.Memory) }
{
    Ok(queues_report(alloc, queues, &settings.zone)?)
}

/// The report of these systems, in their order, a line for each: `SYSTEM FAILURES WAIT STATE`. The
/// wait is in seconds. The state is `never`, `done MOMENT` or `failed MOMENT WHY`, the moment as in
/// [`report_jobs`]. The only error is `Memory`.
pub fn report_status(
    alloc: Global,
    systems: &[SystemRow],
    settings: &Settings,
) -> Result<Vec<u8>, Fault>
    requires { All (λ row. row.call.last ≤ LAST_SECOND) systems.now }
    ensures lines { IfOk result (λ report. IsStatusReport settings.now.zone systems.now report.items) }
    ensures memory { IfErr result (λ fault. fault ≡ Fault.Memory) }
{
    Ok(status_report(alloc, systems, &settings.zone)?)
}

/// The report of a map entry: `NAME COST` or `NAME dead` for each link, then `= ALIAS` for each
/// alias, then `skipped LINE` for each skipped statement, in the entry's order. The only error is
/// `Memory`.
pub fn report_links(alloc: Global, entry: &Entry) -> Result<Vec<u8>, Fault>
    ensures lines { IfOk result (λ report. report.items ≡ links_text entry.now) }
    ensures memory { IfErr result (λ fault. fault ≡ Fault.Memory) }
{
    Ok(links_report(alloc, entry)?)
}
