//! Questions to the spool, and what is printed for the answer.

ghost use Rattle.std.specs.Prelude.{◌≡◌, ◌≤◌, ◌++◌, ◌∷◌, [], false, IfOk, IsTrue, MatchResult, List, option_copied};
ghost use Rattle.std.specs.List.{AllByRecursion, flat_map};
ghost use Rattle.std.specs.Io.KnownBytes.{Appends};
ghost use Rattle.sqlite.specs.State.{HasCleanDisk};
ghost use Rattle.uu_core.specs.Definitions.{definitions_of, picked};
ghost use Rattle.uu_core.specs.Due.{all_due};
ghost use Rattle.uu_core.specs.NextCalls.{AreNextCalls, AreNextPolls};
ghost use Rattle.uu_core.specs.Order.{AreByName};
ghost use Rattle.uu_core.specs.Queues.{AreQueues};
ghost use Rattle.uu_core.specs.declared.next_call.NextCall.{NextCall as AnyCall};
ghost use Rattle.uu_core.specs.declared.next_call.NextPoll.{NextPoll as AnyPoll};
ghost use Rattle.uu_core.specs.declared.queue.Queue.{Queue as AnyQueue};
ghost use Rattle.uu_store.specs.HandedOut.{IsBounded};
ghost use Rattle.uu_questions.specs.Listing.{listed_jobs};
ghost use Rattle.uu_report.specs.Reports.{IsJobLine, IsNextCallsReport, IsNextPollsReport, IsQueuesReport, due_text, line_of};
ghost use Rattle.uu_request.specs.declared.request.Question.TheVariants as question;
ghost use Rattle.uu_request.specs.declared.request.Request.TheVariants as request;
ghost use Rattle.uu_store.specs.Runs.{Ran, fault_in};
ghost use Rattle.uu_store.specs.Spool.{IsFaultBetween, Shows, disk, has_failed};
ghost use Rattle.uu_times.specs.Printed.{sys_text};
ghost use Rattle.uuspool.specs.Served.{IsServed};

use crate::bundles::{answer, pack};
use crate::fault::Fault;
use crate::print::print;
use crate::routing::{neighbours, routes};
use sqlite::Alter;
use std::alloc::{AllocError, Global};
use std::io::Write;
use std::mem::drop;
use uu_core::{
    Filter, JobHead, SystemRow, all_due, definitions, next_calls, next_polls, pick_systems, queues,
};
use uu_names::SiteName;
use uu_report::{
    due_report, job_line, jobs_report, next_calls_report, next_polls_report, queues_report,
    status_report,
};
use uu_request::Question;
use uu_settings::Settings;
use uu_store::laws::runs_are_one_run;
use uu_store::{Spool, StoreFault};
use uu_times::moment::LAST_SECOND;
use uu_times::{Moment, write_sys};

/// Asks one question, and prints the answer.
pub(crate) fn ask<S: Alter, W: Write>(
    alloc: Global,
    question: &Question,
    settings: &Settings,
    spool: &mut Spool<S>,
    out: &mut W,
) -> Result<u8, Fault>
    ensures { IsServed settings.now (request.Question question.now) spool.old spool.new (λ output. Appends (W.contents out.old) (W.contents out.new) output) result }
{
    match question {
        Question::Jobs(filter) => list(alloc, filter, settings, spool, out),
        Question::Job(number) => show(alloc, *number, settings, spool, out),
        Question::Due(at) => due(alloc, at, settings, spool, out),
        Question::AllDue(filter, at) => due_jobs(alloc, filter, at, settings, spool, out),
        Question::NextCalls(filter, at) => when(alloc, filter, at, settings, spool, out),
        Question::NextPolls(system, at) => polls(alloc, system.as_ref(), at, settings, spool, out),
        Question::Queues(filter) => sum_up(alloc, filter, settings, spool, out),
        Question::Systems => status(alloc, settings, spool, out),
        Question::Definitions(name) => systems(alloc, name.as_ref(), settings, spool, out),
        Question::Entry(name) => neighbours(alloc, name, settings, spool, out),
        Question::Name => name(alloc, settings, spool, out),
        Question::Routes(host, costs) => {
            routes(alloc, host.as_ref(), *costs, settings, spool, out)
        }
        Question::Pack(packing) => pack(alloc, packing, settings, spool, out),
        Question::Answer(answering) => answer(alloc, answering, settings, spool, out),
    }
}

// Prints the report of the jobs that match.
fn list<S: Alter, W: Write>(
    alloc: Global,
    filter: &Filter,
    settings: &Settings,
    spool: &mut Spool<S>,
    out: &mut W,
) -> Result<u8, Fault>
    ensures { IsServed settings.now (request.Question (question.Jobs filter.now)) spool.old spool.new (λ output. Appends (W.contents out.old) (W.contents out.new) output) result }
{
    let jobs = spool.jobs(alloc, filter)?;
    print(jobs_report(alloc, &jobs, &settings.zone), 0, out)
}

// Prints the job of this number: its line, and then its bytes.
fn show<S: Alter, W: Write>(
    alloc: Global,
    number: u32,
    settings: &Settings,
    spool: &mut Spool<S>,
    out: &mut W,
) -> Result<u8, Fault>
    ensures { IsServed settings.now (request.Question (question.Job number)) spool.old spool.new (λ output. Appends (W.contents out.old) (W.contents out.new) output) result }
{
    match spool.job(alloc, number) {
        Ok(Some((head, bytes))) => {
            let text = job_text(alloc, &head, &bytes, settings);
            drop(head);
            print(text, 0, out)
        }
        Ok(None) => print(Vec::from_slice(alloc, b"no job\n"), 1, out),
        Err(fault) => Err(Fault::Store(fault)),
    }
}

// A job's line, and then its bytes.
fn job_text(
    alloc: Global,
    head: &JobHead,
    bytes: &[u8],
    settings: &Settings,
) -> Result<Vec<u8>, AllocError>
    requires { head.now.queued ≤ LAST_SECOND }
    ensures { IfOk result (λ text. (line : _) × IsJobLine settings.now.zone head.now line × (text.items ≡ line ++ bytes.now)) }
{
    let line = job_line(alloc, head, &settings.zone)?;
    let mut text = line.into_bytes();
    text.extend_from_slice(bytes)?;
    Ok(text)
}

// Prints the report of what is due.
fn due<S: Alter, W: Write>(
    alloc: Global,
    at: &Moment,
    settings: &Settings,
    spool: &mut Spool<S>,
    out: &mut W,
) -> Result<u8, Fault>
    ensures { IsServed settings.now (request.Question (question.Due at.now)) spool.old spool.new (λ output. Appends (W.contents out.old) (W.contents out.new) output) result }
{
    let dues = spool.due(alloc, at)?;
    print(due_report(alloc, &dues), 0, out)
}

// Prints the report of the matching jobs that may go now.
fn due_jobs<S: Alter, W: Write>(
    alloc: Global,
    filter: &Filter,
    at: &Moment,
    settings: &Settings,
    spool: &mut Spool<S>,
    out: &mut W,
) -> Result<u8, Fault>
    ensures { IsServed settings.now (request.Question (question.AllDue filter.now at.now)) spool.old spool.new (λ output. Appends (W.contents out.old) (W.contents out.new) output) result }
{
    let (systems, jobs) = systems_and_jobs(alloc, filter, spool)?;
    print(due_jobs_text(alloc, &systems, &jobs, at), 0, out)
}

// The report of those of these jobs that may go now.
fn due_jobs_text(
    alloc: Global,
    systems: &[SystemRow],
    jobs: &[JobHead],
    at: &Moment,
) -> Result<Vec<u8>, AllocError>
    ensures { IfOk result (λ text. text.items ≡ flat_map due_text (all_due systems.now jobs.now at.now)) }
{
    let dues = all_due(alloc, systems, jobs, at)?;
    due_report(alloc, &dues)
}

// Prints when each system can next be called, for the first of its matching jobs.
fn when<S: Alter, W: Write>(
    alloc: Global,
    filter: &Filter,
    at: &Moment,
    settings: &Settings,
    spool: &mut Spool<S>,
    out: &mut W,
) -> Result<u8, Fault>
    ensures { IsServed settings.now (request.Question (question.NextCalls filter.now at.now)) spool.old spool.new (λ output. Appends (W.contents out.old) (W.contents out.new) output) result }
{
    let (systems, jobs) = systems_and_jobs(alloc, filter, spool)?;
    print(
        next_calls_text(alloc, &systems, &jobs, at, settings),
        0,
        out,
    )
}

// The systems, and the jobs that match, both of one state.
fn systems_and_jobs<S: Alter>(
    alloc: Global,
    filter: &Filter,
    spool: &mut Spool<S>,
) -> Result<(Vec<SystemRow>, Vec<JobHead>), StoreFault>
    ensures marked { MatchResult result (λ _. (has_failed spool.old ≡ false) × (has_failed spool.new ≡ false)) (IsFaultBetween (has_failed spool.old) (has_failed spool.new)) }
    ensures answer { HasCleanDisk (disk spool.new) → (s : _) → Shows spool.old s
        → IfOk result (λ answer. (answer.0.items ≡ s.systems) × (answer.1.items ≡ listed_jobs filter.now s) × Shows spool.new s) }
    ensures ran { Ran 1 [] spool.old spool.new [] (fault_in result) }
    ensures failed { IsTrue (has_failed spool.old) → spool.new ≡ spool.old }
{
    runs_are_one_run::<S>();
    let systems = spool.systems(alloc)?;
    let fitting = spool.jobs(alloc, filter)?;
    Ok((systems, fitting))
}

// The report of when these systems can next be called, for these jobs.
fn next_calls_text(
    alloc: Global,
    systems: &[SystemRow],
    jobs: &[JobHead],
    at: &Moment,
    settings: &Settings,
) -> Result<Vec<u8>, AllocError>
    ensures { IfOk result (λ text. (calls : List AnyCall)
        × (AreByName (λ row. row.def.name) systems.now → AreNextCalls settings.now.zone systems.now jobs.now at.now.second calls)
        × IsNextCallsReport settings.now.zone at.now.second calls text.items) }
{
    let calls = next_calls(alloc, systems, jobs, at.second, &settings.zone)?;
    next_calls_report(alloc, &calls, at.second, &settings.zone)
}

// Prints when each system, or the one of this name, can next be called, with a job or without one.
fn polls<S: Alter, W: Write>(
    alloc: Global,
    system: Option<&SiteName>,
    at: &Moment,
    settings: &Settings,
    spool: &mut Spool<S>,
    out: &mut W,
) -> Result<u8, Fault>
    ensures { IsServed settings.now (request.Question (question.NextPolls (option_copied system.entry) at.now)) spool.old spool.new (λ output. Appends (W.contents out.old) (W.contents out.new) output) result }
{
    let rows = spool.systems(alloc)?;
    print(next_polls_text(alloc, rows, system, at, settings), 0, out)
}

// The report of when these systems, or the one of this name, can next be called, with a job or
// without one.
fn next_polls_text(
    alloc: Global,
    rows: Vec<SystemRow>,
    system: Option<&SiteName>,
    at: &Moment,
    settings: &Settings,
) -> Result<Vec<u8>, AllocError>
    ensures { IfOk result (λ text. (polls : List AnyPoll)
        × (AreByName (λ row. row.def.name) rows.items → AreNextPolls settings.now.zone (picked (option_copied system.entry) rows.items) at.now.second polls)
        × IsNextPollsReport settings.now.zone at.now.second polls text.items) }
{
    let wanted = pick_systems(rows, system);
    let polls = next_polls(alloc, &wanted, at.second, &settings.zone)?;
    next_polls_report(alloc, &polls, at.second, &settings.zone)
}

// Prints the sums of the jobs that match, for each system.
fn sum_up<S: Alter, W: Write>(
    alloc: Global,
    filter: &Filter,
    settings: &Settings,
    spool: &mut Spool<S>,
    out: &mut W,
) -> Result<u8, Fault>
    ensures { IsServed settings.now (request.Question (question.Queues filter.now)) spool.old spool.new (λ output. Appends (W.contents out.old) (W.contents out.new) output) result }
{
    let jobs = spool.jobs(alloc, filter)?;
    print(queues_text(alloc, &jobs, settings), 0, out)
}

// The report of the sums of these jobs, for each system.
fn queues_text(alloc: Global, jobs: &[JobHead], settings: &Settings) -> Result<Vec<u8>, AllocError>
    requires { AllByRecursion IsBounded jobs.now }
    ensures { IfOk result (λ text. (queues : List AnyQueue) × AreQueues jobs.now queues × IsQueuesReport settings.now.zone queues text.items) }
{
    let queues = queues(alloc, jobs)?;
    queues_report(alloc, &queues, &settings.zone)
}

// Prints the report of the systems.
fn status<S: Alter, W: Write>(
    alloc: Global,
    settings: &Settings,
    spool: &mut Spool<S>,
    out: &mut W,
) -> Result<u8, Fault>
    ensures { IsServed settings.now (request.Question question.Systems) spool.old spool.new (λ output. Appends (W.contents out.old) (W.contents out.new) output) result }
{
    let systems = spool.systems(alloc)?;
    print(status_report(alloc, &systems, &settings.zone), 0, out)
}

// Prints the definitions of the systems, or of one, as a sys file.
fn systems<S: Alter, W: Write>(
    alloc: Global,
    name: Option<&SiteName>,
    settings: &Settings,
    spool: &mut Spool<S>,
    out: &mut W,
) -> Result<u8, Fault>
    ensures { IsServed settings.now (request.Question (question.Definitions (option_copied name.entry))) spool.old spool.new (λ output. Appends (W.contents out.old) (W.contents out.new) output) result }
{
    let rows = spool.systems(alloc)?;
    print(systems_text(alloc, rows, name), 0, out)
}

// The sys file of the definitions of these systems, or of one of them.
fn systems_text(
    alloc: Global,
    rows: Vec<SystemRow>,
    name: Option<&SiteName>,
) -> Result<Vec<u8>, AllocError>
    ensures { IfOk result (λ text. text.items ≡ sys_text (definitions_of (option_copied name.entry) rows.items)) }
{
    let systems = definitions(alloc, rows, name)?;
    write_sys(alloc, &systems)
}

// Prints the site's own name. It only asks the spool for its next number, so that a spool that has
// failed is reported, as with every question.
fn name<S: Alter, W: Write>(
    alloc: Global,
    settings: &Settings,
    spool: &mut Spool<S>,
    out: &mut W,
) -> Result<u8, Fault>
    ensures { IsServed settings.now (request.Question question.Name) spool.old spool.new (λ output. Appends (W.contents out.old) (W.contents out.new) output) result }
{
    spool.next()?;
    print(name_text(alloc, settings), 0, out)
}

/// The line of the site's name, the answer to `name`.
pub fn name_text(alloc: Global, settings: &Settings) -> Result<Vec<u8>, AllocError>
    ensures { IfOk result (λ text. text.items ≡ line_of (settings.now.name ∷ [])) }
{
    let name = settings.name.as_str();
    Ok(format!(in alloc; "{name}\n")?.into_bytes())
}
