//! The task of a subcommand, by its entries.

ghost use Rattle.std.specs.Prelude.{◌≡◌, ◌∷◌, [], IsSome, Ok, codes, drop, find};
ghost use Rattle.std.specs.Str.{bytes_eq};
ghost use Rattle.clap.specs.Words.{rows_of, found_of, first_of};
ghost use Rattle.uu_line.specs.Internal.Entries.{AreNumbersUpTo, HaveTexts, IsEntered, most_job, most_size, subcommands};
ghost use Rattle.uu_line.specs.Lines.{texts_at};
ghost use Rattle.uu_line.specs.Lines.{AnswersUnlessMemory, UnlessMemory, MeansTask};
ghost use Rattle.uu_line.specs.Lines as spec;

use crate::fault::LineFault;
use crate::reading::{
    answer_task, done_task, drop_task, due_task, execute_task, failed_task, forget_task, list_task,
    mail_task, neighbours_task, pack_task, queues_task, regrade_task, request_task, route_task,
    send_task, settle_task, systems_task, unpack_task, when_task,
};
use crate::task::Task;
use crate::values::{after_in, has_flag, job_in, jobs_in, most_in, paths_in, terms_of, text_in};
use clap::ArgMatches;
use std::alloc::Global;

/// The task of a subcommand with these entries.
pub(crate) fn task_in(alloc: Global, name: &str, given: &ArgMatches<'_>) -> Result<Task, LineFault>
    requires { IsEntered name.now (rows_of (found_of given.now)) }
    ensures { UnlessMemory (MeansTask name.now (rows_of (found_of given.now))) result }
{
    match name {
        "load" => Ok(Task::Load),
        "drop" => drop_in(alloc, given),
        "send" => send_in(alloc, given),
        "request" => request_in(alloc, given),
        "exec" => execute_in(alloc, given),
        "mail" => mail_in(alloc, given),
        _ => job_task_in(alloc, name, given),
    }
}

// The task of a subcommand that shows or changes jobs, or of one after those.
fn job_task_in(alloc: Global, name: &str, given: &ArgMatches<'_>) -> Result<Task, LineFault>
    requires entered { IsEntered name.now (rows_of (found_of given.now)) }
    requires later { IsSome (find (λ subcommand. bytes_eq subcommand.0 name.now) (drop 6 subcommands)) }
    ensures { UnlessMemory (MeansTask name.now (rows_of (found_of given.now))) result }
{
    match name {
        "list" => list_in(alloc, given),
        "show" => Ok(show_in(given)),
        "kill" => Ok(kill_in(given)),
        "regrade" => regrade_in(given),
        "rejuvenate" => Ok(rejuvenate_in(given)),
        _ => report_task_in(alloc, name, given),
    }
}

// The task of a subcommand that reports systems, or of one after those.
fn report_task_in(alloc: Global, name: &str, given: &ArgMatches<'_>) -> Result<Task, LineFault>
    requires entered { IsEntered name.now (rows_of (found_of given.now)) }
    requires later { IsSome (find (λ subcommand. bytes_eq subcommand.0 name.now) (drop 11 subcommands)) }
    ensures { UnlessMemory (MeansTask name.now (rows_of (found_of given.now))) result }
{
    match name {
        "due" => due_in(alloc, given),
        "when" => when_in(alloc, given),
        "queues" => queues_in(alloc, given),
        "status" => Ok(Task::Status),
        "systems" => systems_in(alloc, given),
        _ => call_task_in(alloc, name, given),
    }
}

// The task of a subcommand that notes a call, of one of a bundle, or of one after those.
fn call_task_in(alloc: Global, name: &str, given: &ArgMatches<'_>) -> Result<Task, LineFault>
    requires entered { IsEntered name.now (rows_of (found_of given.now)) }
    requires later { IsSome (find (λ subcommand. bytes_eq subcommand.0 name.now) (drop 16 subcommands)) }
    ensures { UnlessMemory (MeansTask name.now (rows_of (found_of given.now))) result }
{
    match name {
        "failed" => failed_in(alloc, given),
        "done" => done_in(alloc, given),
        "forget" => forget_in(alloc, given),
        "pack" => pack_in(alloc, given),
        "unpack" => unpack_in(alloc, given),
        "settle" => settle_in(alloc, given),
        "answer" => answer_in(alloc, given),
        _ => site_task_in(alloc, name, given),
    }
}

// The task of a subcommand of the map or of the site.
fn site_task_in(alloc: Global, name: &str, given: &ArgMatches<'_>) -> Result<Task, LineFault>
    requires entered { IsEntered name.now (rows_of (found_of given.now)) }
    requires later { IsSome (find (λ subcommand. bytes_eq subcommand.0 name.now) (drop 23 subcommands)) }
    ensures { UnlessMemory (MeansTask name.now (rows_of (found_of given.now))) result }
{
    match name {
        "map" => Ok(Task::Map),
        "neighbours" => neighbours_in(alloc, given),
        "name" => Ok(Task::Name),
        "route" => route_in(alloc, given),
        "routes" => Ok(routes_in(given)),
        _ => unreachable!(),
    }
}

fn drop_in(alloc: Global, given: &ArgMatches<'_>) -> Result<Task, LineFault>
    requires { HaveTexts (codes "system" ∷ []) (rows_of (found_of given.now)) }
    ensures { UnlessMemory (spec.MeansDrop (rows_of (found_of given.now))) result }
{
    drop_task(alloc, text_in(given, "system"))
}

fn send_in(alloc: Global, given: &ArgMatches<'_>) -> Result<Task, LineFault>
    requires { HaveTexts (codes "system" ∷ codes "from" ∷ codes "to" ∷ codes "grade" ∷ []) (rows_of (found_of given.now)) }
    ensures { UnlessMemory (spec.MeansFile Task.Send (rows_of (found_of given.now))) result }
{
    let system = text_in(given, "system");
    let source = text_in(given, "from");
    let target = text_in(given, "to");
    let grade = text_in(given, "grade");
    send_task(alloc, system, source, target, grade, given.get_str("once"))
}

fn request_in(alloc: Global, given: &ArgMatches<'_>) -> Result<Task, LineFault>
    requires { HaveTexts (codes "system" ∷ codes "from" ∷ codes "to" ∷ codes "grade" ∷ []) (rows_of (found_of given.now)) }
    ensures { UnlessMemory (spec.MeansFile Task.Request (rows_of (found_of given.now))) result }
{
    let system = text_in(given, "system");
    let source = text_in(given, "from");
    let target = text_in(given, "to");
    let grade = text_in(given, "grade");
    request_task(alloc, system, source, target, grade, given.get_str("once"))
}

fn execute_in(alloc: Global, given: &ArgMatches<'_>) -> Result<Task, LineFault>
    requires { HaveTexts (codes "grade" ∷ codes "system" ∷ codes "command" ∷ []) (rows_of (found_of given.now)) }
    ensures { UnlessMemory (spec.MeansExec (rows_of (found_of given.now))) result }
{
    let grade = text_in(given, "grade");
    let system = text_in(given, "system");
    let command = text_in(given, "command");
    let once = given.get_str("once");
    execute_task(alloc, grade, once, system, command, given)
}

fn mail_in(alloc: Global, given: &ArgMatches<'_>) -> Result<Task, LineFault>
    requires { HaveTexts (codes "grade" ∷ codes "address" ∷ []) (rows_of (found_of given.now)) }
    ensures { UnlessMemory (spec.MeansMailing (rows_of (found_of given.now))) result }
{
    match terms_of(alloc, text_in(given, "grade"), given.get_str("once")) {
        Ok(terms) => match paths_in(alloc, given, "address") {
            Ok(paths) => mail_task(alloc, terms, &paths),
            Err(fault) => Err(fault),
        },
        Err(fault) => Err(fault),
    }
}

fn list_in(alloc: Global, given: &ArgMatches<'_>) -> Result<Task, LineFault>
    ensures { AnswersUnlessMemory result (spec.list_task (first_of (codes "system") (rows_of (found_of given.now)))
        (first_of (codes "user") (rows_of (found_of given.now)))) }
{
    list_task(alloc, given.get_str("system"), given.get_str("user"))
}

fn show_in(given: &ArgMatches<'_>) -> Task
    requires texts { HaveTexts (codes "job" ∷ []) (rows_of (found_of given.now)) }
    requires number { AreNumbersUpTo most_job (texts_at (codes "job") (rows_of (found_of given.now))) }
    ensures { spec.MeansJob (λ job. Ok (Task.Show job)) (rows_of (found_of given.now)) (Ok result) }
{
    let job = job_in(given);
    Task::Show { job }
}

fn kill_in(given: &ArgMatches<'_>) -> Task
    requires texts { HaveTexts (codes "job" ∷ []) (rows_of (found_of given.now)) }
    requires number { AreNumbersUpTo most_job (texts_at (codes "job") (rows_of (found_of given.now))) }
    ensures { spec.MeansJob (λ job. Ok (Task.Kill job)) (rows_of (found_of given.now)) (Ok result) }
{
    let job = job_in(given);
    Task::Kill { job }
}

fn regrade_in(given: &ArgMatches<'_>) -> Result<Task, LineFault>
    requires texts { HaveTexts (codes "job" ∷ codes "grade" ∷ []) (rows_of (found_of given.now)) }
    requires number { AreNumbersUpTo most_job (texts_at (codes "job") (rows_of (found_of given.now))) }
    ensures { UnlessMemory (spec.MeansRegrade (rows_of (found_of given.now))) result }
{
    regrade_task(job_in(given), text_in(given, "grade"))
}

fn rejuvenate_in(given: &ArgMatches<'_>) -> Task
    requires texts { HaveTexts (codes "job" ∷ []) (rows_of (found_of given.now)) }
    requires number { AreNumbersUpTo most_job (texts_at (codes "job") (rows_of (found_of given.now))) }
    ensures { spec.MeansJob (λ job. Ok (Task.Rejuvenate job)) (rows_of (found_of given.now)) (Ok result) }
{
    let job = job_in(given);
    Task::Rejuvenate { job }
}

fn due_in(alloc: Global, given: &ArgMatches<'_>) -> Result<Task, LineFault>
    ensures { AnswersUnlessMemory result (spec.due_task (first_of (codes "system") (rows_of (found_of given.now)))) }
{
    due_task(alloc, given.get_str("system"))
}

fn when_in(alloc: Global, given: &ArgMatches<'_>) -> Result<Task, LineFault>
    ensures { AnswersUnlessMemory result (spec.when_task (spec.has_flag (codes "all") (rows_of (found_of given.now))) (first_of (codes "system") (rows_of (found_of given.now)))) }
{
    let all = has_flag(given, "all");
    when_task(alloc, all, given.get_str("system"))
}

fn queues_in(alloc: Global, given: &ArgMatches<'_>) -> Result<Task, LineFault>
    ensures { AnswersUnlessMemory result (spec.queues_task (first_of (codes "system") (rows_of (found_of given.now)))) }
{
    queues_task(alloc, given.get_str("system"))
}

fn systems_in(alloc: Global, given: &ArgMatches<'_>) -> Result<Task, LineFault>
    ensures { AnswersUnlessMemory result (spec.systems_task (first_of (codes "system") (rows_of (found_of given.now)))) }
{
    systems_task(alloc, given.get_str("system"))
}

fn failed_in(alloc: Global, given: &ArgMatches<'_>) -> Result<Task, LineFault>
    requires { HaveTexts (codes "system" ∷ codes "why" ∷ []) (rows_of (found_of given.now)) }
    ensures { UnlessMemory (spec.MeansFailed (rows_of (found_of given.now))) result }
{
    failed_task(alloc, text_in(given, "system"), text_in(given, "why"))
}

fn done_in(alloc: Global, given: &ArgMatches<'_>) -> Result<Task, LineFault>
    requires texts { HaveTexts (codes "system" ∷ []) (rows_of (found_of given.now)) }
    requires numbers { AreNumbersUpTo most_job (texts_at (codes "job") (rows_of (found_of given.now))) }
    ensures { UnlessMemory (spec.MeansDone (rows_of (found_of given.now))) result }
{
    let system = text_in(given, "system");
    match jobs_in(alloc, given) {
        Ok(jobs) => done_task(alloc, system, jobs),
        Err(fault) => Err(fault),
    }
}

fn forget_in(alloc: Global, given: &ArgMatches<'_>) -> Result<Task, LineFault>
    requires texts { HaveTexts (codes "system" ∷ codes "job" ∷ []) (rows_of (found_of given.now)) }
    requires number { AreNumbersUpTo most_job (texts_at (codes "job") (rows_of (found_of given.now))) }
    ensures { UnlessMemory (spec.MeansForget (rows_of (found_of given.now))) result }
{
    forget_task(alloc, text_in(given, "system"), job_in(given))
}

fn pack_in(alloc: Global, given: &ArgMatches<'_>) -> Result<Task, LineFault>
    requires texts { HaveTexts (codes "system" ∷ codes "grade" ∷ []) (rows_of (found_of given.now)) }
    requires number { AreNumbersUpTo most_job (texts_at (codes "job") (rows_of (found_of given.now))) }
    requires size { AreNumbersUpTo most_size (texts_at (codes "most") (rows_of (found_of given.now))) }
    ensures { UnlessMemory (spec.MeansPack (rows_of (found_of given.now))) result }
{
    let system = text_in(given, "system");
    let grade = text_in(given, "grade");
    let spool = given.get_str("spool");
    let after = after_in(given);
    let most = most_in(given);
    let no_jobs = has_flag(given, "no-jobs");
    pack_task(alloc, system, grade, spool, after, most, no_jobs)
}

fn unpack_in(alloc: Global, given: &ArgMatches<'_>) -> Result<Task, LineFault>
    requires { HaveTexts (codes "sender" ∷ []) (rows_of (found_of given.now)) }
    ensures { UnlessMemory (spec.MeansUnpack (rows_of (found_of given.now))) result }
{
    unpack_task(alloc, text_in(given, "sender"), given)
}

fn settle_in(alloc: Global, given: &ArgMatches<'_>) -> Result<Task, LineFault>
    requires { HaveTexts (codes "system" ∷ []) (rows_of (found_of given.now)) }
    ensures { UnlessMemory (spec.MeansSettle (rows_of (found_of given.now))) result }
{
    settle_task(alloc, text_in(given, "system"), given.get_str("spool"))
}

fn answer_in(alloc: Global, given: &ArgMatches<'_>) -> Result<Task, LineFault>
    requires texts { HaveTexts (codes "sender" ∷ codes "grade" ∷ []) (rows_of (found_of given.now)) }
    requires number { AreNumbersUpTo most_job (texts_at (codes "job") (rows_of (found_of given.now))) }
    requires size { AreNumbersUpTo most_size (texts_at (codes "most") (rows_of (found_of given.now))) }
    ensures { UnlessMemory (spec.MeansAnswer (rows_of (found_of given.now))) result }
{
    let sender = text_in(given, "sender");
    let grade = text_in(given, "grade");
    let spool = given.get_str("spool");
    let after = after_in(given);
    let most = most_in(given);
    let no_jobs = has_flag(given, "no-jobs");
    answer_task(alloc, sender, given, grade, spool, after, most, no_jobs)
}

fn neighbours_in(alloc: Global, given: &ArgMatches<'_>) -> Result<Task, LineFault>
    requires { HaveTexts (codes "host" ∷ []) (rows_of (found_of given.now)) }
    ensures { UnlessMemory (spec.MeansNeighbours (rows_of (found_of given.now))) result }
{
    neighbours_task(alloc, text_in(given, "host"))
}

fn route_in(alloc: Global, given: &ArgMatches<'_>) -> Result<Task, LineFault>
    requires { HaveTexts (codes "host" ∷ []) (rows_of (found_of given.now)) }
    ensures { UnlessMemory (spec.MeansRoute (rows_of (found_of given.now))) result }
{
    let host = text_in(given, "host");
    let costs = has_flag(given, "cost");
    route_task(alloc, host, costs)
}

fn routes_in(given: &ArgMatches<'_>) -> Task
    ensures { result ≡ spec.routes_task (spec.has_flag (codes "cost") (rows_of (found_of given.now))) }
{
    let costs = has_flag(given, "cost");
    Task::Routes { host: None, costs }
}
