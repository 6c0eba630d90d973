//! Tasks from the texts of their entries.

ghost use Rattle.std.specs.Prelude.{◌≡◌, ℕ, List, Some, IfOk, IfErr, IsSome, map, codes, option_map, slice_get};
ghost use Rattle.std.specs.List.{list_all};
ghost use Rattle.clap.specs.Words.{found_of, rows_of};
ghost use Rattle.uu_names.specs.Path.{first_hop, rest_of};
ghost use Rattle.uu_line.specs.Lines.{AnswersUnlessMemory, texts_at};
ghost use Rattle.uu_line.specs.Lines as spec;

use crate::fault::LineFault;
use crate::origin::Origin;
use crate::task::Task;
use crate::values::{
    grade_of, optional_site, optional_word, site_of, sites_in, terms_of, word_of, words_in,
};
use clap::ArgMatches;
use std::alloc::Global;
use uu_core::Filter;
use uu_names::{Grade, Listed, Path, SiteName, Word};

/// The task of `drop`.
#[tactic(auto, using(crate::proofs::LineLemmas::answers_then))]
pub(crate) fn drop_task(alloc: Global, system: &str) -> Result<Task, LineFault>
    ensures { AnswersUnlessMemory result (spec.drop_task system.now) }
{
    let system = site_of(alloc, system)?;
    Ok(Task::Drop { system })
}

/// The task of `send`.
#[tactic(auto, using(crate::proofs::LineLemmas::answers_then))]
pub(crate) fn send_task(
    alloc: Global,
    system: &str,
    source: &str,
    target: &str,
    grade: &str,
    once: Option<&str>,
) -> Result<Task, LineFault>
    ensures { AnswersUnlessMemory result (spec.file_task Task.Send system.now source.now target.now grade.now (option_map (λ text. text.now) once.entry)) }
{
    let system = site_of(alloc, system)?;
    let source = word_of(alloc, source)?;
    let target = word_of(alloc, target)?;
    let (grade, once) = terms_of(alloc, grade, once)?;
    Ok(Task::Send {
        system,
        source,
        target,
        grade,
        once,
    })
}

/// The task of `request`.
#[tactic(auto, using(crate::proofs::LineLemmas::answers_then))]
pub(crate) fn request_task(
    alloc: Global,
    system: &str,
    source: &str,
    target: &str,
    grade: &str,
    once: Option<&str>,
) -> Result<Task, LineFault>
    ensures { AnswersUnlessMemory result (spec.file_task Task.Request system.now source.now target.now grade.now (option_map (λ text. text.now) once.entry)) }
{
    let system = site_of(alloc, system)?;
    let source = word_of(alloc, source)?;
    let target = word_of(alloc, target)?;
    let (grade, once) = terms_of(alloc, grade, once)?;
    Ok(Task::Request {
        system,
        source,
        target,
        grade,
        once,
    })
}

/// The task of `exec`, with the arguments of these entries.
#[tactic(auto, using(crate::proofs::LineLemmas::answers_then))]
pub(crate) fn execute_task(
    alloc: Global,
    grade: &str,
    once: Option<&str>,
    system: &str,
    command: &str,
    given: &ArgMatches<'_>,
) -> Result<Task, LineFault>
    ensures { AnswersUnlessMemory result (spec.exec_task grade.now (option_map (λ text. text.now) once.entry) system.now command.now (texts_at (codes "argument") (rows_of (found_of given.now)))) }
{
    let (grade, once) = terms_of(alloc, grade, once)?;
    let system = site_of(alloc, system)?;
    let command = word_of(alloc, command)?;
    let arguments = words_in(alloc, given, "argument")?;
    Ok(Task::Execute {
        grade,
        once,
        system,
        command,
        arguments,
    })
}

/// The task of a message to these addresses, at least one.
pub(crate) fn mail_task(
    alloc: Global,
    terms: (Grade, Option<Origin>),
    paths: &[Path],
) -> Result<Task, LineFault>
    requires { IsSome (slice_get paths.now 0) }
    ensures { (first : List ℕ) → Some first ≡ slice_get paths.now 0 → AnswersUnlessMemory result (spec.mail_by terms first paths.now) }
{
    match paths.first() {
        Some(first) => mail_by(alloc, terms, first, paths),
        None => unreachable!(),
    }
}

// The task of a message to these addresses; this is the path of the first.
fn mail_by(
    alloc: Global,
    terms: (Grade, Option<Origin>),
    first: &Path,
    paths: &[Path],
) -> Result<Task, LineFault>
    ensures { AnswersUnlessMemory result (spec.mail_by terms first.now paths.now) }
{
    if !begin_alike(first.first_hop(), paths) {
        return Err(LineFault::TwoSystems);
    }
    let (grade, once) = terms;
    let system = site_of(alloc, first.first_hop())?;
    let rests = rests_of(alloc, paths)?;
    Ok(Task::Mail {
        grade,
        once,
        system,
        rests,
    })
}

// Whether each path begins with this system.
fn begin_alike(hop: &str, paths: &[Path]) -> bool
    ensures { result ≡ list_all (λ path. spec.same_text (first_hop path) hop.now) paths.now }
{
    paths.iter().all(|path| path.first_hop() == hop)
}

// What the paths say after their first site.
fn rests_of(alloc: Global, paths: &[Path]) -> Result<Listed<Word>, LineFault>
    ensures rests { IfOk result (λ rests. rests ≡ map rest_of paths.now) }
    ensures memory { IfErr result (λ fault. fault ≡ LineFault.Memory) }
{
    let mut rests = Vec::new(alloc);
    for path in paths {
        match word_of(alloc, path.rest()) {
            Ok(rest) => rests.push(rest)?,
            Err(fault) => return Err(fault),
        }
    }
    Ok(Listed::from_vec(rests))
}

/// The task of `list`.
#[tactic(auto, using(crate::proofs::LineLemmas::answers_then))]
pub(crate) fn list_task(
    alloc: Global,
    system: Option<&str>,
    user: Option<&str>,
) -> Result<Task, LineFault>
    ensures { AnswersUnlessMemory result (spec.list_task (option_map (λ text. text.now) system.entry) (option_map (λ text. text.now) user.entry)) }
{
    let system = optional_site(alloc, system)?;
    let user = optional_word(alloc, user)?;
    let filter = Filter { system, user };
    Ok(Task::List { filter })
}

/// The task of `due`.
#[tactic(auto, using(crate::proofs::LineLemmas::answers_then))]
pub(crate) fn due_task(alloc: Global, system: Option<&str>) -> Result<Task, LineFault>
    ensures { AnswersUnlessMemory result (spec.due_task (option_map (λ text. text.now) system.entry)) }
{
    let wanted = optional_site(alloc, system)?;
    Ok(Task::Due { system: wanted })
}

/// The task of `when`.
#[tactic(auto, using(crate::proofs::LineLemmas::answers_then))]
pub(crate) fn when_task(alloc: Global, all: bool, system: Option<&str>) -> Result<Task, LineFault>
    ensures { AnswersUnlessMemory result (spec.when_task all (option_map (λ text. text.now) system.entry)) }
{
    let wanted = optional_site(alloc, system)?;
    Ok(asked_when(all, wanted))
}

// The task of `when` for this system, if one is named.
fn asked_when(all: bool, system: Option<SiteName>) -> Task
    ensures { result ≡ spec.asked_when all system }
{
    if all {
        return Task::Polls { system };
    }
    Task::When {
        filter: Filter { system, user: None },
    }
}

/// The task of `queues`.
#[tactic(auto, using(crate::proofs::LineLemmas::answers_then))]
pub(crate) fn queues_task(alloc: Global, system: Option<&str>) -> Result<Task, LineFault>
    ensures { AnswersUnlessMemory result (spec.queues_task (option_map (λ text. text.now) system.entry)) }
{
    let wanted = optional_site(alloc, system)?;
    let filter = Filter {
        system: wanted,
        user: None,
    };
    Ok(Task::Queues { filter })
}

/// The task of `systems`.
#[tactic(auto, using(crate::proofs::LineLemmas::answers_then))]
pub(crate) fn systems_task(alloc: Global, system: Option<&str>) -> Result<Task, LineFault>
    ensures { AnswersUnlessMemory result (spec.systems_task (option_map (λ text. text.now) system.entry)) }
{
    let wanted = optional_site(alloc, system)?;
    Ok(Task::Systems { system: wanted })
}

/// The task of `regrade`.
#[tactic(auto, using(crate::proofs::LineLemmas::answers_then))]
pub(crate) fn regrade_task(job: u32, grade: &str) -> Result<Task, LineFault>
    ensures { AnswersUnlessMemory result (spec.regrade_task job grade.now) }
{
    let grade = grade_of(grade)?;
    Ok(Task::Regrade { job, grade })
}

/// The task of `failed`.
#[tactic(auto, using(crate::proofs::LineLemmas::answers_then))]
pub(crate) fn failed_task(alloc: Global, system: &str, why: &str) -> Result<Task, LineFault>
    ensures { AnswersUnlessMemory result (spec.failed_task system.now why.now) }
{
    let system = site_of(alloc, system)?;
    let why = word_of(alloc, why)?;
    Ok(Task::Failed { system, why })
}

/// The task of `done`.
#[tactic(auto, using(crate::proofs::LineLemmas::answers_then))]
pub(crate) fn done_task(alloc: Global, system: &str, jobs: Listed<u32>) -> Result<Task, LineFault>
    ensures { AnswersUnlessMemory result (spec.done_task system.now jobs) }
{
    let system = site_of(alloc, system)?;
    Ok(Task::Done { system, jobs })
}

/// The task of `forget`.
#[tactic(auto, using(crate::proofs::LineLemmas::answers_then))]
pub(crate) fn forget_task(alloc: Global, system: &str, below: u32) -> Result<Task, LineFault>
    ensures { AnswersUnlessMemory result (spec.forget_task system.now below) }
{
    let system = site_of(alloc, system)?;
    Ok(Task::Forget { system, below })
}

/// The task of `pack`.
#[tactic(auto, using(crate::proofs::LineLemmas::answers_then))]
pub(crate) fn pack_task(
    alloc: Global,
    system: &str,
    grade: &str,
    spool: Option<&str>,
    after: Option<u32>,
    most: Option<u32>,
    no_jobs: bool,
) -> Result<Task, LineFault>
    ensures { AnswersUnlessMemory result (spec.pack_task system.now grade.now (option_map (λ text. text.now) spool.entry) after most no_jobs) }
{
    let system = site_of(alloc, system)?;
    let lowest = grade_of(grade)?;
    let spool = optional_word(alloc, spool)?;
    Ok(Task::Pack {
        system,
        grade: lowest,
        spool,
        after,
        most,
        no_jobs,
    })
}

/// The task of `unpack`, with the systems of these entries.
#[tactic(auto, using(crate::proofs::LineLemmas::answers_then))]
pub(crate) fn unpack_task(
    alloc: Global,
    sender: &str,
    given: &ArgMatches<'_>,
) -> Result<Task, LineFault>
    ensures { AnswersUnlessMemory result (spec.unpack_task sender.now (texts_at (codes "system") (rows_of (found_of given.now)))) }
{
    let sender = site_of(alloc, sender)?;
    let onward = sites_in(alloc, given, "system")?;
    Ok(Task::Unpack { sender, onward })
}

/// The task of `settle`.
#[tactic(auto, using(crate::proofs::LineLemmas::answers_then))]
pub(crate) fn settle_task(
    alloc: Global,
    system: &str,
    spool: Option<&str>,
) -> Result<Task, LineFault>
    ensures { AnswersUnlessMemory result (spec.settle_task system.now (option_map (λ text. text.now) spool.entry)) }
{
    let system = site_of(alloc, system)?;
    let spool = optional_word(alloc, spool)?;
    Ok(Task::Settle { system, spool })
}

/// The task of `answer`, with the systems of these entries.
#[tactic(auto, using(crate::proofs::LineLemmas::answers_then))]
pub(crate) fn answer_task(
    alloc: Global,
    sender: &str,
    given: &ArgMatches<'_>,
    grade: &str,
    spool: Option<&str>,
    after: Option<u32>,
    most: Option<u32>,
    no_jobs: bool,
) -> Result<Task, LineFault>
    ensures { AnswersUnlessMemory result (spec.answer_task sender.now (texts_at (codes "system") (rows_of (found_of given.now))) grade.now (option_map (λ text. text.now) spool.entry) after most no_jobs) }
{
    let sender = site_of(alloc, sender)?;
    let onward = sites_in(alloc, given, "system")?;
    let grade = grade_of(grade)?;
    let spool = optional_word(alloc, spool)?;
    Ok(Task::Answer {
        sender,
        onward,
        grade,
        spool,
        after,
        most,
        no_jobs,
    })
}

/// The task of `neighbours`.
#[tactic(auto, using(crate::proofs::LineLemmas::answers_then))]
pub(crate) fn neighbours_task(alloc: Global, host: &str) -> Result<Task, LineFault>
    ensures { AnswersUnlessMemory result (spec.neighbours_task host.now) }
{
    let host = site_of(alloc, host)?;
    Ok(Task::Neighbours { host })
}

/// The task of `route`.
#[tactic(auto, using(crate::proofs::LineLemmas::answers_then))]
pub(crate) fn route_task(alloc: Global, host: &str, costs: bool) -> Result<Task, LineFault>
    ensures { AnswersUnlessMemory result (spec.route_task host.now costs) }
{
    let host = site_of(alloc, host)?;
    Ok(Task::Routes {
        host: Some(host),
        costs,
    })
}
