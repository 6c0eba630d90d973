//! What a line asks of a spool: commands, one after the other, one question, mail, or a neighbour's
//! bundle.

ghost use Rattle.std.specs.Prelude.{◌≡◌, ◌≤◌, Ok, IsTrue, length};
ghost use Rattle.std.specs.List.{list_any};
ghost use Rattle.uu_names.specs.Text.{most_text};
ghost use Rattle.uu_times.specs.Moment.{IsDateTimeAt, local_second};
ghost use Rattle.uu_line.specs.Lines.{same_text, takes_input};
ghost use Rattle.uu_request.specs.Requests.{AnswersUnlessMemory, UnlessMemory};
ghost use Rattle.uu_request.specs.Requests as spec;

use crate::fault::RequestFault;
use crate::mail::mail;
use crate::maps::entries;
use crate::marks::{execution_key, file_key, message_key};
use crate::neighbours::wrong_neighbour;
use crate::systems::load;
use crate::unpacking::{answer, pack, packing, settle, unpack};
use std::alloc::Global;
use std::mem::drop;
use uu_bundle::{Refused, Told};
use uu_core::{By, Command, Filter, Key, Kind, NewJob, Subject, TakeIn};
use uu_line::{CommandLine, Task};
use uu_names::text::MAX_TEXT;
use uu_names::{Grade, Listed, SiteName, Word};
use uu_settings::Settings;
use uu_times::Moment;

/// What a line asks of a spool.
#[derive(Drop)]
pub enum Request {
    /// Commands, given one after the other.
    Commands(CommandList),
    /// One question, which changes nothing.
    Question(Question),
    /// One command, which depends on the spool's state: mail of this site is queued for its system
    /// or, if the site doesn't have that, by the map.
    Mailing(NewJob),
    /// One command, which depends on the spool's state: the jobs that a neighbour has are removed.
    Settling(Settling),
    /// A bundle of a neighbour's, which is taken whole or not at all.
    Unpacking(Unpacking),
}

/// Commands, and how their replies are printed.
#[derive(Drop)]
pub struct CommandList {
    /// The commands, in the order in which they are given.
    pub commands: Listed<Command>,
    /// For each command, what its reply is about.
    pub subjects: Listed<Subject>,
    /// The lines of the input that were skipped, counted from 1. They are printed once every command
    /// was answered.
    pub skipped: Listed<u32>,
}

/// A question.
#[derive(Drop)]
pub enum Question {
    /// Which jobs match.
    Jobs(Filter),
    /// The job of this number, with its bytes.
    Job(u32),
    /// Which systems may be called at this moment, each with its next job.
    Due(Moment),
    /// Which of the jobs that match may go at this moment.
    AllDue(Filter, Moment),
    /// When each system for which a job matches can next be called from this moment on, for the
    /// first of these jobs.
    NextCalls(Filter, Moment),
    /// When each system, or the one of this name, can next be called from this moment on, with a job
    /// or without one.
    NextPolls(Option<SiteName>, Moment),
    /// The sums of the jobs that match, for each system.
    Queues(Filter),
    /// All systems, and how their calls went.
    Systems,
    /// The definitions of the systems, or only that of the system of this name.
    Definitions(Option<SiteName>),
    /// The map entry of this host.
    Entry(SiteName),
    /// The site's own name, which the settings give.
    Name,
    /// The routes by the map: to all hosts, or to this one; with their costs or without.
    Routes(Option<SiteName>, bool),
    /// The bundle for a system.
    Pack(Packing),
    /// The bundle for a system that answers one of its own.
    Answer(Answering),
}

/// Which bundle is printed for a system.
#[derive(Drop)]
pub struct Packing {
    /// The system that the bundle is for.
    pub system: SiteName,
    /// The grade of its first line. It has no jobs of a lower grade, and asks for none in the
    /// answer.
    pub grade: Grade,
    /// The word that says which spool its jobs are from.
    pub spool: Word,
    /// The job after which its jobs begin, in the order of grade and number, if one is given.
    pub after: Option<u32>,
    /// How many bytes it has at most, but for its first job, if that is given.
    pub most: Option<u32>,
    /// Whether its jobs are left out.
    pub no_jobs: bool,
}

/// Which bundle is printed to answer one.
#[derive(Drop)]
pub struct Answering {
    /// The bundle for the system whose bundle is answered.
    pub packing: Packing,
    /// The grade of the first line of the bundle that is answered. That bundle asks for no jobs of
    /// a lower grade.
    pub asked: Grade,
    /// For each job of the bundle that is answered, in its order, the command that queues it, once.
    pub commands: Listed<Command>,
}

/// Which jobs are settled.
#[derive(Drop)]
pub struct Settling {
    /// The system that has or refused them.
    pub system: SiteName,
    /// The word that says which spool this site's jobs are from.
    pub spool: Word,
    /// The jobs that the system has.
    pub has: Listed<Told>,
    /// The jobs that the system refused.
    pub refused: Listed<Refused>,
}

/// A bundle that is taken, and how the replies are printed.
#[derive(Drop)]
pub struct Unpacking {
    /// The bundle: what its sender won't hand on again, and its jobs.
    pub bundle: TakeIn,
    /// What each reply is about: the first the sender, and each other the number that a job has
    /// there.
    pub subjects: Listed<Subject>,
    /// The line of the text that was not read, if there is one, counted from 1. It is printed after
    /// the replies.
    pub skipped: Listed<u32>,
}

/// What the line asks of a spool, at this moment on the site's clock and with this input, which is
/// the job's if the line hands one in.
///
/// # Errors
/// `Input` exactly if the line takes an input and that has more than `MAX_TEXT` bytes, then `Bundle`
/// with `Sealed` or `OwnSite` if the site exchanges no bundles with the line's neighbour, then `Time`
/// with the fault of the first faulty line of a sys file, or `Bundle` if the input isn't a bundle
/// from the neighbour to this site, else `Memory`.
pub fn request_of(
    alloc: Global,
    line: CommandLine,
    settings: &Settings,
    at: Moment,
    input: Vec<u8>,
) -> Result<Request, RequestFault>
    requires { IsDateTimeAt at.local (local_second settings.now.zone at.second) }
    ensures { UnlessMemory (spec.LineAsks settings.now at input.items line) result }
{
    if line.task.has_input() && input.len() > MAX_TEXT {
        drop(line);
        return Err(RequestFault::Input);
    }
    if let Some(why) = wrong_neighbour(&line.task, settings) {
        drop(line);
        return Err(RequestFault::Bundle(why));
    }
    let CommandLine {
        config: _,
        at: _,
        user,
        task,
    } = line;
    task_request(alloc, task, user, settings, at, input)
}

// What a task asks for, of this user.
fn task_request(
    alloc: Global,
    task: Task,
    user: Word,
    settings: &Settings,
    at: Moment,
    input: Vec<u8>,
) -> Result<Request, RequestFault>
    requires clock { IsDateTimeAt at.local (local_second settings.now.zone at.second) }
    requires fits { IsTrue (takes_input task) → length input.items ≤ most_text }
    ensures { UnlessMemory (spec.TaskAsks settings.now at input.items user task) result }
{
    match task {
        Task::Load => load(alloc, &input),
        Task::Drop { system } => one(alloc, Command::Remove(system)),
        Task::Send {
            system,
            source,
            target,
            grade,
            once,
        } => {
            let key = file_key(once, "send", &system, &user, &source, &target, &input);
            let kind = Kind::Send { source, target };
            queue(alloc, key, user, system, grade, kind, input, at)
        }
        Task::Request {
            system,
            source,
            target,
            grade,
            once,
        } => {
            let key = file_key(once, "request", &system, &user, &source, &target, &[]);
            let kind = Kind::Request { source, target };
            queue(alloc, key, user, system, grade, kind, Vec::new(alloc), at)
        }
        Task::Execute {
            grade,
            once,
            system,
            command,
            arguments,
        } => {
            let key = execution_key(once, &system, &user, &command, arguments.as_slice(), &input);
            let kind = Kind::Execute { command, arguments };
            queue(alloc, key, user, system, grade, kind, input, at)
        }
        Task::Mail {
            grade,
            once,
            system,
            rests,
        } => {
            let key = message_key(once, &system, &user, rests.as_slice(), &input);
            mail(alloc, key, user, system, grade, rests, &input, at, settings)
        }
        Task::List { filter } => Ok(Request::Question(Question::Jobs(filter))),
        Task::Show { job } => Ok(Request::Question(Question::Job(job))),
        Task::Kill { job } => {
            let by = by_of(user, settings);
            one(alloc, Command::Kill { job, by })
        }
        Task::Regrade { job, grade } => {
            let by = by_of(user, settings);
            one(alloc, Command::Regrade { job, grade, by })
        }
        Task::Rejuvenate { job } => {
            let by = by_of(user, settings);
            one(alloc, Command::Rejuvenate { job, at, by })
        }
        Task::Due { system } => Ok(Request::Question(due_question(system, at))),
        Task::When { filter } => Ok(Request::Question(Question::NextCalls(filter, at))),
        Task::Polls { system } => Ok(Request::Question(Question::NextPolls(system, at))),
        Task::Queues { filter } => Ok(Request::Question(Question::Queues(filter))),
        Task::Status => Ok(Request::Question(Question::Systems)),
        Task::Systems { system } => Ok(Request::Question(Question::Definitions(system))),
        Task::Failed { system, why } => one(alloc, Command::Failed { system, at, why }),
        Task::Done { system, jobs } => one(alloc, Command::Done { system, at, jobs }),
        Task::Forget { system, below } => one(alloc, Command::Forget { system, below }),
        Task::Pack {
            system,
            grade,
            spool,
            after,
            most,
            no_jobs,
        } => pack(alloc, system, grade, spool, after, most, no_jobs),
        Task::Unpack { sender, onward } => {
            unpack(alloc, sender, onward.as_slice(), settings, &at, &input)
        }
        Task::Settle { system, spool } => settle(alloc, system, spool, settings, &input),
        Task::Answer {
            sender,
            onward,
            grade,
            spool,
            after,
            most,
            no_jobs,
        } => {
            let packing = packing(alloc, sender, grade, spool, after, most, no_jobs)?;
            answer(alloc, packing, onward.as_slice(), settings, &at, &input)
        }
        Task::Map => entries(alloc, &input),
        Task::Neighbours { host } => Ok(Request::Question(Question::Entry(host))),
        Task::Name => Ok(Request::Question(Question::Name)),
        Task::Routes { host, costs } => Ok(Request::Question(Question::Routes(host, costs))),
    }
}

// What may go at this moment: each system's first job, or all jobs of the system that is named.
fn due_question(system: Option<SiteName>, at: Moment) -> Question
    ensures { result ≡ spec.due_question system at }
{
    match system {
        None => Question::Due(at),
        Some(system) => {
            let filter = Filter {
                system: Some(system),
                user: None,
            };
            Question::AllDue(filter, at)
        }
    }
}

/// One command, whose reply is the line's.
pub(crate) fn one(alloc: Global, command: Command) -> Result<Request, RequestFault>
    ensures { AnswersUnlessMemory result (Ok (spec.one command)) }
{
    let mut commands = Vec::new(alloc);
    commands.push(command)?;
    let mut subjects = Vec::new(alloc);
    subjects.push(Subject::Line)?;
    Ok(Request::Commands(CommandList {
        commands: Listed::from_vec(commands),
        subjects: Listed::from_vec(subjects),
        skipped: Listed::from_vec(Vec::new(alloc)),
    }))
}

/// A job of these bytes is handed in now, under the key if there is one. Mail without a key may go by
/// the map.
pub(crate) fn queue(
    alloc: Global,
    key: Option<Key>,
    user: Word,
    system: SiteName,
    grade: Grade,
    kind: Kind,
    bytes: Vec<u8>,
    at: Moment,
) -> Result<Request, RequestFault>
    ensures { AnswersUnlessMemory result (Ok (spec.queue key user at system grade kind bytes.items)) }
{
    let job = NewJob {
        system,
        grade,
        user,
        kind,
        bytes: Listed::from_vec(bytes),
        at,
    };
    if is_mail(&job.kind) && key.is_none() {
        return Ok(Request::Mailing(job));
    }
    match key {
        Some(key) => one(alloc, Command::QueueOnce(key, job)),
        None => one(alloc, Command::Queue(job)),
    }
}

// Whether the system runs `rmail` with addresses.
fn is_mail(kind: &Kind) -> bool
    ensures { result ≡ spec.is_mail kind.now }
{
    match kind {
        Kind::Execute { command, arguments } => {
            command.as_str() == "rmail" && !arguments.as_slice().is_empty()
        }
        _ => false,
    }
}

// Who changes a job: an administrator is a user whom the settings name.
fn by_of(user: Word, settings: &Settings) -> By
    ensures { result ≡ spec.by_of settings.now user }
{
    let admin = is_among(user.as_str(), &settings.admins);
    By { user, admin }
}

// Whether the user is one of these.
fn is_among(user: &str, users: &[Word]) -> bool
    ensures { result ≡ list_any (λ one. same_text one user.now) users.now }
{
    users.iter().any(|one| one.as_str() == user)
}
