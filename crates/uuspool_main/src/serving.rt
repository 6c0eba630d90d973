//! Serving a line or a batch over the spool of a site, in its turn.

ghost use Rattle.std.specs.Prelude.{◌≡◌, [], IfOk};
ghost use Rattle.uuspool.specs.Served.{IsMomentOf, second_of};
ghost use Rattle.uuspool_main.specs.Stretch.{HasMoment};

use crate::given::{Given, given_for, moment_for};
use crate::logged::{change_of, first_line, log_answer};
use crate::room::{Incoming, limit_reached};
use crate::sealing::Sealing;
use crate::stretch::{Answer, Invocation, Rest, work_on_file};
use crate::trouble::{Trouble, print_warning};
use sqlite::Wary;
use sqlite_disk::Disk;
use std::io::Write;
use std::mem::drop;
use std::{io, str};
use uu_names::Word;
use uu_report::Change;
use uu_site::{
    Places, Share, SiteFault, Turn, expect_own_folder, expect_spool, give_up_reserve, make_reserve,
    patience, pause, places_of, read_word, take_turn,
};
use uu_store::laws::FileHistory;
use uu_store::{StoreFault, StoreKind};
use uuspool::{CommandLine, Fault, Settings, Task, line_of};

/// Serves a line: takes its turn, does the work over the spool, notes a change in the log, ends the
/// turn, and then prints the answer, so that a slow reader holds nobody.
pub(crate) fn serve_words(
    rt: &HostRuntime,
    settings: &Settings,
    sealing: &Sealing,
    words: &[String],
    line: CommandLine,
) -> Result<u8, Trouble> {
    match ready_for(rt, settings, sealing, words, &line) {
        Ok(ready) => serve_ready(rt, settings, sealing, words, line, ready),
        Err(trouble) => {
            drop(line);
            Err(trouble)
        }
    }
}

// What a line needs before its turn.
#[derive(Drop)]
struct Ready {
    given: Given,
    places: Places,
    change: Option<Change>,
}

// What this line, of these words, needs before its turn.
fn ready_for(
    rt: &HostRuntime,
    settings: &Settings,
    sealing: &Sealing,
    words: &[String],
    line: &CommandLine,
) -> Result<Ready, Trouble>
    ensures { IfOk result (λ ready. (now : _) × IsMomentOf settings.now (second_of line.now now) ready.given.at) }
{
    let given = given_for(rt, settings, sealing, line)?;
    let places = places_of(rt, settings.spool.as_str())?;
    let change = change_of(rt.alloc(), words, line)?;
    Ok(Ready {
        given,
        places,
        change,
    })
}

// Serves a line in its turn, and prints the answer after it.
fn serve_ready(
    rt: &HostRuntime,
    settings: &Settings,
    sealing: &Sealing,
    words: &[String],
    line: CommandLine,
    ready: Ready,
) -> Result<u8, Trouble>
    requires { (now : _) × IsMomentOf settings.now (second_of line now) ready.given.at }
{
    let Ready {
        given,
        places,
        change,
    } = ready;
    match answer_in_turn(rt, settings, &places, &change, words, line, given) {
        Ok(answered) => tell(rt, &places, sealing, &change, answered),
        Err(trouble) => Err(trouble),
    }
}

// An answer, what the line brings in, and whether the log has its line.
#[derive(Drop)]
struct Answered {
    answer: Answer,
    incoming: Option<Incoming>,
    noted: Result<(), SiteFault>,
}

// Takes the turn, serves the line, notes it, and ends the turn.
fn answer_in_turn(
    rt: &HostRuntime,
    settings: &Settings,
    places: &Places,
    change: &Option<Change>,
    words: &[String],
    line: CommandLine,
    given: Given,
) -> Result<Answered, Trouble>
    requires { (now : _) × IsMomentOf settings.now (second_of line now) given.at }
{
    match turn_at(rt, places) {
        Ok(turn) => {
            let incoming = Incoming::of_line(settings, &line, &given.input);
            let answered = match serve_with_room(rt, settings, places, &turn, words, line, given) {
                Ok(served) => Ok(noted_in_log(rt, settings, places, change, incoming, served)),
                Err(trouble) => Err(trouble),
            };
            drop(turn);
            answered
        }
        Err(trouble) => {
            drop(line);
            drop(given);
            Err(trouble)
        }
    }
}

// Notes an answer in the log. If a change was carried out, the disk has room, and a reserve is made
// if there is none.
fn noted_in_log(
    rt: &HostRuntime,
    settings: &Settings,
    places: &Places,
    change: &Option<Change>,
    incoming: Option<Incoming>,
    served: Served,
) -> Answered {
    let Served { answer, share } = served;
    let noted = match change {
        Some(change) => log_answer(rt, settings, places, change, &answer),
        None => Ok(()),
    };
    if change.is_some() && answer.end.is_ok() {
        make_reserve(rt, places, share);
    }
    Answered {
        answer,
        incoming,
        noted,
    }
}

// An answer, and how much of the room that is left the next reserve may take.
#[derive(Drop)]
struct Served {
    answer: Answer,
    share: Share,
}

// Serves a line. If it only takes away and there was no room for it, it is tried once more with the
// room of the reserve. The first try may have done it, so that the second is refused: then the first
// answer stays.
fn serve_with_room(
    rt: &HostRuntime,
    settings: &Settings,
    places: &Places,
    turn: &Turn,
    words: &[String],
    line: CommandLine,
    given: Given,
) -> Result<Served, Trouble>
    requires { (now : _) × IsMomentOf settings.now (second_of line now) given.at }
{
    let spare = spare_for(&line.task, &given.input);
    let first = serve_in_turn(rt, settings, places, turn, line, given);
    match spare {
        Some(input) if lacks_room(&first) => {
            let again = serve_with_reserve(rt, settings, places, turn, words, input);
            match again {
                Some(done) => Ok(done),
                None => first_served(first),
            }
        }
        _ => first_served(first),
    }
}

// Serves the line that the words mean once more, in the room of the reserve. `None` if there is no
// reserve, or the line wasn't carried out then either.
fn serve_with_reserve(
    rt: &HostRuntime,
    settings: &Settings,
    places: &Places,
    turn: &Turn,
    words: &[String],
    input: Vec<u8>,
) -> Option<Served> {
    let Some(share) = give_up_reserve(rt, places) else {
        drop(input);
        return None;
    };
    served_again(serve_again(rt, settings, places, turn, words, input), share)
}

// What the second try answered, if it was carried out.
fn served_again(again: Result<Answer, Trouble>, share: Share) -> Option<Served> {
    let answer = match again {
        Ok(answer) => answer,
        Err(_trouble) => return None,
    };
    if is_done(&answer) {
        return Some(Served { answer, share });
    }
    drop(answer);
    None
}

fn first_served(first: Result<Answer, Trouble>) -> Result<Served, Trouble> {
    match first {
        Ok(answer) => Ok(Served {
            answer,
            share: Share::Quarter,
        }),
        Err(trouble) => Err(trouble),
    }
}

// The input for a second try of a task that only takes away, if there is memory for it.
fn spare_for(task: &Task, input: &Vec<u8>) -> Option<Vec<u8>> {
    if !takes_away(task) {
        return None;
    }
    match input.clone() {
        Ok(input) => Some(input),
        Err(_) => None,
    }
}

// Whether a task changes the spool without bringing bytes into it, so that a full disk should not
// refuse it.
fn takes_away(task: &Task) -> bool {
    matches!(
        task,
        Task::Drop { .. }
            | Task::Kill { .. }
            | Task::Regrade { .. }
            | Task::Rejuvenate { .. }
            | Task::Failed { .. }
            | Task::Done { .. }
            | Task::Forget { .. }
            | Task::Settle { .. }
    )
}

// Whether the disk failed the line, as a full one does.
fn lacks_room(end: &Result<Answer, Trouble>) -> bool {
    match end {
        Ok(answer) => matches!(
            answer.end,
            Err(Fault::Store(StoreFault::Store(StoreKind::Disk)))
        ),
        Err(Trouble::Store { fault, .. }) => {
            matches!(*fault, StoreFault::Store(StoreKind::Disk))
        }
        Err(_) => false,
    }
}

fn is_done(answer: &Answer) -> bool {
    matches!(answer.end, Ok(0))
}

// Serves the line that the words mean once more. Its moment is that of now, if it gives none.
fn serve_again(
    rt: &HostRuntime,
    settings: &Settings,
    places: &Places,
    turn: &Turn,
    words: &[String],
    input: Vec<u8>,
) -> Result<Answer, Trouble> {
    let line = line_of(rt.alloc(), words)?;
    match moment_for(rt, line.at, settings) {
        Ok(at) => serve_in_turn(rt, settings, places, turn, line, Given { at, input }),
        Err(fault) => {
            drop(line);
            drop(input);
            Err(Trouble::Line(fault))
        }
    }
}

// Prints an answer, and warns if the log lacks its line.
fn tell(
    rt: &HostRuntime,
    places: &Places,
    sealing: &Sealing,
    change: &Option<Change>,
    answered: Answered,
) -> Result<u8, Trouble> {
    let Answered {
        answer,
        incoming,
        noted,
    } = answered;
    let end = print_answer(rt, places, sealing, change, incoming, answer);
    if let Err(fault) = &noted {
        print_warning(rt, fault);
    }
    end
}

/// Answers the requests on standard input, which takes the turn as long as it lasts.
pub(crate) fn serve_batch(rt: &HostRuntime, settings: &Settings) -> Result<u8, Trouble> {
    let places = places_of(rt, settings.spool.as_str())?;
    let turn = turn_at(rt, &places)?;
    expect_spool(rt, &places)?;
    let answer = run_on_file(rt, settings, &places, &turn, Invocation::Requests)?;
    if answer.end.is_ok() {
        make_reserve(rt, &places, Share::Quarter);
    }
    drop(turn);
    ended(rt, &places, None, answer.end)
}

/// Takes the turn at a spool, if its folder is this user's.
pub(crate) fn turn_at(rt: &HostRuntime, places: &Places) -> Result<Turn, Trouble> {
    expect_own_folder(rt, places.folder.as_str())?;
    Ok(take_turn(rt, places.lock.as_str(), patience(rt))?)
}

// Serves a line over the spool that is there. What it says to a neighbour it says under the word of
// the spool, if it gives no other.
#[tactic(auto, using(crate::proofs::StretchLemmas::moment_kept))]
fn serve_in_turn(
    rt: &HostRuntime,
    settings: &Settings,
    places: &Places,
    turn: &Turn,
    line: CommandLine,
    given: Given,
) -> Result<Answer, Trouble>
    requires { (now : _) × IsMomentOf settings.now (second_of line now) given.at }
{
    expect_spool(rt, places)?;
    let line = with_word(rt, places, line)?;
    let Given { at, input } = given;
    run_on_file(
        rt,
        settings,
        places,
        turn,
        Invocation::Line { line, at, input },
    )
}

// The line, with the word of the spool if it needs one.
fn with_word(rt: &HostRuntime, places: &Places, line: CommandLine) -> Result<CommandLine, Trouble>
    ensures { IfOk result (λ it. it.at ≡ line.at) }
{
    if !needs_word(&line.task) {
        return Ok(line);
    }
    let word = read_word(rt, places)?;
    let CommandLine {
        config,
        at,
        user,
        task,
    } = line;
    Ok(CommandLine {
        config,
        at,
        user,
        task: task_under(task, word),
    })
}

// Whether a task says something to a neighbour, and the line gives no word.
fn needs_word(task: &Task) -> bool {
    matches!(
        task,
        Task::Pack { spool: None, .. }
            | Task::Answer { spool: None, .. }
            | Task::Settle { spool: None, .. }
    )
}

// The task under this word.
fn task_under(task: Task, word: Word) -> Task {
    let mut task = task;
    match &mut task {
        Task::Pack { spool, .. } | Task::Answer { spool, .. } | Task::Settle { spool, .. } => {
            *spool = Some(word);
        }
        _ => drop(word),
    }
    task
}

// Prints the answer, and says how the line ended. A bundle is printed sealed, if it has to be.
fn print_answer(
    rt: &HostRuntime,
    places: &Places,
    sealing: &Sealing,
    change: &Option<Change>,
    incoming: Option<Incoming>,
    answer: Answer,
) -> Result<u8, Trouble> {
    let Answer { end, output } = answer;
    let output = match end {
        Ok(0) => sealing.sealed(rt.alloc(), output)?,
        _ => output,
    };
    match (print(rt, &output), ended(rt, places, incoming, end)) {
        (Err(error), Ok(_)) => Err(Trouble::Unprinted {
            error,
            told: told_instead(rt, change, &output)?,
        }),
        (_, end) => end,
    }
}

// What is said of a change whose answer could not be printed: the first line of the answer.
fn told_instead(rt: &HostRuntime, change: &Option<Change>, output: &[u8]) -> Result<String, Fault> {
    if change.is_none() {
        return Ok(String::new(rt.alloc()));
    }
    let text = str::from_utf8(output).unwrap_or("");
    Ok(String::from_str(rt.alloc(), first_line(text))?)
}

/// Prints bytes on standard output.
pub(crate) fn print(rt: &HostRuntime, bytes: &[u8]) -> io::Result<()> {
    io::writer(rt).write_all(bytes)
}

/// Prints this line for a change of the whole spool, and warns if the log lacks it. Returns the status.
pub(crate) fn tell_change(
    rt: &HostRuntime,
    noted: Result<(), SiteFault>,
    line: &str,
    status: u8,
) -> Result<u8, Trouble> {
    if let Err(fault) = noted {
        print_warning(rt, &fault);
    }
    match print(rt, line.as_bytes()) {
        Ok(()) => Ok(status),
        Err(error) => Err(Trouble::Unprinted {
            error,
            told: String::from_str(rt.alloc(), line.trim_ascii_end())?,
        }),
    }
}

/// How the work ended. A fault of the store gets the path of the spool, and the limit if that may be
/// the cause.
pub(crate) fn ended(
    rt: &HostRuntime,
    places: &Places,
    incoming: Option<Incoming>,
    end: Result<u8, Fault>,
) -> Result<u8, Trouble> {
    match end {
        Ok(status) => Ok(status),
        Err(Fault::Store(fault)) => match limit_reached(rt, places, incoming, fault) {
            Some(limit) => full_trouble(rt, places, limit),
            None => store_trouble(rt, places, fault),
        },
        Err(fault) => Err(Trouble::Line(fault)),
    }
}

// The spool has reached its limit.
fn full_trouble<T: Drop>(rt: &HostRuntime, places: &Places, limit: u64) -> Result<T, Trouble> {
    Err(Trouble::Full {
        path: String::from_str(rt.alloc(), places.spool.as_str())?,
        limit,
    })
}

/// A history without stretches. Only clauses name it, and `work_on_file` is proved for any other
/// (docs/trust.md).
struct NoHistory;

impl FileHistory for NoHistory {
    ghost before = { record { log = []; db = [] } };

    ghost stretches = { [] };
}

/// Does the work over the spool's file that the settings name, by a function whose clauses speak of
/// all contents and of all that was done before. What is left of the files is dropped. While another
/// program has the database open, it tries again, as long as the line may wait for its turn.
#[tactic(auto, using(crate::proofs::StretchLemmas::moment_stays))]
pub(crate) fn run_on_file(
    rt: &HostRuntime,
    settings: &Settings,
    places: &Places,
    turn: &Turn,
    invocation: Invocation,
) -> Result<Answer, Trouble>
    requires { HasMoment settings.now invocation }
{
    let mut invocation = invocation;
    for attempt in 0..turn.tries_left() {
        match work_on_file::<NoHistory, Wary>(rt, settings, invocation, Wary) {
            Ok(worked) => return Ok(answer_of(worked)),
            Err((failed, again)) => {
                let fault = failed.fault;
                drop(failed);
                if !is_busy(fault) {
                    drop(again);
                    return store_trouble(rt, places, fault);
                }
                invocation = again;
                pause(rt, attempt);
            }
        }
    }
    drop(invocation);
    store_trouble(rt, places, StoreFault::Store(StoreKind::Busy))
}

/// Whether another program has the database open.
pub(crate) fn is_busy(fault: StoreFault) -> bool {
    matches!(fault, StoreFault::Store(StoreKind::Busy))
}

/// A fault of the store, with the path of the spool.
pub(crate) fn store_trouble<T: Drop>(
    rt: &HostRuntime,
    places: &Places,
    fault: StoreFault,
) -> Result<T, Trouble> {
    Err(Trouble::Store {
        fault,
        path: String::from_str(rt.alloc(), places.spool.as_str())?,
    })
}

// The answer; the rest is dropped.
fn answer_of<D: Disk + Drop>(worked: (Answer, Rest<D>)) -> Answer {
    let (answer, rest) = worked;
    drop(rest);
    answer
}
