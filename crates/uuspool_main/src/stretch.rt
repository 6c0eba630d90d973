//! One stretch of work over the files of the spool, from their opening until the spool is let go.
ghost use Rattle.std.specs.Prelude.{◌≡◌, ◌≢◌, false, [], Ok, IfOk, IfErr};
ghost use Rattle.sqlite_wal.specs.Files.{image_at};
ghost use Rattle.sqlite_wal.specs.Recovery.{Image};
ghost use Rattle.uu_core.specs.State.{State};
ghost use Rattle.uu_store.specs.Files.{AllFilesPassed, file_exchanges, last_left};
ghost use Rattle.uu_store.specs.Openings.{ImageKeeps, IsRightFault, LeavesAlone, LeavesAsKept, Started, remains_of};
ghost use Rattle.uu_request.specs.Requests.{LineAsks};
ghost use Rattle.uu_times.specs.Moment.{IsDateTimeAt, local_second};
ghost use Rattle.uuspool.specs.Served.{EndsAs, IsFaultOfLine, IsServed};
ghost use Rattle.uuspool_main.specs.Stretch.{HasMoment, IsOfInvocation, IsOfLines, IsRun, IsRunAfter, LetsGo, ShowsKept, WasGiven};

use crate::batching::batch_on;
use crate::is_log_long;
use crate::room::room_for;
use sqlite::{Alter, FileStore, Files, Start};
use sqlite_disk::Disk;
use std::alloc::Global;
use std::mem::drop;
use uu_store::laws::{FileHistory, calls_make_a_stretch, no_answered_command_is_lost_in_files};
use uu_store::{OpenFault, Spool, SpoolFile, StoreFault, open_spool};
use uu_times::Moment;
use uuspool::laws::lines_are_one_run;
use uuspool::{CommandLine, Fault, Settings, serve_line};

/// What the program was invoked for: what it does with the spool.
#[derive(Drop)]
pub(crate) enum Invocation {
    /// A line, at this moment, with this input.
    Line {
        line: CommandLine,
        at: Moment,
        input: Vec<u8>,
    },
    /// The requests on standard input.
    Requests,
}

/// How the work ended, and the answer to a line. A batch prints its answers itself.
#[derive(Drop)]
pub(crate) struct Answer {
    /// The status, or the fault.
    pub end: Result<u8, Fault>,
    /// What is to be printed before that.
    pub output: Vec<u8>,
}

/// What is left of the spool's files.
#[derive(Drop)]
pub(crate) enum Rest<D: Disk> {
    /// The store of a spool that was let go.
    Store(FileStore<D>),
    /// The files, which were closed.
    Closed(Files<D>),
    /// The store of a spool whose files could not be closed.
    Unclosed(FileStore<D>),
}

/// Opens the spool's file that the settings name, does the work over the spool in it, and lets the
/// spool go. This is a stretch of work, with any contents of the files, and with the commands and
/// the replies of this work. No clause names the path.
///
/// Suppose that nobody else wrote the files since some stretches before, and that the disk returned
/// what was written. Then the work begins with the state that the machine reaches by the commands
/// that count (`shows`). A job whose number was answered is there with all its bytes, unless an
/// accepted command killed or delivered it, and no other job has its number. If the number was the
/// answer to a key, this holds of the job that was first handed in under the key. If the key was
/// kept before those stretches, it holds that the job of this number is there, or was killed or
/// delivered.
///
/// It doesn't accept a type of first contents that assumes something about a torn write, as
/// `Unknown` does.
///
/// # Errors
/// Those of `open_spool`, with the invocation, of which nothing was done.
pub(crate) fn work_on_file<H: FileHistory, T: Start>(
    rt: &HostRuntime,
    settings: &Settings,
    invocation: Invocation,
    start: T,
) -> Result<(Answer, Rest<SpoolFile<T>>), (OpenFault<SpoolFile<T>>, Invocation)>
    requires moment { HasMoment settings.now invocation }
    // Nothing is assumed about a torn write.
    requires wary { T.Start.is_mixing ≡ false }
    ensures stretch { IfOk result (λ end. IsRun settings.now invocation (image_at T.Start) end.0.end end.0.output.items end.1) }
    ensures shows { IfOk result (λ end. (s : State) → ImageKeeps H.before s → AllFilesPassed H.before H.stretches → image_at T.Start ≡ last_left H.before H.stretches
        → IsRunAfter s (file_exchanges H.stretches) settings.now invocation (image_at T.Start) end.0.end end.0.output.items end.1) }
    ensures named { IfErr result (λ e. IsRightFault (image_at T.Start) e.0.fault (remains_of e.0)) }
    ensures never_failed { IfErr result (λ e. e.0.fault ≢ StoreFault.Failed) }
    ensures left { IfErr result (λ e. LeavesAsKept (image_at T.Start) (remains_of e.0)) }
    ensures left_alone { IfErr result (λ e. LeavesAlone (image_at T.Start) e.0.fault (remains_of e.0)) }
    ensures given_back { IfErr result (λ e. e.1 ≡ invocation) }
{
    no_answered_command_is_lost_in_files::<H>();
    let room = room_for(settings, &invocation);
    match open_spool(rt, settings.spool.as_str(), room, start) {
        Ok(spool) => Ok(work_on(rt, settings, invocation, spool)),
        Err(failed) => Err((failed, invocation)),
    }
}

// Does the work over a spool, and lets the spool go. Everything is answered by then, so a close
// that fails changes none of it: the log keeps what it has, and the next line tries again.
fn work_on<D: Disk + Drop>(
    rt: &HostRuntime,
    settings: &Settings,
    invocation: Invocation,
    spool: Spool<FileStore<D>>,
) -> (Answer, Rest<D>)
    requires { HasMoment settings.now invocation }
    ensures { (before : Image) → Started before spool → ShowsKept before spool → IsRun settings.now invocation before result.0.end result.0.output.items result.1 }
{
    calls_make_a_stretch::<D>();
    let mut spool = spool;
    let answer = do_work(rt, settings, invocation, &mut spool);
    let closes = answer.end.is_ok() && is_log_long(rt, settings.spool.as_str());
    let rest = let_go(spool, closes);
    (answer, rest)
}

// Does the work over a spool.
fn do_work<S: Alter>(
    rt: &HostRuntime,
    settings: &Settings,
    invocation: Invocation,
    spool: &mut Spool<S>,
) -> Answer
    requires { HasMoment settings.now invocation }
    ensures { WasGiven spool.old spool.new (IsOfInvocation settings.now spool.old spool.new invocation result.end result.output.items) }
{
    lines_are_one_run::<S>();
    match invocation {
        Invocation::Line { line, at, input } => {
            answer_to(rt.alloc(), line, settings, at, input, spool)
        }
        Invocation::Requests => batch_answer(rt, settings, spool),
    }
}

// Answers the requests on standard input, and prints the answers.
fn batch_answer<S: Alter>(rt: &HostRuntime, settings: &Settings, spool: &mut Spool<S>) -> Answer
    ensures { WasGiven spool.old spool.new (IsOfLines settings.now spool.old spool.new result.end) }
{
    let end = batch_on(rt, settings, spool);
    Answer {
        end,
        output: Vec::new(rt.alloc()),
    }
}

// Serves a line into memory, so that a slow reader of the answer holds nobody.
fn answer_to<S: Alter>(
    alloc: Global,
    line: CommandLine,
    settings: &Settings,
    at: Moment,
    input: Vec<u8>,
    spool: &mut Spool<S>,
) -> Answer
    requires { IsDateTimeAt at.local (local_second settings.now.zone at.second) }
    ensures ends { EndsAs result.end
        ((request : _) × LineAsks settings.now at input.items line (Ok request)
        × IsServed settings.now request spool.old spool.new (λ output. result.output.items ≡ output) result.end)
        ((spool.new ≡ spool.old) × (result.output.items ≡ [])) }
    ensures fault { IfErr result.end (IsFaultOfLine settings.now line at input.items) }
{
    let mut output = Vec::new(alloc);
    let end = serve_line(alloc, line, settings, at, input, spool, &mut output);
    Answer { end, output }
}

/// Lets the spool go, or closes its files.
pub(crate) fn let_go<D: Disk + Drop>(spool: Spool<FileStore<D>>, closes: bool) -> Rest<D>
    ensures { LetsGo spool result }
{
    if !closes {
        return Rest::Store(spool.into_store());
    }
    match spool.close() {
        Ok(files) => Rest::Closed(files),
        Err((_, store)) => Rest::Unclosed(store),
    }
}
