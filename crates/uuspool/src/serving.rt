//! Serving one line of the program: its request goes to the spool, and the answer is printed.

ghost use Rattle.std.specs.Prelude.{◌≡◌, ◌≢◌, ℕ, true, false, List, [], Ok, IfOk, IfErr, IsSome, map};
ghost use Rattle.std.specs.String.{string_bytes};
ghost use Rattle.std.specs.Io.KnownBytes.{Appends};
ghost use Rattle.uu_line.specs.Lines.{MeansLine};
ghost use Rattle.uu_report.specs.Outputs.{answers_text};
ghost use Rattle.uu_request.specs.Requests as requests;
ghost use Rattle.uu_request.specs.declared.request.Request.TheVariants as request;
ghost use Rattle.uu_times.specs.Moment.{IsDateTimeAt, local_second};
ghost use Rattle.uuspool.specs.Served.{WordsAsk, EndsAs, IsEarly, IsFaultOf, IsFaultOfLine, IsMomentOf, IsPrintedEnd, IsServed, second_of};
ghost use Rattle.uuspool.specs.ServedLines.{Serves};

use crate::answer::ask;
use crate::fault::Fault;
use crate::line::line_of;
use crate::mailing::mail;
use crate::moment::moment_of;
use crate::print::print;
use crate::settling::settle;
use sqlite::Alter;
use std::alloc::Global;
use std::io::Write;
use std::mem::drop;
use uu_core::Subject;
use uu_line::CommandLine;
use uu_report::{answer_lines, output_of, status_of};
use uu_request::{CommandList, Request, Unpacking, request_of};
use uu_settings::Settings;
use uu_store::{Reply, RunEnd, Spool};
use uu_times::Moment;

/// Serves the line that the words after the program's name mean, with this input, at the line's
/// second or, if it gives none, at the second `now`. Writes its output to `out` and returns its
/// status: 0 for done, 1 if a command was refused or the job, entry or system isn't there.
///
/// # Errors
/// `Words`, `Name`, `TwoSystems`, `Time` and `Input` come in this order, before any call of the
/// spool. Only the `Time` of a sys file, and `Bundle`, come last. Then nothing is written and nothing
/// changes.
/// `Store` comes after the output of the commands that were answered. After `Write` accepted
/// commands stay accepted. If the store gave a fault, `Write` and `Memory` come instead of it only
/// if less than that output was written. `Settings` and `Read` never come.
pub fn serve<S: Alter, W: Write>(
    alloc: Global,
    words: &[String],
    settings: &Settings,
    now: u64,
    input: &[u8],
    spool: &mut Spool<S>,
    out: &mut W,
) -> Result<u8, Fault>
    // At each end the request of the words was served, or nothing changed.
    ensures ends { EndsAs result
        ((request : _) × WordsAsk settings.now (map string_bytes words.now) now input.now (Ok request)
        × IsServed settings.now request spool.old spool.new (λ output. Appends (W.contents out.old) (W.contents out.new) output) result)
        ((spool.new ≡ spool.old) × (out.new ≡ out.old)) }
    ensures fault { IfErr result (IsFaultOf settings.now (map string_bytes words.now) now input.now) }
    // With a writer whose bytes are known, it is one of the lines that are one run.
    ensures serves { (output : List ℕ) → IsSome (W.contents out.old) → Appends (W.contents out.old) (W.contents out.new) output
        → Serves settings.now (record { words = map string_bytes words.now; now = now; input = input.now; output = output; result = result }) spool.old spool.new }
{
    let input = Vec::from_slice(alloc, input)?;
    serve_words(alloc, words, settings, now, input, spool, out)
}

/// Serves the line that the words mean as [`serve`] does, and takes the input.
pub(crate) fn serve_words<S: Alter, W: Write>(
    alloc: Global,
    words: &[String],
    settings: &Settings,
    now: u64,
    input: Vec<u8>,
    spool: &mut Spool<S>,
    out: &mut W,
) -> Result<u8, Fault>
    ensures ends { EndsAs result
        ((request : _) × WordsAsk settings.now (map string_bytes words.now) now input.items (Ok request)
        × IsServed settings.now request spool.old spool.new (λ output. Appends (W.contents out.old) (W.contents out.new) output) result)
        ((spool.new ≡ spool.old) × (out.new ≡ out.old)) }
    ensures fault { IfErr result (IsFaultOf settings.now (map string_bytes words.now) now input.items) }
    ensures serves { (output : List ℕ) → IsSome (W.contents out.old) → Appends (W.contents out.old) (W.contents out.new) output
        → Serves settings.now (record { words = map string_bytes words.now; now = now; input = input.items; output = output; result = result }) spool.old spool.new }
{
    let (line, at) = line_and_moment(alloc, words, settings, now)?;
    serve_line(alloc, line, settings, at, input, spool, out)
}

// The line that the words mean, and its moment.
fn line_and_moment(
    alloc: Global,
    words: &[String],
    settings: &Settings,
    now: u64,
) -> Result<(CommandLine, Moment), Fault>
    ensures line { IfOk result (λ it. MeansLine (map string_bytes words.now) it.0 × IsMomentOf settings.now (second_of it.0 now) it.1) }
    ensures fault { (input : List ℕ) → IfErr result (IsFaultOf settings.now (map string_bytes words.now) now input) }
    ensures early { IfErr result IsEarly }
{
    let line = line_of(alloc, words)?;
    match moment_of(line.at.unwrap_or(now), settings) {
        Ok(at) => Ok((line, at)),
        Err(fault) => {
            drop(line);
            Err(fault)
        }
    }
}

/// Serves this line at this moment on the site's clock, with this input, which it takes. Writes its
/// output to `out` and returns its status, as [`serve`] does for words that mean the line. The
/// moment is the caller's: the line's own second isn't used.
///
/// # Errors
/// Those of [`serve`] without the faults of words and of the moment: `Input`, then the `Time` of a
/// sys file or `Bundle`, `Store`, `Write` and `Memory`.
pub fn serve_line<S: Alter, W: Write>(
    alloc: Global,
    line: CommandLine,
    settings: &Settings,
    at: Moment,
    input: Vec<u8>,
    spool: &mut Spool<S>,
    out: &mut W,
) -> Result<u8, Fault>
    requires { IsDateTimeAt at.local (local_second settings.now.zone at.second) }
    // At each end the line's request was served, or nothing changed.
    ensures ends { EndsAs result
        ((request : _) × requests.LineAsks settings.now at input.items line (Ok request)
        × IsServed settings.now request spool.old spool.new (λ output. Appends (W.contents out.old) (W.contents out.new) output) result)
        ((spool.new ≡ spool.old) × (out.new ≡ out.old)) }
    ensures fault { IfErr result (IsFaultOfLine settings.now line at input.items) }
    // With a writer whose bytes are known, and for all words that mean the line at this moment, it
    // is one of the lines that are one run.
    ensures serves { (words : List (List ℕ)) (now : ℕ) (output : List ℕ) → MeansLine words line → IsMomentOf settings.now (second_of line now) at
        → IsSome (W.contents out.old) → Appends (W.contents out.old) (W.contents out.new) output
        → Serves settings.now (record { words = words; now = now; input = input.items; output = output; result = result }) spool.old spool.new }
{
    match request_of(alloc, line, settings, at, input) {
        Ok(request) => serve_request(alloc, request, settings, spool, out),
        Err(fault) => Err(Fault::from(fault)),
    }
}

// Gives a request to the spool, and prints the answer.
fn serve_request<S: Alter, W: Write>(
    alloc: Global,
    request: Request,
    settings: &Settings,
    spool: &mut Spool<S>,
    out: &mut W,
) -> Result<u8, Fault>
    ensures { IsServed settings.now request spool.old spool.new (λ output. Appends (W.contents out.old) (W.contents out.new) output) result }
{
    match request {
        Request::Commands(list) => run(alloc, list, settings, spool, out),
        Request::Question(question) => ask(alloc, &question, settings, spool, out),
        Request::Mailing(job) => mail(alloc, job, settings, spool, out),
        Request::Settling(settling) => settle(alloc, &settling, settings, spool, out),
        Request::Unpacking(unpacking) => unpack(alloc, unpacking, settings, spool, out),
    }
}

// Gives these commands to the spool, and prints the replies.
fn run<S: Alter, W: Write>(
    alloc: Global,
    list: CommandList,
    settings: &Settings,
    spool: &mut Spool<S>,
    out: &mut W,
) -> Result<u8, Fault>
    ensures { IsServed settings.now (request.Commands list) spool.old spool.new (λ output. Appends (W.contents out.old) (W.contents out.new) output) result }
{
    let CommandList {
        commands,
        subjects,
        skipped,
    } = list;
    let end = spool.run(alloc, commands.into_vec());
    print_end(alloc, subjects.as_slice(), skipped.as_slice(), &end, out)
}

// Takes this bundle, and prints the replies. If the spool gives a fault, nothing was answered and
// nothing is printed.
fn unpack<S: Alter, W: Write>(
    alloc: Global,
    unpacking: Unpacking,
    settings: &Settings,
    spool: &mut Spool<S>,
    out: &mut W,
) -> Result<u8, Fault>
    ensures { IsServed settings.now (request.Unpacking unpacking) spool.old spool.new (λ output. Appends (W.contents out.old) (W.contents out.new) output) result }
{
    let Unpacking {
        bundle,
        subjects,
        skipped,
    } = unpacking;
    match spool.take_in(alloc, bundle) {
        Ok(replies) => print(
            output_of(alloc, subjects.as_slice(), skipped.as_slice(), &replies),
            status_of(&replies),
            out,
        ),
        Err(fault) => Err(Fault::Store(fault)),
    }
}

/// Prints the output of a run, or, if it was broken off, that of the commands that were answered. If
/// there is no output, no fault of memory or of the output hides the store's.
pub(crate) fn print_end<W: Write>(
    alloc: Global,
    subjects: &[Subject],
    skipped: &[u32],
    end: &RunEnd,
    out: &mut W,
) -> Result<u8, Fault>
    ensures { IsPrintedEnd subjects.now skipped.now end.now (λ output. Appends (W.contents out.old) (W.contents out.new) output) result }
{
    match end.stopped {
        None => print(
            output_of(alloc, subjects, skipped, &end.replies),
            status_of(&end.replies),
            out,
        ),
        Some(fault) => {
            if !is_answered(subjects, &end.replies) {
                return Err(Fault::Store(fault));
            }
            match print(answer_lines(alloc, subjects, &end.replies), 0, out) {
                Ok(_) => Err(Fault::Store(fault)),
                Err(fault) => Err(fault),
            }
        }
    }
}

// Whether something is printed for these replies.
fn is_answered(subjects: &[Subject], replies: &[Reply]) -> bool
    ensures some { result ≡ true → answers_text subjects.now replies.now ≢ [] }
    ensures none { result ≡ false → answers_text subjects.now replies.now ≡ [] }
{
    !subjects.is_empty() && !replies.is_empty()
}
