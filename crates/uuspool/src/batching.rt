//! Many requests in one process: a stream of lines that are served over one spool, and the stream
//! of their answers.
ghost use Rattle.std.specs.Prelude.{◌≡◌, ◌++◌, ℕ, List, Bool, true, false, [], Option, Err, IfErr, IfOk, IfSome, OnOk, ⊤, map, string_bytes};
ghost use Rattle.std.specs.Io.KnownBytes.{Appends};
ghost use Rattle.uu_frame.specs.Frames.{IsCause};
ghost use Rattle.uu_names.specs.Text.{most_text};
ghost use Rattle.uuspool.specs.ServedLines.{Serves, goes_on, left_fault};
ghost use Rattle.uuspool.specs.Faults.{errors_of_fault, output_of_fault, status_of};
ghost use Rattle.uuspool.specs.Batch.{IsBatch, IsOfStream, IsUntold, end_errors, end_output, end_status, fault_answer, line_with, told_frame};
ghost use Rattle.uuspool.specs.Internal.BatchSteps.{IsBatchStep};

use crate::fault::{Fault, fault_line, fault_status};
use crate::laws::lines_are_one_run;
use crate::serving::serve_words;
use sqlite::Alter;
use std::alloc::Global;
use std::io::{BufRead, Write};
use uu_frame::{Frame, FrameFault, read_request, write_answer};
use uu_names::text::MAX_TEXT;
use uu_settings::Settings;
use uu_store::{Spool, StoreFault};

/// A clock for the requests that give no second.
pub trait Clock {
    // The clock gave this second, and is the later one since.
    ghost tells: { Self → ℕ → Self → Type 0 } = { λ _ _ _. ⊤ };

    /// The second, or `None` if it can't be read.
    fn second(&mut self) -> Option<u64>
        ensures { IfSome result (λ second. tells self.old second self.new) };
}

/// Serves each request of the stream over the spool, and writes its answer, which is flushed before
/// the next request is read. The clock is read once for each request. Returns the program's status:
/// 0 at the end of the stream, or that of the last answer, which reports a fault of the stream.
/// After a fault of the spool, and if memory ran out within a request, no further request is
/// carried out: each is answered that the spool failed.
///
/// # Errors
/// `Write` and `Memory` if an answer could not be written or made. Then a beginning of it was
/// written, and with `Memory` nothing of it. The request in hand may have been carried out. `Read`
/// after 2^64 - 1 requests, which were answered.
pub fn batch<S: Alter, C: Clock, R: BufRead, W: Write>(
    alloc: Global,
    settings: &Settings,
    clock: &mut C,
    reader: &mut R,
    spool: &mut Spool<S>,
    out: &mut W,
) -> Result<u8, Fault>
    ensures { IsBatch settings.now C.tells clock.old spool.old spool.new (R.remaining reader.old) (R.remaining reader.new) (W.contents out.old) (W.contents out.new) result }
{
    lines_are_one_run::<S>();
    let mut failed = false;
    for _count in 0..u64::MAX {
        match answer_next(alloc, settings, failed, clock, reader, spool, out) {
            Ok(Step::Answered { goes_on }) => failed = !goes_on,
            Ok(Step::Ended(status)) => return Ok(status),
            Err(fault) => return Err(fault),
        }
    }
    Err(Fault::Read)
}

// What was done with the next bytes of a stream.
enum Step {
    // A request was answered. `goes_on` says whether the next one is served.
    Answered { goes_on: bool },
    // There is no further request, and this is the program's status.
    Ended(u8),
}

// Answers the next request of the stream, or the stream's own fault.
fn answer_next<S: Alter, C: Clock, R: BufRead, W: Write>(
    alloc: Global,
    settings: &Settings,
    failed: bool,
    clock: &mut C,
    reader: &mut R,
    spool: &mut Spool<S>,
    out: &mut W,
) -> Result<Step, Fault>
    ensures { IsBatchStep settings.now C.tells failed clock.old clock.new spool.old spool.new (R.remaining reader.old) (R.remaining reader.new) (W.contents out.old) (W.contents out.new) result }
{
    let frame = match read_request(alloc, MAX_TEXT, reader) {
        Ok(Some(frame)) => frame,
        Ok(None) => return Ok(Step::Ended(0)),
        Err(fault) => return end_with(alloc, stream_fault(alloc, fault), out),
    };
    let Some(now) = clock.second() else {
        return end_with(alloc, Fault::Read, out);
    };
    let answer = answer_to(alloc, settings, failed, frame, now, spool);
    let goes_on = goes_on(&answer.end);
    match tell(alloc, answer, out) {
        Ok(()) => Ok(Step::Answered { goes_on }),
        Err(fault) => Err(fault),
    }
}

// The result of a request: what was printed, and the status or the fault.
#[derive(Drop)]
struct Answer {
    output: Vec<u8>,
    end: Result<u8, Fault>,
}

// Serves the request, unless the spool failed before.
fn answer_to<S: Alter>(
    alloc: Global,
    settings: &Settings,
    failed: bool,
    frame: Frame,
    now: u64,
    spool: &mut Spool<S>,
) -> Answer
    ensures served { failed ≡ false → Serves settings.now (line_with (map string_bytes frame.words.items) now frame.input.items result.output.items result.end) spool.old spool.new }
    ensures left { failed ≡ true → (result.output.items ≡ []) × (result.end ≡ Err left_fault) × (spool.new ≡ spool.old) }
{
    if failed {
        return Answer {
            output: Vec::new(alloc),
            end: Err(Fault::Store(StoreFault::Failed)),
        };
    }
    let Frame { words, input } = frame;
    let mut output = Vec::new(alloc);
    let end = serve_words(alloc, &words, settings, now, input, spool, &mut output);
    Answer { output, end }
}

// Whether the next request is served after this end. After a fault of memory or of the output the
// spool may have failed too.
fn goes_on(end: &Result<u8, Fault>) -> bool
    ensures { result ≡ goes_on end.now }
{
    !matches!(end, Err(Fault::Store(_) | Fault::Write | Fault::Memory))
}

// Writes the answer: the status, the output, and the errors.
fn tell<W: Write>(alloc: Global, answer: Answer, out: &mut W) -> Result<(), Fault>
    ensures answer { OnOk result (Appends (W.contents out.old) (W.contents out.new) (told_frame answer.output.items answer.end)) }
    ensures untold { IfErr result (IsUntold (told_frame answer.output.items answer.end) (Appends (W.contents out.old) (W.contents out.new))) }
{
    let Ok(told) = told_of(alloc, answer) else {
        return Err(Fault::Memory);
    };
    match write_answer(alloc, told.status, &told.output, &told.errors, out) {
        Ok(()) => Ok(()),
        Err(FrameFault::Memory) => Err(Fault::Memory),
        Err(_) => Err(Fault::Write),
    }
}

// The contents of an answer: the program's status, and what it prints on its two outputs.
#[derive(Drop)]
struct Told {
    status: u8,
    output: Vec<u8>,
    errors: Vec<u8>,
}

// The contents of an answer.
fn told_of(alloc: Global, answer: Answer) -> Result<Told, Fault>
    ensures status { IfOk result (λ told. told.status ≡ end_status answer.end) }
    ensures output { IfOk result (λ told. told.output.items ≡ answer.output.items ++ end_output answer.end) }
    ensures errors { IfOk result (λ told. told.errors.items ≡ end_errors answer.end) }
{
    let Answer { output, end } = answer;
    match end {
        Ok(status) => Ok(Told {
            status,
            output,
            errors: Vec::new(alloc),
        }),
        Err(fault) => told_of_fault(alloc, output, &fault),
    }
}

// The contents of an answer with a fault after an output: the text of help follows the output, and
// the line of any other fault is an error.
fn told_of_fault(alloc: Global, output: Vec<u8>, fault: &Fault) -> Result<Told, Fault>
    ensures status { IfOk result (λ told. told.status ≡ status_of fault.now) }
    ensures output { IfOk result (λ told. told.output.items ≡ output.items ++ output_of_fault fault.now) }
    ensures errors { IfOk result (λ told. told.errors.items ≡ errors_of_fault fault.now) }
{
    let mut output = output;
    let status = fault_status(fault);
    let mut errors = fault_line(alloc, fault)?;
    if fault.is_help() {
        output.append(&mut errors)?;
    }
    Ok(Told {
        status,
        output,
        errors,
    })
}

// Ends the stream with the answer to a fault of its own.
fn end_with<W: Write>(alloc: Global, fault: Fault, out: &mut W) -> Result<Step, Fault>
    ensures answer { IfOk result (λ step. (step ≡ Step.Ended (status_of fault)) × Appends (W.contents out.old) (W.contents out.new) (fault_answer fault)) }
    ensures untold { IfErr result (IsUntold (fault_answer fault) (Appends (W.contents out.old) (W.contents out.new))) }
{
    let status = fault_status(&fault);
    let answer = Answer {
        output: Vec::new(alloc),
        end: Err(fault),
    };
    match tell(alloc, answer, out) {
        Ok(()) => Ok(Step::Ended(status)),
        Err(fault) => Err(fault),
    }
}

// A fault of the stream as a fault of the program.
fn stream_fault(alloc: Global, fault: FrameFault) -> Fault
    ensures { (had left : Option (List ℕ)) → IsCause most_text had left fault → IsOfStream had left result }
{
    match fault {
        FrameFault::NoRequest => match String::from_str(alloc, "uuspool: no request\n") {
            Ok(text) => Fault::Words { text, help: false },
            Err(_) => Fault::Memory,
        },
        FrameFault::TooLarge => Fault::Input,
        FrameFault::Memory => Fault::Memory,
        FrameFault::Read | FrameFault::Write => Fault::Read,
    }
}
