// What a spool is given or asked while memory runs out, as plain data: its calls, lines of the
// program and batches.
use crate::refusing::{ALL, NONE, Refusing, text_of, was_refused};
use crate::values::{
    Bundle, Order, SUNDAY, command, commands, moment, settings, site, take_in, words_of,
};
use sqlite::{Alter, Connection};
use std::alloc::Global;
use std::fmt::Debug;
use std::mem::drop;
use std::process::Abort;
use uu_core::Filter;
use uu_store::{Contents, RunEnd, Spool, StoreFault};
use uuspool::{Clock, Fault, batch, serve};

/// What a spool is given or asked.
#[derive(Clone, Copy)]
pub(crate) enum Act {
    Command(Order),
    Run(&'static [Order]),
    /// A neighbour's bundle, taken as one.
    TakeIn(Bundle),
    /// What another spool keeps after these runs, for one that is empty.
    Fill(&'static [&'static [Order]]),
    Jobs,
    Job(u32),
    Systems,
    /// Everything that the spool keeps, to be copied: about how much room it takes.
    Contents,
    Due(u64),
    Entry(&'static str),
    Taken(&'static str),
    /// Why the command would be refused.
    Refusal(Order),
    Next,
    /// A line of the program: its words with single spaces between them, and its input.
    Line(&'static str, &'static [u8]),
    /// The first requests of a batch, so many.
    Batch(usize),
    /// No call of a spool: a fault that is reported without a cause.
    Tell(StoreFault),
    /// A run that goes on after a command that ran out of memory. It reports the replies after that
    /// command, or leaves them out.
    GoOn(&'static [Order], bool),
}

impl Act {
    /// Whether it only asks.
    pub(crate) fn is_question(self) -> bool {
        matches!(
            self,
            Act::Jobs
                | Act::Job(_)
                | Act::Systems
                | Act::Contents
                | Act::Due(_)
                | Act::Entry(_)
                | Act::Taken(_)
                | Act::Refusal(_)
                | Act::Next
        )
    }
}

/// How a call ended.
#[derive(Clone, Copy, PartialEq, Eq)]
pub(crate) enum End {
    /// It gave its answer. A line ended with status 0.
    Whole,
    /// A line gave its answer, and ended with status 1.
    Refused,
    /// The spool ran out of memory, or a batch reported that and ended with status 4.
    Memory,
    /// A line or a batch ran out of memory itself.
    OwnMemory,
    /// The store failed.
    Store,
    /// The store failed before.
    Failed,
    /// It reported another fault.
    Other,
}

/// The result of a call: whether a request was refused meanwhile, how it ended, and the answer, the
/// replies or the output so far as text.
#[derive(Drop)]
pub(crate) struct Answered {
    pub(crate) refused: bool,
    pub(crate) end: End,
    pub(crate) text: String,
}

pub(crate) fn end_of(fault: StoreFault) -> End {
    match fault {
        StoreFault::Memory => End::Memory,
        StoreFault::Store(_) => End::Store,
        StoreFault::Failed => End::Failed,
        StoreFault::Foreign | StoreFault::Newer => End::Other,
    }
}

fn end_of_run(stopped: Option<StoreFault>) -> End {
    match stopped {
        Some(fault) => end_of(fault),
        None => End::Whole,
    }
}

fn end_of_line(ended: Result<u8, Fault>) -> End {
    match ended {
        Ok(0) => End::Whole,
        Ok(1) => End::Refused,
        Err(Fault::Memory) => End::OwnMemory,
        Err(Fault::Store(fault)) => end_of(fault),
        _ => End::Other,
    }
}

fn end_of_batch(ended: Result<u8, Fault>) -> End {
    match ended {
        Ok(0) => End::Whole,
        Ok(4) => End::Memory,
        Err(Fault::Memory) => End::OwnMemory,
        _ => End::Other,
    }
}

/// The answer that was just given. No request is refused any more.
fn answer_of<T: Debug + Drop>(
    rt: &impl Abort,
    alloc: Global,
    got: Result<T, StoreFault>,
) -> Answered {
    let refused = was_refused(alloc);
    match got {
        Ok(answer) => Answered {
            refused,
            end: End::Whole,
            text: text_of(rt, alloc, &answer),
        },
        Err(fault) => Answered {
            refused,
            end: end_of(fault),
            text: String::new(alloc),
        },
    }
}

/// The same for a run.
fn run_answered(rt: &impl Abort, alloc: Global, end: RunEnd) -> Answered {
    Answered {
        refused: was_refused(alloc),
        end: end_of_run(end.stopped),
        text: text_of(rt, alloc, &end.replies),
    }
}

/// What was written, as text.
fn written(rt: &impl Abort, out: Vec<u8>) -> String {
    String::from_utf8(out).ok().expect(rt, "a text")
}

// ---- each call alone

fn give_command<S: Alter>(
    rt: &impl Abort,
    alloc: Global,
    spool: &mut Spool<S>,
    order: Order,
    refusing: Refusing,
) -> Answered {
    let command = command(rt, alloc, order);
    refusing.begin(alloc);
    answer_of(rt, alloc, spool.command(alloc, command))
}

fn give_run<S: Alter>(
    rt: &impl Abort,
    alloc: Global,
    spool: &mut Spool<S>,
    orders: &[Order],
    refusing: Refusing,
) -> Answered {
    let commands = commands(rt, alloc, orders);
    refusing.begin(alloc);
    run_answered(rt, alloc, spool.run(alloc, commands))
}

fn give_bundle<S: Alter>(
    rt: &impl Abort,
    alloc: Global,
    spool: &mut Spool<S>,
    bundle: Bundle,
    refusing: Refusing,
) -> Answered {
    let bundle = take_in(rt, alloc, bundle);
    refusing.begin(alloc);
    answer_of(rt, alloc, spool.take_in(alloc, bundle))
}

/// What a spool in memory keeps after these runs.
fn contents_after(rt: &impl Abort, alloc: Global, runs: &[&[Order]]) -> Contents {
    let conn = Connection::open_in_memory(alloc).expect(rt, "memory");
    let Ok(mut spool) = Spool::adopt(alloc, conn) else {
        panic!(rt; "it was not taken")
    };
    for orders in runs {
        let end = spool.run(alloc, commands(rt, alloc, orders));
        assert!(rt; end.stopped.is_none(), "what comes before is not answered");
    }
    let contents = spool.contents(alloc).ok().expect(rt, "contents");
    drop(spool.into_store());
    contents
}

fn fill<S: Alter>(
    rt: &impl Abort,
    alloc: Global,
    spool: &mut Spool<S>,
    runs: &[&[Order]],
    refusing: Refusing,
) -> Answered {
    let contents = contents_after(rt, alloc, runs);
    refusing.begin(alloc);
    answer_of(rt, alloc, spool.fill(alloc, &contents))
}

fn ask_job<S: Alter>(
    rt: &impl Abort,
    alloc: Global,
    spool: &mut Spool<S>,
    number: u32,
    refusing: Refusing,
) -> Answered {
    refusing.begin(alloc);
    match spool.job(alloc, number) {
        Ok(Some((head, bytes))) => answer_of(rt, alloc, Ok((&head, str::from_utf8(&bytes)))),
        Ok(None) => answer_of(rt, alloc, Ok("no job")),
        Err(fault) => answer_of::<()>(rt, alloc, Err(fault)),
    }
}

fn serve_words<S: Alter>(
    rt: &impl Abort,
    alloc: Global,
    spool: &mut Spool<S>,
    line: &str,
    input: &[u8],
    refusing: Refusing,
) -> Answered {
    let settings = settings(rt, alloc);
    let words = words_of(rt, alloc, line);
    let mut out = Vec::with_capacity(alloc, 4096).expect(rt, "memory");
    refusing.begin(alloc);
    let ended = serve(alloc, &words, &settings, SUNDAY, input, spool, &mut out);
    Answered {
        refused: was_refused(alloc),
        end: end_of_line(ended),
        text: written(rt, out),
    }
}

/// The requests of a batch.
pub(crate) const REQUESTS: [&[u8]; 4] = [
    b"24 load\nsystem duke\ntime Any 30\n",
    b"3 --as ann send duke a b\nxyz",
    b"0 --as ann regrade 1 A\n",
    b"0 list\n",
];

/// A clock that doesn't move.
#[derive(Drop)]
struct Standing;

impl Clock for Standing {
    fn second(&mut self) -> Option<u64> {
        Some(SUNDAY)
    }
}

fn requests(rt: &impl Abort, alloc: Global, count: usize) -> Vec<u8> {
    let mut stream = Vec::new(alloc);
    for request in REQUESTS.iter().take(count) {
        stream.extend_from_slice(request).expect(rt, "memory");
    }
    stream
}

fn answer_batch<S: Alter>(
    rt: &impl Abort,
    alloc: Global,
    spool: &mut Spool<S>,
    count: usize,
    refusing: Refusing,
) -> Answered {
    let settings = settings(rt, alloc);
    let stream = requests(rt, alloc, count);
    let mut out = Vec::with_capacity(alloc, 4096).expect(rt, "memory");
    refusing.begin(alloc);
    let ended = batch(
        alloc,
        &settings,
        &mut Standing,
        &mut stream.as_slice(),
        spool,
        &mut out,
    );
    Answered {
        refused: was_refused(alloc),
        end: end_of_batch(ended),
        text: written(rt, out),
    }
}

fn go_on<S: Alter>(
    rt: &impl Abort,
    alloc: Global,
    spool: &mut Spool<S>,
    orders: &[Order],
    tells: bool,
    refusing: Refusing,
) -> Answered {
    let commands = commands(rt, alloc, orders);
    let mut replies = Vec::with_capacity(alloc, commands.len()).expect(rt, "memory");
    let mut stopped = None;
    refusing.begin(alloc);
    for command in commands {
        match spool.command(alloc, command) {
            Ok(reply) => {
                if tells || stopped.is_none() {
                    replies.push(reply).expect(rt, "memory");
                }
            }
            Err(fault) => stopped = Some(fault),
        }
    }
    run_answered(rt, alloc, RunEnd { replies, stopped })
}

/// A fault that is reported without a call.
fn tell(rt: &impl Abort, alloc: Global, fault: StoreFault, refusing: Refusing) -> Answered {
    refusing.begin(alloc);
    answer_of::<()>(rt, alloc, Err(fault))
}

/// Does the act while requests are refused.
pub(crate) fn perform<S: Alter>(
    rt: &impl Abort,
    alloc: Global,
    spool: &mut Spool<S>,
    act: Act,
    refusing: Refusing,
) -> Answered {
    if act.is_question() {
        return ask(rt, alloc, spool, act, refusing);
    }
    match act {
        Act::Command(order) => give_command(rt, alloc, spool, order, refusing),
        Act::Run(orders) => give_run(rt, alloc, spool, orders, refusing),
        Act::TakeIn(bundle) => give_bundle(rt, alloc, spool, bundle, refusing),
        Act::Fill(runs) => fill(rt, alloc, spool, runs, refusing),
        Act::Line(line, input) => serve_words(rt, alloc, spool, line, input, refusing),
        Act::Batch(count) => answer_batch(rt, alloc, spool, count, refusing),
        Act::GoOn(orders, tells) => go_on(rt, alloc, spool, orders, tells, refusing),
        Act::Tell(fault) => tell(rt, alloc, fault, refusing),
        _ => panic!(rt; "no call"),
    }
}

/// Asks a question while requests are refused. What it names is made before.
fn ask<S: Alter>(
    rt: &impl Abort,
    alloc: Global,
    spool: &mut Spool<S>,
    question: Act,
    refusing: Refusing,
) -> Answered {
    match question {
        Act::Job(number) => ask_job(rt, alloc, spool, number, refusing),
        Act::Due(second) => {
            let at = moment(rt, second);
            refusing.begin(alloc);
            answer_of(rt, alloc, spool.due(alloc, &at))
        }
        Act::Entry(host) => {
            let host = site(rt, alloc, host);
            refusing.begin(alloc);
            answer_of(rt, alloc, spool.entry(alloc, &host))
        }
        Act::Taken(name) => {
            let name = site(rt, alloc, name);
            refusing.begin(alloc);
            answer_of(rt, alloc, spool.taken(alloc, &name))
        }
        Act::Refusal(order) => {
            let command = command(rt, alloc, order);
            refusing.begin(alloc);
            answer_of(rt, alloc, spool.refusal(alloc, &command))
        }
        _ => ask_all(rt, alloc, spool, question, refusing),
    }
}

/// The same for a question that names nothing.
fn ask_all<S: Alter>(
    rt: &impl Abort,
    alloc: Global,
    spool: &mut Spool<S>,
    question: Act,
    refusing: Refusing,
) -> Answered {
    refusing.begin(alloc);
    match question {
        Act::Jobs => answer_of(rt, alloc, spool.jobs(alloc, &Filter::all())),
        Act::Systems => answer_of(rt, alloc, spool.systems(alloc)),
        Act::Contents => answer_of(rt, alloc, room_of(spool.contents(alloc))),
        Act::Next => answer_of(rt, alloc, spool.next()),
        _ => panic!(rt; "no question"),
    }
}

/// About how much room contents take.
fn room_of(contents: Result<Contents, StoreFault>) -> Result<u64, StoreFault> {
    match contents {
        Ok(contents) => Ok(contents.room()),
        Err(fault) => Err(fault),
    }
}

// ---- what is shown

/// Everything that a spool shows: the next number, the systems with their calls, what is due, a map
/// entry, what was taken from a neighbour, and the jobs with their bytes, at most four.
const LOOKS: &[Act] = &[
    Act::Next,
    Act::Systems,
    Act::Due(SUNDAY),
    Act::Entry("unc"),
    Act::Taken("unc"),
    Act::Jobs,
    Act::Job(1),
    Act::Job(2),
    Act::Job(3),
    Act::Job(4),
];

pub(crate) fn picture<S: Alter>(rt: &impl Abort, alloc: Global, spool: &mut Spool<S>) -> String {
    let mut text = String::new(alloc);
    for look in LOOKS {
        let answered = perform(rt, alloc, spool, *look, NONE);
        assert!(rt; answered.end == End::Whole, "a question is not answered");
        text.push_str(answered.text.as_str()).expect(rt, "memory");
    }
    text
}

/// Lets a spool do each act, with ample memory and without a refusal.
pub(crate) fn play<S: Alter>(rt: &impl Abort, alloc: Global, spool: &mut Spool<S>, acts: &[Act]) {
    for act in acts {
        let Answered {
            refused: _,
            end,
            text,
        } = perform(rt, alloc, spool, *act, NONE);
        assert!(rt; end == End::Whole, "what comes before is not answered");
        assert!(rt;
            !text.as_str().contains("Refused"),
            "what comes before is refused"
        );
    }
}

/// A bundle without jobs.
const EMPTY: Bundle = Bundle {
    from: "unc",
    below: 9,
    jobs: &[],
};

/// A call of each method of a spool.
const EACH: &[Act] = &[
    Act::Command(Order::Remove("duke")),
    Act::Run(&[]),
    Act::TakeIn(EMPTY),
    Act::Fill(&[]),
    Act::Jobs,
    Act::Job(1),
    Act::Systems,
    Act::Due(SUNDAY),
    Act::Entry("duke"),
    Act::Taken("duke"),
    Act::Refusal(Order::Remove("duke")),
    Act::Contents,
    Act::Next,
];

/// Whether each call answers that the spool failed, and allocates nothing.
pub(crate) fn is_failed<S: Alter>(rt: &impl Abort, alloc: Global, spool: &mut Spool<S>) -> bool {
    let mut is_failed = true;
    for call in EACH {
        let answered = perform(rt, alloc, spool, *call, ALL);
        is_failed = is_failed && !answered.refused && answered.end == End::Failed;
    }
    is_failed
}
