// Stops of a disk while a spool with the jobs of earlier commands is asked questions, and while it
// is let go. The spool that is opened afterwards shows the same state. Few pages are kept in
// memory, so that the questions read the files.
use crate::disk::{
    Contents, FEW_PAGES, LONG_LOG, Place, SHORTEST_LOG, Stop, Use, Visitor, nothing, visit_files,
};
use crate::order::{ANY, ANY_30, MONDAY, Order, Work};
use crate::questions::Step::Does;
use crate::questions::{Question, Step, asked, told, told_picture};
use crate::scripts::machine_after;
use crate::visitors::{Way, expect_failed, expect_shown, expect_stopped, giving, no_command};
use sqlite::Alter;
use std::alloc::Global;
use std::mem::drop;
use std::process::Abort;
use uu_plain::Machine;
use uu_store::Reply::{Done, Number, Refused};
use uu_store::{Refusal, Spool};

/// The commands before the questions: those of `TWO_SYSTEMS` while both have a job, and a job that
/// unc hands on.
const TWO_JOBS: &[Step] = &[
    Does(Order::Define("duke", ANY_30, 2), Done),
    Does(Order::Define("unc", ANY, 26), Done),
    Does(Order::Queue("duke", b'N', Work::Send, 40_000), Number(1)),
    Does(Order::Queue("unc", b'A', Work::Send, 0), Number(2)),
    Does(Order::HandOn("unc", 7, 1, "duke"), Number(3)),
    Does(Order::Kill(9, "root", true), Refused(Refusal::NoJob)),
    Does(Order::Rejuvenate(1), Done),
    Does(Order::Regrade(1, b'9'), Done),
];

const QUESTIONS: [Question; 8] = [
    Question::Jobs("", ""),
    Question::Job(1),
    Question::Due(MONDAY),
    Question::Systems,
    Question::Entry("unc"),
    Question::Taken("unc"),
    Question::Kept("unc"),
    Question::Next,
];

/// The contents of the files after the commands, nearly all of them in this file.
fn prepared(rt: &impl Abort, alloc: Global, place: Place) -> Contents {
    let options = match place {
        Place::Log => LONG_LOG,
        Place::Database => SHORTEST_LOG,
    };
    let used = Use::unstopped(options);
    let mut give = giving(TWO_JOBS, Way::Run);
    let visit = visit_files(rt, alloc, &nothing(alloc), used, &mut give);
    assert!(rt;
        give.answered == TWO_JOBS.len(),
        "a command is not answered"
    );
    visit.synced
}

/// Asks until a question isn't answered.
#[derive(Drop)]
struct Ask {
    /// The answers to the questions, as the machine gives them.
    wanted: Vec<String>,
    /// How many questions were answered.
    answered: usize,
}

impl Visitor for Ask {
    fn visit<R: Abort, S: Alter>(&mut self, rt: &R, alloc: Global, spool: &mut Spool<S>) {
        self.answered = answered(rt, alloc, spool, &self.wanted);
    }
}

/// Asks a question, and says whether it was answered. The answer has to be the expected one.
fn is_answered<S: Alter>(
    rt: &impl Abort,
    alloc: Global,
    spool: &mut Spool<S>,
    question: Question,
    want: &str,
) -> bool {
    match asked(rt, alloc, spool, question) {
        Ok(given) => {
            assert!(rt; given.as_str() == want, "another answer");
            true
        }
        Err(fault) => {
            expect_stopped(rt, fault);
            expect_failed(rt, alloc, spool, TWO_JOBS);
            false
        }
    }
}

/// Asks until a question isn't answered, and says how many were.
fn answered<S: Alter>(
    rt: &impl Abort,
    alloc: Global,
    spool: &mut Spool<S>,
    wanted: &[String],
) -> usize {
    let mut answered = 0usize;
    for (question, want) in QUESTIONS.iter().zip(wanted.iter()) {
        if !is_answered(rt, alloc, spool, *question, want.as_str()) {
            return answered;
        }
        answered = answered.saturating_add(1);
    }
    answered
}

/// The answers of the machine to the questions.
fn answers_of(rt: &impl Abort, alloc: Global, machine: &Machine) -> Vec<String> {
    let mut answers = Vec::new(alloc);
    for question in QUESTIONS {
        let answer = told(rt, alloc, machine, question);
        answers.push(answer).expect(rt, "memory");
    }
    answers
}

/// What the machine shows after the commands, and the questions with its answers.
fn told_after(rt: &impl Abort, alloc: Global) -> (String, Ask) {
    let machine = machine_after(rt, alloc, TWO_JOBS, TWO_JOBS.len());
    let picture = told_picture(rt, alloc, &machine);
    let wanted = answers_of(rt, alloc, &machine);
    drop(machine);
    let ask = Ask {
        wanted,
        answered: 0,
    };
    (picture, ask)
}

/// Whether the spool in files with these contents is opened before a stop.
fn is_opened(rt: &impl Abort, alloc: Global, contents: &Contents, stop: Stop) -> bool {
    let used = Use::stopped(FEW_PAGES, stop);
    visit_files(rt, alloc, contents, used, &mut no_command()).is_taken()
}

/// The fewest calls of a file that open the spool.
fn fewest_calls(rt: &impl Abort, alloc: Global, contents: &Contents, place: Place) -> u64 {
    let mut low = 0u64;
    let mut high = 65_536u64;
    for _ in 0..16 {
        let calls = low.midpoint(high);
        if is_opened(rt, alloc, contents, Stop { place, calls }) {
            high = calls;
        } else {
            low = calls;
        }
    }
    high
}

/// A stop while the opened spool is asked and let go. Gives what was synced then. What is left is
/// what the stop before left, or else it is opened and shown.
fn stop_at(
    rt: &impl Abort,
    alloc: Global,
    contents: &Contents,
    ask: &mut Ask,
    stop: Stop,
    before: &Contents,
    picture: &str,
) -> Contents {
    let used = Use::stopped(FEW_PAGES, stop);
    let visit = visit_files(rt, alloc, contents, used, ask);
    assert!(rt; visit.is_taken(), "not opened");
    if !visit.synced.is_same(before) {
        expect_shown(rt, alloc, &visit.synced, picture);
    }
    if !visit.written.is_same(before) {
        expect_shown(rt, alloc, &visit.written, picture);
    }
    visit.synced
}

/// Stops at each call of one file from the first question on, until all are answered, and at ten
/// more calls, which never come. Gives how many questions were answered before the stops, each
/// number once.
fn stop_at_each_call(rt: &impl Abort, alloc: Global, place: Place) -> Vec<usize> {
    let contents = prepared(rt, alloc, place);
    let (picture, mut ask) = told_after(rt, alloc);
    let first = fewest_calls(rt, alloc, &contents, place);
    let mut before = nothing(alloc);
    let mut reached = Vec::new(alloc);
    let mut whole = 0u32;
    for more in 0..10_000 {
        let calls = first.saturating_add(more);
        let stop = Stop { place, calls };
        before = stop_at(
            rt,
            alloc,
            &contents,
            &mut ask,
            stop,
            &before,
            picture.as_str(),
        );
        if reached.last() != Some(&ask.answered) {
            reached.push(ask.answered).expect(rt, "memory");
        }
        if ask.answered == QUESTIONS.len() {
            whole = whole.saturating_add(1);
        }
        if whole > 10 {
            return reached;
        }
    }
    panic!(rt; "the questions do not end")
}

/// Stops come after so many answered questions, and some after the last.
fn expect_stops_after(rt: &impl Abort, alloc: Global, place: Place, answered: &[usize]) {
    let reached = stop_at_each_call(rt, alloc, place);
    assert_eq!(rt; reached.as_slice(), answered);
}

// The systems are answered from pages that the question before kept in memory, so no stop comes
// there.
#[test]
fn questions_and_stops_of_the_log(rt: HostRuntime) {
    expect_stops_after(&rt, rt.alloc(), Place::Log, &[0, 1, 2, 4, 5, 6, 7, 8]);
}

// The first question finds everything that it asks for in the log.
#[test]
fn questions_and_stops_of_the_database(rt: HostRuntime) {
    expect_stops_after(&rt, rt.alloc(), Place::Database, &[1, 2, 4, 5, 6, 7, 8]);
}
