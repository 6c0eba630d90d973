// What visitors do with a spool on a disk that may stop.
use crate::disk::{Contents, LONG_LOG, Use, Visitor, visit_files};
use crate::order::{Order, command};
use crate::questions::Step::Does;
use crate::questions::{Step, asked_picture};
use crate::scripts::{commands, replies};
use sqlite::Alter;
use std::alloc::Global;
use std::process::Abort;
use uu_store::{Reply, RunEnd, Spool, StoreFault, StoreKind};

/// How a spool gets the commands of a script.
#[derive(Clone, Copy)]
pub(crate) enum Way {
    OneByOne,
    Run,
}

/// Gives a spool the commands of a script up to the first fault, and keeps how many were answered.
#[derive(Drop)]
pub(crate) struct Give {
    pub(crate) script: &'static [Step],
    pub(crate) way: Way,
    pub(crate) answered: usize,
}

/// The commands of a script, before any of them is given.
pub(crate) fn giving(script: &'static [Step], way: Way) -> Give {
    Give {
        script,
        way,
        answered: 0,
    }
}

/// Gives nothing: the files are opened and let go.
pub(crate) fn no_command() -> Give {
    giving(&[], Way::OneByOne)
}

impl Visitor for Give {
    fn visit<R: Abort, S: Alter>(&mut self, rt: &R, alloc: Global, spool: &mut Spool<S>) {
        self.answered = match self.way {
            Way::OneByOne => given_one_by_one(rt, alloc, spool, self.script),
            Way::Run => given_as_a_run(rt, alloc, spool, self.script),
        };
    }
}

/// Gives a spool the commands of a script one by one up to the first fault. Returns how many it
/// answered, each as the script expects.
pub(crate) fn given_one_by_one<S: Alter>(
    rt: &impl Abort,
    alloc: Global,
    spool: &mut Spool<S>,
    script: &[Step],
) -> usize {
    let mut answered = 0usize;
    for step in script {
        if let Does(order, want) = *step {
            if !is_answered(rt, alloc, spool, order, want) {
                expect_failed(rt, alloc, spool, script);
                return answered;
            }
            answered = answered.saturating_add(1);
        }
    }
    answered
}

/// Gives a command. Returns whether it was answered; the reply has to be the expected one.
fn is_answered<S: Alter>(
    rt: &impl Abort,
    alloc: Global,
    spool: &mut Spool<S>,
    order: Order,
    want: Reply,
) -> bool {
    match spool.command(alloc, command(rt, alloc, order)) {
        Ok(given) => {
            assert_eq!(rt; given, want);
            true
        }
        Err(fault) => {
            expect_stopped(rt, fault);
            false
        }
    }
}

fn given_as_a_run<S: Alter>(
    rt: &impl Abort,
    alloc: Global,
    spool: &mut Spool<S>,
    script: &[Step],
) -> usize {
    let wanted = replies(rt, alloc, script);
    let RunEnd { replies, stopped } = spool.run(alloc, commands(rt, alloc, script, wanted.len()));
    expect_first(rt, &wanted, &replies);
    match stopped {
        None => assert_eq!(rt; replies.len(), wanted.len(), "the run ends early"),
        Some(fault) => {
            expect_stopped(rt, fault);
            expect_failed(rt, alloc, spool, script);
        }
    }
    replies.len()
}

/// The replies are the first of the expected ones.
fn expect_first(rt: &impl Abort, wanted: &[Reply], replies: &[Reply]) {
    assert!(rt; replies.len() <= wanted.len());
    for (given, want) in replies.iter().zip(wanted.iter()) {
        assert_eq!(rt; *given, *want);
    }
}

/// The fault is that of a stop: the disk refused a call.
pub(crate) fn expect_stopped(rt: &impl Abort, fault: StoreFault) {
    assert_eq!(rt; fault, StoreFault::Store(StoreKind::Disk));
}

/// After a stop the spool answers a run, a command and a question with `Failed`.
pub(crate) fn expect_failed<S: Alter>(
    rt: &impl Abort,
    alloc: Global,
    spool: &mut Spool<S>,
    script: &[Step],
) {
    let end = spool.run(alloc, commands(rt, alloc, script, 3));
    let given = spool.command(alloc, command(rt, alloc, Order::Remove("duke")));
    expect_answers_of_failed(rt, end, given, spool.next());
}

/// The answers of a run, a command and a question after a stop.
fn expect_answers_of_failed(
    rt: &impl Abort,
    end: RunEnd,
    given: Result<Reply, StoreFault>,
    next: Result<u32, StoreFault>,
) {
    let run = matches!(end.stopped, Some(StoreFault::Failed));
    assert!(rt; run, "a run after a stop");
    assert!(rt; end.replies.is_empty(), "replies after a stop");
    let command = matches!(given, Err(StoreFault::Failed));
    assert!(rt; command, "a command after a stop");
    let question = matches!(next, Err(StoreFault::Failed));
    assert!(rt; question, "a question after a stop");
}

/// Keeps what the spool shows.
#[derive(Drop)]
struct Look {
    shown: String,
}

impl Visitor for Look {
    fn visit<R: Abort, S: Alter>(&mut self, rt: &R, alloc: Global, spool: &mut Spool<S>) {
        self.shown = asked_picture(rt, alloc, spool);
    }
}

/// What the spool in files with these contents shows.
pub(crate) fn shown(rt: &impl Abort, alloc: Global, contents: &Contents) -> String {
    let mut look = Look {
        shown: String::new(alloc),
    };
    let visit = visit_files(rt, alloc, contents, Use::unstopped(LONG_LOG), &mut look);
    assert!(rt; visit.is_taken(), "the files are no spool");
    look.shown
}

/// The spool in files with these contents shows this.
pub(crate) fn expect_shown(rt: &impl Abort, alloc: Global, contents: &Contents, picture: &str) {
    let shown = shown(rt, alloc, contents);
    assert!(rt; shown.as_str() == picture, "the spool shows something else");
}
