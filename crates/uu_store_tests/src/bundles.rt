// Bundles that a spool takes as one, compared with the plain machine, which gets the commands one
// after the other. A stop at each call of a disk while a bundle is taken: the spool that is opened
// afterwards shows what it showed before, or the whole bundle. It gets the bundle again, replies as
// without a stop, and shows the whole bundle.
use crate::disk::{Contents, LONG_LOG, Place, SHORT_LOG, Stop, Use, Visitor, nothing, visit_files};
use crate::order::{ANY, Bundle, Order, commands_in, take_in};
use crate::questions::Step::Does;
use crate::questions::{Step, asked_picture, play, told_picture};
use crate::scripts::machine_after;
use crate::visitors::{Way, expect_failed, expect_stopped, giving};
use crate::worked::fresh;
use sqlite::Alter;
use std::alloc::Global;
use std::process::Abort;
use uu_store::Reply::{Done, Number, Refused};
use uu_store::{Refusal, Reply, Spool, StoreFault};

/// Two systems, and two jobs of duke's that are there already.
const BEFORE: &[Step] = &[
    Does(Order::Define("duke", ANY, 26), Done),
    Does(Order::Define("unc", ANY, 26), Done),
    Does(Order::HandOn("duke", 5, 2, "unc"), Number(1)),
    Does(Order::HandOn("duke", 6, 1, "unc"), Number(2)),
];

/// Duke's job 6 is there, and job 5 won't come again. Job 7 comes three times, once with another
/// mark, and phs isn't known.
const BUNDLE: Bundle = Bundle {
    from: "duke",
    below: 6,
    jobs: &[
        (7, 1, "unc"),
        (5, 2, "unc"),
        (7, 3, "unc"),
        (9, 4, "phs"),
        (6, 1, "unc"),
        (8, 5, "duke"),
        (7, 1, "unc"),
    ],
};

/// The replies to it, each time that it is given.
const REPLIES: &[Reply] = &[
    Done,
    Number(3),
    Refused(Refusal::Stale),
    Refused(Refusal::Differs),
    Refused(Refusal::NoSystem),
    Number(2),
    Number(4),
    Number(3),
];

/// The bundle of a neighbour that isn't known.
const OF_A_STRANGER: Bundle = Bundle {
    from: "phs",
    below: 6,
    jobs: &[(7, 1, "unc")],
};

/// A spool takes a bundle, and the plain machine gets its commands. Both reply this, and then show
/// the same.
fn expect_taken<S: Alter>(
    rt: &impl Abort,
    alloc: Global,
    spool: &mut Spool<S>,
    (bundle, replies): (Bundle, &[Reply]),
) {
    let mut machine = machine_after(rt, alloc, BEFORE, BEFORE.len());
    let given = machine.run(alloc, commands_in(rt, alloc, bundle));
    assert_eq!(rt; given.expect(rt, "memory").as_slice(), replies);
    let taken = spool.take_in(alloc, take_in(rt, alloc, bundle));
    assert_eq!(rt; taken.expect(rt, "replies").as_slice(), replies);
    let shown = asked_picture(rt, alloc, spool);
    assert_eq!(rt; shown.as_str(), told_picture(rt, alloc, &machine).as_str());
}

/// A new spool gets the bundle twice.
fn expect_taken_twice(rt: &impl Abort, alloc: Global, bundle: Bundle, replies: &[Reply]) {
    let mut spool = fresh(rt, alloc);
    play(rt, alloc, &mut spool, BEFORE);
    for _ in 0..2 {
        expect_taken(rt, alloc, &mut spool, (bundle, replies));
    }
}

#[test]
fn a_bundle_is_taken_as_its_commands_are(rt: HostRuntime) {
    expect_taken_twice(&rt, rt.alloc(), BUNDLE, REPLIES);
}

#[test]
fn a_strangers_bundle_changes_nothing(rt: HostRuntime) {
    let replies = [Refused(Refusal::NoSystem), Refused(Refusal::NoSystem)];
    expect_taken_twice(&rt, rt.alloc(), OF_A_STRANGER, &replies);
}

// ---- stops

/// Gives a spool the bundle, and keeps whether it was answered.
#[derive(Drop)]
struct Give {
    answered: bool,
}

impl Visitor for Give {
    fn visit<R: Abort, S: Alter>(&mut self, rt: &R, alloc: Global, spool: &mut Spool<S>) {
        match spool.take_in(alloc, take_in(rt, alloc, BUNDLE)) {
            Ok(replies) => {
                assert_eq!(rt; replies.as_slice(), REPLIES);
                self.answered = true;
            }
            Err(fault) => {
                expect_stopped(rt, fault);
                expect_failed(rt, alloc, spool, BEFORE);
                let again = spool.take_in(alloc, take_in(rt, alloc, BUNDLE));
                let is_failed = matches!(again, Err(StoreFault::Failed));
                assert!(rt; is_failed, "a bundle after a stop");
            }
        }
    }
}

/// Gives a spool the bundle again, which it answers, and keeps what it showed before and then.
#[derive(Drop)]
struct Again {
    before: String,
    then: String,
}

impl Visitor for Again {
    fn visit<R: Abort, S: Alter>(&mut self, rt: &R, alloc: Global, spool: &mut Spool<S>) {
        self.before = asked_picture(rt, alloc, spool);
        let taken = spool.take_in(alloc, take_in(rt, alloc, BUNDLE));
        assert_eq!(rt; taken.expect(rt, "replies").as_slice(), REPLIES);
        self.then = asked_picture(rt, alloc, spool);
    }
}

/// What the plain machine shows without the bundle, and with all of it.
#[derive(Drop)]
struct Wanted {
    none: String,
    whole: String,
}

fn told_by_machine(rt: &impl Abort, alloc: Global) -> Wanted {
    let mut machine = machine_after(rt, alloc, BEFORE, BEFORE.len());
    let none = told_picture(rt, alloc, &machine);
    let given = machine.run(alloc, commands_in(rt, alloc, BUNDLE));
    assert_eq!(rt; given.expect(rt, "memory").as_slice(), REPLIES);
    let whole = told_picture(rt, alloc, &machine);
    Wanted { none, whole }
}

/// The spool in files with these contents shows nothing of the bundle or all of it. Given the
/// bundle again, it answers and shows all of it. Returns whether it showed nothing of it at first.
fn expect_whole_or_none(
    rt: &impl Abort,
    alloc: Global,
    wanted: &Wanted,
    contents: &Contents,
) -> bool {
    let mut again = Again {
        before: String::new(alloc),
        then: String::new(alloc),
    };
    let visit = visit_files(rt, alloc, contents, Use::unstopped(LONG_LOG), &mut again);
    assert!(rt; visit.is_taken(), "the files are no spool");
    let is_none = again.before.as_str() == wanted.none.as_str();
    let is_whole = again.before.as_str() == wanted.whole.as_str();
    assert!(rt; is_none || is_whole, "the spool shows something else");
    assert!(rt;
        again.then.as_str() == wanted.whole.as_str(),
        "the bundle is not all there"
    );
    is_none
}

/// The files that were looked at last, which are often the same again, and whether they had nothing
/// of the bundle.
#[derive(Drop)]
struct Look {
    contents: Contents,
    is_none: bool,
}

impl Look {
    /// No files yet.
    fn new(alloc: Global) -> Look {
        Look {
            contents: nothing(alloc),
            is_none: false,
        }
    }

    fn is_none_in(
        &mut self,
        rt: &impl Abort,
        alloc: Global,
        wanted: &Wanted,
        contents: Contents,
    ) -> bool {
        if !self.contents.is_same(&contents) {
            self.is_none = expect_whole_or_none(rt, alloc, wanted, &contents);
            self.contents = contents;
        }
        self.is_none
    }
}

/// What is kept from one stop to the next: what was synced, and what was written.
#[derive(Drop)]
struct Looks {
    synced: Look,
    written: Look,
}

/// How a stop at a call of one file went.
#[derive(Clone, Copy)]
struct Stopped {
    /// Whether the bundle was answered before the stop.
    answered: bool,
    /// Whether the spool was given the bundle, and nothing of it is there.
    is_none: bool,
}

/// A stop. If the bundle was answered before it, all of it is there after it.
fn stop_at(
    rt: &impl Abort,
    alloc: Global,
    before: &Contents,
    stop: Stop,
    wanted: &Wanted,
    looks: &mut Looks,
) -> Stopped {
    let mut give = Give { answered: false };
    let visit = visit_files(rt, alloc, before, Use::stopped(SHORT_LOG, stop), &mut give);
    let is_taken = visit.is_taken();
    let answered = give.answered;
    let synced = looks.synced.is_none_in(rt, alloc, wanted, visit.synced);
    let written = looks.written.is_none_in(rt, alloc, wanted, visit.written);
    assert!(rt;
        !answered || (!synced && !written),
        "an answered bundle is lost"
    );
    Stopped {
        answered,
        is_none: is_taken && synced && written,
    }
}

/// The contents of new files in which the first commands were answered.
fn files_before(rt: &impl Abort, alloc: Global) -> Contents {
    let mut give = giving(BEFORE, Way::OneByOne);
    let used = Use::unstopped(SHORT_LOG);
    let visit = visit_files(rt, alloc, &nothing(alloc), used, &mut give);
    assert_eq!(rt; give.answered, BEFORE.len());
    visit.synced
}

/// Stops at each call of one file, counting up until the bundle is answered. At least so many stops
/// come while it is being taken.
fn stop_at_each_call(rt: &impl Abort, alloc: Global, place: Place, least: usize) {
    let wanted = told_by_machine(rt, alloc);
    let before = files_before(rt, alloc);
    let mut looks = Looks {
        synced: Look::new(alloc),
        written: Look::new(alloc),
    };
    let mut nones = 0usize;
    for calls in 0..10_000 {
        let stop = Stop { place, calls };
        let Stopped { answered, is_none } = stop_at(rt, alloc, &before, stop, &wanted, &mut looks);
        if answered {
            assert!(rt; nones >= least, "hardly a stop");
            return;
        }
        nones = nones.saturating_add(usize::from(is_none));
    }
    panic!(rt; "the bundle is never answered")
}

#[test]
fn a_bundle_and_stops_of_the_log(rt: HostRuntime) {
    stop_at_each_call(&rt, rt.alloc(), Place::Log, 10);
}

#[test]
fn a_bundle_and_stops_of_the_database(rt: HostRuntime) {
    stop_at_each_call(&rt, rt.alloc(), Place::Database, 3);
}
