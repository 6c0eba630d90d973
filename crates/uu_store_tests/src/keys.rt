// Jobs that a neighbour hands on under keys, and a stop at each call of a disk meanwhile. The spool
// that is opened afterwards is asked again for what wasn't answered. It replies as without a stop,
// and has each job once.
use crate::disk::{Contents, LONG_LOG, Place, SHORT_LOG, Stop, Use, Visitor, nothing, visit_files};
use crate::questions::{Step, asked_picture, told_picture};
use crate::scripts::{HANDED_ON, machine_after};
use crate::visitors::{Way, given_one_by_one, giving};
use sqlite::Alter;
use std::alloc::Global;
use std::process::Abort;
use uu_store::Spool;

/// Gives a spool the rest of the script, all of which it answers, and keeps what it then shows.
#[derive(Drop)]
struct Rest {
    script: &'static [Step],
    shown: String,
}

impl Visitor for Rest {
    fn visit<R: Abort, S: Alter>(&mut self, rt: &R, alloc: Global, spool: &mut Spool<S>) {
        let answered = given_one_by_one(rt, alloc, spool, self.script);
        assert_eq!(rt; answered, self.script.len());
        self.shown = asked_picture(rt, alloc, spool);
    }
}

/// The spool in files with these contents answers the rest, and then shows this.
fn expect_ended(
    rt: &impl Abort,
    alloc: Global,
    contents: &Contents,
    script: &'static [Step],
    picture: &str,
) {
    let mut rest = Rest {
        script,
        shown: String::new(alloc),
    };
    let visit = visit_files(rt, alloc, contents, Use::unstopped(LONG_LOG), &mut rest);
    assert!(rt; visit.is_taken(), "the files are no spool");
    assert!(rt;
        rest.shown.as_str() == picture,
        "the spool shows something else"
    );
}

/// A stop at a call of one file. Returns whether every command was answered before it.
fn stop_at(rt: &impl Abort, alloc: Global, stop: Stop, picture: &str) -> bool {
    let mut give = giving(HANDED_ON, Way::OneByOne);
    let used = Use::stopped(SHORT_LOG, stop);
    let visit = visit_files(rt, alloc, &nothing(alloc), used, &mut give);
    let rest = HANDED_ON.get(give.answered..).unwrap_or(&[]);
    expect_ended(rt, alloc, &visit.synced, rest, picture);
    expect_ended(rt, alloc, &visit.written, rest, picture);
    rest.is_empty()
}

/// Stops at each call of one file, counting up until the last command is answered.
fn stop_at_each_call(rt: &impl Abort, alloc: Global, place: Place) {
    let machine = machine_after(rt, alloc, HANDED_ON, HANDED_ON.len());
    let picture = told_picture(rt, alloc, &machine);
    for calls in 0..10_000 {
        if stop_at(rt, alloc, Stop { place, calls }, picture.as_str()) {
            assert!(rt; calls > 20, "hardly a stop");
            return;
        }
    }
    panic!(rt; "no script ends")
}

#[test]
fn keys_and_stops_of_the_log(rt: HostRuntime) {
    stop_at_each_call(&rt, rt.alloc(), Place::Log);
}

#[test]
fn keys_and_stops_of_the_database(rt: HostRuntime) {
    stop_at_each_call(&rt, rt.alloc(), Place::Database);
}
