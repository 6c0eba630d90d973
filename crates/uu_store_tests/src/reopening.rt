// A stop at each call of a disk while a spool is opened after an earlier stop. What is opened
// afterwards is what the earlier stop left.
use crate::disk::{Contents, Place, SHORT_LOG, Stop, Use, nothing, visit_files};
use crate::scripts::LARGE_JOB;
use crate::visitors::{Way, expect_shown, giving, no_command, shown};
use std::alloc::Global;
use std::process::Abort;

/// A stop while files with these contents are opened. Returns whether they were taken as a spool
/// before it.
fn stop_at(rt: &impl Abort, alloc: Global, contents: &Contents, stop: Stop, picture: &str) -> bool {
    let used = Use::stopped(SHORT_LOG, stop);
    let visit = visit_files(rt, alloc, contents, used, &mut no_command());
    expect_shown(rt, alloc, &visit.synced, picture);
    expect_shown(rt, alloc, &visit.written, picture);
    visit.is_taken()
}

/// Stops at each call of one file while these contents are opened.
fn stop_at_each_call(rt: &impl Abort, alloc: Global, contents: &Contents, place: Place) {
    let picture = shown(rt, alloc, contents);
    for calls in 0..1_000 {
        let stop = Stop { place, calls };
        if stop_at(rt, alloc, contents, stop, picture.as_str()) {
            assert!(rt; calls != 0, "no stop");
            return;
        }
    }
    panic!(rt; "no opening ends")
}

/// Stops a run at each call of one file, until all commands are answered. If that leaves something
/// new on the disk, it is opened with a stop at each call of the same file or of the other.
fn stop_twice(rt: &impl Abort, alloc: Global, place: Place, again: Place) {
    let mut before = nothing(alloc);
    for calls in 0..10_000 {
        let used = Use::stopped(SHORT_LOG, Stop { place, calls });
        let mut give = giving(LARGE_JOB, Way::Run);
        let visit = visit_files(rt, alloc, &nothing(alloc), used, &mut give);
        if calls == 0 || !visit.synced.is_same(&before) {
            stop_at_each_call(rt, alloc, &visit.synced, again);
            before = visit.synced;
        }
        if give.answered == LARGE_JOB.len() {
            return;
        }
    }
    panic!(rt; "no run ends")
}

#[test]
fn openings_stop_at_the_log_after_stops_of_the_log(rt: HostRuntime) {
    stop_twice(&rt, rt.alloc(), Place::Log, Place::Log);
}

#[test]
fn openings_stop_at_the_database_after_stops_of_the_log(rt: HostRuntime) {
    stop_twice(&rt, rt.alloc(), Place::Log, Place::Database);
}

#[test]
fn openings_stop_at_the_log_after_stops_of_the_database(rt: HostRuntime) {
    stop_twice(&rt, rt.alloc(), Place::Database, Place::Log);
}

#[test]
fn openings_stop_at_the_database_after_stops_of_the_database(rt: HostRuntime) {
    stop_twice(&rt, rt.alloc(), Place::Database, Place::Database);
}
