// A stop at each call of a disk while the files of a spool are closed. The spool that is opened
// afterwards shows what the plain machine holds. The log was never copied before, so the close has
// to copy all of it.
use crate::disk::{End, LONG_LOG, Place, Stop, Use, Visit, nothing, visit_files};
use crate::questions::{Step, told_picture};
use crate::scripts::{EVERY_KIND, LARGE_JOB, machine_after};
use crate::visitors::{Way, expect_shown, expect_stopped, giving};
use std::alloc::Global;
use std::process::Abort;
use uu_store::StoreFault;

/// The fewest calls of a file that a close makes.
const FEWEST: u32 = 2;

/// The picture after a visit whose commands were all answered. If the files were closed, the
/// database file without a log shows the same.
fn expect_kept(rt: &impl Abort, alloc: Global, visit: Visit, picture: &str) {
    expect_shown(rt, alloc, &visit.synced, picture);
    expect_shown(rt, alloc, &visit.written, picture);
    match visit.end {
        End::Refused(fault) => expect_stopped(rt, fault),
        _ => expect_shown(rt, alloc, &visit.synced.database_alone(alloc), picture),
    }
}

/// A failed spool isn't closed.
fn expect_unclosed(rt: &impl Abort, end: End) {
    let is_unclosed = matches!(end, End::Untaken | End::Refused(StoreFault::Failed));
    assert!(rt; is_unclosed, "a failed spool is closed");
}

/// Gives all commands of a script, and stops at each call of one file, counting up until the files
/// are closed. If a stop comes within the commands, the spool has failed and isn't closed; other
/// tests are about these stops.
fn stop_at_each_call(rt: &impl Abort, alloc: Global, place: Place, script: &'static [Step]) {
    let count = script.len();
    let machine = machine_after(rt, alloc, script, count);
    let picture = told_picture(rt, alloc, &machine);
    let mut stops = 0u32;
    for calls in 0..10_000 {
        let used = Use {
            options: LONG_LOG,
            stop: Stop { place, calls },
            closes: true,
        };
        let mut give = giving(script, Way::Run);
        let visit = visit_files(rt, alloc, &nothing(alloc), used, &mut give);
        let end = visit.end;
        if give.answered == count {
            expect_kept(rt, alloc, visit, picture.as_str());
            if matches!(end, End::Closed) {
                assert!(rt; stops >= FEWEST, "no stop within the close");
                return;
            }
            stops = stops.saturating_add(1);
        } else {
            expect_unclosed(rt, end);
        }
    }
    panic!(rt; "no close ends")
}

#[test]
fn closes_after_every_command_and_stops_of_the_log(rt: HostRuntime) {
    stop_at_each_call(&rt, rt.alloc(), Place::Log, EVERY_KIND);
}

#[test]
fn closes_after_every_command_and_stops_of_the_database(rt: HostRuntime) {
    stop_at_each_call(&rt, rt.alloc(), Place::Database, EVERY_KIND);
}

#[test]
fn closes_with_a_large_job_and_stops_of_the_log(rt: HostRuntime) {
    stop_at_each_call(&rt, rt.alloc(), Place::Log, LARGE_JOB);
}

#[test]
fn closes_with_a_large_job_and_stops_of_the_database(rt: HostRuntime) {
    stop_at_each_call(&rt, rt.alloc(), Place::Database, LARGE_JOB);
}
