// A stop at each call of a disk while commands are given: from some call on, one of the two files
// refuses every call. The spool that is opened afterwards shows what the plain machine holds after
// the commands that were answered, or after one more. The log is short, so that stops come within
// its checkpoints too.
use crate::disk::{Contents, Place, SHORT_LOG, Stop, Use, Visit, nothing, visit_files};
use crate::questions::Step;
use crate::scripts::{EVERY_KIND, LARGE_JOB, TWO_SYSTEMS, is_picture, pictures};
use crate::visitors::{Give, Way, giving, shown};
use std::alloc::Global;
use std::process::Abort;

/// How many commands were answered, and how many more may have been carried out.
#[derive(Clone, Copy)]
struct Reached {
    least: usize,
    most: usize,
}

fn expect_reached(
    rt: &impl Abort,
    alloc: Global,
    pictures: &[String],
    reached: Reached,
    contents: &Contents,
) {
    let shown = shown(rt, alloc, contents);
    assert!(rt;
        is_picture(pictures, reached.least, shown.as_str())
            || is_picture(pictures, reached.most, shown.as_str()),
        "the spool shows something else"
    );
}

/// A stop of a list of commands.
#[derive(Drop)]
struct Stopped {
    /// Whether all commands were answered before the stop.
    is_whole: bool,
    visit: Visit,
}

/// A stop at a call of one file. If it comes while the tables are being made, an empty spool is
/// left.
fn stop_at(rt: &impl Abort, alloc: Global, give: Give, stop: Stop, pictures: &[String]) -> Stopped {
    let last = pictures.len().saturating_sub(1);
    let used = Use::stopped(SHORT_LOG, stop);
    let mut give = give;
    let visit = visit_files(rt, alloc, &nothing(alloc), used, &mut give);
    let least = give.answered;
    let most = if visit.is_taken() {
        least.saturating_add(1).min(last)
    } else {
        0
    };
    let reached = Reached { least, most };
    expect_reached(rt, alloc, pictures, reached, &visit.synced);
    expect_reached(rt, alloc, pictures, reached, &visit.written);
    Stopped {
        is_whole: least == last,
        visit,
    }
}

/// Stops at each call of one file, counting up until the last command is answered, and at ten more
/// calls, which never come. If a stop leaves another database file than the one before, a
/// checkpoint was finished in between. The stop of the database file before, and that of the log
/// after, came within it.
fn stop_at_each_call(
    rt: &impl Abort,
    alloc: Global,
    place: Place,
    script: &'static [Step],
    way: Way,
) {
    let pictures = pictures(rt, alloc, script);
    let mut before = nothing(alloc);
    let mut checkpoints = 0u32;
    let mut whole = 0u32;
    for calls in 0..10_000 {
        let give = giving(script, way);
        let Stopped { is_whole, visit } = stop_at(
            rt,
            alloc,
            give,
            Stop { place, calls },
            &pictures,
        );
        if visit.is_taken() && !visit.synced.has_same_database(&before) {
            checkpoints = checkpoints.saturating_add(1);
        }
        before = visit.synced;
        if is_whole {
            whole = whole.saturating_add(1);
        }
        if whole > 10 {
            assert!(rt; checkpoints > 1, "no stop within a checkpoint");
            return;
        }
    }
    panic!(rt; "no run ends")
}

#[test]
fn commands_one_by_one_and_stops_of_the_log(rt: HostRuntime) {
    stop_at_each_call(&rt, rt.alloc(), Place::Log, EVERY_KIND, Way::OneByOne);
}

#[test]
fn commands_one_by_one_and_stops_of_the_database(rt: HostRuntime) {
    stop_at_each_call(&rt, rt.alloc(), Place::Database, EVERY_KIND, Way::OneByOne);
}

#[test]
fn a_run_with_a_large_job_and_stops_of_the_log(rt: HostRuntime) {
    stop_at_each_call(&rt, rt.alloc(), Place::Log, LARGE_JOB, Way::Run);
}

#[test]
fn a_run_with_a_large_job_and_stops_of_the_database(rt: HostRuntime) {
    stop_at_each_call(&rt, rt.alloc(), Place::Database, LARGE_JOB, Way::Run);
}

#[test]
fn a_run_over_two_systems_and_stops_of_the_log(rt: HostRuntime) {
    stop_at_each_call(&rt, rt.alloc(), Place::Log, TWO_SYSTEMS, Way::Run);
}

#[test]
fn a_run_over_two_systems_and_stops_of_the_database(rt: HostRuntime) {
    stop_at_each_call(&rt, rt.alloc(), Place::Database, TWO_SYSTEMS, Way::Run);
}
