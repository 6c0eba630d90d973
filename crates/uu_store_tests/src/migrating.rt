// A stop at each call of a disk while files of an earlier version are taken as a spool, and their
// tables become those of version 4. Any stop leaves one of the two versions, and the spool that is
// opened afterwards shows what the plain machine holds.
use crate::disk::{
    Contents, LONG_LOG, Place, SHORTEST_LOG, Stop, Use, Visit, Visitor, change_files, nothing,
    visit_files,
};
use crate::questions::told_picture;
use crate::rows::number;
use crate::scripts::{TWO_SYSTEMS, commands, machine_after};
use crate::visitors::{expect_shown, no_command};
use sqlite::{Alter, Options};
use std::alloc::Global;
use std::process::Abort;
use uu_store::Spool;

/// The commands of the script that are given, so many: a job of several pieces is there, and a call
/// has failed.
const COUNT: usize = 8;

/// Gives a spool the commands.
#[derive(Drop)]
struct Fill;

impl Visitor for Fill {
    fn visit<R: Abort, S: Alter>(&mut self, rt: &R, alloc: Global, spool: &mut Spool<S>) {
        let end = spool.run(alloc, commands(rt, alloc, TWO_SYSTEMS, COUNT));
        assert_eq!(rt; end.stopped, None);
        assert_eq!(rt; end.replies.len(), COUNT);
    }
}

/// An earlier version, and how files of version 3 get it.
#[derive(Clone, Copy)]
struct Earlier {
    version: u32,
    /// The statements that remove what it lacks, and its number.
    into: &'static [&'static str],
}

const FIRST: Earlier = Earlier {
    version: 1,
    into: &[
        "DROP TABLE taken",
        "DROP TABLE links",
        "DROP TABLE success_waits",
        "UPDATE spool SET version = 1",
    ],
};

const SECOND: Earlier = Earlier {
    version: 2,
    into: &[
        "DROP TABLE taken",
        "DROP TABLE links",
        "UPDATE spool SET version = 2",
    ],
};

const THIRD: Earlier = Earlier {
    version: 3,
    into: &[],
};

/// The statements that give the spool after the commands the tables of version 3: the definitions and
/// calls of its systems, and the bytes of its one job that has some, in pieces.
const INTO_THIRD: &[&str] = &[
    "DROP TABLE systems",
    "CREATE TABLE systems (name TEXT NOT NULL PRIMARY KEY, max_retries INTEGER NOT NULL, last INTEGER NOT NULL, failures INTEGER NOT NULL, wait INTEGER NOT NULL, outcome INTEGER NOT NULL, why TEXT) STRICT",
    "INSERT INTO systems VALUES ('duke', 2, 0, 0, 0, 0, NULL), ('unc', 26, 1000116000, 1, 600, 1, 'busy')",
    "CREATE TABLE lines (system TEXT NOT NULL REFERENCES systems (name) ON DELETE CASCADE, place INTEGER NOT NULL, rank INTEGER NOT NULL, retry INTEGER, PRIMARY KEY (system, place)) STRICT",
    "INSERT INTO lines VALUES ('duke', 0, 61, 30), ('unc', 0, 61, NULL)",
    "CREATE TABLE ranges (system TEXT NOT NULL, place INTEGER NOT NULL, low INTEGER NOT NULL, high INTEGER NOT NULL, PRIMARY KEY (system, place, low), FOREIGN KEY (system, place) REFERENCES lines (system, place) ON DELETE CASCADE) STRICT",
    "INSERT INTO ranges VALUES ('duke', 0, 0, 10079), ('unc', 0, 0, 10079)",
    "CREATE TABLE pieces (job INTEGER NOT NULL REFERENCES jobs (number) ON DELETE CASCADE, place INTEGER NOT NULL, bytes BLOB NOT NULL, PRIMARY KEY (job, place)) STRICT",
    "INSERT INTO pieces SELECT job, 0, substr(bytes, 1, 16384) FROM bodies WHERE job = 1",
    "INSERT INTO pieces SELECT job, 1, substr(bytes, 16385, 16384) FROM bodies WHERE job = 1",
    "INSERT INTO pieces SELECT job, 2, substr(bytes, 32769) FROM bodies WHERE job = 1",
    "DROP TABLE bodies",
    "CREATE TABLE success_waits (system TEXT NOT NULL PRIMARY KEY REFERENCES systems (name) ON DELETE CASCADE, wait INTEGER NOT NULL) STRICT",
    "UPDATE spool SET version = 3",
];

const VERSION: &str = "SELECT version FROM spool";

/// Files of the version after the commands. The log has never been copied into the database file.
fn files_of(rt: &impl Abort, alloc: Global, earlier: Earlier) -> Contents {
    let used = Use::unstopped(LONG_LOG);
    let visit = visit_files(rt, alloc, &nothing(alloc), used, &mut Fill);
    let (third, _rows) = change_files(rt, alloc, &visit.written, INTO_THIRD, VERSION);
    let (contents, _rows) = change_files(rt, alloc, &third, earlier.into, VERSION);
    contents
}

/// The version that files with these contents name.
fn version_in(rt: &impl Abort, alloc: Global, contents: &Contents) -> u32 {
    let (_same, rows) = change_files(rt, alloc, contents, &[], VERSION);
    let row = rows.first().expect(rt, "a row");
    number(rt, row, 0)
}

/// What a stop leaves.
#[derive(Clone, Copy)]
enum Left {
    /// The files as they were.
    Same,
    /// Other files of the earlier version.
    Earlier,
    /// The earlier version in what was synced, and version 4 in all that was written.
    Written,
    /// Version 4: the files were taken.
    Taken,
}

/// The version of files after a stop that changed them.
fn left_by(rt: &impl Abort, alloc: Global, visit: &Visit, was: u32, picture: &str) -> Left {
    expect_shown(rt, alloc, &visit.synced, picture);
    expect_shown(rt, alloc, &visit.written, picture);
    let synced = version_in(rt, alloc, &visit.synced);
    let written = version_in(rt, alloc, &visit.written);
    match (visit.is_taken(), synced == was, written) {
        (false, true, 4) => Left::Written,
        (true, false, 4) if synced == 4 => Left::Taken,
        (false, true, _) if written == was => Left::Earlier,
        _ => panic!(rt; "another version"),
    }
}

fn stop_at(
    rt: &impl Abort,
    alloc: Global,
    contents: &Contents,
    was: u32,
    used: Use,
    picture: &str,
) -> Left {
    let visit = visit_files(rt, alloc, contents, used, &mut no_command());
    if visit.synced.is_same(contents) && visit.written.is_same(contents) {
        assert!(rt; !visit.is_taken(), "taken as the version that was");
        return Left::Same;
    }
    left_by(rt, alloc, &visit, was, picture)
}

/// Stops at each call of one file, counting up until the files are taken. Returns how many left
/// other files of the earlier version, and how many left version 4 if all that was written was
/// kept.
fn stop_at_each_call(
    rt: &impl Abort,
    alloc: Global,
    was: Earlier,
    place: Place,
    options: Options,
) -> (u32, u32) {
    let contents = files_of(rt, alloc, was);
    assert_eq!(rt; version_in(rt, alloc, &contents), was.version);
    let machine = machine_after(rt, alloc, TWO_SYSTEMS, COUNT);
    let picture = told_picture(rt, alloc, &machine);
    expect_shown(rt, alloc, &contents, picture.as_str());
    let mut earlier = 0u32;
    let mut written = 0u32;
    for calls in 0..10_000 {
        let used = Use::stopped(options, Stop { place, calls });
        match stop_at(rt, alloc, &contents, was.version, used, picture.as_str()) {
            Left::Same => {}
            Left::Earlier => earlier = earlier.saturating_add(1),
            Left::Written => written = written.saturating_add(1),
            Left::Taken => return (earlier, written),
        }
    }
    panic!(rt; "no opening ends")
}

// The last stop comes between the frames of the one commit and their sync.
fn stops_of_the_log(rt: &impl Abort, alloc: Global, was: Earlier) {
    let (earlier, written) = stop_at_each_call(rt, alloc, was, Place::Log, LONG_LOG);
    assert!(rt; earlier > 0, "no stop before the commit");
    assert!(rt; written > 0, "no stop within the commit");
}

// The log is copied before the transaction begins.
fn stops_of_the_database(rt: &impl Abort, alloc: Global, was: Earlier) {
    let (earlier, written) = stop_at_each_call(rt, alloc, was, Place::Database, SHORTEST_LOG);
    assert!(rt; earlier > 0, "no stop within the copy of the log");
    assert_eq!(rt; written, 0, "version 4 in the database file");
}

#[test]
fn version_1_is_taken_with_stops_of_the_log(rt: HostRuntime) {
    stops_of_the_log(&rt, rt.alloc(), FIRST);
}

#[test]
fn version_1_is_taken_with_stops_of_the_database(rt: HostRuntime) {
    stops_of_the_database(&rt, rt.alloc(), FIRST);
}

#[test]
fn version_2_is_taken_with_stops_of_the_log(rt: HostRuntime) {
    stops_of_the_log(&rt, rt.alloc(), SECOND);
}

#[test]
fn version_2_is_taken_with_stops_of_the_database(rt: HostRuntime) {
    stops_of_the_database(&rt, rt.alloc(), SECOND);
}

#[test]
fn version_3_is_taken_with_stops_of_the_log(rt: HostRuntime) {
    stops_of_the_log(&rt, rt.alloc(), THIRD);
}

#[test]
fn version_3_is_taken_with_stops_of_the_database(rt: HostRuntime) {
    stops_of_the_database(&rt, rt.alloc(), THIRD);
}
