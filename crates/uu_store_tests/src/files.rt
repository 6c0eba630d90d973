// Stretches of work over a file.
use crate::order::{ANY, Order, Work, command};
use crate::questions::Question::Next;
use crate::questions::Step::Says;
use crate::questions::play;
use sqlite::{Alter, FileStore, Start, Wary};
use sqlite_disk::Disk;
use std::alloc::Global;
use std::fs;
use std::io::ErrorKind;
use std::process::Abort;
use std::rt::Files;
use uu_store::Reply::{Done, Number};
use uu_store::{Command, Reply, Room, RunEnd, Spool, StoreFault, open_spool};

const FILE: &str = "stretches.db";

const LOG: &str = "stretches.db-wal";

/// A limit that doesn't count.
fn room() -> Room {
    Room {
        limit: 1_048_576,
        counts: false,
    }
}

const DUKE: Order = Order::Define("duke", ANY, 26);

const JOB: Order = Order::Queue("duke", b'N', Work::Send, 2);

/// Removes a file, which may not exist.
fn remove(rt: &(impl Abort + Files), path: &str) {
    if let Err(error) = fs::remove_file(rt, path) {
        assert!(rt;
            error.kind() == ErrorKind::NotFound,
            "{path} cannot be removed"
        );
    }
}

fn commands_of(rt: &impl Abort, alloc: Global, orders: &[Order]) -> Vec<Command> {
    let mut commands = Vec::new(alloc);
    for order in orders {
        let next = command(rt, alloc, *order);
        commands.push(next).expect(rt, "memory");
    }
    commands
}

fn expect_end(rt: &impl Abort, end: Option<RunEnd>, want: &[Reply]) {
    let end = end.expect(rt, "a spool");
    assert_eq!(rt; end.stopped, None);
    assert_eq!(rt; end.replies.as_slice(), want);
}

/// Gives a spool the commands, and lets it go.
fn run_and_let_go<D: Disk + Drop>(
    alloc: Global,
    spool: Spool<FileStore<D>>,
    commands: Vec<Command>,
) -> RunEnd {
    let mut spool = spool;
    let end = spool.run(alloc, commands);
    let _store = spool.into_store();
    end
}

/// Gives a spool the commands, and closes its files.
fn run_and_close<D: Disk + Drop>(
    alloc: Global,
    spool: Spool<FileStore<D>>,
    commands: Vec<Command>,
) -> (RunEnd, Result<sqlite::Files<D>, (StoreFault, FileStore<D>)>) {
    let mut spool = spool;
    let end = spool.run(alloc, commands);
    (end, spool.close())
}

/// How the commands ended, if the files were closed.
fn ended_and_closed<E: Drop, G: Drop>(worked: (RunEnd, Result<G, E>)) -> Option<RunEnd> {
    let (end, closed) = worked;
    match closed {
        Ok(_files) => Some(end),
        Err(_) => None,
    }
}

fn worked<T: Start>(host: &HostRuntime, start: T, commands: Vec<Command>) -> Option<RunEnd> {
    match open_spool(host, FILE, room(), start) {
        Ok(spool) => Some(run_and_let_go(host.alloc(), spool, commands)),
        Err(_) => None,
    }
}

/// A stretch whose files are closed.
fn worked_and_closed<T: Start>(
    host: &HostRuntime,
    start: T,
    commands: Vec<Command>,
) -> Option<RunEnd> {
    match open_spool(host, FILE, room(), start) {
        Ok(spool) => ended_and_closed(run_and_close(host.alloc(), spool, commands)),
        Err(_) => None,
    }
}

/// A stretch gets these commands, and gives these replies.
fn expect_stretch<T: Start>(
    rt: &impl Abort,
    host: &HostRuntime,
    start: T,
    orders: &[Order],
    want: &[Reply],
) {
    let commands = commands_of(rt, host.alloc(), orders);
    expect_end(rt, worked(host, start, commands), want);
}

/// The same, and the files are closed.
fn expect_closed_stretch<T: Start>(
    rt: &impl Abort,
    host: &HostRuntime,
    start: T,
    orders: &[Order],
    want: &[Reply],
) {
    let commands = commands_of(rt, host.alloc(), orders);
    expect_end(rt, worked_and_closed(host, start, commands), want);
}

/// The next job gets number 4.
fn expect_next<T: Start>(rt: &impl Abort, host: &HostRuntime, start: T) {
    expect_next_in_files(rt, host.alloc(), open_spool(host, FILE, room(), start));
}

/// The same for the result of an opening.
fn expect_next_in_files<D: Disk + Drop, F: Drop>(
    rt: &impl Abort,
    alloc: Global,
    opened: Result<Spool<FileStore<D>>, F>,
) {
    expect_next_in(rt, alloc, opened);
}

/// The same over any store.
fn expect_next_in<S: Alter + Drop, F: Drop>(
    rt: &impl Abort,
    alloc: Global,
    opened: Result<Spool<S>, F>,
) {
    let mut spool = opened.ok().expect(rt, "a spool");
    play(rt, alloc, &mut spool, &[Says(Next, "4")]);
}

#[test]
fn a_file_keeps_its_jobs_between_stretches(rt: HostRuntime) {
    // A run that broke off may have left them.
    remove(&rt, FILE);
    remove(&rt, LOG);
    expect_stretch(&rt, &rt, Wary, &[DUKE, JOB], &[Done, Number(1)]);
    expect_closed_stretch(&rt, &rt, Wary, &[JOB], &[Number(2)]);
    expect_stretch(&rt, &rt, Wary, &[JOB], &[Number(3)]);
    expect_next(&rt, &rt, Wary);
    remove(&rt, FILE);
    remove(&rt, LOG);
}
