// Values for the calls.
use std::alloc::Global;
use std::process::Abort;
use uu_core::{By, Command, Key, Kind, Mark, NewJob, Offered, TakeIn};
use uu_names::{Grade, Listed, SiteName, Word};
use uu_times::{Moment, SystemDef, Zone, read_sys};
use uuspool::Settings;

/// 2001-09-09 01:46:40, a Sunday.
pub(crate) const SUNDAY: u64 = 1_000_000_000;

/// 2001-09-10 10:00:00, the Monday after it.
pub(crate) const MONDAY: u64 = 1_000_116_000;

/// A sys file with tables, a comment, a joined line, defaults and lines that are skipped.
pub(crate) const SYS_FILE: &[u8] =
    b"# defaults\ntime Wk2305-0755\ntimetable Lunch Wk1200-\\\n1300\nsystem duke\n  time Lunch 15\n  port ser\\#1\n  alternate backup\n  timegrade C Any\nsystem unc\n  max-retries 2\n";

/// Only the first of its systems.
pub(crate) const SYS_FILE_DUKE: &[u8] =
    b"timetable Lunch Wk1200-1300\nsystem duke\ntime Lunch 15\ntimegrade C Any\n";

/// A map text with a comment, costs, a dead link, a statement that is skipped, an alias and a network.
pub(crate) const MAP: &[u8] =
    b"#N unc\n#S VAX 11/780\nunc duke(HOURLY+HIGH), phs(DAILY*4),\n mcnc, old(DEAD)\nunc x(2/0)\nunc = unc-ch\nRING = {phs, duke}(20)\n";

/// A message that came by mail.
pub(crate) const MESSAGE: &[u8] = b"From joe Sat Sep  8 12:00:00 2001 remote from phs\nHello\n";

/// The same message as it is handed on.
pub(crate) const HANDED_ON: &[u8] =
    b"From ann Sun Sep  9 01:46:40 2001 remote from mysite\n>From joe Sat Sep  8 12:00:00 2001 remote from phs\nHello\n";

/// Two systems, the first for grades up to C.
pub(crate) const TWO_SYSTEMS: &[u8] = b"system duke\ntimegrade C Any\nsystem unc\ntime Any\n";

pub(crate) const SETTINGS: &str =
    "name = \"mysite\"\noffset = 0\nspool = \"spool.db\"\nadmins = [\"root\"]\n";

pub(crate) fn settings(rt: &impl Abort, alloc: Global) -> Settings {
    Settings::read(alloc, SETTINGS).expect(rt, "settings")
}

/// The words of a line, with single spaces between them.
pub(crate) fn words_of(rt: &impl Abort, alloc: Global, line: &str) -> Vec<String> {
    let mut words = Vec::new(alloc);
    for word in line.split(' ') {
        let word = String::from_str(alloc, word).expect(rt, "memory");
        words.push(word).expect(rt, "memory");
    }
    words
}

pub(crate) fn site(rt: &impl Abort, alloc: Global, text: &str) -> SiteName {
    SiteName::parse(alloc, text).expect(rt, "a site name")
}

pub(crate) fn word(rt: &impl Abort, alloc: Global, text: &str) -> Word {
    Word::parse(alloc, text).expect(rt, "a word")
}

pub(crate) fn grade(rt: &impl Abort, byte: u8) -> Grade {
    Grade::parse(byte).expect(rt, "a grade")
}

/// A moment on a clock that shows UTC.
pub(crate) fn moment(rt: &impl Abort, second: u64) -> Moment {
    let zone = Zone::fixed(0).expect(rt, "a zone");
    Moment::new(second, &zone).expect(rt, "a moment")
}

/// The only system of a sys file.
pub(crate) fn system(rt: &impl Abort, alloc: Global, text: &[u8]) -> SystemDef {
    assert!(rt; text.len() <= 4_194_304);
    let file = read_sys(alloc, text).expect(rt, "a sys file");
    file.systems.into_vec().pop().expect(rt, "a system")
}

/// What a job is for.
#[derive(Clone, Copy)]
pub(crate) enum Work {
    Send,
    Request,
    /// A command with so many arguments.
    Execute(usize),
}

/// A command as plain data. Ann hands in on Sunday. Everything else comes on Monday.
#[derive(Clone, Copy)]
pub(crate) enum Order {
    /// The only system of a sys file.
    Define(&'static [u8]),
    Remove(&'static str),
    /// Ann's job of this grade, with so many bytes.
    Queue(&'static str, u8, Work, usize),
    /// This user kills a job, and may or may not touch the jobs of others.
    Kill(u32, &'static str, bool),
    /// Ann's own job gets a grade.
    Regrade(u32, u8),
    /// Ann's own job is rejuvenated.
    Rejuvenate(u32),
    Failed(&'static str),
    /// A call that delivered these jobs.
    Called(&'static str, &'static [u32]),
    /// Jobs that the system has.
    Release(&'static str, &'static [u32]),
    Entry(&'static [u8]),
    /// Ann's job that a neighbour hands on under its number there and with this mark: a file for a
    /// system, of so many bytes.
    HandOn(&'static str, u32, u64, &'static str, usize),
    /// A neighbour won't ask again for numbers below this one.
    Forget(&'static str, u32),
}

pub(crate) fn by(rt: &impl Abort, alloc: Global, user: &str, admin: bool) -> By {
    let user = word(rt, alloc, user);
    By { user, admin }
}

fn arguments(rt: &impl Abort, alloc: Global, count: usize) -> Listed<Word> {
    let mut arguments = Vec::new(alloc);
    for _ in 0..count {
        arguments.push(word(rt, alloc, "bob")).expect(rt, "memory");
    }
    Listed::from_vec(arguments)
}

fn kind(rt: &impl Abort, alloc: Global, work: Work) -> Kind {
    let first = word(rt, alloc, "/tmp/news");
    match work {
        Work::Send => Kind::Send {
            source: first,
            target: word(rt, alloc, "~/news"),
        },
        Work::Request => Kind::Request {
            source: first,
            target: word(rt, alloc, "~/news"),
        },
        Work::Execute(count) => Kind::Execute {
            command: first,
            arguments: arguments(rt, alloc, count),
        },
    }
}

/// So many letters, so that no two pieces of a job are the same.
fn letters(rt: &impl Abort, alloc: Global, size: usize) -> Listed<u8> {
    let mut bytes = Vec::with_capacity(alloc, size).expect(rt, "memory");
    for place in 0..size {
        bytes.push(b'a' + (place % 23) as u8).expect(rt, "memory");
    }
    Listed::from_vec(bytes)
}

pub(crate) fn new_job(
    rt: &impl Abort,
    alloc: Global,
    system: &str,
    byte: u8,
    work: Work,
    size: usize,
) -> NewJob {
    NewJob {
        system: site(rt, alloc, system),
        grade: grade(rt, byte),
        user: word(rt, alloc, "ann"),
        kind: kind(rt, alloc, work),
        bytes: letters(rt, alloc, size),
        at: moment(rt, SUNDAY),
    }
}

fn kill(rt: &impl Abort, alloc: Global, job: u32, user: &str, admin: bool) -> Command {
    let by = by(rt, alloc, user, admin);
    Command::Kill { job, by }
}

fn regrade(rt: &impl Abort, alloc: Global, job: u32, byte: u8) -> Command {
    let grade = grade(rt, byte);
    let by = by(rt, alloc, "ann", false);
    Command::Regrade { job, grade, by }
}

fn rejuvenate(rt: &impl Abort, alloc: Global, job: u32) -> Command {
    let at = moment(rt, MONDAY);
    let by = by(rt, alloc, "ann", false);
    Command::Rejuvenate { job, at, by }
}

fn failed(rt: &impl Abort, alloc: Global, system: &str) -> Command {
    let at = moment(rt, MONDAY);
    let system = site(rt, alloc, system);
    let why = word(rt, alloc, "busy");
    Command::Failed { system, at, why }
}

fn numbers_of(rt: &impl Abort, alloc: Global, numbers: &[u32]) -> Listed<u32> {
    Listed::from_vec(numbers.to_vec(alloc).expect(rt, "memory"))
}

fn called(rt: &impl Abort, alloc: Global, system: &str, numbers: &[u32]) -> Command {
    let at = moment(rt, MONDAY);
    let system = site(rt, alloc, system);
    let jobs = numbers_of(rt, alloc, numbers);
    Command::Done { system, at, jobs }
}

fn release(rt: &impl Abort, alloc: Global, system: &str, numbers: &[u32]) -> Command {
    let system = site(rt, alloc, system);
    let jobs = numbers_of(rt, alloc, numbers);
    Command::Release { system, jobs }
}

fn entry(rt: &impl Abort, alloc: Global, text: &[u8]) -> Command {
    let bytes = text.to_vec(alloc).expect(rt, "memory");
    Command::Entry(Listed::from_vec(bytes))
}

pub(crate) fn key(rt: &impl Abort, alloc: Global, from: &str, number: u32, mark: u64) -> Key {
    Key {
        from: site(rt, alloc, from),
        number,
        mark: Mark::of_number(mark).expect(rt, "a mark"),
    }
}

fn hand_on(rt: &impl Abort, alloc: Global, key: Key, system: &str, size: usize) -> Command {
    let job = new_job(rt, alloc, system, b'N', Work::Send, size);
    Command::QueueOnce(key, job)
}

/// The command, for which there is memory.
pub(crate) fn command(rt: &impl Abort, alloc: Global, order: Order) -> Command {
    match order {
        Order::Define(text) => Command::Define(system(rt, alloc, text)),
        Order::Remove(name) => Command::Remove(site(rt, alloc, name)),
        Order::Queue(name, byte, work, size) => {
            Command::Queue(new_job(rt, alloc, name, byte, work, size))
        }
        Order::Kill(job, user, admin) => kill(rt, alloc, job, user, admin),
        Order::Regrade(job, byte) => regrade(rt, alloc, job, byte),
        Order::Rejuvenate(job) => rejuvenate(rt, alloc, job),
        Order::Failed(name) => failed(rt, alloc, name),
        Order::Called(name, numbers) => called(rt, alloc, name, numbers),
        Order::Release(name, numbers) => release(rt, alloc, name, numbers),
        Order::Entry(text) => entry(rt, alloc, text),
        Order::HandOn(from, number, mark, name, size) => {
            hand_on(rt, alloc, key(rt, alloc, from, number, mark), name, size)
        }
        Order::Forget(name, below) => Command::Forget {
            system: site(rt, alloc, name),
            below,
        },
    }
}

/// The commands, one after the other.
pub(crate) fn commands(rt: &impl Abort, alloc: Global, orders: &[Order]) -> Vec<Command> {
    let mut commands = Vec::new(alloc);
    for order in orders {
        commands
            .push(command(rt, alloc, *order))
            .expect(rt, "memory");
    }
    commands
}

/// A neighbour's bundle: the neighbour, the least number that it may still ask for, and its jobs,
/// each with its number there, its mark, the system for which it waits and its size.
#[derive(Clone, Copy)]
pub(crate) struct Bundle {
    pub(crate) from: &'static str,
    pub(crate) below: u32,
    pub(crate) jobs: &'static [(u32, u64, &'static str, usize)],
}

/// Ann's job that a neighbour hands on.
pub(crate) fn offered(
    rt: &impl Abort,
    alloc: Global,
    number: u32,
    mark: u64,
    system: &str,
    size: usize,
) -> Offered {
    Offered {
        number,
        mark: Mark::of_number(mark).expect(rt, "a mark"),
        job: new_job(rt, alloc, system, b'N', Work::Send, size),
    }
}

/// What the bundle asks for, for which there is memory.
pub(crate) fn take_in(rt: &impl Abort, alloc: Global, bundle: Bundle) -> TakeIn {
    let mut jobs = Vec::new(alloc);
    for (number, mark, system, size) in bundle.jobs {
        let offered = offered(rt, alloc, *number, *mark, system, *size);
        jobs.push(offered).expect(rt, "memory");
    }
    TakeIn {
        from: site(rt, alloc, bundle.from),
        below: bundle.below,
        jobs: Listed::from_vec(jobs),
    }
}
