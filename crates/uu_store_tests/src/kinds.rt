// Which part of the store a fault is about. Other tests see the fault of a stopped disk at each of
// its calls (`expect_stopped`). Here the database itself refuses a statement, which takes more steps
// than a limit allows. A spool writes no row that is too big, so that kind is
// only seen from the error.
ghost use Rattle.std.specs.Prelude.{◌≡◌, false};

use crate::order::{ANY, Order, Work, command};
use crate::questions::Step::Does;
use crate::questions::{Step, play};
use crate::worked::{DUKE, after, taken};
use sqlite::{Connection, Error, ErrorCode, MemStore};
use std::alloc::Global;
use std::process::Abort;
use uu_schema::kind_of;
use uu_store::Reply::{Done, Number};
use uu_store::{Filter, Spool, StoreFault, StoreKind};

const REFUSED: Option<StoreFault> = Some(StoreFault::Store(StoreKind::Database));

const FAILED: Option<StoreFault> = Some(StoreFault::Failed);

const THREE_JOBS: &[Step] = &[
    DUKE,
    Does(Order::Queue("duke", b'N', Work::Send, 0), Number(1)),
    Does(Order::Queue("duke", b'N', Work::Send, 0), Number(2)),
    Does(Order::Queue("duke", b'N', Work::Send, 0), Number(3)),
];

/// A system that no job waits for. Whether one does is asked of all three.
const UNC: &[Step] = &[Does(Order::Define("unc", ANY, 26), Done)];

/// The database of a spool after these steps, which refuses to look at three rows.
fn hurried(rt: &impl Abort, alloc: Global, steps: &[Step]) -> Connection<MemStore>
    ensures { result.in_transaction ≡ false }
{
    let mut conn = after(rt, alloc, steps);
    assert!(rt; conn.is_autocommit(), "a transaction is open");
    conn.set_step_limit(Some(3));
    conn
}

fn expect_failed_since(rt: &impl Abort, spool: &mut Spool<MemStore>) {
    assert_eq!(rt; spool.next().err(), FAILED);
}

#[test]
fn a_command_tells_of_the_database(rt: HostRuntime) {
    let alloc = rt.alloc();
    let conn = hurried(&rt, alloc, &[]);
    let mut spool = taken(&rt, alloc, conn);
    play(&rt, alloc, &mut spool, THREE_JOBS);
    play(&rt, alloc, &mut spool, UNC);
    let remove = command(&rt, alloc, Order::Remove("unc"));
    assert_eq!(rt; spool.command(alloc, remove).err(), REFUSED);
    expect_failed_since(&rt, &mut spool);
}

#[test]
fn a_question_tells_of_the_database(rt: HostRuntime) {
    let alloc = rt.alloc();
    let conn = hurried(&rt, alloc, &[]);
    let mut spool = taken(&rt, alloc, conn);
    play(&rt, alloc, &mut spool, THREE_JOBS);
    assert_eq!(rt; spool.jobs(alloc, &Filter::all()).err(), REFUSED);
    expect_failed_since(&rt, &mut spool);
}

/// The commands of a run. The database refuses the second.
fn some_commands(rt: &impl Abort, alloc: Global) -> Vec<uu_store::Command> {
    let mut commands = Vec::new(alloc);
    for order in [
        Order::Define("unc", ANY, 26),
        Order::Remove("unc"),
        Order::Remove("unc"),
    ] {
        commands
            .push(command(rt, alloc, order))
            .expect(rt, "memory");
    }
    commands
}

#[test]
fn a_run_tells_what_its_command_told(rt: HostRuntime) {
    let alloc = rt.alloc();
    let conn = hurried(&rt, alloc, &[]);
    let mut spool = taken(&rt, alloc, conn);
    play(&rt, alloc, &mut spool, THREE_JOBS);
    let end = spool.run(alloc, some_commands(&rt, alloc));
    assert_eq!(rt; end.stopped, REFUSED);
    assert_eq!(rt; end.replies.as_slice(), [Done].as_slice());
    expect_failed_since(&rt, &mut spool);
}

#[test]
fn an_adoption_tells_of_the_database(rt: HostRuntime) {
    let alloc = rt.alloc();
    let conn = hurried(&rt, alloc, THREE_JOBS);
    let fault = Spool::adopt(alloc, conn).err().map(|refused| refused.fault);
    assert_eq!(rt; fault, REFUSED);
}

/// The kinds for errors of the database.
const KINDS: [(ErrorCode, StoreKind); 9] = [
    (ErrorCode::SystemIoFailure, StoreKind::Disk),
    (ErrorCode::DatabaseCorrupt, StoreKind::Disk),
    (ErrorCode::DiskFull, StoreKind::Disk),
    (ErrorCode::TooBig, StoreKind::Size),
    (ErrorCode::DatabaseBusy, StoreKind::Busy),
    (ErrorCode::Closed, StoreKind::Database),
    (ErrorCode::CannotOpen, StoreKind::Database),
    (ErrorCode::NotADatabase, StoreKind::Database),
    (ErrorCode::OperationInterrupted, StoreKind::Database),
];

#[test]
fn errors_are_told_by_their_kind(rt: HostRuntime) {
    for (code, kind) in KINDS {
        assert_eq!(rt; kind_of(&Error::SqliteFailure(code)), kind);
    }
}
