// Databases that are handed to a spool and come back: one that was taken by `release`, a refused
// one with its fault.
use crate::order::{Order, Work};
use crate::questions::Question::{Jobs, Next};
use crate::questions::Step::{Does, Says};
use crate::questions::{Step, play};
use crate::worked::{DUKE, after, played, taken};
use sqlite::{Connection, MemStore};
use std::alloc::Global;
use std::process::Abort;
use uu_store::Reply::Number;
use uu_store::{Spool, StoreFault};

const NO_JOB: &[Step] = &[Says(Next, "1"), Says(Jobs("", ""), "")];

/// The first job is handed in.
const FIRST_JOB: &[Step] = &[
    Says(Next, "1"),
    DUKE,
    Does(Order::Queue("duke", b'N', Work::Execute(1), 3), Number(1)),
];

const ONE_JOB: &[Step] = &[
    Says(Next, "2"),
    Says(
        Jobs("", ""),
        "1 duke ann N 3 1000000000 execute /tmp/news 1/",
    ),
];

#[test]
fn a_spool_that_is_adopted_again_is_the_same(rt: HostRuntime) {
    let alloc = rt.alloc();
    let conn = after(&rt, alloc, NO_JOB);
    assert!(rt; conn.is_autocommit(), "a transaction is open");
    let conn = played(&rt, alloc, conn, FIRST_JOB);
    assert!(rt; conn.is_autocommit(), "a transaction is open");
    play(&rt, alloc, &mut taken(&rt, alloc, conn), ONE_JOB);
}

/// The connection that comes back if this database is refused, for that reason.
fn refused(
    rt: &impl Abort,
    alloc: Global,
    conn: Connection<MemStore>,
    fault: StoreFault,
) -> Connection<MemStore> {
    assert!(rt; conn.is_autocommit(), "a transaction is open");
    match Spool::adopt(alloc, conn) {
        Ok(_) => panic!(rt; "it was adopted"),
        Err(refused) => {
            assert_eq!(rt; refused.fault, fault);
            refused.conn
        }
    }
}

fn change(rt: &impl Abort, conn: &mut Connection<MemStore>, statement: &str) {
    let _rows = conn.execute(statement, &[]).expect(rt, statement);
}

#[test]
fn a_refused_database_comes_back_with_no_transaction_open(rt: HostRuntime) {
    let alloc = rt.alloc();
    let mut conn = after(&rt, alloc, NO_JOB);
    change(&rt, &mut conn, "UPDATE spool SET next = 0");
    let mut conn = refused(&rt, alloc, conn, StoreFault::Foreign);
    assert!(rt; conn.is_autocommit());
    change(&rt, &mut conn, "UPDATE spool SET next = 1");
    assert!(rt; conn.is_autocommit());
    play(&rt, alloc, &mut taken(&rt, alloc, conn), NO_JOB);
}
