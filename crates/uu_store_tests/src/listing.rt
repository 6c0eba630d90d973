// The cost of listing many jobs.
ghost use Rattle.std.specs.Prelude.{◌≡◌, false};

use crate::order::Order;
use crate::questions::Step::Does;
use crate::questions::play;
use crate::worked::{DUKE, taken};
use sqlite::{Alter, Connection};
use std::alloc::Global;
use std::process::Abort;
use std::time::{Clock, Duration, Instant};
use uu_store::Reply::Number;
use uu_store::{Filter, Spool};

/// Defines the system duke in the spool, and queues so many jobs for it.
fn fill<S: Alter>(rt: &impl Abort, alloc: Global, spool: &mut Spool<S>, jobs: u32) {
    play(rt, alloc, spool, &[DUKE]);
    for number in 1..=jobs {
        let job = Does(Order::File("duke", b'N'), Number(number));
        play(rt, alloc, spool, &[job]);
    }
}

/// The time of a listing of so many jobs.
fn time_of_listing<S: Alter>(
    rt: &(impl Abort + Clock),
    alloc: Global,
    spool: &mut Spool<S>,
    jobs: u32,
) -> Duration {
    let start = Instant::now(rt).expect(rt, "a clock");
    let heads = spool.jobs(alloc, &Filter::all()).expect(rt, "a list");
    let time = start.elapsed(rt).expect(rt, "a clock");
    assert_eq!(rt; heads.len(), jobs as usize);
    time
}

/// The time of one listing of so many jobs, in a spool in a new database.
fn listing_in<S: Alter + Drop>(
    rt: &(impl Abort + Clock),
    alloc: Global,
    conn: Connection<S>,
    jobs: u32,
) -> Duration
    requires { conn.in_transaction ≡ false }
{
    let mut spool = taken(rt, alloc, conn);
    fill(rt, alloc, &mut spool, jobs);
    time_of_listing(rt, alloc, &mut spool, jobs)
}

/// The time of one listing of so many jobs, in a spool in memory.
fn listing(rt: &(impl Abort + Clock), alloc: Global, jobs: u32) -> Duration {
    let conn = Connection::open_in_memory(alloc).expect(rt, "memory");
    listing_in(rt, alloc, conn, jobs)
}

// Ten times as many jobs take ten times as long, and a little more for the sort. A loaded machine
// may take ten times that, and a little more.
fn expect_little_more(rt: &impl Abort, few: Duration, many: Duration) {
    let room = Duration::from_millis(20);
    assert!(rt; many <= few.saturating_mul(150).saturating_add(room));
}

#[test]
fn the_time_of_a_listing_grows_with_the_jobs(rt: HostRuntime) {
    let few = listing(&rt, rt.alloc(), 100);
    let some = listing(&rt, rt.alloc(), 1_000);
    let many = listing(&rt, rt.alloc(), 10_000);
    let told = println!(rt; "listing 100, 1,000, 10,000 jobs: {few:?}, {some:?}, {many:?}");
    told.expect(&rt, "output");
    expect_little_more(&rt, few, some);
    expect_little_more(&rt, some, many);
}
