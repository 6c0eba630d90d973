// Worked rows: commands with their replies and questions with their answers, for a spool in memory,
// and then for another that is compared with the plain machine.
ghost use Rattle.std.specs.Prelude.{◌≡◌, false};

use crate::order::{ANY, ANY_30, HIGH, MONDAY, NIGHT, OFFICE, Order, SUNDAY, Work};
use crate::questions::Question::{Chosen, Due, Entry, Job, Jobs, Kept, Next, Systems, Taken};
use crate::questions::Step::{Does, Says};
use crate::questions::{Step, compare, play};
use crate::scripts::TWO_SYSTEMS;
use sqlite::{Alter, Connection, MemStore};
use std::alloc::Global;
use std::process::Abort;
use uu_store::Reply::{Done, Number, Refused};
use uu_store::{Refusal, Spool};

/// The spool of this database, which has to be taken.
pub(crate) fn taken<S: Alter + Drop>(
    rt: &impl Abort,
    alloc: Global,
    conn: Connection<S>,
) -> Spool<S>
    requires { conn.in_transaction ≡ false }
{
    match Spool::adopt(alloc, conn) {
        Ok(spool) => spool,
        Err(_) => panic!(rt; "it was not taken"),
    }
}

/// An empty spool in memory.
pub(crate) fn fresh(rt: &impl Abort, alloc: Global) -> Spool<MemStore> {
    let conn = Connection::open_in_memory(alloc).expect(rt, "memory");
    taken(rt, alloc, conn)
}

/// Takes a database as a spool, gives it the steps, and gives the database back.
pub(crate) fn played<S: Alter + Drop>(
    rt: &impl Abort,
    alloc: Global,
    conn: Connection<S>,
    steps: &[Step],
) -> Connection<S>
    requires { conn.in_transaction ≡ false }
{
    let mut spool = taken(rt, alloc, conn);
    play(rt, alloc, &mut spool, steps);
    spool.release()
}

/// The database of a spool in memory after these steps.
pub(crate) fn after(rt: &impl Abort, alloc: Global, steps: &[Step]) -> Connection<MemStore> {
    let conn = Connection::open_in_memory(alloc).expect(rt, "memory");
    played(rt, alloc, conn, steps)
}

/// Gives a new spool the steps, and another one with the plain machine.
fn play_anew(rt: &impl Abort, alloc: Global, steps: &[Step]) {
    play(rt, alloc, &mut fresh(rt, alloc), steps);
    compare(rt, alloc, &mut fresh(rt, alloc), steps);
}

/// A system that may be called all week.
pub(crate) const DUKE: Step = Does(Order::Define("duke", ANY, 26), Done);

const UNC: Step = Does(Order::Define("unc", ANY, 26), Done);

/// Sizes of jobs.
const SIZES: &[Step] = &[
    DUKE,
    Does(Order::Queue("duke", b'N', Work::Send, 1_048_576), Number(1)),
    Does(
        Order::Queue("duke", b'N', Work::Send, 1_048_577),
        Refused(Refusal::TooLarge),
    ),
    Does(Order::File("duke", b'N'), Number(2)),
    Does(
        Order::Queue("unc", b'N', Work::Send, 1_048_577),
        Refused(Refusal::TooLarge),
    ),
    Does(Order::File("unc", b'N'), Refused(Refusal::NoSystem)),
    Does(
        Order::Queue("duke", b'N', Work::Execute(65), 0),
        Refused(Refusal::TooLarge),
    ),
    Does(Order::Queue("duke", b'N', Work::Execute(64), 0), Number(3)),
    Says(
        Jobs("", ""),
        "1 duke ann N 1048576 1000000000 send /tmp/news ~/news/2 duke ann N 0 1000000000 send /tmp/news ~/news/3 duke ann N 0 1000000000 execute /tmp/news 64/",
    ),
    Says(Job(4), ""),
    Says(Next, "4"),
];

/// Digits come before letters.
const FIVE_GRADES: &[Step] = &[
    DUKE,
    Does(Order::File("duke", b'z'), Number(1)),
    Does(Order::File("duke", b'a'), Number(2)),
    Does(Order::File("duke", b'9'), Number(3)),
    Does(Order::File("duke", b'A'), Number(4)),
    Does(Order::File("duke", b'0'), Number(5)),
    Says(
        Jobs("", ""),
        "5 duke ann 0 0 1000000000 send /tmp/news ~/news/3 duke ann 9 0 1000000000 send /tmp/news ~/news/4 duke ann A 0 1000000000 send /tmp/news ~/news/2 duke ann a 0 1000000000 send /tmp/news ~/news/1 duke ann z 0 1000000000 send /tmp/news ~/news/",
    ),
];

/// The same order holds among the systems.
const FIVE_SYSTEMS: &[Step] = &[
    Does(Order::Define("a", ANY, 26), Done),
    Does(Order::Define("b", ANY, 26), Done),
    Does(Order::Define("c", ANY, 26), Done),
    Does(Order::Define("d", ANY, 26), Done),
    Does(Order::Define("e", ANY, 26), Done),
    Does(Order::File("a", b'z'), Number(1)),
    Does(Order::File("b", b'a'), Number(2)),
    Does(Order::File("c", b'9'), Number(3)),
    Does(Order::File("d", b'A'), Number(4)),
    Does(Order::File("e", b'0'), Number(5)),
    Says(Due(SUNDAY), "e 0 5/c 9 3/d A 4/b a 2/a z 1/"),
    Says(Chosen(SUNDAY), "e 0 5/c 9 3/d A 4/b a 2/a z 1/"),
];

/// Regrading keeps the number.
const REGRADING: &[Step] = &[
    DUKE,
    Does(Order::File("duke", b'a'), Number(1)),
    Does(Order::File("duke", b'N'), Number(2)),
    Says(Due(SUNDAY), "duke N 2/"),
    Says(
        Jobs("duke", ""),
        "2 duke ann N 0 1000000000 send /tmp/news ~/news/1 duke ann a 0 1000000000 send /tmp/news ~/news/",
    ),
    Does(Order::Regrade(1, b'N'), Done),
    Says(Due(SUNDAY), "duke N 1/"),
    Says(
        Jobs("duke", ""),
        "1 duke ann N 0 1000000000 send /tmp/news ~/news/2 duke ann N 0 1000000000 send /tmp/news ~/news/",
    ),
    Does(Order::Regrade(3, b'N'), Refused(Refusal::NoJob)),
];

/// The wait is that of the lower grade. Monday at 10:00 is minute 2,040 of the week. The lower
/// grade is allowed then, and its retry number counts.
const TWO_LINES: &[Step] = &[
    Does(Order::Define("duke", OFFICE, 26), Done),
    Does(Order::File("duke", b'z'), Number(1)),
    Says(Due(MONDAY), "duke z 1/"),
    Does(Order::Failed("duke", MONDAY), Done),
    Says(
        Systems,
        "duke 26 [z 30 0-10079] [C 5 1980-2460 3420-3900 4860-5340 6300-6780 7740-8220] 1 1800 1000116000 busy/",
    ),
    Says(Due(MONDAY + 1_799), ""),
    Says(Due(MONDAY + 1_800), "duke z 1/"),
];

const AGAIN: Step = Does(Order::Failed("duke", SUNDAY), Done);

/// Waits grow until a call succeeds.
const WAITS: &[Step] = &[
    DUKE,
    Says(Systems, "duke 26 [z 0 0-10079] 0 0 0 never/"),
    AGAIN,
    Says(Systems, "duke 26 [z 0 0-10079] 1 600 1000000000 busy/"),
    AGAIN,
    Says(Systems, "duke 26 [z 0 0-10079] 2 1200 1000000000 busy/"),
    AGAIN,
    Says(Systems, "duke 26 [z 0 0-10079] 3 2400 1000000000 busy/"),
    AGAIN,
    Says(Systems, "duke 26 [z 0 0-10079] 4 4800 1000000000 busy/"),
    AGAIN,
    Says(Systems, "duke 26 [z 0 0-10079] 5 9600 1000000000 busy/"),
    AGAIN,
    Says(Systems, "duke 26 [z 0 0-10079] 6 19200 1000000000 busy/"),
    AGAIN,
    Says(Systems, "duke 26 [z 0 0-10079] 7 38400 1000000000 busy/"),
    AGAIN,
    Says(Systems, "duke 26 [z 0 0-10079] 8 76800 1000000000 busy/"),
    AGAIN,
    Says(Systems, "duke 26 [z 0 0-10079] 9 86400 1000000000 busy/"),
    // A new definition keeps the calls.
    Does(Order::Define("duke", HIGH, 26), Done),
    Says(Systems, "duke 26 [C 0 0-10079] 9 86400 1000000000 busy/"),
    Does(Order::Called("duke", &[]), Done),
    Says(Systems, "duke 26 [C 0 0-10079] 0 0 1000116000 done/"),
];

/// A system is left alone after a successful call, with jobs and without. A new definition doesn't
/// change a running wait, and counts from the next call on.
const SUCCESS_WAITS: &[Step] = &[
    Does(Order::Rests("duke", ANY, 600), Done),
    Says(Systems, "duke 26 [z 0 0-10079] rests 600 0 0 0 never/"),
    Does(Order::File("duke", b'N'), Number(1)),
    Says(Due(MONDAY), "duke N 1/"),
    Does(Order::Called("duke", &[]), Done),
    Says(
        Systems,
        "duke 26 [z 0 0-10079] rests 600 0 600 1000116000 done/",
    ),
    Says(Due(MONDAY - 1), "duke N 1/"),
    Says(Due(MONDAY), ""),
    Says(Due(MONDAY + 599), ""),
    Says(Chosen(MONDAY + 599), ""),
    Says(Due(MONDAY + 600), "duke N 1/"),
    Says(Chosen(MONDAY + 600), "duke N 1/"),
    Does(Order::Rests("duke", ANY, 31_536_000), Done),
    Says(
        Systems,
        "duke 26 [z 0 0-10079] rests 31536000 0 600 1000116000 done/",
    ),
    Does(Order::Define("duke", ANY, 26), Done),
    Says(Systems, "duke 26 [z 0 0-10079] 0 600 1000116000 done/"),
    Says(Due(MONDAY + 599), ""),
    Does(Order::Rests("duke", ANY, 31_536_000), Done),
    Does(Order::Failed("duke", SUNDAY), Done),
    Says(
        Systems,
        "duke 26 [z 0 0-10079] rests 31536000 1 600 1000000000 busy/",
    ),
    Does(Order::Called("duke", &[1]), Done),
    Says(
        Systems,
        "duke 26 [z 0 0-10079] rests 31536000 0 31536000 1000116000 done/",
    ),
    Does(Order::Called("duke", &[2]), Refused(Refusal::NoJob)),
    Does(Order::Remove("duke"), Done),
    DUKE,
    Says(Systems, "duke 26 [z 0 0-10079] 0 0 0 never/"),
];

/// After the most retries the wait is a day.
const MOST_RETRIES: &[Step] = &[
    Does(Order::Define("duke", ANY_30, 2), Done),
    Does(Order::File("duke", b'N'), Number(1)),
    Does(Order::Failed("duke", SUNDAY), Done),
    Says(Systems, "duke 2 [z 30 0-10079] 1 1800 1000000000 busy/"),
    Does(Order::Failed("duke", MONDAY), Done),
    Says(Systems, "duke 2 [z 30 0-10079] 2 86400 1000116000 busy/"),
    Says(Due(MONDAY - 1), "duke N 1/"),
    Says(Due(MONDAY), ""),
    Says(Due(MONDAY + 86_399), ""),
    Says(Due(MONDAY + 86_400), "duke N 1/"),
];

const THREE_LEFT: Step = Says(
    Jobs("", ""),
    "1 duke ann N 0 1000000000 send /tmp/news ~/news/2 duke ann N 0 1000000000 send /tmp/news ~/news/3 unc ann N 0 1000000000 send /tmp/news ~/news/",
);

/// Refused reports change no job. Job 4 of four is killed, and then reports are refused.
const REPORTS: &[Step] = &[
    UNC,
    DUKE,
    Does(Order::File("duke", b'N'), Number(1)),
    Does(Order::File("duke", b'N'), Number(2)),
    Does(Order::File("unc", b'N'), Number(3)),
    Does(Order::File("duke", b'N'), Number(4)),
    Does(Order::Kill(4, "ann", false), Done),
    Does(Order::Called("duke", &[1, 1]), Refused(Refusal::JobTwice)),
    THREE_LEFT,
    Does(
        Order::Called("duke", &[1, 3]),
        Refused(Refusal::OtherSystem),
    ),
    THREE_LEFT,
    Does(Order::Called("duke", &[1, 4]), Refused(Refusal::NoJob)),
    THREE_LEFT,
    Does(Order::Called("duke", &[1; 257]), Refused(Refusal::TooLarge)),
    THREE_LEFT,
    Does(Order::Called("duke", &[2, 1]), Done),
    Says(
        Jobs("", ""),
        "3 unc ann N 0 1000000000 send /tmp/news ~/news/",
    ),
];

/// Refused users and systems.
const USERS: &[Step] = &[
    UNC,
    DUKE,
    Says(
        Systems,
        "duke 26 [z 0 0-10079] 0 0 0 never/unc 26 [z 0 0-10079] 0 0 0 never/",
    ),
    Does(Order::File("duke", b'N'), Number(1)),
    Does(Order::File("duke", b'N'), Number(2)),
    Does(Order::File("unc", b'N'), Number(3)),
    Does(Order::Kill(1, "bob", false), Refused(Refusal::NotYours)),
    Does(Order::Kill(1, "ann", false), Done),
    Does(Order::Kill(2, "root", true), Done),
    Does(Order::Kill(7, "root", true), Refused(Refusal::NoJob)),
    Does(Order::Remove("unc"), Refused(Refusal::Busy)),
    Does(Order::Remove("phs"), Refused(Refusal::NoSystem)),
    Does(Order::Failed("phs", MONDAY), Refused(Refusal::NoSystem)),
    Does(Order::Called("phs", &[]), Refused(Refusal::NoSystem)),
    Does(Order::Remove("duke"), Done),
    Says(
        Jobs("", ""),
        "3 unc ann N 0 1000000000 send /tmp/news ~/news/",
    ),
    Says(Systems, "unc 26 [z 0 0-10079] 0 0 0 never/"),
];

/// Held systems and low grades.
const HELD_AND_LOW: &[Step] = &[
    Does(Order::Define("duke", HIGH, 26), Done),
    UNC,
    Does(Order::Define("phs", &[], 26), Done),
    Does(Order::File("duke", b'a'), Number(1)),
    Does(Order::File("duke", b'B'), Number(2)),
    Does(Order::File("unc", b'z'), Number(3)),
    Does(Order::File("unc", b'9'), Number(4)),
    Does(Order::File("phs", b'0'), Number(5)),
    Says(Due(SUNDAY), "unc 9 4/duke B 2/"),
    Says(Chosen(SUNDAY), "unc 9 4/duke B 2/"),
    Does(Order::Failed("unc", SUNDAY), Done),
    Says(Due(SUNDAY), "duke B 2/"),
    Says(Chosen(SUNDAY), "duke B 2/"),
    Does(Order::Kill(2, "root", true), Done),
    Says(Due(SUNDAY), ""),
    Says(Chosen(SUNDAY), ""),
    Says(Due(SUNDAY + 600), "unc 9 4/"),
    Says(Chosen(SUNDAY + 600), "unc 9 4/"),
];

/// A system is called within its windows, from Monday 23:05 to Tuesday 07:55.
const NIGHTS: &[Step] = &[
    Does(Order::Define("duke", NIGHT, 26), Done),
    Does(Order::File("duke", b'N'), Number(1)),
    Says(
        Systems,
        "duke 26 [z 0 1440-1915 2825-3355 4265-4795 5705-6235 7145-7675 8585-8639] 0 0 0 never/",
    ),
    Says(Due(1_000_163_099), ""),
    Says(Due(1_000_163_100), "duke N 1/"),
    Says(Due(1_000_194_959), "duke N 1/"),
    Says(Due(1_000_194_960), ""),
    Says(Chosen(1_000_163_099), ""),
    Says(Chosen(1_000_163_100), "duke N 1/"),
    Says(Chosen(1_000_194_959), "duke N 1/"),
    Says(Chosen(1_000_194_960), ""),
];

/// A rejuvenated job counts as handed in now.
const REJUVENATED: &[Step] = &[
    DUKE,
    Does(Order::Queue("duke", b'N', Work::Send, 3), Number(1)),
    Says(
        Job(1),
        "1 duke ann N 3 1000000000 send /tmp/news ~/news/abc",
    ),
    Does(Order::Rejuvenate(1), Done),
    Says(
        Job(1),
        "1 duke ann N 3 1000116000 send /tmp/news ~/news/abc",
    ),
    Says(
        Jobs("duke", "ann"),
        "1 duke ann N 3 1000116000 send /tmp/news ~/news/",
    ),
    Says(Jobs("", "bob"), ""),
    Says(Jobs("unc", ""), ""),
];

/// A system has some jobs. Those of them that wait for it are removed, and no call is noted.
const RELEASED: &[Step] = &[
    DUKE,
    Does(Order::Define("unc", ANY, 26), Done),
    Does(Order::Queue("duke", b'N', Work::Send, 3), Number(1)),
    Does(Order::Queue("duke", b'N', Work::Send, 20_000), Number(2)),
    Does(Order::Queue("unc", b'N', Work::Send, 3), Number(3)),
    Does(Order::Queue("duke", b'N', Work::Send, 3), Number(4)),
    Does(Order::Failed("duke", MONDAY), Done),
    // Job 3 is unc's, job 9 isn't there, and job 2 is named twice.
    Does(Order::Release("duke", &[2, 3, 9, 1, 2]), Done),
    Says(
        Jobs("", ""),
        "3 unc ann N 3 1000000000 send /tmp/news ~/news/4 duke ann N 3 1000000000 send /tmp/news ~/news/",
    ),
    Says(Kept("duke"), "Busy"),
    // Given again it changes nothing, and nor does one without jobs or for a system that isn't
    // known.
    Does(Order::Release("duke", &[2, 3, 9, 1, 2]), Done),
    Does(Order::Release("duke", &[]), Done),
    Does(Order::Release("phs", &[3, 4]), Done),
    Says(Kept("phs"), "NoSystem"),
    Does(Order::Release("duke", &[4]), Done),
    Says(Kept("duke"), ""),
    Says(Jobs("duke", ""), ""),
    Says(
        Jobs("", ""),
        "3 unc ann N 3 1000000000 send /tmp/news ~/news/",
    ),
    Does(Order::Queue("duke", b'N', Work::Send, 3), Number(5)),
];

/// Entries are replaced whole.
const ENTRIES: &[Step] = &[
    Does(Order::Entry("#N unc\nunc duke(5)\n"), Done),
    Says(Entry("unc"), "#N unc\nunc duke(5)\n"),
    Does(Order::Entry("#N unc\nunc phs(7/2)\n"), Done),
    Says(Entry("unc"), "#N unc\nunc phs(7/2)\n"),
    Does(Order::Entry("#N a*b\n"), Refused(Refusal::BadEntry)),
    Says(Entry("duke"), ""),
];

/// A neighbour hands on its jobs 7, 8 and 6, and asks more than once.
const KEYS: &[Step] = &[
    DUKE,
    Does(
        Order::HandOn("unc", 7, 1, "duke"),
        Refused(Refusal::NoSystem),
    ),
    Does(Order::Define("unc", ANY, 26), Done),
    Does(Order::HandOn("unc", 7, 1, "duke"), Number(1)),
    Does(Order::HandOn("unc", 7, 1, "duke"), Number(1)),
    Does(
        Order::HandOn("unc", 7, 2, "duke"),
        Refused(Refusal::Differs),
    ),
    // The same number from another neighbour is another key.
    Does(Order::HandOn("duke", 7, 2, "unc"), Number(2)),
    Does(Order::Called("duke", &[1]), Done),
    Does(Order::HandOn("unc", 7, 1, "duke"), Number(1)),
    Does(Order::HandOn("unc", 8, 1, "duke"), Number(3)),
    Does(Order::HandOn("unc", 6, 1, "duke"), Number(4)),
    // What was taken is in order of the numbers there, even if the job is gone since.
    Says(Taken("unc"), "6 1 4/7 1 1/8 1 3/"),
    Says(Taken("duke"), "7 2 2/"),
    Says(Taken("phs"), ""),
    Does(Order::Forget("unc", 8), Done),
    Says(Taken("unc"), "8 1 3/"),
    Does(Order::HandOn("unc", 7, 1, "duke"), Refused(Refusal::Stale)),
    Does(Order::HandOn("unc", 8, 1, "duke"), Number(3)),
    // What the neighbour said about lower numbers stays.
    Does(Order::Forget("unc", 3), Done),
    Does(Order::HandOn("unc", 7, 1, "duke"), Refused(Refusal::Stale)),
    Does(Order::HandOn("duke", 7, 2, "unc"), Number(2)),
    Does(Order::Kill(2, "root", true), Done),
    // A definition keeps the keys, and a removal removes them.
    Does(Order::Define("unc", NIGHT, 26), Done),
    Does(Order::HandOn("unc", 8, 1, "duke"), Number(3)),
    Does(Order::Remove("unc"), Done),
    Says(Taken("unc"), ""),
    Does(Order::Forget("unc", 8), Refused(Refusal::NoSystem)),
    Does(Order::Define("unc", ANY, 26), Done),
    Does(Order::HandOn("unc", 7, 1, "duke"), Number(5)),
];

#[test]
fn jobs_with_keys_are_taken_as_worked(rt: HostRuntime) {
    play_anew(&rt, rt.alloc(), KEYS);
}

#[test]
fn jobs_are_kept_as_worked(rt: HostRuntime) {
    for steps in [SIZES, FIVE_GRADES, REGRADING, REJUVENATED, RELEASED] {
        play_anew(&rt, rt.alloc(), steps);
    }
}

#[test]
fn systems_are_called_as_worked(rt: HostRuntime) {
    for steps in [
        FIVE_SYSTEMS,
        TWO_LINES,
        WAITS,
        SUCCESS_WAITS,
        MOST_RETRIES,
        HELD_AND_LOW,
        NIGHTS,
    ] {
        play_anew(&rt, rt.alloc(), steps);
    }
}

#[test]
fn reports_users_and_entries_are_as_worked(rt: HostRuntime) {
    for steps in [REPORTS, USERS, ENTRIES, TWO_SYSTEMS] {
        play_anew(&rt, rt.alloc(), steps);
    }
}

const LAST_NUMBER: &[Step] = &[
    Does(Order::File("duke", b'N'), Number(4_294_967_294)),
    Says(Next, "4294967295"),
    Does(Order::File("duke", b'N'), Refused(Refusal::NumbersOut)),
    Says(Next, "4294967295"),
];

#[test]
fn numbers_end(rt: HostRuntime) {
    let alloc = rt.alloc();
    let mut conn = after(&rt, alloc, &[DUKE]);
    let changed = conn.execute("UPDATE spool SET next = 4294967294", &[]);
    assert_eq!(rt; changed.expect(&rt, "a change"), 1);
    assert!(rt; conn.is_autocommit());
    play(&rt, alloc, &mut taken(&rt, alloc, conn), LAST_NUMBER);
}
