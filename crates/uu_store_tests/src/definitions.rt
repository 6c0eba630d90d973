// Definitions: as texts in the rows of systems, and a line without ranges.
use crate::order::{MONDAY, NEVER_OPEN, NIGHT, OFFICE, Order, SUNDAY};
use crate::questions::Question::{Chosen, Due, Jobs, Systems};
use crate::questions::Step::{Does, Says};
use crate::questions::{Step, compare, play};
use crate::rows::rows_of;
use crate::worked::{DUKE, after, fresh, taken};
use std::alloc::Global;
use std::process::Abort;
use uu_store::Reply::{Done, Number};

/// Systems with the texts of their definitions: the nights of the weekdays, all week, never, and two
/// lines with a success wait.
const DEFINITIONS: [(&[Step], &str); 5] = [
    (
        &[Does(Order::Define("duke", NIGHT, 26), Done)],
        "system duke\nmax-retries 26\nsuccess-wait 0\ntime Wk0000-0755,Wk2305-2359\n",
    ),
    (
        &[DUKE],
        "system duke\nmax-retries 26\nsuccess-wait 0\ntime Any\n",
    ),
    (
        &[Does(Order::Define("duke", NEVER_OPEN, 0), Done)],
        "system duke\nmax-retries 0\nsuccess-wait 0\ntime Never\n",
    ),
    (
        &[Does(Order::Rests("duke", OFFICE, 600), Done)],
        "system duke\nmax-retries 26\nsuccess-wait 600\ntime Any 30\ntimegrade C Wk0900-1700 5\n",
    ),
    (
        &[Does(Order::Define("duke", NIGHT, 2), Done), DUKE],
        "system duke\nmax-retries 26\nsuccess-wait 0\ntime Any\n",
    ),
];

fn expect_text(rt: &impl Abort, alloc: Global, steps: &[Step], wanted: &str) {
    let mut conn = after(rt, alloc, steps);
    let rows = rows_of(rt, &mut conn, "SELECT definition FROM systems");
    assert_eq!(rt; rows.len(), 1);
    let bytes: Vec<u8> = rows.first().expect(rt, "a row").get(0).expect(rt, "bytes");
    let text = str::from_utf8(&bytes).unwrap_or("no text");
    assert_eq!(rt; text, wanted);
}

#[test]
fn definitions_are_texts(rt: HostRuntime) {
    for (steps, wanted) in DEFINITIONS {
        expect_text(&rt, rt.alloc(), steps, wanted);
    }
}

const NEVER_CALLED: &[Step] = &[
    Does(Order::Define("duke", NEVER_OPEN, 26), Done),
    Does(Order::File("duke", b'N'), Number(1)),
];

const WAITING: &[Step] = &[
    Says(Systems, "duke 26 [z 0] 0 0 0 never/"),
    Says(
        Jobs("", ""),
        "1 duke ann N 0 1000000000 send /tmp/news ~/news/",
    ),
    Says(Due(SUNDAY), ""),
    Says(Due(MONDAY), ""),
    Says(Chosen(MONDAY), ""),
];

#[test]
fn a_line_without_ranges_is_kept_and_never_due(rt: HostRuntime) {
    let alloc = rt.alloc();
    compare(&rt, alloc, &mut fresh(&rt, alloc), NEVER_CALLED);
    let mut spool = fresh(&rt, alloc);
    play(&rt, alloc, &mut spool, NEVER_CALLED);
    play(&rt, alloc, &mut spool, WAITING);
    let mut again = taken(&rt, alloc, spool.release());
    play(&rt, alloc, &mut again, WAITING);
}
