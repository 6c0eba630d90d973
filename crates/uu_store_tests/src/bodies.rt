// The bytes of a job, read by a question on their table.
use crate::order::{Order, Work};
use crate::questions::Step;
use crate::questions::Step::Does;
use crate::rows::{number, rows_of};
use crate::worked::{DUKE, after};
use std::alloc::Global;
use std::process::Abort;
use uu_store::Reply::Number;

/// A job and the number of its bytes.
const JOBS: [(&[Step], u32); 4] = [
    (
        &[
            DUKE,
            Does(Order::Queue("duke", b'N', Work::Send, 0), Number(1)),
        ],
        0,
    ),
    (
        &[
            DUKE,
            Does(Order::Queue("duke", b'N', Work::Send, 1), Number(1)),
        ],
        1,
    ),
    (
        &[
            DUKE,
            Does(Order::Queue("duke", b'N', Work::Send, 40_000), Number(1)),
        ],
        40_000,
    ),
    (
        &[
            DUKE,
            Does(Order::Queue("duke", b'N', Work::Send, 1_048_576), Number(1)),
        ],
        1_048_576,
    ),
];

const QUESTION: &str = "SELECT job, length(bytes) FROM bodies";

/// There is one row, that of job 1, and it has so many bytes.
fn expect_one_row(rt: &impl Abort, alloc: Global, steps: &[Step], size: u32) {
    let mut conn = after(rt, alloc, steps);
    let rows = rows_of(rt, &mut conn, QUESTION);
    assert_eq!(rt; rows.len(), 1, "{size} bytes");
    let row = rows.first().expect(rt, "a row");
    assert_eq!(rt; (number(rt, row, 0), number(rt, row, 1)), (1, size));
}

#[test]
fn bytes_are_one_row(rt: HostRuntime) {
    for (steps, size) in JOBS {
        expect_one_row(&rt, rt.alloc(), steps, size);
    }
}
