// The line before a message, and the way back to its author.
use crate::expecting::{expect_same, expect_text, repeated, wanted};
use crate::fronts::{Fronts, MESSAGES};
use crate::values::{site, word};
use jiff_core::civil::{Date, DateTime, Time};
use std::alloc::{AllocError, Global};
use std::process::Abort;
use uu_names::{NameFault, envelope, return_path};

fn date(
    rt: &impl Abort,
    (year, month, day): (i16, i8, i8),
    hour: i8,
    minute: i8,
    second: i8,
) -> DateTime {
    DateTime {
        date: Date::new(year, month, day).expect(rt, "a date"),
        time: Time::new(hour, minute, second, 0).expect(rt, "a time"),
    }
}

// The message as ann of mysite hands it on.
fn handed_on(rt: &impl Abort, alloc: Global, local: &DateTime, message: &[u8]) -> Vec<u8> {
    assert!(rt; (1000..=9999).contains(&local.date.year));
    let user = word(rt, alloc, "ann");
    let site = site(rt, alloc, "mysite");
    envelope(alloc, &user, local, &site, message).expect(rt, "memory")
}

fn expect_handed_on(rt: &impl Abort, alloc: Global, local: &DateTime, message: &[u8], want: &[u8]) {
    let bytes = handed_on(rt, alloc, local, message);
    expect_same(rt, &bytes.as_slice(), &want);
}

const FROM_JOE: &[u8] = b"From joe Sat Sep  8 12:00:00 2001 remote from phs\nHello\n";

const FROM_ANN: &[u8] =
    b"From ann Sun Sep  9 01:46:40 2001 remote from mysite\n>From joe Sat Sep  8 12:00:00 2001 remote from phs\nHello\n";

#[test]
fn envelopes(rt: HostRuntime) {
    let september = date(&rt, (2001, 9, 9), 1, 46, 40);
    assert!(rt; september.date.year == 2001);
    expect_handed_on(&rt, rt.alloc(), &september, FROM_JOE, FROM_ANN);
    let december = date(&rt, (2024, 12, 31), 23, 59, 59);
    let want = b"From ann Tue Dec 31 23:59:59 2024 remote from mysite\nHello\n";
    expect_handed_on(&rt, rt.alloc(), &december, b"Hello\n", want);
}

/// Texts, and the way back of each with the place of the message after it, or why there is none.
const WAYS_BACK: [(&[u8], &str); 12] = [
    (b"From u!v x remote from duke", "duke!u!v 27"),
    (b"From u remote from x remote from y\n", "y!u 35"),
    (
        b"From u remote from x\r\n>From v remote from y\n>From \n",
        "x!y!v 44",
    ),
    (FROM_ANN, "mysite!phs!joe 104"),
    (b"Hello\n", "no envelope"),
    (b"", "no envelope"),
    (b"From u remote from a b\n", "no envelope"),
    (b">From u remote from a\n", "no envelope"),
    (b"From  remote from a\n", "no envelope"),
    (b"From u remote from a\r", "no envelope"),
    (b"From u\n", "no envelope"),
    (b"From \xff remote from duke\n", "no bang path, at byte 5"),
];

fn way_back(alloc: Global, text: &[u8]) -> Result<String, AllocError> {
    match return_path(alloc, text) {
        Ok((path, body)) => format!(in alloc; "{} {body}", path.as_str()),
        Err(fault) => format!(in alloc; "{fault}"),
    }
}

#[test]
fn ways_back(rt: HostRuntime) {
    for (text, want) in WAYS_BACK.as_slice() {
        expect_text(&rt, way_back(rt.alloc(), text), want);
    }
}

fn expect_fronts(rt: &impl Abort, alloc: Global, fronts: &Fronts) {
    for length in 0..=fronts.text.len() {
        let front = fronts.text.get(..length).expect(rt, "a front");
        let want = wanted(fronts, length).expect(rt, "an answer");
        expect_text(rt, way_back(alloc, front.as_bytes()), want);
    }
}

#[test]
fn each_front_of_a_message_is_read_as_plainly(rt: HostRuntime) {
    for fronts in MESSAGES.as_slice() {
        expect_fronts(&rt, rt.alloc(), fronts);
    }
}

// How long the way back to a user of duke with so many letters is, and where the message is.
fn lengths(rt: &impl Abort, alloc: Global, letters: usize) -> Result<(usize, usize), NameFault> {
    let text = repeated(alloc, "From ", "a", letters, " remote from duke\n").expect(rt, "memory");
    let (path, body) = return_path(alloc, text.as_bytes())?;
    Ok((path.as_str().len(), body))
}

#[test]
fn the_longest_way_back(rt: HostRuntime) {
    expect_same(&rt, &lengths(&rt, rt.alloc(), 250), &Ok((255, 273)));
    expect_same(
        &rt,
        &lengths(&rt, rt.alloc(), 251),
        &Err(NameFault::TooLong),
    );
}
