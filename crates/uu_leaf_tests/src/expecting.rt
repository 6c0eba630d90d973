// Compares a result with the expected one. A test that fails shows both.
use crate::fronts::Fronts;
use std::alloc::{AllocError, Global};
use std::fmt::{Debug, Write};
use std::io::Print;
use std::process::Abort;
use std::rt::Clock;
use std::time::Instant;

/// A value has to be this one.
pub fn expect_same<T: PartialEq + Debug>(rt: &impl Abort, got: &T, want: &T) {
    assert_eq!(rt; *got, *want);
}

/// A text, for which there is memory, has to be this one.
pub fn expect_text(rt: &impl Abort, got: Result<String, AllocError>, want: &str) {
    expect_same(rt, &got.expect(rt, "memory").as_str(), &want);
}

/// Less than ten seconds may have passed since the start, which leaves room for a loaded machine.
pub fn expect_soon(rt: &(impl Abort + Clock + Print), start: &Instant) {
    let taken = start.elapsed(rt).expect(rt, "a clock").as_millis();
    println!(rt; "{taken} ms").expect(rt, "an output");
    expect_same(rt, &(taken < 10_000), &true);
}

/// What a beginning of a text has to mean, according to the first line for its length.
pub fn wanted(fronts: &Fronts, length: usize) -> Option<&'static str> {
    for line in fronts.answers.lines() {
        let (last, answer) = line.split_once(' ')?;
        if length <= last.parse::<usize>().ok()? {
            return Some(answer);
        }
    }
    None
}

/// A text with a repeated piece between a head and a tail.
pub fn repeated(
    alloc: Global,
    head: &str,
    piece: &str,
    count: usize,
    tail: &str,
) -> Result<String, AllocError> {
    let pieces = piece.repeat(alloc, count)?;
    format!(in alloc; "{head}{pieces}{tail}")
}

/// Shows the numbers of the lines that were skipped.
pub fn show_skipped(shown: &mut String, lines: &[u32]) -> Result<(), AllocError> {
    for line in lines {
        write!(shown, "skipped {}/", line)?;
    }
    Ok(())
}
