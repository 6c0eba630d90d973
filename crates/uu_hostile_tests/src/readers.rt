// Readers that give one byte at a time, never end, break off or are interrupted, and the answer of
// `read_input` for each.
use std::alloc::Global;
use std::io;
use std::io::{ErrorKind, Read};
use std::process::Abort;
use uuspool::{Fault, read_input};

/// The most bytes of an input.
const MOST: u32 = 4_194_304;

/// The most reads of an input.
const MOST_READS: u32 = 5_000_000;

/// How a reader goes on after its bytes.
#[derive(Clone, Copy)]
enum End {
    /// It is at its end.
    Ends,
    /// It fails.
    Fails,
    /// It is interrupted, for ever.
    Interrupts,
}

/// A reader that gives so many letters, one at each read.
#[derive(Drop)]
struct Letters {
    letters: u32,
    end: End,
    /// Whether every second read is interrupted.
    stutters: bool,
    /// How many reads there were.
    reads: u32,
}

impl Letters {
    fn new(letters: u32, end: End) -> Letters {
        Letters {
            letters,
            end,
            stutters: false,
            reads: 0,
        }
    }
}

impl Read for Letters {
    fn read(&mut self, buf: &mut [u8]) -> io::Result<usize> {
        self.reads = self.reads.saturating_add(1);
        if self.stutters && self.reads % 2 == 1 {
            return Err(ErrorKind::Interrupted.into());
        }
        if self.letters == 0 {
            return match self.end {
                End::Ends => Ok(0),
                End::Fails => Err(ErrorKind::Other.into()),
                End::Interrupts => Err(ErrorKind::Interrupted.into()),
            };
        }
        if buf.is_empty() {
            return Ok(0);
        }
        buf[0] = b'x';
        self.letters = self.letters.saturating_sub(1);
        Ok(1)
    }
}

/// How many bytes are read, or the number of the fault.
fn ending(alloc: Global, reader: &mut Letters) -> Result<usize, u8> {
    match read_input(alloc, reader) {
        Ok(bytes) => Ok(bytes.len()),
        Err(fault) => Err(fault.code()),
    }
}

fn expect_end(rt: &impl Abort, alloc: Global, mut reader: Letters, want: Result<usize, u8>) {
    assert_eq!(rt; ending(alloc, &mut reader), want);
}

#[test]
fn the_most_bytes(rt: HostRuntime) {
    let most = Letters::new(MOST, End::Ends);
    expect_end(&rt, rt.alloc(), most, Ok(4_194_304));
    let more = Letters::new(MOST + 1, End::Ends);
    expect_end(&rt, rt.alloc(), more, Err(Fault::Input.code()));
    let endless = Letters::new(u32::MAX, End::Ends);
    expect_end(&rt, rt.alloc(), endless, Err(Fault::Input.code()));
}

#[test]
fn reads_that_fail(rt: HostRuntime) {
    for letters in [0, 1, 2, 16_383, 16_384, 16_385, MOST] {
        let reader = Letters::new(letters, End::Fails);
        expect_end(&rt, rt.alloc(), reader, Err(Fault::Read.code()));
    }
}

/// A read that is interrupted is tried again.
#[test]
fn interrupted_reads(rt: HostRuntime) {
    let alloc = rt.alloc();
    for letters in LETTERS {
        let mut reader = Letters::new(*letters, End::Ends);
        reader.stutters = true;
        expect_end(&rt, alloc, reader, Ok(*letters as usize));
    }
}

const LETTERS: &[u32] = &[0, 1, 2, 20_000, 2_000_000];

/// An interrupted read counts, too.
fn expect_most_reads(rt: &impl Abort, alloc: Global, letters: u32, end: End, stutters: bool) {
    let mut reader = Letters::new(letters, end);
    reader.stutters = stutters;
    assert_eq!(rt; ending(alloc, &mut reader), Err(Fault::Read.code()));
    assert_eq!(rt; reader.reads, MOST_READS);
}

#[test]
fn too_many_reads(rt: HostRuntime) {
    for letters in [0, 1, MOST] {
        expect_most_reads(&rt, rt.alloc(), letters, End::Interrupts, false);
    }
    expect_most_reads(&rt, rt.alloc(), MOST, End::Ends, true);
}
