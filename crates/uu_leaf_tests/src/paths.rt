// Bang paths, compared with a plain program too.
use crate::expecting::{expect_same, repeated};
use std::alloc::Global;
use std::process::Abort;
use uu_names::{NameFault, Path};

#[test]
fn hops_of_a_path(rt: HostRuntime) {
    let path = Path::parse(rt.alloc(), "duke!unc!ann").expect(&rt, "a path");
    expect_same(&rt, &path.as_str(), &"duke!unc!ann");
    expect_same(&rt, &path.first_hop(), &"duke");
    expect_same(&rt, &path.rest(), &"unc!ann");
}

/// Texts that aren't paths, and how many bytes of each begin one.
const NO_PATHS: [(&str, usize); 6] = [
    ("", 0),
    ("ann", 3),
    ("!a", 0),
    ("duke!", 5),
    ("duke!!a", 5),
    ("a!b%c!d", 5),
];

#[test]
fn texts_that_are_no_paths(rt: HostRuntime) {
    for (text, at) in NO_PATHS.as_slice() {
        let fault = Path::parse(rt.alloc(), text).err();
        expect_same(&rt, &fault, &Some(NameFault::BadPath(*at)));
    }
}

/// What comes before and after so many letters, and why that text is refused.
const LONGEST: [(&str, usize, &str, Option<NameFault>); 3] = [
    ("", 64, "!a", Some(NameFault::TooLong)),
    ("a!", 253, "", None),
    ("a!", 254, "", Some(NameFault::TooLong)),
];

#[test]
fn the_longest_paths(rt: HostRuntime) {
    for (head, letters, tail, want) in LONGEST.as_slice() {
        let text = repeated(rt.alloc(), head, "a", *letters, tail).expect(&rt, "memory");
        expect_same(&rt, &Path::parse(rt.alloc(), &text).err(), want);
    }
}

fn plain_site_byte(byte: u8) -> bool {
    matches!(byte, b'0'..=b'9' | b'A'..=b'Z' | b'a'..=b'z' | b'-' | b'_' | b'.')
}

fn plain_local_byte(byte: u8) -> bool {
    (0x21..=0x7e).contains(&byte) && byte != b'!'
}

// How many bytes of the text are a `!`.
fn bangs(text: &[u8]) -> usize {
    let mut bangs = 0usize;
    for byte in text {
        bangs = bangs.saturating_add(usize::from(*byte == b'!'));
    }
    bangs
}

// Whether some path begins with the text: each part before a `!` is a site name, and the last part
// may go on.
fn plain_begins(text: &[u8]) -> bool {
    let all = bangs(text);
    let (mut left, mut is_empty) = (all, true);
    for byte in text {
        let fits = match *byte {
            b'!' => !is_empty,
            byte if left < all && left == 0 => plain_local_byte(byte),
            byte => plain_site_byte(byte),
        };
        if !fits {
            return false;
        }
        is_empty = *byte == b'!';
        left = left.saturating_sub(usize::from(is_empty));
    }
    true
}

// How many bytes of the text some path begins with, and whether the text is a path.
fn plain_path(text: &[u8]) -> (usize, bool) {
    let mut most = 0;
    for len in 0..=text.len() {
        if plain_begins(&text[..len]) {
            most = len;
        }
    }
    let ends = matches!(text.last(), Some(byte) if *byte != b'!');
    (most, plain_begins(text) && text.contains(&b'!') && ends)
}

fn plain_fault(text: &[u8]) -> Option<NameFault> {
    let (at, is_path) = plain_path(text);
    if is_path {
        None
    } else {
        Some(NameFault::BadPath(at))
    }
}

fn expect_as_plainly(rt: &impl Abort, alloc: Global, text: &[u8]) {
    expect_same(rt, &Path::from_bytes(alloc, text).err(), &plain_fault(text));
}

#[test]
fn short_paths_are_read_as_plainly(rt: HostRuntime) {
    expect_as_plainly(&rt, rt.alloc(), b"");
    for byte in 0..=255u8 {
        expect_as_plainly(&rt, rt.alloc(), &[byte]);
    }
}

// These bytes with one more of some bytes after them.
fn expect_longer(rt: &impl Abort, alloc: Global, first: u8, second: u8) {
    expect_as_plainly(rt, alloc, &[first, second]);
    for third in b"a!%- " {
        expect_as_plainly(rt, alloc, &[first, second, *third]);
    }
}

#[test]
fn paths_of_some_bytes_are_read_as_plainly(rt: HostRuntime) {
    for first in b"a!%- " {
        for second in b"a!%- " {
            expect_longer(&rt, rt.alloc(), *first, *second);
        }
    }
}
