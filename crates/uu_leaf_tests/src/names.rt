// Grades, site names and words at their limits, and the numbers of faults.
use crate::expecting::expect_same;
use crate::values::{site, word};
use uu_names::{Grade, NameFault, SiteName, Word};

// From the highest grade to the lowest.
const GRADES: &[u8] = b"0123456789ABCDEFGHIJKLMNOPQRSTUVWXYZabcdefghijklmnopqrstuvwxyz";

// The rank of a byte's grade, the byte for it, and whether its rank leads back to it.
fn parsed(byte: u8) -> Result<(usize, u8, bool), NameFault> {
    let grade = Grade::parse(byte)?;
    let is_ranked = Grade::of_rank(grade.rank()) == Some(grade);
    Ok((grade.rank() as usize, grade.as_byte(), is_ranked))
}

#[test]
fn grades(rt: HostRuntime) {
    for (rank, byte) in GRADES.iter().enumerate() {
        expect_same(&rt, &parsed(*byte), &Ok((rank, *byte, true)));
    }
    expect_same(&rt, &Grade::parse(b'-'), &Err(NameFault::BadGrade));
    expect_same(&rt, &Grade::of_rank(62), &None);
    expect_same(&rt, &Grade::default().as_byte(), &b'N');
}

const FAULTS: [NameFault; 7] = [
    NameFault::BadGrade,
    NameFault::BadName(7),
    NameFault::BadPath(7),
    NameFault::BadWord(7),
    NameFault::NoEnvelope,
    NameFault::TooLong,
    NameFault::Memory,
];

#[test]
fn codes(rt: HostRuntime) {
    for (place, fault) in FAULTS.iter().enumerate() {
        expect_same(&rt, &(fault.code() as usize), &(place + 1));
    }
}

/// A piece, how often a text repeats it, and why that text isn't a site name or a word.
type Refused = (&'static str, usize, Option<NameFault>, Option<NameFault>);

const TEXTS: [Refused; 8] = [
    ("unc-ch", 1, None, None),
    ("~/a!b", 1, Some(NameFault::BadName(0)), None),
    (
        "",
        1,
        Some(NameFault::BadName(0)),
        Some(NameFault::BadWord(0)),
    ),
    (
        "a b",
        1,
        Some(NameFault::BadName(1)),
        Some(NameFault::BadWord(1)),
    ),
    ("a", 63, None, None),
    ("a", 64, Some(NameFault::TooLong), None),
    ("a", 255, Some(NameFault::TooLong), None),
    ("a", 256, Some(NameFault::TooLong), Some(NameFault::TooLong)),
];

#[test]
fn texts_that_are_names_and_words(rt: HostRuntime) {
    for (piece, count, as_name, as_word) in TEXTS.as_slice() {
        let text = piece.repeat(rt.alloc(), *count).expect(&rt, "memory");
        expect_same(&rt, &SiteName::parse(rt.alloc(), &text).err(), as_name);
        expect_same(&rt, &Word::parse(rt.alloc(), &text).err(), as_word);
    }
    let no_name = SiteName::from_bytes(rt.alloc(), b"a\xff").err();
    expect_same(&rt, &no_name, &Some(NameFault::BadName(1)));
    let no_word = Word::from_bytes(rt.alloc(), b"\x7f").err();
    expect_same(&rt, &no_word, &Some(NameFault::BadWord(0)));
}

#[test]
fn site_names_compare(rt: HostRuntime) {
    let name = site(&rt, rt.alloc(), "unc-ch");
    expect_same(&rt, &name.as_str(), &"unc-ch");
    expect_same(&rt, &name.clone().expect(&rt, "memory"), &name);
    expect_same(&rt, &(name < site(&rt, rt.alloc(), "und")), &true);
}

#[test]
fn words_compare(rt: HostRuntime) {
    let word = word(&rt, rt.alloc(), "~/a!b");
    expect_same(&rt, &word.as_str(), &"~/a!b");
    expect_same(&rt, &word.clone().expect(&rt, "memory"), &word);
}
