// Sealed texts: HMAC-SHA256 on the examples of RFC 4231, a worked text that Python's hmac sealed,
// its beginnings, damage, other keys, and the time that a large text takes.
use crate::expecting::{expect_same, expect_soon, expect_text};
use std::alloc::{AllocError, Global};
use std::process::Abort;
use std::time::Instant;
use uu_bundle::MAX_BUNDLE;
use uu_seal::{Key, MAX_SEALED, SealFault, hmac, open, seal};

fn expect_tag(rt: &impl Abort, alloc: Global, key: &[u8], text: &[u8], digits: &str) {
    expect_text(rt, hex::encode(alloc, hmac(key, text, b"")), digits);
}

// The test cases 1 to 4, 6 and 7 of RFC 4231 (case 5 is that of a tag that is cut off).
#[test]
fn the_examples_of_rfc_4231(rt: HostRuntime) {
    let alloc = rt.alloc();
    let mut counted = [0u8; 25];
    for i in 0..25u8 {
        counted[i as usize] = i + 1;
    }
    expect_tag(
        &rt,
        alloc,
        &[0x0b; 20],
        b"Hi There",
        "b0344c61d8db38535ca8afceaf0bf12b881dc200c9833da726e9376c2e32cff7",
    );
    expect_tag(
        &rt,
        alloc,
        b"Jefe",
        b"what do ya want for nothing?",
        "5bdcc146bf60754e6a042426089575c75a003f089d2739839dec58b964ec3843",
    );
    expect_tag(
        &rt,
        alloc,
        &[0xaa; 20],
        &[0xdd; 50],
        "773ea91e36800e46854db8ebd09181a72959098b3ef8c122d9635514ced565fe",
    );
    expect_tag(
        &rt,
        alloc,
        &counted,
        &[0xcd; 50],
        "82558a389a443c0ea4cc819899f2083a85f0faa3e578f8077a2e3ff46729665b",
    );
    expect_tag(
        &rt,
        alloc,
        &[0xaa; 131],
        b"Test Using Larger Than Block-Size Key - Hash Key First",
        "60e431591ee0b67f0d8a26aacbf5b77f8e0bc6213728c5140546040f0ee37f54",
    );
    expect_tag(
        &rt,
        alloc,
        &[0xaa; 131],
        b"This is a test using a larger than block-size key and a larger than block-size data. The key needs to be hashed before being used by the HMAC algorithm.",
        "9b09ffa71b942fcb27635fbcd5b0e944bfdc63644f0713938a7f51535c3a35e2",
    );
}

// The key of the bytes from 0 to 31.
fn counted_key() -> Key {
    let mut bytes = [0u8; 32];
    for i in 0..32u8 {
        bytes[i as usize] = i;
    }
    Key::new(bytes)
}

// "hi\nyou" under that key.
const WORKED: &[u8] =
    b"sealed ca72b8b1c30c60f48289b3104b5241cf62931f345929e0cd95526f903d76b45c\npiece 6 0bc1efeceaa150d800c04b0ec7ae1730487e18cd123c943872dcc670dd5f2118\nhi\nyou\n";

// What a text opens to, or why it doesn't.
fn told(alloc: Global, keys: &[Key], text: &[u8]) -> Result<String, AllocError> {
    match open(alloc, keys, text) {
        Ok(bytes) => match str::from_utf8(&bytes) {
            Ok(text) => format!(in alloc; "opened {text}"),
            Err(_) => String::from_str(alloc, "no text"),
        },
        Err(SealFault::NotSealed) => String::from_str(alloc, "not sealed"),
        Err(SealFault::WrongKey) => String::from_str(alloc, "wrong key"),
        Err(SealFault::Memory) => String::from_str(alloc, "memory"),
    }
}

#[test]
fn a_worked_text(rt: HostRuntime) {
    let alloc = rt.alloc();
    let key = counted_key();
    let other = Key::new([7; 32]);
    let whole = seal(alloc, &key, b"hi\nyou").expect(&rt, "memory");
    expect_same(&rt, &(whole.as_slice() == WORKED), &true);
    expect_text(&rt, told(alloc, &[key], WORKED), "opened hi\nyou");
    expect_text(&rt, told(alloc, &[other, key], WORKED), "opened hi\nyou");
    expect_text(&rt, told(alloc, &[other], WORKED), "wrong key");
    expect_text(&rt, told(alloc, &[], WORKED), "wrong key");
    expect_text(&rt, told(alloc, &[key], b"bundle a b"), "not sealed");
    // An empty text has no pieces, and no text ends in the first line.
    let empty = seal(alloc, &key, b"").expect(&rt, "memory");
    expect_text(&rt, told(alloc, &[key], &empty), "opened ");
    // More after the last piece is left out.
    let mut more = WORKED.to_vec(alloc).expect(&rt, "memory");
    more.extend_from_slice(b"\npiece 1 00\nx\n")
        .expect(&rt, "memory");
    expect_text(&rt, told(alloc, &[key], &more), "opened hi\nyou");
}

// Every beginning, and every damaged byte.
#[test]
fn cut_and_damaged(rt: HostRuntime) {
    let alloc = rt.alloc();
    let keys = [counted_key()];
    for at in 0..WORKED.len() {
        let want = if at < 7 {
            "not sealed"
        } else if at < 72 {
            "wrong key"
        } else {
            "opened "
        };
        expect_text(&rt, told(alloc, &keys, &WORKED[..at]), want);
        let mut text = WORKED.to_vec(alloc).expect(&rt, "memory");
        text[at] ^= 1;
        expect_text(&rt, told(alloc, &keys, &text), want);
    }
}

// "piece 4096 ", 64 digits, a line end, 4,096 bytes and a line end
const PIECE: usize = 11 + 64 + 1 + 4096 + 1;

// With its pieces in this order, the text opens to so many of its bytes.
fn expect_order(
    rt: &impl Abort,
    alloc: Global,
    text: &[u8],
    sealed: &[u8],
    order: &[usize],
    want: usize,
) {
    let mut moved = Vec::new(alloc);
    for byte in sealed.iter().take(72) {
        moved.push(*byte).expect(rt, "memory");
    }
    for place in order {
        let start = place.saturating_mul(PIECE).saturating_add(72);
        for byte in sealed.iter().skip(start).take(PIECE) {
            moved.push(*byte).expect(rt, "memory");
        }
    }
    let opened = match open(alloc, &[counted_key()], &moved) {
        Ok(bytes) => bytes,
        Err(_) => Vec::new(alloc),
    };
    expect_same(rt, &opened.len(), &want);
    expect_same(rt, &text.starts_with(opened.as_slice()), &true);
}

// Pieces in another order, left out, and twice.
#[test]
fn pieces_of_other_places(rt: HostRuntime) {
    let alloc = rt.alloc();
    let mut text = Vec::new(alloc);
    for byte in [b'a', b'b', b'c'] {
        for _ in 0..4096 {
            text.push(byte).expect(&rt, "memory");
        }
    }
    let sealed = seal(alloc, &counted_key(), &text).expect(&rt, "memory");
    expect_same(&rt, &sealed.len(), &(72 + 3 * PIECE));
    expect_order(&rt, alloc, &text, &sealed, &[0, 1, 2], 3 * 4096);
    expect_order(&rt, alloc, &text, &sealed, &[0, 1], 2 * 4096);
    expect_order(&rt, alloc, &text, &sealed, &[0, 2], 4096);
    expect_order(&rt, alloc, &text, &sealed, &[1, 2], 0);
    expect_order(&rt, alloc, &text, &sealed, &[0, 0, 1], 4096);
    expect_order(&rt, alloc, &text, &sealed, &[0, 2, 1], 4096);
}

// The longest bundle.
#[test]
fn a_large_text(rt: HostRuntime) {
    let alloc = rt.alloc();
    let key = counted_key();
    let mut long = Vec::new(alloc);
    for i in 0..MAX_BUNDLE {
        long.push((i % 251) as u8).expect(&rt, "memory");
    }
    let start = Instant::now(&rt).expect(&rt, "a clock");
    let whole = seal(alloc, &key, &long).expect(&rt, "memory");
    expect_soon(&rt, &start);
    expect_same(&rt, &whole.len(), &MAX_SEALED);
    let again = Instant::now(&rt).expect(&rt, "a clock");
    match open(alloc, &[key], &whole) {
        Ok(bytes) => expect_same(&rt, &(bytes == long), &true),
        Err(_) => expect_same(&rt, &false, &true),
    }
    expect_soon(&rt, &again);
}
