// Marks of texts.
ghost use Rattle.std.specs.Prelude.{◌≡◌, ◌++◌, ℕ, List, IfOk};
ghost use Rattle.sha2.specs.Hashers.{Holds256};
ghost use Rattle.uu_bundle.specs.Marks.{mark_of};
ghost use Rattle.uu_bundle.specs.Texts.{marked_text};

use crate::lines::{append_kind, append_word, number_text};
use sha2::{Digest, Sha256};
use std::alloc::{AllocError, Global};
use uu_core::{Kind, Mark};
use uu_names::{SiteName, Word};

/// The mark of a text: 63 bits of its SHA-256.
pub fn mark_of(text: &[u8]) -> Mark
    ensures { result ≡ mark_of text.now }
{
    of_two(text, b"")
}

/// The mark of the text that the hasher has read.
pub fn held_mark(hasher: Sha256) -> Mark
    ensures { (text : List ℕ) → Holds256 hasher text → result ≡ mark_of text }
{
    let [a, b, c, d, e, f, g, h, ..] = hasher.finalize();
    Mark::of_digest(u64::from_be_bytes([a, b, c, d, e, f, g, h]))
}

// The mark of two texts, one after the other.
fn of_two(front: &[u8], rest: &[u8]) -> Mark
    ensures { result ≡ mark_of (front.now ++ rest.now) }
{
    let mut hasher = Sha256::new();
    hasher.update(front);
    hasher.update(rest);
    held_mark(hasher)
}

/// The mark of a job that the first site hands on to the second. It is made from the word for the
/// sender's spool, the two sites, the user, the number, what the job is for, and its bytes.
pub fn parcel_mark(
    alloc: Global,
    from: &SiteName,
    to: &SiteName,
    spool: &Word,
    number: u32,
    user: &Word,
    kind: &Kind,
    bytes: &[u8],
) -> Result<Mark, AllocError>
    ensures { IfOk result (λ mark. mark ≡ mark_of (marked_text from.now to.now spool.now number user.now kind.now bytes.now)) }
{
    let numeral = number_text(alloc, number as u64)?;
    let mut front = Vec::new(alloc);
    front.extend_from_slice(spool.as_str().as_bytes())?;
    front.extend_from_slice(b"\njob")?;
    append_word(&mut front, from.as_str().as_bytes())?;
    append_word(&mut front, to.as_str().as_bytes())?;
    append_word(&mut front, user.as_str().as_bytes())?;
    append_word(&mut front, numeral.as_bytes())?;
    append_kind(&mut front, kind)?;
    front.push(b'\n')?;
    Ok(of_two(&front, bytes))
}
