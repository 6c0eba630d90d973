// Reading bundles.
ghost use Rattle.std.specs.Prelude.{◌≡◌, ◌++◌, ℕ, List, MatchResult};
ghost use Rattle.uu_bundle.specs.Reading.{IsCause, IsRead, line_behind, stop_of};

use crate::bundle::{Bundle, Record};
use crate::fault::BundleFault;
use crate::heading::read_heading;
use crate::record::read_record;
use std::alloc::{AllocError, Global};
use uu_names::Listed;

// The line, counted from 1, that begins after this first part of a text.
fn line_behind(front: &[u8]) -> u32
    ensures { result ≡ line_behind front.now }
{
    let ends = front.iter().filter(|byte| **byte == b'\n').count();
    match u32::try_from(ends) {
        Ok(ends) => ends.saturating_add(1),
        Err(_) => u32::MAX,
    }
}

// The line at which reading ended, unless that was the `end` at the end of the text. `rest` was not
// read.
fn stop_of(text: &[u8], rest: &[u8]) -> Option<u32>
    requires { (front : List ℕ) × (text.now ≡ front ++ rest.now) }
    ensures { (front : List ℕ) → text.now ≡ front ++ rest.now → result ≡ stop_of front rest.now }
{
    if rest == b"end\n".as_slice() {
        return None;
    }
    let (front, _) = text.split_at(text.len() - rest.len());
    Some(line_behind(front))
}

/// Reads a bundle: its first line, and the records after it up to the first that is cut off,
/// damaged or unknown.
///
/// # Errors
/// `NoBundle` if the text doesn't begin with the first line of a bundle, and `Memory`.
pub fn read_bundle(alloc: Global, text: &[u8]) -> Result<Bundle, BundleFault>
    ensures { MatchResult result (IsRead text.now) (IsCause text.now) }
{
    let Some((heading, behind)) = read_heading(alloc, text)? else {
        return Err(BundleFault::NoBundle);
    };
    let mut has = Vec::new(alloc);
    let mut refused = Vec::new(alloc);
    let mut jobs = Vec::new(alloc);
    let mut rest = behind;
    while let Some((record, after)) = read_record(alloc, &heading, rest)? {
        match record {
            Record::Has(told) => has.push(told)?,
            Record::No(one) => refused.push(one)?,
            Record::Job(job) => jobs.push(job)?,
        }
        rest = after;
    }
    let stopped = stop_of(text, rest);
    Ok(Bundle {
        from: heading.from,
        to: heading.to,
        spool: heading.spool,
        below: heading.below,
        grade: heading.grade,
        has: Listed::from_vec(has),
        refused: Listed::from_vec(refused),
        jobs: Listed::from_vec(jobs),
        stopped,
    })
}
