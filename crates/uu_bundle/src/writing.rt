// Bundles, written piece by piece.
ghost use Rattle.std.specs.Prelude.{◌≡◌, ◌++◌, ◌∷◌, [], ℕ, List, IfOk, OnOk, codes, length, map};
ghost use Rattle.uu_bundle.specs.Bundles.{answer_front_text, front_text, is_within_limits, parcel_of, half, most_bundle, takes_job, told_of, told_with_room, text_with_job, text_with_refused, text_with_told};
ghost use Rattle.uu_bundle.specs.Texts.{end_text, job_words, line_text, record_text};
ghost use Rattle.uu_bundle.specs.declared.bundle.Record.TheVariants.{Has};

use crate::heading::heading_text;
use crate::lines::{append_kind, append_words, number_text};
use crate::marks::parcel_mark;
use std::alloc::{AllocError, Global};
use uu_core::limits::{MAX_ARGUMENTS, MAX_BYTES};
use uu_core::{JobHead, Kind, Mark, Refusal, Taken};
use uu_names::{Grade, SiteName, Word};

/// The most bytes of a bundle that is written (this project's choice).
pub const MAX_BUNDLE: u32 = 4_194_304;

/// The most bytes of the first line and of the taken jobs, in a bundle that doesn't answer another:
/// half of a bundle (this project's choice).
pub const MAX_TOLD: u32 = 2_097_152;

/// The last line.
const END: &[u8] = b"end\n";

/// The beginning of a bundle that the first site sends to the second: its first line, and jobs of
/// the second that the first has taken. It has the first of these, and from there on as many as fit
/// in half of a bundle that has this many bytes at most.
pub fn begin_bundle(
    alloc: Global,
    from: &SiteName,
    to: &SiteName,
    spool: &Word,
    below: u32,
    grade: Grade,
    has: &[Taken],
    most: u32,
) -> Result<Vec<u8>, AllocError>
    ensures { IfOk result (λ text. text.items ≡ front_text most (record { from = from.now; to = to.now; spool = spool.now; below = below; grade = grade }) has.now) }
{
    let mut text = heading_text(alloc, from, to, spool, below, grade)?;
    append_first_told(alloc, &mut text, has, most)?;
    Ok(text)
}

/// The beginning of a bundle with which the first site answers one of the second: its first line,
/// and all of these jobs, which the first site has taken.
pub fn begin_answer(
    alloc: Global,
    from: &SiteName,
    to: &SiteName,
    spool: &Word,
    below: u32,
    grade: Grade,
    has: &[Taken],
) -> Result<Vec<u8>, AllocError>
    ensures { IfOk result (λ text. text.items ≡ answer_front_text (record { from = from.now; to = to.now; spool = spool.now; below = below; grade = grade }) has.now) }
{
    let mut text = heading_text(alloc, from, to, spool, below, grade)?;
    append_all_told(alloc, &mut text, has)?;
    Ok(text)
}

fn append_all_told(alloc: Global, text: &mut Vec<u8>, has: &[Taken]) -> Result<(), AllocError>
    ensures { OnOk result (text.new.items ≡ text_with_told text.old.items has.now) }
{
    for taken in has {
        let line = told_line(alloc, taken)?;
        text.extend_from_slice(&line)?;
    }
    Ok(())
}

// Appends the first of them, if it fits in half of the longest bundle, and from there on as many as
// fit in half of a bundle of this many bytes.
fn append_first_told(
    alloc: Global,
    text: &mut Vec<u8>,
    has: &[Taken],
    most: u32,
) -> Result<(), AllocError>
    ensures { OnOk result (text.new.items ≡ text_with_told text.old.items (told_with_room (half most_bundle) (half most) text.old.items has.now)) }
{
    let mut room = MAX_TOLD as usize;
    for taken in has {
        let line = told_line(alloc, taken)?;
        if text.len() > room || text.len() + line.len() > room {
            return Ok(());
        }
        text.extend_from_slice(&line)?;
        room = (most / 2) as usize;
    }
    Ok(())
}

// The record of a job that was taken.
fn told_line(alloc: Global, taken: &Taken) -> Result<Vec<u8>, AllocError>
    ensures { IfOk result (λ line. line.items ≡ record_text (Has (told_of taken.now))) }
{
    let number = number_text(alloc, taken.number as u64)?;
    let mark = number_text(alloc, taken.mark.number())?;
    let mut line = Vec::new(alloc);
    line.extend_from_slice(b"has")?;
    append_words(&mut line, &[number.as_bytes(), mark.as_bytes()])?;
    line.push(b'\n')?;
    Ok(line)
}

/// Adds a job of the second site that came under this number and mark and isn't taken, with the
/// reason.
pub fn add_refused(
    alloc: Global,
    text: &mut Vec<u8>,
    number: u32,
    mark: Mark,
    reason: Refusal,
) -> Result<(), AllocError>
    ensures { OnOk result (text.new.items ≡ text_with_refused text.old.items (record { number = number; mark = mark; reason = reason } ∷ [])) }
{
    let number = number_text(alloc, number as u64)?;
    let mark = number_text(alloc, mark.number())?;
    text.extend_from_slice(b"no")?;
    append_words(
        text,
        &[number.as_bytes(), mark.as_bytes(), reason.name().as_bytes()],
    )?;
    text.push(b'\n')?;
    Ok(())
}

// Whether a bundle can have the job.
fn is_within_limits(head: &JobHead, bytes: &[u8]) -> bool
    ensures { (from to spool : List ℕ) → result ≡ is_within_limits (parcel_of from to spool head.now bytes.now) }
{
    let is_short = match &head.kind {
        Kind::Send { .. } | Kind::Request { .. } => true,
        Kind::Execute { arguments, .. } => arguments.as_slice().len() <= MAX_ARGUMENTS,
    };
    head.number >= 1 && is_short && bytes.len() <= MAX_BYTES as usize
}

// The line of the job, with its end.
fn job_line(alloc: Global, head: &JobHead, mark: &Mark, size: usize) -> Result<Vec<u8>, AllocError>
    ensures { (bytes : List ℕ) → length bytes ≡ size → IfOk result (λ line. line.items ≡ line_text (codes "job") (job_words (record { number = head.now.number; mark = mark.now; grade = head.now.grade; user = head.now.user; kind = head.now.kind; bytes = bytes })) ++ 10 ∷ []) }
{
    let number = number_text(alloc, head.number as u64)?;
    let mark = number_text(alloc, mark.number())?;
    let size = number_text(alloc, size as u64)?;
    let mut line = Vec::new(alloc);
    line.extend_from_slice(b"job")?;
    append_words(
        &mut line,
        &[
            number.as_bytes(),
            mark.as_bytes(),
            &[head.grade.as_byte()],
            head.user.as_str().as_bytes(),
            size.as_bytes(),
        ],
    )?;
    append_kind(&mut line, &head.kind)?;
    line.push(b'\n')?;
    Ok(line)
}

/// Adds a job that waits for the second site, with its bytes, and returns true. It adds nothing and
/// returns false if the bundle would have more than this many bytes with the job and the last line,
/// or if the job's number, arguments or size exceed a spool's limits.
pub fn add_job(
    alloc: Global,
    from: &SiteName,
    to: &SiteName,
    spool: &Word,
    head: &JobHead,
    bytes: &[u8],
    most: u32,
    text: &mut Vec<u8>,
) -> Result<bool, AllocError>
    ensures added { IfOk result (λ added. added ≡ takes_job most text.old.items (parcel_of from.now to.now spool.now head.now bytes.now)) }
    ensures text { OnOk result (text.new.items ≡ text_with_job most text.old.items (parcel_of from.now to.now spool.now head.now bytes.now)) }
{
    if !is_within_limits(head, bytes) {
        return Ok(false);
    }
    if text.len() > most as usize {
        return Ok(false);
    }
    let mark = parcel_mark(
        alloc,
        from,
        to,
        spool,
        head.number,
        &head.user,
        &head.kind,
        bytes,
    )?;
    let line = job_line(alloc, head, &mark, bytes.len())?;
    if text.len() + line.len() + bytes.len() + 1 + END.len() > most as usize {
        return Ok(false);
    }
    text.extend_from_slice(&line)?;
    text.extend_from_slice(bytes)?;
    text.push(b'\n')?;
    Ok(true)
}

/// Ends the bundle.
pub fn end_bundle(text: &mut Vec<u8>) -> Result<(), AllocError>
    ensures { OnOk result (text.new.items ≡ text.old.items ++ end_text) }
{
    text.extend_from_slice(END)
}
