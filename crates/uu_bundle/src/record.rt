// The records of a bundle.
ghost use Rattle.std.specs.Prelude.{◌≡◌, ◌++◌, ◌∷◌, [], IfOk, length, map, option_map};
ghost use Rattle.uu_bundle.specs.Texts.{IsRecord, IsRefused, IsTold, record_text, refused_words, told_words};
ghost use Rattle.uu_bundle.specs.Internal.Forms.{IsJobAt, IsParcelAt, IsReadAs, IsReadFrom, IsStated, stated_words};

use crate::bundle::{Heading, Parcel, Record, Refused, Told};
use crate::lines::first_words;
use crate::marks::parcel_mark;
use crate::words::{bounded_in, count_in, grade_in, kind_in, mark_in, refusal_in, word_in};
use std::alloc::{AllocError, Global};
use uu_core::limits::MAX_BYTES;
use uu_core::{Kind, Mark};
use uu_names::{Grade, Listed, Word};

// What the line of a job says.
#[derive(Drop)]
pub(crate) struct Stated {
    number: u32,
    mark: Mark,
    grade: Grade,
    user: Word,
    size: u32,
    kind: Kind,
}

// What the words after `has` say.
fn told_in(alloc: Global, words: &[&str]) -> Result<Option<Told>, AllocError>
    ensures { IfOk result (IsReadAs IsTold told_words (map (λ word. word.now) words.now)) }
{
    let [number, mark] = words else {
        return Ok(None);
    };
    let Some(number) = count_in(alloc, number)? else {
        return Ok(None);
    };
    match mark_in(alloc, mark)? {
        Some(mark) => Ok(Some(Told { number, mark })),
        None => Ok(None),
    }
}

// What the words after `no` say.
fn refused_in(alloc: Global, words: &[&str]) -> Result<Option<Refused>, AllocError>
    ensures { IfOk result (IsReadAs IsRefused refused_words (map (λ word. word.now) words.now)) }
{
    let [number, mark, reason] = words else {
        return Ok(None);
    };
    let Some(number) = count_in(alloc, number)? else {
        return Ok(None);
    };
    let Some(mark) = mark_in(alloc, mark)? else {
        return Ok(None);
    };
    match refusal_in(reason) {
        Some(reason) => Ok(Some(Refused {
            number,
            mark,
            reason,
        })),
        None => Ok(None),
    }
}

// What the words after `job` say.
fn stated_in(alloc: Global, words: &[&str]) -> Result<Option<Stated>, AllocError>
    ensures { IfOk result (IsReadAs IsStated stated_words (map (λ word. word.now) words.now)) }
{
    let [number, mark, grade, user, size, kind @ ..] = words else {
        return Ok(None);
    };
    let Some(number) = bounded_in(alloc, number, 1, u32::MAX)? else {
        return Ok(None);
    };
    let Some(mark) = mark_in(alloc, mark)? else {
        return Ok(None);
    };
    let Some(grade) = grade_in(grade) else {
        return Ok(None);
    };
    let Some(user) = word_in(alloc, user)? else {
        return Ok(None);
    };
    let Some(size) = bounded_in(alloc, size, 0, MAX_BYTES)? else {
        return Ok(None);
    };
    let Some(kind) = kind_in(alloc, kind)? else {
        return Ok(None);
    };
    Ok(Some(Stated {
        number,
        mark,
        grade,
        user,
        size,
        kind,
    }))
}

// So many bytes that a line feed follows, and the text after it.
fn bytes_at(text: &[u8], size: u32) -> Option<(&[u8], &[u8])>
    ensures { IsReadFrom (λ bytes. length bytes ≡ size) (λ bytes. bytes ++ 10 ∷ []) text.now (option_map (λ cut. (cut.0.now, cut.1.now)) result) }
{
    let size = size as usize;
    if text.len() <= size {
        return None;
    }
    let (bytes, rest) = text.split_at(size);
    match rest {
        [b'\n', rest @ ..] => Some((bytes, rest)),
        _ => None,
    }
}

// The job that these words describe, with the bytes after its line.
fn parcel_at<'a>(
    alloc: Global,
    heading: &Heading,
    stated: Stated,
    text: &'a [u8],
) -> Result<Option<(Parcel, &'a [u8])>, AllocError>
    requires { IsStated stated }
    ensures { IfOk result (λ read. IsParcelAt heading.now stated text.now (option_map (λ read. (read.0, read.1.now)) read)) }
{
    let Some((bytes, rest)) = bytes_at(text, stated.size) else {
        return Ok(None);
    };
    let mark = parcel_mark(
        alloc,
        &heading.from,
        &heading.to,
        &heading.spool,
        stated.number,
        &stated.user,
        &stated.kind,
        bytes,
    )?;
    if mark.number() != stated.mark.number() {
        return Ok(None);
    }
    let bytes = Listed::from_vec(bytes.to_vec(alloc)?);
    let Stated {
        number,
        mark,
        grade,
        user,
        size: _,
        kind,
    } = stated;
    let parcel = Parcel {
        number,
        mark,
        grade,
        user,
        kind,
        bytes,
    };
    Ok(Some((parcel, rest)))
}

// The job whose line has these words after `job`, with its bytes, and the text after it.
fn job_at<'a>(
    alloc: Global,
    heading: &Heading,
    words: &[&str],
    text: &'a [u8],
) -> Result<Option<(Parcel, &'a [u8])>, AllocError>
    ensures { IfOk result (λ read. IsJobAt heading.now (map (λ word. word.now) words.now) text.now (option_map (λ read. (read.0, read.1.now)) read)) }
{
    match stated_in(alloc, words)? {
        Some(stated) => parcel_at(alloc, heading, stated, text),
        None => Ok(None),
    }
}

// The record with which the text begins, and the text after it.
pub(crate) fn read_record<'a>(
    alloc: Global,
    heading: &Heading,
    text: &'a [u8],
) -> Result<Option<(Record, &'a [u8])>, AllocError>
    ensures { IfOk result (λ read. IsReadFrom (IsRecord heading.now) record_text text.now (option_map (λ read. (read.0, read.1.now)) read)) }
{
    let Some((words, rest)) = first_words(alloc, text)? else {
        return Ok(None);
    };
    let Some((name, words)) = words.split_first() else {
        return Ok(None);
    };
    match *name {
        "has" => match told_in(alloc, words)? {
            Some(told) => Ok(Some((Record::Has(told), rest))),
            None => Ok(None),
        },
        "no" => match refused_in(alloc, words)? {
            Some(refused) => Ok(Some((Record::No(refused), rest))),
            None => Ok(None),
        },
        "job" => match job_at(alloc, heading, words, rest)? {
            Some((job, rest)) => Ok(Some((Record::Job(job), rest))),
            None => Ok(None),
        },
        _ => Ok(None),
    }
}
