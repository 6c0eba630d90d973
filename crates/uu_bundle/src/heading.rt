// The first line of a bundle.
ghost use Rattle.std.specs.Prelude.{◌≡◌, IfOk, map, option_map};
ghost use Rattle.uu_bundle.specs.Texts.{IsHeading, heading_text, heading_words, summed_text};
ghost use Rattle.uu_bundle.specs.Internal.Forms.{IsReadAs, IsReadFrom, IsSaid, said_words};

use crate::bundle::Heading;
use crate::lines::{append_word, first_words, number_text};
use crate::marks::mark_of;
use crate::words::{count_in, grade_in, mark_in, site_in, word_in};
use std::alloc::{AllocError, Global};
use uu_core::Mark;
use uu_names::{Grade, SiteName, Word};

// The first line without its sum.
fn summed(
    alloc: Global,
    from: &SiteName,
    to: &SiteName,
    spool: &Word,
    below: u32,
    grade: Grade,
) -> Result<Vec<u8>, AllocError>
    ensures { IfOk result (λ text. text.items ≡ summed_text (record { from = from.now; to = to.now; spool = spool.now; below = below; grade = grade })) }
{
    let numeral = number_text(alloc, below as u64)?;
    let mut text = Vec::new(alloc);
    text.extend_from_slice(b"bundle")?;
    append_word(&mut text, from.as_str().as_bytes())?;
    append_word(&mut text, to.as_str().as_bytes())?;
    append_word(&mut text, spool.as_str().as_bytes())?;
    append_word(&mut text, numeral.as_bytes())?;
    append_word(&mut text, &[grade.as_byte()])?;
    Ok(text)
}

// The first line.
pub(crate) fn heading_text(
    alloc: Global,
    from: &SiteName,
    to: &SiteName,
    spool: &Word,
    below: u32,
    grade: Grade,
) -> Result<Vec<u8>, AllocError>
    ensures { IfOk result (λ text. text.items ≡ heading_text (record { from = from.now; to = to.now; spool = spool.now; below = below; grade = grade })) }
{
    let mut text = summed(alloc, from, to, spool, below, grade)?;
    let sum = number_text(alloc, mark_of(&text).number())?;
    append_word(&mut text, sum.as_bytes())?;
    text.push(b'\n')?;
    Ok(text)
}

// What the first line says, and the sum in it.
#[derive(Drop)]
pub(crate) struct Said {
    from: SiteName,
    to: SiteName,
    spool: Word,
    below: u32,
    grade: Grade,
    sum: Mark,
}

// What the words after `bundle` say.
fn said_in(alloc: Global, words: &[&str]) -> Result<Option<Said>, AllocError>
    ensures { IfOk result (IsReadAs IsSaid said_words (map (λ word. word.now) words.now)) }
{
    let [from, to, spool, below, grade, sum] = words else {
        return Ok(None);
    };
    let Some(from) = site_in(alloc, from)? else {
        return Ok(None);
    };
    let Some(to) = site_in(alloc, to)? else {
        return Ok(None);
    };
    let Some(spool) = word_in(alloc, spool)? else {
        return Ok(None);
    };
    let Some(below) = count_in(alloc, below)? else {
        return Ok(None);
    };
    let Some(grade) = grade_in(grade) else {
        return Ok(None);
    };
    let Some(sum) = mark_in(alloc, sum)? else {
        return Ok(None);
    };
    Ok(Some(Said {
        from,
        to,
        spool,
        below,
        grade,
        sum,
    }))
}

// What the words after `bundle` say, if the sum matches.
fn heading_in(alloc: Global, words: &[&str]) -> Result<Option<Heading>, AllocError>
    ensures { IfOk result (IsReadAs IsHeading heading_words (map (λ word. word.now) words.now)) }
{
    let Some(said) = said_in(alloc, words)? else {
        return Ok(None);
    };
    let text = summed(
        alloc,
        &said.from,
        &said.to,
        &said.spool,
        said.below,
        said.grade,
    )?;
    if mark_of(&text).number() != said.sum.number() {
        return Ok(None);
    }
    let Said {
        from,
        to,
        spool,
        below,
        grade,
        sum: _,
    } = said;
    Ok(Some(Heading {
        from,
        to,
        spool,
        below,
        grade,
    }))
}

// What the first line says, and the text after it.
pub(crate) fn read_heading<'a>(
    alloc: Global,
    text: &'a [u8],
) -> Result<Option<(Heading, &'a [u8])>, AllocError>
    ensures { IfOk result (λ read. IsReadFrom IsHeading heading_text text.now (option_map (λ read. (read.0, read.1.now)) read)) }
{
    let Some((words, rest)) = first_words(alloc, text)? else {
        return Ok(None);
    };
    let Some((name, words)) = words.split_first() else {
        return Ok(None);
    };
    match *name {
        "bundle" => match heading_in(alloc, words)? {
            Some(heading) => Ok(Some((heading, rest))),
            None => Ok(None),
        },
        _ => Ok(None),
    }
}
