//! The text of one system as [`write_sys`](crate::write_sys) prints it, read quickly. What is read
//! is printed again and compared with the text, so it needs no care here: a text that is read as
//! another system, or as none, is one for [`read_sys`](crate::read_sys).
ghost use Rattle.std.specs.Prelude.{◌≡◌, ◌<◌, ◌≤◌, ◌∷◌, [], All, IfOk, IfSome, length};
ghost use Rattle.uu_times.specs.Internal.Union.{IsDaily};
ghost use Rattle.uu_times.specs.Printed.{sys_text};

use crate::days::{Days, NO_DAYS, Simple};
use crate::directive::lowest;
use crate::scan::two_letters;
use crate::union::windows_of;
use crate::{Line, SystemDef, Windows, write_sys};
use std::alloc::{AllocError, Global};
use std::slice;
use uu_names::text::len_before;
use uu_names::{Grade, Listed, NameFault, SiteName};

/// The most digits of a number.
const MAX_DIGITS: usize = 9;

// The number of two digits.
fn two_digits(high: u8, low: u8) -> Option<u16>
    ensures { IfSome result (λ number. number < 100) }
{
    if high.is_ascii_digit() && low.is_ascii_digit() {
        Some((high - b'0') as u16 * 10 + (low - b'0') as u16)
    } else {
        None
    }
}

// The minute of the day that the text begins with, and the text after it.
fn minute(text: &[u8]) -> Option<(u16, &[u8])>
    ensures minute { IfSome result (λ found. found.0 < 1440) }
    ensures shorter { IfSome result (λ found. length found.1.now ≤ length text.now) }
{
    let [first, second, third, fourth, rest @ ..] = text else {
        return None;
    };
    let hour = two_digits(*first, *second)?;
    let minute = two_digits(*third, *fourth)?;
    if hour < 24 && minute < 60 {
        Some((hour * 60 + minute, rest))
    } else {
        None
    }
}

// The hours that the text begins with, and the text after them.
fn hours(text: &[u8]) -> Option<((u16, u16), &[u8])>
    ensures hours { IfSome result (λ found. (found.0.0 < 1440) × (found.0.1 < 1440)) }
    ensures shorter { IfSome result (λ found. length found.1.now ≤ length text.now) }
{
    let (start, rest) = minute(text)?;
    let [_, rest @ ..] = rest else {
        return None;
    };
    let (end, rest) = minute(rest)?;
    Some(((start, end), rest))
}

// The days of the day word that the text begins with, and the text after it.
fn days(text: &[u8]) -> Option<(Days, &[u8])>
    ensures { IfSome result (λ found. length found.1.now < length text.now) }
{
    let [first, second, rest @ ..] = text else {
        return None;
    };
    if *first == b'A' {
        let [_, rest @ ..] = rest else {
            return None;
        };
        return Some((NO_DAYS.with((0, 6)), rest));
    }
    let more = two_letters(first.to_ascii_lowercase(), *second)?;
    Some((NO_DAYS.with(more), rest))
}

// The simple string that the text begins with, and the text after it.
fn simple(text: &[u8]) -> Option<(Simple, &[u8])>
    ensures daily { IfSome result (λ found. IsDaily found.0) }
    ensures shorter { IfSome result (λ found. length found.1.now < length text.now) }
{
    let (days, rest) = days(text)?;
    match hours(rest) {
        None => Some((Simple { days, hours: None }, rest)),
        Some((hours, rest)) => Some((
            Simple {
                days,
                hours: Some(hours),
            },
            rest,
        )),
    }
}

// The simple strings that the text begins with, each with a byte after it.
fn simples(alloc: Global, text: &[u8]) -> Result<Vec<Simple>, AllocError>
    ensures { IfOk result (λ simples. All IsDaily simples.items) }
{
    let mut simples = Vec::new(alloc);
    let mut rest = text;
    while let Some((simple, behind)) = simple(rest) {
        simples.push(simple)?;
        let [_, more @ ..] = behind else {
            return Ok(simples);
        };
        rest = more;
    }
    Ok(simples)
}

fn windows(alloc: Global, text: &[u8]) -> Result<Windows, AllocError> {
    let simples = simples(alloc, text)?;
    windows_of(alloc, &simples)
}

// A number of up to nine digits.
fn number(text: &[u8]) -> Option<u32> {
    if text.len() > MAX_DIGITS {
        return None;
    }
    let mut value = 0u32;
    for digit in text {
        if !digit.is_ascii_digit() {
            return None;
        }
        value = value.checked_mul(10)?.checked_add((*digit - b'0') as u32)?;
    }
    Some(value)
}

// The next line, and the text after it.
fn next_line(text: &[u8]) -> Option<(&[u8], &[u8])>
    ensures { IfSome result (λ found. length found.1.now < length text.now) }
{
    let (line, rest) = text.split_at(len_before(text, b'\n'));
    let [_, rest @ ..] = rest else {
        return None;
    };
    Some((line, rest))
}

// What comes after the keyword in the first line, and the text after the line.
fn value<'a>(text: &'a [u8], keyword: &[u8]) -> Option<(&'a [u8], &'a [u8])> {
    next_line(text.strip_prefix(keyword)?)
}

fn setting<'a>(text: &'a [u8], keyword: &[u8]) -> Option<(u32, &'a [u8])> {
    let (digits, rest) = value(text, keyword)?;
    Some((number(digits)?, rest))
}

// The grade of a time line, and the words after it.
fn grade(line: &[u8]) -> Option<(Grade, &[u8])> {
    if let Some(words) = line.strip_prefix(b"time ".as_slice()) {
        return Some((lowest(), words));
    }
    let [letter, _, words @ ..] = line.strip_prefix(b"timegrade ".as_slice())? else {
        return None;
    };
    Some((Grade::parse(*letter).ok()?, words))
}

fn time_line(alloc: Global, line: &[u8]) -> Result<Option<Line>, AllocError> {
    let Some((grade, words)) = grade(line) else {
        return Ok(None);
    };
    let (string, rest) = words.split_at(len_before(words, b' '));
    let windows = windows(alloc, string)?;
    let retry = match rest {
        [] => None,
        [_, digits @ ..] => number(digits),
    };
    Ok(Some(Line {
        grade,
        windows,
        retry,
    }))
}

fn time_lines(alloc: Global, text: &[u8]) -> Result<Option<Vec<Line>>, AllocError> {
    let mut lines = Vec::new(alloc);
    let mut rest = text;
    while let Some((line, behind)) = next_line(rest) {
        let Some(time) = time_line(alloc, line)? else {
            return Ok(None);
        };
        lines.push(time)?;
        rest = behind;
    }
    Ok(Some(lines))
}

fn name(alloc: Global, text: &[u8]) -> Result<Option<SiteName>, AllocError> {
    match SiteName::from_bytes(alloc, text) {
        Ok(name) => Ok(Some(name)),
        Err(NameFault::Memory) => Err(AllocError),
        Err(_) => Ok(None),
    }
}

// The system that the text may have been printed of.
fn guess(alloc: Global, text: &[u8]) -> Result<Option<SystemDef>, AllocError> {
    let Some((site, rest)) = value(text, b"system ") else {
        return Ok(None);
    };
    let Some((max_retries, rest)) = setting(rest, b"max-retries ") else {
        return Ok(None);
    };
    let Some((success_wait, rest)) = setting(rest, b"success-wait ") else {
        return Ok(None);
    };
    let Some(lines) = time_lines(alloc, rest)? else {
        return Ok(None);
    };
    let Some(name) = name(alloc, site)? else {
        return Ok(None);
    };
    let lines = Listed::from_vec(lines);
    Ok(SystemDef::new(name, lines, max_retries, success_wait))
}

// The system, if this is the text that is printed of it.
fn if_printed(
    alloc: Global,
    system: SystemDef,
    text: &[u8],
) -> Result<Option<SystemDef>, AllocError>
    ensures { IfOk result (λ found. IfSome found (λ same. text.now ≡ sys_text (same ∷ []))) }
{
    let printed = write_sys(alloc, slice::from_ref(&system))?;
    if printed.as_slice() == text {
        Ok(Some(system))
    } else {
        Ok(None)
    }
}

/// A system of which exactly this text is printed. `None` says nothing: then
/// [`read_sys`](crate::read_sys) tells what the text is.
pub fn read_printed(alloc: Global, text: &[u8]) -> Result<Option<SystemDef>, AllocError>
    ensures { IfOk result (λ found. IfSome found (λ system. text.now ≡ sys_text (system ∷ []))) }
{
    match guess(alloc, text)? {
        Some(system) => if_printed(alloc, system, text),
        None => Ok(None),
    }
}
