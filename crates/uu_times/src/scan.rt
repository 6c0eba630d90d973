// Lists of simple strings, read byte by byte.
ghost use Rattle.std.specs.Prelude.{◌≡◌, Ok, Err, Some};
ghost use Rattle.uu_times.specs.Internal.Scan.{is_time, is_end, minute_of, last_minute, first_letter, second_letter, more_digits, start_digit, end_digit, next_place, simple_at, step, list_of};
ghost use Rattle.uu_times.specs.Internal.Simples.{two_letters};
ghost use Rattle.uu_times.specs.Grammar.{is_separator};
ghost use Rattle.uu_times.specs.Internal.Listed.{Lists};

use crate::days::{Days, NO_DAYS, Simple};
use std::alloc::{AllocFailed, Global};

/// How far the reading of a simple string has come.
#[derive(Clone, Copy)]
pub enum Place {
    /// Before its first byte.
    Start,
    /// After the first letter, in lower case, of a day word.
    Letter(Days, u8),
    /// After `an`, of `any`.
    LettersAn(Days),
    /// After a day word.
    Named(Days),
    /// Within the time at which the hours begin: the value of the next digit's place, and the
    /// digits so far, filled up with zeros.
    From(Days, u16, u16),
    /// After that time.
    Dash(Days, u16),
    /// Within the time at which they end.
    To(Days, u16, u16, u16),
    /// After that time.
    Whole(Days, u16, u16),
}

// Whether the four digits are a time of day.
fn is_time(digits: u32) -> bool
    ensures { result ≡ is_time digits }
{
    digits / 100 < 24 && digits % 100 < 60
}

// Whether the four digits are a time at which hours may end.
fn is_end(digits: u32) -> bool
    ensures { result ≡ is_end digits }
{
    is_time(digits) || digits == 2400
}

// The minute of the day at a time of four digits.
fn minute_of(digits: u16) -> u16
    ensures { result ≡ minute_of digits }
{
    digits / 100 * 60 + digits % 100
}

// The last minute of hours that end at a time of four digits.
fn last_minute(digits: u16) -> u16
    ensures { result ≡ last_minute digits }
{
    if digits == 2400 {
        1439
    } else {
        minute_of(digits)
    }
}

/// The first and the last day that a day word of two letters names.
pub(crate) fn two_letters(first: u8, second: u8) -> Option<(u8, u8)>
    ensures { result ≡ two_letters first second }
{
    match (first, second) {
        (b's', b'u') => Some((0, 0)),
        (b'm', b'o') => Some((1, 1)),
        (b't', b'u') => Some((2, 2)),
        (b'w', b'e') => Some((3, 3)),
        (b't', b'h') => Some((4, 4)),
        (b'f', b'r') => Some((5, 5)),
        (b's', b'a') => Some((6, 6)),
        (b'w', b'k') => Some((1, 5)),
        _ => None,
    }
}

fn first_letter(days: Days, letter: u8) -> Option<Place>
    ensures { result ≡ first_letter days letter }
{
    match letter {
        b's' | b'm' | b't' | b'w' | b'f' | b'a' => Some(Place::Letter(days, letter)),
        _ => None,
    }
}

fn second_letter(days: Days, first: u8, letter: u8) -> Option<Place>
    ensures { result ≡ second_letter days first letter }
{
    if first == b'a' && letter == b'n' {
        return Some(Place::LettersAn(days));
    }
    let more = two_letters(first, letter)?;
    Some(Place::Named(days.with(more)))
}

// The digits with one more, in the place of this value.
fn more_digits(unit: u16, digits: u16, letter: u8) -> Option<u32>
    ensures { result ≡ more_digits unit digits letter }
{
    if letter.is_ascii_digit() {
        Some(digits as u32 + (letter - b'0') as u32 * unit as u32)
    } else {
        None
    }
}

fn start_digit(days: Days, unit: u16, digits: u16, letter: u8) -> Option<Place>
    ensures { result ≡ start_digit days unit digits letter }
{
    let more = more_digits(unit, digits, letter)?;
    if !is_time(more) {
        None
    } else if unit == 1 {
        Some(Place::Dash(days, more as u16))
    } else {
        Some(Place::From(days, unit / 10, more as u16))
    }
}

fn end_digit(days: Days, start: u16, unit: u16, digits: u16, letter: u8) -> Option<Place>
    ensures { result ≡ end_digit days start unit digits letter }
{
    let more = more_digits(unit, digits, letter)?;
    if !is_end(more) {
        None
    } else if unit == 1 {
        Some(Place::Whole(days, start, more as u16))
    } else {
        Some(Place::To(days, start, unit / 10, more as u16))
    }
}

// The place after a byte in lower case, within a simple string.
fn next_place(place: Place, letter: u8) -> Option<Place>
    ensures { result ≡ next_place place letter }
{
    match place {
        Place::Start => first_letter(NO_DAYS, letter),
        Place::Letter(days, first) => second_letter(days, first, letter),
        Place::LettersAn(days) if letter == b'y' => Some(Place::Named(days.with((0, 6)))),
        Place::Named(days) if letter.is_ascii_digit() => start_digit(days, 1000, 0, letter),
        Place::Named(days) => first_letter(days, letter),
        Place::From(days, unit, digits) => start_digit(days, unit, digits, letter),
        Place::Dash(days, start) if letter == b'-' => Some(Place::To(days, start, 1000, 0)),
        Place::To(days, start, unit, digits) => end_digit(days, start, unit, digits, letter),
        Place::LettersAn(_) | Place::Dash(_, _) | Place::Whole(_, _, _) => None,
    }
}

// The simple string that ends here, if one may.
fn simple_at(place: Place) -> Option<Simple>
    ensures { result ≡ simple_at place }
{
    match place {
        Place::Named(days) => Some(Simple { days, hours: None }),
        Place::Whole(days, start, end) => Some(Simple {
            days,
            hours: Some((minute_of(start), last_minute(end))),
        }),
        _ => None,
    }
}

fn is_separator(letter: u8) -> bool
    ensures { result ≡ is_separator letter }
{
    letter == b'|' || letter == b','
}

/// The place after a byte, and the simple string that ended there.
#[derive(Clone, Copy)]
pub struct Found {
    pub simple: Option<Simple>,
    pub next: Place,
}

/// Why a text isn't a list of simple strings.
#[derive(Drop)]
pub enum Unlisted {
    /// The text isn't one. The number says how many of its bytes begin one.
    At(usize),
    /// Out of memory.
    Memory,
}

impl From<AllocFailed<Simple>> for Unlisted {
    ghost use Rattle.std.specs.Prelude.{◌≡◌};
    ghost use Rattle.uu_times.specs.declared.scan.Unlisted.TheVariants.{Memory};

    ghost from_gives = { λ _ e. e ≡ Memory };

    fn from(_: AllocFailed<Simple>) -> Unlisted {
        Unlisted::Memory
    }
}

/// The simple strings of a text.
pub fn list_of(alloc: Global, text: &[u8]) -> Result<Vec<Simple>, Unlisted>
    ensures { Lists result (list_of text.now) }
{
    let mut simples = Vec::new(alloc);
    let mut place = Place::Start;
    for (at, byte) in text.iter().enumerate() {
        let letter = byte.to_ascii_lowercase();
        let Some(found) = step(place, letter) else {
            return Err(Unlisted::At(at));
        };
        if let Some(simple) = found.simple {
            simples.push(simple)?;
        }
        place = found.next;
    }
    match simple_at(place) {
        None => Err(Unlisted::At(text.len())),
        Some(simple) => {
            simples.push(simple)?;
            Ok(simples)
        }
    }
}

// The place after a byte.
fn step(place: Place, letter: u8) -> Option<Found>
    ensures { result ≡ step place letter }
{
    if is_separator(letter) {
        let simple = simple_at(place)?;
        return Some(Found {
            simple: Some(simple),
            next: Place::Start,
        });
    }
    let next = next_place(place, letter)?;
    Some(Found { simple: None, next })
}
