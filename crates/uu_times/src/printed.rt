//! Systems as a sys file, which [`read_sys`](crate::read_sys) reads back.
ghost use Rattle.std.specs.Prelude.{◌≡◌, ◌∷◌, ◌++◌, ◌<◌, ◌≤◌, ◌/◌, ◌%◌, [], ℕ, Ok, OnOk, IfOk, IfSome, IsTrue, MatchOption, codes, map, length, All};
ghost use Rattle.std.specs.Fmt.{decimal};
ghost use Rattle.std.specs.List.{flat_map, filter_map};
ghost use Rattle.std.specs.String.{string_bytes};
ghost use Rattle.uu_names.specs.Name.{is_site_name};
ghost use Rattle.uu_times.specs.Grammar.{two_digits, hours_text};
ghost use Rattle.uu_times.specs.Printed.{behind, on_day, pieces_on, days_of_week, weekdays_and_ends, same_range, are_alike, weekdays_alike, ends_alike, pieces_of, hours_of, piece_text, part_text, time_text, keyword_text, retry_text, time_words, line_text, system_text, sys_text, IsLine, IsSystem, NamesDiffer};
ghost use Rattle.uu_times.specs.SysFile.{sys_file_of};

use crate::{Line, SystemDef};
use itoa::Buffer;
use std::alloc::{AllocError, Global};
use uu_names::{Grade, SiteName};

/// The minutes in a day.
const DAY: u16 = 1440;

/// The rank of the lowest grade, `z`.
const LOWEST: u8 = 61;

// The minutes that a range has on a day, counted from its midnight.
fn on_day(day: u16, range: (u16, u16)) -> Option<(u16, u16)>
    requires { day < 7 }
    ensures value { result ≡ on_day day range }
    ensures within { IfSome result (λ part. (part.0 < 1440) × (part.1 < 1440)) }
{
    let first = DAY * day;
    let low = range.0.max(first);
    let high = range.1.min(first + 1439);
    if low <= high {
        Some((low - first, high - first))
    } else {
        None
    }
}

// Adds a number in two digits.
fn push_two(text: &mut Vec<u8>, number: u16) -> Result<(), AllocError>
    requires { number < 100 }
    ensures { OnOk result (text.new.items ≡ text.old.items ++ two_digits number) }
{
    text.push(b'0' + (number / 10) as u8)?;
    text.push(b'0' + (number % 10) as u8)?;
    Ok(())
}

// Adds a minute of the day as a time.
fn push_time(text: &mut Vec<u8>, minute: u16) -> Result<(), AllocError>
    requires { minute < 1440 }
    ensures { OnOk result (text.new.items ≡ text.old.items ++ (two_digits (minute / 60) ++ two_digits (minute % 60))) }
{
    push_two(text, minute / 60)?;
    push_two(text, minute % 60)
}

// Adds hours, unless they are the whole day.
fn push_hours(text: &mut Vec<u8>, minutes: (u16, u16)) -> Result<(), AllocError>
    requires { (minutes.0 < 1440) × (minutes.1 < 1440) }
    ensures { OnOk result (text.new.items ≡ text.old.items ++ hours_text (hours_of minutes)) }
{
    if minutes.0 == 0 && minutes.1 == 1439 {
        return Ok(());
    }
    push_time(text, minutes.0)?;
    text.push(b'-')?;
    push_time(text, minutes.1)
}

// Adds a comma, a day word and hours, if there are any.
fn push_part(text: &mut Vec<u8>, word: &[u8], minutes: Option<(u16, u16)>) -> Result<(), AllocError>
    requires { IfSome minutes (λ part. (part.0 < 1440) × (part.1 < 1440)) }
    ensures { OnOk result (text.new.items ≡ text.old.items ++ part_text word.now minutes) }
{
    match minutes {
        None => Ok(()),
        Some(minutes) => {
            text.push(b',')?;
            text.extend_from_slice(word)?;
            push_hours(text, minutes)
        }
    }
}

fn push_day(
    text: &mut Vec<u8>,
    word: &[u8],
    day: u16,
    ranges: &[(u16, u16)],
) -> Result<(), AllocError>
    requires { day < 7 }
    ensures { OnOk result (text.new.items ≡ text.old.items ++ flat_map (λ range. part_text word.now (on_day day range)) ranges.now) }
{
    for range in ranges {
        push_part(text, word, on_day(day, *range))?;
    }
    Ok(())
}

fn push_days(text: &mut Vec<u8>, ranges: &[(u16, u16)]) -> Result<(), AllocError>
    ensures { OnOk result (text.new.items ≡ text.old.items ++ behind 44 (map piece_text (flat_map (pieces_on ranges.now) days_of_week))) }
{
    push_day(text, b"Su", 0, ranges)?;
    push_day(text, b"Mo", 1, ranges)?;
    push_day(text, b"Tu", 2, ranges)?;
    push_day(text, b"We", 3, ranges)?;
    push_day(text, b"Th", 4, ranges)?;
    push_day(text, b"Fr", 5, ranges)?;
    push_day(text, b"Sa", 6, ranges)
}

// Adds the minutes of Monday for Monday to Friday, and those of Saturday and Sunday.
fn push_parts(text: &mut Vec<u8>, ranges: &[(u16, u16)]) -> Result<(), AllocError>
    ensures { OnOk result (text.new.items ≡ text.old.items ++ behind 44 (map piece_text (flat_map (pieces_on ranges.now) weekdays_and_ends))) }
{
    push_day(text, b"Wk", 1, ranges)?;
    push_day(text, b"Sa", 6, ranges)?;
    push_day(text, b"Su", 0, ranges)
}

// The first part that ranges have on a day, and the ranges after it.
fn next_part(ranges: &[(u16, u16)], day: u16) -> Option<((u16, u16), &[(u16, u16)])>
    requires { day < 7 }
    ensures part { MatchOption result (filter_map (on_day day) ranges.now ≡ [])
        (λ found. filter_map (on_day day) ranges.now ≡ found.0 ∷ filter_map (on_day day) found.1.now) }
    ensures shorter { IfSome result (λ found. length found.1.now < length ranges.now) }
{
    let mut rest = ranges;
    while let Some((range, behind)) = rest.split_first() {
        if let Some(part) = on_day(day, *range) {
            return Some((part, behind));
        }
        rest = behind;
    }
    None
}

// Whether a range is the same as another.
fn same_range(range: (u16, u16), other: (u16, u16)) -> bool
    ensures { result ≡ same_range range other }
{
    range.0 == other.0 && range.1 == other.1
}

// Whether ranges have the same minutes on two days.
#[tactic(auto, unfolding(crate::specs::Printed::are_alike))]
fn are_alike(ranges: &[(u16, u16)], day: u16, other: u16) -> bool
    requires day { day < 7 }
    requires other { other < 7 }
    ensures { result ≡ are_alike ranges.now day other }
{
    let mut left = ranges;
    let mut right = ranges;
    while let Some((part, behind)) = next_part(left, day) {
        let Some((other_part, other_behind)) = next_part(right, other) else {
            return false;
        };
        if !same_range(part, other_part) {
            return false;
        }
        left = behind;
        right = other_behind;
    }
    next_part(right, other).is_none()
}

// Whether they have the same minutes on each day from Monday to Friday.
fn weekdays_alike(ranges: &[(u16, u16)]) -> bool
    ensures { result ≡ weekdays_alike ranges.now }
{
    are_alike(ranges, 1, 2)
        && are_alike(ranges, 2, 3)
        && are_alike(ranges, 3, 4)
        && are_alike(ranges, 4, 5)
}

// Whether Sunday has the minutes of Monday, and Saturday those of Friday.
fn ends_alike(ranges: &[(u16, u16)]) -> bool
    ensures { result ≡ ends_alike ranges.now }
{
    are_alike(ranges, 0, 1) && are_alike(ranges, 5, 6)
}

// Adds the ranges of the week.
fn push_week(text: &mut Vec<u8>, ranges: &[(u16, u16)]) -> Result<(), AllocError>
    ensures { OnOk result (text.new.items ≡ text.old.items ++ behind 44 (map piece_text (pieces_of ranges.now))) }
{
    if !weekdays_alike(ranges) {
        return push_days(text, ranges);
    }
    if ends_alike(ranges) {
        return push_day(text, b"Any", 0, ranges);
    }
    push_parts(text, ranges)
}

// Adds a set of minutes as a time string.
fn push_windows(text: &mut Vec<u8>, ranges: &[(u16, u16)]) -> Result<(), AllocError>
    ensures { OnOk result (text.new.items ≡ text.old.items ++ time_text ranges.now) }
{
    let start = text.len();
    push_week(text, ranges)?;
    if start < text.len() {
        text.remove(start);
        Ok(())
    } else {
        text.extend_from_slice(b"Never")
    }
}

fn push_number(text: &mut Vec<u8>, number: u32) -> Result<(), AllocError>
    ensures { OnOk result (text.new.items ≡ text.old.items ++ decimal number) }
{
    let mut digits = Buffer::new();
    text.extend_from_slice(digits.format(number).as_bytes())
}

// Adds the keyword of a time line, with the grade if it isn't the lowest.
fn push_keyword(text: &mut Vec<u8>, grade: Grade) -> Result<(), AllocError>
    ensures grade { OnOk result (grade < 62) }
    ensures text { OnOk result (text.new.items ≡ text.old.items ++ keyword_text grade) }
{
    if grade.rank() == LOWEST {
        return text.extend_from_slice(b"time ");
    }
    text.extend_from_slice(b"timegrade ")?;
    text.push(grade.as_byte())?;
    text.push(b' ')?;
    Ok(())
}

// Adds a retry number.
fn push_retry(text: &mut Vec<u8>, retry: Option<u32>) -> Result<(), AllocError>
    ensures { OnOk result (text.new.items ≡ text.old.items ++ retry_text retry) }
{
    if let Some(minutes) = retry {
        text.push(b' ')?;
        push_number(text, minutes)?;
    }
    Ok(())
}

// Adds a time line.
fn push_line(text: &mut Vec<u8>, line: &Line) -> Result<(), AllocError>
    ensures is { OnOk result (IsLine line.now) }
    ensures text { OnOk result (text.new.items ≡ text.old.items ++ line_text (time_words line.now)) }
{
    push_keyword(text, line.grade)?;
    push_windows(text, line.windows.ranges())?;
    push_retry(text, line.retry)?;
    text.push(b'\n')?;
    Ok(())
}

// Adds time lines.
fn push_lines(text: &mut Vec<u8>, lines: &[Line]) -> Result<(), AllocError>
    ensures are { OnOk result (All IsLine lines.now) }
    ensures text { OnOk result (text.new.items ≡ text.old.items ++ flat_map (λ line. line_text (time_words line)) lines.now) }
{
    for line in lines {
        push_line(text, line)?;
    }
    Ok(())
}

// Adds a keyword and a number as a line.
fn push_setting(text: &mut Vec<u8>, keyword: &[u8], number: u32) -> Result<(), AllocError>
    ensures { OnOk result (text.new.items ≡ text.old.items ++ line_text (keyword.now ∷ decimal number ∷ [])) }
{
    text.extend_from_slice(keyword)?;
    text.push(b' ')?;
    push_number(text, number)?;
    text.push(b'\n')?;
    Ok(())
}

// Adds the line that begins a system.
fn push_name(text: &mut Vec<u8>, name: &SiteName) -> Result<(), AllocError>
    ensures is { OnOk result (IsTrue (is_site_name name.now)) }
    ensures text { OnOk result (text.new.items ≡ text.old.items ++ line_text (codes "system" ∷ name.now ∷ [])) }
{
    text.extend_from_slice(b"system ")?;
    text.extend_from_slice(name.as_str().as_bytes())?;
    text.push(b'\n')?;
    Ok(())
}

// Adds the lines of a system.
fn push_system(text: &mut Vec<u8>, system: &SystemDef) -> Result<(), AllocError>
    ensures is { OnOk result (IsSystem system.now) }
    ensures text { OnOk result (text.new.items ≡ text.old.items ++ system_text system.now) }
{
    push_name(text, &system.name)?;
    push_setting(text, b"max-retries", system.max_retries)?;
    push_setting(text, b"success-wait", system.success_wait)?;
    push_lines(text, system.lines())
}

/// The systems as a sys file, in their order. Each has a `system`, a `max-retries` and a
/// `success-wait` line, and then its time lines in their order: `time` for the lowest grade,
/// `timegrade` for another.
///
/// If no two systems have the same name, [`read_sys`](crate::read_sys) of the text gives exactly
/// these systems (`read`). It reads at most 4,194,304 bytes. The text of one system is never longer
/// ([`printed_systems_are_read`](crate::laws::printed_systems_are_read)), but the text of many may
/// be.
pub fn write_sys(alloc: Global, systems: &[SystemDef]) -> Result<Vec<u8>, AllocError>
    ensures text { IfOk result (λ text. text.items ≡ sys_text systems.now) }
    ensures read { IfOk result (λ text. NamesDiffer systems.now → sys_file_of text.items ≡ Ok (record { systems = systems.now; skipped = [] })) }
{
    let mut text = Vec::with_capacity(alloc, 256)?;
    for system in systems {
        push_system(&mut text, system)?;
    }
    Ok(text)
}
