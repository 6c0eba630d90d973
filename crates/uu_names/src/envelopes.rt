// The line that `rmail` puts before a message.
ghost use Rattle.std.specs.Prelude.{◌≡◌, ◌++◌, ◌<◌, ◌≤◌, ◌≤ℤ◌, pos, IfOk, OnOk, IsOkUnless};
ghost use Rattle.std.specs.List.{flat_map};
ghost use Rattle.jiff_core.specs.Weekday.{monday_zero};
ghost use Rattle.uu_names.specs.Envelope.{day_name, month_name, two_digits, two_places, date_text, from_line, envelope_of};

use crate::fault::NameFault;
use crate::site_name::SiteName;
use crate::word::Word;
use jiff_core::civil::{DateTime, Weekday};
use std::alloc::{AllocError, Global};

fn day_name(weekday: Weekday) -> [u8; 3]
    ensures { result ≡ day_name (monday_zero weekday) }
{
    match weekday {
        Weekday::Monday => *b"Mon",
        Weekday::Tuesday => *b"Tue",
        Weekday::Wednesday => *b"Wed",
        Weekday::Thursday => *b"Thu",
        Weekday::Friday => *b"Fri",
        Weekday::Saturday => *b"Sat",
        Weekday::Sunday => *b"Sun",
    }
}

fn month_name(month: u8) -> [u8; 3]
    requires from { 1 ≤ month }
    requires to { month ≤ 12 }
    ensures { result ≡ month_name month }
{
    match month {
        1 => *b"Jan",
        2 => *b"Feb",
        3 => *b"Mar",
        4 => *b"Apr",
        5 => *b"May",
        6 => *b"Jun",
        7 => *b"Jul",
        8 => *b"Aug",
        9 => *b"Sep",
        10 => *b"Oct",
        11 => *b"Nov",
        12 => *b"Dec",
        _ => unreachable!(),
    }
}

fn two_digits(number: u8) -> [u8; 2]
    requires { number < 100 }
    ensures { result ≡ two_digits number }
{
    [b'0' + number / 10, b'0' + number % 10]
}

fn two_places(number: u8) -> [u8; 2]
    requires { number < 100 }
    ensures { result ≡ two_places number }
{
    let first = if number < 10 {
        b' '
    } else {
        b'0' + number / 10
    };
    [first, b'0' + number % 10]
}

fn append(bytes: &mut Vec<u8>, pieces: &[&[u8]]) -> Result<(), AllocError>
    ensures { OnOk result (bytes.new.items ≡ bytes.old.items ++ flat_map (λ piece. piece.now) pieces.now) }
{
    for piece in pieces {
        bytes.extend_from_slice(piece)?;
    }
    Ok(())
}

/// The message as `rmail` hands it on: the line
/// `From USER Www Mmm dd hh:mm:ss yyyy remote from SITE`, and then the message. The date is local,
/// in the form of C's `ctime`. If the message begins with `From `, a `>` comes before it. The year
/// is 1000 to 9999. The only error is [`NameFault::Memory`]. (RFC 976; the date's form is this
/// project's choice.)
pub fn envelope(
    alloc: Global,
    user: &Word,
    local: &DateTime,
    site: &SiteName,
    message: &[u8],
) -> Result<Vec<u8>, NameFault>
    requires from { pos 1000 ≤ℤ local.now.date.year }
    requires to { local.now.date.year ≤ℤ pos 9999 }
    ensures bytes { IfOk result (λ bytes. bytes.items ≡ envelope_of user.now local.now site.now message.now) }
    ensures memory { IsOkUnless result NameFault.Memory }
{
    let mut bytes = Vec::new(alloc);
    append_from_line(&mut bytes, user, local, site)?;
    let quote: &[u8] = if message.starts_with(b"From ") {
        b">"
    } else {
        b""
    };
    append(&mut bytes, &[quote, message])?;
    Ok(bytes)
}

fn append_from_line(
    bytes: &mut Vec<u8>,
    user: &Word,
    local: &DateTime,
    site: &SiteName,
) -> Result<(), AllocError>
    requires from { pos 1000 ≤ℤ local.now.date.year }
    requires to { local.now.date.year ≤ℤ pos 9999 }
    ensures { OnOk result (bytes.new.items ≡ bytes.old.items ++ from_line user.now local.now site.now) }
{
    append(bytes, &[b"From ", user.as_str().as_bytes(), b" "])?;
    append_date(bytes, local)?;
    append(bytes, &[b" remote from ", site.as_str().as_bytes(), b"\n"])
}

fn append_date(bytes: &mut Vec<u8>, local: &DateTime) -> Result<(), AllocError>
    requires from { pos 1000 ≤ℤ local.now.date.year }
    requires to { local.now.date.year ≤ℤ pos 9999 }
    ensures { OnOk result (bytes.new.items ≡ bytes.old.items ++ date_text local.now) }
{
    let DateTime { date, time } = *local;
    let year = date.year.unsigned_abs();
    append(
        bytes,
        &[
            &day_name(date.weekday()),
            b" ",
            &month_name(date.month),
            b" ",
            &two_places(date.day),
            b" ",
            &two_digits(time.hour),
            b":",
            &two_digits(time.minute),
            b":",
            &two_digits(time.second),
            b" ",
            &two_digits((year / 100) as u8),
            &two_digits((year % 100) as u8),
        ],
    )
}
