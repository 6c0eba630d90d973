//! What is said of a text of the line that isn't valid: the text, and the place of its first fault.

use crate::trouble::Trouble;
use std::fmt;
use uu_line::{Misread, Wanted, misread_in};
use uu_names::NameFault;
use uuspool::Fault;

/// Why these words aren't a line, with the text that isn't valid.
pub(crate) fn line_trouble(rt: &HostRuntime, words: &[String], fault: Fault) -> Trouble {
    let Fault::Name(name) = fault else {
        return Trouble::Line(fault);
    };
    match misread_in(rt.alloc(), words, name) {
        Some(misread) => Trouble::Name {
            fault: name,
            misread,
        },
        None => Trouble::Line(Fault::Name(name)),
    }
}

/// Writes the fault of a name, the text that has it, and where.
pub(crate) fn write_misread<W: fmt::Write>(
    fault: NameFault,
    misread: &Misread,
    f: &mut fmt::Formatter<W>,
) -> fmt::Result {
    let whole = Fault::Name(fault);
    write!(f, "uuspool: {whole}: ")?;
    let text = misread.text.as_bytes();
    let quoted = Quoted(text);
    match place_of(fault) {
        Some(_) if misread.wanted == Wanted::Origin => {
            write!(f, "{quoted} has no job number after its system\n")
        }
        Some(at) if at < text.len() => {
            let place = at.saturating_add(1);
            write!(f, "byte {place} of {quoted} isn't allowed\n")
        }
        Some(0) => write!(f, "{quoted} is empty\n"),
        Some(_) => write!(f, "{quoted} ends too early\n"),
        None if fault == NameFault::BadGrade => write!(f, "{quoted} isn't a digit or a letter\n"),
        None => write!(f, "{quoted} is too long\n"),
    }
}

// The offset of the first byte that isn't allowed, if the fault has one.
fn place_of(fault: NameFault) -> Option<usize> {
    match fault {
        NameFault::BadName(at) | NameFault::BadPath(at) | NameFault::BadWord(at) => Some(at),
        NameFault::BadGrade | NameFault::NoEnvelope | NameFault::TooLong | NameFault::Memory =>
            None,
    }
}

/// How many bytes of a text are shown at most.
const SHOWN: usize = 200;

/// A text between quotation marks. What isn't printable ASCII is written as `\xHH`, byte by byte, so
/// that it can neither begin a line nor steer a terminal. The rest of a long text is left out.
#[derive(Clone, Copy)]
struct Quoted<'a>(&'a [u8]);

impl fmt::Display for Quoted<'_> {
    fn fmt<W: fmt::Write>(&self, f: &mut fmt::Formatter<W>) -> fmt::Result {
        f.write_str("\"")?;
        for byte in self.0.iter().take(SHOWN) {
            write_byte(*byte, f)?;
        }
        if self.0.len() > SHOWN {
            f.write_str("\"...")
        } else {
            f.write_str("\"")
        }
    }
}

fn write_byte<W: fmt::Write>(byte: u8, f: &mut fmt::Formatter<W>) -> fmt::Result {
    match byte {
        b'"' => f.write_str("\\\""),
        b'\\' => f.write_str("\\\\"),
        b' '..=b'~' => f.write_char(char::from(byte)),
        _ => write!(f, "\\x{byte:02x}"),
    }
}
