//! Texts from outside: what sys files, map texts and messages have in common.
ghost use Rattle.std.specs.Prelude.{◌≡◌, ◌<◌, ◌≤◌, ◌∷◌, ◌==◌, IsAscii, IfOk, length, string_bytes};
ghost use Rattle.std.specs.List.{after_first, position_or_len, prefix_len};
ghost use Rattle.std.specs.Str.Lines.{lines, strip_carriage_return};
ghost use Rattle.uu_names.specs.Text.{is_blank, line_feed};

use std::alloc::{AllocError, Global};

/// The most bytes of a sys file or a map text, which are read whole before they are used (this
/// project's choice).
pub const MAX_TEXT: usize = 4_194_304;

/// Whether the byte is a blank: a space or a tab.
pub fn is_blank(byte: u8) -> bool
    ensures { result ≡ is_blank byte }
{
    byte == b' ' || byte == b'\t'
}

/// How many blanks the text begins with.
pub fn blanks_len(text: &[u8]) -> usize
    ensures value { result ≡ prefix_len is_blank text.now }
    ensures bound { result ≤ length text.now }
{
    text.iter().take_while(|byte| is_blank(**byte)).count()
}

/// How many bytes come before the first byte of this value, or all of them if there is no such
/// byte.
pub fn len_before(text: &[u8], end: u8) -> usize
    ensures value { result ≡ position_or_len (λ byte. byte == end) text.now }
    ensures bound { result ≤ length text.now }
{
    text.iter().take_while(|byte| **byte != end).count()
}

/// The line without the carriage return at its end, if it has one.
pub(crate) fn strip_carriage_return(line: &[u8]) -> &[u8]
    ensures value { result.now ≡ strip_carriage_return line.now }
    ensures bound { length result.now ≤ length line.now }
{
    match line {
        [front @ .., b'\r'] => front,
        _ => line,
    }
}

/// The first line of a text of one byte or more, and the text after it. A line ends with a line
/// feed, perhaps after a carriage return, or at the end of the text.
pub fn first_line(text: &[u8]) -> (&[u8], &[u8])
    requires { 0 < length text.now }
    ensures lines { lines text.now ≡ result.0.now ∷ lines result.1.now }
    ensures rest { result.1.now ≡ after_first (λ byte. byte == line_feed) text.now }
    ensures shorter { length result.1.now < length text.now }
{
    let (line, rest) = text.split_at(len_before(text, b'\n'));
    match rest {
        [] => (line, rest),
        [_, rest @ ..] => (strip_carriage_return(line), rest),
    }
}

/// The bytes as a text; site names, words and paths are ASCII.
pub(crate) fn ascii_text(alloc: Global, bytes: &[u8]) -> Result<String, AllocError>
    requires { IsAscii bytes.now }
    ensures { IfOk result (λ text. string_bytes text ≡ bytes.now) }
{
    match str::from_utf8(bytes) {
        Ok(text) => String::from_str(alloc, text),
        Err(_) => unreachable!(),
    }
}
