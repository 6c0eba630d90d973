// The lines of a sys file and their words.
ghost use Rattle.std.specs.Prelude.{◌≡◌, ◌+◌, ◌<◌, ◌≤◌, ℕ, [], ◌∷◌, length, ◌≢◌, ◌&&◌, drop, slice_index, nat_lt, option_map, MatchOption, IfOk};
ghost use Rattle.std.specs.Option.{option_copied};
ghost use Rattle.std.specs.List.{position_or_len};
ghost use Rattle.std.specs.Str.{byte};
ghost use Rattle.std.specs.Str.Lines.{lines};
ghost use Rattle.uu_times.specs.Lines.{is_continued, kept_part, joined, uncommented, words_of, one_word, one_or_two};
ghost use Rattle.uu_names.specs.Text.{is_blank, most_text};

use std::alloc::{AllocError, Global};
use uu_names::text::{blanks_len, first_line, is_blank};

// Whether the line is joined with the next.
fn is_continued(line: &[u8]) -> bool
    ensures { result ≡ is_continued line.now }
{
    !line.is_empty() && line[line.len() - 1] == b'\\'
}

/// A joined line, the number of lines joined, and the text after it.
#[derive(Drop)]
pub struct Joined<'a> {
    pub line: Vec<u8>,
    pub count: u32,
    pub rest: &'a [u8],
}

// Whether the line is joined with the text after it.
fn is_joined(line: &[u8], rest: &[u8]) -> bool
    ensures { result ≡ (is_continued line.now && nat_lt 0 (length rest.now)) }
{
    is_continued(line) && !rest.is_empty()
}

// The line without the backslash that joins it.
fn kept_part(line: &[u8]) -> &[u8]
    ensures { result.now ≡ kept_part line.now }
{
    if is_continued(line) {
        &line[..line.len() - 1]
    } else {
        line
    }
}

/// The first joined line of a text.
pub fn joined_line(alloc: Global, text: &[u8]) -> Result<Joined<'_>, AllocError>
    requires some { 0 < length text.now }
    requires short { length text.now ≤ most_text }
    ensures line { IfOk result (λ first. (number : ℕ) → joined number (lines text.now)
        ≡ record { number = number; line = first.line.items } ∷ joined (number + first.count) (lines first.rest.now)) }
    ensures shorter { IfOk result (λ first. first.count + length first.rest.now ≤ length text.now) }
    ensures some_line { IfOk result (λ first. 0 < first.count) }
{
    let mut line = Vec::new(alloc);
    let mut before = 0;
    let (mut next, mut rest) = first_line(text);
    while is_joined(next, rest) {
        line.extend_from_slice(kept_part(next))?;
        let (following, behind) = first_line(rest);
        next = following;
        rest = behind;
        before += 1;
    }
    line.extend_from_slice(kept_part(next))?;
    Ok(Joined {
        line,
        count: before + 1,
        rest,
    })
}

// The offset of the next byte that is kept: a backslash directly before a `#` is dropped.
fn kept_at(line: &[u8], at: usize) -> usize
    requires { at < length line.now }
    ensures low { at ≤ result }
    ensures high { result < length line.now }
    ensures kept { slice_index line.now at ≢ byte "#"
        → uncommented (drop at line.now) ≡ slice_index line.now result ∷ uncommented (drop (result + 1) line.now) }
{
    if line[at] == b'\\' && at + 1 < line.len() && line[at + 1] == b'#' {
        at + 1
    } else {
        at
    }
}

/// The line without its comment.
pub fn uncommented(alloc: Global, line: &[u8]) -> Result<Vec<u8>, AllocError>
    ensures { IfOk result (λ clean. clean.items ≡ uncommented line.now) }
{
    let mut clean = Vec::new(alloc);
    let mut at = 0;
    while at < line.len() {
        if line[at] == b'#' {
            return Ok(clean);
        }
        let kept = kept_at(line, at);
        clean.push(line[kept])?;
        at = kept + 1;
    }
    Ok(clean)
}

// How many bytes come before the first blank.
fn letters_len(text: &[u8]) -> usize
    ensures value { result ≡ position_or_len is_blank text.now }
    ensures bound { result ≤ length text.now }
{
    text.iter().take_while(|letter| !is_blank(**letter)).count()
}

/// The first word of a text, and the text after it.
pub fn next_word(text: &[u8]) -> Option<(&[u8], &[u8])>
    ensures { MatchOption result (words_of text.now ≡ [])
        (λ found. words_of text.now ≡ found.0.now ∷ words_of found.1.now) }
{
    let start = blanks_len(text);
    if start == text.len() {
        return None;
    }
    let (_, word) = text.split_at(start);
    Some(word.split_at(letters_len(word)))
}

/// The word of a text that has exactly one.
pub fn one_word(text: &[u8]) -> Option<&[u8]>
    ensures { option_copied result ≡ one_word (words_of text.now) }
{
    let (word, rest) = next_word(text)?;
    match next_word(rest) {
        None => Some(word),
        Some(_) => None,
    }
}

/// The words of a text that has one or two.
pub fn one_or_two(text: &[u8]) -> Option<(&[u8], Option<&[u8]>)>
    ensures { option_map (λ words. (words.0.now, option_copied words.1)) result ≡ one_or_two (words_of text.now) }
{
    let (word, rest) = next_word(text)?;
    match next_word(rest) {
        None => Some((word, None)),
        Some((second, behind)) => match next_word(behind) {
            None => Some((word, Some(second))),
            Some(_) => None,
        },
    }
}
