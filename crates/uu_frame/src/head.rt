//! What the line of a request says.
ghost use Rattle.std.specs.Prelude.{◌≡◌, ◌≢◌, ◌<◌, ◌≤◌, ◌^◌, ◌==◌, ℕ, All, IfOk, MatchOption, length, map, string_bytes};
ghost use Rattle.std.specs.List.{slice_split};
ghost use Rattle.std.specs.Fmt.{decimal};
ghost use Rattle.uu_frame.specs.Frames.{IsHead, IsNoHead, head_line, most_line};

use std::alloc::{AllocError, Global};

// What the line of a request says.
#[derive(Drop)]
pub(crate) struct Head {
    // The number of bytes of the input.
    pub(crate) count: u32,
    // The words.
    pub(crate) words: Vec<String>,
}

// What the line says, or `None` if it isn't the line of a request.
pub(crate) fn head_of(alloc: Global, line: &[u8]) -> Result<Option<Head>, AllocError>
    requires bare { All (λ byte. byte ≢ 10) line.now }
    requires short { length line.now ≤ most_line }
    ensures { IfOk result (λ head. MatchOption head (IsNoHead line.now)
        (λ head. let words = map string_bytes head.words.items in (line.now ≡ head_line head.count words) × IsHead head.count words)) }
{
    let Ok(text) = str::from_utf8(line) else {
        return Ok(None);
    };
    let parts = parts_of(alloc, text)?;
    let Some((numeral, words)) = parts.split_first() else {
        return Ok(None);
    };
    let Some(count) = count_of(alloc, numeral)? else {
        return Ok(None);
    };
    let words = copies_of(alloc, words)?;
    Ok(Some(Head { count, words }))
}

// The parts of a text between its spaces.
fn parts_of<'a>(alloc: Global, text: &'a str) -> Result<Vec<&'a str>, AllocError>
    ensures { IfOk result (λ parts. map (λ part. part.now) parts.items ≡ slice_split (λ byte. byte == 32) text.now) }
{
    text.split(' ').collect(alloc)
}

// The number of a decimal numeral without a sign and without leading zeros, or `None`.
fn count_of(alloc: Global, numeral: &str) -> Result<Option<u32>, AllocError>
    ensures { IfOk result (λ count. MatchOption count ((n : ℕ) → n < 2 ^ 32 → numeral.now ≢ decimal n)
        (λ count. (numeral.now ≡ decimal count) × (count < 2 ^ 32))) }
{
    let Ok(count) = numeral.parse::<u32>() else {
        return Ok(None);
    };
    let written = format!(in alloc; "{count}")?;
    if written.as_str() == numeral {
        Ok(Some(count))
    } else {
        Ok(None)
    }
}

fn copies_of(alloc: Global, texts: &[&str]) -> Result<Vec<String>, AllocError>
    ensures { IfOk result (λ copies. map string_bytes copies.items ≡ map (λ text. text.now) texts.now) }
{
    let mut copies = Vec::new(alloc);
    for text in texts {
        copies.push(String::from_str(alloc, text)?)?;
    }
    Ok(copies)
}
