// Lines of words: written, and cut into their words again.
ghost use Rattle.std.specs.Prelude.{◌≡◌, ◌++◌, ◌∷◌, ◌==◌, IfOk, IsTrue, MatchOption, OnOk, map, option_map, string_bytes};
ghost use Rattle.std.specs.List.{slice_split};
ghost use Rattle.std.specs.Fmt.{decimal};
ghost use Rattle.uu_bundle.specs.Texts.{kind_words, spaced_words};
ghost use Rattle.uu_bundle.specs.Internal.Forms.{HasFirstWords, has_no_end};

use std::alloc::{AllocError, Global};
use uu_core::Kind;
use uu_names::Word;
use uu_names::text::len_before;

// The number in decimal.
pub(crate) fn number_text(alloc: Global, number: u64) -> Result<String, AllocError>
    ensures { IfOk result (λ text. string_bytes text ≡ decimal number) }
{
    format!(in alloc; "{number}")
}

// Appends the word after a space.
pub(crate) fn append_word(text: &mut Vec<u8>, word: &[u8]) -> Result<(), AllocError>
    ensures { OnOk result (text.new.items ≡ text.old.items ++ 32 ∷ word.now) }
{
    text.push(b' ')?;
    text.extend_from_slice(word)?;
    Ok(())
}

// Appends the words, each after a space.
pub(crate) fn append_words(text: &mut Vec<u8>, words: &[&[u8]]) -> Result<(), AllocError>
    ensures { OnOk result (text.new.items ≡ text.old.items ++ spaced_words (map (λ word. word.now) words.now)) }
{
    for word in words {
        append_word(text, word)?;
    }
    Ok(())
}

fn append_arguments(text: &mut Vec<u8>, words: &[Word]) -> Result<(), AllocError>
    ensures { OnOk result (text.new.items ≡ text.old.items ++ spaced_words words.now) }
{
    for word in words {
        append_word(text, word.as_str().as_bytes())?;
    }
    Ok(())
}

// Appends what a job is for.
pub(crate) fn append_kind(text: &mut Vec<u8>, kind: &Kind) -> Result<(), AllocError>
    ensures { OnOk result (text.new.items ≡ text.old.items ++ spaced_words (kind_words kind.now)) }
{
    match kind {
        Kind::Send { source, target } => {
            append_words(
                text,
                &[
                    b"send",
                    source.as_str().as_bytes(),
                    target.as_str().as_bytes(),
                ],
            )
        }
        Kind::Request { source, target } => {
            append_words(
                text,
                &[
                    b"request",
                    source.as_str().as_bytes(),
                    target.as_str().as_bytes(),
                ],
            )
        }
        Kind::Execute { command, arguments } => {
            append_words(text, &[b"exec", command.as_str().as_bytes()])?;
            append_arguments(text, arguments.as_slice())
        }
    }
}

// The first line of a text without its end, and the text after it; `None` if no line ends.
fn first_line(text: &[u8]) -> Option<(&[u8], &[u8])>
    ensures { MatchOption result (IsTrue (has_no_end text.now))
        (λ cut. (text.now ≡ cut.0.now ++ 10 ∷ cut.1.now) × IsTrue (has_no_end cut.0.now)) }
{
    let (line, rest) = text.split_at(len_before(text, b'\n'));
    match rest {
        [] => None,
        [_, rest @ ..] => Some((line, rest)),
    }
}

// The parts of a text between its spaces.
fn parts_of<'a>(alloc: Global, text: &'a str) -> Result<Vec<&'a str>, AllocError>
    ensures { IfOk result (λ parts. map (λ part. part.now) parts.items ≡ slice_split (λ byte. byte == 32) text.now) }
{
    text.split(' ').collect(alloc)
}

// The words of the first line of a text, and the text after it; `None` if no line ends, or the line
// isn't UTF-8.
pub(crate) fn first_words<'a>(
    alloc: Global,
    text: &'a [u8],
) -> Result<Option<(Vec<&'a str>, &'a [u8])>, AllocError>
    ensures { IfOk result (λ cut. HasFirstWords text.now (option_map (λ cut. (map (λ word. word.now) cut.0.items, cut.1.now)) cut)) }
{
    let Some((line, rest)) = first_line(text) else {
        return Ok(None);
    };
    let Ok(line) = str::from_utf8(line) else {
        return Ok(None);
    };
    let words = parts_of(alloc, line)?;
    Ok(Some((words, rest)))
}
