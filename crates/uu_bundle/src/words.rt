// The words of a line, and the value of each.
ghost use Rattle.std.specs.Prelude.{◌<◌, ◌≤◌, ◌^◌, ⊤, All, IfOk, IsTrue, map, option_map};
ghost use Rattle.std.specs.Fmt.{decimal};
ghost use Rattle.uu_names.specs.Grade.{grade_count};
ghost use Rattle.uu_names.specs.Name.{is_site_name, is_word};
ghost use Rattle.uu_core.specs.Marks.{marks_end};
ghost use Rattle.uu_core.specs.Refusal.{refusal_name};
ghost use Rattle.uu_core.specs.State.{IsKind};
ghost use Rattle.uu_bundle.specs.Texts.{grade_text, kind_words};
ghost use Rattle.uu_bundle.specs.Internal.Forms.{AreFiles, IsExecution, IsReadAs, execution_words, file_words};

use std::alloc::{AllocError, Global};
use uu_core::limits::MAX_ARGUMENTS;
use uu_core::{Kind, Mark, Refusal};
use uu_names::{Grade, Listed, NameFault, SiteName, Word};

// A number below 2^64 in decimal, without a sign and without leading zeros.
fn number_in(alloc: Global, numeral: &str) -> Result<Option<u64>, AllocError>
    ensures { IfOk result (IsReadAs (λ n. n < 2 ^ 64) decimal numeral.now) }
{
    let Ok(number) = numeral.parse::<u64>() else {
        return Ok(None);
    };
    let written = format!(in alloc; "{number}")?;
    if written.as_str() == numeral {
        Ok(Some(number))
    } else {
        Ok(None)
    }
}

// A number below 2^32.
pub(crate) fn count_in(alloc: Global, numeral: &str) -> Result<Option<u32>, AllocError>
    ensures { IfOk result (IsReadAs (λ n. n < 2 ^ 32) decimal numeral.now) }
{
    match number_in(alloc, numeral)? {
        Some(number) => Ok(u32::try_from(number).ok()),
        None => Ok(None),
    }
}

// A number within these bounds.
pub(crate) fn bounded_in(
    alloc: Global,
    numeral: &str,
    least: u32,
    most: u32,
) -> Result<Option<u32>, AllocError>
    ensures { IfOk result (IsReadAs (λ n. (least ≤ n) × (n ≤ most)) decimal numeral.now) }
{
    let Some(number) = count_in(alloc, numeral)? else {
        return Ok(None);
    };
    if number < least || most < number {
        return Ok(None);
    }
    Ok(Some(number))
}

pub(crate) fn mark_in(alloc: Global, numeral: &str) -> Result<Option<Mark>, AllocError>
    ensures { IfOk result (IsReadAs (λ n. n < marks_end) decimal numeral.now) }
{
    match number_in(alloc, numeral)? {
        Some(number) => Ok(Mark::of_number(number)),
        None => Ok(None),
    }
}

// The name of a site.
pub(crate) fn site_in(alloc: Global, text: &str) -> Result<Option<SiteName>, AllocError>
    ensures { IfOk result (IsReadAs (λ name. IsTrue (is_site_name name)) (λ name. name) text.now) }
{
    match SiteName::parse(alloc, text) {
        Ok(name) => Ok(Some(name)),
        Err(NameFault::Memory) => Err(AllocError),
        Err(_) => Ok(None),
    }
}

pub(crate) fn word_in(alloc: Global, text: &str) -> Result<Option<Word>, AllocError>
    ensures { IfOk result (IsReadAs (λ word. IsTrue (is_word word)) (λ word. word) text.now) }
{
    match Word::parse(alloc, text) {
        Ok(word) => Ok(Some(word)),
        Err(NameFault::Memory) => Err(AllocError),
        Err(_) => Ok(None),
    }
}

pub(crate) fn grade_in(text: &str) -> Option<Grade>
    ensures { IsReadAs (λ grade. grade < grade_count) grade_text text.now result }
{
    let bytes = text.as_bytes();
    if bytes.len() == 1 {
        Grade::parse(bytes[0]).ok()
    } else {
        None
    }
}

// Why a job isn't taken.
pub(crate) fn refusal_in(text: &str) -> Option<Refusal>
    ensures { IsReadAs (λ _. ⊤) refusal_name text.now result }
{
    match text {
        "NoSystem" => Some(Refusal::NoSystem),
        "NoJob" => Some(Refusal::NoJob),
        "NotYours" => Some(Refusal::NotYours),
        "JobTwice" => Some(Refusal::JobTwice),
        "OtherSystem" => Some(Refusal::OtherSystem),
        "Busy" => Some(Refusal::Busy),
        "TooLarge" => Some(Refusal::TooLarge),
        "NumbersOut" => Some(Refusal::NumbersOut),
        "BadEntry" => Some(Refusal::BadEntry),
        "Stale" => Some(Refusal::Stale),
        "Differs" => Some(Refusal::Differs),
        _ => None,
    }
}

// Words, or `None` if one of the texts isn't a word.
fn words_in(alloc: Global, texts: &[&str]) -> Result<Option<Vec<Word>>, AllocError>
    ensures { IfOk result (λ words. IsReadAs (All (λ word. IsTrue (is_word word))) (λ words. words) (map (λ text. text.now) texts.now) (option_map (λ words. words.items) words)) }
{
    let mut words = Vec::new(alloc);
    for text in texts {
        let Some(word) = word_in(alloc, text)? else {
            return Ok(None);
        };
        words.push(word)?;
    }
    Ok(Some(words))
}

// The two words of a file.
fn files_in(alloc: Global, words: &[&str]) -> Result<Option<(Word, Word)>, AllocError>
    ensures { IfOk result (IsReadAs AreFiles file_words (map (λ word. word.now) words.now)) }
{
    let [source, target] = words else {
        return Ok(None);
    };
    let Some(source) = word_in(alloc, source)? else {
        return Ok(None);
    };
    match word_in(alloc, target)? {
        Some(target) => Ok(Some((source, target))),
        None => Ok(None),
    }
}

// A command and its arguments.
fn execution_in(alloc: Global, words: &[&str]) -> Result<Option<(Word, Listed<Word>)>, AllocError>
    ensures { IfOk result (IsReadAs IsExecution execution_words (map (λ word. word.now) words.now)) }
{
    let Some((command, arguments)) = words.split_first() else {
        return Ok(None);
    };
    if arguments.len() > MAX_ARGUMENTS {
        return Ok(None);
    }
    let Some(command) = word_in(alloc, command)? else {
        return Ok(None);
    };
    match words_in(alloc, arguments)? {
        Some(arguments) => Ok(Some((command, Listed::from_vec(arguments)))),
        None => Ok(None),
    }
}

// What a job is for.
pub(crate) fn kind_in(alloc: Global, words: &[&str]) -> Result<Option<Kind>, AllocError>
    ensures { IfOk result (IsReadAs IsKind kind_words (map (λ word. word.now) words.now)) }
{
    let Some((name, words)) = words.split_first() else {
        return Ok(None);
    };
    match *name {
        "send" => match files_in(alloc, words)? {
            Some((source, target)) => Ok(Some(Kind::Send { source, target })),
            None => Ok(None),
        },
        "request" => match files_in(alloc, words)? {
            Some((source, target)) => Ok(Some(Kind::Request { source, target })),
            None => Ok(None),
        },
        "exec" => match execution_in(alloc, words)? {
            Some((command, arguments)) => Ok(Some(Kind::Execute { command, arguments })),
            None => Ok(None),
        },
        _ => Ok(None),
    }
}
