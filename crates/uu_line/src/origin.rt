//! Which job of a neighbour a line hands in.

ghost use Rattle.std.specs.Prelude.{◌≡◌, option_map, ok_or};
ghost use Rattle.uu_names.specs.Path.{first_hop, rest_of};
ghost use Rattle.uu_names.specs.declared.fault.NameFault.TheVariants.{BadPath};
ghost use Rattle.uu_line.specs.Lines.{AnswersUnlessMemory, after_bang, named};
ghost use Rattle.uu_line.specs.Lines as spec;

use crate::fault::LineFault;
use crate::values::{optional_word, site_of};
use std::alloc::Global;
use uu_names::{NameFault, SiteName, Word};

/// Which job of a neighbour a line hands in.
#[derive(Drop)]
pub struct Origin {
    /// The neighbour, as it is known here.
    pub from: SiteName,
    /// The number that the job has there.
    pub number: u32,
    /// Which of the neighbour's spools the number is of, if that is said.
    pub spool: Option<Word>,
}

/// The greatest number that a job may have.
const LAST_NUMBER: u32 = 4_294_967_294;

/// The text as `SYSTEM!NUMBER` or `SYSTEM!NUMBER!WORD`.
#[tactic(auto, using(crate::proofs::LineLemmas::answers_then))]
pub(crate) fn origin_of(alloc: Global, text: &str) -> Result<Origin, LineFault>
    ensures { AnswersUnlessMemory result (spec.origin_of text.now) }
{
    let (site, number, word) = parts_of(text);
    let from = site_of(alloc, site)?;
    let number = number_of(number, site.len())?;
    let spool = optional_word(alloc, word)?;
    Ok(Origin {
        from,
        number,
        spool,
    })
}

/// The parts of a text before its first `!`, between that and its second, and after the second, if
/// it has one.
pub(crate) fn parts_of(text: &str) -> (&str, &str, Option<&str>)
    ensures site { result.0.now ≡ first_hop text.now }
    ensures number { result.1.now ≡ first_hop (rest_of text.now) }
    ensures word { option_map (λ word. word.now) result.2 ≡ after_bang (rest_of text.now) }
{
    let (site, rest) = halves(text);
    match rest.split_once('!') {
        Some((number, word)) => (site, number, Some(word)),
        None => (site, rest, None),
    }
}

// The parts of a text before and after its first `!`. If it has none, the second is empty.
fn halves(text: &str) -> (&str, &str)
    ensures site { result.0.now ≡ first_hop text.now }
    ensures rest { result.1.now ≡ rest_of text.now }
{
    match text.split_once('!') {
        Some(halves) => halves,
        None => (text, ""),
    }
}

// The number that a neighbour has for a job, or the fault that none comes after so many bytes.
fn number_of(text: &str, at: usize) -> Result<u32, LineFault>
    ensures { result ≡ named (ok_or (spec.handed_number text.now) (BadPath at)) }
{
    match handed_number(text) {
        Some(number) => Ok(number),
        None => Err(LineFault::Name(NameFault::BadPath(at))),
    }
}

// The number that a neighbour has for a job.
fn handed_number(text: &str) -> Option<u32>
    ensures { result ≡ spec.handed_number text.now }
{
    if text.starts_with('+') {
        return None;
    }
    match text.parse::<u32>() {
        Ok(number) if 1 <= number && number <= LAST_NUMBER => Some(number),
        _ => None,
    }
}
