//! Which text of a line isn't valid. `line_of` gives the fault alone, so a message looks the text up
//! again, by the same readers.

ghost use Rattle.std.specs.Prelude.{◌≡◌, ◌∷◌, [], Err, IfSome, true};
ghost use Rattle.std.specs.String.{string_bytes};
ghost use Rattle.uu_line.specs.declared.fault.LineFault.TheVariants.{Name};
ghost use Rattle.uu_line.specs.Misread.{IsMisread};

use crate::fault::LineFault;
use crate::line::entries_of;
use crate::origin::{origin_of, parts_of};
use crate::values::{grade_of, path_of, site_of, word_of};
use clap::ArgMatches;
use std::alloc::Global;
use uu_names::NameFault;

/// What a text of a line has to be.
#[derive(Clone, Copy, Debug, PartialEq, Eq)]
pub enum Wanted {
    /// The name of a system.
    System,
    /// A word.
    Word,
    /// A grade.
    Grade,
    /// An address of a message, which is a bang path.
    Address,
    /// `SYSTEM!NUMBER[!WORD]`.
    Origin,
}

/// A text of a line that isn't what it has to be.
#[derive(Drop)]
pub struct Misread {
    /// What it has to be.
    pub wanted: Wanted,
    /// The text. Of `--once` this is SYSTEM or WORD alone, if that has the fault.
    pub text: String,
}

/// The texts of most subcommands, in the order in which they are read.
const USUAL: [(&str, Wanted); 10] = [
    ("sender", Wanted::System),
    ("system", Wanted::System),
    ("host", Wanted::System),
    ("from", Wanted::Word),
    ("to", Wanted::Word),
    ("grade", Wanted::Grade),
    ("once", Wanted::Origin),
    ("user", Wanted::Word),
    ("why", Wanted::Word),
    ("spool", Wanted::Word),
];

/// The texts of `exec` and `mail`, in the order in which they are read.
const OPTIONS_FIRST: [(&str, Wanted); 6] = [
    ("grade", Wanted::Grade),
    ("once", Wanted::Origin),
    ("system", Wanted::System),
    ("command", Wanted::Word),
    ("argument", Wanted::Word),
    ("address", Wanted::Address),
];

/// The first text of a line that has this fault, in the order in which `line_of` reads them. `None`
/// if every text is valid or has another fault, `clap` refuses the words, or memory runs out.
pub fn misread_in(alloc: Global, words: &[String], fault: NameFault) -> Option<Misread>
    ensures { IfSome result (λ it. IsMisread it.wanted (string_bytes it.text) fault) }
{
    let Ok(given) = entries_of(alloc, words) else {
        return None;
    };
    if let Some(user) = misread_at(alloc, &given, &("as", Wanted::Word), fault) {
        return Some(user);
    }
    match given.subcommand() {
        Some((name, given)) => misread_among(alloc, given, entries_in_order(name), fault),
        None => None,
    }
}

// The entries of a subcommand, in the order in which they are read.
fn entries_in_order(subcommand: &str) -> &'static [(&'static str, Wanted)] {
    match subcommand {
        "exec" | "mail" => &OPTIONS_FIRST,
        _ => &USUAL,
    }
}

// The first text of these entries that has the fault.
fn misread_among(
    alloc: Global,
    given: &ArgMatches<'_>,
    entries: &[(&str, Wanted)],
    fault: NameFault,
) -> Option<Misread>
    ensures { IfSome result (λ it. IsMisread it.wanted (string_bytes it.text) fault) }
{
    for entry in entries {
        if let Some(misread) = misread_at(alloc, given, entry, fault) {
            return Some(misread);
        }
    }
    None
}

// The first text of an entry that has the fault.
fn misread_at(
    alloc: Global,
    given: &ArgMatches<'_>,
    entry: &(&str, Wanted),
    fault: NameFault,
) -> Option<Misread>
    ensures { IfSome result (λ it. IsMisread it.wanted (string_bytes it.text) fault) }
{
    let Some(texts) = given.get_strs(entry.0) else {
        return None;
    };
    for text in texts {
        if let Some(misread) = misread_as(alloc, entry.1, text, fault) {
            return Some(misread);
        }
    }
    None
}

// The text, or the part of it, that has the fault.
fn misread_as(alloc: Global, wanted: Wanted, text: &str, fault: NameFault) -> Option<Misread>
    ensures { IfSome result (λ it. IsMisread it.wanted (string_bytes it.text) fault) }
{
    if wanted != Wanted::Origin {
        return if_misread(alloc, wanted, text, fault);
    }
    let (system, _, word) = parts_of(text);
    if let Some(misread) = if_misread(alloc, Wanted::System, system, fault) {
        return Some(misread);
    }
    if let Some(word) = word {
        if let Some(misread) = if_misread(alloc, Wanted::Word, word, fault) {
            return Some(misread);
        }
    }
    if_misread(alloc, Wanted::Origin, text, fault)
}

// The text, if it has the fault.
fn if_misread(alloc: Global, wanted: Wanted, text: &str, fault: NameFault) -> Option<Misread>
    ensures { IfSome result (λ it. IsMisread it.wanted (string_bytes it.text) fault) }
{
    if !has_fault(alloc, wanted, text, fault) {
        return None;
    }
    match String::from_str(alloc, text) {
        Ok(text) => Some(Misread { wanted, text }),
        Err(_) => None,
    }
}

// Whether the text has the fault, if it has to be this. False if memory runs out.
fn has_fault(alloc: Global, wanted: Wanted, text: &str, fault: NameFault) -> bool
    ensures { result ≡ true → IsMisread wanted text.now fault }
{
    match wanted {
        Wanted::System => is_fault(site_of(alloc, text), fault),
        Wanted::Word => is_fault(word_of(alloc, text), fault),
        Wanted::Grade => is_fault(grade_of(text), fault),
        Wanted::Address => is_fault(path_of(alloc, text), fault),
        Wanted::Origin => is_fault(origin_of(alloc, text), fault),
    }
}

// Whether a reading ended with this fault of a name.
fn is_fault<T: Drop>(read: Result<T, LineFault>, fault: NameFault) -> bool
    ensures { result ≡ true → read ≡ Err (Name fault) }
{
    match read {
        Err(LineFault::Name(found)) => found == fault,
        _ => false,
    }
}
