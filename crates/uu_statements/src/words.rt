// What a job is for, as its row has it.
ghost use Rattle.std.specs.Prelude.{◌≡◌, IfOk, string_bytes};
ghost use Rattle.std.specs.List.{join_with_byte};
ghost use Rattle.uu_names.specs.Text.{space};
ghost use Rattle.uu_statements.specs.Words.{AreArguments, AreKindColumns};

use std::alloc::{AllocError, Global};
use uu_core::Kind;
use uu_names::Word;
use uu_tables::{EXECUTE, REQUEST, SEND};

/// The columns of a job that say what it is for.
#[derive(Drop)]
pub(crate) struct KindColumns<'a> {
    pub(crate) kind: u32,
    pub(crate) first_word: &'a str,
    pub(crate) second_word: &'a str,
}

// The words with one space between two.
fn joined(alloc: Global, words: &[Word]) -> Result<String, AllocError>
    ensures text { IfOk result (λ text. string_bytes text ≡ join_with_byte space words.now) }
{
    let mut text = String::new(alloc);
    for (at, word) in words.iter().enumerate() {
        if at > 0 {
            text.push(' ')?;
        }
        text.push_str(word.as_str())?;
    }
    Ok(text)
}

/// The arguments of an execution as one text. The other kinds have no arguments, so their text is
/// empty.
pub(crate) fn arguments_of(alloc: Global, kind: &Kind) -> Result<String, AllocError>
    ensures arguments { IfOk result (λ text. AreArguments kind.now (string_bytes text)) }
{
    match kind {
        Kind::Execute { arguments, .. } => joined(alloc, arguments.as_slice()),
        Kind::Send { .. } | Kind::Request { .. } => Ok(String::new(alloc)),
    }
}

/// The columns of this kind of job, with this text as its arguments.
pub(crate) fn kind_columns<'a>(kind: &'a Kind, arguments: &'a str) -> KindColumns<'a>
    requires arguments { AreArguments kind.now arguments.now }
    ensures columns { AreKindColumns kind.now result }
{
    match kind {
        Kind::Send { source, target } => KindColumns {
            kind: SEND,
            first_word: source.as_str(),
            second_word: target.as_str(),
        },
        Kind::Request { source, target } => KindColumns {
            kind: REQUEST,
            first_word: source.as_str(),
            second_word: target.as_str(),
        },
        Kind::Execute { command, .. } => KindColumns {
            kind: EXECUTE,
            first_word: command.as_str(),
            second_word: arguments,
        },
    }
}
