//! From words to a line of typed values.

ghost use Rattle.std.specs.Prelude.{◌≡◌, ◌≢◌, IfOk, IfErr, map};
ghost use Rattle.std.specs.String.{string_bytes};
ghost use Rattle.clap.specs.Words.{IsAmong, rows_of, found_of, kind_of, fault_of, subcommand_rows_of};
ghost use Rattle.uu_line.specs.Commands.{program};
ghost use Rattle.uu_line.specs.Internal.Entries.{AreLineEntries, HasSubcommand};
ghost use Rattle.uu_line.specs.Lines.{HasEntriesOf, UnlessMemory, IsAnswerTo, IsWordsOf};
ghost use Rattle.uu_line.specs.Lines as spec;

use crate::commands::program_command;
use crate::entered::task_in;
use crate::fault::LineFault;
use crate::task::Task;
use crate::values::{config_in, second_in, text_in, word_of};
use clap::ArgMatches;
use clap::error::ErrorKind;
use std::alloc::Global;
use uu_names::Word;

/// One line of the program.
#[derive(Drop)]
pub struct CommandLine {
    /// The path of the settings file of `-c`, if it is given.
    pub config: Option<String>,
    /// The second of `--at`, UTC, if it is given.
    pub at: Option<u64>,
    /// The user of `--as`, `uucp` if it is not given.
    pub user: Word,
    /// What is to be done.
    pub task: Task,
}

/// The line that the words after the program's name mean.
///
/// # Errors
/// `Words` exactly if `clap` refuses the words, with `help` if they ask for help. `Name` with the
/// first fault of the user, and then of the arguments and options in the order of the subcommand's
/// usage (`Task`). `TwoSystems` if the addresses of a message begin with different systems. Else
/// `Memory`.
pub fn line_of(alloc: Global, words: &[String]) -> Result<CommandLine, LineFault>
    ensures { IsAnswerTo (map string_bytes words.now) result }
{
    match entries_of(alloc, words) {
        Ok(matches) => line_in(alloc, &matches),
        Err(fault) => Err(fault),
    }
}

// The line with these entries.
#[tactic(auto, using(crate::proofs::LineLemmas::user_fault, crate::proofs::LineLemmas::task_fault, crate::proofs::LineLemmas::line_meant))]
fn line_in(alloc: Global, given: &ArgMatches<'_>) -> Result<CommandLine, LineFault>
    requires { AreLineEntries (rows_of (found_of given.now)) (subcommand_rows_of given.now) }
    ensures { UnlessMemory (λ answer. spec.MeansEntries (rows_of (found_of given.now)) (subcommand_rows_of given.now) (spec.line_or_fault answer)) result }
{
    let at = second_in(given);
    let user = word_of(alloc, text_in(given, "as"))?;
    let task = entered_in(alloc, given)?;
    let config = config_in(alloc, given)?;
    Ok(CommandLine {
        config,
        at,
        user,
        task,
    })
}

/// The entries that `clap` finds.
pub(crate) fn entries_of<'a>(
    alloc: Global,
    words: &'a [String],
) -> Result<ArgMatches<'a>, LineFault>
    ensures entries { IfOk result (λ found. HasEntriesOf (map string_bytes words.now) found) }
    ensures refused { IfErr result (IsWordsOf (λ kind. IsAmong kind (fault_of program (map string_bytes words.now)))) }
{
    match program_command(alloc)?.try_get_matches_from(words) {
        Ok(matches) => Ok(matches),
        Err(error) => Err(refused(alloc, &error)),
    }
}

// The fault of words that `clap` refuses.
fn refused(alloc: Global, error: &clap::Error) -> LineFault
    ensures { IsWordsOf (λ kind. (kind ≡ kind_of error.now) × (kind ≢ ErrorKind.OutOfMemory)) result }
{
    if error.kind() == ErrorKind::OutOfMemory {
        return LineFault::Memory;
    }
    let help = !error.use_stderr();
    match format!(in alloc; "{error}") {
        Ok(text) => LineFault::Words { text, help },
        Err(_) => LineFault::Memory,
    }
}

// The task of the subcommand that was entered.
fn entered_in(alloc: Global, given: &ArgMatches<'_>) -> Result<Task, LineFault>
    requires { HasSubcommand (subcommand_rows_of given.now) }
    ensures { UnlessMemory (spec.MeansEntered (subcommand_rows_of given.now)) result }
{
    match given.subcommand() {
        Some((name, given)) => task_in(alloc, name, given),
        None => unreachable!(),
    }
}
