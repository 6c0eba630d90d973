//! The line that words mean, with the program's faults.

ghost use Rattle.std.specs.Prelude.{map};
ghost use Rattle.std.specs.String.{string_bytes};
ghost use Rattle.uuspool.specs.Lines.{IsAnswerTo};

use crate::fault::Fault;
use std::alloc::Global;
use uu_line::CommandLine;

/// The line that the words after the program's name mean.
///
/// # Errors
/// `Words` exactly if `clap` refuses the words, with `help` if they ask for help. `Name` with the
/// first fault of the user, and then of the arguments and options in the order of the subcommand's
/// usage. `TwoSystems` if the addresses of a message begin with different systems. The only other
/// error is `Memory`.
pub fn line_of(alloc: Global, words: &[String]) -> Result<CommandLine, Fault>
    ensures { IsAnswerTo (map string_bytes words.now) result }
{
    Ok(uu_line::line_of(alloc, words)?)
}
