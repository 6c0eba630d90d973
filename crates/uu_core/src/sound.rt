// What holds of each value of a command's types.
ghost use Rattle.std.specs.Prelude.{◌<◌, ◌≤◌, ℕ, List, All, IsTrue};
ghost use Rattle.uu_names.specs.Name.{is_site_name, is_word};
ghost use Rattle.uu_core.specs.Marks.{marks_end};
ghost use Rattle.uu_core.specs.State.{IsDefinition, IsLine, numbers_end};
ghost use Rattle.uu_core.specs.TakeIns.{offering, commands_in};
ghost use Rattle.uu_core.specs.WellFormed.{IsCommand, IsKey, IsNewJob, HasWords};

use crate::command::Command;
use crate::custody::{Key, Mark};
use crate::job::{Kind, NewJob};
use crate::take_in::{Offered, TakeIn};
use uu_names::Word;
use uu_names::laws::{grade_is_sound, name_is_sound, word_is_sound};
use uu_times::laws::windows_are_sound;
use uu_times::{Line, SystemDef};

fn line_is_sound(line: &Line)
    ensures { IsLine line.now }
{
    grade_is_sound(&line.grade);
    windows_are_sound(&line.windows);
}

fn definition_is_sound(def: &SystemDef)
    ensures { IsDefinition def.now }
{
    name_is_sound(&def.name);
    for line in def.lines() {
        line_is_sound(line);
    }
}

fn words_are_sound(words: &[Word])
    ensures { All (λ word. IsTrue (is_word word)) words.now }
{
    for word in words {
        word_is_sound(word);
    }
}

fn kind_is_sound(kind: &Kind)
    ensures { HasWords kind.now }
{
    match kind {
        Kind::Send { source, target } | Kind::Request { source, target } => {
            word_is_sound(source);
            word_is_sound(target);
        }
        Kind::Execute { command, arguments } => {
            word_is_sound(command);
            words_are_sound(arguments.as_slice());
        }
    }
}

fn job_is_sound(job: &NewJob)
    ensures { IsNewJob job.now }
{
    name_is_sound(&job.system);
    grade_is_sound(&job.grade);
    word_is_sound(&job.user);
    kind_is_sound(&job.kind);
}

fn number_is_sound(number: u32)
    ensures { number ≤ numbers_end }
{}

/// A value of type [`Mark`] has at most 63 bits.
pub fn mark_is_sound(mark: &Mark)
    ensures { mark.now < marks_end }
{
    mark.number();
}

fn key_is_sound(key: &Key)
    ensures { IsKey key.now }
{
    name_is_sound(&key.from);
    number_is_sound(key.number);
    mark_is_sound(&key.mark);
}

/// The types of a command keep its names, words, grades, moments and numbers within their limits.
/// So each command keeps a spool well-formed.
pub fn commands_are_sound(command: &Command)
    ensures { IsCommand command.now }
{
    match command {
        Command::Define(def) => definition_is_sound(def),
        Command::Queue(job) => job_is_sound(job),
        Command::QueueOnce(key, job) => {
            key_is_sound(key);
            job_is_sound(job);
        }
        Command::Regrade { grade, .. } => grade_is_sound(grade),
        Command::Failed { why, .. } => word_is_sound(why),
        Command::Forget { below, .. } => number_is_sound(*below),
        Command::Remove(_)
        | Command::Kill { .. }
        | Command::Rejuvenate { .. }
        | Command::Done { .. }
        | Command::Release { .. }
        | Command::Entry(_) => {}
    }
}

fn offered_is_sound(offered: &Offered)
    ensures { (from : List ℕ) → IsTrue (is_site_name from) → IsCommand (offering from offered.now) }
{
    number_is_sound(offered.number);
    mark_is_sound(&offered.mark);
    job_is_sound(&offered.job);
}

/// The types of a bundle keep its commands within their limits, as [`commands_are_sound`] says for
/// each.
pub fn take_ins_are_sound(it: &TakeIn)
    ensures { All IsCommand (commands_in it.now) }
{
    name_is_sound(&it.from);
    number_is_sound(it.below);
    for offered in it.jobs.as_slice() {
        offered_is_sound(offered);
    }
}
