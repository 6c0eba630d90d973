//! What follows from the definition.
ghost use Rattle.std.specs.Prelude.{◌≡◌, ◌≤◌, ◌<◌, ℕ, List, Option, None, All};
ghost use Rattle.uu_core.specs.declared.command.Command.{Command};
ghost use Rattle.uu_core.specs.declared.command.Command.TheVariants.{Queue};
ghost use Rattle.uu_core.specs.declared.command.Reply.TheVariants.{Number};
ghost use Rattle.uu_core.specs.declared.job.NewJob.{NewJob};
ghost use Rattle.uu_core.specs.State.{State, IsWellFormed, numbers_end};
ghost use Rattle.uu_core.specs.Verdict.{verdict};
ghost use Rattle.uu_core.specs.After.{after};
ghost use Rattle.uu_core.specs.Laws.{handed_by, new_numbers};
ghost use Rattle.uu_renumber.specs.Renumbered.{renumbered};

use uu_core::laws::numbers_are_not_used_again;

/// A spool that is renumbered stays well-formed (`good`) and keeps everything else (`same`). If the
/// spool gives the number already, nothing changes (`needless`).
///
/// If the number is one that a job may have, each command is accepted, or refused for the same
/// reason as before (`verdict`). A command that hands in no job does the same as before, and leaves
/// the number (`after`). A job that is queued gets the number or a later one (`queued`). No run
/// gives a job a lower number, or one that the spool gave before (`fresh`).
pub fn renumbered_spools_give_new_numbers()
    ensures good { (state : State) (number : ℕ) → number ≤ numbers_end → IsWellFormed state → IsWellFormed (renumbered number state) }
    ensures same { (state : State) (number : ℕ) → renumbered number state ≡ record state { next = (renumbered number state).next } }
    ensures needless { (state : State) (number : ℕ) → number ≤ state.next → renumbered number state ≡ state }
    ensures verdict { (state : State) (number : ℕ) (command : Command) → number < numbers_end → IsWellFormed state → verdict (renumbered number state) command ≡ verdict state command }
    ensures after { (state : State) (number : ℕ) (command : Command) → handed_by command ≡ None
        → after (renumbered number state) command ≡ (renumbered number (after state command).0, (after state command).1) }
    ensures queued { (state : State) (number given : ℕ) (job : NewJob) → (after (renumbered number state) (Queue job)).1 ≡ Number given → number ≤ given }
    ensures fresh { (state : State) (number : ℕ) (commands : List Command) → All (λ given. (number ≤ given) × (state.next ≤ given)) (new_numbers (renumbered number state) commands) }
{
    numbers_are_not_used_again();
}
