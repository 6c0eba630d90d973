// A list of commands over a spool.
ghost use Rattle.std.specs.Prelude.{◌≡◌, ◌≤◌, ◌<◌, ◌+◌, ◌++◌, ◌∷◌, []};
ghost use Rattle.std.specs.Vec.{vec_len, vec_capacity};

use crate::spool::Spool;
use sqlite::Alter;
use std::alloc::Global;
use uu_core::laws::runs_follow_one_another;
use uu_core::{Command, Reply};
use uu_schema::StoreFault;

/// How a run of commands ended.
#[derive(Debug, Drop)]
pub struct RunEnd {
    /// The replies to the first commands, in order.
    pub replies: Vec<Reply>,
    /// Why the next command wasn't answered, unless all were.
    pub stopped: Option<StoreFault>,
}

// There is room for one more.
fn keep(replies: &mut Vec<Reply>, reply: Reply)
    requires { vec_len replies.old < vec_capacity replies.old }
    ensures items { replies.new.items ≡ replies.old.items ++ reply ∷ [] }
    ensures len { vec_len replies.new ≡ vec_len replies.old + 1 }
    ensures capacity { vec_capacity replies.old ≤ vec_capacity replies.new }
{
    let _kept = replies.push(reply).is_ok();
}

impl<S: Alter> Spool<S> {
    ghost use Rattle.std.specs.Prelude.{◌↔◌, false, IsTrue, IfSome, MatchOption, None, Some, length};
    ghost use Rattle.uu_store.specs.Spool.{failure_of, has_failed, IsFaultBetween, Notes};
    ghost use Rattle.uu_store.specs.Runs.{Ran};

    /// Carries out the commands, one after the other, until one isn't answered. Memory for all
    /// replies is reserved first, so no reply is lost.
    ///
    /// # Errors
    /// The first fault of a command ends the run, and no further command is given. `Failed` comes
    /// before any command.
    pub fn run(&mut self, alloc: Global, commands: Vec<Command>) -> RunEnd
        ensures ran { Ran 1 commands.items self.old self.new result.replies.items result.stopped }

        // Nothing stopped it exactly if all were answered and the spool hadn't failed before.
        ensures every { (result.stopped ≡ None) ↔ ((has_failed self.old ≡ false) × (length result.replies.items ≡ length commands.items)) }
        ensures marked { MatchOption result.stopped ((has_failed self.old ≡ false) × (has_failed self.new ≡ false)) (IsFaultBetween (has_failed self.old) (has_failed self.new)) }

        // The fault that stopped it is the one that its command gave, with its kind.
        ensures noted { IfSome result.stopped (Notes (failure_of self.new)) }

        // A spool that failed is left as it was, and gives no reply.
        ensures failed { IsTrue (has_failed self.old) → (result.stopped ≡ Some StoreFault.Failed) × (result.replies.items ≡ []) × (self.new ≡ self.old) }
    {
        runs_follow_one_another();
        // Asked here too, for a run of no commands, and before memory for replies is reserved.
        if self.is_failed() {
            return RunEnd {
                replies: Vec::new(alloc),
                stopped: Some(StoreFault::Failed),
            };
        }
        let Ok(mut replies) = Vec::with_capacity(alloc, commands.len()) else {
            return RunEnd {
                replies: Vec::new(alloc),
                stopped: Some(StoreFault::Memory),
            };
        };
        for command in commands {
            match self.command(alloc, command) {
                Ok(reply) => keep(&mut replies, reply),
                Err(fault) => {
                    return RunEnd {
                        replies,
                        stopped: Some(fault),
                    };
                }
            }
        }
        RunEnd {
            replies,
            stopped: None,
        }
    }
}
