//! Laws of the machine that the contracts of this crate are about.
ghost use Rattle.std.specs.Prelude.{◌≡◌, ◌++◌, ◌+◌, ◌≤◌, ◌⊎◌, ◌<◌, ℕ, List, Option, Some, None, Ok, Contains, Bool, false, not, ◌&&◌, if◌then◌else◌, All, AllPairs, IsPermutation, [], ◌∷◌, ◌↔◌, true, length, map, sum_by, take};
ghost use Rattle.uu_core.specs.declared.command.Command.{Command};
ghost use Rattle.uu_core.specs.declared.command.Command.TheVariants.{Define, Queue, QueueOnce};
ghost use Rattle.uu_core.specs.declared.custody.Key.{Key};
ghost use Rattle.uu_core.specs.declared.queue.Queue.{Queue as SystemQueue};
ghost use Rattle.uu_core.specs.declared.due.Due.{Due};
ghost use Rattle.uu_core.specs.declared.next_call.NextCall.{NextCall};
ghost use Rattle.uu_core.specs.declared.next_call.Why.TheVariants as why;
ghost use Rattle.uu_names.specs.Text.{most_text};
ghost use Rattle.uu_times.specs.Moment.{last_second};
ghost use Rattle.uu_times.specs.Printed.{sys_text};
ghost use Rattle.uu_times.specs.SysFile.{sys_file_of};
ghost use Rattle.uu_times.specs.declared.zone.Zone.{Zone};
ghost use Rattle.uu_core.specs.NextCalls.{IsNextCall, IsMomentAt, IsEarlier, due_by, is_looked_at};
ghost use Rattle.uu_core.specs.Queues.{AreQueues, jobs_for};
ghost use Rattle.uu_core.specs.Order.{AreByName};
ghost use Rattle.uu_core.specs.declared.command.Reply.TheVariants.{Number, Refused};
ghost use Rattle.uu_times.specs.declared.moment.Moment.{Moment};
ghost use Rattle.uu_core.specs.declared.job.JobHead.{JobHead};
ghost use Rattle.uu_core.specs.declared.job.NewJob.{NewJob};
ghost use Rattle.uu_core.specs.declared.refusal.Refusal.{Refusal};
ghost use Rattle.uu_core.specs.declared.system.SystemRow.{SystemRow};
ghost use Rattle.uu_core.specs.State.{State, Job, IsWellFormed, empty};
ghost use Rattle.uu_core.specs.Refusal.{AreInTurn};
ghost use Rattle.uu_core.specs.Verdict.{verdict, reasons, done_reasons};
ghost use Rattle.uu_core.specs.Definitions.{definitions_of};
ghost use Rattle.uu_core.specs.Due.{AreDue, AreInOrder, all_due, due_of, dues_of, is_listed, may_go};
ghost use Rattle.uu_core.specs.After.{after, job_of};
ghost use Rattle.uu_core.specs.Run.{state_after, replies_to};
ghost use Rattle.uu_core.specs.Laws.{accepted_of, lets_go, lets_forget, numbers_in, refusal_in, new_numbers, has_key, is_repeat, IsAmong, IsHandedIn, IsOfRun, IsKept, IsFirstUnder, AreFound};
ghost use Rattle.uu_core.specs.WellFormed.{IsCommand};

pub use crate::sound::{commands_are_sound, mark_is_sound, take_ins_are_sound};
use uu_times::laws::printed_systems_are_read;

/// A refused command leaves the state as it is (`state`). Its reply is the refusal, and no accepted
/// command has such a reply (`reply`).
pub fn refusals_change_nothing()
    ensures state { (state : State) (command : Command) (refusal : Refusal) → verdict state command ≡ Some refusal → after state command ≡ (state, Refused refusal) }
    ensures reply { (state : State) (command : Command) → refusal_in (after state command).1 ≡ verdict state command }
{}

/// If several reasons apply, the reply is [`Refusal::TooLarge`](crate::Refusal::TooLarge), or else
/// the reason with the least number. The reasons of each command are in that order, and the first
/// that applies is the reply.
pub fn refusals_are_told_in_order()
    ensures { (state : State) (command : Command) → AreInTurn (reasons state command) }
{}

/// A run of commands followed by others is the run of the others from the state after the first
/// ones.
pub fn runs_follow_one_another()
    ensures states { (state : State) (first second : List Command) → state_after state (first ++ second) ≡ state_after (state_after state first) second }
    ensures replies { (state : State) (first second : List Command) → replies_to state (first ++ second) ≡ replies_to state first ++ replies_to (state_after state first) second }
{}

/// The final state of a run is that of its accepted commands alone, in order. Run alone, none of
/// these is refused.
pub fn accepted_commands_alone()
    ensures same { (state : State) (commands : List Command) → state_after state (accepted_of state commands) ≡ state_after state commands }
    ensures accepted { (state : State) (commands : List Command) → accepted_of state (accepted_of state commands) ≡ accepted_of state commands }
{}

/// From the time a job gets a number, the number is below the next number, and no other job gets
/// it. The numbers that a run gives begin at the next one and rise. They are all the numbers of its
/// replies, except those repeated for a key that was kept.
pub fn numbers_are_not_used_again()
    ensures rise { (state : State) (commands : List Command) → state.next ≤ (state_after state commands).next }
    ensures used { (state : State) (job : NewJob) (number : ℕ) → (after state (Queue job)).1 ≡ Number number → (number ≡ state.next) × ((after state (Queue job)).0.next ≡ number + 1) }
    ensures handed_in { (state : State) (command : Command) (job : Job) → IsHandedIn state command job
        → (job.number ≡ state.next) × ((after state command).0.next ≡ job.number + 1) × ((after state command).1 ≡ Number job.number) }
    ensures fresh { (state : State) (commands : List Command) → All (λ number. state.next ≤ number) (new_numbers state commands) }
    ensures once { (state : State) (commands : List Command) → AllPairs (λ earlier later. earlier < later) (new_numbers state commands) }
    ensures all { (state : State) (commands : List Command) → All (λ command. has_key command ≡ false) commands → new_numbers state commands ≡ numbers_in (replies_to state commands) }
{}

/// Nothing is lost: a job stays until an accepted command that names it removes it.
pub fn jobs_stay_until_they_go()
    ensures { (state : State) (command : Command) (job : Job) → Contains state.jobs job → lets_go command job ≡ false → IsAmong (after state command).0.jobs job }
{}

/// Nothing is lost in a run: the job of an accepted command is there, and stays until an accepted
/// command removes it.
pub fn jobs_stay_through_runs()
    ensures queued { (state : State) (job : NewJob) → verdict state (Queue job) ≡ None → Contains (after state (Queue job)).0.jobs (job_of state.next job) }
    ensures queued_once { (state : State) (key : Key) (job : NewJob) → verdict state (QueueOnce key job) ≡ None → is_repeat state (QueueOnce key job) ≡ false
        → Contains (after state (QueueOnce key job)).0.jobs (job_of state.next job) }
    ensures stays { (state : State) (commands : List Command) (job : Job) → Contains state.jobs job
        → All (λ command. lets_go command job ≡ false) (accepted_of state commands) → IsAmong (state_after state commands).jobs job }
{}

/// Nothing is made: after a command, each job was there before, or is the one that the command
/// handed in. After a run, each job was there before, or an accepted command of the run handed it
/// in.
pub fn jobs_are_handed_in()
    ensures step { (state : State) (command : Command) (later : Job) → Contains (after state command).0.jobs later → IsAmong state.jobs later ⊎ IsHandedIn state command later }
    ensures run { (state : State) (commands : List Command) (later : Job) → Contains (state_after state commands).jobs later → IsAmong state.jobs later ⊎ IsOfRun state commands later }
{}

/// An empty spool is well-formed, and each command, accepted or refused, keeps a spool well-formed.
pub fn states_stay_well_formed()
    ensures empty { IsWellFormed empty }
    ensures step { (state : State) (command : Command) → IsCommand command → IsWellFormed state → IsWellFormed (after state command).0 }
    ensures run { (state : State) (commands : List Command) → All IsCommand commands → IsWellFormed state → IsWellFormed (state_after state commands) }
{}

/// A key that got a number is kept with it (`kept`). After any run in which no accepted command
/// lets the key be forgotten, it gets the same number again, and nothing changes (`run`). What is
/// kept after a run was kept before it, or a command of the run handed in that job first under the
/// key (`origin`).
pub fn keys_are_answered_again()
    ensures kept { (state : State) (key : Key) (job : NewJob) (number : ℕ) → (after state (QueueOnce key job)).1 ≡ Number number
        → IsKept (after state (QueueOnce key job)).0 key number }
    ensures run { (state : State) (key : Key) (first again : NewJob) (number : ℕ) (commands : List Command) → (after state (QueueOnce key first)).1 ≡ Number number
        → All (λ command. lets_forget command key ≡ false) (accepted_of (after state (QueueOnce key first)).0 commands)
        → let later = state_after (after state (QueueOnce key first)).0 commands in after later (QueueOnce key again) ≡ (later, Number number) }
    ensures origin { (state : State) (commands : List Command) (key : Key) (number : ℕ) → IsKept (state_after state commands) key number
        → IsKept state key number ⊎ ((first : NewJob) × IsFirstUnder state commands key first number) }
{}

/// What is due is found job by job, by grade and number. Without jobs nothing is due (`none`). One
/// more job, after the others, is due too if its system may be called for it and isn't listed yet
/// (`more`). The order of the jobs doesn't matter (`any_order`).
pub fn dues_are_found_job_by_job()
    ensures none { (rows : List SystemRow) (at : Moment) → AreDue rows [] at [] }
    ensures more { (rows : List SystemRow) (at : Moment) (jobs : List JobHead) (job : JobHead) (dues : List Due) → AreInOrder (jobs ++ job ∷ []) → AreDue rows jobs at dues
        → AreDue rows (jobs ++ job ∷ []) at (if may_go rows at job && not (is_listed dues job.system) then dues ++ due_of job ∷ [] else dues) }
    ensures any_order { (rows : List SystemRow) (at : Moment) (jobs ordered : List JobHead) (dues : List Due) → IsPermutation jobs ordered → AreDue rows ordered at dues → AreDue rows jobs at dues }
{}

/// Of a system's jobs that may go, the first by grade and number is the one that is due. If none
/// may go, none is due.
pub fn the_first_to_go_is_due()
    ensures { (rows : List SystemRow) (at : Moment) (jobs own : List JobHead) (name : List ℕ) (dues : List Due)
        → IsPermutation (jobs_for name jobs) own → AreInOrder own → AreDue rows jobs at dues → dues_of name dues ≡ take 1 (all_due rows own at) }
{}

/// A sys file printed from a spool's systems, or from one of them, is read as exactly their
/// definitions, in their order, and no line is skipped (`read`). An empty spool in which these
/// systems are defined has these definitions (`again`). The text of one system is short enough to
/// be read whole (`short`).
pub fn definitions_are_read_back()
    ensures read { (state : State) (name : Option (List ℕ)) → IsWellFormed state
        → sys_file_of (sys_text (definitions_of name state.systems)) ≡ Ok (record { systems = definitions_of name state.systems; skipped = [] }) }
    ensures again { (state : State) (name : Option (List ℕ)) → IsWellFormed state
        → map (λ row. row.def) (state_after empty (map Define (definitions_of name state.systems))).systems ≡ definitions_of name state.systems }
    ensures short { (state : State) (name : List ℕ) → IsWellFormed state → length (sys_text (definitions_of (Some name) state.systems)) ≤ most_text }
{
    printed_systems_are_read();
}

/// If nothing changes until then, at the second that [`next_calls`](crate::next_calls) gives for a
/// system, the system is due with that job. At a looked-at second before, it isn't due. A system
/// without such a second isn't due at any second looked at. The reason is `Due` exactly if the
/// system may be called at once.
pub fn calls_come_when_told()
    ensures listed { (zone : Zone) (rows : List SystemRow) (jobs : List JobHead) (now second : ℕ) (call : NextCall) (at : Moment) (dues : List Due)
        → IsNextCall zone rows jobs now call → call.second ≡ Some second → IsMomentAt zone second at → AreDue rows jobs at dues → Contains dues (due_by call) }
    ensures not_before { (zone : Zone) (rows : List SystemRow) (jobs : List JobHead) (now earlier : ℕ) (call : NextCall) (at : Moment) (dues : List Due)
        → AreByName (λ row. row.def.name) rows → (next : IsNextCall zone rows jobs now call) → is_looked_at next.row.call now earlier ≡ true → IsEarlier earlier call.second
        → IsMomentAt zone earlier at → AreDue rows jobs at dues → is_listed dues call.system ≡ false }
    ensures due { (zone : Zone) (rows : List SystemRow) (jobs : List JobHead) (now : ℕ) (call : NextCall)
        → now ≤ last_second → IsNextCall zone rows jobs now call → (call.why ≡ why.Due) ↔ (call.second ≡ Some now) }
{}

/// The queues of all systems together have as many jobs and bytes as all the jobs.
pub fn queues_sum_up_all_jobs()
    ensures jobs { (jobs : List JobHead) (queues : List SystemQueue) → AreQueues jobs queues → sum_by (λ queue. queue.sums.jobs) queues ≡ length jobs }
    ensures bytes { (jobs : List JobHead) (queues : List SystemQueue) → AreQueues jobs queues
        → sum_by (λ queue. queue.sums.bytes) queues ≡ sum_by (λ job. job.size) jobs }
{}

/// Only the jobs that a report of a call names decide it. Any list of jobs that has these gives the
/// same decision as all jobs, in any order.
pub fn named_jobs_decide()
    ensures { (known : Bool) (system numbers : List ℕ) (jobs found : List JobHead) → AreFound numbers jobs found → done_reasons known system numbers found ≡ done_reasons known system numbers jobs }
{}
