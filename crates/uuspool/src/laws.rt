//! What follows from the definitions.
ghost use Rattle.std.specs.Prelude.{◌≡◌, ◌<◌, ◌^◌, ℕ, List, Option, [], All, IsTrue, None, Some, Ok, filter, map, not, take};
ghost use Rattle.std.specs.List.{flat_map};
ghost use Rattle.uu_names.specs.Grade.{grade_count};
ghost use Rattle.uu_names.specs.Name.{is_site_name, is_word};
ghost use Rattle.uu_times.specs.declared.moment.Moment.{Moment};
ghost use Rattle.uu_bundle.specs.Bundles.{IsBundle, bundle_text};
ghost use Rattle.uu_bundle.specs.declared.bundle.Bundle.{Bundle};
ghost use Rattle.uu_handover.specs.Bundles.{IsAnswerBundle as IsTrueAnswer, IsSaid, Packed, key_for};
ghost use Rattle.uu_core.specs.declared.command.Command.{Command};
ghost use Rattle.uu_core.specs.declared.command.Command.TheVariants.{QueueOnce};
ghost use Rattle.uu_core.specs.declared.job.NewJob.{NewJob};
ghost use Rattle.uu_core.specs.declared.due.Due.{Due};
ghost use Rattle.uu_core.specs.Definitions.{definitions_of};
ghost use Rattle.uu_core.specs.Due.{dues_of};
ghost use Rattle.uu_core.specs.Marks.{marks_end};
ghost use Rattle.uu_core.specs.State.{State, IsWellFormed};
ghost use Rattle.uu_core.specs.Run.{state_after};
ghost use Rattle.uu_line.specs.declared.task.Task.TheVariants.{Load};
ghost use Rattle.uu_report.specs.Reports.{due_text};
ghost use Rattle.uu_settings.specs.declared.settings.Settings.{Settings};
ghost use Rattle.uu_request.specs.Carried.{bundle_crossing, said_of};
ghost use Rattle.uu_request.specs.Requests.{load, task_request};
ghost use Rattle.uu_request.specs.declared.request.Answering.{Answering};
ghost use Rattle.uu_request.specs.declared.request.Packing.{Packing};
ghost use Rattle.uu_request.specs.declared.request.Question.TheVariants as question;
ghost use Rattle.uu_request.specs.declared.request.Request.TheVariants as request;
ghost use Rattle.uu_request.specs.declared.request.Settling.{Settling};
ghost use Rattle.uu_store.specs.Runs.{Ran};
ghost use Rattle.uu_store.specs.declared.spool.Spool.{Spool};
ghost use Rattle.uuspool.specs.Answers.{IsAnswer};
ghost use Rattle.uuspool.specs.Bundles.{is_had};
ghost use Rattle.uuspool.specs.Served.{AreCommandsIn};
ghost use Rattle.uuspool.specs.ServedLines.{AreServed, IsOneRun, ServedLine};

use sqlite::Alter;
use uu_bundle::laws::{pieces_make_a_bundle, pieces_make_an_answer};
use uu_core::laws::{definitions_are_read_back, the_first_to_go_is_due};
use uu_handover::laws::bundles_say_what_may_be_said;
use uu_questions::laws::jobs_are_listed_in_order;
use uu_store::laws::runs_are_one_run;

/// Lines that are served one after the other over one spool are one run of the commands of their
/// requests. What each prints is what the plain machine answers in the state that those before it
/// left. The spool shows the machine's state, and a stop leaves what the run says. A spool that is
/// left as it is ran no command.
pub fn lines_are_one_run<S: Alter>()
    ensures lines { (settings : Settings) (lines : List ServedLine) (old new : Spool S S.Store) → AreServed settings lines old new → IsOneRun settings lines old new }
    ensures none { (spool : Spool S S.Store) → Ran 1 [] spool spool [] None }
{
    runs_are_one_run::<S>();
}

/// `due -s` prints all jobs of a system that may go. The first is the one that `due` prints for the
/// system at the same moment. If `due` prints none for the system, there is none.
pub fn the_first_line_is_what_is_due()
    ensures { (settings : Settings) (state : State) (name : List ℕ) (at : Moment) (output all : List ℕ) (status told : ℕ) → IsWellFormed state
        → IsAnswer settings state (question.Due at) output status → IsAnswer settings state (question.AllDue (record { system = Some name; user = None }) at) all told
        → (dues : List Due) × (jobs : List Due) × (output ≡ flat_map due_text dues) × (all ≡ flat_map due_text jobs) × (dues_of name dues ≡ take 1 jobs) }
{
    the_first_to_go_is_due();
    jobs_are_listed_in_order();
}

/// What `systems` prints, for all systems or for one, is a sys file from which `load` defines
/// exactly these, in their order, without skipping a line.
pub fn what_is_printed_is_loaded()
    ensures { (settings : Settings) (state : State) (name : Option (List ℕ)) (output : List ℕ) (status : ℕ) (at : Moment) (user : List ℕ) → IsWellFormed state
        → IsAnswer settings state (question.Definitions name) output status
        → task_request settings at output user Load ≡ Ok (load (record { systems = definitions_of name state.systems; skipped = [] })) }
{
    definitions_are_read_back();
}

/// What `pack` prints with status 0 is the text of a bundle that can be read back, and what the
/// bundle says is what the site may say to the system (`bundles_say_what_may_be_said` of
/// `uu_handover`): its jobs with their marks, and what it has of the system's.
pub fn what_is_packed_may_be_said()
    ensures { (settings : Settings) (state : State) (it : Packing) (output : List ℕ)
        → IsWellFormed state → IsTrue (is_site_name settings.name) → IsTrue (is_site_name it.system) → IsTrue (is_word it.spool) → it.grade < grade_count
        → IsAnswer settings state (question.Pack it) output 0
        → (bundle : Bundle) × (output ≡ bundle_text bundle) × IsBundle bundle × (bundle.spool ≡ it.spool) × IsSaid settings.name it.system (bundle_crossing settings.name it.system it.spool).mark state (said_of bundle) }
{
    pieces_make_a_bundle();
    bundles_say_what_may_be_said();
}

/// What `answer` prints with status 0 is the text of a bundle that can be read back. What the
/// bundle says is what the site may say to the system, and true of its state. Of the jobs that the
/// system's bundle hands in, it has exactly those that are kept as taken under their marks. It
/// refuses exactly those that would be refused now, with the reason.
pub fn what_is_answered_may_be_said()
    ensures { (settings : Settings) (state : State) (it : Answering) (make : Packed → NewJob) (asked : List Packed) (output : List ℕ)
        → IsWellFormed state → IsTrue (is_site_name settings.name) → IsTrue (is_site_name it.packing.system) → IsTrue (is_word it.packing.spool) → it.packing.grade < grade_count
        → it.commands ≡ map (λ packed. QueueOnce (key_for it.packing.system packed) (make packed)) asked → All (λ packed. (packed.parcel.number < 2 ^ 32) × (packed.mark < marks_end)) asked
        → IsAnswer settings state (question.Answer it) output 0
        → (bundle : Bundle) × (output ≡ bundle_text bundle) × IsBundle bundle × (bundle.spool ≡ it.packing.spool)
        × IsTrueAnswer settings.name it.packing.system (bundle_crossing settings.name it.packing.system it.packing.spool).mark make state asked (said_of bundle) }
{
    pieces_make_an_answer();
    bundles_say_what_may_be_said();
}

/// If a bundle is settled, exactly those jobs are removed that wait for the system and that the
/// bundle has under their numbers and marks. Nothing else changes.
pub fn what_is_had_goes()
    ensures { (settings : Settings) (state : State) (it : Settling) (commands : List Command) → IsWellFormed state
        → AreCommandsIn settings state (request.Settling it) commands → state_after state commands ≡ record state { jobs = filter (λ job. not (is_had settings.name it job)) state.jobs } }
{}
