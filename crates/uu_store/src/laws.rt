//! What follows from the definitions.
ghost use Rattle.std.specs.Prelude.{◌≡◌, ◌<◌, ◌++◌, ℕ, List, length, map, take, Option, None, IsTrue, []};
ghost use Rattle.sqlite_disk.specs.declared.Files.{Files};
ghost use Rattle.sqlite_store.specs.declared.store.FileStore.{FileStore};
ghost use Rattle.sqlite.specs.declared.file.Leftover.{Leftover};
ghost use Rattle.sqlite.specs.Files.{IsCleanLeft, image_of, over_files};
ghost use Rattle.sqlite.specs.Tree.{Trees};
ghost use Rattle.sqlite.specs.Held.{Held, state};
ghost use Rattle.sqlite.specs.State as db;
ghost use Rattle.sqlite.specs.View.{IsClean};
ghost use Rattle.sqlite_store.specs.FileStore.{state as files_of, view};
ghost use Rattle.sqlite_wal.specs.Files.{outcomes};
ghost use Rattle.sqlite_wal.specs.Reads.{AreClean};
ghost use Rattle.sqlite_wal.specs.Recovery.{Image};
ghost use Rattle.uu_core.specs.declared.command.Command.{Command};
ghost use Rattle.uu_core.specs.declared.command.Reply.{Reply};
ghost use Rattle.uu_core.specs.declared.custody.Key.{Key};
ghost use Rattle.uu_core.specs.declared.job.NewJob.{NewJob};
ghost use Rattle.uu_core.specs.State.{State, IsWellFormed};
ghost use Rattle.uu_schema.specs.declared.fault.StoreFault.{StoreFault};
ghost use Rattle.uu_store.specs.declared.spool.Spool.{Spool};
ghost use Rattle.uu_schema.specs.declared.version.Version.{Version};
ghost use Rattle.uu_schema.specs.declared.version.Version.TheVariants.{First};
ghost use Rattle.sqlite.specs.Effect.{Database};
ghost use Rattle.std.specs.List.{AllByRecursion};
ghost use Rattle.uu_core.specs.declared.system.SystemRow.{SystemRow};
ghost use Rattle.uu_schema.specs.Encoded.{EncodesAs, HoldsStateAs};
ghost use Rattle.uu_store.specs.Closing.{IsClosed};
ghost use Rattle.uu_store.specs.Kept.{HasNoLinks};
ghost use Rattle.uu_store.specs.Spool.{connection_of};
ghost use Rattle.uu_store.specs.Runs.{GoesOn, Ran};
ghost use Rattle.uu_store.specs.Exchanges.{Exchange, exchange_of, not_given, Passes};
ghost use Rattle.uu_store.specs.Stretches.{Adopted, StretchOver, TurnedAway, IsLetGo, Passed, AllStore, StoresAfter, Led, as_stretch, stretch, exchanges_over};
ghost use Rattle.uu_store.specs.Acknowledged.{IsAcknowledged, IsAcknowledgedUnder, IsAccountedFor, IsAccountedForUnder, StoresJob, StoresUnder};
ghost use Rattle.uu_store.specs.Files.{FileStretch, FilePassed, AllFilesPassed, last_left, file_exchanges, AllKeep, KeepsAfter, KeepsJob, KeepsUnder, IsStretch, IsClosedStretch};
ghost use Rattle.uu_store.specs.Files.{let_go_after, closed_after, not_started_for};
ghost use Rattle.uu_store.specs.Openings.{ImageKeeps, IsTakenAsMade, LeavesAsKept, Started, may_be_left};
ghost use Rattle.uu_store.specs.declared.remains.Remains.TheVariants as remains;

use sqlite::Alter;
use sqlite_disk::Disk;
use uu_check::laws::{tables_are_in_order, tables_are_readable, tables_tell_the_state};
use uu_core::laws::{
    jobs_are_handed_in, jobs_stay_through_runs, keys_are_answered_again,
    numbers_are_not_used_again, runs_follow_one_another, states_stay_well_formed,
};

/// A database encodes at most one state, by the tables of at most one version. So whatever a call
/// says about the state that is shown, it says about one state only.
pub fn one_database_has_one_state()
    ensures { (v w : Version) (trees : Trees) (one other : State) → HoldsStateAs v trees one → HoldsStateAs w trees other → one ≡ other }
{
    tables_are_in_order();
    tables_are_readable();
    tables_tell_the_state();
}

/// A database of version 1 has no success waits: in the state that it encodes, each is 0.
pub fn version_one_has_no_success_waits()
    ensures { (database : Database) (s : State) → EncodesAs First database s → AllByRecursion (λ (row : SystemRow). row.def.success_wait ≡ 0) s.systems }
{}

/// A database of version 1 or 2 keeps no links, and neither does the state that it encodes.
pub fn first_versions_have_no_links()
    ensures { (v : Version) (database : Database) (s : State) → HasNoLinks v → EncodesAs v database s → s.links ≡ [] }
{}

/// If every command of a run was answered, it and the next run are one run of all the commands. (A
/// question is a run of no command.) The request in hand is then that of the next run. A run that
/// ended by itself, or because memory ran out, is a run of the commands that were answered. If all
/// were answered, no request is in hand, so its length may be given as any number of commands.
pub fn runs_are_one_run<S: Alter>()
    ensures joined { (first_hand in_hand : ℕ) (old mid new : Spool S S.Store) (one other : List Command) (first second : List Reply) (was stopped : Option StoreFault)
        → length first ≡ length one → GoesOn was → Ran first_hand one old mid first was → Ran in_hand other mid new second stopped → Ran in_hand (one ++ other) old new (first ++ second) stopped }
    ensures answered { (in_hand : ℕ) (old new : Spool S S.Store) (commands : List Command) (replies : List Reply) (was : Option StoreFault)
        → GoesOn was → Ran in_hand commands old new replies was → Ran in_hand (take (length replies) commands) old new replies None }
    ensures any_hand { (in_hand other : ℕ) (old new : Spool S S.Store) (commands : List Command) (replies : List Reply) (stopped : Option StoreFault)
        → length replies ≡ length commands → GoesOn stopped → Ran in_hand commands old new replies stopped → Ran other commands old new replies stopped }
{
    runs_follow_one_another();
}

/// A spool over a store of any kind gets any commands and bundles, over any stretches, and each
/// stretch is stopped at any point. What is found then stores exactly the state that the machine
/// reaches by the commands that count. In each stretch these are a prefix of its commands, with
/// every command that was answered, and with the same replies. If the store failed, at most the
/// request in hand counts too, whole: one command, or all those of a bundle.
///
/// Each opening on the way found what counts until then (`throughout`). An acknowledged job is
/// there, unless an accepted command removed it. If its number was given to a key, this holds of
/// the job that was handed in first under the key (`keys`).
pub fn no_answered_command_is_lost_over<S: Alter>()
    ensures commands { (s : State) (before : Held S) (stretches : List (StretchOver S)) (found : Held S)
        → Led S.Store s before stretches found → ∥ StoresAfter s (exchanges_over S.Store stretches) (state S.Store found) ∥₁ }
    ensures jobs { (s : State) (before : Held S) (stretches : List (StretchOver S)) (found : Held S) (new : NewJob) (number : ℕ)
        → Led S.Store s before stretches found → IsAcknowledged (exchanges_over S.Store stretches) new number → ∥ StoresJob s (exchanges_over S.Store stretches) new number (state S.Store found) ∥₁ }
    ensures keys { (s : State) (before : Held S) (stretches : List (StretchOver S)) (found : Held S) (key : Key) (new : NewJob) (number : ℕ)
        → Led S.Store s before stretches found → IsAcknowledgedUnder (exchanges_over S.Store stretches) key new number → ∥ StoresUnder s (exchanges_over S.Store stretches) key number (state S.Store found) ∥₁ }
    ensures throughout { (s : State) (before : Held S) (stretches : List (StretchOver S)) (found : Held S)
        → Led S.Store s before stretches found → ∥ AllStore s (map (as_stretch S.Store) stretches) (state S.Store found) ∥₁ }
{
    runs_follow_one_another();
    states_stay_well_formed();
    acknowledged_jobs_are_accounted_for();
}

/// After the commands that count, an acknowledged job is there with all its bytes, until an
/// accepted one kills it or delivers it, and no other job has its number. If the number was given
/// to a key, in the first attempt or a later one, this holds of the job that was handed in first
/// under the key.
pub fn acknowledged_jobs_are_accounted_for()
    ensures plain { (s : State) (told : List Exchange) (counted : List Command) (new : NewJob) (number : ℕ)
        → IsWellFormed s → Passes s told counted → IsAcknowledged told new number → IsAccountedFor s counted new number }
    ensures under_keys { (s : State) (told : List Exchange) (counted : List Command) (key : Key) (new : NewJob) (number : ℕ)
        → IsWellFormed s → Passes s told counted → IsAcknowledgedUnder told key new number → IsAccountedForUnder s counted key number }
{
    runs_follow_one_another();
    numbers_are_not_used_again();
    jobs_stay_through_runs();
    jobs_are_handed_in();
    keys_are_answered_again();
}

/// Stretches of work over the two files of a spool that follow one another, and what the files had
/// before the first.
pub trait FileHistory {
    ghost before: { Image };

    ghost stretches: { List FileStretch };
}

/// A spool over files gets any commands and bundles, over any stretches, and each stretch is
/// stopped at any point, even while it is opened. The files keep exactly the state that the machine
/// reaches by the commands that count. In each stretch these are a prefix of its commands, with
/// every command that was answered, and with the same replies. If the store failed, at most the
/// request in hand counts too, whole: one command, or all those of a bundle.
pub fn no_answered_command_is_lost_in_files<H: FileHistory>()
    ensures commands { (s : State) → ImageKeeps H.before s → AllFilesPassed H.before H.stretches → ∥ KeepsAfter s H.stretches (last_left H.before H.stretches) ∥₁ }

    // The commands that count account for each acknowledged job.
    ensures jobs { (s : State) (new : NewJob) (number : ℕ) → ImageKeeps H.before s → AllFilesPassed H.before H.stretches
        → IsAcknowledged (file_exchanges H.stretches) new number → ∥ KeepsJob s (file_exchanges H.stretches) new number (last_left H.before H.stretches) ∥₁ }
    ensures keys { (s : State) (key : Key) (new : NewJob) (number : ℕ) → ImageKeeps H.before s → AllFilesPassed H.before H.stretches
        → IsAcknowledgedUnder (file_exchanges H.stretches) key new number → ∥ KeepsUnder s (file_exchanges H.stretches) key number (last_left H.before H.stretches) ∥₁ }

    // Each stretch begins with what counts until then.
    ensures throughout { (s : State) → ImageKeeps H.before s → AllFilesPassed H.before H.stretches → ∥ AllKeep s H.before H.stretches ∥₁ }
{
    runs_follow_one_another();
    states_stay_well_formed();
    acknowledged_jobs_are_accounted_for();
}

/// A spool over opened files gets any commands, bundles and questions. Once its store is let go, or
/// its files are closed, they are a stretch of work.
pub fn calls_make_a_stretch<D: Disk>()
    ensures let_go { (in_hand : ℕ) (before : Image) (commands : List Command) (begun ended : Spool (FileStore D D.Disk) over_files) (replies : List Reply) (stopped : Option StoreFault) (store : FileStore D D.Disk)
        → Started before begun → Ran in_hand commands begun ended replies stopped → IsLetGo over_files (connection_of ended).store store
        → (IsClean (view store) → IsTrue (view store).is_numbered) → IsStretch before (exchange_of in_hand commands replies stopped) store }
    ensures closed { (in_hand : ℕ) (before : Image) (commands : List Command) (begun ended : Spool (FileStore D D.Disk) over_files) (replies : List Reply) (stopped : Option StoreFault) (files : Files D)
        → Started before begun → Ran in_hand commands begun ended replies stopped → IsClosed ended files
        → IsClosedStretch D.Disk before (exchange_of in_hand commands replies stopped) files }
{}

/// The same over any store. A database that wasn't taken as a spool, and got no command, is a
/// stretch too, once its store is let go.
pub fn calls_make_a_stretch_over<S: Alter>()
    ensures let_go { (in_hand : ℕ) (found : Held S) (commands : List Command) (begun ended : Spool S S.Store) (replies : List Reply) (stopped : Option StoreFault) (store : S)
        → Adopted found begun → Ran in_hand commands begun ended replies stopped → IsLetGo S.Store (connection_of ended).store store
        → IsClean (S.Store.view store) → Passed (stretch S.Store found (exchange_of in_hand commands replies stopped) store) }
    ensures not_taken { (found last : Held S) (commands : List Command) (store : S) → TurnedAway S.Store found last → IsLetGo S.Store last.store store
        → IsClean (S.Store.view store) → Passed (stretch S.Store found (not_given commands) store) }
{}

/// A stretch that calls made, and an opening that failed after it had opened the files, are
/// stretches of a history, with any contents that a stop may leave then. So calls that follow one
/// another meet the premises of a history.
pub fn stretches_make_a_history<D: Disk>()
    ensures let_go { (before left : Image) (exchange : Exchange) (store : FileStore D D.Disk) (it : IsStretch before exchange store)
        → IsClean (view store) → (files_of store).may_leave left → FilePassed before (let_go_after it left) }
    ensures closed { (before left : Image) (exchange : Exchange) (files : Files D) (it : IsClosedStretch D.Disk before exchange files)
        → AreClean D.Disk files.log files.db → outcomes D.Disk files.log files.db left → FilePassed before (closed_after it left) }

    // Without a stop the closed files hold what they read as.
    ensures not_stopped { (before : Image) (exchange : Exchange) (files : Files D) (it : IsClosedStretch D.Disk before exchange files)
        → AreClean D.Disk files.log files.db → FilePassed before (closed_after it (image_of D.Disk files)) }

    // No database was opened, or it wasn't taken as a spool. No command was given.
    ensures not_opened { (before left : Image) (commands : List Command) (it : Leftover D D.Disk) → LeavesAsKept before (remains.Files it)
        → IsCleanLeft it → IsTakenAsMade before it → may_be_left it left → FilePassed before (not_started_for commands left) }
    ensures not_taken { (before left : Image) (commands : List Command) (it : FileStore D D.Disk) → LeavesAsKept before (remains.Store it)
        → IsTrue (view it).is_clean → (files_of it).may_leave left → FilePassed before (not_started_for commands left) }
{}

/// A log that is too short for a frame counts as none: files with it hold what they hold without a
/// log.
pub fn short_logs_count_as_none()
    ensures { (log db : List ℕ) (s : State) → length log < 56 → ImageKeeps (record { log = []; db = db }) s → ImageKeeps (record { log = log; db = db }) s }
{}
