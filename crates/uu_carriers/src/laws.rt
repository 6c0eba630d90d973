//! What follows from the definitions.
ghost use Rattle.std.specs.Prelude.{◌≡◌, ◌<◌, ◌^◌, [], ℕ, List, All, map, Option, IsTrue};
ghost use Rattle.sqlite.specs.Files.{over_files};
ghost use Rattle.sqlite.specs.State.{HasCleanDisk};
ghost use Rattle.sqlite_store.specs.declared.store.FileStore.{FileStore};
ghost use Rattle.sqlite_store.specs.FileStore.{state as files_of, view};
ghost use Rattle.sqlite_disk.specs.declared.Files.{Files};
ghost use Rattle.sqlite_wal.specs.Files.{outcomes};
ghost use Rattle.sqlite_wal.specs.Reads.{AreClean};
ghost use Rattle.sqlite.specs.View.{IsClean};
ghost use Rattle.sqlite_wal.specs.Recovery.{Image};
ghost use Rattle.uu_names.specs.Grade.{grade_count};
ghost use Rattle.uu_names.specs.Name.{is_site_name, is_word};
ghost use Rattle.uu_core.specs.declared.command.Command.{Command};
ghost use Rattle.uu_core.specs.declared.command.Reply.{Reply};
ghost use Rattle.uu_core.specs.State.{State};
ghost use Rattle.uu_core.specs.Run.{state_after};
ghost use Rattle.uu_handover.specs.Bundles.{IsSaid, Packed, key_for};
ghost use Rattle.uu_core.specs.Marks.{marks_end};
ghost use Rattle.uu_core.specs.declared.command.Command.TheVariants.{QueueOnce};
ghost use Rattle.uu_core.specs.declared.job.NewJob.{NewJob};
ghost use Rattle.uu_handover.specs.Custody.{Parcel};
ghost use Rattle.uu_schema.specs.declared.fault.StoreFault.{StoreFault};
ghost use Rattle.uu_store.specs.declared.spool.Spool.{Spool};
ghost use Rattle.uu_store.specs.Closing.{IsClosed};
ghost use Rattle.uu_store.specs.Exchanges.{Exchange};
ghost use Rattle.uu_store.specs.Files.{last_left, FilePassed, IsStretch, IsClosedStretch, let_go_after, closed_after};
ghost use Rattle.uu_store.specs.Stretches.{IsLetGo};
ghost use Rattle.uu_store.specs.Openings.{ImageKeeps, Started};
ghost use Rattle.uu_store.specs.Runs.{GoesOn, Ran, answered_commands};
ghost use Rattle.uu_store.specs.Spool.{connection_of, disk, Shows};
ghost use Rattle.uu_custody.specs.Carried.{IsSaidBy};
ghost use Rattle.uu_bundle.specs.Bundles.{IsBundle, bundle_text};
ghost use Rattle.uu_bundle.specs.declared.bundle.Bundle.{Bundle};
ghost use Rattle.uu_request.specs.Carried.{said_of};
ghost use Rattle.uu_settings.specs.declared.settings.Settings.{Settings};
ghost use Rattle.uu_request.specs.declared.request.Answering.{Answering};
ghost use Rattle.uu_request.specs.declared.request.Packing.{Packing};
ghost use Rattle.uu_request.specs.declared.request.Question.TheVariants as question;
ghost use Rattle.uuspool.specs.Answers.{IsAnswer};
ghost use Rattle.uuspool.specs.ServedLines.{AreServed, ServedLine};
ghost use Rattle.uu_custody.specs.AmongSites.{AreAmong, GoAround, GoOn, IsInFiles, AllCameInBundles};
ghost use Rattle.uu_carriers.specs.Texts.{Places, chart_of, AreApart, Act, deed_of, GoInTexts};
ghost use Rattle.uu_carriers.specs.Sealed.{GoInSealedLines};
ghost use Rattle.uu_carriers.specs.Lines.{Step, runs_at, AreWithin, GoInLines, AreSites, EndsSo, HappenedOver, ComeOnceInFiles};

use sqlite::FileStore;
use sqlite_disk::Disk;
use uu_bundle::laws::{a_text_has_one_bundle, written_bundles_are_read};
use uu_core::laws::runs_follow_one_another;
use uu_custody::laws::{Sites, messages_come_once_in_bundles};
use uu_request::laws::{what_is_brought_is_unpacked, what_is_brought_settles};
use uu_seal::laws::opened_texts_were_sealed;
use uu_store::laws::{calls_make_a_stretch, one_database_has_one_state, stretches_make_a_history};
use uuspool::laws::{lines_are_one_run, what_is_answered_may_be_said, what_is_packed_may_be_said};

/// Anything that moves texts is a carrier. If each input of `unpack` and `settle` is a beginning of
/// a text that some site packed before, bundles go around among the sites (`GoAround` of
/// `uu_custody`).
pub fn texts_go_around()
    ensures { (places : Places) (acts : List Act) → AreApart places → GoInTexts places [] acts → GoAround (chart_of places) places.name [] (map deed_of acts) }
{
    what_is_brought_is_unpacked();
    what_is_brought_settles();
}

/// So over any lines between sites with spools in files messages come once, with any carrier, if
/// each bundle that was packed was what its site had to say (`IsInFiles`). No waiting job would be
/// refused as `Stale` or `Differs`.
pub fn messages_come_once_in_texts<H: Sites>()
    ensures { (places : Places) (count : ℕ) (first : ℕ → State) (acts : List Act) (lines : List ℕ)
        → AreApart places → AreAmong (chart_of places) count first lines → GoInTexts places [] acts → GoOn (map deed_of acts)
        → ((site : ℕ) → site < count → IsInFiles (places.name site) (first site) (H.before site) (H.stretches site) (map deed_of acts) site)
        → ∥ AllCameInBundles (chart_of places) count first H.stretches (λ site. last_left (H.before site) (H.stretches site)) (map deed_of acts) lines ∥₁ }
{
    texts_go_around();
    messages_come_once_in_bundles::<H>();
}

/// The last step: from words, inputs and outputs to files. Sites serve lines, in runs of the
/// program that end or are stopped at any point, and each site's files hold what its runs left.
///
/// The premise about the lines is `MayBeTyped`. What `unpack` and `settle` use of their input is in
/// what `pack` or `answer` printed before, at any site, or in a beginning of it. No other line
/// reports a job to a neighbour as gone, hands one in or forgets one under its name, or removes it.
///
/// Then messages come once over any lines between the sites, by the commands that count in their
/// files. No waiting job would be refused as `Stale` or `Differs`.
pub fn messages_come_once_in_lines<H: Sites>()
    ensures { (places : Places) (count : ℕ) (first : ℕ → State) (steps : List Step) (lines : List ℕ)
        → AreSites places count → AreAmong (chart_of places) count first lines → AreWithin count steps → GoInLines places [] steps
        → ((site : ℕ) → site < count → HappenedOver (places.name site) (first site) (H.before site) (H.stretches site) (runs_at site steps))
        → ∥ ComeOnceInFiles (chart_of places) count first H.stretches (λ site. last_left (H.before site) (H.stretches site)) lines ∥₁ }
{
    runs_follow_one_another();
    one_database_has_one_state();
    what_is_packed_may_be_said();
    what_is_answered_may_be_said();
    messages_come_once_in_texts::<H>();
}

/// The same if carriers seal what they move (`uu_seal`). Then of what comes over the wire nothing is
/// assumed but this: whoever has a key seals only what `pack` or `answer` printed, whoever hasn't
/// makes no right tag, and no two different texts that were tagged have the same tag
/// (`IsOpenedAsOne`). So nobody without a key has a text of theirs taken, and no damage of a text is.
pub fn messages_come_once_in_sealed_lines<H: Sites>()
    ensures { (places : Places) (count : ℕ) (first : ℕ → State) (steps : List Step) (lines : List ℕ)
        → AreSites places count → AreAmong (chart_of places) count first lines → AreWithin count steps → GoInSealedLines places [] steps
        → ((site : ℕ) → site < count → HappenedOver (places.name site) (first site) (H.before site) (H.stretches site) (runs_at site steps))
        → ∥ ComeOnceInFiles (chart_of places) count first H.stretches (λ site. last_left (H.before site) (H.stretches site)) lines ∥₁ }
{
    opened_texts_were_sealed();
    messages_come_once_in_lines::<H>();
}

/// A spool in files served lines, from an opening until its store was let go or its files were
/// closed. They are a run of the program as [`messages_come_once_in_lines`] has it
/// (`HappenedOver`): a stretch of work, with any contents of the files that a stop may leave then.
pub fn served_lines_are_a_run<D: Disk>()
    ensures let_go { (settings : Settings) (before left : Image) (lines : List ServedLine) (begun ended : Spool (FileStore D D.Disk) over_files) (store : FileStore D D.Disk)
        → Started before begun → AreServed settings lines begun ended → IsLetGo over_files (connection_of ended).store store
        → (IsClean (view store) → IsTrue (view store).is_numbered) → IsClean (view store) → (files_of store).may_leave left
        → (exchange : Exchange) × (it : IsStretch before exchange store) × FilePassed before (let_go_after it left) × EndsSo settings before lines exchange (let_go_after it left).end }
    ensures closed { (settings : Settings) (before left : Image) (lines : List ServedLine) (begun ended : Spool (FileStore D D.Disk) over_files) (files : Files D)
        → Started before begun → AreServed settings lines begun ended → IsClosed ended files → AreClean D.Disk files.log files.db → outcomes D.Disk files.log files.db left
        → (exchange : Exchange) × (it : IsClosedStretch D.Disk before exchange files) × FilePassed before (closed_after it left) × EndsSo settings before lines exchange (closed_after it left).end }
{
    lines_are_one_run::<FileStore<D>>();
    calls_make_a_stretch::<D>();
    stretches_make_a_history::<D>();
}

/// A text is that of one bundle. If it is the text of one that the site had to say, as `pack`
/// answers, each bundle with this text was what it had to say (`WereSaidInFiles` of `uu_custody`).
pub fn a_text_says_one_bundle()
    ensures { (own system : List ℕ) (mark : Parcel → ℕ) (state : State) (whole bundle : Bundle) → IsBundle whole → IsBundle bundle → bundle_text whole ≡ bundle_text bundle
        → IsSaid own system mark state (said_of bundle) → IsSaidBy own state (said_of whole) × (whole ≡ bundle) }
{
    written_bundles_are_read();
    a_text_has_one_bundle();
}

/// What `pack` and `answer` print was said. Suppose that their answer, in each state that a spool
/// in files shows, is the text of a bundle. Then that bundle was what the site had to say in the
/// state that the files keep, under its name and the word for its spool.
/// [`messages_come_once_in_texts`] requires this of what was packed.
pub fn what_is_packed_was_said<D: Disk>()
    ensures packed { (before : Image) (begun now : Spool (FileStore D D.Disk) over_files) (in_hand : ℕ) (commands : List Command) (replies : List Reply) (was : Option StoreFault) (settings : Settings) (it : Packing) (whole : Bundle)
        → Started before begun → Ran in_hand commands begun now replies was → GoesOn was → HasCleanDisk (disk now)
        → IsTrue (is_site_name settings.name) → IsTrue (is_site_name it.system) → IsTrue (is_word it.spool) → it.grade < grade_count → IsBundle whole
        → ((u : State) → Shows now u → IsAnswer settings u (question.Pack it) (bundle_text whole) 0)
        → (s : State) → ImageKeeps before s → IsSaidBy settings.name (state_after s (answered_commands replies commands)) (said_of whole) × (whole.from ≡ settings.name) × (whole.spool ≡ it.spool) }
    ensures answered { (before : Image) (begun now : Spool (FileStore D D.Disk) over_files) (in_hand : ℕ) (commands : List Command) (replies : List Reply) (was : Option StoreFault) (settings : Settings) (it : Answering) (make : Packed → NewJob) (asked : List Packed) (whole : Bundle)
        → Started before begun → Ran in_hand commands begun now replies was → GoesOn was → HasCleanDisk (disk now)
        → IsTrue (is_site_name settings.name) → IsTrue (is_site_name it.packing.system) → IsTrue (is_word it.packing.spool) → it.packing.grade < grade_count
        → it.commands ≡ map (λ packed. QueueOnce (key_for it.packing.system packed) (make packed)) asked → All (λ packed. (packed.parcel.number < 2 ^ 32) × (packed.mark < marks_end)) asked → IsBundle whole
        → ((u : State) → Shows now u → IsAnswer settings u (question.Answer it) (bundle_text whole) 0)
        → (s : State) → ImageKeeps before s → IsSaidBy settings.name (state_after s (answered_commands replies commands)) (said_of whole) × (whole.from ≡ settings.name) × (whole.spool ≡ it.packing.spool) }
{
    what_is_packed_may_be_said();
    what_is_answered_may_be_said();
    a_text_says_one_bundle();
}
