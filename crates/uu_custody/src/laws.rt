//! What follows from the definitions.
ghost use Rattle.std.specs.Prelude.{◌≡◌, ◌<◌, [], ◌∷◌, ℕ, List};
ghost use Rattle.sqlite_wal.specs.Recovery.{Image};
ghost use Rattle.uu_core.specs.declared.command.Command.{Command};
ghost use Rattle.uu_core.specs.State.{State, Job, IsWellFormed, link_of, new_link};
ghost use Rattle.uu_handover.specs.Custody.{Crossing};
ghost use Rattle.uu_handover.specs.Network.{Chart, IsRoute};
ghost use Rattle.uu_custody.specs.Events.{Event, Side, sender, receiver, sessions_at, exchanges_at, PassesTruly, KeepsToWire, nothing_sent, ForgetsWhatWasSaid};
ghost use Rattle.uu_custody.specs.Handovers.{AreOfWorld, ComeOnce, NothingIsInTheWay, ToldAreInCustody, ToldUnderKeysAreInCustody, Waited};
ghost use Rattle.uu_custody.specs.Sites.{AllHandOver, AllComeOnce};
ghost use Rattle.uu_store.specs.Files.{FileStretch, AllFilesPassed, last_left};
ghost use Rattle.uu_store.specs.Openings.{ImageKeeps};
ghost use Rattle.uu_custody.specs.Carried.{Deed, events_of, nothing_said, GoesByBundles};
ghost use Rattle.uu_custody.specs.AmongSites.{AreNamed, AreAmong, GoAround, GoOn, IsInFiles, AllCameInBundles};
ghost use Rattle.uu_custody.specs.Routes.{Course, ComeOnceOverAll, IsOnItsWay, CameTo};

use uu_core::laws::{
    jobs_stay_through_runs, numbers_are_not_used_again, runs_follow_one_another,
    states_stay_well_formed,
};
use uu_handover::laws::{bundles_say_what_may_be_said, handed_on_jobs_come_once};
use uu_store::laws::acknowledged_jobs_are_accounted_for;

/// Jobs that one spool hands on to another come once, with any commands for both, and with each of
/// them stopped at any point. It is supposed that only what was answered or shown goes over the
/// wire, and that the commands that count at each site fit its exchanges (`once`).
///
/// So each job comes that was handed in without a key and whose number the sender gave (`told`). If
/// the number was given to a key, the job that was handed in first under it comes (`told_under`).
/// The two spools are those of a world of custody, so its law applies (`world`). If the receiver
/// forgets only what the sender said, it refuses no waiting job as `Stale` or `Differs` (`free`).
pub fn jobs_come_once_over_stops()
    ensures once { (crossing : Crossing) (a b : State) (events : List Event) (sent received : List Command)
        → IsWellFormed a → IsWellFormed b → link_of b crossing.from ≡ new_link crossing.from
        → PassesTruly crossing a (sessions_at sender events) sent → PassesTruly crossing b (sessions_at receiver events) received
        → KeepsToWire crossing nothing_sent events → ComeOnce crossing a sent b received }
    ensures told { (crossing : Crossing) (a b : State) (events : List Event) (sent received : List Command)
        → IsWellFormed a → IsWellFormed b → link_of b crossing.from ≡ new_link crossing.from
        → PassesTruly crossing a (sessions_at sender events) sent → PassesTruly crossing b (sessions_at receiver events) received
        → KeepsToWire crossing nothing_sent events → ToldAreInCustody crossing (exchanges_at sender events) a sent b received }
    ensures told_under { (crossing : Crossing) (a b : State) (events : List Event) (sent received : List Command)
        → IsWellFormed a → IsWellFormed b → link_of b crossing.from ≡ new_link crossing.from
        → PassesTruly crossing a (sessions_at sender events) sent → PassesTruly crossing b (sessions_at receiver events) received
        → KeepsToWire crossing nothing_sent events → ToldUnderKeysAreInCustody crossing (exchanges_at sender events) a sent b received }
    ensures world { (crossing : Crossing) (a b : State) (events : List Event) (sent received : List Command)
        → IsWellFormed a → IsWellFormed b → link_of b crossing.from ≡ new_link crossing.from
        → PassesTruly crossing a (sessions_at sender events) sent → PassesTruly crossing b (sessions_at receiver events) received
        → KeepsToWire crossing nothing_sent events → AreOfWorld crossing events a sent b received }
    ensures free { (crossing : Crossing) (a b : State) (events : List Event) (sent received : List Command)
        → IsWellFormed a → IsWellFormed b → link_of b crossing.from ≡ new_link crossing.from
        → PassesTruly crossing a (sessions_at sender events) sent → PassesTruly crossing b (sessions_at receiver events) received
        → KeepsToWire crossing nothing_sent events → ForgetsWhatWasSaid crossing nothing_sent events → NothingIsInTheWay crossing a sent b received }
{
    handed_on_jobs_come_once();
    jobs_stay_through_runs();
    numbers_are_not_used_again();
    acknowledged_jobs_are_accounted_for();
    runs_follow_one_another();
}

/// Suppose that jobs go in bundles only, carried by anything. Each command about the other site's
/// jobs that a site is given is of a line `unpack`, or of `settle`, which removes jobs that the
/// bundle has. The bundle of the line is one that the other site said before, or the beginning of
/// one. Then the history keeps to the wire (`keeps`), and the receiver forgets only what the sender
/// said (`forgets`).
pub fn bundles_keep_to_the_wire()
    ensures keeps { (crossing : Crossing) (deeds : List (Deed Side)) → GoesByBundles crossing nothing_said deeds → KeepsToWire crossing nothing_sent (events_of crossing deeds) }
    ensures forgets { (crossing : Crossing) (deeds : List (Deed Side)) → GoesByBundles crossing nothing_said deeds → ForgetsWhatWasSaid crossing nothing_sent (events_of crossing deeds) }
{}

/// A message over several sites, between which jobs come once over each line. The spools of the
/// sites are stopped at any point. The message waits at one of them, or was killed there, or has
/// come to the last, or to one that queued it for another system than the next of the route. There
/// it is, or was removed (`on_its_way`). At the last it is at most once (`never_twice`), and is made
/// from one message only (`apart`).
pub fn messages_come_once_over_sites()
    ensures on_its_way { (chart : Chart) (course : Course) (site line : ℕ) (lines : List ℕ) (job : Job) → IsRoute chart site (line ∷ lines)
        → ComeOnceOverAll chart course (line ∷ lines) → Waited (chart.crossing line) (course.first site) (course.counted site) job
        → IsOnItsWay chart course site (line ∷ lines) job }
    ensures never_twice { (chart : Chart) (course : Course) (lines : List ℕ) (job one other : Job) → ComeOnceOverAll chart course lines
        → CameTo chart course lines job one → CameTo chart course lines job other → one ≡ other }
    ensures apart { (chart : Chart) (course : Course) (lines : List ℕ) (one other last same : Job) → ComeOnceOverAll chart course lines
        → CameTo chart course lines one last → CameTo chart course lines other same → last.number ≡ same.number → one.number ≡ other.number }
{}

/// Stretches of work over the files of several sites, and what these held before the first.
pub trait Sites {
    ghost before: { ℕ → Image };

    ghost stretches: { ℕ → List FileStretch };
}

/// Over any lines between sites with spools in files, each of them stopped at any point, jobs come
/// once, by one choice of the commands that count at each site. So what
/// [`messages_come_once_over_sites`] says about messages holds of what the files keep.
pub fn messages_come_once_in_files<H: Sites>()
    ensures { (chart : Chart) (count : ℕ) (first : ℕ → State) (events : ℕ → List Event) (lines : List ℕ)
        → ((site : ℕ) → site < count → ImageKeeps (H.before site) (first site))
        → ((site : ℕ) → site < count → AllFilesPassed (H.before site) (H.stretches site))
        → AllHandOver chart count first H.before H.stretches events lines
        → ∥ AllComeOnce chart count first H.stretches (λ site. last_left (H.before site) (H.stretches site)) events lines ∥₁ }
{
    states_stay_well_formed();
    runs_follow_one_another();
    jobs_come_once_over_stops();
}

/// Any number of sites, each with a name of its own. Suppose that each command about a neighbour's
/// jobs is of a line whose bundle was said before by any of the sites, or is the beginning of one
/// (`GoAround`). Anything that moves bundles among the sites is a carrier. Then over any lines
/// between sites with spools in files messages come once, as they do in
/// [`messages_come_once_in_files`]. No waiting job would be refused as `Stale` or `Differs`.
pub fn messages_come_once_in_bundles<H: Sites>()
    ensures { (chart : Chart) (name : ℕ → List ℕ) (count : ℕ) (first : ℕ → State) (deeds : List (Deed ℕ)) (lines : List ℕ)
        → AreNamed chart name → AreAmong chart count first lines → GoAround chart name [] deeds → GoOn deeds
        → ((site : ℕ) → site < count → IsInFiles (name site) (first site) (H.before site) (H.stretches site) deeds site)
        → ∥ AllCameInBundles chart count first H.stretches (λ site. last_left (H.before site) (H.stretches site)) deeds lines ∥₁ }
{
    bundles_say_what_may_be_said();
    states_stay_well_formed();
    bundles_keep_to_the_wire();
    messages_come_once_in_files::<H>();
}
