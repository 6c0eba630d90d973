//! What follows from the definitions.
ghost use Rattle.std.specs.Prelude.{◌≡◌, ◌⊎◌, ◌<◌, ℕ, List, ◌∷◌, Some, Contains, All, AllPairs, true};
ghost use Rattle.uu_core.specs.declared.command.Command.TheVariants.{QueueOnce};
ghost use Rattle.uu_core.specs.declared.job.NewJob.{NewJob};
ghost use Rattle.uu_core.specs.declared.refusal.Refusal.TheVariants.{Stale, Differs};
ghost use Rattle.uu_core.specs.State.{Job};
ghost use Rattle.uu_core.specs.Verdict.{verdict};
ghost use Rattle.uu_core.specs.After.{after};
ghost use Rattle.uu_handover.specs.Bundles.{Bundle, Told, IsSaid, settling, settled_of};
ghost use Rattle.uu_handover.specs.Custody.{Crossing, Parcel, parcel_of, key_of, Handed, IsHandedFor, IsQueued, IsNotLost, IsFree};
ghost use Rattle.uu_restored.specs.Restored.{Copy, History, present, Event, MayHappenOn, history_after, IsHistory, IsSpool, IsDone, IsKnown, CountsAnew};

/// Custody goes on after the sender's spool was put back from a copy of an earlier day, if what is
/// put back is renumbered: its next number is above each number that went on the wire, and not
/// below one that the sender said. Copies may be kept, put back and renumbered any number of times.
/// In each history that is reached:
///
/// - No number of the sender's was queued twice (`never_twice`), the queued jobs have different
///   numbers (`apart`), and a parcel that was queued changes nothing any more (`unchanged`).
/// - One number on the wire is that of one parcel (`one_parcel`), and a job of the sender's spool or
///   of a copy that has such a number is that parcel's job (`one_job`).
/// - Let the sender's spool and each copy have a job, or let it have been killed or queued before the
///   copy was made. Then whatever is put back, the job waits at the sender, or was killed in the past
///   of the spool that stands, or was queued (`never_lost`). If each time the newest copy that was kept
///   was put back, all this holds of each job of any copy, for each that gave its number (`known`).
/// - No number is given again that went on the wire, or is that of a job in a copy, or of one that was
///   killed in the past of the spool that stands (`counted_anew`).
/// - What was answered was queued (`answered`). What was queued was made from a parcel with its
///   number (`same`).
/// - If a bundle of the receiver's has a number of a job that waits at the sender, that job was
///   queued, with the mark in the bundle, so it is settled (`settled`).
/// - The receiver refuses no parcel of the wire because it differs from one that it took
///   (`never_differs`).
/// - If the newest copy was put back each time, and the receiver forgot only what the sender had
///   said, then no key prevents a waiting job from getting through, or the job was queued before or
///   killed, maybe in a past that was given up (`free_or_done`). So a job that is stale was queued or
///   killed (`stale_was_done`).
pub fn jobs_of_a_spool_that_was_put_back_come_once()
    ensures never_twice { (crossing : Crossing) (history : History) → IsHistory crossing history
        → AllPairs (λ one other. ¬ (one.number ≡ other.number)) history.world.handed }
    ensures apart { (crossing : Crossing) (history : History) → IsHistory crossing history
        → AllPairs (λ one other. one.job.number < other.job.number) history.world.handed }
    ensures unchanged { (crossing : Crossing) (history : History) (parcel : Parcel) (new : NewJob) → IsHistory crossing history → IsQueued crossing history.world parcel
        → (after history.world.receiver (QueueOnce (key_of crossing parcel) new)).0 ≡ history.world.receiver }
    ensures one_parcel { (crossing : Crossing) (history : History) (one other : Parcel) → IsHistory crossing history
        → Contains history.world.shown one → Contains history.world.shown other → one.number ≡ other.number → one ≡ other }
    ensures one_job { (crossing : Crossing) (history : History) (copy : Copy) (job : Job) (parcel : Parcel) → IsHistory crossing history
        → IsSpool history copy → Contains copy.spool.jobs job → Contains history.world.shown parcel → job.number ≡ parcel.number → parcel_of job ≡ parcel }
    ensures never_lost { (crossing : Crossing) (history : History) (events : List Event) (job : Job) → IsHistory crossing history → MayHappenOn crossing history events
        → job.system ≡ crossing.to → All (IsKnown crossing history.world job) (present history ∷ history.copies) → IsNotLost crossing (history_after crossing history events).world job }
    ensures known { (crossing : Crossing) (history : History) (copy other : Copy) (job : Job) → IsHistory crossing history → history.is_newest ≡ true
        → IsSpool history copy → IsSpool history other → Contains copy.spool.jobs job → job.system ≡ crossing.to → job.number < other.spool.next → IsKnown crossing history.world job other }
    ensures counted_anew { (crossing : Crossing) (history : History) → IsHistory crossing history → CountsAnew history }
    ensures answered { (crossing : Crossing) (history : History) (number : ℕ) → IsHistory crossing history → Contains history.world.answered number
        → (handed : Handed) × Contains history.world.handed handed × (handed.number ≡ number) }
    ensures same { (crossing : Crossing) (history : History) (handed : Handed) → IsHistory crossing history → Contains history.world.handed handed
        → (parcel : Parcel) × Contains history.world.shown parcel × IsHandedFor crossing parcel handed }
    ensures settled { (crossing : Crossing) (history : History) (mark : Parcel → ℕ) (bundle : Bundle) (told : Told) (job : Job) → IsHistory crossing history
        → IsSaid crossing.to crossing.from mark history.world.receiver bundle → Contains bundle.has told → Contains history.world.sender.jobs job → job.system ≡ crossing.to → job.number ≡ told.number
        → IsQueued crossing history.world (parcel_of job) × (told.mark ≡ crossing.mark (parcel_of job))
        × (¬ Contains (after history.world.sender (settling crossing.to crossing.mark history.world.sender bundle)).0.jobs job) }
    ensures never_differs { (crossing : Crossing) (history : History) (parcel : Parcel) (new : NewJob) → IsHistory crossing history → Contains history.world.shown parcel
        → ¬ (verdict history.world.receiver (QueueOnce (key_of crossing parcel) new) ≡ Some Differs) }
    ensures free_or_done { (crossing : Crossing) (history : History) (job : Job) (new : NewJob) → IsHistory crossing history → history.is_newest ≡ true → history.world.is_heard ≡ true
        → Contains history.world.sender.jobs job → job.system ≡ crossing.to → IsFree crossing history.world job new ⊎ IsDone crossing history job }
    ensures stale_was_done { (crossing : Crossing) (history : History) (job : Job) (new : NewJob) → IsHistory crossing history → history.is_newest ≡ true → history.world.is_heard ≡ true
        → Contains history.world.sender.jobs job → job.system ≡ crossing.to → verdict history.world.receiver (QueueOnce (key_of crossing (parcel_of job)) new) ≡ Some Stale
        → IsDone crossing history job }
{}
