//! What follows from the definitions.
ghost use Rattle.std.specs.Prelude.{◌≡◌, ◌⊎◌, ◌<◌, ℕ, List, Option, None, Contains, All, AllPairs, true, map};
ghost use Rattle.uu_core.specs.declared.command.Command.{Command};
ghost use Rattle.uu_core.specs.declared.command.Command.TheVariants.{QueueOnce, Release};
ghost use Rattle.uu_times.specs.declared.moment.Moment.{Moment};
ghost use Rattle.uu_core.specs.declared.job.NewJob.{NewJob};
ghost use Rattle.uu_core.specs.State.{State, Job, IsWellFormed, has_system};
ghost use Rattle.uu_handover.specs.Bundles.{Bundle, Told, Packed, packed_of, has_of, AreWaiting, AreSomeWaiting, IsFront, IsSaid, settled_of, settling, BundleExchange, IsOfJob, GoesOrIsRefused};
ghost use Rattle.uu_handover.specs.Custody.{Crossing, World, Parcel, Handed, Step, parcel_of, key_of, MayGo, MayGoOn, world_after, IsReached, IsHandedFor, IsQueued, IsNotLost, IsFree, IsLeast, least_of, MayCross};
ghost use Rattle.uu_handover.specs.Custody.Step.{SenderRuns, SenderShows, SenderSays, ReceiverTells};
ghost use Rattle.uu_core.specs.Verdict.{verdict};
ghost use Rattle.uu_core.specs.After.{after};
ghost use Rattle.uu_core.specs.Run.{state_after};

/// Custody: jobs are handed on under keys over a wire. The wire keeps everything, repeats it, and
/// changes its order. Meanwhile both sites run any other commands and serve their other neighbours.
/// In each world that is reached:
///
/// - No number of the sender's was queued twice (`never_twice`), the queued jobs have different
///   numbers (`apart`), and a parcel that was queued changes nothing any more (`unchanged`).
/// - A job that waits for the receiver waits later too, or was killed, or was queued
///   (`never_lost`).
/// - What was answered, or said to be taken, was queued (`answered`). What was queued was made from
///   a parcel with its number (`same`).
/// - If the receiver forgot only what the sender had said, no key prevents a waiting job from
///   getting through (`gets_through`). The sender may say the number of the first such job at any
///   time (`may_say`).
/// - If the receiver accepts the job, steps may follow after which it has queued it and the job no
///   longer waits (`crosses`).
pub fn handed_on_jobs_come_once()
    ensures never_twice { (crossing : Crossing) (world : World) → IsReached crossing world → AllPairs (λ one other. ¬ (one.number ≡ other.number)) world.handed }
    ensures apart { (crossing : Crossing) (world : World) → IsReached crossing world → AllPairs (λ one other. one.job.number < other.job.number) world.handed }
    ensures unchanged { (crossing : Crossing) (world : World) (parcel : Parcel) (new : NewJob) → IsReached crossing world → IsQueued crossing world parcel
        → (after world.receiver (QueueOnce (key_of crossing parcel) new)).0 ≡ world.receiver }
    ensures never_lost { (crossing : Crossing) (world : World) (steps : List Step) (job : Job) → IsReached crossing world → MayGoOn crossing world steps
        → Contains world.sender.jobs job → job.system ≡ crossing.to → IsNotLost crossing (world_after crossing world steps) job }
    ensures answered { (crossing : Crossing) (world : World) (number : ℕ) → IsReached crossing world → Contains world.answered number
        → (handed : Handed) × Contains world.handed handed × (handed.number ≡ number) }
    ensures same { (crossing : Crossing) (world : World) (handed : Handed) → IsReached crossing world → Contains world.handed handed
        → (parcel : Parcel) × Contains world.shown parcel × IsHandedFor crossing parcel handed }
    ensures gets_through { (crossing : Crossing) (world : World) (job : Job) (new : NewJob) → IsReached crossing world → world.is_heard ≡ true
        → Contains world.sender.jobs job → job.system ≡ crossing.to → IsFree crossing world job new }
    ensures may_say { (crossing : Crossing) (sender : State) → IsWellFormed sender → IsLeast crossing sender (least_of crossing sender) }
    ensures crosses { (crossing : Crossing) (world : World) (job : Job) (new : NewJob) (at : Moment) → IsReached crossing world
        → Contains world.sender.jobs job → job.system ≡ crossing.to → crossing.makes (parcel_of job) new ≡ true
        → verdict world.receiver (QueueOnce (key_of crossing (parcel_of job)) new) ≡ None → has_system world.sender crossing.to ≡ true → MayCross crossing world job }
{}

/// Custody allows what a site says in a bundle: the number below which it won't ask again
/// (`below`), each job that waits (`jobs`), and each of the neighbour's jobs that it has (`has`).
///
/// Each number that it has is that of a job that was handed in (`handed_in`). If a job of that
/// number still waits at the neighbour, it is the job that was queued, with the mark in the bundle
/// (`same`). So it is settled (`settles`). What is settled was in the bundle, and is such a job
/// (`settled`). The state determines the order of the jobs (`one_order`). A bundle may show any
/// number of them from the first on (`fronts`).
pub fn bundles_say_what_may_be_said()
    ensures below { (crossing : Crossing) (world : World) (mark : Parcel → ℕ) (bundle : Bundle) (first : State) (commands : List Command) → IsWellFormed first
        → world.sender ≡ state_after first commands → IsSaid crossing.from crossing.to mark world.sender bundle → MayGo crossing world (SenderSays bundle.below) }
    ensures jobs { (crossing : Crossing) (world : World) (mark : Parcel → ℕ) (bundle : Bundle) (packed : Packed) → IsSaid crossing.from crossing.to mark world.sender bundle
        → Contains bundle.jobs packed → (job : Job) × MayGo crossing world (SenderShows job) × (packed ≡ packed_of mark job) }
    ensures has { (crossing : Crossing) (world : World) (mark : Parcel → ℕ) (bundle : Bundle) (told : Told) → IsSaid crossing.to crossing.from mark world.receiver bundle
        → Contains bundle.has told → MayGo crossing world (ReceiverTells told.number) }
    ensures handed_in { (crossing : Crossing) (world : World) (mark : Parcel → ℕ) (bundle : Bundle) (told : Told) → IsReached crossing world
        → IsSaid crossing.to crossing.from mark world.receiver bundle → Contains bundle.has told → (handed : Handed) × Contains world.handed handed × (handed.number ≡ told.number) }
    ensures same { (crossing : Crossing) (world : World) (mark : Parcel → ℕ) (bundle : Bundle) (told : Told) (job : Job) → IsReached crossing world
        → IsSaid crossing.to crossing.from mark world.receiver bundle → Contains bundle.has told → Contains world.sender.jobs job → job.number ≡ told.number
        → IsQueued crossing world (parcel_of job) × (told.mark ≡ crossing.mark (parcel_of job)) }
    ensures settles { (crossing : Crossing) (world : World) (mark : Parcel → ℕ) (bundle : Bundle) (told : Told) (job : Job) → IsReached crossing world
        → IsSaid crossing.to crossing.from mark world.receiver bundle → Contains bundle.has told → Contains world.sender.jobs job → job.system ≡ crossing.to → job.number ≡ told.number
        → Contains (settled_of crossing.to crossing.mark world.sender bundle.has) job.number }
    ensures settled { (system : List ℕ) (mark : Parcel → ℕ) (state : State) (has : List Told) (number : ℕ) → Contains (settled_of system mark state has) number
        → (told : Told) × Contains has told × (told.number ≡ number) × ((job : Job) × Contains state.jobs job × (job.system ≡ system) × (job.number ≡ number) × (mark (parcel_of job) ≡ told.mark)) }
    ensures one_order { (system : List ℕ) (lowest after : Option ℕ) (state : State) (one other : List Job)
        → AreWaiting system lowest after state one → AreWaiting system lowest after state other → one ≡ other }
    ensures fronts { (system : List ℕ) (lowest after : Option ℕ) (state : State) (waiting first : List Job)
        → AreWaiting system lowest after state waiting → IsFront first waiting → AreSomeWaiting system state first }
{}

/// What is settled may go: custody allows it if everything that the bundle has was answered
/// (`may_go`). The command that removes it is never refused (`accepted`). Of the jobs that it
/// names, those that wait for the system are removed (`gone`). A job that waits for another system,
/// or isn't named, stays as it is (`stays`), and so does everything except the jobs (`same`).
pub fn settled_jobs_may_be_reported()
    ensures may_go { (crossing : Crossing) (world : World) (mark : Parcel → ℕ) (bundle : Bundle) → All (λ told. Contains world.answered told.number) bundle.has
        → MayGo crossing world (SenderRuns (settling crossing.to mark world.sender bundle)) }
    ensures accepted { (state : State) (system numbers : List ℕ) → verdict state (Release system numbers) ≡ None }
    ensures gone { (state : State) (system numbers : List ℕ) (job : Job) → Contains numbers job.number → job.system ≡ system → ¬ Contains (after state (Release system numbers)).0.jobs job }
    ensures stays { (state : State) (system numbers : List ℕ) (job : Job) → Contains state.jobs job → (¬ Contains numbers job.number ⊎ ¬ (job.system ≡ system))
        → Contains (after state (Release system numbers)).0.jobs job }
    ensures same { (state : State) (system numbers : List ℕ) → (after state (Release system numbers)).0 ≡ record state { jobs = (after state (Release system numbers)).0.jobs } }
{}

/// Each exchange makes progress. A bundle is unpacked, the bundle that answers it comes back, and
/// what it has is settled. Then a job that the bundle showed, and that waits as it did, no longer
/// waits, or the answer says why it is refused (`goes`). If the bundle shows all jobs that wait,
/// this holds for all of them (`all`). No job goes that the neighbour didn't take under its number
/// and its mark (`taken`).
pub fn jobs_go_or_are_refused()
    ensures goes { (to : List ℕ) (mark : Parcel → ℕ) (sender : State) (bundle : Bundle) (exchange : BundleExchange bundle) (packed : Packed) (job : Job)
        → Contains bundle.jobs packed → Contains sender.jobs job → job.system ≡ to → IsOfJob mark job packed → GoesOrIsRefused to mark sender exchange.answer job }
    ensures all { (to : List ℕ) (mark : Parcel → ℕ) (sender : State) (bundle : Bundle) (exchange : BundleExchange bundle) (waiting : List Job)
        → AreWaiting to None None sender waiting → bundle.jobs ≡ map (packed_of mark) waiting → All (GoesOrIsRefused to mark sender exchange.answer) waiting }
    ensures taken { (to : List ℕ) (mark : Parcel → ℕ) (sender : State) (bundle : Bundle) (exchange : BundleExchange bundle) (job : Job)
        → IsWellFormed sender → Contains sender.jobs job → ¬ Contains (after sender (settling to mark sender exchange.answer)).0.jobs job
        → Contains (has_of exchange.from exchange.later) (record { number = job.number; mark = mark (parcel_of job) }) }
{}
