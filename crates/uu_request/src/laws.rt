//! Laws of the definitions that the contracts cite.
ghost use Rattle.std.specs.Prelude.{◌≡◌, ◌↔◌, ◌++◌, ◌∷◌, ℕ, List, All, Bool, IsTrue, Ok, Option};
ghost use Rattle.uu_names.specs.Name.{is_site_name, is_word};
ghost use Rattle.uu_names.specs.Path.{IsPathText, first_hop};
ghost use Rattle.uu_times.specs.declared.moment.Moment.{Moment};
ghost use Rattle.uu_core.specs.declared.command.Command.TheVariants.{Forget};
ghost use Rattle.uu_core.specs.After.{after};
ghost use Rattle.uu_core.specs.TakeIns.{commands_in};
ghost use Rattle.uu_handover.specs.Bundles.{Bundle as SaidBundle, IsFront, IsFrontOf};
ghost use Rattle.uu_bundle.specs.Bundles.{IsBundle, bundle_text};
ghost use Rattle.uu_bundle.specs.Reading.{IsRead};
ghost use Rattle.uu_bundle.specs.declared.bundle.Bundle.{Bundle};
ghost use Rattle.uu_line.specs.declared.task.Task.TheVariants.{Answer, Settle, Unpack};
ghost use Rattle.uu_settings.specs.declared.settings.Settings.{Settings};
ghost use Rattle.uu_request.specs.Carried.{AreUnpacked, bundle_crossing, said_of};
ghost use Rattle.uu_request.specs.Marks.{Given, HasWords, marked_text_of};
ghost use Rattle.uu_request.specs.Requests.{TaskAsks, one};
ghost use Rattle.uu_request.specs.Unpacking.{IsUserAt, is_by_way_of, packing, spool_of};
ghost use Rattle.uu_request.specs.declared.request.Answering.{Answering};
ghost use Rattle.uu_request.specs.declared.request.Settling.{Settling};
ghost use Rattle.uu_request.specs.declared.request.Unpacking.{Unpacking};
ghost use Rattle.uu_request.specs.declared.request.Question.TheVariants as asking;
ghost use Rattle.uu_request.specs.declared.request.Request.TheVariants as request;

use uu_bundle::laws::{a_text_has_one_bundle, cut_bundles_are_fronts, written_bundles_are_read};

/// The text of what is handed in, from which a mark is made, determines all of it: no two have the
/// same text. (That no two texts have the same mark rests on the digest, and no law says it.)
pub fn texts_tell_apart()
    ensures { (one other : Given) → HasWords one → HasWords other → marked_text_of one ≡ marked_text_of other → one ≡ other }
{}

/// A site unpacks a bundle, with any settings, at any moment, and with mail passed on to any
/// systems. Each of the commands is then a step of custody in the crossing of the bundle's two
/// sites. The first forgets what the sender won't hand on again. Each other takes one of the
/// bundle's jobs (`ReceiverTakes`), in their order.
pub fn bundles_are_steps_of_custody()
    ensures { (settings : Settings) (at : Moment) (input user sender : List ℕ) (onward : List (List ℕ)) (it : Unpacking)
        → TaskAsks settings at input user (Unpack sender onward) (Ok (request.Unpacking it))
        → (bundle : Bundle) × IsRead input bundle × (bundle.from ≡ sender) × (bundle.to ≡ settings.name)
        × AreUnpacked (bundle_crossing bundle.from bundle.to bundle.spool) (said_of bundle) (commands_in it.bundle) }
{}

/// Each job of a neighbour's bundle belongs to a user NEIGHBOUR!.., however long the USER is that the
/// bundle names. So a user without a `!` is one of this site's.
pub fn users_of_neighbours_name_them()
    ensures { (settings : Settings) (at : Moment) (input user sender : List ℕ) (onward : List (List ℕ)) (it : Unpacking)
        → IsTrue (is_site_name sender)
        → TaskAsks settings at input user (Unpack sender onward) (Ok (request.Unpacking it))
        → All (λ offered. IsUserAt sender offered.job.user) it.bundle.jobs }
{}

/// Mail is passed on to a system exactly if each address is a bang path whose first site is that
/// system. This includes an address given as a word, if it is such a path.
pub fn mail_goes_on_by_paths()
    ensures { (system address : List ℕ) → IsTrue (is_site_name system) → IsTrue (is_word address)
        → IsTrue (is_by_way_of system address) ↔ (IsPathText address × (first_hop address ≡ system)) }
{}

/// What a site reads of a bundle that was cut off anywhere after its first line is a front of what
/// was said: the same sites and number, the first of the jobs that the other site has, and the first
/// of its own. So a carrier may cut a bundle off at any byte.
pub fn fronts_of_bundles_are_read()
    ensures { (whole read : Bundle) (front cut : List ℕ) → IsBundle whole → front ++ cut ≡ bundle_text whole → IsRead front read
        → IsFrontOf (said_of whole) (said_of read) }
{
    cut_bundles_are_fronts();
    written_bundles_are_read();
    a_text_has_one_bundle();
}

/// If a site unpacks what a carrier brings, cut off anywhere after its first line, it asks what
/// a front of the bundle asks that was said: the bundle was said by the sender and for this site,
/// and the commands are those of its front, in the crossing of these two and the sender's spool.
pub fn what_is_brought_is_unpacked()
    ensures { (whole : Bundle) (front cut : List ℕ) (settings : Settings) (at : Moment) (user sender : List ℕ) (onward : List (List ℕ)) (it : Unpacking)
        → IsBundle whole → front ++ cut ≡ bundle_text whole
        → TaskAsks settings at front user (Unpack sender onward) (Ok (request.Unpacking it))
        → (whole.from ≡ sender) × (whole.to ≡ settings.name)
        × ((bundle : SaidBundle) × IsFrontOf (said_of whole) bundle × AreUnpacked (bundle_crossing whole.from whole.to whole.spool) bundle (commands_in it.bundle)) }
{
    cut_bundles_are_fronts();
    written_bundles_are_read();
    a_text_has_one_bundle();
    fronts_of_bundles_are_read();
    bundles_are_steps_of_custody();
}

/// If a site settles its jobs by what a carrier brings, cut off anywhere after its first line, it
/// asks about the first jobs of which the bundle tells that was said: by the system and for this
/// site.
pub fn what_is_brought_settles()
    ensures { (whole : Bundle) (front cut : List ℕ) (settings : Settings) (at : Moment) (user system : List ℕ) (spool : Option (List ℕ)) (it : Settling)
        → IsBundle whole → front ++ cut ≡ bundle_text whole
        → TaskAsks settings at front user (Settle system spool) (Ok (request.Settling it))
        → (whole.from ≡ system) × (whole.to ≡ settings.name)
        × (it.system ≡ system) × (it.spool ≡ spool_of spool) × IsFront it.has whole.has × IsFront it.refused whole.refused }
{
    cut_bundles_are_fronts();
    written_bundles_are_read();
    a_text_has_one_bundle();
}

/// If a site answers what a carrier brings, cut off anywhere after its first line, it answers a
/// front of the bundle that was said, by the sender and for this site. It asks with the commands of
/// that front's jobs: with one before them that forgets what the sender won't hand on again they are
/// those that `unpack` asks, in the crossing of these two and the sender's spool.
pub fn what_is_brought_is_answered()
    ensures { (whole : Bundle) (front cut : List ℕ) (settings : Settings) (at : Moment) (user sender : List ℕ) (onward : List (List ℕ))
        (grade : ℕ) (spool : Option (List ℕ)) (after most : Option ℕ) (no_jobs : Bool) (it : Answering)
        → IsBundle whole → front ++ cut ≡ bundle_text whole
        → TaskAsks settings at front user (Answer sender onward grade spool after most no_jobs) (Ok (request.Question (asking.Answer it)))
        → (whole.from ≡ sender) × (whole.to ≡ settings.name) × (it.packing ≡ packing sender grade spool after most no_jobs) × (it.asked ≡ whole.grade)
        × ((bundle : SaidBundle) × IsFrontOf (said_of whole) bundle
        × AreUnpacked (bundle_crossing whole.from whole.to whole.spool) bundle (Forget whole.from whole.below ∷ it.commands)) }
{
    cut_bundles_are_fronts();
    written_bundles_are_read();
    a_text_has_one_bundle();
    fronts_of_bundles_are_read();
}
