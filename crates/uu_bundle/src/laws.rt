//! Laws of the definitions that the contracts cite.
ghost use Rattle.std.specs.Prelude.{◌≡◌, ◌≢◌, ◌+◌, ◌<◌, ◌≤◌, ◌++◌, ◌↔◌, ◌∷◌, ℕ, List, [], All, IsTrue, length};
ghost use Rattle.uu_bundle.specs.Bundles.{AreTaken, IsBundle, IsGiven, answer_front_text, answer_bundle, bundle_text, front_text, heading_of, is_within_limits, most_bundle, packed_bundle, text_with_jobs, text_with_refused};
ghost use Rattle.uu_bundle.specs.Laws.{AreAnswers, IsCutOff, IsFrontOf, IsLongestFront, IsMarked, Marked, marked_text_of};
ghost use Rattle.uu_bundle.specs.Reading.{IsNoBundle, IsRead};
ghost use Rattle.uu_bundle.specs.Texts.{IsHeading, IsRefused, end_text, heading_text};
ghost use Rattle.uu_bundle.specs.declared.bundle.Bundle.{Bundle};
ghost use Rattle.uu_bundle.specs.declared.bundle.Heading.{Heading};
ghost use Rattle.uu_bundle.specs.declared.bundle.Parcel.{Parcel};
ghost use Rattle.uu_bundle.specs.declared.bundle.Refused.{Refused};
ghost use Rattle.uu_core.specs.declared.custody.Taken.{Taken};

/// At most one bundle is read from a text.
pub fn a_text_has_one_bundle()
    ensures { (text : List ℕ) (bundle other : Bundle) → IsRead text bundle → IsRead text other → bundle ≡ other }
{}

/// A bundle that was written is read back exactly.
pub fn written_bundles_are_read()
    ensures { (bundle : Bundle) → IsBundle bundle → IsRead (bundle_text bundle) bundle }
{}

/// If the text of a bundle is cut off at any place, a beginning of the bundle is read. If the first
/// line is cut off, nothing is read.
pub fn cut_bundles_are_fronts()
    ensures front { (bundle read : Bundle) (text : List ℕ) → IsBundle bundle → IsCutOff text (bundle_text bundle) → IsRead text read → IsFrontOf read bundle }
    ensures nothing { (bundle : Bundle) (text : List ℕ) → IsBundle bundle → IsCutOff text (bundle_text bundle) → IsNoBundle text ↔ (length text < length (heading_text (heading_of bundle))) }
{}

/// The text from which a job's mark is made determines all that it says: no two jobs have the same
/// text. (That no two texts have the same mark rests on the digest, and no law says it.)
pub fn texts_tell_apart()
    ensures { (job other : Marked) → IsMarked job → IsMarked other → marked_text_of job ≡ marked_text_of other → job ≡ other }
{}

/// Call `begin_bundle`, `add_job` for one job after the other until one doesn't fit, and
/// `end_bundle`. They write the text of a bundle. It has the first of the taken jobs, and from there
/// on as many as fit in half of so many bytes. It has the first of the waiting jobs, whatever its
/// size, and from there on as many as there is room for in so many bytes. It is never longer than a
/// bundle may be. It has more than so many bytes only if it has no job after the first one.
pub fn pieces_make_a_bundle()
    ensures text { (most : ℕ) (heading : Heading) (taken : List Taken) (jobs : List Parcel) → text_with_jobs most_bundle most (front_text most heading taken) jobs ++ end_text ≡ bundle_text (packed_bundle most heading taken jobs) }
    ensures longest { (most : ℕ) (heading : Heading) (taken : List Taken) → most ≤ most_bundle → IsHeading heading → IsLongestFront most heading taken (front_text most heading taken) }
    ensures some_told { (most : ℕ) (heading : Heading) (taken : List Taken) (jobs : List Parcel) → IsHeading heading → AreTaken taken → taken ≢ [] → (packed_bundle most heading taken jobs).has ≢ [] }
    ensures some_job { (most : ℕ) (heading : Heading) (taken : List Taken) (job : Parcel) (jobs : List Parcel) → most ≤ most_bundle → IsHeading heading → IsGiven heading job → IsTrue (is_within_limits job) → (packed_bundle most heading taken (job ∷ jobs)).jobs ≢ [] }
    ensures sound { (most : ℕ) (heading : Heading) (taken : List Taken) (jobs : List Parcel) → IsHeading heading → AreTaken taken → All (IsGiven heading) jobs → IsBundle (packed_bundle most heading taken jobs) }
    ensures room { (most : ℕ) (heading : Heading) (taken : List Taken) (jobs : List Parcel) → most ≤ most_bundle → IsHeading heading → length (bundle_text (packed_bundle most heading taken jobs)) ≤ most_bundle }
    ensures most { (most : ℕ) (heading : Heading) (taken : List Taken) (jobs : List Parcel) → 1 < length (packed_bundle most heading taken jobs).jobs → length (bundle_text (packed_bundle most heading taken jobs)) ≤ most }
{}

/// Call `begin_answer`, `add_refused` for each job that isn't taken, `add_job` for one job after
/// the other until one doesn't fit, and `end_bundle`. They write the text of a bundle that has all
/// taken jobs and all refused jobs. It is not longer than a bundle may be, if the part with these
/// isn't. It has more than so many bytes only if it has no job after the first one.
pub fn pieces_make_an_answer()
    ensures text { (most : ℕ) (heading : Heading) (taken : List Taken) (refused : List Refused) (jobs : List Parcel) → text_with_jobs most_bundle most (text_with_refused (answer_front_text heading taken) refused) jobs ++ end_text ≡ bundle_text (answer_bundle most heading taken refused jobs) }
    ensures sound { (most : ℕ) (heading : Heading) (taken : List Taken) (refused : List Refused) (jobs : List Parcel) → IsHeading heading → AreTaken taken → All IsRefused refused → All (IsGiven heading) jobs → IsBundle (answer_bundle most heading taken refused jobs) }
    ensures room { (most : ℕ) (heading : Heading) (taken : List Taken) (refused : List Refused) (jobs : List Parcel) → most ≤ most_bundle → length (text_with_refused (answer_front_text heading taken) refused) + length end_text ≤ most_bundle → length (bundle_text (answer_bundle most heading taken refused jobs)) ≤ most_bundle }
    ensures most { (most : ℕ) (heading : Heading) (taken : List Taken) (refused : List Refused) (jobs : List Parcel) → 1 < length (answer_bundle most heading taken refused jobs).jobs → length (bundle_text (answer_bundle most heading taken refused jobs)) ≤ most }
{}

/// The answer to a bundle of at most 4,194,304 bytes has room for its last line. The reason is that
/// each line that says that a job is taken, or isn't, is shorter than the job's record.
pub fn answers_have_room()
    ensures { (heading : Heading) (text : List ℕ) (asked : Bundle) (taken : List Taken) (refused : List Refused) → IsHeading heading → IsRead text asked → length text ≤ most_bundle → AreAnswers asked.jobs taken refused → length (text_with_refused (answer_front_text heading taken) refused) + length end_text ≤ most_bundle }
{}
