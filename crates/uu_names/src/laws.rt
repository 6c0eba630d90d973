//! Laws of the definitions that the contracts cite, and what each value of a type keeps.
ghost use Rattle.std.specs.Prelude.{◌≡◌, ◌<◌, ℕ, List, IsTrue};
ghost use Rattle.uu_names.specs.Grade.{grade_count};
ghost use Rattle.uu_names.specs.Name.{is_site_name, is_word};
ghost use Rattle.uu_names.specs.Path.{BangPath, path_text, has_path_form};
ghost use Rattle.uu_names.specs.ReturnPath.{Sender, HasLeadingLines, IsReturnPath};

use crate::{Grade, SiteName, Word};

/// If lengths are ignored, a text is cut into sites and a local part in one way only.
pub fn a_text_has_one_path()
    ensures { (path other : BangPath) → IsTrue (has_path_form path) → IsTrue (has_path_form other) → path_text path ≡ path_text other → path ≡ other }
{}

/// A text has one run of leading lines, and one body starts after it. So it has at most one way
/// back.
pub fn a_text_has_one_way_back()
    ensures run { (text : List ℕ) (senders others : List Sender) (body end : ℕ) → HasLeadingLines text senders body → HasLeadingLines text others end → (senders ≡ others) × (body ≡ end) }
    ensures path { (text path other : List ℕ) (body end : ℕ) → IsReturnPath text path body → IsReturnPath text other end → (path ≡ other) × (body ≡ end) }
{}

/// A value of type [`SiteName`] is a site name.
pub fn name_is_sound(name: &SiteName)
    ensures { IsTrue (is_site_name name.now) }
{
    name.as_str();
}

/// A value of type [`Word`] is a word.
pub fn word_is_sound(word: &Word)
    ensures { IsTrue (is_word word.now) }
{
    word.as_str();
}

/// A value of type [`Grade`] is one of the 62 ranks.
pub fn grade_is_sound(grade: &Grade)
    ensures { grade.now < grade_count }
{
    grade.rank();
}
