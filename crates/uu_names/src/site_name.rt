// The names of sites.
ghost use Rattle.std.specs.Prelude.{◌≡◌, ℕ, List, Some, IsTrue, nat_eq, string_bytes};
ghost use Rattle.std.specs.Cmp.{partial_equiv_from_equiv};
ghost use Rattle.std.specs.Cmp.Lexicographic.{pointwise, slice_cmp, nat_list_eq_equiv, nat_list_cmp_total, texts_po, texts_ties};
ghost use Rattle.std.specs.Ordering.{nat_cmp};
ghost use Rattle.std.proofs.Common.{refl};
ghost use Rattle.uu_names.specs.Fault.{AnswersUnlessMemory};
ghost use Rattle.uu_names.specs.Name.{is_site_name, is_site_byte, site_name_of};

use crate::fault::NameFault;
use crate::form::Form;
use crate::text::ascii_text;
use std::alloc::{AllocError, Global};
use std::cmp::Ordering;
use std::marker::Model;

/// The name of a site, seen as its bytes: 1 to 63 letters, digits, `-`, `_` or `.` of ASCII. Case
/// is kept and compared. Names are ordered by their bytes. (The bytes and the limit are this
/// project's choice.)
#[derive(Debug, Drop)]
pub struct SiteName {
    text: String,
}

impl Model for SiteName {
    ghost Value = { List ℕ };

    ghost view = { λ name. string_bytes name.text };

    ghost invariant = { λ name. IsTrue (is_site_name (string_bytes name.text)) };
}

/// The most bytes of a site name.
pub(crate) const MAX_LEN: usize = 63;

/// Whether a site name may have the byte: a letter or a digit of ASCII, `-`, `_` or `.`.
pub fn is_site_byte(byte: u8) -> bool
    ensures { result ≡ is_site_byte byte }
{
    byte.is_ascii_alphanumeric() || matches!(byte, b'-' | b'_' | b'.')
}

/// Whether the bytes are a site name.
pub fn is_site_name(bytes: &[u8]) -> bool
    ensures { result ≡ is_site_name bytes.now }
{
    Form::SiteName.check(bytes).is_ok()
}

impl SiteName {
    /// Reads a site name. A text with any other byte is [`NameFault::BadName`] at the first such
    /// byte; the empty text is, too, at 0. Otherwise a text of more than 63 bytes is
    /// [`NameFault::TooLong`].
    pub fn parse(alloc: Global, text: &str) -> Result<SiteName, NameFault>
        ensures { AnswersUnlessMemory result (site_name_of text.now) }
    {
        SiteName::from_bytes(alloc, text.as_bytes())
    }

    /// Reads a site name from bytes, as [`SiteName::parse`] does.
    pub fn from_bytes(alloc: Global, bytes: &[u8]) -> Result<SiteName, NameFault>
        ensures { AnswersUnlessMemory result (site_name_of bytes.now) }
    {
        Form::SiteName.check(bytes)?;
        let text = ascii_text(alloc, bytes)?;
        Ok(SiteName { text })
    }

    /// The name's text.
    pub fn as_str(&self) -> &str
        ensures text { result.now ≡ self.now }
        ensures name { IsTrue (is_site_name self.now) }
    {
        self.text.as_str()
    }
}

impl Clone for SiteName {
    ghost is_clone = { λ name copy. copy ≡ name };

    fn clone(&self) -> Result<SiteName, AllocError> {
        let text = self.text.clone()?;
        Ok(SiteName { text })
    }
}

impl PartialEq for SiteName {
    ghost eq = { pointwise nat_eq };

    ghost laws = { partial_equiv_from_equiv nat_list_eq_equiv };

    fn eq(&self, other: &SiteName) -> bool {
        self.text == other.text
    }
}

impl Eq for SiteName {
    ghost laws = { nat_list_eq_equiv };
}

impl PartialOrd for SiteName {
    ghost partial_cmp = { λ name other. Some (slice_cmp nat_cmp name other) };

    ghost laws = { texts_po };

    fn partial_cmp(&self, other: &SiteName) -> Option<Ordering> {
        Some(self.cmp(other))
    }
}

impl Ord for SiteName {
    ghost cmp = { slice_cmp nat_cmp };

    ghost total = { nat_list_cmp_total };

    ghost matches_partial_cmp = { λ _ _. refl };

    ghost matches_eq = { texts_ties };

    fn cmp(&self, other: &SiteName) -> Ordering {
        self.text.cmp(&other.text)
    }
}
