// The forms of texts without blanks: site names and words.
ghost use Rattle.std.specs.Prelude.{◌≡◌, Ok, Err, MatchResult, not, position};
ghost use Rattle.uu_names.specs.Internal.Form.{allows, limit_of, bad_at, text_of};

use crate::fault::NameFault;
use crate::site_name::{self, is_site_byte};
use crate::word::{self, is_word_byte};

/// What a text is read as.
#[derive(Clone, Copy)]
pub(crate) enum Form {
    SiteName,
    Word,
}

impl Form {
    // Whether a text of the form may have the byte.
    fn allows(self, byte: u8) -> bool
        ensures { result ≡ allows self byte }
    {
        match self {
            Form::SiteName => is_site_byte(byte),
            Form::Word => is_word_byte(byte),
        }
    }

    // The most bytes of a text of the form.
    fn limit(self) -> usize
        ensures { result ≡ limit_of self }
    {
        match self {
            Form::SiteName => site_name::MAX_LEN,
            Form::Word => word::MAX_LEN,
        }
    }

    // The fault of a text that isn't of the form, because of the byte at this offset.
    fn bad_at(self, at: usize) -> NameFault
        ensures { result ≡ bad_at self at }
    {
        match self {
            Form::SiteName => NameFault::BadName(at),
            Form::Word => NameFault::BadWord(at),
        }
    }

    fn first_refused(self, bytes: &[u8]) -> Option<usize>
        ensures { result ≡ position (λ byte. not (allows self byte)) bytes.now }
    {
        bytes.iter().position(|byte| !self.allows(*byte))
    }

    /// Whether the bytes are a text of the form, and if not, why.
    pub(crate) fn check(self, bytes: &[u8]) -> Result<(), NameFault>
        ensures { MatchResult result (λ _. text_of self bytes.now ≡ Ok bytes.now)
            (λ fault. text_of self bytes.now ≡ Err fault) }
    {
        match self.first_refused(bytes) {
            Some(at) => Err(self.bad_at(at)),
            None if bytes.is_empty() => Err(self.bad_at(0)),
            None if bytes.len() > self.limit() => Err(NameFault::TooLong),
            None => Ok(()),
        }
    }
}
