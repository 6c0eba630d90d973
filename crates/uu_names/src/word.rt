// Words: the names of users, files and commands, their arguments, and reasons.
ghost use Rattle.std.specs.Prelude.{◌≡◌, ℕ, List, Some, IsTrue, nat_eq, string_bytes};
ghost use Rattle.std.specs.Cmp.{partial_equiv_from_equiv};
ghost use Rattle.std.specs.Cmp.Lexicographic.{pointwise, slice_cmp, nat_list_eq_equiv, nat_list_cmp_total, texts_po, texts_ties};
ghost use Rattle.std.specs.Ordering.{nat_cmp};
ghost use Rattle.std.proofs.Common.{refl};
ghost use Rattle.uu_names.specs.Fault.{AnswersUnlessMemory};
ghost use Rattle.uu_names.specs.Name.{is_word, is_word_byte, word_of};

use crate::fault::NameFault;
use crate::form::Form;
use crate::text::ascii_text;
use std::alloc::{AllocError, Global};
use std::cmp::Ordering;
use std::marker::Model;

/// A word, seen as its bytes: 1 to 255 bytes from 0x21 to 0x7E, the printable characters of ASCII
/// without the space. Users, file names, commands, arguments and reasons are words. Words are
/// ordered by their bytes. (The bytes and the limit are this project's choice.)
#[derive(Debug, Drop)]
pub struct Word {
    text: String,
}

impl Model for Word {
    ghost Value = { List ℕ };

    ghost view = { λ word. string_bytes word.text };

    ghost invariant = { λ word. IsTrue (is_word (string_bytes word.text)) };
}

/// The most bytes of a word.
pub(crate) const MAX_LEN: usize = 255;

pub(crate) fn is_word_byte(byte: u8) -> bool
    ensures { result ≡ is_word_byte byte }
{
    byte.is_ascii_graphic()
}

/// Whether the bytes are a word.
pub fn is_word(bytes: &[u8]) -> bool
    ensures { result ≡ is_word bytes.now }
{
    Form::Word.check(bytes).is_ok()
}

impl Word {
    /// Reads a word. A text with any other byte is [`NameFault::BadWord`] at the first such byte;
    /// the empty text is, too, at 0. Otherwise a text of more than 255 bytes is
    /// [`NameFault::TooLong`].
    pub fn parse(alloc: Global, text: &str) -> Result<Word, NameFault>
        ensures { AnswersUnlessMemory result (word_of text.now) }
    {
        Word::from_bytes(alloc, text.as_bytes())
    }

    /// Reads a word from bytes, as [`Word::parse`] does.
    pub fn from_bytes(alloc: Global, bytes: &[u8]) -> Result<Word, NameFault>
        ensures { AnswersUnlessMemory result (word_of bytes.now) }
    {
        Form::Word.check(bytes)?;
        let text = ascii_text(alloc, bytes)?;
        Ok(Word { text })
    }

    /// The word's text.
    pub fn as_str(&self) -> &str
        ensures text { result.now ≡ self.now }
        ensures word { IsTrue (is_word self.now) }
    {
        self.text.as_str()
    }
}

impl Clone for Word {
    ghost is_clone = { λ word copy. copy ≡ word };

    fn clone(&self) -> Result<Word, AllocError> {
        let text = self.text.clone()?;
        Ok(Word { text })
    }
}

impl PartialEq for Word {
    ghost eq = { pointwise nat_eq };

    ghost laws = { partial_equiv_from_equiv nat_list_eq_equiv };

    fn eq(&self, other: &Word) -> bool {
        self.text == other.text
    }
}

impl Eq for Word {
    ghost laws = { nat_list_eq_equiv };
}

impl PartialOrd for Word {
    ghost partial_cmp = { λ word other. Some (slice_cmp nat_cmp word other) };

    ghost laws = { texts_po };

    fn partial_cmp(&self, other: &Word) -> Option<Ordering> {
        Some(self.cmp(other))
    }
}

impl Ord for Word {
    ghost cmp = { slice_cmp nat_cmp };

    ghost total = { nat_list_cmp_total };

    ghost matches_partial_cmp = { λ _ _. refl };

    ghost matches_eq = { texts_ties };

    fn cmp(&self, other: &Word) -> Ordering {
        self.text.cmp(&other.text)
    }
}
