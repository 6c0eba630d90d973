// Jobs and their bytes, which earlier versions have in pieces.
ghost use Rattle.std.specs.Prelude.{◌≡◌, true};
ghost use Rattle.std.specs.List.{list_all};
ghost use Rattle.uu_names.specs.Name.{is_word};
ghost use Rattle.uu_core.specs.WellFormed.{HasWords};
ghost use Rattle.uu_tables.specs.Heads.{kind_in};
ghost use Rattle.uu_core.specs.declared.job.JobHead.{JobHead};
ghost use Rattle.uu_check.specs.Tests.{is_kind, is_head, are_cut, owns_piece, fits_job, owns_body, fits_body, job_before};

use crate::walk::{Owner, Ranked};
use uu_core::limits::{MAX_ARGUMENTS, MAX_BYTES};
use uu_core::{JobHead, Kind};
use uu_names::Word;
use uu_names::laws::{grade_is_sound, name_is_sound, word_is_sound};
use uu_tables::{BodySize, HeadColumns, KindColumns, PIECE_BYTES, Piece};
use uu_times::moment::LAST_SECOND;

fn words_are_words(words: &[Word])
    ensures { list_all is_word words.now ≡ true }
{
    for word in words {
        word_is_sound(word);
    }
}

fn is_kind(kind: &Kind) -> bool
    ensures { result ≡ is_kind kind.now }
{
    match kind {
        Kind::Send { source, target } | Kind::Request { source, target } => {
            word_is_sound(source);
            word_is_sound(target);
            true
        }
        Kind::Execute { command, arguments } => {
            word_is_sound(command);
            words_are_words(arguments.as_slice());
            arguments.as_slice().len() <= MAX_ARGUMENTS
        }
    }
}

fn is_head(head: &JobHead) -> bool
    ensures { result ≡ is_head head.now }
{
    name_is_sound(&head.system);
    word_is_sound(&head.user);
    grade_is_sound(&head.grade);
    head.number >= 1 && head.queued <= LAST_SECOND && head.size <= MAX_BYTES && is_kind(&head.kind)
}

// The same of a kind whose words are borrowed.
fn is_borrowed_kind(kind: &KindColumns<'_>) -> bool
    requires { HasWords (kind_in kind.now) }
    ensures { result ≡ is_kind (kind_in kind.now) }
{
    match kind {
        KindColumns::Execute { arguments, .. } => {
            words_are_words(arguments.as_slice());
            arguments.as_slice().len() <= MAX_ARGUMENTS
        }
        _ => true,
    }
}

// The same of a head whose words are borrowed.
fn is_borrowed_head(head: &HeadColumns<'_>) -> bool
    ensures { result ≡ is_head head.now }
{
    grade_is_sound(&head.grade);
    head.number >= 1
        && head.queued <= LAST_SECOND
        && head.size <= MAX_BYTES
        && is_borrowed_kind(&head.kind)
}

fn are_cut(size: u32, pieces: &[Piece]) -> bool
    ensures { result ≡ are_cut 0 size pieces.now }
{
    let mut left = size;
    let mut place = 0;
    for piece in pieces {
        let whole = left.min(PIECE_BYTES as u32);
        if piece.place as usize != place
            || left == 0
            || piece.bytes.as_slice().len() != whole as usize
        {
            return false;
        }
        left -= whole;
        place += 1;
    }
    left == 0
}

impl Owner<Piece> for JobHead {
    ghost owns = { owns_piece };

    ghost fits = { fits_job };

    fn owns(&self, child: &Piece) -> bool {
        child.job == self.number
    }

    fn fits(&self, children: &[Piece]) -> bool {
        is_head(self) && are_cut(self.size, children)
    }
}

impl<'a> Owner<BodySize> for HeadColumns<'a> {
    ghost owns = { owns_body };

    ghost fits = { fits_body };

    fn owns(&self, child: &BodySize) -> bool {
        child.job == self.number
    }

    fn fits(&self, children: &[BodySize]) -> bool {
        match children {
            [one] => is_borrowed_head(self) && one.length == self.size,
            _ => false,
        }
    }
}

impl Ranked for JobHead {
    ghost before = { job_before };

    fn before(&self, other: &JobHead) -> bool {
        self.number < other.number
    }
}

impl<'a> Ranked for HeadColumns<'a> {
    ghost before = { job_before };

    fn before(&self, other: &HeadColumns<'a>) -> bool {
        self.number < other.number
    }
}

/// A job's head, which owns its names and words or borrows them.
pub(crate) trait Head {
    ghost head: { Self → JobHead };

    /// Its number.
    fn number(&self) -> u32
        ensures { result ≡ (head self.now).number };

    /// The system for which it waits.
    fn system(&self) -> &[u8]
        ensures { result.now ≡ (head self.now).system };
}

impl Head for JobHead {
    ghost head = { λ job. job };

    fn number(&self) -> u32 {
        self.number
    }

    fn system(&self) -> &[u8] {
        self.system.as_str().as_bytes()
    }
}

impl<'a> Head for HeadColumns<'a> {
    ghost head = { λ job. job };

    fn number(&self) -> u32 {
        self.number
    }

    fn system(&self) -> &[u8] {
        self.system
    }
}
