// The urgency of a job.
ghost use Rattle.std.specs.Prelude.{◌≡◌, ℕ, ◌<◌, Some, ok_or, slice_get, SomeIff};
ghost use Rattle.uu_names.specs.Grade.{rank_of, grade_bytes, grade_count, default_grade};

use crate::fault::NameFault;
use std::marker::Model;

/// How many grades there are.
const COUNT: u8 = 62;

/// A grade: one digit or letter of ASCII, seen as its rank. `0` to `9` come first, then `A` to `Z`,
/// then `a` to `z`, with the ranks 0 to 61. A lower rank is a higher grade, so grades are ordered
/// by rank, the most urgent first (Taylor UUCP 1.07 manual, on grades).
#[derive(Clone, Copy, Debug, PartialEq, Eq, PartialOrd, Ord, Hash)]
pub struct Grade {
    rank: u8,
}

impl Model for Grade {
    ghost Value = { ℕ };

    ghost view = { λ grade. grade.rank };

    ghost invariant = { λ grade. grade.rank < grade_count };

    ghost inverse = { λ rank. record { rank = rank } };
}

impl Grade {
    /// Reads a grade. Any byte except a digit or a letter is [`NameFault::BadGrade`].
    pub fn parse(byte: u8) -> Result<Grade, NameFault>
        ensures { result ≡ ok_or (rank_of byte) NameFault.BadGrade }
    {
        match byte {
            b'0'..=b'9' => Ok(Grade { rank: byte - b'0' }),
            b'A'..=b'Z' => Ok(Grade {
                rank: byte - b'A' + 10,
            }),
            b'a'..=b'z' => Ok(Grade {
                rank: byte - b'a' + 36,
            }),
            _ => Err(NameFault::BadGrade),
        }
    }

    /// The grade of this rank, if the rank is at most 61.
    pub fn of_rank(rank: u8) -> Option<Grade>
        ensures { SomeIff result (rank < grade_count) rank }
    {
        if rank < COUNT {
            Some(Grade { rank })
        } else {
            None
        }
    }

    /// The rank, from 0 to 61.
    pub fn rank(&self) -> u8
        ensures value { result ≡ self.now }
        ensures range { result < grade_count }
    {
        self.rank
    }

    /// The digit or letter.
    pub fn as_byte(&self) -> u8
        ensures letter { slice_get grade_bytes self.now ≡ Some result }
        ensures reads_back { rank_of result ≡ Some self.now }
    {
        match self.rank {
            0..=9 => b'0' + self.rank,
            10..=35 => b'A' + (self.rank - 10),
            _ => b'a' + (self.rank - 36),
        }
    }
}

impl Default for Grade {
    ghost is_default = { λ grade. rank_of default_grade ≡ Some grade };

    /// The grade `N`.
    fn default() -> Grade {
        Grade { rank: 23 }
    }
}
