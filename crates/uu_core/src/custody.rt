// Jobs that a neighbour hands on. A key says which of the neighbour's jobs it is, so that it is
// queued once, no matter how often the neighbour asks.
ghost use Rattle.std.specs.Prelude.{◌≡◌, ℕ, ◌/◌, ◌<◌, SomeIff};
ghost use Rattle.uu_core.specs.Marks.{marks_end};

use std::marker::Model;
use uu_names::SiteName;

/// The first number that isn't a mark.
const MARKS_END: u64 = 9_223_372_036_854_775_808;

/// A mark: a number of 63 bits, seen as that number. It distinguishes jobs that a neighbour hands
/// on under one number. It is made from what doesn't change between two attempts.
#[derive(Clone, Copy, Debug, PartialEq, Eq)]
pub struct Mark {
    number: u64,
}

impl Model for Mark {
    ghost Value = { ℕ };

    ghost view = { λ mark. mark.number };

    ghost invariant = { λ mark. mark.number < marks_end };

    ghost inverse = { λ number. record { number = number } };
}

impl Mark {
    /// The mark of this number, if the number has at most 63 bits.
    pub fn of_number(number: u64) -> Option<Mark>
        ensures { SomeIff result (number < marks_end) number }
    {
        if number < MARKS_END {
            Some(Mark { number })
        } else {
            None
        }
    }

    /// The mark that the first 64 bits of a digest make: all of them except the last.
    pub fn of_digest(bits: u64) -> Mark
        ensures { result ≡ bits / 2 }
    {
        Mark { number: bits / 2 }
    }

    /// The mark's number.
    pub fn number(&self) -> u64
        ensures value { result ≡ self.now }
        ensures range { result < marks_end }
    {
        self.number
    }
}

/// Which of a neighbour's jobs is handed on.
#[derive(Debug, Drop)]
pub struct Key {
    /// The neighbour, as it is known here.
    pub from: SiteName,
    /// The job's number there.
    pub number: u32,
    /// The mark of what is handed in.
    pub mark: Mark,
}

/// A job that was taken from a neighbour.
#[derive(Clone, Copy, Debug)]
pub struct Taken {
    /// Its number there.
    pub number: u32,
    /// The mark of what was handed in.
    pub mark: Mark,
    /// The number that it got here, even if the job is gone since.
    pub job: u32,
}

/// The result for a job that is handed in under a key.
#[derive(Clone, Copy, Debug)]
pub enum HandIn {
    /// It is the first time: the job is queued under this number.
    First(u32),
    /// It was queued before, under this number, and nothing changes.
    Again(u32),
}
