// Why a command is refused.
ghost use Rattle.std.specs.Prelude.{◌≡◌};
ghost use Rattle.uu_core.specs.Refusal.{refusal_code, refusal_name};

use thiserror::Error;

/// Why a command is refused. A refused command changes nothing. If several reasons apply, the
/// refusal is [`Refusal::TooLarge`], or else the first of them in this order.
#[derive(Clone, Copy, Debug, PartialEq, Eq, Error)]
pub enum Refusal {
    /// There is no such system.
    #[error("no such system")]
    NoSystem,
    /// There is no such job.
    #[error("no such job")]
    NoJob,
    /// The job belongs to somebody else.
    #[error("not your job")]
    NotYours,
    /// A job is named twice.
    #[error("a job is named twice")]
    JobTwice,
    /// A job waits for another system.
    #[error("a job of another system")]
    OtherSystem,
    /// A job waits for the system.
    #[error("jobs wait for the system")]
    Busy,
    /// Too many bytes, arguments or jobs.
    #[error("too large")]
    TooLarge,
    /// No job number is left.
    #[error("no job number is left")]
    NumbersOut,
    /// The map entry can't be read.
    #[error("the map entry cannot be read")]
    BadEntry,
    /// The neighbour said that it won't ask for this number again.
    #[error("a number that the neighbour was done with")]
    Stale,
    /// Another job of the neighbour's came under this number.
    #[error("another job came under this number")]
    Differs,
}

impl Refusal {
    /// The refusal's number, from 1 for [`Refusal::NoSystem`] to 11 for [`Refusal::Differs`], in
    /// the order of the variants.
    pub fn code(&self) -> u8
        ensures { result ≡ refusal_code self.now }
    {
        match self {
            Refusal::NoSystem => 1,
            Refusal::NoJob => 2,
            Refusal::NotYours => 3,
            Refusal::JobTwice => 4,
            Refusal::OtherSystem => 5,
            Refusal::Busy => 6,
            Refusal::TooLarge => 7,
            Refusal::NumbersOut => 8,
            Refusal::BadEntry => 9,
            Refusal::Stale => 10,
            Refusal::Differs => 11,
        }
    }

    /// The refusal's name, which is that of its variant.
    pub fn name(&self) -> &'static str
        ensures { result.now ≡ refusal_name self.now }
    {
        match self {
            Refusal::NoSystem => "NoSystem",
            Refusal::NoJob => "NoJob",
            Refusal::NotYours => "NotYours",
            Refusal::JobTwice => "JobTwice",
            Refusal::OtherSystem => "OtherSystem",
            Refusal::Busy => "Busy",
            Refusal::TooLarge => "TooLarge",
            Refusal::NumbersOut => "NumbersOut",
            Refusal::BadEntry => "BadEntry",
            Refusal::Stale => "Stale",
            Refusal::Differs => "Differs",
        }
    }
}
