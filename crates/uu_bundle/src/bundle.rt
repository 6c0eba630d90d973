// What two sites say to each other in one text.
use uu_core::{Kind, Mark, Refusal};
use uu_names::{Grade, Listed, SiteName, Word};

/// A job of the receiver that the sender has taken.
#[derive(Clone, Copy, Debug)]
pub struct Told {
    /// Its number at the receiver.
    pub number: u32,
    /// The mark of what was handed in.
    pub mark: Mark,
}

/// A job of the receiver that the sender won't take.
#[derive(Clone, Copy, Debug)]
pub struct Refused {
    /// Its number at the receiver.
    pub number: u32,
    /// The mark of what was handed in.
    pub mark: Mark,
    /// Why it isn't taken.
    pub reason: Refusal,
}

/// A job that is handed on.
#[derive(Debug, Drop)]
pub struct Parcel {
    /// Its number at the sender, from 1.
    pub number: u32,
    /// Its mark: that of the fields here.
    pub mark: Mark,
    /// Its grade.
    pub grade: Grade,
    /// The user that it belongs to.
    pub user: Word,
    /// What it is for.
    pub kind: Kind,
    /// Its bytes, at most 1,048,576.
    pub bytes: Listed<u8>,
}

/// What was read as a bundle.
#[derive(Debug, Drop)]
pub struct Bundle {
    /// The site that sends it.
    pub from: SiteName,
    /// The site for which it is.
    pub to: SiteName,
    /// Which of the sender's spools numbers these jobs.
    pub spool: Word,
    /// The number below which the sender won't ask again for a job of its own.
    pub below: u32,
    /// The grade of the answer: the sender asks for jobs of this grade and of higher ones.
    pub grade: Grade,
    /// The receiver's jobs that the sender has, in the order of the text.
    pub has: Listed<Told>,
    /// The receiver's jobs that the sender won't take, in the order of the text.
    pub refused: Listed<Refused>,
    /// The sender's jobs for the receiver, in the order of the text.
    pub jobs: Listed<Parcel>,
    /// The line, counted from 1, at which reading ended, unless that was the last `end`.
    pub stopped: Option<u32>,
}

/// What the first line of a bundle says. The fields are those of [`Bundle`].
#[derive(Drop)]
pub struct Heading {
    /// The site that sends it.
    pub from: SiteName,
    /// The site for which it is.
    pub to: SiteName,
    /// Which of the sender's spools numbers its jobs.
    pub spool: Word,
    /// The number below which the sender won't ask again for a job of its own.
    pub below: u32,
    /// The grade of the answer.
    pub grade: Grade,
}

/// A record: what comes after the first line, one after the other.
#[derive(Drop)]
pub enum Record {
    /// The sender has this job of the receiver.
    Has(Told),
    /// The sender won't take this job of the receiver.
    No(Refused),
    /// A job of the sender.
    Job(Parcel),
}
