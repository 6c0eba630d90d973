// Jobs, and who may touch them.
use uu_names::{Grade, Listed, SiteName, Word};
use uu_times::Moment;

/// Who gives a command. The name isn't checked.
#[derive(Debug, Drop)]
pub struct By {
    /// The user's name.
    pub user: Word,
    /// Whether the user may touch the jobs of others.
    pub admin: bool,
}

/// What a job is for (Taylor UUCP 1.07 manual: send, request, execute).
#[derive(Debug, Drop)]
pub enum Kind {
    /// A file goes to the system.
    Send {
        /// The file here.
        source: Word,
        /// The file there.
        target: Word,
    },
    /// A file is fetched from the system.
    Request {
        /// The file there.
        source: Word,
        /// The file here.
        target: Word,
    },
    /// The system runs a command.
    Execute {
        /// The command.
        command: Word,
        /// Its arguments, at most 64.
        arguments: Listed<Word>,
    },
}

/// A job that is handed in.
#[derive(Debug, Drop)]
pub struct NewJob {
    /// The system for which it waits.
    pub system: SiteName,
    /// Its grade.
    pub grade: Grade,
    /// The user that it belongs to.
    pub user: Word,
    /// What it is for.
    pub kind: Kind,
    /// Its bytes, at most 1,048,576.
    pub bytes: Listed<u8>,
    /// When it is handed in.
    pub at: Moment,
}

/// A job of the spool without its bytes.
#[derive(Debug, Drop)]
pub struct JobHead {
    /// Its number, 1 to 4,294,967,294, never used again.
    pub number: u32,
    /// The system for which it waits.
    pub system: SiteName,
    /// Its grade.
    pub grade: Grade,
    /// The user that it belongs to.
    pub user: Word,
    /// What it is for.
    pub kind: Kind,
    /// When it was handed in, or rejuvenated, in UTC seconds.
    pub queued: u64,
    /// How many bytes it has.
    pub size: u32,
}
