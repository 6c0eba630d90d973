//! Why the program can't work at a site.

ghost use Rattle.std.specs.Prelude.{◌≤◌};

use std::alloc::{AllocError, AllocFailed};
use std::{fmt, io};
use thiserror::Error;

/// Why the program can't work at a site. Its text is that of its line on standard error, without
/// the program's name.
#[derive(Debug, Drop, Error)]
pub enum SiteFault {
    /// Out of memory.
    #[error("out of memory")]
    Memory,
    /// The variable that names the folder of the site isn't UTF-8.
    #[error("cannot read UUSPOOL_DIR: it is not UTF-8")]
    Variable,
    /// A file or a folder could not be read.
    #[error("cannot read {path}: {error}")]
    Read {
        path: String,
        error: io::Error,
    },
    /// A file could not be made or written.
    #[error("cannot write {path}: {error}")]
    Write {
        path: String,
        error: io::Error,
    },
    /// What is at the path of a file to be read is none, such as a pipe, which might never end.
    #[error("cannot read {path}: it is not a regular file")]
    UnreadKind {
        path: String,
    },
    /// What is at the path of a file to be written is none.
    #[error("cannot write {path}: it is not a regular file")]
    UnwrittenKind {
        path: String,
    },
    /// The system's settings file could not be read, and the one of the working directory was passed
    /// over.
    #[error("cannot read {path}: {error}; {passed} was passed over, because {why}: -c {passed} takes it")]
    NoSettings {
        path: String,
        error: io::Error,
        passed: String,
        why: Doubt,
    },
    /// The folder of the spool belongs to another user.
    #[error("{path} is not a folder of this user: it belongs to user {owner}, and this is user {user}")]
    Owner {
        path: String,
        owner: u32,
        user: u32,
    },
    /// Others than its owner may write the folder of the spool.
    #[error("{path} may be written by others: chmod go-w {path}")]
    Shared {
        path: String,
    },
    /// A path has a line feed, so it can't be printed on a line.
    #[error("cannot print the path of {what}: it has a line feed")]
    Feed {
        what: &'static str,
    },
    /// Another process had the turn all the time.
    #[error("no turn within {seconds} seconds: {holder} has {path}")]
    Turn {
        path: String,
        seconds: u64,
        holder: Holder,
    },
    /// The spool isn't there, or isn't what it has to be.
    #[error("spool: store: {path} {lack}")]
    Spool {
        path: String,
        lack: Lack,
    },
    /// The file of the spool's word could not be read.
    #[error("cannot read {path}: {error}: it names this spool in bundles, and comes from a backup, or from init if no neighbour has a bundle of it")]
    NoWord {
        path: String,
        error: io::Error,
    },
    /// The file of the spool's word has no word.
    #[error("cannot read {path}: it has not one word")]
    BadWord {
        path: String,
    },
}

/// Why a file or a folder isn't this user's alone.
#[derive(Clone, Copy, Debug, PartialEq, Eq)]
pub enum Access {
    /// It belongs to another user.
    Owner { owner: u32, user: u32 },
    /// Others than its owner may write it.
    Shared,
}

impl fmt::Display for Access {
    fn fmt<W: fmt::Write>(&self, f: &mut fmt::Formatter<W>) -> fmt::Result {
        match self {
            Access::Owner { owner, user } => {
                write!(f, "belongs to user {owner}, and this is user {user}")
            }
            Access::Shared => f.write_str("may be written by others"),
        }
    }
}

/// Why the settings file of the working directory isn't used.
#[derive(Clone, Copy, Debug, PartialEq, Eq)]
pub enum Doubt {
    /// The file isn't this user's alone.
    File(Access),
    /// The folder isn't this user's alone.
    Folder(Access),
}

impl fmt::Display for Doubt {
    fn fmt<W: fmt::Write>(&self, f: &mut fmt::Formatter<W>) -> fmt::Result {
        match self {
            Doubt::File(access) => write!(f, "it {access}"),
            Doubt::Folder(access) => write!(f, "its folder {access}"),
        }
    }
}

/// The process that has the turn, if its number is known.
#[derive(Clone, Copy, Debug, PartialEq, Eq)]
pub struct Holder(pub Option<u32>);

impl fmt::Display for Holder {
    fn fmt<W: fmt::Write>(&self, f: &mut fmt::Formatter<W>) -> fmt::Result {
        match self.0 {
            Some(number) => write!(f, "process {number}"),
            None => f.write_str("another process"),
        }
    }
}

/// What is wrong with a file of the spool.
#[derive(Clone, Copy, Debug, PartialEq, Eq)]
pub enum Lack {
    /// It isn't there.
    Missing,
    /// It has no bytes.
    Empty,
    /// It is a symbolic link.
    Link,
    /// It isn't a regular file.
    Kind,
    /// It has a second name, a hard link.
    Names,
    /// It is a rollback journal that SQLite left.
    Journal,
    /// It is the log of a database that isn't there.
    Alone,
}

impl fmt::Display for Lack {
    fn fmt<W: fmt::Write>(&self, f: &mut fmt::Formatter<W>) -> fmt::Result {
        f.write_str(lack_text(*self))
    }
}

fn lack_text(lack: Lack) -> &'static str {
    match lack {
        Lack::Missing => {
            "is missing: a lost spool comes from a backup, and uuspool init makes the first one of a site"
        }
        Lack::Empty => {
            "is empty: a lost spool comes from a backup, and uuspool init makes the first one of a site"
        }
        Lack::Link => "is a symbolic link: put the file itself there, or name it in the settings",
        Lack::Kind => "is not a regular file",
        Lack::Names => "has a second name, a hard link: put a copy in its place",
        Lack::Journal => "was left by sqlite3: open the spool once with sqlite3",
        Lack::Alone => "is there without its database: put that back from a backup",
    }
}

impl From<AllocError> for SiteFault {
    ghost use Rattle.std.specs.Prelude.{◌≡◌};
    ghost use Rattle.uu_site.specs.declared.fault.SiteFault.TheVariants.{Memory};

    ghost from_gives = { λ _ fault. fault ≡ Memory };

    fn from(_error: AllocError) -> SiteFault {
        SiteFault::Memory
    }
}

impl<T: Drop> From<AllocFailed<T>> for SiteFault {
    ghost use Rattle.std.specs.Prelude.{◌≡◌};
    ghost use Rattle.uu_site.specs.declared.fault.SiteFault.TheVariants.{Memory};

    ghost from_gives = { λ _ fault. fault ≡ Memory };

    fn from(_error: AllocFailed<T>) -> SiteFault {
        SiteFault::Memory
    }
}

impl SiteFault {
    /// The exit status of the program for this fault: 3 if the spool can't be used now, 4 for out
    /// of memory, 5 for what can't be read or written.
    pub fn status(&self) -> u8
        ensures { (3 ≤ result) × (result ≤ 5) }
    {
        match self {
            SiteFault::Memory => 4,
            SiteFault::Turn { .. } | SiteFault::Spool { .. } => 3,
            SiteFault::Variable
            | SiteFault::Read { .. }
            | SiteFault::Write { .. }
            | SiteFault::UnreadKind { .. }
            | SiteFault::UnwrittenKind { .. }
            | SiteFault::NoSettings { .. }
            | SiteFault::Feed { .. }
            | SiteFault::Owner { .. }
            | SiteFault::Shared { .. }
            | SiteFault::NoWord { .. }
            | SiteFault::BadWord { .. } => 5,
        }
    }

    /// A file of this path could not be read.
    pub(crate) fn read(path: String, error: io::Error) -> SiteFault {
        if error.kind() == io::ErrorKind::OutOfMemory {
            return SiteFault::Memory;
        }
        SiteFault::Read { path, error }
    }

    /// A file of this path could not be made or written.
    pub(crate) fn write(path: String, error: io::Error) -> SiteFault {
        if error.kind() == io::ErrorKind::OutOfMemory {
            return SiteFault::Memory;
        }
        SiteFault::Write { path, error }
    }
}
