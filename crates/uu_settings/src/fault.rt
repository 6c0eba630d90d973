//! Why a text isn't the settings of a site.
ghost use Rattle.std.specs.Prelude.{◌≡◌};
ghost use Rattle.uu_settings.specs.declared.fault.SettingsFault.TheVariants.{Memory};
ghost use Rattle.uu_settings.specs.Fault.{fault_code, key_name};

use std::alloc::{AllocError, AllocFailed};
use std::fmt;
use thiserror::Error;

/// A key of the settings.
#[derive(Clone, Copy, Debug, PartialEq, Eq)]
pub enum Key {
    /// `name`: the name of this site, a text.
    Name,
    /// `offset`: the minutes that local time is ahead of UTC, a whole number from -1439 to 1439.
    Offset,
    /// `zone`: the POSIX rule of the site's clock, a text, instead of `offset`.
    Zone,
    /// `spool`: the path of the spool's file, a text of one byte or more.
    Spool,
    /// `admins`: the users who may change jobs of others, an array of words.
    Admins,
    /// `seals`: the folder with the keys of neighbours, a text of one byte or more.
    Seals,
    /// `limit`: the bytes of the spool's file beyond which nothing is added, a whole number from
    /// 1,048,576.
    Limit,
}

impl Key {
    /// The key as it is written in the settings.
    pub fn name(&self) -> &'static str
        ensures { result.now ≡ key_name self.now }
    {
        match self {
            Key::Name => "name",
            Key::Offset => "offset",
            Key::Zone => "zone",
            Key::Spool => "spool",
            Key::Admins => "admins",
            Key::Seals => "seals",
            Key::Limit => "limit",
        }
    }
}

/// Why a text isn't a TOML document, and in which line.
#[derive(Clone, Copy, Debug, PartialEq, Eq)]
pub struct TomlFault {
    /// The line in which the error begins, counted from 1.
    pub line: usize,
    /// The error of the TOML reader.
    pub error: toml::de::Error,
}

impl fmt::Display for TomlFault {
    fn fmt<W: fmt::Write>(&self, f: &mut fmt::Formatter<W>) -> fmt::Result {
        let line = self.line;
        let message = self.error.message();
        write!(f, "line {line}: {message}")
    }
}

/// Why a text isn't the settings of a site.
#[derive(Clone, Copy, Debug, PartialEq, Eq, Error)]
pub enum SettingsFault {
    /// The text isn't a TOML document.
    #[error("not toml: {0}")]
    NotToml(TomlFault),
    /// A required key is missing.
    #[error("{0:?} missing")]
    Missing(Key),
    /// The key has a value of another type, or beyond its limits.
    #[error("{0:?} bad")]
    BadValue(Key),
    /// Out of memory. Any call may give it instead of another answer.
    #[error("out of memory")]
    Memory,
}

impl SettingsFault {
    /// The fault's number, from 1 for [`SettingsFault::NotToml`] to 4 for
    /// [`SettingsFault::Memory`], in the order of the variants.
    pub fn code(&self) -> u8
        ensures { result ≡ fault_code self.now }
    {
        match self {
            SettingsFault::NotToml(_) => 1,
            SettingsFault::Missing(_) => 2,
            SettingsFault::BadValue(_) => 3,
            SettingsFault::Memory => 4,
        }
    }
}

impl From<AllocError> for SettingsFault {
    ghost from_gives = { λ _ fault. fault ≡ Memory };

    fn from(_refused: AllocError) -> SettingsFault {
        SettingsFault::Memory
    }
}

impl<T: Drop> From<AllocFailed<T>> for SettingsFault {
    ghost from_gives = { λ _ fault. fault ≡ Memory };

    fn from(_refused: AllocFailed<T>) -> SettingsFault {
        SettingsFault::Memory
    }
}
