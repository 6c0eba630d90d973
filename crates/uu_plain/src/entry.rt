// A map entry under its host.
ghost use Rattle.std.specs.Prelude.{◌≡◌};

use std::marker::Model;
use uu_names::{Listed, SiteName};

/// A map entry, kept under its host.
#[derive(Drop)]
pub struct PlainEntry {
    pub(crate) host: SiteName,
    pub(crate) bytes: Listed<u8>,
}

impl Model for PlainEntry {
    ghost use Rattle.uu_core.specs.State.{MapEntry};

    ghost Value = { MapEntry };

    ghost view = { λ entry. record { host = entry.host; bytes = entry.bytes } };
}

impl PlainEntry {
    /// The site that the entry is about.
    pub fn host(&self) -> &SiteName
        ensures { result.now ≡ self.now.host }
    {
        &self.host
    }

    /// The entry's text.
    pub fn bytes(&self) -> &[u8]
        ensures { result.now ≡ self.now.bytes }
    {
        self.bytes.as_slice()
    }
}
