//! Reading the settings of a site from a text.
ghost use Rattle.std.specs.Prelude.{◌≡◌, ◌≤◌, length};
ghost use Rattle.toml.specs.Errors.{IsMemory, IsWithin};
ghost use Rattle.toml.specs.View.{table_view};
ghost use Rattle.uu_settings.specs.Settings.{AnswersAs, IsAnswerTo, IsTomlFault, settings_view};
ghost use Rattle.uu_settings.specs.Settings as spec;

use crate::fault::{SettingsFault, TomlFault};
use crate::settings::Settings;
use crate::values::{admins_of, limit_of, name_of, offset_of, seals_of, spool_of, zone_of};
use std::alloc::Global;
use toml::Table;
use toml::de::Error;

impl Settings {
    /// Reads settings from a TOML document (TOML 1.1). The keys `name`, a site name, and `spool`, a
    /// text of one byte or more, are required. The clock is given by `offset`, a whole number of
    /// minutes from -1439 to 1439, or by `zone`, the text of a POSIX rule. Without both it is UTC.
    /// `admins` is an array of words; without it there are none. `seals` is a text of one byte or
    /// more. `limit` is a whole number of bytes, 1,048,576 or more; without it it is 536,870,912.
    /// Other keys are ignored.
    ///
    /// # Errors
    /// `NotToml`, with the line, if the text isn't a TOML document. Otherwise the first fault of the keys in the
    /// order `name`, `offset`, `zone`, `spool`, `admins`, `seals`, `limit`. `Missing` if a required key isn't there.
    /// `BadValue` if a key has a value that isn't allowed, or if `zone` is there beside `offset`.
    /// The only other error is `Memory`.
    pub fn read(alloc: Global, text: &str) -> Result<Settings, SettingsFault>
        ensures { IsAnswerTo text.now result }
    {
        match toml::table_from_str(alloc, text) {
            Ok(document) => settings_in(alloc, &document),
            Err(error) if error.is_memory() => Err(SettingsFault::Memory),
            Err(error) => Err(SettingsFault::NotToml(placed(text, error))),
        }
    }
}

// The error of a text that isn't a TOML document, with its line.
fn placed(text: &str, error: Error) -> TomlFault
    requires read { ¬ IsMemory error }
    requires within { IsWithin text.now error }
    ensures { IsTomlFault text.now result }
{
    match error.span() {
        Some(span) => TomlFault {
            line: line_at(text.as_bytes(), span.start),
            error,
        },
        None => unreachable!(),
    }
}

// The line of the byte at this place, counted from 1.
fn line_at(text: &[u8], at: usize) -> usize
    requires { at ≤ length text.now }
    ensures { result ≡ spec.line_at text.now at }
{
    let mut line = 1;
    for byte in &text[..at] {
        if *byte == b'\n' {
            line += 1;
        }
    }
    line
}

#[tactic(auto, using(crate::proofs::ReadingLemmas::answers_then))]
fn settings_in(alloc: Global, document: &Table) -> Result<Settings, SettingsFault>
    ensures { AnswersAs settings_view result (spec.settings_in (table_view document.now)) }
{
    let name = name_of(alloc, document)?;
    let minutes = offset_of(document)?;
    let zone = zone_of(document, minutes)?;
    let spool = spool_of(alloc, document)?;
    let admins = admins_of(alloc, document)?;
    let seals = seals_of(alloc, document)?;
    let limit = limit_of(document)?;
    Ok(Settings {
        name,
        zone,
        spool,
        admins,
        seals,
        limit,
    })
}
