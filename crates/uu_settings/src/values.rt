//! The values of the keys of a document.
ghost use Rattle.std.specs.Prelude.{◌≡◌, [], option_map, ok_or, string_bytes};
ghost use Rattle.toml.specs.Data.{get_member};
ghost use Rattle.toml.specs.View.{view, table_view, items_view};
ghost use Rattle.uu_times.specs.Zone.{always, zone_view};
ghost use Rattle.uu_settings.specs.Fault.{key_name, value_fault};
ghost use Rattle.uu_settings.specs.Settings.{AnswersAs};
ghost use Rattle.uu_settings.specs.Offsets.{IsOffset};
ghost use Rattle.uu_settings.specs.Settings as spec;

use crate::fault::{Key, SettingsFault};
use std::alloc::Global;
use toml::{Table, Value};
use uu_names::{NameFault, SiteName, Word};
use uu_times::Zone;
use uu_times::zone::OFFSET_LIMIT;

const MOST_MINUTES: i64 = OFFSET_LIMIT as i64;

/// The least limit, 1 MiB.
const LEAST_LIMIT: i64 = 1_048_576;

/// The limit of a site that sets none, 512 MiB.
const DEFAULT_LIMIT: usize = 536_870_912;

/// The name of the site.
pub(crate) fn name_of(alloc: Global, document: &Table) -> Result<SiteName, SettingsFault>
    ensures { AnswersAs (λ name. name) result (spec.required Key.Name spec.name_in (table_view document.now)) }
{
    match value_of(document, Key::Name) {
        Some(value) => name_in(alloc, value),
        None => Err(SettingsFault::Missing(Key::Name)),
    }
}

/// The clock from the minutes that it is ahead of UTC, if they are given.
pub(crate) fn offset_of(document: &Table) -> Result<Option<Zone>, SettingsFault>
    ensures { AnswersAs (λ minutes. option_map zone_view minutes) result (spec.offset (table_view document.now)) }
{
    match value_of(document, Key::Offset) {
        Some(value) => match offset_in(value) {
            Ok(zone) => Ok(Some(zone)),
            Err(fault) => Err(fault),
        },
        None => Ok(None),
    }
}

/// The clock from its minutes or from a rule, or UTC if neither is given.
pub(crate) fn zone_of(document: &Table, minutes: Option<Zone>) -> Result<Zone, SettingsFault>
    ensures { AnswersAs zone_view result (spec.clock (option_map zone_view minutes) (table_view document.now)) }
{
    match (minutes, value_of(document, Key::Zone)) {
        (None, None) => Ok(fixed(0)),
        (Some(zone), None) => Ok(zone),
        (None, Some(value)) => zone_in(value),
        (Some(_), Some(_)) => Err(SettingsFault::BadValue(Key::Zone)),
    }
}

/// The path of the spool's file.
pub(crate) fn spool_of(alloc: Global, document: &Table) -> Result<String, SettingsFault>
    ensures { AnswersAs (λ spool. string_bytes spool) result (spec.required Key.Spool spec.path_in (table_view document.now)) }
{
    match value_of(document, Key::Spool) {
        Some(value) => path_in(alloc, Key::Spool, value),
        None => Err(SettingsFault::Missing(Key::Spool)),
    }
}

/// The users who may change jobs of others.
pub(crate) fn admins_of(alloc: Global, document: &Table) -> Result<Vec<Word>, SettingsFault>
    ensures { AnswersAs (λ admins. admins.items) result (spec.optional Key.Admins spec.admins_in [] (table_view document.now)) }
{
    match value_of(document, Key::Admins) {
        Some(value) => admins_in(alloc, value),
        None => Ok(Vec::new(alloc)),
    }
}

/// The folder with the keys of neighbours, if it is given.
pub(crate) fn seals_of(alloc: Global, document: &Table) -> Result<Option<String>, SettingsFault>
    ensures { AnswersAs (λ path. option_map string_bytes path) result (spec.seals (table_view document.now)) }
{
    match value_of(document, Key::Seals) {
        Some(value) => match path_in(alloc, Key::Seals, value) {
            Ok(path) => Ok(Some(path)),
            Err(fault) => Err(fault),
        },
        None => Ok(None),
    }
}

/// The limit of the spool's file.
pub(crate) fn limit_of(document: &Table) -> Result<usize, SettingsFault>
    ensures { AnswersAs (λ limit. limit) result (spec.optional Key.Limit spec.limit_in spec.default_limit (table_view document.now)) }
{
    match value_of(document, Key::Limit) {
        Some(value) => limit_in(value),
        None => Ok(DEFAULT_LIMIT),
    }
}

// The value of a key, if it is there.
fn value_of(document: &Table, key: Key) -> Option<&Value>
    ensures { option_map (λ value. view value.now) result ≡ get_member (key_name key) (table_view document.now) }
{
    document.get(key.name())
}

// The value as a site name.
fn name_in(alloc: Global, value: &Value) -> Result<SiteName, SettingsFault>
    ensures { AnswersAs (λ name. name) result (ok_or (spec.name_in (view value.now)) (SettingsFault.BadValue Key.Name)) }
{
    let Some(text) = value.as_str() else {
        return Err(SettingsFault::BadValue(Key::Name));
    };
    match SiteName::parse(alloc, text) {
        Ok(name) => Ok(name),
        Err(fault) => Err(fault_at(Key::Name, fault)),
    }
}

// The value as minutes.
fn offset_in(value: &Value) -> Result<Zone, SettingsFault>
    ensures { AnswersAs zone_view result (ok_or (spec.offset_in (view value.now)) (SettingsFault.BadValue Key.Offset)) }
{
    match value.as_integer() {
        Some(minutes) if -MOST_MINUTES <= minutes && minutes <= MOST_MINUTES => Ok(fixed(
            minutes as i32,
        )),
        _ => Err(SettingsFault::BadValue(Key::Offset)),
    }
}

// The clock that is always so many minutes ahead of UTC.
fn fixed(minutes: i32) -> Zone
    requires { IsOffset minutes }
    ensures { zone_view result ≡ always minutes }
{
    Zone::fixed(minutes).unwrap()
}

// The value as a rule.
fn zone_in(value: &Value) -> Result<Zone, SettingsFault>
    ensures { AnswersAs zone_view result (ok_or (spec.zone_in (view value.now)) (SettingsFault.BadValue Key.Zone)) }
{
    let Some(text) = value.as_str() else {
        return Err(SettingsFault::BadValue(Key::Zone));
    };
    match Zone::posix(text) {
        Ok(zone) => Ok(zone),
        Err(_) => Err(SettingsFault::BadValue(Key::Zone)),
    }
}

// The value of a key as a path.
fn path_in(alloc: Global, key: Key, value: &Value) -> Result<String, SettingsFault>
    ensures { AnswersAs (λ path. string_bytes path) result (ok_or (spec.path_in (view value.now)) (SettingsFault.BadValue key)) }
{
    match value.as_str() {
        Some(path) if !path.is_empty() => Ok(String::from_str(alloc, path)?),
        _ => Err(SettingsFault::BadValue(key)),
    }
}

// The value as words.
fn admins_in(alloc: Global, value: &Value) -> Result<Vec<Word>, SettingsFault>
    ensures { AnswersAs (λ admins. admins.items) result (ok_or (spec.admins_in (view value.now)) (SettingsFault.BadValue Key.Admins)) }
{
    match value.as_array() {
        Some(values) => words_in(alloc, values),
        None => Err(SettingsFault::BadValue(Key::Admins)),
    }
}

fn words_in(alloc: Global, values: &[Value]) -> Result<Vec<Word>, SettingsFault>
    ensures { AnswersAs (λ words. words.items) result (ok_or (spec.words_in (items_view values.now)) (SettingsFault.BadValue Key.Admins)) }
{
    let mut words = Vec::new(alloc);
    for value in values {
        match word_in(alloc, value) {
            Ok(word) => words.push(word)?,
            Err(fault) => return Err(fault),
        }
    }
    Ok(words)
}

fn word_in(alloc: Global, value: &Value) -> Result<Word, SettingsFault>
    ensures { AnswersAs (λ word. word) result (ok_or (spec.word_in (view value.now)) (SettingsFault.BadValue Key.Admins)) }
{
    let Some(text) = value.as_str() else {
        return Err(SettingsFault::BadValue(Key::Admins));
    };
    match Word::parse(alloc, text) {
        Ok(word) => Ok(word),
        Err(fault) => Err(fault_at(Key::Admins, fault)),
    }
}

// The value as a limit.
fn limit_in(value: &Value) -> Result<usize, SettingsFault>
    ensures { AnswersAs (λ limit. limit) result (ok_or (spec.limit_in (view value.now)) (SettingsFault.BadValue Key.Limit)) }
{
    match value.as_integer() {
        Some(limit) if limit >= LEAST_LIMIT => Ok(limit as usize),
        _ => Err(SettingsFault::BadValue(Key::Limit)),
    }
}

// The fault of a value that isn't a name or word.
fn fault_at(key: Key, fault: NameFault) -> SettingsFault
    ensures { result ≡ value_fault key fault }
{
    match fault {
        NameFault::Memory => SettingsFault::Memory,
        _ => SettingsFault::BadValue(key),
    }
}
