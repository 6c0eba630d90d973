//! Timetables, and the time strings that may name them.
ghost use Rattle.std.specs.Prelude.{◌≡◌, ℕ, nat_eq, List, Ok, Err, IfOk, IfErr, IsTrue, map, OnOk};
ghost use Rattle.std.specs.BTreeMap.{insert_entry, is_at};
ghost use Rattle.std.specs.Map.{lookup};
ghost use Rattle.std.specs.Char.{to_ascii_lowercase};
ghost use Rattle.std.specs.Cmp.Lexicographic.{slice_cmp};
ghost use Rattle.std.specs.Ordering.{nat_cmp};
ghost use Rattle.std.specs.List.{list_all, list_any, starts_with};
ghost use Rattle.std.specs.Str.{bytes_eq};
ghost use Rattle.uu_names.specs.Name.{is_site_name};
ghost use Rattle.uu_times.specs.Fault.{AnswersUnlessMemory, UnlessMemory};
ghost use Rattle.uu_times.specs.Grammar.{lower};
ghost use Rattle.uu_times.specs.Tables.{is_table_byte, is_table_rest, is_table_name, table_at, listed_windows, with_list, begins_with_day, unreadable, TellsFront, IsTimeString, windows_in, time_of, predefined_tables};

use crate::scan::{Unlisted, list_of};
use crate::union::windows_of;
use crate::{TimeFault, Windows};
use std::alloc::{AllocError, Global};
use std::collections::BTreeMap;
use std::marker::Model;
use uu_names::{NameFault, SiteName};

/// The most bytes of a timetable's name after the first.
const MAX_TABLE_REST: usize = 31;

/// The day words, in lower case.
const DAY_WORDS: [&[u8]; 9] = [
    b"su", b"mo", b"tu", b"we", b"th", b"fr", b"sa", b"wk", b"any",
];

/// Timetables by their names, in lower case, seen as the list of names and runs in order of the
/// names.
#[derive(Drop)]
pub struct Timetables {
    // `None` while no timetable was added to those that are there from the start.
    tables: Option<BTreeMap<SiteName, Windows>>,
}

impl Model for Timetables {
    ghost use Rattle.std.specs.Option.{option_map_or};
    ghost use Rattle.uu_times.specs.Tables.{Tables, predefined_tables};

    ghost Value = { Tables };

    ghost view = { λ t. option_map_or (λ tables. tables.entries) t.tables predefined_tables };
}

// The set of a list of simple strings, or `None` if the text isn't one.
fn listed_windows(alloc: Global, text: &[u8]) -> Result<Option<Windows>, AllocError>
    ensures { IfOk result (λ windows. windows ≡ listed_windows text.now) }
{
    match list_of(alloc, text) {
        Ok(simples) => Ok(Some(windows_of(alloc, &simples)?)),
        Err(Unlisted::At(_)) => Ok(None),
        Err(Unlisted::Memory) => Err(AllocError),
    }
}

// The timetable of a name among those that are there from the start.
fn find_predefined(alloc: Global, name: &[u8]) -> Result<Option<Windows>, AllocError>
    ensures { IfOk result (λ found. found ≡ lookup (is_at (slice_cmp nat_cmp (lower name.now))) predefined_tables) }
{
    if equals_in_any_case(name, b"NonPeak") {
        listed_windows(alloc, b"Wk1805-0655,Sa,Su")
    } else if equals_in_any_case(name, b"Night") {
        listed_windows(alloc, b"Wk2305-0755,Sa,Su2305-1655")
    } else if equals_in_any_case(name, b"Evening") {
        listed_windows(alloc, b"Wk1705-0755,Sa,Su")
    } else {
        Ok(None)
    }
}

// Sets the timetable of a name to a list of simple strings. Any other text changes nothing.
fn insert_list(
    tables: &mut BTreeMap<SiteName, Windows>,
    alloc: Global,
    name: &[u8],
    text: &[u8],
) -> Result<(), AllocError>
    requires { IsTrue (is_table_name name.now) }
    ensures { OnOk result (tables.new.entries ≡ with_list tables.old.entries name.now text.now) }
{
    if let Some(windows) = listed_windows(alloc, text)? {
        let key = key_of(alloc, name)?;
        tables.insert(key, windows)?;
    }
    Ok(())
}

// The timetables that are there from the start, in a map.
#[tactic(auto, unfolding(crate::specs::Tables::predefined_tables))]
fn predefined_map(alloc: Global) -> Result<BTreeMap<SiteName, Windows>, AllocError>
    ensures { IfOk result (λ tables. tables.entries ≡ predefined_tables) }
{
    let mut tables = BTreeMap::new(alloc);
    insert_list(&mut tables, alloc, b"Evening", b"Wk1705-0755,Sa,Su")?;
    insert_list(&mut tables, alloc, b"Night", b"Wk2305-0755,Sa,Su2305-1655")?;
    insert_list(&mut tables, alloc, b"NonPeak", b"Wk1805-0655,Sa,Su")?;
    Ok(tables)
}

impl Timetables {
    /// The timetables that are there from the start: `Evening`, `Night` and `NonPeak`. It takes no
    /// memory, so it never fails.
    pub fn predefined(_alloc: Global) -> Result<Timetables, TimeFault>
        ensures { AnswersUnlessMemory result (Ok predefined_tables) }
    {
        Ok(Timetables { tables: None })
    }

    /// The timetable of a name, in any case of letters.
    pub(crate) fn find(&self, alloc: Global, name: &[u8]) -> Result<Option<Windows>, AllocError>
        ensures { IfOk result (λ found. found ≡ table_at self.now name.now) }
    {
        if !is_table_name(name) {
            return Ok(None);
        }
        match &self.tables {
            None => find_predefined(alloc, name),
            Some(tables) => find_in(tables, alloc, name),
        }
    }

    /// Sets the timetable of a name in lower case, in place of one of that name.
    pub(crate) fn set(
        &mut self,
        alloc: Global,
        name: SiteName,
        windows: Windows,
    ) -> Result<(), AllocError>
        ensures { OnOk result (self.new ≡ insert_entry (slice_cmp nat_cmp) self.old name windows) }
    {
        match &mut self.tables {
            Some(tables) => {
                tables.insert(name, windows)?;
            }
            None => {
                let mut tables = predefined_map(alloc)?;
                tables.insert(name, windows)?;
                self.tables = Some(tables);
            }
        }
        Ok(())
    }
}

// The timetable of a name in a map.
fn find_in(
    tables: &BTreeMap<SiteName, Windows>,
    alloc: Global,
    name: &[u8],
) -> Result<Option<Windows>, AllocError>
    requires { IsTrue (is_table_name name.now) }
    ensures { IfOk result (λ found. found ≡ lookup (is_at (slice_cmp nat_cmp (lower name.now))) tables.now.entries) }
{
    let key = key_of(alloc, name)?;
    match tables.get(&key) {
        None => Ok(None),
        Some(windows) => Ok(Some(windows.clone()?)),
    }
}

// The bytes in lower case.
fn lower(alloc: Global, text: &[u8]) -> Result<Vec<u8>, AllocError>
    ensures { IfOk result (λ letters. letters.items ≡ lower text.now) }
{
    text.iter()
        .map(|letter| letter.to_ascii_lowercase())
        .collect(alloc)
}

/// The key of a timetable's name, which has the form of a site's.
pub(crate) fn key_of(alloc: Global, name: &[u8]) -> Result<SiteName, AllocError>
    requires { IsTrue (is_table_name name.now) }
    ensures { IfOk result (λ key. key ≡ lower name.now) }
{
    let letters = lower(alloc, name)?;
    SiteName::from_bytes(alloc, &letters).map_err(|_| AllocError)
}

/// Whether the bytes are those of the word, in any case of letters.
pub(crate) fn equals_in_any_case(bytes: &[u8], word: &[u8]) -> bool
    ensures { result ≡ bytes_eq (lower bytes.now) (lower word.now) }
{
    bytes.eq_ignore_ascii_case(word)
}

// Whether the byte is allowed in a timetable's name after the first byte.
fn is_table_byte(letter: u8) -> bool
    ensures { result ≡ is_table_byte letter }
{
    letter.is_ascii_alphanumeric() || letter == b'-' || letter == b'_'
}

// Whether all bytes are allowed there.
fn are_table_bytes(rest: &[u8]) -> bool
    ensures { result ≡ list_all is_table_byte rest.now }
{
    rest.iter().all(|letter| is_table_byte(*letter))
}

// Whether the bytes may follow the first byte of a timetable's name.
fn is_table_rest(rest: &[u8]) -> bool
    ensures { result ≡ is_table_rest rest.now }
{
    rest.len() <= MAX_TABLE_REST && are_table_bytes(rest)
}

/// Whether the text has the form of a timetable's name.
pub(crate) fn is_table_name(text: &[u8]) -> bool
    ensures { result ≡ is_table_name text.now }
{
    match text.split_first() {
        None => false,
        Some((first, rest)) => first.is_ascii_alphabetic() && is_table_rest(rest),
    }
}

// Whether the text begins with the word, in any case of letters.
fn begins_in_any_case(text: &[u8], word: &[u8]) -> bool
    ensures { result ≡ starts_with nat_eq (lower text.now) (lower word.now) }
{
    match text.get(..word.len()) {
        Some(front) => equals_in_any_case(word, front),
        None => false,
    }
}

// Whether the text begins with one of the words, in any case of letters.
fn begins_with_any(text: &[u8], words: &[&[u8]]) -> bool
    ensures { result ≡ list_any (λ word. starts_with nat_eq (lower text.now) (lower word.now)) words.now }
{
    words.iter().any(|word| begins_in_any_case(text, word))
}

// Whether the text begins with a day word.
fn begins_with_day(text: &[u8]) -> bool
    ensures { result ≡ begins_with_day (lower text.now) }
{
    begins_with_any(text, &DAY_WORDS)
}

// The fault of a text that isn't a time string. So many of its bytes begin a list of simple
// strings.
fn unreadable(line: u32, text: &[u8], at: usize) -> TimeFault
    ensures { result ≡ unreadable line text.now at }
{
    if is_table_name(text) && !begins_with_day(text) {
        TimeFault::UnknownTable(line)
    } else {
        TimeFault::BadTime(line, at)
    }
}

// The set of a list of simple strings.
fn windows_in(alloc: Global, line: u32, text: &[u8]) -> Result<Windows, TimeFault>
    ensures { AnswersUnlessMemory result (windows_in line text.now) }
{
    match list_of(alloc, text) {
        Ok(simples) => Ok(windows_of(alloc, &simples)?),
        Err(Unlisted::At(at)) => Err(unreadable(line, text, at)),
        Err(Unlisted::Memory) => Err(TimeFault::Memory),
    }
}

/// The set of a time string on a line.
pub(crate) fn time_of(
    alloc: Global,
    tables: &Timetables,
    line: u32,
    text: &[u8],
) -> Result<Windows, TimeFault>
    ensures { AnswersUnlessMemory result (time_of tables.now line text.now) }
{
    if equals_in_any_case(text, b"never") {
        return Ok(Windows::never(alloc)?);
    }
    match tables.find(alloc, text)? {
        Some(windows) => Ok(windows),
        None => windows_in(alloc, line, text),
    }
}

/// The set of a time string.
///
/// `Never` is the empty set. The name of a timetable is its set. Otherwise it is the set of a list
/// of simple strings. The case of letters doesn't count. Minutes are those of the local week; 0 is
/// Sunday 00:00.
///
/// # Errors
/// Any other text is an error. If it has the form of a timetable's name and doesn't begin with a day
/// word, it is [`TimeFault::UnknownTable`]. Else it is [`TimeFault::BadTime`], with the length of its
/// longest prefix that begins a list of simple strings. The line of both is 0. The only other error
/// is [`TimeFault::Memory`].
pub fn read_time(alloc: Global, text: &str, tables: &Timetables) -> Result<Windows, TimeFault>
    ensures string { IfOk result (λ windows. IsTimeString tables.now text.now windows) }
    ensures refused { IfErr result (λ fault. UnlessMemory fault ((windows : List (ℕ × ℕ)) → ¬ IsTimeString tables.now text.now windows)) }
    ensures value { AnswersUnlessMemory result (time_of tables.now 0 text.now) }
    ensures offset { IfErr result (TellsFront text.now) }
{
    time_of(alloc, tables, 0, text.as_bytes())
}
