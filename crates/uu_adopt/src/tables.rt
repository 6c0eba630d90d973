// Which of the spool's tables a database has.
ghost use Rattle.std.specs.Prelude.{◌≡◌, map};
ghost use Rattle.std.specs.Option.{option_copied};
ghost use Rattle.std.specs.List.{list_all};
ghost use Rattle.uu_adopt.specs.FoundTables.{table_of, has_column, has_table, has_jobs, has_old_systems, has_old_jobs, has_waits, has_links, is_whole, was_whole, is_name_used, is_link_name_used, is_old_name_used, is_any_name_used, added_with, version_of, tables_with, found_of};

use sqlite_schema::names::same_name;
use sqlite_schema::schema::{Schema, Table};
use uu_schema::Version;

/// Which tables a database has.
#[derive(Clone, Copy)]
pub(crate) enum Found {
    /// None of the spool's tables.
    Nothing,
    /// The table `spool` with the columns that say its version, and the version whose tables are
    /// all there.
    Spool { tables: Option<Version> },
    /// One of the names is taken, and no table `spool` has the columns that say its version.
    Other,
}

pub(crate) const SYSTEMS: [&str; 7] = [
    "name",
    "definition",
    "last",
    "failures",
    "wait",
    "outcome",
    "why",
];

const OLD_SYSTEMS: [&str; 7] = [
    "name",
    "max_retries",
    "last",
    "failures",
    "wait",
    "outcome",
    "why",
];

const LINES: [&str; 4] = ["system", "place", "rank", "retry"];

const RANGES: [&str; 4] = ["system", "place", "low", "high"];

pub(crate) const JOBS: [&str; 9] = [
    "number",
    "system",
    "rank",
    "user",
    "kind",
    "queued",
    "first_word",
    "second_word",
    "size",
];

pub(crate) const BODIES: [&str; 2] = ["job", "bytes"];

const PIECES: [&str; 3] = ["job", "place", "bytes"];

pub(crate) const ENTRIES: [&str; 2] = ["host", "bytes"];

const SUCCESS_WAITS: [&str; 2] = ["system", "wait"];

pub(crate) const LINKS: [&str; 2] = ["system", "below"];

pub(crate) const TAKEN: [&str; 4] = ["system", "number", "mark", "job"];

fn table_of<'a>(schema: &'a Schema, name: &str) -> Option<&'a Table>
    ensures { option_copied result ≡ table_of schema.now name.now }
{
    schema
        .tables
        .as_slice()
        .iter()
        .find(|table| same_name(table.name.as_slice(), name.as_bytes()))
}

fn has_column(table: &Table, name: &str) -> bool
    ensures { result ≡ has_column table.now name.now }
{
    table.columns.as_slice().iter().any(|column| same_name(column.name.as_slice(), name.as_bytes()))
}

fn has_columns(table: &Table, names: &[&str]) -> bool
    ensures { result ≡ list_all (λ name. has_column table.now name.now) names.now }
{
    names.iter().all(|name| has_column(table, name))
}

fn has_table(schema: &Schema, name: &str, columns: &[&str]) -> bool
    ensures { result ≡ has_table schema.now name.now (map (λ column. column.now) columns.now) }
{
    match table_of(schema, name) {
        Some(table) => has_columns(table, columns),
        None => false,
    }
}

fn has_jobs(schema: &Schema) -> bool
    ensures { result ≡ has_jobs schema.now }
{
    has_table(schema, "jobs", &JOBS)
        && has_table(schema, "bodies", &BODIES)
        && has_table(schema, "entries", &ENTRIES)
}

fn has_old_systems(schema: &Schema) -> bool
    ensures { result ≡ has_old_systems schema.now }
{
    has_table(schema, "systems", &OLD_SYSTEMS)
        && has_table(schema, "lines", &LINES)
        && has_table(schema, "ranges", &RANGES)
}

fn has_old_jobs(schema: &Schema) -> bool
    ensures { result ≡ has_old_jobs schema.now }
{
    has_table(schema, "jobs", &JOBS)
        && has_table(schema, "pieces", &PIECES)
        && has_table(schema, "entries", &ENTRIES)
}

fn has_waits(schema: &Schema) -> bool
    ensures { result ≡ has_waits schema.now }
{
    has_table(schema, "success_waits", &SUCCESS_WAITS)
}

fn has_links(schema: &Schema) -> bool
    ensures { result ≡ has_links schema.now }
{
    has_table(schema, "links", &LINKS) && has_table(schema, "taken", &TAKEN)
}

// Whether the tables of version 4 are there, besides `spool`.
fn is_whole(schema: &Schema) -> bool
    ensures { result ≡ is_whole schema.now }
{
    has_table(schema, "systems", &SYSTEMS) && has_jobs(schema) && has_links(schema)
}

// Whether those of version 1 are there.
fn was_whole(schema: &Schema) -> bool
    ensures { result ≡ was_whole schema.now }
{
    has_old_systems(schema) && has_old_jobs(schema)
}

fn is_name_used(schema: &Schema, name: &str) -> bool
    ensures { result ≡ is_name_used schema.now name.now }
{
    table_of(schema, name).is_some()
}

// Whether a table has one of the names of the tables of links.
fn is_link_name_used(schema: &Schema) -> bool
    ensures { result ≡ is_link_name_used schema.now }
{
    is_name_used(schema, "links") || is_name_used(schema, "taken")
}

// Whether a table has the name of one that only earlier versions have.
fn is_old_name_used(schema: &Schema) -> bool
    ensures { result ≡ is_old_name_used schema.now }
{
    is_name_used(schema, "lines")
        || is_name_used(schema, "ranges")
        || is_name_used(schema, "pieces")
        || is_name_used(schema, "success_waits")
}

// Whether a table has one of the names, other than `spool`.
fn is_any_name_used(schema: &Schema) -> bool
    ensures { result ≡ is_any_name_used schema.now }
{
    is_name_used(schema, "systems")
        || is_name_used(schema, "jobs")
        || is_name_used(schema, "bodies")
        || is_name_used(schema, "entries")
        || is_link_name_used(schema)
        || is_old_name_used(schema)
}

// The earlier version that the tables added after version 1 show: it has all of its own, and no
// name of those added later is taken.
fn added_with(schema: &Schema) -> Option<Version>
    ensures { result ≡ added_with schema.now }
{
    if has_waits(schema) {
        if has_links(schema) {
            Some(Version::Third)
        } else if is_link_name_used(schema) {
            None
        } else {
            Some(Version::Second)
        }
    } else if is_name_used(schema, "success_waits") || is_link_name_used(schema) {
        None
    } else {
        Some(Version::First)
    }
}

// The version whose tables are there besides `spool`, and none of another version.
fn version_of(schema: &Schema) -> Option<Version>
    ensures { result ≡ version_of schema.now }
{
    if is_whole(schema) {
        if is_old_name_used(schema) {
            None
        } else {
            Some(Version::Fourth)
        }
    } else if was_whole(schema) && !is_name_used(schema, "bodies") {
        added_with(schema)
    } else {
        None
    }
}

// The version whose tables are there with all their columns.
fn tables_with(schema: &Schema, spool: &Table) -> Option<Version>
    ensures { result ≡ tables_with schema.now spool.now }
{
    if has_column(spool, "next") {
        version_of(schema)
    } else {
        None
    }
}

/// Which of the spool's tables there are, by their names and those of their columns.
pub(crate) fn inspect_schema(schema: &Schema) -> Found
    ensures { result ≡ found_of schema.now }
{
    let Some(spool) = table_of(schema, "spool") else {
        return if is_any_name_used(schema) {
            Found::Other
        } else {
            Found::Nothing
        };
    };
    if !has_column(spool, "id") || !has_column(spool, "version") {
        return Found::Other;
    }
    Found::Spool {
        tables: tables_with(schema, spool),
    }
}
