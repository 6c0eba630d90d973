// Whether a database has nothing beside the tables of a spool.
ghost use Rattle.std.specs.Prelude.{◌≡◌, map, IsTrue};
ghost use Rattle.std.specs.List.{list_any, list_all};
ghost use Rattle.sqlite_schema.specs.Names.{same_name};
ghost use Rattle.uu_schema.specs.Schema.{spool_schema};
ghost use Rattle.uu_adopt.specs.Alone.{is_table, is_own, is_alone};

use crate::tables::{BODIES, ENTRIES, JOBS, LINKS, SYSTEMS, TAKEN};
use sqlite_schema::names::same_name;
use sqlite_schema::schema::{Column, Schema, Table};

const SPOOL: [&str; 3] = ["id", "version", "next"];

/// How many indexes the keys of the spool's tables have: those of systems, entries, links and taken.
const INDEXES: usize = 4;

fn is_named(column: &Column, names: &[&str]) -> bool
    ensures { result ≡ list_any (λ name. same_name column.now.name name.now) names.now }
{
    names
        .iter()
        .any(|name| same_name(column.name.as_slice(), name.as_bytes()))
}

fn has_only(table: &Table, names: &[&str]) -> bool
    ensures { result ≡ list_all (λ column. list_any (λ name. same_name column.name name.now) names.now) table.now.columns }
{
    table
        .columns
        .as_slice()
        .iter()
        .all(|column| is_named(column, names))
}

// Whether the table has this name, and no column but these.
fn is_table(table: &Table, name: &str, names: &[&str]) -> bool
    ensures { result ≡ is_table table.now name.now (map (λ one. one.now) names.now) }
{
    same_name(table.name.as_slice(), name.as_bytes()) && has_only(table, names)
}

fn is_own(table: &Table) -> bool
    ensures { result ≡ is_own table.now }
{
    is_table(table, "spool", &SPOOL)
        || is_table(table, "systems", &SYSTEMS)
        || is_table(table, "jobs", &JOBS)
        || is_table(table, "bodies", &BODIES)
        || is_table(table, "entries", &ENTRIES)
        || is_table(table, "links", &LINKS)
        || is_table(table, "taken", &TAKEN)
}

fn are_own(tables: &[Table]) -> bool
    ensures { result ≡ list_all is_own tables.now }
{
    tables.iter().all(|table| is_own(table))
}

// Whether the schema has no other table, column, index, view or trigger.
fn has_nothing_else(schema: &Schema) -> bool
    ensures { result ≡ is_alone schema.now }
{
    are_own(schema.tables.as_slice()) && schema.indexes.len() == INDEXES && schema.views.len() == 0
}

/// Whether a database of this schema has nothing beside the tables of a spool: no other table,
/// column, index, view or trigger.
pub fn is_alone(schema: &Schema) -> bool
    ensures exact { result ≡ is_alone schema.now }
    ensures own { schema.now ≡ spool_schema → IsTrue result }
{
    has_nothing_else(schema)
}
