// Queries in SQL without parameters. Adopting a database and asking a spool share them.
ghost use Rattle.uu_rows.specs.Texts.{systems_text, bare_systems_text, lines_text, ranges_text, waits_text, links_text, taken_text};
ghost use Rattle.uu_schema.specs.Queries.{IsQuery};
ghost use Rattle.uu_rows.specs.Shows.{AsksText};

use sqlite::{Alter, Connection, Error, Row};

/// The rows that a query gives.
pub fn ask<S: Alter>(conn: &mut Connection<S>, sql: &str) -> Result<Vec<Row>, Error>
    requires { IsQuery sql.now }
    ensures { AsksText S.Store sql.now conn.old conn.new result }
{
    conn.query_all(sql, &[])
}

/// All systems, by name.
pub fn ask_systems<S: Alter>(conn: &mut Connection<S>) -> Result<Vec<Row>, Error>
    ensures { AsksText S.Store systems_text conn.old conn.new result }
{
    ask(
        conn,
        "SELECT name, definition, last, failures, wait, outcome, why FROM systems ORDER BY name",
    )
}

/// All systems of an earlier version, by name.
pub fn ask_bare_systems<S: Alter>(conn: &mut Connection<S>) -> Result<Vec<Row>, Error>
    ensures { AsksText S.Store bare_systems_text conn.old conn.new result }
{
    ask(
        conn,
        "SELECT name, max_retries, last, failures, wait, outcome, why FROM systems ORDER BY name",
    )
}

/// All lines, by system and place.
pub fn ask_lines<S: Alter>(conn: &mut Connection<S>) -> Result<Vec<Row>, Error>
    ensures { AsksText S.Store lines_text conn.old conn.new result }
{
    ask(
        conn,
        "SELECT system, place, rank, retry FROM lines ORDER BY system, place",
    )
}

/// All ranges, by system, place and first minute.
pub fn ask_ranges<S: Alter>(conn: &mut Connection<S>) -> Result<Vec<Row>, Error>
    ensures { AsksText S.Store ranges_text conn.old conn.new result }
{
    ask(
        conn,
        "SELECT system, place, low, high FROM ranges ORDER BY system, place, low",
    )
}

/// All success waits, by system.
pub fn ask_waits<S: Alter>(conn: &mut Connection<S>) -> Result<Vec<Row>, Error>
    ensures { AsksText S.Store waits_text conn.old conn.new result }
{
    ask(
        conn,
        "SELECT system, wait FROM success_waits ORDER BY system",
    )
}

/// All numbers below which neighbours won't ask again, by system.
pub fn ask_links<S: Alter>(conn: &mut Connection<S>) -> Result<Vec<Row>, Error>
    ensures { AsksText S.Store links_text conn.old conn.new result }
{
    ask(conn, "SELECT system, below FROM links ORDER BY system")
}

/// Everything that was taken from neighbours, by system and number.
pub fn ask_taken<S: Alter>(conn: &mut Connection<S>) -> Result<Vec<Row>, Error>
    ensures { AsksText S.Store taken_text conn.old conn.new result }
{
    ask(
        conn,
        "SELECT system, number, mark, job FROM taken ORDER BY system, number",
    )
}
