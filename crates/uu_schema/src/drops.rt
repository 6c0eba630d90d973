// A database without the tables of a version: each is dropped before those that it refers to.
ghost use Rattle.uu_schema.specs.Statements.{TakesStep};
ghost use Rattle.uu_schema.specs.Schema.{no_schema, schema_with_spool};
ghost use Rattle.uu_schema.specs.Earlier.{old_with_systems, old_with_lines, old_with_ranges, old_with_jobs, old_with_pieces, first_schema, second_schema, old_with_links, third_schema, schema_of, IsEarlierVersion};
ghost use Rattle.uu_schema.specs.Made.{Anything};

use crate::version::Version;
use sqlite::{Alter, Error, Transaction};

fn drop_taken<S: Alter>(tx: &mut Transaction<'_, S>) -> Result<usize, Error>
    ensures { TakesStep S.Store third_schema old_with_links Anything tx.old tx.new result }
{
    tx.execute("DROP TABLE taken", &[])
}

fn drop_links<S: Alter>(tx: &mut Transaction<'_, S>) -> Result<usize, Error>
    ensures { TakesStep S.Store old_with_links second_schema Anything tx.old tx.new result }
{
    tx.execute("DROP TABLE links", &[])
}

fn drop_success_waits<S: Alter>(tx: &mut Transaction<'_, S>) -> Result<usize, Error>
    ensures { TakesStep S.Store second_schema first_schema Anything tx.old tx.new result }
{
    tx.execute("DROP TABLE success_waits", &[])
}

fn drop_entries<S: Alter>(tx: &mut Transaction<'_, S>) -> Result<usize, Error>
    ensures { TakesStep S.Store first_schema old_with_pieces Anything tx.old tx.new result }
{
    tx.execute("DROP TABLE entries", &[])
}

fn drop_pieces<S: Alter>(tx: &mut Transaction<'_, S>) -> Result<usize, Error>
    ensures { TakesStep S.Store old_with_pieces old_with_jobs Anything tx.old tx.new result }
{
    tx.execute("DROP TABLE pieces", &[])
}

fn drop_jobs<S: Alter>(tx: &mut Transaction<'_, S>) -> Result<usize, Error>
    ensures { TakesStep S.Store old_with_jobs old_with_ranges Anything tx.old tx.new result }
{
    tx.execute("DROP TABLE jobs", &[])
}

fn drop_ranges<S: Alter>(tx: &mut Transaction<'_, S>) -> Result<usize, Error>
    ensures { TakesStep S.Store old_with_ranges old_with_lines Anything tx.old tx.new result }
{
    tx.execute("DROP TABLE ranges", &[])
}

fn drop_lines<S: Alter>(tx: &mut Transaction<'_, S>) -> Result<usize, Error>
    ensures { TakesStep S.Store old_with_lines old_with_systems Anything tx.old tx.new result }
{
    tx.execute("DROP TABLE lines", &[])
}

fn drop_systems<S: Alter>(tx: &mut Transaction<'_, S>) -> Result<usize, Error>
    ensures { TakesStep S.Store old_with_systems schema_with_spool Anything tx.old tx.new result }
{
    tx.execute("DROP TABLE systems", &[])
}

fn drop_spool<S: Alter>(tx: &mut Transaction<'_, S>) -> Result<usize, Error>
    ensures { TakesStep S.Store schema_with_spool no_schema Anything tx.old tx.new result }
{
    tx.execute("DROP TABLE spool", &[])
}

fn drop_from_systems<S: Alter>(tx: &mut Transaction<'_, S>) -> Result<usize, Error>
    ensures { TakesStep S.Store old_with_systems no_schema Anything tx.old tx.new result }
{
    drop_systems(tx)?;
    drop_spool(tx)
}

fn drop_from_lines<S: Alter>(tx: &mut Transaction<'_, S>) -> Result<usize, Error>
    ensures { TakesStep S.Store old_with_lines no_schema Anything tx.old tx.new result }
{
    drop_lines(tx)?;
    drop_from_systems(tx)
}

fn drop_from_ranges<S: Alter>(tx: &mut Transaction<'_, S>) -> Result<usize, Error>
    ensures { TakesStep S.Store old_with_ranges no_schema Anything tx.old tx.new result }
{
    drop_ranges(tx)?;
    drop_from_lines(tx)
}

fn drop_from_jobs<S: Alter>(tx: &mut Transaction<'_, S>) -> Result<usize, Error>
    ensures { TakesStep S.Store old_with_jobs no_schema Anything tx.old tx.new result }
{
    drop_jobs(tx)?;
    drop_from_ranges(tx)
}

fn drop_from_pieces<S: Alter>(tx: &mut Transaction<'_, S>) -> Result<usize, Error>
    ensures { TakesStep S.Store old_with_pieces no_schema Anything tx.old tx.new result }
{
    drop_pieces(tx)?;
    drop_from_jobs(tx)
}

fn drop_from_entries<S: Alter>(tx: &mut Transaction<'_, S>) -> Result<usize, Error>
    ensures { TakesStep S.Store first_schema no_schema Anything tx.old tx.new result }
{
    drop_entries(tx)?;
    drop_from_pieces(tx)
}

fn drop_from_success_waits<S: Alter>(tx: &mut Transaction<'_, S>) -> Result<usize, Error>
    ensures { TakesStep S.Store second_schema no_schema Anything tx.old tx.new result }
{
    drop_success_waits(tx)?;
    drop_from_entries(tx)
}

fn drop_from_links<S: Alter>(tx: &mut Transaction<'_, S>) -> Result<usize, Error>
    ensures { TakesStep S.Store old_with_links no_schema Anything tx.old tx.new result }
{
    drop_links(tx)?;
    drop_from_success_waits(tx)
}

fn drop_from_taken<S: Alter>(tx: &mut Transaction<'_, S>) -> Result<usize, Error>
    ensures { TakesStep S.Store third_schema no_schema Anything tx.old tx.new result }
{
    drop_taken(tx)?;
    drop_from_links(tx)
}

/// Drops all tables of a version before the fourth.
pub(crate) fn drop_tables<S: Alter>(
    tx: &mut Transaction<'_, S>,
    from: Version,
) -> Result<usize, Error>
    requires { IsEarlierVersion from }
    ensures { TakesStep S.Store (schema_of from) no_schema Anything tx.old tx.new result }
{
    match from {
        Version::First => drop_from_entries(tx),
        Version::Second => drop_from_success_waits(tx),
        Version::Third => drop_from_taken(tx),
        Version::Fourth => unreachable!(),
    }
}
