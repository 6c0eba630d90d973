// The statements on links, and on what was taken by them.
ghost use Rattle.std.specs.Prelude.{◌≡◌, pos};
ghost use Rattle.uu_schema.specs.Statements.{Writes};
ghost use Rattle.uu_tables.specs.declared.change.Change.{Change};
ghost use Rattle.uu_tables.specs.Changes.{without, is_link_of, is_taken_of};
ghost use Rattle.uu_statements.specs.Makes.{Makes, MakesOf};

use sqlite::{Alter, Error, Transaction, params};
use uu_core::{Mark, Taken};
use uu_names::SiteName;

pub(crate) fn add_link<S: Alter>(
    tx: &mut Transaction<'_, S>,
    system: &SiteName,
    below: u32,
) -> Result<usize, Error>
    ensures { Writes S.Store (Makes (Change.AddLink system.entry below)) tx.old tx.new result }
{
    tx.execute(
        "INSERT INTO links (system, below) VALUES (?1, ?2)",
        params![system.as_str(), below],
    )
}

pub(crate) fn remove_link<S: Alter>(
    tx: &mut Transaction<'_, S>,
    system: &SiteName,
) -> Result<usize, Error>
    ensures { Writes S.Store (Makes (Change.RemoveLink system.entry)) tx.old tx.new result }
{
    tx.execute(
        "DELETE FROM links WHERE system = ?1",
        params![system.as_str()],
    )
}

// A mark as a number of the database.
#[derive(Drop)]
struct MarkNumber {
    value: i64,
}

fn number_of(mark: Mark) -> MarkNumber
    ensures { result.value ≡ pos mark }
{
    MarkNumber {
        value: mark.number() as i64,
    }
}

fn insert_taken<S: Alter>(
    tx: &mut Transaction<'_, S>,
    system: &SiteName,
    taken: &Taken,
    mark: &MarkNumber,
) -> Result<usize, Error>
    requires mark { mark.now.value ≡ pos taken.now.mark }
    ensures { Writes S.Store (Makes (Change.AddTaken system.entry taken.now)) tx.old tx.new result }
{
    tx.execute(
        "INSERT INTO taken (system, number, mark, job) VALUES (?1, ?2, ?3, ?4)",
        params![system.as_str(), taken.number, &mark.value, taken.job],
    )
}

pub(crate) fn add_taken<S: Alter>(
    tx: &mut Transaction<'_, S>,
    system: &SiteName,
    taken: &Taken,
) -> Result<usize, Error>
    ensures { Writes S.Store (Makes (Change.AddTaken system.entry taken.now)) tx.old tx.new result }
{
    let mark = number_of(taken.mark);
    insert_taken(tx, system, taken, &mark)
}

pub(crate) fn forget_taken<S: Alter>(
    tx: &mut Transaction<'_, S>,
    system: &SiteName,
    below: u32,
) -> Result<usize, Error>
    ensures { Writes S.Store (Makes (Change.ForgetTaken system.entry below)) tx.old tx.new result }
{
    tx.execute(
        "DELETE FROM taken WHERE system = ?1 AND number < ?2",
        params![system.as_str(), below],
    )
}

fn delete_taken<S: Alter>(tx: &mut Transaction<'_, S>, system: &SiteName) -> Result<usize, Error>
    ensures { Writes S.Store (MakesOf (λ t. record t { taken = without (is_taken_of system.now) t.taken })) tx.old tx.new result }
{
    tx.execute(
        "DELETE FROM taken WHERE system = ?1",
        params![system.as_str()],
    )
}

/// Removes the link of a system: the number below which it won't ask again, and what was taken.
pub(crate) fn remove_whole_link<S: Alter>(
    tx: &mut Transaction<'_, S>,
    system: &SiteName,
) -> Result<usize, Error>
    ensures { Writes S.Store (MakesOf (λ t. record t { links = without (is_link_of system.now) t.links; taken = without (is_taken_of system.now) t.taken })) tx.old tx.new result }
{
    remove_link(tx, system)?;
    delete_taken(tx, system)
}
