// The statements on jobs, their bytes and the next number.
ghost use Rattle.uu_schema.specs.Statements.{Writes};
ghost use Rattle.uu_tables.specs.declared.change.Change.{Change};
ghost use Rattle.uu_tables.specs.Changes.{without, has_number, is_body_of};
ghost use Rattle.uu_statements.specs.Makes.{Makes, MakesOf};
ghost use Rattle.uu_statements.specs.Words.{AreKindColumns};

use crate::words::{KindColumns, arguments_of, kind_columns};
use sqlite::{Alter, Error, ErrorCode, Transaction, params};
use std::alloc::Global;
use uu_names::Grade;
use uu_tables::JobColumns;

fn insert_job<S: Alter>(
    tx: &mut Transaction<'_, S>,
    number: u32,
    columns: &JobColumns<'_>,
    kind: &KindColumns<'_>,
) -> Result<usize, Error>
    requires kind { AreKindColumns columns.now.kind.now kind.now }
    ensures { Writes S.Store (Makes (Change.AddJob number columns.now)) tx.old tx.new result }
{
    tx.execute(
        "INSERT INTO jobs (number, system, rank, user, kind, queued, first_word, second_word, size) VALUES (?1, ?2, ?3, ?4, ?5, ?6, ?7, ?8, ?9)",
        params![
            number,
            columns.system.as_str(),
            u32::from(columns.grade.rank()),
            columns.user.as_str(),
            kind.kind,
            columns.queued,
            kind.first_word,
            kind.second_word,
            columns.size
        ],
    )
}

pub(crate) fn add_job<S: Alter>(
    alloc: Global,
    tx: &mut Transaction<'_, S>,
    number: u32,
    columns: &JobColumns<'_>,
) -> Result<usize, Error>
    ensures { Writes S.Store (Makes (Change.AddJob number columns.now)) tx.old tx.new result }
{
    match arguments_of(alloc, columns.kind) {
        Ok(arguments) => {
            let kind = kind_columns(columns.kind, arguments.as_str());
            insert_job(tx, number, columns, &kind)
        }
        Err(_) => Err(Error::SqliteFailure(ErrorCode::OutOfMemory)),
    }
}

pub(crate) fn set_grade<S: Alter>(
    tx: &mut Transaction<'_, S>,
    number: u32,
    grade: Grade,
) -> Result<usize, Error>
    ensures { Writes S.Store (Makes (Change.SetGrade number grade)) tx.old tx.new result }
{
    tx.execute(
        "UPDATE jobs SET rank = ?2 WHERE number = ?1",
        params![number, u32::from(grade.rank())],
    )
}

pub(crate) fn set_queued<S: Alter>(
    tx: &mut Transaction<'_, S>,
    number: u32,
    queued: u32,
) -> Result<usize, Error>
    ensures { Writes S.Store (Makes (Change.SetQueued number queued)) tx.old tx.new result }
{
    tx.execute(
        "UPDATE jobs SET queued = ?2 WHERE number = ?1",
        params![number, queued],
    )
}

fn delete_job<S: Alter>(tx: &mut Transaction<'_, S>, number: u32) -> Result<usize, Error>
    ensures { Writes S.Store (MakesOf (λ t. record t { jobs = without (has_number number) t.jobs })) tx.old tx.new result }
{
    tx.execute("DELETE FROM jobs WHERE number = ?1", params![number])
}

fn delete_body<S: Alter>(tx: &mut Transaction<'_, S>, number: u32) -> Result<usize, Error>
    ensures { Writes S.Store (MakesOf (λ t. record t { bodies = without (is_body_of number) t.bodies })) tx.old tx.new result }
{
    tx.execute("DELETE FROM bodies WHERE job = ?1", params![number])
}

pub(crate) fn remove_job<S: Alter>(tx: &mut Transaction<'_, S>, number: u32) -> Result<usize, Error>
    ensures { Writes S.Store (Makes (Change.RemoveJob number)) tx.old tx.new result }
{
    delete_job(tx, number)?;
    delete_body(tx, number)
}

pub(crate) fn add_body<S: Alter>(
    tx: &mut Transaction<'_, S>,
    job: u32,
    bytes: &[u8],
) -> Result<usize, Error>
    ensures { Writes S.Store (Makes (Change.AddBody job bytes.entry)) tx.old tx.new result }
{
    tx.execute(
        "INSERT INTO bodies (job, bytes) VALUES (?1, ?2)",
        params![job, bytes],
    )
}

pub(crate) fn set_next<S: Alter>(tx: &mut Transaction<'_, S>, next: u32) -> Result<usize, Error>
    ensures { Writes S.Store (Makes (Change.SetNext next)) tx.old tx.new result }
{
    tx.execute("UPDATE spool SET next = ?1", params![next])
}
