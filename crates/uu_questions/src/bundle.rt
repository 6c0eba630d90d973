// What is asked before a neighbour's bundle: the facts from which it is planned.
ghost use Rattle.std.specs.Prelude.{◌≡◌, map, length, IfOk};
ghost use Rattle.uu_core.specs.State.{has_system, link_of};
ghost use Rattle.uu_tables.specs.TakeInPlans.{AreTakeInFacts, fact_of};
ghost use Rattle.uu_questions.specs.Answers.{Asks};

use crate::facts::{below_of, is_known, next_number, taken_of};
use sqlite::{Alter, Connection, Error};
use std::alloc::Global;
use uu_core::{Offered, TakeIn};
use uu_names::SiteName;
use uu_tables::{OfferedFacts, TakeInFacts};

// The facts about a job of the neighbour's. `known` says whether the neighbour is known.
fn fact_of<S: Alter>(
    alloc: Global,
    conn: &mut Connection<S>,
    known: bool,
    from: &SiteName,
    offered: &Offered,
) -> Result<OfferedFacts, Error>
    ensures { Asks S.Store (λ s fact. known ≡ has_system s from.now → fact ≡ fact_of s from.now offered.now) conn.old conn.new result }
{
    let system = is_known(conn, &offered.job.system)?;
    let taken = taken_of(alloc, conn, from, offered.number)?;
    Ok(OfferedFacts {
        known: known && system,
        taken,
    })
}

// The same for each job, in order.
fn facts_of_jobs<S: Alter>(
    alloc: Global,
    conn: &mut Connection<S>,
    known: bool,
    from: &SiteName,
    jobs: &[Offered],
) -> Result<Vec<OfferedFacts>, Error>
    ensures asks { Asks S.Store (λ s facts. known ≡ has_system s from.now → facts.items ≡ map (fact_of s from.now) jobs.now) conn.old conn.new result }
    ensures suits { IfOk result (λ facts. length facts.items ≡ length jobs.now) }
{
    let mut facts = Vec::new(alloc);
    for offered in jobs {
        let fact = fact_of(alloc, conn, known, from, offered)?;
        facts.push(fact)?;
    }
    Ok(facts)
}

// Whether the neighbour is known, and the number of the next job.
fn known_and_next<S: Alter>(conn: &mut Connection<S>, from: &SiteName) -> Result<(bool, u32), Error>
    ensures { Asks S.Store (λ s pair. (pair.0 ≡ has_system s from.now) × (pair.1 ≡ s.next)) conn.old conn.new result }
{
    let known = is_known(conn, from)?;
    let next = next_number(conn)?;
    Ok((known, next))
}

// The facts about the neighbour, without those about its jobs.
fn facts_of_neighbour<S: Alter>(
    alloc: Global,
    conn: &mut Connection<S>,
    from: &SiteName,
) -> Result<TakeInFacts, Error>
    ensures { Asks S.Store (λ s facts. (facts.known ≡ has_system s from.now) × (facts.next ≡ s.next) × (facts.before ≡ (link_of s from.now).below)) conn.old conn.new result }
{
    let (known, next) = known_and_next(conn, from)?;
    let before = below_of(alloc, conn, from)?;
    Ok(TakeInFacts {
        known,
        next,
        before,
        jobs: Vec::new(alloc),
    })
}

/// What has to be known before a neighbour's bundle is planned. It asks once whether the neighbour
/// is known. For each job it asks whether its system is known and what was taken under its number.
/// There are as many answers as jobs, with any database.
pub fn facts_for_take_in<S: Alter>(
    alloc: Global,
    conn: &mut Connection<S>,
    it: &TakeIn,
) -> Result<TakeInFacts, Error>
    ensures asks { Asks S.Store (λ s facts. AreTakeInFacts facts s it.now) conn.old conn.new result }
    ensures suits { IfOk result (λ facts. length facts.jobs.items ≡ length it.now.jobs) }
{
    let facts = facts_of_neighbour(alloc, conn, &it.from)?;
    let jobs = facts_of_jobs(alloc, conn, facts.known, &it.from, it.jobs.as_slice())?;
    Ok(TakeInFacts { jobs, ..facts })
}
