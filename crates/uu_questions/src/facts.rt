// What is asked before a command: the facts from which it is planned.
ghost use Rattle.std.specs.Prelude.{◌≡◌, ℕ, pos, [], ◌∷◌, option_map, map, filter, IfOk, IfErr};
ghost use Rattle.sqlite.specs.declared.types.Value.TheVariants.{Int};
ghost use Rattle.sqlite.specs.declared.error.Error.TheVariants.{SqliteFailure};
ghost use Rattle.sqlite.specs.declared.error.ErrorCode.TheVariants.{OutOfMemory};
ghost use Rattle.uu_core.specs.State.{has_system, system_at, is_waiting, job_at, head_of, link_of, taken_at};
ghost use Rattle.uu_core.specs.Verdict.{verdict, are_known, taken_of};
ghost use Rattle.uu_core.specs.Laws.{AreFound};
ghost use Rattle.uu_tables.specs.declared.facts.Facts.{Facts};
ghost use Rattle.uu_core.specs.declared.command.Command.TheVariants.{Define, Remove, Queue, QueueOnce, Kill, Regrade, Rejuvenate, Failed, Done, Release, Forget};
ghost use Rattle.uu_tables.specs.Plans.{AreFacts, AreDoneFacts, AreReleaseFacts, IsFor, waits_under};
ghost use Rattle.uu_rows.specs.Readable.{IsSmall};
ghost use Rattle.uu_questions.specs.Answers.{Asks};
ghost use Rattle.uu_questions.specs.Links.{below_in, taken_in};
ghost use Rattle.uu_questions.specs.Waiting.{is_for};

use crate::asks::{has_row, typed_row};
use crate::systems::system_of_name;
use sqlite::{Alter, Connection, Error, Row, params};
use std::alloc::Global;
use uu_core::laws::refusals_change_nothing;
use uu_core::{Command, JobHead, Key, NewJob, Refusal, Taken};
use uu_names::SiteName;
use uu_tables::{Facts, LinkColumns, TakenColumns, make_plan};

// ---- what a command names

// Whether a system of this name is known.
pub(crate) fn is_known<S: Alter>(conn: &mut Connection<S>, name: &SiteName) -> Result<bool, Error>
    ensures { Asks S.Store (λ s known. known ≡ has_system s name.now) conn.old conn.new result }
{
    has_row(
        conn,
        "SELECT name FROM systems WHERE name = ?1",
        params![name.as_str()],
    )
}

// Whether a job waits for the system of this name.
fn is_waiting<S: Alter>(conn: &mut Connection<S>, name: &SiteName) -> Result<bool, Error>
    ensures { Asks S.Store (λ s waiting. waiting ≡ is_waiting s name.now) conn.old conn.new result }
{
    has_row(
        conn,
        "SELECT number FROM jobs WHERE system = ?1 LIMIT 1",
        params![name.as_str()],
    )
}

// The number in the rows of the answer. A spool always has the row.
fn next_in(rows: &[Row]) -> Result<u32, Error>
    ensures next { IfOk result (λ next. (n : ℕ) → rows.now ≡ (Int (pos n) ∷ []) ∷ [] → next ≡ n) }
    ensures memory { (n : ℕ) → IsSmall n → rows.now ≡ (Int (pos n) ∷ []) ∷ [] → IfErr result (λ error. error ≡ SqliteFailure OutOfMemory) }
{
    match rows.first() {
        Some(row) => row.get(0),
        None => Err(Error::QueryReturnedNoRows),
    }
}

/// The number of the next job.
pub fn next_number<S: Alter>(conn: &mut Connection<S>) -> Result<u32, Error>
    ensures { Asks S.Store (λ s next. next ≡ s.next) conn.old conn.new result }
{
    let rows = conn.query_all("SELECT next FROM spool WHERE id = 1", &[])?;
    next_in(rows.as_slice())
}

/// The job of this number without its bytes, if it is there.
pub(crate) fn head_of_job<S: Alter>(
    alloc: Global,
    conn: &mut Connection<S>,
    number: u32,
) -> Result<Option<JobHead>, Error>
    ensures { Asks S.Store (λ s head. head ≡ option_map head_of (job_at s number)) conn.old conn.new result }
{
    typed_row(
        alloc,
        conn,
        "SELECT number, system, rank, user, kind, queued, first_word, second_word, size FROM jobs WHERE number = ?1 ORDER BY number",
        params![number],
    )
}

// The jobs of these numbers without their bytes, as many as are there. A number that occurs twice
// gives its job twice.
fn heads_of_jobs<S: Alter>(
    alloc: Global,
    conn: &mut Connection<S>,
    numbers: &[u32],
) -> Result<Vec<JobHead>, Error>
    ensures { Asks S.Store (λ s found. AreFound numbers.now (map head_of s.jobs) found.items) conn.old conn.new result }
{
    let mut found = Vec::new(alloc);
    for number in numbers {
        if let Some(head) = head_of_job(alloc, conn, *number)? {
            found.push(head)?;
        }
    }
    Ok(found)
}

// Whether the job is there and waits for the system of this name.
fn is_for(head: &Option<JobHead>, name: &SiteName) -> bool
    ensures { result ≡ is_for name.now head.now }
{
    match head {
        Some(head) => head.system == *name,
        None => false,
    }
}

// Whether the job of this number waits for the system of this name.
fn waits_under<S: Alter>(
    alloc: Global,
    conn: &mut Connection<S>,
    name: &SiteName,
    number: u32,
) -> Result<bool, Error>
    ensures { Asks S.Store (λ s waits. waits ≡ waits_under s name.now number) conn.old conn.new result }
{
    let head = head_of_job(alloc, conn, number)?;
    Ok(is_for(&head, name))
}

// Those of the numbers under which a job waits for the system of this name.
fn numbers_that_wait<S: Alter>(
    alloc: Global,
    conn: &mut Connection<S>,
    name: &SiteName,
    numbers: &[u32],
) -> Result<Vec<u32>, Error>
    ensures { Asks S.Store (λ s found. found.items ≡ filter (waits_under s name.now) numbers.now) conn.old conn.new result }
{
    let mut found = Vec::new(alloc);
    for number in numbers {
        if waits_under(alloc, conn, name, *number)? {
            found.push(*number)?;
        }
    }
    Ok(found)
}

// The number in the row of a link, or 0 if there is no row.
fn below_in(row: Option<LinkColumns>) -> u32
    ensures { result ≡ below_in row }
{
    match row {
        Some(row) => row.below,
        None => 0,
    }
}

// The row of the neighbour's link, if it has one.
fn row_of_link<S: Alter>(
    alloc: Global,
    conn: &mut Connection<S>,
    name: &SiteName,
) -> Result<Option<LinkColumns>, Error>
    ensures { Asks S.Store (λ s row. below_in row ≡ (link_of s name.now).below) conn.old conn.new result }
{
    typed_row(
        alloc,
        conn,
        "SELECT system, below FROM links WHERE system = ?1 ORDER BY system",
        params![name.as_str()],
    )
}

// The number below which the neighbour won't ask again.
pub(crate) fn below_of<S: Alter>(
    alloc: Global,
    conn: &mut Connection<S>,
    name: &SiteName,
) -> Result<u32, Error>
    ensures { Asks S.Store (λ s below. below ≡ (link_of s name.now).below) conn.old conn.new result }
{
    let row = row_of_link(alloc, conn, name)?;
    Ok(below_in(row))
}

// What was taken, from its row.
fn taken_in(row: Option<TakenColumns>) -> Option<Taken>
    ensures { result ≡ taken_in row }
{
    match row {
        Some(row) => Some(row.taken),
        None => None,
    }
}

// The row of what was taken from the neighbour under this number, if it is there.
fn row_of_taken<S: Alter>(
    alloc: Global,
    conn: &mut Connection<S>,
    name: &SiteName,
    number: u32,
) -> Result<Option<TakenColumns>, Error>
    ensures { Asks S.Store (λ s row. taken_in row ≡ taken_at (link_of s name.now) number) conn.old conn.new result }
{
    typed_row(
        alloc,
        conn,
        "SELECT system, number, mark, job FROM taken WHERE system = ?1 AND number = ?2 ORDER BY system, number",
        params![name.as_str(), number],
    )
}

// What was taken from the neighbour under this number.
pub(crate) fn taken_of<S: Alter>(
    alloc: Global,
    conn: &mut Connection<S>,
    name: &SiteName,
    number: u32,
) -> Result<Option<Taken>, Error>
    ensures { Asks S.Store (λ s taken. taken ≡ taken_at (link_of s name.now) number) conn.old conn.new result }
{
    let row = row_of_taken(alloc, conn, name, number)?;
    Ok(taken_in(row))
}

// ---- the facts of each command

fn define_facts<S: Alter>(conn: &mut Connection<S>, system: &SiteName) -> Result<Facts, Error>
    ensures asks { Asks S.Store (λ s facts. facts ≡ Facts.Define (has_system s system.now)) conn.old conn.new result }
    ensures suits { (def : _) → IfOk result (λ facts. IsFor facts (Define def)) }
{
    let known = is_known(conn, system)?;
    Ok(Facts::Define { known })
}

fn remove_facts<S: Alter>(conn: &mut Connection<S>, system: &SiteName) -> Result<Facts, Error>
    ensures asks { Asks S.Store (λ s facts. facts ≡ Facts.Remove (has_system s system.now) (is_waiting s system.now)) conn.old conn.new result }
    ensures suits { (name : _) → IfOk result (λ facts. IsFor facts (Remove name)) }
{
    let known = is_known(conn, system)?;
    let waiting = is_waiting(conn, system)?;
    Ok(Facts::Remove { known, waiting })
}

fn queue_facts<S: Alter>(conn: &mut Connection<S>, system: &SiteName) -> Result<Facts, Error>
    ensures asks { Asks S.Store (λ s facts. facts ≡ Facts.Queue (has_system s system.now) s.next) conn.old conn.new result }
    ensures suits { (job : _) → IfOk result (λ facts. IsFor facts (Queue job)) }
{
    let known = is_known(conn, system)?;
    let next = next_number(conn)?;
    Ok(Facts::Queue { known, next })
}

fn job_facts<S: Alter>(alloc: Global, conn: &mut Connection<S>, number: u32) -> Result<Facts, Error>
    ensures asks { Asks S.Store (λ s facts. facts ≡ Facts.Job (option_map head_of (job_at s number))) conn.old conn.new result }
    ensures kill { (job : _) → (by : _) → IfOk result (λ facts. IsFor facts (Kill job by)) }
    ensures regrade { (job : _) → (grade : _) → (by : _) → IfOk result (λ facts. IsFor facts (Regrade job grade by)) }
    ensures rejuvenate { (job : _) → (at : _) → (by : _) → IfOk result (λ facts. IsFor facts (Rejuvenate job at by)) }
{
    let head = head_of_job(alloc, conn, number)?;
    Ok(Facts::Job(head))
}

fn failed_facts<S: Alter>(
    alloc: Global,
    conn: &mut Connection<S>,
    system: &SiteName,
) -> Result<Facts, Error>
    ensures asks { Asks S.Store (λ s facts. facts ≡ Facts.Failed (system_at s system.now)) conn.old conn.new result }
    ensures suits { (name : _) → (at : _) → (why : _) → IfOk result (λ facts. IsFor facts (Failed name at why)) }
{
    let row = system_of_name(alloc, conn, system)?;
    Ok(Facts::Failed(row))
}

fn done_facts<S: Alter>(
    alloc: Global,
    conn: &mut Connection<S>,
    system: &SiteName,
    numbers: &[u32],
) -> Result<Facts, Error>
    ensures asks { Asks S.Store (λ s facts. AreDoneFacts facts s system.now numbers.now) conn.old conn.new result }
    ensures suits { (name : _) → (at : _) → (jobs : _) → IfOk result (λ facts. IsFor facts (Done name at jobs)) }
{
    let row = system_of_name(alloc, conn, system)?;
    let found = heads_of_jobs(alloc, conn, numbers)?;
    Ok(Facts::Done { row, found })
}

fn forget_facts<S: Alter>(
    alloc: Global,
    conn: &mut Connection<S>,
    system: &SiteName,
) -> Result<Facts, Error>
    ensures asks { Asks S.Store (λ s facts. facts ≡ Facts.Forget (has_system s system.now) (link_of s system.now).below) conn.old conn.new result }
    ensures suits { (name : _) → (below : _) → IfOk result (λ facts. IsFor facts (Forget name below)) }
{
    let known = is_known(conn, system)?;
    let before = below_of(alloc, conn, system)?;
    Ok(Facts::Forget { known, before })
}

// Whether the neighbour and the job's system are known.
fn are_known<S: Alter>(conn: &mut Connection<S>, key: &Key, job: &NewJob) -> Result<bool, Error>
    ensures { Asks S.Store (λ s known. known ≡ are_known s key.now job.now) conn.old conn.new result }
{
    let from = is_known(conn, &key.from)?;
    let system = is_known(conn, &job.system)?;
    Ok(from && system)
}

// The same, and the number of the next job.
fn are_known_and_next<S: Alter>(
    conn: &mut Connection<S>,
    key: &Key,
    job: &NewJob,
) -> Result<(bool, u32), Error>
    ensures { Asks S.Store (λ s pair. (pair.0 ≡ are_known s key.now job.now) × (pair.1 ≡ s.next)) conn.old conn.new result }
{
    let known = are_known(conn, key, job)?;
    let next = next_number(conn)?;
    Ok((known, next))
}

// What is known about the key's link.
fn below_and_taken<S: Alter>(
    alloc: Global,
    conn: &mut Connection<S>,
    key: &Key,
) -> Result<(u32, Option<Taken>), Error>
    ensures { Asks S.Store (λ s pair. (pair.0 ≡ (link_of s key.now.from).below) × (pair.1 ≡ taken_of s key.now)) conn.old conn.new result }
{
    let below = below_of(alloc, conn, &key.from)?;
    let taken = taken_of(alloc, conn, &key.from, key.number)?;
    Ok((below, taken))
}

fn queue_once_facts<S: Alter>(
    alloc: Global,
    conn: &mut Connection<S>,
    key: &Key,
    job: &NewJob,
) -> Result<Facts, Error>
    ensures asks { Asks S.Store (λ s facts. facts ≡ Facts.QueueOnce (are_known s key.now job.now) s.next (link_of s key.now.from).below (taken_of s key.now)) conn.old conn.new result }
    ensures suits { (key : _) → (job : _) → IfOk result (λ facts. IsFor facts (QueueOnce key job)) }
{
    let (known, next) = are_known_and_next(conn, key, job)?;
    let (below, taken) = below_and_taken(alloc, conn, key)?;
    Ok(Facts::QueueOnce {
        known,
        next,
        below,
        taken,
    })
}

fn release_facts<S: Alter>(
    alloc: Global,
    conn: &mut Connection<S>,
    system: &SiteName,
    numbers: &[u32],
) -> Result<Facts, Error>
    ensures asks { Asks S.Store (λ s facts. AreReleaseFacts facts s system.now numbers.now) conn.old conn.new result }
    ensures suits { (name : _) → (jobs : _) → IfOk result (λ facts. IsFor facts (Release name jobs)) }
{
    let found = numbers_that_wait(alloc, conn, system, numbers)?;
    Ok(Facts::Release { found })
}

/// What has to be known before the command is planned: only what the command names. The facts are
/// of the kind that the command asks for, with any database.
pub fn facts_for<S: Alter>(
    alloc: Global,
    conn: &mut Connection<S>,
    command: &Command,
) -> Result<Facts, Error>
    ensures asks { Asks S.Store (λ s facts. AreFacts facts s command.now) conn.old conn.new result }
    ensures suits { IfOk result (λ facts. IsFor facts command.now) }
{
    match command {
        Command::Define(def) => define_facts(conn, &def.name),
        Command::Remove(system) => remove_facts(conn, system),
        Command::Queue(job) => queue_facts(conn, &job.system),
        Command::QueueOnce(key, job) => queue_once_facts(alloc, conn, key, job),
        Command::Kill { job, .. }
        | Command::Regrade { job, .. }
        | Command::Rejuvenate { job, .. } => job_facts(alloc, conn, *job),
        Command::Failed { system, .. } => failed_facts(alloc, conn, system),
        Command::Done { system, jobs, .. } => done_facts(alloc, conn, system, jobs.as_slice()),
        Command::Release { system, jobs } => release_facts(alloc, conn, system, jobs.as_slice()),
        Command::Entry(_) => Ok(Facts::Entry),
        Command::Forget { system, .. } => forget_facts(alloc, conn, system),
    }
}

/// Why the command would be refused now, if it would be: the refusal that its plan has.
pub fn refusal_of<S: Alter>(
    alloc: Global,
    conn: &mut Connection<S>,
    command: &Command,
) -> Result<Option<Refusal>, Error>
    ensures { Asks S.Store (λ s refusal. refusal ≡ verdict s command.now) conn.old conn.new result }
{
    refusals_change_nothing();
    let facts = facts_for(alloc, conn, command)?;
    let plan = make_plan(alloc, &facts, command)?;
    Ok(plan.reply.refusal())
}
