// The spool over one connection.
ghost use Rattle.std.specs.Prelude.{◌≡◌, false, IfErr};
ghost use Rattle.sqlite.specs.Held.{state};
ghost use Rattle.uu_core.specs.State.{State, IsWellFormed, empty};
ghost use Rattle.uu_tables.specs.Tables.{tables_of};
ghost use Rattle.uu_tables.specs.Changes.{applied};
ghost use Rattle.uu_tables.specs.Plans.{AreFacts, IsFor};
ghost use Rattle.uu_tables.specs.TakeInPlans.{AreTakeInFacts};
ghost use Rattle.uu_schema.specs.Faults.{IsFaultOfThisCall};
ghost use Rattle.uu_schema.specs.Steps.{IsIdle, StaysUnclean};

use crate::limits::{bounded_heads, bounded_job, timed_systems};
use sqlite::{Alter, Connection, Error};
use std::alloc::Global;
use std::mem::drop;
use uu_adopt::{Contents, is_alone, read_contents};
use uu_core::laws::{commands_are_sound, states_stay_well_formed, take_ins_are_sound};
use uu_core::{Command, Due, Filter, JobHead, Refusal, Reply, SystemRow, TakeIn, Taken};
use uu_names::{Listed, SiteName};
use uu_questions::{
    all_entries, all_systems, entry_of_host, facts_for, facts_for_take_in, job_of_number,
    list_jobs, next_number, refusal_of, systems_due, taken_from,
};
use uu_rows::RowFault;
use uu_schema::{StoreFault, StoreKind, store_fault};
use uu_statements::carry_out;
use uu_tables::{Change, Facts, TakeInFacts, make_plan, plan_take_in};
use uu_times::Moment;

/// A spool, over a connection that it owns.
///
/// While nobody else writes the file and the disk returns what was written, a spool shows one state
/// of the plain machine of `uu_core`. A command is one step of the machine. It is in the file once
/// it is answered `Done` or `Number`. A bundle is its commands, one after the other, as one step.
#[derive(Drop)]
pub struct Spool<S: Alter> {
    conn: Connection<S>,
    // Which part of the store failed, once a call answered that it failed.
    failure: Option<StoreKind>,
    ghost idle: { IsIdle conn },
}

impl<S: Alter> Spool<S> {
    ghost use Rattle.std.specs.Prelude.{[], ◌∷◌, ◌+◌, ⊤, IsTrue, IfOk, IfSome, Err, MatchResult, option_map, map, length};
    ghost use Rattle.std.specs.List.{AllByRecursion};
    ghost use Rattle.uu_core.specs.State.{head_of, job_at, entry_at, link_of};
    ghost use Rattle.uu_core.specs.Due.{AreDue};
    ghost use Rattle.uu_adopt.specs.Alone.{is_alone};
    ghost use Rattle.uu_adopt.specs.Contents.{AreContentsOf};
    ghost use Rattle.uu_questions.specs.Listing.{listed_jobs};
    ghost use Rattle.uu_questions.specs.Systems.{holding};
    ghost use Rattle.uu_store.specs.HandedOut.{IsBounded, IsTimed, job_shown};
    ghost use Rattle.sqlite.specs.State.{HasCleanDisk};
    ghost use Rattle.sqlite.specs.View.{IsClean};
    ghost use Rattle.uu_core.specs.Verdict.{verdict};
    ghost use Rattle.uu_core.specs.After.{after};
    ghost use Rattle.uu_core.specs.TakeIns.{commands_in, after_take_in};
    ghost use Rattle.uu_schema.specs.Encoded.{Leaves, LeavesEither};
    ghost use Rattle.uu_store.specs.Spool.{connection_of, disk, failure_of, has_failed, Shows, IsFaultBetween, Notes};
    ghost use Rattle.uu_store.specs.Commands.{IsStep, IsCommandStep, IsTakingStep};
    ghost use Rattle.uu_store.specs.Questions.{IsQuestion, IsTold};
    ghost use Rattle.uu_store.specs.Runs.{Ran, reply_in, replies_in, fault_in};
    ghost use Rattle.uu_store.specs.Stretches.{IsLetGo};

    /// A spool over a connection whose tables are those of a spool.
    pub(crate) fn over(conn: Connection<S>) -> Spool<S>
        requires { IsIdle conn }
        ensures connection { connection_of result ≡ conn }
        ensures usable { has_failed result ≡ false }
    {
        Spool {
            conn,
            failure: None,
        }
    }

    /// Gives the connection back, with no transaction open on it. It allocates nothing.
    pub fn release(self) -> Connection<S>
        ensures connection { result ≡ connection_of self }
        ensures idle { IsIdle result }
        ensures stop { (s : _) → Shows self s → Leaves (state S.Store result) s }
    {
        let Spool { conn, failure: _ } = self;
        conn
    }

    /// Gives back the store under the connection. An open transaction is undone. It allocates
    /// nothing.
    pub fn into_store(self) -> S
    where
        S: Drop,
        ensures let_go { IsLetGo S.Store (connection_of self).store result }
        ensures numbered { IsClean (S.Store.view result) → IsTrue (S.Store.view result).is_numbered }
    {
        let conn = self.release();
        conn.into_store()
    }

    /// Gives the connection back, or, if the store failed before, the store as it is let go.
    pub(crate) fn release_unless_failed(self) -> Result<Connection<S>, (StoreFault, S)>
    where
        S: Drop,
        ensures usable { MatchResult result (λ _. has_failed self ≡ false) (λ e. IsTrue (has_failed self) × (e.0 ≡ StoreFault.Failed)) }
        ensures connection { IfOk result (λ conn. conn ≡ connection_of self) }
        ensures let_go { IfErr result (λ e. IsLetGo S.Store (connection_of self).store e.1) }
        ensures numbered { IfErr result (λ e. IsClean (S.Store.view e.1) → IsTrue (S.Store.view e.1).is_numbered) }
    {
        if self.is_failed() {
            return Err((StoreFault::Failed, self.into_store()));
        }
        Ok(self.release())
    }

    /// Whether an earlier call answered that the store failed.
    pub(crate) fn is_failed(&self) -> bool
        ensures { result ≡ has_failed self.now }
    {
        self.failure.is_some()
    }

    /// Whether its database has nothing beside the tables of a spool: no other table, column, index,
    /// view or trigger.
    pub fn is_alone(&self) -> bool
        ensures exact { result ≡ is_alone (disk self.now).now.schema }

        // That of a spool that shows a state has nothing else.
        ensures own { (s : State) → Shows self.now s → IsTrue result }
    {
        is_alone(self.conn.schema())
    }

    // After a fault of the store no more statements are given.
    fn noted(&mut self, fault: StoreFault) -> StoreFault
        requires { has_failed self.old ≡ false }
        ensures same { result ≡ fault }
        ensures connection { connection_of self.new ≡ connection_of self.old }
        ensures marked { IsFaultOfThisCall fault → IsFaultBetween false (has_failed self.new) fault }
        ensures noted { Notes (failure_of self.new) fault }
    {
        if let StoreFault::Store(kind) = fault {
            self.failure = Some(kind);
        }
        fault
    }

    // What the caller gets for an answer to a question over the connection.
    fn told<T: Drop>(&mut self, asked: Result<T, Error>) -> Result<T, StoreFault>
        requires { has_failed self.old ≡ false }
        ensures { IsTold asked self.old self.new result }
    {
        match asked {
            Ok(answer) => Ok(answer),
            Err(error) => {
                let fault = store_fault(&mut self.conn, &error);
                Err(self.noted(fault))
            }
        }
    }

    /// Carries out one command. Its last call of the database is the commit. A refused command
    /// changes nothing, and its refusal is a reply, not an error.
    ///
    /// # Errors
    /// `Memory`: nothing changed, and the spool can be used. `Store`: the command is kept whole or
    /// not at all, and the next opening shows which. From then on every command and question
    /// answers `Failed` and does nothing.
    pub fn command(&mut self, alloc: Global, command: Command) -> Result<Reply, StoreFault>
        ensures marked { MatchResult result (λ _. (has_failed self.old ≡ false) × (has_failed self.new ≡ false)) (IsFaultBetween (has_failed self.old) (has_failed self.new)) }
        ensures noted { IfErr result (Notes (failure_of self.new)) }

        // On a clean store a command is one step of the machine.
        ensures step { HasCleanDisk (disk self.new) → (s : _) → Shows self.old s → IfOk result (λ reply. (reply ≡ (after s command).1) × Shows self.new (after s command).0) }
        ensures memory { HasCleanDisk (disk self.new) → (s : _) → Shows self.old s → result ≡ Err StoreFault.Memory → Shows self.new s }

        // What a stop at its end leaves.
        ensures stop_ok { HasCleanDisk (disk self.new) → (s : _) → Shows self.old s → IfOk result (λ _. Leaves (disk self.new) (after s command).0) }
        ensures stop_memory { HasCleanDisk (disk self.new) → (s : _) → Shows self.old s → result ≡ Err StoreFault.Memory → Leaves (disk self.new) s }
        ensures stop_store { HasCleanDisk (disk self.new) → (s : _) → Shows self.old s → LeavesEither (disk self.new) s (after s command).0 }
        ensures clean { StaysUnclean (disk self.old) (disk self.new) }

        // A spool that failed is left as it was.
        ensures failed { IsTrue (has_failed self.old) → (result ≡ Err StoreFault.Failed) × (self.new ≡ self.old) }

        // So it is a run of one command.
        ensures ran { Ran 1 (command ∷ []) self.old self.new (reply_in result) (fault_in result) }
    {
        if self.is_failed() {
            drop(command);
            return Err(StoreFault::Failed);
        }
        let facts = facts_for(alloc, &mut self.conn, &command);
        match self.told(facts) {
            Ok(facts) => self.carry_out(alloc, facts, command),
            Err(fault) => {
                drop(command);
                Err(fault)
            }
        }
    }

    /// Takes in a neighbour's bundle: the neighbour won't ask again for its jobs below a number,
    /// and hands in its other jobs, one after the other. The bundle is taken in whole or not at
    /// all, in one transaction whose commit is the last call of the database. A refused job changes
    /// nothing, and the others are still taken in. The replies are those to [`Command::Forget`] and
    /// then to each job's [`Command::QueueOnce`].
    ///
    /// # Errors
    /// `Memory`: nothing changed, and the spool can be used. `Store`: the bundle is kept whole or
    /// not at all, and the next opening shows which. From then on every command and question
    /// answers `Failed` and does nothing.
    pub fn take_in(&mut self, alloc: Global, bundle: TakeIn) -> Result<Vec<Reply>, StoreFault>
        ensures marked { MatchResult result (λ _. (has_failed self.old ≡ false) × (has_failed self.new ≡ false)) (IsFaultBetween (has_failed self.old) (has_failed self.new)) }
        ensures noted { IfErr result (Notes (failure_of self.new)) }

        // On a clean store a bundle is its commands, one after the other.
        ensures step { HasCleanDisk (disk self.new) → (s : _) → Shows self.old s → IfOk result (λ replies. (replies.items ≡ (after_take_in s bundle).1) × Shows self.new (after_take_in s bundle).0) }
        ensures memory { HasCleanDisk (disk self.new) → (s : _) → Shows self.old s → result ≡ Err StoreFault.Memory → Shows self.new s }

        // What a stop at its end leaves: never a part of the bundle.
        ensures stop_ok { HasCleanDisk (disk self.new) → (s : _) → Shows self.old s → IfOk result (λ _. Leaves (disk self.new) (after_take_in s bundle).0) }
        ensures stop_memory { HasCleanDisk (disk self.new) → (s : _) → Shows self.old s → result ≡ Err StoreFault.Memory → Leaves (disk self.new) s }
        ensures stop_store { HasCleanDisk (disk self.new) → (s : _) → Shows self.old s → LeavesEither (disk self.new) s (after_take_in s bundle).0 }
        ensures clean { StaysUnclean (disk self.old) (disk self.new) }

        // There are as many replies as commands, on any store.
        ensures every { IfOk result (λ replies. length replies.items ≡ length (commands_in bundle)) }

        // A spool that failed is left as it was.
        ensures failed { IsTrue (has_failed self.old) → (result ≡ Err StoreFault.Failed) × (self.new ≡ self.old) }

        // So it is a run of its commands, all of them in hand at once.
        ensures ran { Ran (length bundle.jobs + 1) (commands_in bundle) self.old self.new (replies_in result) (fault_in result) }
    {
        if self.is_failed() {
            drop(bundle);
            return Err(StoreFault::Failed);
        }
        let facts = facts_for_take_in(alloc, &mut self.conn, &bundle);
        match self.told(facts) {
            Ok(facts) => self.carry_out_bundle(alloc, facts, bundle),
            Err(fault) => {
                drop(bundle);
                Err(fault)
            }
        }
    }

    /// Makes an empty spool show what these contents have, in one transaction whose commit is the
    /// last call of the database.
    ///
    /// # Errors
    /// `Memory`: it is still empty, and can be used. `Store`: the contents are kept whole or not at
    /// all. From then on every command and question answers `Failed` and does nothing.
    pub fn fill(&mut self, alloc: Global, contents: &Contents) -> Result<(), StoreFault>
        ensures marked { MatchResult result (λ _. (has_failed self.old ≡ false) × (has_failed self.new ≡ false)) (IsFaultBetween (has_failed self.old) (has_failed self.new)) }
        ensures noted { IfErr result (Notes (failure_of self.new)) }

        // On a clean store it then shows the state whose contents they are. A stop at its end
        // leaves that, or an empty spool.
        ensures step { (s : State) → AreContentsOf s contents.now → IsStep empty s (λ _. ⊤) self.old self.new result }
        ensures clean { StaysUnclean (disk self.old) (disk self.new) }

        // A spool that failed is left as it was.
        ensures failed { IsTrue (has_failed self.old) → (result ≡ Err StoreFault.Failed) × (self.new ≡ self.old) }
    {
        if self.is_failed() {
            return Err(StoreFault::Failed);
        }
        match contents.changes(alloc) {
            Ok(changes) => self.make_changes(alloc, (), changes.as_slice()),
            Err(RowFault::Memory) => Err(StoreFault::Memory),
            Err(RowFault::Bad) => Err(self.noted(StoreFault::Store(StoreKind::Database))),
        }
    }

    // Carries out a command with these facts: its changes are planned, and made in one transaction.
    fn carry_out(
        &mut self,
        alloc: Global,
        facts: Facts,
        command: Command,
    ) -> Result<Reply, StoreFault>
        requires usable { has_failed self.old ≡ false }
        requires suits { IsFor facts command }
        ensures marked { MatchResult result (λ _. has_failed self.new ≡ false) (IsFaultBetween false (has_failed self.new)) }
        ensures noted { IfErr result (Notes (failure_of self.new)) }
        ensures step { (s : State) → AreFacts facts s command → IsCommandStep s command self.old self.new result }
        ensures clean { StaysUnclean (disk self.old) (disk self.new) }
    {
        commands_are_sound(&command);
        states_stay_well_formed();
        match make_plan(alloc, &facts, &command) {
            Ok(plan) => self.make_changes(alloc, plan.reply, plan.changes.as_slice()),
            Err(_) => Err(StoreFault::Memory),
        }
    }

    // Takes in a bundle with these facts: the changes of all its jobs are planned, and made in one
    // transaction.
    fn carry_out_bundle(
        &mut self,
        alloc: Global,
        facts: TakeInFacts,
        bundle: TakeIn,
    ) -> Result<Vec<Reply>, StoreFault>
        requires usable { has_failed self.old ≡ false }
        requires suits { length facts.jobs.items ≡ length bundle.jobs }
        ensures marked { MatchResult result (λ _. has_failed self.new ≡ false) (IsFaultBetween false (has_failed self.new)) }
        ensures noted { IfErr result (Notes (failure_of self.new)) }
        ensures step { (s : State) → AreTakeInFacts facts s bundle → IsTakingStep s bundle self.old self.new result }
        ensures every { IfOk result (λ replies. length replies.items ≡ length (commands_in bundle)) }
        ensures clean { StaysUnclean (disk self.old) (disk self.new) }
    {
        take_ins_are_sound(&bundle);
        states_stay_well_formed();
        match plan_take_in(alloc, &facts, &bundle) {
            Ok(plan) => self.make_changes(alloc, plan.replies, plan.changes.as_slice()),
            Err(_) => Err(StoreFault::Memory),
        }
    }

    // Makes the changes in one transaction, and then answers with the reply.
    fn make_changes<R: Drop>(
        &mut self,
        alloc: Global,
        reply: R,
        changes: &[Change<'_>],
    ) -> Result<R, StoreFault>
        requires { has_failed self.old ≡ false }
        ensures marked { MatchResult result (λ _. has_failed self.new ≡ false) (IsFaultBetween false (has_failed self.new)) }
        ensures noted { IfErr result (Notes (failure_of self.new)) }
        ensures same { IfOk result (λ answer. answer ≡ reply) }
        ensures step { (s t : State) → (IsWellFormed s → (applied changes.now (tables_of s) ≡ tables_of t) × IsWellFormed t) → IsStep s t (λ answer. answer ≡ reply) self.old self.new result }
        ensures clean { StaysUnclean (disk self.old) (disk self.new) }
    {
        match carry_out(alloc, &mut self.conn, reply, changes) {
            Ok(answer) => Ok(answer),
            Err(fault) => Err(self.noted(fault)),
        }
    }

    /// Everything that the spool keeps, to be copied into an empty one.
    ///
    /// # Errors
    /// As [`Spool::jobs`].
    pub fn contents(&mut self, alloc: Global) -> Result<Contents, StoreFault>
        ensures question { IsQuestion AreContentsOf self.old self.new result }
    {
        if self.is_failed() {
            return Err(StoreFault::Failed);
        }
        let contents = read_contents(alloc, &mut self.conn);
        self.told(contents)
    }

    /// The heads of the jobs that match, by grade, the highest first, and within a grade by number.
    ///
    /// # Errors
    /// `Memory`: nothing changed, and the spool can be used. `Store`: the database failed, or has a
    /// row that a spool doesn't allow; nothing that is kept changed. From then on every command and
    /// question answers `Failed` and does nothing.
    pub fn jobs(&mut self, alloc: Global, filter: &Filter) -> Result<Vec<JobHead>, StoreFault>
        ensures question { IsQuestion (λ s heads. heads.items ≡ listed_jobs filter.now s) self.old self.new result }
        ensures bounds { IfOk result (λ heads. AllByRecursion IsBounded heads.items) }
    {
        if self.is_failed() {
            return Err(StoreFault::Failed);
        }
        let heads = list_jobs(alloc, &mut self.conn, filter);
        self.told(heads.and_then(bounded_heads))
    }

    /// The job of this number with all its bytes, if it is there.
    ///
    /// # Errors
    /// As [`Spool::jobs`].
    pub fn job(
        &mut self,
        alloc: Global,
        number: u32,
    ) -> Result<Option<(JobHead, Vec<u8>)>, StoreFault>
        ensures question { IsQuestion (λ s found. option_map job_shown found ≡ job_at s number) self.old self.new result }
        ensures size { IfOk result (λ found. IfSome found (λ job. job.0.size ≡ length job.1.items)) }
        ensures bounds { IfOk result (λ found. IfSome found (λ job. IsBounded job.0)) }
    {
        if self.is_failed() {
            return Err(StoreFault::Failed);
        }
        let found = job_of_number(alloc, &mut self.conn, number);
        self.told(found.and_then(bounded_job))
    }

    /// All systems with their definitions and call states, in byte order of their names.
    ///
    /// # Errors
    /// As [`Spool::jobs`].
    pub fn systems(&mut self, alloc: Global) -> Result<Vec<SystemRow>, StoreFault>
        ensures question { IsQuestion (λ s systems. systems.items ≡ s.systems) self.old self.new result }
        ensures formed { IfOk result (λ systems. IsWellFormed (holding systems.items)) }
        ensures bounds { IfOk result (λ systems. AllByRecursion IsTimed systems.items) }
    {
        if self.is_failed() {
            return Err(StoreFault::Failed);
        }
        let systems = all_systems(alloc, &mut self.conn);
        self.told(systems.and_then(timed_systems))
    }

    /// What is due at the moment: each system that may be called then, with its first job by grade
    /// and number.
    ///
    /// # Errors
    /// As [`Spool::jobs`].
    pub fn due(&mut self, alloc: Global, at: &Moment) -> Result<Vec<Due>, StoreFault>
        ensures question { IsQuestion (λ s dues. AreDue s.systems (map head_of s.jobs) at.now dues.items) self.old self.new result }
    {
        if self.is_failed() {
            return Err(StoreFault::Failed);
        }
        let dues = systems_due(alloc, &mut self.conn, at);
        self.told(dues)
    }

    /// The text of the map entry of a host, if it is there.
    ///
    /// # Errors
    /// As [`Spool::jobs`].
    pub fn entry(&mut self, alloc: Global, host: &SiteName) -> Result<Option<Vec<u8>>, StoreFault>
        ensures question { IsQuestion (λ s found. option_map (λ text. text.items) found ≡ option_map (λ entry. entry.bytes) (entry_at s host.now)) self.old self.new result }
    {
        if self.is_failed() {
            return Err(StoreFault::Failed);
        }
        let found = entry_of_host(alloc, &mut self.conn, host);
        self.told(found)
    }

    /// The texts of all map entries, in byte order of their hosts.
    ///
    /// # Errors
    /// As [`Spool::jobs`].
    pub fn entries(&mut self, alloc: Global) -> Result<Vec<Listed<u8>>, StoreFault>
        ensures question { IsQuestion (λ s texts. texts.items ≡ map (λ entry. entry.bytes) s.entries) self.old self.new result }
    {
        if self.is_failed() {
            return Err(StoreFault::Failed);
        }
        let texts = all_entries(alloc, &mut self.conn);
        self.told(texts)
    }

    /// What was taken from the neighbour of this name, by its number there; nothing if nothing is
    /// kept for it.
    ///
    /// # Errors
    /// As [`Spool::jobs`].
    pub fn taken(&mut self, alloc: Global, system: &SiteName) -> Result<Vec<Taken>, StoreFault>
        ensures question { IsQuestion (λ s taken. taken.items ≡ (link_of s system.now).taken) self.old self.new result }
    {
        if self.is_failed() {
            return Err(StoreFault::Failed);
        }
        let taken = taken_from(alloc, &mut self.conn, system);
        self.told(taken)
    }

    /// Why the command would be refused now, if it would be. It isn't carried out.
    ///
    /// # Errors
    /// As [`Spool::jobs`].
    pub fn refusal(
        &mut self,
        alloc: Global,
        command: &Command,
    ) -> Result<Option<Refusal>, StoreFault>
        ensures question { IsQuestion (λ s refusal. refusal ≡ verdict s command.now) self.old self.new result }
    {
        if self.is_failed() {
            return Err(StoreFault::Failed);
        }
        let refusal = refusal_of(alloc, &mut self.conn, command);
        self.told(refusal)
    }

    /// The number that the next job gets.
    ///
    /// # Errors
    /// As [`Spool::jobs`].
    pub fn next(&mut self) -> Result<u32, StoreFault>
        ensures question { IsQuestion (λ s next. next ≡ s.next) self.old self.new result }
    {
        if self.is_failed() {
            return Err(StoreFault::Failed);
        }
        let next = next_number(&mut self.conn);
        self.told(next)
    }
}
