// A database or two files in which something is done while memory runs out, and whether the result
// is right.
ghost use Rattle.std.specs.Prelude.{◌≡◌, false};

use crate::acts::{Act, Answered, End, end_of, is_failed, perform, picture, play};
use crate::files::{Contents, Left, MANY_PAGES, files_of, left_of, nothing};
use crate::refusing::{Call, NONE, Outcome, Refusing, outcome_if, was_refused};
use sqlite::{Alter, Connection, Options};
use sqlite_disk::{Disk, Files};
use std::alloc::Global;
use std::process::Abort;
use uu_store::{Spool, StoreFault};

/// What is done in a database.
#[derive(Clone, Copy)]
pub(crate) enum Deed {
    /// A call of the spool, after others.
    Call(&'static [Act], Act),
    /// The database is taken as a spool. It was one before in which this was done, and then the
    /// statements changed it.
    Adopt(&'static [Act], &'static [&'static str]),
    /// The files of a spool in which this was done are closed.
    Close(&'static [Act]),
    /// Statements change a database, whether or not it is a spool's.
    Change(&'static [&'static str]),
}

/// The result.
#[derive(Drop)]
pub(crate) struct Met {
    refused: bool,
    end: End,
    /// What was answered so far.
    text: String,
    /// What the spool shows then, if it is there.
    shown: Option<String>,
    /// What the same call answers then, if it is made again.
    again: Option<String>,
}

/// What a spool counts as showing that failed and allocates nothing.
const FAILED: &str = "failed";

// ---- a call of a spool

/// What a spool shows, or that it failed.
fn seen<S: Alter>(rt: &impl Abort, alloc: Global, spool: &mut Spool<S>) -> String {
    if spool.next() != Err(StoreFault::Failed) {
        picture(rt, alloc, spool)
    } else if is_failed(rt, alloc, spool) {
        String::from_str(alloc, FAILED).expect(rt, "memory")
    } else {
        String::new(alloc)
    }
}

/// Whether the call may be made once more with the same answer. A run and a batch would go on from
/// another state.
fn may_be_repeated(call: Act) -> bool {
    !matches!(
        call,
        Act::Run(_) | Act::Batch(_) | Act::GoOn(_, _) | Act::Tell(_)
    )
}

/// The answer of the call when it is made once more with ample memory, or nothing if it reports a
/// fault.
fn answered_again<S: Alter>(
    rt: &impl Abort,
    alloc: Global,
    spool: &mut Spool<S>,
    call: Act,
) -> String {
    let Answered {
        refused: _,
        end,
        text,
    } = perform(rt, alloc, spool, call, NONE);
    match end {
        End::Whole | End::Refused => text,
        _ => String::new(alloc),
    }
}

fn call<S: Alter>(
    rt: &impl Abort,
    alloc: Global,
    spool: &mut Spool<S>,
    call: Act,
    refusing: Refusing,
) -> Met {
    let Answered { refused, end, text } = perform(rt, alloc, spool, call, refusing);
    let shown = seen(rt, alloc, spool);
    let is_short = matches!(end, End::Memory | End::OwnMemory);
    let again = if is_short && may_be_repeated(call) {
        Some(answered_again(rt, alloc, spool, call))
    } else {
        None
    };
    // A question changes nothing, so it has no store that may fail.
    let is_fault = end == End::Store && call.is_question();
    Met {
        refused,
        end: if is_fault { End::Other } else { end },
        text,
        shown: Some(shown),
        again,
    }
}

// ---- what is done in a database

/// Takes a database as a spool.
fn taken<S: Alter + Drop>(rt: &impl Abort, alloc: Global, conn: Connection<S>) -> Spool<S>
    requires { conn.in_transaction ≡ false }
{
    match Spool::adopt(alloc, conn) {
        Ok(spool) => spool,
        Err(_) => panic!(rt; "it was not taken"),
    }
}

/// A spool in which these were done.
pub(crate) fn begun<S: Alter + Drop>(
    rt: &impl Abort,
    alloc: Global,
    conn: Connection<S>,
    acts: &[Act],
) -> Spool<S>
    requires { conn.in_transaction ≡ false }
{
    let mut spool = taken(rt, alloc, conn);
    play(rt, alloc, &mut spool, acts);
    spool
}

fn call_in<S: Alter + Drop>(
    rt: &impl Abort,
    alloc: Global,
    conn: Connection<S>,
    before: &[Act],
    act: Act,
    refusing: Refusing,
) -> (Met, S)
    requires { conn.in_transaction ≡ false }
{
    let mut spool = begun(rt, alloc, conn, before);
    let met = call(rt, alloc, &mut spool, act, refusing);
    (met, spool.into_store())
}

/// A database in which these were done, or nothing.
fn left_by<S: Alter + Drop>(
    rt: &impl Abort,
    alloc: Global,
    conn: Connection<S>,
    acts: &[Act],
) -> Connection<S>
    requires { conn.in_transaction ≡ false }
    ensures { result.in_transaction ≡ false }
{
    if acts.is_empty() {
        conn
    } else {
        begun(rt, alloc, conn, acts).release()
    }
}

/// A database once the statements have changed it.
fn changed<S: Alter>(
    rt: &impl Abort,
    conn: Connection<S>,
    statements: &[&'static str],
) -> Connection<S>
    ensures { result.in_transaction ≡ false }
{
    let mut conn = conn;
    for statement in statements {
        let _rows = conn.execute(statement, &[]).expect(rt, statement);
    }
    assert!(rt; conn.is_autocommit(), "a transaction is open");
    conn
}

/// What a spool shows, and its store after it is let go.
fn shown_and_let_go<S: Alter + Drop>(
    rt: &impl Abort,
    alloc: Global,
    spool: Spool<S>,
) -> (Option<String>, S) {
    let mut spool = spool;
    let shown = picture(rt, alloc, &mut spool);
    (Some(shown), spool.into_store())
}

/// What a database shows that came back: a second `adopt` takes it, unless its store failed.
fn handed_back<S: Alter + Drop>(
    rt: &impl Abort,
    alloc: Global,
    conn: Connection<S>,
    end: End,
) -> (Option<String>, S) {
    assert!(rt; conn.is_autocommit(), "a transaction is open");
    if end == End::Store {
        return (None, conn.into_store());
    }
    let spool = taken(rt, alloc, conn);
    shown_and_let_go(rt, alloc, spool)
}

/// The result of a call without an answer.
fn without_answer(alloc: Global, refused: bool, end: End, shown: Option<String>) -> Met {
    Met {
        refused,
        end,
        text: String::new(alloc),
        shown,
        again: None,
    }
}

fn adopt_in<S: Alter + Drop>(
    rt: &impl Abort,
    alloc: Global,
    conn: Connection<S>,
    refusing: Refusing,
) -> (Met, S)
    requires { conn.in_transaction ≡ false }
{
    refusing.begin(alloc);
    let got = Spool::adopt(alloc, conn);
    let refused = was_refused(alloc);
    let (end, (shown, store)) = match got {
        Ok(spool) => (End::Whole, shown_and_let_go(rt, alloc, spool)),
        Err(it) => {
            let end = end_of(it.fault);
            (end, handed_back(rt, alloc, it.conn, end))
        }
    };
    (without_answer(alloc, refused, end, shown), store)
}

fn done_in<S: Alter + Drop>(
    rt: &impl Abort,
    alloc: Global,
    conn: Connection<S>,
    deed: Deed,
    refusing: Refusing,
) -> (Met, S)
    requires { conn.in_transaction ≡ false }
{
    match deed {
        Deed::Call(before, act) => call_in(rt, alloc, conn, before, act, refusing),
        Deed::Adopt(before, statements) => {
            let conn = changed(rt, left_by(rt, alloc, conn, before), statements);
            adopt_in(rt, alloc, conn, refusing)
        }
        Deed::Change(statements) => {
            let conn = changed(rt, conn, statements);
            let met = without_answer(alloc, false, End::Whole, None);
            (met, conn.into_store())
        }
        Deed::Close(_) => panic!(rt; "only files are closed"),
    }
}

/// Does it in a new database in memory.
fn done_in_memory(rt: &impl Abort, alloc: Global, deed: Deed, refusing: Refusing) -> Met {
    let conn = Connection::open_in_memory(alloc).expect(rt, "memory");
    let (met, _store) = done_in(rt, alloc, conn, deed, refusing);
    met
}

// ---- what is done in files

fn done_in_open_files<D: Disk + Drop>(
    rt: &impl Abort,
    alloc: Global,
    files: Files<D>,
    options: Options,
    deed: Deed,
    refusing: Refusing,
) -> (Met, Files<D>) {
    assert!(rt; files.may_be_used(), "a sync of these files has failed");
    match Connection::open_files(alloc, files, options) {
        Ok(conn) => {
            let (met, store) = done_in(rt, alloc, conn, deed, refusing);
            (met, store.close())
        }
        Err(_) => panic!(rt; "the files are not opened"),
    }
}

fn closed<D: Disk + Drop>(
    rt: &impl Abort,
    alloc: Global,
    files: Files<D>,
    options: Options,
    before: &[Act],
    refusing: Refusing,
) -> (Met, Files<D>) {
    assert!(rt; files.may_be_used(), "a sync of these files has failed");
    let Ok(conn) = Connection::open_files(alloc, files, options) else {
        panic!(rt; "the files are not opened")
    };
    let spool = begun(rt, alloc, conn, before);
    refusing.begin(alloc);
    let got = spool.close();
    let refused = was_refused(alloc);
    // A close reports out of memory as a fault of the database.
    let (end, files) = match got {
        Ok(files) => (End::Whole, files),
        Err((StoreFault::Store(_), store)) => (End::Store, store.close()),
        Err((_, store)) => (End::Other, store.close()),
    };
    (without_answer(alloc, refused, end, None), files)
}

/// Does it in files with these contents.
fn done_in_files(
    rt: &impl Abort,
    alloc: Global,
    contents: &Contents,
    options: Options,
    deed: Deed,
    refusing: Refusing,
) -> (Met, Left) {
    let files = files_of(rt, alloc, contents);
    let (met, files) = match deed {
        Deed::Close(before) => closed(rt, alloc, files, options, before, refusing),
        _ => done_in_open_files(rt, alloc, files, options, deed, refusing),
    };
    (met, left_of(rt, alloc, files))
}

/// The contents of new files in which these were done.
pub(crate) fn prepared(
    rt: &impl Abort,
    alloc: Global,
    options: Options,
    acts: &'static [Act],
) -> Contents {
    let deed = Deed::Call(acts, Act::Next);
    let (_met, left) = done_in_files(rt, alloc, &nothing(alloc), options, deed, NONE);
    left.synced
}

/// The contents of files after the statements changed their database.
pub(crate) fn changed_files(
    rt: &impl Abort,
    alloc: Global,
    options: Options,
    contents: &Contents,
    statements: &'static [&'static str],
) -> Contents {
    let deed = Deed::Change(statements);
    let (_met, left) = done_in_files(rt, alloc, contents, options, deed, NONE);
    left.synced
}

/// What a spool in files with these contents shows.
fn shown_in_files(rt: &impl Abort, alloc: Global, contents: &Contents, options: Options) -> String {
    let deed = Deed::Call(&[], Act::Next);
    let (met, _left) = done_in_files(rt, alloc, contents, options, deed, NONE);
    met.shown.expect(rt, "a spool")
}

// ---- what the result has to be

/// How far a call came: how it ended there, what was answered so far, and what is shown then.
#[derive(Drop)]
pub(crate) struct Stage {
    end: End,
    pub(crate) text: String,
    shown: String,
}

/// What a call does with ample memory, after others.
fn stage_of(rt: &impl Abort, alloc: Global, before: &'static [Act], act: Act) -> Stage {
    let met = done_in_memory(rt, alloc, Deed::Call(before, act), NONE);
    let is_answer = matches!(met.end, End::Whole | End::Refused);
    assert!(rt; is_answer, "no answer with ample memory");
    Stage {
        end: met.end,
        text: met.text,
        shown: met.shown.expect(rt, "a spool"),
    }
}

/// The only stage of an act that answers nothing and changes nothing, after these were done.
pub(crate) fn only_stage(rt: &impl Abort, alloc: Global, acts: &'static [Act]) -> Vec<Stage> {
    let stage = Stage {
        end: End::Whole,
        text: String::new(alloc),
        shown: stage_of(rt, alloc, acts, Act::Next).shown,
    };
    (vec![in alloc; stage]).expect(rt, "memory")
}

/// A run, as its commands given one by one.
fn one_by_one(act: Act) -> Act {
    match act {
        Act::Run(orders) => Act::GoOn(orders, true),
        _ => act,
    }
}

/// How far a call can come: to nothing, to the end of each of its parts, and to its answer.
pub(crate) fn stages_of(
    rt: &impl Abort,
    alloc: Global,
    before: &'static [Act],
    parts: &[Act],
    act: Act,
) -> Vec<Stage> {
    let mut stages = only_stage(rt, alloc, before);
    for part in parts {
        stages
            .push(stage_of(rt, alloc, before, one_by_one(*part)))
            .expect(rt, "memory");
    }
    stages
        .push(stage_of(rt, alloc, before, one_by_one(act)))
        .expect(rt, "memory");
    stages
}

impl Met {
    /// Whether this is shown, if anything is.
    fn shows(&self, want: &str) -> bool {
        match &self.shown {
            Some(shown) => shown.as_str() == want,
            None => true,
        }
    }

    /// Whether the stage of this place is shown.
    fn shows_stage(&self, stages: &[Stage], place: usize) -> bool {
        match stages.get(place) {
            Some(stage) => self.shows(stage.shown.as_str()),
            None => false,
        }
    }

    /// How far it came: the answers are those of a stage, and this stage is shown, or the spool
    /// failed.
    fn place(&self, stages: &[Stage]) -> Option<usize> {
        for (place, stage) in stages.iter().enumerate() {
            let is_shown = match self.end {
                End::Store => self.shows(FAILED),
                _ => self.shows(stage.shown.as_str()),
            };
            if is_shown && stage.text.as_str() == self.text.as_str() {
                return Some(place);
            }
        }
        None
    }

    /// Whether the call that was made once more gave the whole answer.
    fn answers_again(&self, stages: &[Stage]) -> bool {
        match (&self.again, stages.last()) {
            (Some(text), Some(last)) => text.as_str() == last.text.as_str(),
            _ => true,
        }
    }

    /// Whether a line that ran out of memory, and wrote nothing, left what it may. That is a failed
    /// spool after a command that was answered, if there was no memory for the answer, or some
    /// stage. If nothing had changed, the same line is then answered.
    fn left_some(&self, stages: &[Stage]) -> bool {
        let mut is_stage = self.shows(FAILED);
        for place in 0..stages.len() {
            is_stage = is_stage || self.shows_stage(stages, place);
        }
        let is_changed = !self.shows_stage(stages, 0);
        self.text.is_empty() && is_stage && (is_changed || self.answers_again(stages))
    }

    /// Whether a call that came so far did what it has to do. One that reported a fault didn't come
    /// to its end, if its end differs from its beginning.
    fn is_right(&self, stages: &[Stage], place: Option<usize>) -> bool {
        let last = stages.len().saturating_sub(1);
        let is_end = place == Some(last);
        let is_before = place.is_some() && (last == 0 || !is_end);
        match self.end {
            End::Whole | End::Refused => is_end && self.ends_as(stages),
            End::Memory => is_before && self.answers_again(stages),
            End::OwnMemory => self.left_some(stages),
            End::Store => is_before,
            End::Failed | End::Other => false,
        }
    }

    /// Whether it ended as the last stage did.
    fn ends_as(&self, stages: &[Stage]) -> bool {
        match stages.last() {
            Some(last) => last.end == self.end,
            None => false,
        }
    }

    /// How many requests of a batch were answered as with ample memory.
    fn answered_requests(&self, stages: &[Stage]) -> usize {
        let mut answered = 0usize;
        for (place, stage) in stages.iter().enumerate() {
            if self.text.starts_with(stage.text.as_str()) {
                answered = place;
            }
        }
        answered
    }

    /// Whether a batch did what it has to do. Either each request was answered and carried out. Or
    /// the first ones were, the next one was answered that memory ran out, and carried out or not,
    /// and none after it was. `is_exact` says whether nothing else was written.
    fn is_right_batch(&self, stages: &[Stage], answered: usize, is_exact: bool) -> bool {
        let is_whole = answered.saturating_add(1) == stages.len();
        let is_kept = self.shows_stage(stages, answered)
            || (!is_whole && self.shows_stage(stages, answered.saturating_add(1)));
        let tells = self.text.contains("uuspool: out of memory\n") && !self.text.contains("cannot");
        match self.end {
            End::Whole if is_whole => is_kept && is_exact,
            End::Whole | End::Memory => is_kept && tells,
            End::OwnMemory => is_kept && is_exact,
            End::Refused | End::Store | End::Failed | End::Other => false,
        }
    }

    /// The outcome, if the result is right.
    fn outcome(&self, is_whole: bool) -> Outcome {
        match self.end {
            End::Whole | End::Refused if is_whole => Outcome::Answer,
            End::Whole | End::Refused | End::Memory => Outcome::Memory,
            End::OwnMemory if self.shows(FAILED) => Outcome::Store,
            End::OwnMemory => Outcome::Memory,
            End::Store => Outcome::Store,
            End::Failed | End::Other => Outcome::Wrong,
        }
    }

    fn judged_batch(&self, stages: &[Stage]) -> Outcome {
        let answered = self.answered_requests(stages);
        let is_whole = answered.saturating_add(1) == stages.len();
        let is_exact = match stages.get(answered) {
            Some(stage) => stage.text.as_str() == self.text.as_str(),
            None => false,
        };
        let is_right = self.is_right_batch(stages, answered, is_exact);
        outcome_if(is_right, self.outcome(is_whole))
    }

    /// The outcome of a deed, and how far it came. A line that ran out of memory for the answer to
    /// its first command, after which the store failed, came to stage 1.
    fn judged(&self, deed: Deed, stages: &[Stage]) -> (Outcome, usize) {
        if let Deed::Call(_, Act::Batch(_)) = deed {
            return (self.judged_batch(stages), 0);
        }
        let place = self.place(stages);
        let outcome = outcome_if(self.is_right(stages, place), self.outcome(true));
        (outcome, place.unwrap_or(1))
    }
}

/// What is done in memory again and again, and how far it can come.
#[derive(Drop)]
pub(crate) struct InMemory {
    pub(crate) deed: Deed,
    pub(crate) stages: Vec<Stage>,
}

impl Call for InMemory {
    fn made<R: Abort>(&mut self, rt: &R, alloc: Global, refusing: Refusing) -> (bool, Outcome) {
        let met = done_in_memory(rt, alloc, self.deed, refusing);
        // (a database in memory is all that can be looked at)
        let is_seen = met.shown.is_some();
        let outcome = met.judged(self.deed, &self.stages).0;
        // A commit of a database in memory allocates nothing, so no store fails.
        let is_right = is_seen && outcome != Outcome::Store;
        (met.refused, outcome_if(is_right, outcome))
    }
}

/// What a spool shows in the files that were looked at last, which are mostly the same again.
#[derive(Drop)]
struct Look {
    contents: Contents,
    shown: String,
}

/// What is done in files again and again, and how far it can come.
#[derive(Drop)]
pub(crate) struct InFiles {
    contents: Contents,
    options: Options,
    deed: Deed,
    stages: Vec<Stage>,
    look: Look,
    failed: Option<usize>,
}

impl InFiles {
    /// In files with these contents.
    pub(crate) fn new(
        rt: &impl Abort,
        alloc: Global,
        contents: Contents,
        options: Options,
        deed: Deed,
        stages: Vec<Stage>,
    ) -> InFiles {
        let look = Look {
            contents: contents.copied(rt, alloc),
            shown: shown_in_files(rt, alloc, &contents, options),
        };
        InFiles {
            contents,
            options,
            deed,
            stages,
            look,
            failed: None,
        }
    }

    /// Whether a fault of the store comes where it may, as request after request is refused. If all
    /// pages stay in memory, only a commit writes the files, and it is the last action of a stage.
    /// Once a request was reported as a fault of the store, no later one of that stage is reported
    /// as out of memory.
    fn is_in_place(&mut self, outcome: Outcome, place: usize) -> bool {
        match outcome {
            Outcome::Store => {
                self.failed = Some(place);
                true
            }
            Outcome::Memory => {
                self.options.spill_pages < MANY_PAGES.spill_pages || self.failed != Some(place)
            }
            _ => true,
        }
    }

    /// Looks at files with these contents, if others were looked at before.
    fn look_at(&mut self, rt: &impl Abort, alloc: Global, contents: &Contents) {
        if !self.look.contents.is_same(contents) {
            self.look = Look {
                contents: contents.copied(rt, alloc),
                shown: shown_in_files(rt, alloc, contents, self.options),
            };
        }
    }

    /// Whether the stage of this place was seen at the last look.
    fn is_seen(&self, place: usize) -> bool {
        match self.stages.get(place) {
            Some(stage) => self.look.shown.as_str() == stage.shown.as_str(),
            None => false,
        }
    }

    /// Files with these contents show the stage to which it came, or, if the store failed, perhaps
    /// the next one.
    fn expect_kept(
        &mut self,
        rt: &impl Abort,
        alloc: Global,
        contents: &Contents,
        place: usize,
        failed: bool,
    ) {
        self.look_at(rt, alloc, contents);
        let is_kept = self.is_seen(place) || (failed && self.is_seen(place.saturating_add(1)));
        assert!(rt; is_kept, "another state is kept");
    }
}

impl Call for InFiles {
    fn made<R: Abort>(&mut self, rt: &R, alloc: Global, refusing: Refusing) -> (bool, Outcome) {
        let (met, left) = done_in_files(
            rt,
            alloc,
            &self.contents,
            self.options,
            self.deed,
            refusing,
        );
        if refusing.is_first() {
            self.failed = None;
        }
        let (outcome, place) = met.judged(self.deed, &self.stages);
        let outcome = outcome_if(self.is_in_place(outcome, place), outcome);
        let failed = outcome == Outcome::Store;
        if failed || !matches!(self.deed, Deed::Call(_, _)) {
            self.expect_kept(rt, alloc, &left.synced, place, failed);
            self.expect_kept(rt, alloc, &left.written, place, failed);
        }
        (met.refused, outcome)
    }
}
