// The calls of a spool, lines of the program and batches while memory runs out: over a database in
// memory and over files, both just opened and with kept statements.
use crate::acts::{Act, REQUESTS};
use crate::files::{FEW_PAGES, MANY_PAGES, files_of, nothing};
use crate::refusing::{ALL, expect_none, is_wrong, refuse_each};
use crate::trials::{
    Deed, InFiles, InMemory, begun, changed_files, only_stage, prepared, stages_of,
};
use crate::values::{
    Bundle, MAP, MESSAGE, Order, SUNDAY, SYS_FILE, SYS_FILE_DUKE, TWO_SYSTEMS, Work,
};
use sqlite::Connection;
use std::alloc::Global;
use std::io::Print;
use std::process::Abort;
use uu_store::{StoreFault, StoreKind, has_short_log};

/// A call: its name, what was done before, the call itself, and the same without its later
/// commands.
type Case = (&'static str, &'static [Act], Act, &'static [Act]);

const DUKE: &[Act] = &[Act::Command(Order::Define(b"system duke\ntime Any\n"))];

const FOUR_JOBS: &[Act] = &[
    Act::Command(Order::Define(b"system duke\ntimegrade C Any\n")),
    Act::Command(Order::Define(b"system unc\ntime Any\n")),
    Act::Command(Order::Queue("duke", b'a', Work::Send, 0)),
    Act::Command(Order::Queue("duke", b'B', Work::Send, 0)),
    Act::Command(Order::Queue("unc", b'z', Work::Send, 0)),
    Act::Command(Order::Queue("unc", b'9', Work::Send, 0)),
];

/// Two systems, two jobs, a map entry and a call that failed.
const ORDERS: &[Order] = &[
    Order::Define(b"system duke\ntime Any\n"),
    Order::Define(b"system unc\ntime Wk2305-0755 20\nmax-retries 2\nsuccess-wait 600\n"),
    Order::Queue("duke", b'N', Work::Send, 20_000),
    Order::Queue("duke", b'A', Work::Execute(3), 100),
    Order::Entry(b"#N unc\nunc duke(5)\n"),
    Order::Failed("unc"),
];

const FULL: &[Act] = &[Act::Run(ORDERS)];

/// What unc hands on, which is taken as job 3.
const HAND_ON: Order = Order::HandOn("unc", 7, 5, "duke", 20_000);

/// The same, if it was taken before.
const HANDED_ON: &[Act] = &[Act::Run(ORDERS), Act::Command(HAND_ON)];

/// What unc hands on: a job that was taken before, another job under its number, a job for a system
/// that isn't known, and one that is taken as job 4.
const BUNDLE: Bundle = Bundle {
    from: "unc",
    below: 7,
    jobs: &[
        (7, 5, "duke", 20_000),
        (7, 6, "duke", 0),
        (8, 5, "phs", 0),
        (9, 5, "duke", 20_000),
    ],
};

/// All of it is there, and unc says again that it won't ask for less.
const TAKEN_BEFORE: Bundle = Bundle {
    from: "unc",
    below: 0,
    jobs: &[(7, 5, "duke", 20_000)],
};

const CALLS: &[Case] = &[
    (
        "Spool::command (define)",
        DUKE,
        Act::Command(Order::Define(b"system unc\ntime Wk0900-1700 5\n")),
        &[],
    ),
    (
        "Spool::command (define again)",
        FULL,
        Act::Command(Order::Define(b"system duke\ntime Any 5\n")),
        &[],
    ),
    (
        "Spool::command (remove)",
        FULL,
        Act::Command(Order::Remove("unc")),
        &[],
    ),
    (
        "Spool::command (remove, refused)",
        FULL,
        Act::Command(Order::Remove("duke")),
        &[],
    ),
    (
        "Spool::command (queue, no bytes)",
        DUKE,
        Act::Command(Order::Queue("duke", b'N', Work::Send, 0)),
        &[],
    ),
    (
        "Spool::command (queue)",
        DUKE,
        Act::Command(Order::Queue("duke", b'N', Work::Execute(3), 40_000)),
        &[],
    ),
    (
        "Spool::command (queue, refused)",
        DUKE,
        Act::Command(Order::Queue("unc", b'N', Work::Send, 0)),
        &[],
    ),
    (
        "Spool::command (kill)",
        FULL,
        Act::Command(Order::Kill(1, "root", true)),
        &[],
    ),
    (
        "Spool::command (kill, refused)",
        FULL,
        Act::Command(Order::Kill(1, "bob", false)),
        &[],
    ),
    (
        "Spool::command (regrade)",
        FULL,
        Act::Command(Order::Regrade(1, b'A')),
        &[],
    ),
    (
        "Spool::command (rejuvenate)",
        FULL,
        Act::Command(Order::Rejuvenate(1)),
        &[],
    ),
    (
        "Spool::command (failed)",
        FULL,
        Act::Command(Order::Failed("duke")),
        &[],
    ),
    (
        "Spool::command (done)",
        FULL,
        Act::Command(Order::Called("duke", &[1, 2])),
        &[],
    ),
    (
        "Spool::command (done, no jobs)",
        FULL,
        Act::Command(Order::Called("unc", &[])),
        &[],
    ),
    (
        "Spool::command (release)",
        FULL,
        Act::Command(Order::Release("duke", &[1, 9, 2, 1])),
        &[],
    ),
    (
        "Spool::command (release, no jobs)",
        FULL,
        Act::Command(Order::Release("unc", &[1, 2])),
        &[],
    ),
    (
        "Spool::command (entry)",
        DUKE,
        Act::Command(Order::Entry(b"#N unc\nunc duke(5), phs\n")),
        &[],
    ),
    (
        "Spool::command (entry again)",
        FULL,
        Act::Command(Order::Entry(b"#N unc\nunc phs\n")),
        &[],
    ),
    (
        "Spool::command (entry, refused)",
        FULL,
        Act::Command(Order::Entry(b"#N a*b\n")),
        &[],
    ),
    (
        "Spool::command (queue once)",
        FULL,
        Act::Command(HAND_ON),
        &[],
    ),
    (
        "Spool::command (queue once, again)",
        HANDED_ON,
        Act::Command(HAND_ON),
        &[],
    ),
    (
        "Spool::command (queue once, refused)",
        HANDED_ON,
        Act::Command(Order::HandOn("unc", 7, 6, "duke", 0)),
        &[],
    ),
    (
        "Spool::command (forget)",
        HANDED_ON,
        Act::Command(Order::Forget("unc", 8)),
        &[],
    ),
    (
        "Spool::command (remove, with a key)",
        HANDED_ON,
        Act::Command(Order::Remove("unc")),
        &[],
    ),
    (
        "Spool::run",
        DUKE,
        Act::Run(&[
            Order::Queue("duke", b'N', Work::Send, 40_000),
            Order::Kill(9, "root", true),
            Order::Regrade(1, b'A'),
        ]),
        &[
            Act::Run(&[]),
            Act::Run(&[Order::Queue("duke", b'N', Work::Send, 40_000)]),
            Act::Run(&[
                Order::Queue("duke", b'N', Work::Send, 40_000),
                Order::Kill(9, "root", true),
            ]),
        ],
    ),
    ("Spool::take_in", HANDED_ON, Act::TakeIn(BUNDLE), &[]),
    (
        "Spool::take_in (again)",
        HANDED_ON,
        Act::TakeIn(TAKEN_BEFORE),
        &[],
    ),
    ("Spool::fill", &[], Act::Fill(&[ORDERS, &[HAND_ON]]), &[]),
    ("Spool::jobs", FULL, Act::Jobs, &[]),
    ("Spool::job", FULL, Act::Job(1), &[]),
    ("Spool::job (none)", FULL, Act::Job(9), &[]),
    ("Spool::systems", FULL, Act::Systems, &[]),
    ("Spool::contents", FULL, Act::Contents, &[]),
    ("Spool::due", FOUR_JOBS, Act::Due(SUNDAY), &[]),
    ("Spool::entry", FULL, Act::Entry("unc"), &[]),
    ("Spool::entry (none)", FULL, Act::Entry("duke"), &[]),
    ("Spool::taken", HANDED_ON, Act::Taken("unc"), &[]),
    ("Spool::taken (none)", FULL, Act::Taken("unc"), &[]),
    (
        "Spool::refusal",
        FULL,
        Act::Refusal(Order::Remove("duke")),
        &[],
    ),
    ("Spool::refusal (none)", FULL, Act::Refusal(HAND_ON), &[]),
    (
        "Spool::refusal (of a key)",
        HANDED_ON,
        Act::Refusal(Order::HandOn("unc", 7, 6, "duke", 20_000)),
        &[],
    ),
    ("Spool::next", FULL, Act::Next, &[]),
];

const LOAD: Act = Act::Line("load", TWO_SYSTEMS);

const SEND: Act = Act::Line("--at 1000000000 --as ann send duke a b -g B", b"xyz");

const REQUEST: Act = Act::Line("--at 1000000000 --as ann request unc a b -g 9", b"");

/// What unc hands on here, which is mail that is passed on to duke.
const UNC_BUNDLE: &[u8] =
    b"bundle unc mysite - 7 z 7129035608477008455\njob 7 7235571821644962191 A bob 6 exec rmail duke!joe\nHello\n\nend\n";

/// What unc hands on again, and a job that it said would not come again.
const UNC_ASKED: &[u8] =
    b"bundle unc mysite - 7 z 7129035608477008455\njob 7 7235571821644962191 A bob 6 exec rmail duke!joe\nHello\n\njob 6 4339533794161303712 A bob 6 exec rmail duke!joe\nHello\n\nend\n";

/// duke has this site's job 1.
const DUKE_BUNDLE: &[u8] =
    b"bundle duke mysite - 1 z 8784095817163137413\nhas 1 8523656004562681896\nend\n";

/// duke refuses this site's job 1.
const DUKE_REFUSAL: &[u8] =
    b"bundle duke mysite - 1 z 8784095817163137413\nno 1 8523656004562681896 Stale\nend\n";

/// Lines of the program: their names, what was done before, their words and input, and what they
/// print.
type LineCase = (
    &'static str,
    &'static [Act],
    (&'static str, &'static [u8]),
    &'static str,
);

const LINES: &[LineCase] = &[
    (
        "serve (load)",
        &[],
        ("load", SYS_FILE),
        "duke done\nunc done\nskipped 7\nskipped 8\n",
    ),
    ("serve (drop)", &[LOAD], ("drop unc", b""), "done\n"),
    (
        "serve (send)",
        &[LOAD],
        ("--at 1000000000 --as ann send duke /tmp/a ~/a", SYS_FILE),
        "job 1\n",
    ),
    (
        "serve (request)",
        &[LOAD],
        ("--at 1000000000 request duke /tmp/a ~/a -g A", b""),
        "job 1\n",
    ),
    (
        "serve (exec)",
        &[LOAD],
        ("exec -g A duke lp laser", b"xyz"),
        "job 1\n",
    ),
    (
        "serve (mail)",
        &[LOAD],
        (
            "--at 1000000000 --as ann mail duke!unc!ann duke!bob",
            MESSAGE,
        ),
        "job 1\n",
    ),
    (
        "serve (list)",
        &[LOAD, SEND, REQUEST],
        ("list", b""),
        "2 unc ann 9 2001-09-09 01:46:40 0 request a b\n1 duke ann B 2001-09-09 01:46:40 3 send a b\n",
    ),
    (
        "serve (show)",
        &[LOAD, SEND],
        ("show 1", b""),
        "1 duke ann B 2001-09-09 01:46:40 3 send a b\nxyz",
    ),
    ("serve (show, no job)", &[LOAD], ("show 1", b""), "no job\n"),
    (
        "serve (kill)",
        &[LOAD, SEND],
        ("--as root kill 1", b""),
        "done\n",
    ),
    (
        "serve (kill, refused)",
        &[LOAD, SEND],
        ("--as bob kill 1", b""),
        "refused NotYours\n",
    ),
    (
        "serve (regrade)",
        &[LOAD, SEND],
        ("--as ann regrade 1 A", b""),
        "done\n",
    ),
    (
        "serve (rejuvenate)",
        &[LOAD, SEND],
        ("--as ann rejuvenate 1", b""),
        "done\n",
    ),
    (
        "serve (due)",
        &[LOAD, SEND, REQUEST],
        ("due", b""),
        "unc 9 2\nduke B 1\n",
    ),
    (
        "serve (due, of a system)",
        &[LOAD, SEND, REQUEST],
        ("due -s duke", b""),
        "duke B 1\n",
    ),
    (
        "serve (when)",
        &[LOAD, SEND, REQUEST],
        ("--at 1000000000 when", b""),
        "unc 9 2 0 2001-09-09 01:46:40 due\nduke B 1 0 2001-09-09 01:46:40 due\n",
    ),
    (
        "serve (when, of each system)",
        &[LOAD, SEND, REQUEST],
        ("--at 1000000000 when -a", b""),
        "duke - - 0 2001-09-09 01:46:40 due\nunc - - 0 2001-09-09 01:46:40 due\n",
    ),
    (
        "serve (queues)",
        &[LOAD, SEND, REQUEST],
        ("queues", b""),
        "duke 1 3 B 2001-09-09 01:46:40\nunc 1 0 9 2001-09-09 01:46:40\n",
    ),
    (
        "serve (status)",
        &[LOAD, Act::Line("failed unc busy", b"")],
        ("status", b""),
        "duke 0 0 never\nunc 1 600 failed 2001-09-09 01:46:40 busy\n",
    ),
    (
        "serve (systems)",
        &[LOAD],
        ("systems -s unc", b""),
        "system unc\nmax-retries 26\nsuccess-wait 0\ntime Any\n",
    ),
    (
        "serve (failed)",
        &[LOAD],
        ("failed unc busy", b""),
        "done\n",
    ),
    (
        "serve (done)",
        &[LOAD, SEND],
        ("done duke 1", b""),
        "done\n",
    ),
    (
        "serve (send, once)",
        &[LOAD],
        ("send duke a b --once unc!7!w", b"abc"),
        "job 1\n",
    ),
    ("serve (forget)", &[LOAD], ("forget unc 7", b""), "done\n"),
    (
        "serve (pack)",
        &[LOAD, SEND],
        ("pack duke", b""),
        "bundle mysite duke - 1 z 7158226281569748039\njob 1 8523656004562681896 B ann 3 send a b\nxyz\nend\n",
    ),
    (
        "serve (unpack)",
        &[LOAD],
        ("unpack unc duke", UNC_BUNDLE),
        "unc done\n7 job 1\n",
    ),
    (
        "serve (answer)",
        &[LOAD, Act::Line("unpack unc duke", UNC_BUNDLE)],
        ("answer unc duke", UNC_ASKED),
        "bundle mysite unc - 2 z 2231020661359526714\nhas 7 7235571821644962191\nno 6 4339533794161303712 Stale\nend\n",
    ),
    (
        "serve (settle)",
        &[LOAD, SEND],
        ("settle duke", DUKE_BUNDLE),
        "duke 1\n",
    ),
    (
        "serve (settle, refused)",
        &[LOAD, SEND],
        ("settle duke", DUKE_REFUSAL),
        "duke\nduke refused 1 Stale\n",
    ),
    ("serve (map)", &[], ("map", MAP), "unc done\n"),
    (
        "serve (neighbours)",
        &[Act::Line("map", MAP)],
        ("neighbours unc", b""),
        "duke 495\nmcnc 4000\nphs 20000\nold dead\n= unc-ch\nRING 20 {phs, duke}\nskipped 5\n",
    ),
    ("serve (name)", &[], ("name", b""), "mysite\n"),
    (
        "serve (routes)",
        &[LOAD, Act::Line("map", MAP)],
        ("routes --cost", b""),
        "4000\tduke\tduke!%s\n8000\tmcnc\tunc!mcnc!%s\n4020\tphs\tduke!phs!%s\n4000\tunc\tunc!%s\n",
    ),
    (
        "serve (route)",
        &[LOAD, Act::Line("map", MAP)],
        ("route phs", b""),
        "phs\tduke!phs!%s\n",
    ),
    (
        "serve (mail by the map)",
        &[LOAD, Act::Line("map", MAP)],
        ("--at 1000000000 --as ann mail phs!bob", MESSAGE),
        "job 1\n",
    ),
];

/// The lines of the program. Each function that names a large table costs much proof time.
pub(crate) fn lines() -> &'static [LineCase] {
    LINES
}

/// The load of two systems; the first alone is a part of it.
const LOAD_TWO: Case = (
    "serve (load)",
    &[],
    Act::Line("load", SYS_FILE),
    &[Act::Line("load", SYS_FILE_DUKE)],
);

/// A batch of all requests.
const BATCH: Case = (
    "batch",
    &[],
    Act::Batch(REQUESTS.len()),
    &[Act::Batch(1), Act::Batch(2), Act::Batch(3)],
);

/// Each request is refused alone, and every seventh with all later ones.
const LATER: usize = 7;

fn in_memory<R: Abort + Print>(rt: &R, alloc: Global, (name, before, act, parts): Case) {
    let stages = stages_of(rt, alloc, before, parts, act);
    let deed = Deed::Call(before, act);
    refuse_each(rt, alloc, name, LATER, &mut InMemory { deed, stages });
}

/// In files of a spool that were just opened.
fn in_opened_files<R: Abort + Print>(rt: &R, alloc: Global, (name, before, act, parts): Case) {
    let name = (format!(in alloc; "{name}, in opened files")).expect(rt, "memory");
    let stages = stages_of(rt, alloc, before, parts, act);
    let contents = prepared(rt, alloc, MANY_PAGES, before);
    let deed = Deed::Call(&[], act);
    let mut trial = InFiles::new(rt, alloc, contents, MANY_PAGES, deed, stages);
    refuse_each(rt, alloc, name.as_str(), LATER, &mut trial);
}

/// In new files, in which the acts before are done first.
fn in_new_files<R: Abort + Print>(rt: &R, alloc: Global, (name, before, act, parts): Case) {
    let name = (format!(in alloc; "{name}, in new files")).expect(rt, "memory");
    let stages = stages_of(rt, alloc, before, parts, act);
    let deed = Deed::Call(before, act);
    let mut trial = InFiles::new(rt, alloc, nothing(alloc), FEW_PAGES, deed, stages);
    refuse_each(rt, alloc, name.as_str(), LATER, &mut trial);
}

/// What the first command of a line does, if the line has several commands that are done one by
/// one. A bundle is taken whole.
fn parts_of(words: &str) -> &'static [Act] {
    match words {
        "load" => LOAD_TWO.3,
        _ => &[],
    }
}

/// A line, which prints this.
fn served<R: Abort + Print>(rt: &R, alloc: Global, (name, before, line, output): LineCase) {
    let act = Act::Line(line.0, line.1);
    let stages = stages_of(rt, alloc, before, parts_of(line.0), act);
    let printed = stages.last().expect(rt, "a stage").text.as_str();
    assert_eq!(rt; printed, output);
    let deed = Deed::Call(before, act);
    refuse_each(rt, alloc, name, LATER, &mut InMemory { deed, stages });
}

/// The calls of a spool.
fn calls() -> &'static [Case] {
    CALLS
}

#[test]
fn calls_in_memory(rt: HostRuntime) {
    for case in calls() {
        in_memory(&rt, rt.alloc(), *case);
    }
}

#[test]
fn calls_in_opened_files(rt: HostRuntime) {
    for case in calls().iter().take(9) {
        in_opened_files(&rt, rt.alloc(), *case);
    }
}

#[test]
fn other_calls_in_opened_files(rt: HostRuntime) {
    for case in calls().iter().skip(9) {
        in_opened_files(&rt, rt.alloc(), *case);
    }
}

#[test]
fn calls_in_new_files(rt: HostRuntime) {
    for case in calls() {
        in_new_files(&rt, rt.alloc(), *case);
    }
}

#[test]
fn lines_are_served(rt: HostRuntime) {
    for case in lines() {
        served(&rt, rt.alloc(), *case);
    }
    in_new_files(&rt, rt.alloc(), LOAD_TWO);
}

#[test]
fn batches(rt: HostRuntime) {
    in_memory(&rt, rt.alloc(), BATCH);
}

// ---- databases that are taken, and a close

// The tables that earlier versions have in other forms, and those that only they have.
const OLD_SYSTEMS: &str =
    "CREATE TABLE systems (name TEXT NOT NULL PRIMARY KEY, max_retries INTEGER NOT NULL, last INTEGER NOT NULL, failures INTEGER NOT NULL, wait INTEGER NOT NULL, outcome INTEGER NOT NULL, why TEXT) STRICT";

const LINES_TABLE: &str =
    "CREATE TABLE lines (system TEXT NOT NULL, place INTEGER NOT NULL, rank INTEGER NOT NULL, retry INTEGER, PRIMARY KEY (system, place)) STRICT";

const RANGES_TABLE: &str =
    "CREATE TABLE ranges (system TEXT NOT NULL, place INTEGER NOT NULL, low INTEGER NOT NULL, high INTEGER NOT NULL, PRIMARY KEY (system, place, low)) STRICT";

const PIECES_TABLE: &str =
    "CREATE TABLE pieces (job INTEGER NOT NULL, place INTEGER NOT NULL, bytes BLOB NOT NULL, PRIMARY KEY (job, place)) STRICT";

const WAITS_TABLE: &str =
    "CREATE TABLE success_waits (system TEXT NOT NULL PRIMARY KEY, wait INTEGER NOT NULL) STRICT";

/// What gives the spool of FOUR_JOBS the tables of version 1. No job has a byte.
const INTO_1: &[&str] = &[
    "DROP TABLE taken",
    "DROP TABLE links",
    "DROP TABLE bodies",
    "DROP TABLE systems",
    OLD_SYSTEMS,
    "INSERT INTO systems VALUES ('duke', 26, 0, 0, 0, 0, NULL), ('unc', 26, 0, 0, 0, 0, NULL)",
    LINES_TABLE,
    "INSERT INTO lines VALUES ('duke', 0, 12, NULL), ('unc', 0, 61, NULL)",
    RANGES_TABLE,
    "INSERT INTO ranges VALUES ('duke', 0, 0, 10079), ('unc', 0, 0, 10079)",
    PIECES_TABLE,
    "UPDATE spool SET version = 1",
];

// The rows of FULL in those tables.
const SYSTEMS_OF_FULL: &str =
    "INSERT INTO systems VALUES ('duke', 26, 0, 0, 0, 0, NULL), ('unc', 2, 1000116000, 1, 600, 1, 'busy')";

const LINES_OF_FULL: &str = "INSERT INTO lines VALUES ('duke', 0, 61, NULL), ('unc', 0, 61, 20)";

const RANGES_OF_FULL: &str =
    "INSERT INTO ranges VALUES ('duke', 0, 0, 10079), ('unc', 0, 1440, 1915), ('unc', 0, 2825, 3355), ('unc', 0, 4265, 4795), ('unc', 0, 5705, 6235), ('unc', 0, 7145, 7675), ('unc', 0, 8585, 8639)";

const FIRST_PIECES: &str = "INSERT INTO pieces SELECT job, 0, substr(bytes, 1, 16384) FROM bodies";

const LAST_PIECE: &str =
    "INSERT INTO pieces SELECT job, 1, substr(bytes, 16385) FROM bodies WHERE job = 1";

const WAIT_OF_FULL: &str = "INSERT INTO success_waits VALUES ('unc', 600)";

/// What gives it the tables of version 3.
const INTO_3: &[&str] = &[
    "DROP TABLE systems",
    OLD_SYSTEMS,
    SYSTEMS_OF_FULL,
    LINES_TABLE,
    LINES_OF_FULL,
    RANGES_TABLE,
    RANGES_OF_FULL,
    PIECES_TABLE,
    FIRST_PIECES,
    LAST_PIECE,
    "DROP TABLE bodies",
    WAITS_TABLE,
    WAIT_OF_FULL,
    "UPDATE spool SET version = 3",
];

/// What gives it those of version 2, which lacks links.
const INTO_2: &[&str] = &[
    "DROP TABLE taken",
    "DROP TABLE links",
    "DROP TABLE systems",
    OLD_SYSTEMS,
    SYSTEMS_OF_FULL,
    LINES_TABLE,
    LINES_OF_FULL,
    RANGES_TABLE,
    RANGES_OF_FULL,
    PIECES_TABLE,
    FIRST_PIECES,
    LAST_PIECE,
    "DROP TABLE bodies",
    WAITS_TABLE,
    WAIT_OF_FULL,
    "UPDATE spool SET version = 2",
];

/// A database that is taken: what was done in it, and what changed it afterwards.
type Taking = (&'static str, &'static [Act], &'static [&'static str]);

/// Version 1 has no success waits, and FOUR_JOBS uses none.
const TAKINGS: &[Taking] = &[
    ("Spool::adopt (empty", &[], &[]),
    ("Spool::adopt (a spool", HANDED_ON, &[]),
    ("Spool::adopt (version 1", FOUR_JOBS, INTO_1),
    ("Spool::adopt (version 2", FULL, INTO_2),
    ("Spool::adopt (version 3", FULL, INTO_3),
];

/// Files are taken as a spool: new ones, or those in which these acts were done.
fn taken_in_files<R: Abort + Print>(rt: &R, alloc: Global, (name, acts, statements): Taking) {
    let name = (format!(in alloc; "{name} in files)")).expect(rt, "memory");
    let contents = if acts.is_empty() {
        nothing(alloc)
    } else {
        let contents = prepared(rt, alloc, MANY_PAGES, acts);
        changed_files(rt, alloc, MANY_PAGES, &contents, statements)
    };
    let stages = only_stage(rt, alloc, acts);
    let deed = Deed::Adopt(&[], &[]);
    let mut trial = InFiles::new(rt, alloc, contents, MANY_PAGES, deed, stages);
    refuse_each(rt, alloc, name.as_str(), LATER, &mut trial);
}

/// The same for a database in memory.
fn taken_in_memory<R: Abort + Print>(rt: &R, alloc: Global, (name, acts, statements): Taking) {
    let name = (format!(in alloc; "{name} in memory)")).expect(rt, "memory");
    let stages = only_stage(rt, alloc, acts);
    let deed = Deed::Adopt(acts, statements);
    refuse_each(
        rt,
        alloc,
        name.as_str(),
        LATER,
        &mut InMemory { deed, stages },
    );
}

fn takings() -> &'static [Taking] {
    TAKINGS
}

#[test]
fn files_are_taken(rt: HostRuntime) {
    for taking in takings().iter().take(2) {
        taken_in_files(&rt, rt.alloc(), *taking);
    }
}

#[test]
fn files_of_earlier_versions_are_taken(rt: HostRuntime) {
    for taking in takings().iter().skip(2) {
        taken_in_files(&rt, rt.alloc(), *taking);
    }
}

#[test]
fn databases_in_memory_are_taken(rt: HostRuntime) {
    for taking in takings() {
        taken_in_memory(&rt, rt.alloc(), *taking);
    }
}

#[test]
fn closes(rt: HostRuntime) {
    let alloc = rt.alloc();
    let stages = only_stage(&rt, alloc, FULL);
    let deed = Deed::Close(FULL);
    let mut trial = InFiles::new(&rt, alloc, nothing(alloc), FEW_PAGES, deed, stages);
    refuse_each(&rt, alloc, "Spool::close", LATER, &mut trial);
}

/// A spool is given back, or its store is, without allocating.
#[test]
fn spools_are_given_back(rt: HostRuntime) {
    let alloc = rt.alloc();
    let conn = Connection::open_in_memory(alloc).expect(&rt, "memory");
    let spool = begun(&rt, alloc, conn, FULL);
    ALL.begin(alloc);
    let conn = spool.release();
    expect_none(
        &rt,
        alloc,
        &["Spool::release"],
        &conn.is_autocommit(),
        "true",
    );
    let spool = begun(&rt, alloc, conn, &[]);
    ALL.begin(alloc);
    let _store = spool.into_store();
    expect_none(&rt, alloc, &["Spool::into_store"], &(), "()");
}

/// What is asked of a spool and of its files before it is copied.
#[test]
fn spools_that_may_be_copied(rt: HostRuntime) {
    let alloc = rt.alloc();
    let conn = Connection::open_in_memory(alloc).expect(&rt, "memory");
    let mut spool = begun(&rt, alloc, conn, FULL);
    let mut contents = spool.contents(alloc).ok().expect(&rt, "contents");
    ALL.begin(alloc);
    contents.renumber(1_000);
    let answers = (spool.is_alone(), contents.room(), contents.next());
    let names = [
        "Spool::is_alone",
        "Contents::room",
        "Contents::renumber",
        "Contents::next",
    ];
    expect_none(&rt, alloc, &names, &answers, "(true, 87447, 1000)");
}

#[test]
fn logs_that_are_short(rt: HostRuntime) {
    let alloc = rt.alloc();
    let mut files = files_of(&rt, alloc, &nothing(alloc));
    // (the first call syncs the log, for which a disk in memory allocates)
    let is_short = has_short_log(&mut files);
    ALL.begin(alloc);
    let answers = (is_short, has_short_log(&mut files));
    expect_none(&rt, alloc, &["has_short_log"], &answers, "(true, true)");
}

// ---- calls that are wrong

const TWO_ORDERS: &[Order] = &[Order::Regrade(1, b'A'), Order::Kill(2, "root", true)];

/// Wrong calls: they drop a job when memory runs out, go on after a command that found none, and
/// report out of memory or a fault of the store without a cause.
const WRONG: &[Act] = &[
    Act::GoOn(TWO_ORDERS, false),
    Act::GoOn(TWO_ORDERS, true),
    Act::Tell(StoreFault::Memory),
    Act::Tell(StoreFault::Store(StoreKind::Disk)),
];

/// Whether a call is recognised as not being a run of the two orders.
fn is_found_wrong(rt: &impl Abort, alloc: Global, act: Act) -> bool {
    let parts = [Act::Run(&[]), Act::Run(&[Order::Regrade(1, b'A')])];
    let stages = stages_of(rt, alloc, FULL, &parts, Act::Run(TWO_ORDERS));
    let deed = Deed::Call(FULL, act);
    is_wrong(rt, alloc, &mut InMemory { deed, stages })
}

/// Wrong calls are recognised: `tests/refused-memory` requires all of them.
#[test]
fn wrong_calls(rt: HostRuntime) {
    let alloc = rt.alloc();
    let is_found = is_found_wrong(&rt, alloc, Act::Run(TWO_ORDERS));
    assert!(rt; !is_found, "a right run is found to be wrong");
    let mut found = 0u32;
    for act in WRONG {
        if is_found_wrong(&rt, alloc, *act) {
            found = found.saturating_add(1);
        }
    }
    println!(rt; "wrong calls: {found} of 4 found").expect(&rt, "an output");
}
