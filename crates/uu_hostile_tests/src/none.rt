// The calls that never allocate.
use crate::leaves::{four_jobs, machine};
use crate::refusing::{ALL, expect_none};
use crate::values::{
    Order, SETTINGS, SUNDAY, Work, by, grade, key, moment, new_job, offered, site, system, word,
    words_of,
};
use std::alloc::Global;
use std::collections::BTreeMap;
use std::process::Abort;
use uu_core::callable::{is_free, lower};
use uu_core::{
    CallState, Filter, Mark, Outcome, Refusal, Reply, SystemRow, Taking, decide_done, decide_drop,
    decide_failed, decide_forget, decide_job, decide_queue, decide_queue_once, held, limit,
    pick_systems,
};
use uu_map::MapFault;
use uu_names::text::{blanks_len, first_line, is_blank, len_before};
use uu_names::{Grade, Listed, NameFault, Path, SiteName, is_site_byte, is_site_name, is_word};
use uu_plain::Machine;
use uu_schema::{StoreFault, StoreKind};
use uu_seal::{Key as SealKey, hmac};
use uu_times::{Moment, SystemDef, TimeFault, Windows, Zone};
use uuspool::{Fault, Key, Settings, SettingsFault, Task, batch_settings, fault_status, moment_of};

#[test]
fn grades(rt: HostRuntime) {
    let alloc = rt.alloc();
    let grade = grade(&rt, b'N');
    ALL.begin(alloc);
    let parsed = (Grade::parse(b'N').is_ok(), Grade::parse(b'-').is_ok());
    let of_rank = (Grade::of_rank(61).is_some(), Grade::of_rank(62).is_some());
    let answers = (parsed, of_rank, grade.rank(), grade.as_byte());
    let want = "((true, false), (true, false), 23, 78)";
    let names = [
        "Grade::parse",
        "Grade::of_rank",
        "Grade::rank",
        "Grade::as_byte",
    ];
    expect_none(&rt, alloc, &names, &answers, want);
}

#[test]
fn names(rt: HostRuntime) {
    let alloc = rt.alloc();
    let path = Path::parse(alloc, "duke!unc!ann").expect(&rt, "a path");
    let here = site(&rt, alloc, "mysite");
    let user = word(&rt, alloc, "ann");
    ALL.begin(alloc);
    let parts = (path.first_hop(), path.rest(), path.as_str());
    let answers = (
        parts,
        here.as_str(),
        user.as_str(),
        NameFault::Memory.code(),
    );
    let want = "((\"duke\", \"unc!ann\", \"duke!unc!ann\"), \"mysite\", \"ann\", 7)";
    let names = [
        "Path::first_hop",
        "Path::rest",
        "Path::as_str",
        "SiteName::as_str",
        "Word::as_str",
        "NameFault::code",
    ];
    expect_none(&rt, alloc, &names, &answers, want);
}

#[test]
fn tags(rt: HostRuntime) {
    let alloc = rt.alloc();
    ALL.begin(alloc);
    // (test case 2 of RFC 4231)
    let tag = hmac(b"Jefe", b"what do ya want ", b"for nothing?");
    let _key = SealKey::new(tag);
    let answers = (tag[0], tag[1], tag[31]);
    let names = ["hmac", "Key::new"];
    expect_none(&rt, alloc, &names, &answers, "(91, 220, 67)");
}

#[test]
fn texts(rt: HostRuntime) {
    let alloc = rt.alloc();
    ALL.begin(alloc);
    let bytes = (is_blank(b'\t'), is_site_byte(b'-'), is_site_byte(b'!'));
    let words = (is_site_name(b"duke"), is_site_name(b"a!b"), is_word(b"a!b"));
    let lengths = (blanks_len(b" \tx"), len_before(b"a=b", b'='));
    let answers = (bytes, words, lengths, first_line(b"a\nb"));
    let want = "((true, true, false), (true, false, true), (2, 1), ([97], [98]))";
    let names = [
        "is_blank",
        "is_site_byte",
        "is_site_name",
        "is_word",
        "blanks_len",
        "len_before",
        "first_line",
    ];
    expect_none(&rt, alloc, &names, &answers, want);
}

#[test]
fn lists(rt: HostRuntime) {
    let alloc = rt.alloc();
    let items = b"abc".to_vec(alloc).expect(&rt, "memory");
    ALL.begin(alloc);
    let listed = Listed::from_vec(items);
    let length = listed.as_slice().len();
    let answers = (length, listed.into_vec());
    let names = ["Listed::from_vec", "Listed::as_slice", "Listed::into_vec"];
    expect_none(&rt, alloc, &names, &answers, "(3, [97, 98, 99])");
}

#[test]
fn machines(rt: HostRuntime) {
    let alloc = rt.alloc();
    let full = four_jobs(&rt, alloc);
    let duke = site(&rt, alloc, "duke");
    ALL.begin(alloc);
    let empty = Machine::new(alloc);
    let nothing = (empty.next(), empty.systems().len());
    let found = (full.next(), full.systems().len(), full.job(1).is_some());
    let missing = (full.job(5).is_some(), full.entry(&duke).is_some());
    let answers = (nothing, found, missing, full.links().len());
    let want = "((1, 0), (5, 2, true), (false, false), 0)";
    let names = [
        "Machine::new",
        "Machine::next",
        "Machine::systems",
        "Machine::links",
        "Machine::job",
        "Machine::entry",
    ];
    expect_none(&rt, alloc, &names, &answers, want);
}

const KEPT: &[Order] = &[
    Order::Define(b"system duke\ntime Any\n"),
    Order::Entry(b"#N unc\nunc duke(5)\n"),
    Order::HandOn("duke", 7, 5, "duke", 3),
];

#[test]
fn rows_of_machines(rt: HostRuntime) {
    let alloc = rt.alloc();
    let machine = machine(&rt, alloc, KEPT);
    let unc = site(&rt, alloc, "unc");
    let job = machine.job(1).expect(&rt, "a job");
    let entry = machine.entry(&unc).expect(&rt, "an entry");
    let link = machine.links().first().expect(&rt, "a link");
    ALL.begin(alloc);
    let of_job = (job.head().number, job.bytes().len());
    let of_entry = (entry.host().as_str(), entry.bytes().len());
    let of_link = (link.name().as_str(), link.below(), link.taken().len());
    let answers = (of_job, of_entry, of_link);
    let want = "((1, 3), (\"unc\", 19), (\"duke\", 0, 1))";
    let names = [
        "PlainJob::head",
        "PlainJob::bytes",
        "PlainEntry::host",
        "PlainEntry::bytes",
        "PlainLink::name",
        "PlainLink::below",
        "PlainLink::taken",
    ];
    expect_none(&rt, alloc, &names, &answers, want);
}

#[test]
fn filters(rt: HostRuntime) {
    let alloc = rt.alloc();
    let filter = Filter {
        system: Some(site(&rt, alloc, "unc")),
        user: Some(word(&rt, alloc, "ann")),
    };
    ALL.begin(alloc);
    let all = Filter::all();
    let whole = (all.system_text(), all.user_text());
    let answers = (whole, filter.system_text(), filter.user_text());
    let want = "((None, None), Some(\"unc\"), Some(\"ann\"))";
    let names = ["Filter::all", "Filter::system_text", "Filter::user_text"];
    expect_none(&rt, alloc, &names, &answers, want);
}

#[test]
fn zones(rt: HostRuntime) {
    let alloc = rt.alloc();
    let zone = Zone::fixed(-300).expect(&rt, "a zone");
    ALL.begin(alloc);
    let fixed = Zone::fixed(1440).is_ok();
    let posix = (
        Zone::posix("EST5EDT,M3.2.0,M11.1.0").is_ok(),
        Zone::posix("").is_ok(),
    );
    let local = (zone.offset_at(0), zone.local_time(0).date.year);
    let moments = (
        Moment::new(SUNDAY, &zone).is_ok(),
        Moment::new(4_102_444_801, &zone).is_ok(),
    );
    let answers = (fixed, posix, local, moments);
    let want = "(false, (true, false), (-18000, 1969), (true, false))";
    let names = [
        "Zone::fixed",
        "Zone::posix",
        "Zone::offset_at",
        "Zone::local_time",
        "Moment::new",
    ];
    expect_none(&rt, alloc, &names, &answers, want);
}

#[test]
fn windows(rt: HostRuntime) {
    let alloc = rt.alloc();
    let windows = Windows::from_ranges(alloc, &[(0, 10), (12, 12)]);
    let windows = windows.expect(&rt, "memory").expect(&rt, "ranges");
    ALL.begin(alloc);
    let inside = (windows.contains(11), windows.contains(12));
    let answers = (inside, windows.ranges().len());
    let names = ["Windows::contains", "Windows::ranges"];
    expect_none(&rt, alloc, &names, &answers, "((false, true), 2)");
}

#[test]
fn systems(rt: HostRuntime) {
    let alloc = rt.alloc();
    let open = system(&rt, alloc, b"system duke\ntime Any 30\n");
    let name = site(&rt, alloc, "duke");
    let lines = Listed::from_vec(Vec::new(alloc));
    ALL.begin(alloc);
    let made = SystemDef::new(name, lines, 26, 0).is_some();
    let answers = (made, open.lines().len(), TimeFault::Memory.code());
    let names = ["SystemDef::new", "SystemDef::lines", "TimeFault::code"];
    expect_none(&rt, alloc, &names, &answers, "(true, 1, 11)");
}

#[test]
fn limits_of_systems(rt: HostRuntime) {
    let alloc = rt.alloc();
    let duke = site(&rt, alloc, "duke");
    let unc = site(&rt, alloc, "unc");
    let high = grade(&rt, b'A');
    let low = grade(&rt, b'z');
    let mut limits = BTreeMap::new(alloc);
    lower(&mut limits, &duke, grade(&rt, b'N')).expect(&rt, "memory");
    ALL.begin(alloc);
    let of_duke = (is_free(&limits, &duke, high), is_free(&limits, &duke, low));
    let answers = (of_duke, is_free(&limits, &unc, high));
    expect_none(&rt, alloc, &["is_free"], &answers, "((true, false), false)");
}

#[test]
fn decisions_on_jobs(rt: HostRuntime) {
    let alloc = rt.alloc();
    let job = new_job(&rt, alloc, "duke", b'N', Work::Execute(2), 100);
    let bob = by(&rt, alloc, "bob", false);
    ALL.begin(alloc);
    let answers = (decide_queue(true, 7, &job), decide_job(None, &bob));
    let names = ["decide_queue", "decide_job"];
    expect_none(&rt, alloc, &names, &answers, "(Ok(7), Err(NoJob))");
}

#[test]
fn keys(rt: HostRuntime) {
    let alloc = rt.alloc();
    let key = key(&rt, alloc, "duke", 7, 5);
    let job = new_job(&rt, alloc, "unc", b'N', Work::Send, 100);
    ALL.begin(alloc);
    let marks = (
        Mark::of_number(1 << 63).is_some(),
        Mark::of_digest(u64::MAX).number(),
    );
    let first = decide_queue_once(true, 3, 0, None, &key, &job);
    let stale = decide_queue_once(true, 3, 8, None, &key, &job);
    let answers = (marks, first, stale, decide_forget(false));
    let want = "((false, 9223372036854775807), Ok(First(3)), Err(Stale), Err(NoSystem))";
    let names = [
        "Mark::of_number",
        "Mark::of_digest",
        "Mark::number",
        "decide_queue_once",
        "decide_forget",
    ];
    expect_none(&rt, alloc, &names, &answers, want);
}

/// A bundle is begun, and a job of it is refused because the neighbour said that it would not come
/// again.
#[test]
fn bundles(rt: HostRuntime) {
    let alloc = rt.alloc();
    let offered = offered(&rt, alloc, 5, 2, "unc", 100);
    ALL.begin(alloc);
    let mut taking = Taking::begin(alloc, true, 3, 0, 6);
    let stale = taking.decide(true, None, &offered);
    expect_none(&rt, alloc, &["Taking::begin"], &stale, "Ok(Err(Stale))");
}

#[test]
fn decisions_and_refusals(rt: HostRuntime) {
    let alloc = rt.alloc();
    ALL.begin(alloc);
    let refusal = (Refusal::Busy.code(), Refusal::Busy.name());
    let replies = (
        Reply::Refused(Refusal::Busy).refusal(),
        Reply::Done.refusal(),
        Reply::Number(7).refusal(),
    );
    let answers = (decide_drop(true, true), refusal, replies);
    let want = "(Err(Busy), (6, \"Busy\"), (Some(Busy), None, None))";
    let names = [
        "decide_drop",
        "Refusal::code",
        "Refusal::name",
        "Reply::refusal",
    ];
    expect_none(&rt, alloc, &names, &answers, want);
}

/// A system that may be called all week, and is left alone after a successful call.
fn row(rt: &impl Abort, alloc: Global) -> SystemRow {
    SystemRow {
        def: system(rt, alloc, b"system duke\ntime Any 30\n"),
        call: CallState {
            last: SUNDAY,
            failures: 0,
            wait: 1800,
            outcome: Outcome::Done,
        },
    }
}

/// A list of only such a system.
fn row_alone(rt: &impl Abort, alloc: Global) -> Vec<SystemRow> {
    let mut rows = Vec::new(alloc);
    rows.push(row(rt, alloc)).expect(rt, "memory");
    rows
}

#[test]
fn decisions_on_calls(rt: HostRuntime) {
    let alloc = rt.alloc();
    let row = row(&rt, alloc);
    let at = moment(&rt, SUNDAY);
    let why = word(&rt, alloc, "busy");
    ALL.begin(alloc);
    let failed = decide_failed(Some(&row), &at, why).is_ok();
    let done = decide_done(Some(&row), &row.def.name, &[], &[], &at).is_ok();
    let names = ["decide_failed", "decide_done"];
    expect_none(&rt, alloc, &names, &(failed, done), "(true, true)");
}

#[test]
fn systems_that_may_be_called(rt: HostRuntime) {
    let alloc = rt.alloc();
    let row = row(&rt, alloc);
    let at = moment(&rt, SUNDAY);
    let any = Some(grade(&rt, b'z'));
    ALL.begin(alloc);
    let is_any = limit(row.def.lines(), at.week) == any;
    let answers = (is_any, held(&row.call, &at));
    expect_none(&rt, alloc, &["limit", "held"], &answers, "(true, true)");
}

/// How many of these systems have the name.
fn count_named(rows: Vec<SystemRow>, name: &SiteName) -> usize {
    pick_systems(rows, Some(name)).len()
}

#[test]
fn systems_of_a_name(rt: HostRuntime) {
    let alloc = rt.alloc();
    let duke = site(&rt, alloc, "duke");
    let unc = site(&rt, alloc, "unc");
    let (one, two, three) = (
        row_alone(&rt, alloc),
        row_alone(&rt, alloc),
        row_alone(&rt, alloc),
    );
    ALL.begin(alloc);
    let all = pick_systems(one, None).len();
    let answers = (all, count_named(two, &duke), count_named(three, &unc));
    expect_none(&rt, alloc, &["pick_systems"], &answers, "(1, 1, 0)");
}

#[test]
fn codes(rt: HostRuntime) {
    let alloc = rt.alloc();
    let fault = Fault::Store(StoreFault::Memory);
    ALL.begin(alloc);
    let of_lines = (fault_status(&fault), fault.code(), fault.is_help());
    let below = (
        MapFault::Memory.code(),
        StoreFault::Store(StoreKind::Disk).code(),
        SettingsFault::BadValue(Key::Name).code(),
    );
    let answers = (of_lines, below, Key::Name.name());
    let want = "((4, 7, false), (4, 2, 3), \"name\")";
    let names = [
        "fault_status",
        "Fault::code",
        "Fault::is_help",
        "MapFault::code",
        "StoreFault::code",
        "SettingsFault::code",
        "Key::name",
    ];
    expect_none(&rt, alloc, &names, &answers, want);
}

#[test]
fn settings_and_tasks(rt: HostRuntime) {
    let alloc = rt.alloc();
    let settings = Settings::read(alloc, SETTINGS).expect(&rt, "settings");
    let words = words_of(&rt, alloc, "-c site.toml batch");
    ALL.begin(alloc);
    let at = moment_of(SUNDAY, &settings).is_ok();
    let inputs = (Task::Load.has_input(), Task::Status.has_input());
    let answers = (at, batch_settings(&words), inputs);
    let want = "(true, Some(\"site.toml\"), (true, false))";
    let names = ["moment_of", "batch_settings", "Task::has_input"];
    expect_none(&rt, alloc, &names, &answers, want);
}
