// The calls of the program's library that don't use a spool: words, settings, input, faults and
// reports.
use crate::leaves::machine;
use crate::refusing::{Ask, Refusing, Said, note, refuse_each_of};
use crate::spools::lines;
use crate::values::{MAP, Order, SETTINGS, SUNDAY, SYS_FILE, Work, moment, settings, words_of};
use std::alloc::Global;
use std::io::Print;
use std::process::Abort;
use uu_core::{Due, JobHead, Queue, SystemRow, next_calls, next_polls, queues};
use uu_map::{Entry, read_entry};
use uu_times::Moment;
use uuspool::{
    Fault, Settings, fault_line, line_of, name_text, read_input, report_due, report_jobs,
    report_links, report_next_calls, report_next_polls, report_queues, report_status,
};

// ---- words, settings, input and faults

/// A call on words, on a text of settings, on an input or on a fault.
#[derive(Clone, Copy)]
enum Given<'a> {
    Words(&'a [String]),
    Settings(&'a str),
    Name(&'a Settings),
    Input,
    Fault(&'a Fault),
}

impl Ask for Given<'_> {
    fn said<R: Abort>(&self, rt: &R, alloc: Global, refusing: Refusing) -> Said {
        refusing.begin(alloc);
        match *self {
            Given::Words(words) => note(rt, alloc, &line_of(alloc, words).err()),
            Given::Settings(text) => note(rt, alloc, &Settings::read(alloc, text)),
            Given::Name(settings) => note(rt, alloc, &name_text(alloc, settings)),
            Given::Input => note(rt, alloc, &read_input(alloc, &mut SYS_FILE)),
            Given::Fault(fault) => note(rt, alloc, &fault_line(alloc, fault)),
        }
    }
}

/// Words that aren't a line.
const BAD_LINES: &[&str] = &[
    "nonsense",
    "-h",
    "--version",
    "send duke",
    "mail duke!a phs!b",
    "--as a\u{e9} list",
    "kill x",
];

#[test]
fn words(rt: HostRuntime) {
    let alloc = rt.alloc();
    for (_, _, line, _) in lines() {
        let words = words_of(&rt, alloc, line.0);
        refuse_each_of(&rt, alloc, "line_of", &Given::Words(&words));
    }
    for line in BAD_LINES {
        let words = words_of(&rt, alloc, line);
        refuse_each_of(&rt, alloc, "line_of (a fault)", &Given::Words(&words));
    }
}

/// Settings, and texts that aren't settings.
const SETTINGS_TEXTS: &[(&str, &str)] = &[
    ("Settings::read", SETTINGS),
    (
        "Settings::read (zone)",
        "name = \"a\"\nspool = \"s\"\nzone = \"EST5EDT,M3.2.0,M11.1.0\"\n",
    ),
    ("Settings::read (no toml)", "name ="),
    ("Settings::read (nothing)", ""),
    (
        "Settings::read (bad admins)",
        "name = \"a\"\nspool = \"s\"\nadmins = \"root\"\n",
    ),
];

#[test]
fn settings_are_read(rt: HostRuntime) {
    for (name, text) in SETTINGS_TEXTS {
        refuse_each_of(&rt, rt.alloc(), name, &Given::Settings(text));
    }
    refuse_each_of(
        &rt,
        rt.alloc(),
        "name_text",
        &Given::Name(&settings(&rt, rt.alloc())),
    );
}

#[test]
fn inputs_and_faults(rt: HostRuntime) {
    let alloc = rt.alloc();
    refuse_each_of(&rt, alloc, "read_input", &Given::Input);
    for fault in [Fault::Input, Fault::TwoSystems, Fault::Read, Fault::Memory] {
        refuse_each_of(&rt, alloc, "fault_line", &Given::Fault(&fault));
    }
}

// ---- reports

/// The last second of a moment.
const LAST_SECOND: u64 = 4_102_444_800;

/// A report.
#[derive(Clone, Copy)]
enum Report<'a> {
    Due(&'a [Due]),
    Links(&'a Entry),
    Jobs(&'a [JobHead]),
    NextCalls(&'a [SystemRow], &'a [JobHead], &'a Moment),
    NextPolls(&'a [SystemRow], &'a Moment),
    Queues(&'a [Queue]),
    Status(&'a [SystemRow]),
}

/// A report, with the settings for it.
#[derive(Clone, Copy)]
struct Printed<'a> {
    report: Report<'a>,
    settings: &'a Settings,
}

impl Ask for Printed<'_> {
    fn said<R: Abort>(&self, rt: &R, alloc: Global, refusing: Refusing) -> Said {
        refusing.begin(alloc);
        let bytes = match self.report {
            Report::Due(due) => report_due(alloc, due),
            Report::Links(entry) => report_links(alloc, entry),
            Report::Jobs(jobs) => {
                assert!(rt; jobs.iter().all(|job| job.queued <= LAST_SECOND));
                report_jobs(alloc, jobs, self.settings)
            }
            Report::NextCalls(systems, jobs, at) => {
                next_calls_reported(alloc, systems, jobs, at, self.settings)
            }
            Report::NextPolls(systems, at) => {
                next_polls_reported(alloc, systems, at, self.settings)
            }
            Report::Queues(queues) => {
                assert!(rt; queues.iter().all(|queue| queue.sums.oldest <= LAST_SECOND));
                report_queues(alloc, queues, self.settings)
            }
            Report::Status(rows) => {
                assert!(rt; rows.iter().all(|row| row.call.last <= LAST_SECOND));
                report_status(alloc, rows, self.settings)
            }
        };
        note(rt, alloc, &bytes)
    }
}

// The report of when these systems can next be called, for these jobs.
fn next_calls_reported(
    alloc: Global,
    systems: &[SystemRow],
    jobs: &[JobHead],
    at: &Moment,
    settings: &Settings,
) -> Result<Vec<u8>, Fault> {
    let calls = next_calls(alloc, systems, jobs, at.second, &settings.zone)?;
    report_next_calls(alloc, &calls, at, settings)
}

// The report of when these systems can next be called, with a job or without one.
fn next_polls_reported(
    alloc: Global,
    systems: &[SystemRow],
    at: &Moment,
    settings: &Settings,
) -> Result<Vec<u8>, Fault> {
    let polls = next_polls(alloc, systems, at.second, &settings.zone)?;
    report_next_polls(alloc, &polls, at, settings)
}

fn refuse_each_of_report<R: Abort + Print>(
    rt: &R,
    alloc: Global,
    name: &str,
    settings: &Settings,
    report: Report,
) {
    refuse_each_of(rt, alloc, name, &Printed { report, settings });
}

/// Jobs of each kind, and a call that failed.
const ORDERS: &[Order] = &[
    Order::Define(b"system duke\ntimegrade C Any\n"),
    Order::Define(b"system unc\ntime Any\n"),
    Order::Queue("duke", b'B', Work::Send, 3),
    Order::Queue("duke", b'A', Work::Execute(2), 0),
    Order::Queue("unc", b'9', Work::Request, 0),
    Order::Failed("unc"),
];

#[test]
fn reports_of_jobs(rt: HostRuntime) {
    let alloc = rt.alloc();
    let settings = settings(&rt, alloc);
    let machine = machine(&rt, alloc, ORDERS);
    let heads = machine.heads(alloc).expect(&rt, "memory");
    let jobs = Report::Jobs(&heads);
    refuse_each_of_report(&rt, alloc, "report_jobs", &settings, jobs);
    let waiting = queues(alloc, &heads).expect(&rt, "memory");
    let sums = Report::Queues(&waiting);
    refuse_each_of_report(&rt, alloc, "report_queues", &settings, sums);
}

#[test]
fn reports_of_systems(rt: HostRuntime) {
    let alloc = rt.alloc();
    let settings = settings(&rt, alloc);
    let machine = machine(&rt, alloc, ORDERS);
    let status = Report::Status(machine.systems());
    refuse_each_of_report(&rt, alloc, "report_status", &settings, status);
    let at = moment(&rt, SUNDAY);
    let due = machine.due(alloc, &at).expect(&rt, "memory");
    refuse_each_of_report(&rt, alloc, "report_due", &settings, Report::Due(&due));
    let heads = machine.heads(alloc).expect(&rt, "memory");
    let calls = Report::NextCalls(machine.systems(), &heads, &at);
    refuse_each_of_report(&rt, alloc, "report_next_calls", &settings, calls);
    let polls = Report::NextPolls(machine.systems(), &at);
    refuse_each_of_report(&rt, alloc, "report_next_polls", &settings, polls);
    let entry = read_entry(alloc, MAP).expect(&rt, "an entry");
    refuse_each_of_report(&rt, alloc, "report_links", &settings, Report::Links(&entry));
}
