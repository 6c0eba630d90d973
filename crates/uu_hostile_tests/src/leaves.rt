// The calls of the crates below the spool.
use crate::refusing::{
    Ask, Call, Outcome, Refusing, Said, note, outcome_if, refuse_each, refuse_each_of, text_of,
};
use crate::values::{
    HANDED_ON, MAP, MESSAGE, Order, SUNDAY, SYS_FILE, SYS_FILE_DUKE, Work, command, commands,
    moment, offered, site, system, word,
};
use jiff_core::civil::{Date, DateTime, Time};
use std::alloc::Global;
use std::process::Abort;
use uu_core::{
    CallState, JobHead, Outcome as Called, SystemRow, Taking, all_due, choose, definitions,
    next_calls, next_polls, queues,
};
use uu_map::{entry_host, read_entry, split};
use uu_names::{Path, SiteName, Word, envelope, return_path};
use uu_plain::Machine;
use uu_routes::{meant_host, site_routes};
use uu_seal::{Key, KeyFault, keys_in, open, seal};
use uu_times::{
    Moment, SystemDef, Timetables, Windows, Zone, read_printed, read_sys, read_time, write_sys,
};

// ---- names

/// A call that reads a name.
#[derive(Clone, Copy)]
enum NameCall {
    Site(&'static str),
    SiteBytes(&'static [u8]),
    Word(&'static str),
    WordBytes(&'static [u8]),
    Path(&'static str),
    PathBytes(&'static [u8]),
}

impl Ask for NameCall {
    fn said<R: Abort>(&self, rt: &R, alloc: Global, refusing: Refusing) -> Said {
        refusing.begin(alloc);
        match *self {
            NameCall::Site(text) => note(rt, alloc, &SiteName::parse(alloc, text)),
            NameCall::SiteBytes(bytes) => note(rt, alloc, &SiteName::from_bytes(alloc, bytes)),
            NameCall::Word(text) => note(rt, alloc, &Word::parse(alloc, text)),
            NameCall::WordBytes(bytes) => note(rt, alloc, &Word::from_bytes(alloc, bytes)),
            NameCall::Path(text) => note(rt, alloc, &Path::parse(alloc, text)),
            NameCall::PathBytes(bytes) => note(rt, alloc, &Path::from_bytes(alloc, bytes)),
        }
    }
}

const NAME_CALLS: &[(&str, NameCall)] = &[
    ("SiteName::parse", NameCall::Site("unc-ch")),
    ("SiteName::from_bytes", NameCall::SiteBytes(b"unc-ch")),
    ("Word::parse", NameCall::Word("/tmp/a")),
    ("Word::from_bytes", NameCall::WordBytes(b"/tmp/a")),
    ("Path::parse", NameCall::Path("duke!unc!ann")),
    ("Path::from_bytes", NameCall::PathBytes(b"duke!unc!ann")),
];

#[test]
fn names(rt: HostRuntime) {
    for (name, call) in NAME_CALLS {
        refuse_each_of(&rt, rt.alloc(), name, call);
    }
}

// ---- mail

/// A call on a message.
#[derive(Clone, Copy)]
enum MailCall<'a> {
    Envelope(&'a Word, &'a DateTime, &'a SiteName),
    WayBack,
}

impl Ask for MailCall<'_> {
    fn said<R: Abort>(&self, rt: &R, alloc: Global, refusing: Refusing) -> Said {
        refusing.begin(alloc);
        match *self {
            MailCall::Envelope(user, local, here) => {
                assert!(rt; (1000..=9999).contains(&local.date.year));
                note(rt, alloc, &envelope(alloc, user, local, here, MESSAGE))
            }
            MailCall::WayBack => note(rt, alloc, &return_path(alloc, HANDED_ON)),
        }
    }
}

#[test]
fn mail(rt: HostRuntime) {
    let alloc = rt.alloc();
    let user = word(&rt, alloc, "ann");
    let here = site(&rt, alloc, "mysite");
    let local = DateTime {
        date: Date::new(2001, 9, 9).expect(&rt, "a date"),
        time: Time::new(1, 46, 40, 0).expect(&rt, "a time"),
    };
    let written = MailCall::Envelope(&user, &local, &here);
    refuse_each_of(&rt, alloc, "envelope", &written);
    refuse_each_of(&rt, alloc, "return_path", &MailCall::WayBack);
}

// ---- times

/// A call on times.
#[derive(Clone, Copy)]
enum TimeCall<'a> {
    Ranges,
    Predefined,
    Text(&'a str, &'a Timetables),
    Sys(&'a [u8]),
    Printed(&'a [u8]),
    Write(&'a [SystemDef]),
}

impl Ask for TimeCall<'_> {
    fn said<R: Abort>(&self, rt: &R, alloc: Global, refusing: Refusing) -> Said {
        refusing.begin(alloc);
        match *self {
            TimeCall::Ranges => {
                note(
                    rt,
                    alloc,
                    &Windows::from_ranges(alloc, &[(0, 10), (12, 12)]),
                )
            }
            TimeCall::Predefined => note(rt, alloc, &Timetables::predefined(alloc).err()),
            TimeCall::Text(text, tables) => note(rt, alloc, &read_time(alloc, text, tables)),
            TimeCall::Sys(text) => {
                assert!(rt; text.len() <= 4_194_304);
                note(rt, alloc, &read_sys(alloc, text))
            }
            TimeCall::Printed(text) => note(rt, alloc, &read_printed(alloc, text)),
            TimeCall::Write(systems) => note(rt, alloc, &write_sys(alloc, systems)),
        }
    }
}

/// A sys file with a fault in its last line.
const TWICE: &[u8] = b"time Night 30\nsystem a\nsystem a\n";

/// A system as it is printed.
const PRINTED: &[u8] =
    b"system a\nmax-retries 26\nsuccess-wait 60\ntimegrade C Wk2305-2359,Sa,Su 30\n";

#[test]
fn times(rt: HostRuntime) {
    let alloc = rt.alloc();
    let tables = Timetables::predefined(alloc).expect(&rt, "memory");
    let list = "Wk2305-0855,Sa,Su2305-1655";
    let bad = "Wk2305-0755|Su2400-2400";
    let file = read_sys(alloc, SYS_FILE).expect(&rt, "a sys file");
    for (name, call) in [
        ("Windows::from_ranges", TimeCall::Ranges),
        ("Timetables::predefined", TimeCall::Predefined),
        ("read_time (a list)", TimeCall::Text(list, &tables)),
        ("read_time (a table)", TimeCall::Text("night", &tables)),
        ("read_time (a fault)", TimeCall::Text(bad, &tables)),
        ("read_sys", TimeCall::Sys(SYS_FILE)),
        ("read_sys (a fault)", TimeCall::Sys(TWICE)),
        ("read_printed", TimeCall::Printed(PRINTED)),
        ("write_sys", TimeCall::Write(file.systems.as_slice())),
    ] {
        refuse_each_of(&rt, alloc, name, &call);
    }
}

// ---- maps

/// A call on a map.
#[derive(Clone, Copy)]
enum MapCall {
    Split,
    Entry(&'static [u8]),
    Host,
}

impl Ask for MapCall {
    fn said<R: Abort>(&self, rt: &R, alloc: Global, refusing: Refusing) -> Said {
        refusing.begin(alloc);
        match *self {
            MapCall::Split => {
                assert!(rt; MAP.len() <= 4_194_304);
                note(rt, alloc, &split(alloc, MAP))
            }
            MapCall::Entry(text) => note(rt, alloc, &read_entry(alloc, text)),
            MapCall::Host => note(rt, alloc, &entry_host(alloc, MAP)),
        }
    }
}

const MAP_CALLS: &[(&str, MapCall)] = &[
    ("split", MapCall::Split),
    ("read_entry", MapCall::Entry(MAP)),
    ("read_entry (a fault)", MapCall::Entry(b"#N unc, a\n a*b\n")),
    ("entry_host", MapCall::Host),
];

#[test]
fn maps(rt: HostRuntime) {
    for (name, call) in MAP_CALLS {
        refuse_each_of(&rt, rt.alloc(), name, call);
    }
}

// ---- routes

/// A call on the entries of a map.
#[derive(Clone, Copy)]
enum RouteCall {
    Routes,
    Host,
}

impl Ask for RouteCall {
    fn said<R: Abort>(&self, rt: &R, alloc: Global, refusing: Refusing) -> Said {
        let mut entries = Vec::new(alloc);
        let entry = read_entry(alloc, MAP).expect(rt, "an entry");
        entries.push(entry).expect(rt, "memory");
        let own = site(rt, alloc, "mysite");
        let alias = site(rt, alloc, "unc-ch");
        let mut systems = Vec::new(alloc);
        let system = site(rt, alloc, "unc-ch");
        systems.push(system).expect(rt, "memory");
        refusing.begin(alloc);
        match *self {
            RouteCall::Routes => note(rt, alloc, &site_routes(alloc, &entries, &own, &systems)),
            RouteCall::Host => note(rt, alloc, &meant_host(alloc, &entries, &alias)),
        }
    }
}

const ROUTE_CALLS: &[(&str, RouteCall)] = &[
    ("site_routes", RouteCall::Routes),
    ("meant_host", RouteCall::Host),
];

#[test]
fn routes(rt: HostRuntime) {
    for (name, call) in ROUTE_CALLS {
        refuse_each_of(&rt, rt.alloc(), name, call);
    }
}

// ---- seals

/// A call on a sealed text or on a key file.
#[derive(Clone, Copy)]
enum SealCall<'a> {
    Seal(&'a [u8]),
    Open(&'a [u8]),
    Keys(&'a [u8]),
}

/// The key of both.
const KEY: [u8; 32] = [7; 32];

impl Ask for SealCall<'_> {
    fn said<R: Abort>(&self, rt: &R, alloc: Global, refusing: Refusing) -> Said {
        let key = Key::new(KEY);
        let keys = [Key::new(KEY)];
        refusing.begin(alloc);
        match *self {
            SealCall::Seal(text) => note(rt, alloc, &seal(alloc, &key, text)),
            SealCall::Open(text) => note(rt, alloc, &open(alloc, &keys, text)),
            SealCall::Keys(text) => match keys_in(alloc, text) {
                Ok(keys) => note(rt, alloc, &Ok::<usize, KeyFault>(keys.as_slice().len())),
                Err(fault) => note(rt, alloc, &Err::<usize, KeyFault>(fault)),
            },
        }
    }
}

/// Two keys, each on a line.
const KEY_FILE: &[u8] =
    b"0707070707070707070707070707070707070707070707070707070707070707\n0000000000000000000000000000000000000000000000000000000000000000\n";

#[test]
fn seals(rt: HostRuntime) {
    let alloc = rt.alloc();
    let sealed = seal(alloc, &Key::new(KEY), MESSAGE).expect(&rt, "memory");
    let others = seal(alloc, &Key::new([8; 32]), MESSAGE).expect(&rt, "memory");
    for (name, call) in [
        ("seal", SealCall::Seal(MESSAGE)),
        ("open", SealCall::Open(&sealed)),
        ("open (another key)", SealCall::Open(&others)),
        ("keys_in", SealCall::Keys(KEY_FILE)),
        ("keys_in (a fault)", SealCall::Keys(&KEY_FILE[..100])),
    ] {
        refuse_each_of(&rt, alloc, name, &call);
    }
}

// ---- the plain machine

const FOUR_JOBS: &[Order] = &[
    Order::Define(b"system duke\ntimegrade C Any\n"),
    Order::Define(b"system unc\ntime Any\n"),
    Order::Queue("duke", b'a', Work::Send, 0),
    Order::Queue("duke", b'B', Work::Send, 0),
    Order::Queue("unc", b'z', Work::Send, 0),
    Order::Queue("unc", b'9', Work::Send, 0),
];

/// A machine that carried out these.
pub(crate) fn machine(rt: &impl Abort, alloc: Global, orders: &[Order]) -> Machine {
    let mut machine = Machine::new(alloc);
    for order in orders {
        machine
            .step(alloc, command(rt, alloc, *order))
            .expect(rt, "memory");
    }
    machine
}

/// A machine with four jobs.
pub(crate) fn four_jobs(rt: &impl Abort, alloc: Global) -> Machine {
    machine(rt, alloc, FOUR_JOBS)
}

/// A question to a machine.
#[derive(Clone, Copy)]
enum Question {
    Choose,
    AllDue,
    NextCalls,
    NextPolls,
    Queues,
    Heads,
    Due,
}

/// A question to a machine and its jobs.
#[derive(Clone, Copy)]
struct MachineCall<'a> {
    question: Question,
    machine: &'a Machine,
    heads: &'a [JobHead],
    at: &'a Moment,
    zone: &'a Zone,
}

impl Ask for MachineCall<'_> {
    fn said<R: Abort>(&self, rt: &R, alloc: Global, refusing: Refusing) -> Said {
        let systems = self.machine.systems();
        refusing.begin(alloc);
        match self.question {
            Question::Choose => note(rt, alloc, &choose(alloc, systems, self.heads, self.at)),
            Question::AllDue => note(rt, alloc, &all_due(alloc, systems, self.heads, self.at)),
            Question::NextCalls => {
                let calls = next_calls(alloc, systems, self.heads, SUNDAY, self.zone);
                note(rt, alloc, &calls)
            }
            Question::NextPolls => {
                let polls = next_polls(alloc, systems, SUNDAY, self.zone);
                note(rt, alloc, &polls)
            }
            Question::Queues => note(rt, alloc, &queues(alloc, self.heads)),
            Question::Heads => note(rt, alloc, &self.machine.heads(alloc)),
            Question::Due => note(rt, alloc, &self.machine.due(alloc, self.at)),
        }
    }
}

#[test]
fn choices(rt: HostRuntime) {
    let alloc = rt.alloc();
    let machine = four_jobs(&rt, alloc);
    let heads = machine.heads(alloc).expect(&rt, "memory");
    let at = moment(&rt, SUNDAY);
    let zone = Zone::fixed(0).expect(&rt, "a zone");
    for (name, question) in [
        ("choose", Question::Choose),
        ("all_due", Question::AllDue),
        ("next_calls", Question::NextCalls),
        ("next_polls", Question::NextPolls),
        ("queues", Question::Queues),
        ("Machine::heads", Question::Heads),
        ("Machine::due", Question::Due),
    ] {
        let call = MachineCall {
            question,
            machine: &machine,
            heads: &heads,
            at: &at,
            zone: &zone,
        };
        refuse_each_of(&rt, alloc, name, &call);
    }
}

/// The definitions of two systems, or only that of a name.
#[derive(Clone, Copy)]
struct Definitions<'a>(Option<&'a SiteName>);

impl Ask for Definitions<'_> {
    fn said<R: Abort>(&self, rt: &R, alloc: Global, refusing: Refusing) -> Said {
        let mut rows = Vec::new(alloc);
        for text in [SYS_FILE_DUKE, b"system unc\ntime Any\n"] {
            let def = system(rt, alloc, text);
            let call = CallState {
                last: 0,
                failures: 0,
                wait: 0,
                outcome: Called::Never,
            };
            rows.push(SystemRow { def, call }).expect(rt, "memory");
        }
        refusing.begin(alloc);
        note(rt, alloc, &definitions(alloc, rows, self.0))
    }
}

#[test]
fn definitions_of_systems(rt: HostRuntime) {
    let alloc = rt.alloc();
    let unc = site(&rt, alloc, "unc");
    refuse_each_of(&rt, alloc, "definitions", &Definitions(None));
    refuse_each_of(&rt, alloc, "definitions", &Definitions(Some(&unc)));
}

/// What a machine shows of its jobs and calls.
fn shown(rt: &impl Abort, alloc: Global, machine: &Machine) -> String {
    let heads = machine.heads(alloc).expect(rt, "memory");
    text_of(rt, alloc, &(machine.next(), heads, machine.systems()))
}

const NEW_JOB: Order = Order::Queue("duke", b'N', Work::Send, 9);

/// Whether a machine shows what one with four jobs shows, before or after one more job.
fn shows(rt: &impl Abort, alloc: Global, machine: &Machine, with_new_job: bool) -> bool {
    let mut wanted = four_jobs(rt, alloc);
    if with_new_job {
        wanted
            .step(alloc, command(rt, alloc, NEW_JOB))
            .expect(rt, "memory");
    }
    shown(rt, alloc, machine).as_str() == shown(rt, alloc, &wanted).as_str()
}

/// A step of a machine that runs out of memory changes nothing, and is then made.
#[derive(Clone, Copy)]
struct Step;

impl Call for Step {
    fn made<R: Abort>(&mut self, rt: &R, alloc: Global, refusing: Refusing) -> (bool, Outcome) {
        let mut machine = four_jobs(rt, alloc);
        let given = command(rt, alloc, NEW_JOB);
        refusing.begin(alloc);
        let Said { refused, text } = note(rt, alloc, &machine.step(alloc, given));
        if text.as_str() == "Ok(Number(5))" {
            let is_made = shows(rt, alloc, &machine, true);
            return (refused, outcome_if(is_made, Outcome::Answer));
        }
        let is_same = shows(rt, alloc, &machine, false);
        let again = machine.step(alloc, command(rt, alloc, NEW_JOB));
        let is_right = text.as_str() == "Err(AllocError)" && is_same && again.is_ok();
        (refused, outcome_if(is_right, Outcome::Memory))
    }
}

#[test]
fn machine_steps(rt: HostRuntime) {
    refuse_each(&rt, rt.alloc(), "Machine::step", 1, &mut Step);
}

/// A run of a machine that runs out of memory made only the first steps.
#[derive(Clone, Copy)]
struct MachineRun;

impl Call for MachineRun {
    fn made<R: Abort>(&mut self, rt: &R, alloc: Global, refusing: Refusing) -> (bool, Outcome) {
        let mut machine = four_jobs(rt, alloc);
        let given = commands(rt, alloc, &[NEW_JOB, Order::Regrade(1, b'A')]);
        refusing.begin(alloc);
        let Said { refused, text } = note(rt, alloc, &machine.run(alloc, given));
        if text.as_str() == "Ok([Number(5), Done])" {
            return (refused, Outcome::Answer);
        }
        let is_front = shows(rt, alloc, &machine, false) || shows(rt, alloc, &machine, true);
        let is_right = text.as_str() == "Err(AllocError)" && is_front;
        (refused, outcome_if(is_right, Outcome::Memory))
    }
}

#[test]
fn machine_runs(rt: HostRuntime) {
    refuse_each(&rt, rt.alloc(), "Machine::run", 1, &mut MachineRun);
}

/// A job of a bundle for which memory runs out changes nothing of the bundle, and is then taken.
#[derive(Clone, Copy)]
struct Decide;

impl Call for Decide {
    fn made<R: Abort>(&mut self, rt: &R, alloc: Global, refusing: Refusing) -> (bool, Outcome) {
        let first = offered(rt, alloc, 7, 1, "unc", 100);
        let mut taking = Taking::begin(alloc, true, 3, 0, 6);
        refusing.begin(alloc);
        let Said { refused, text } = note(rt, alloc, &taking.decide(true, None, &first));
        if text.as_str() == "Ok(Ok(First(3)))" {
            return (refused, Outcome::Answer);
        }
        let again = text_of(rt, alloc, &taking.decide(true, None, &first));
        let is_right = text.as_str() == "Err(AllocError)" && again.as_str() == "Ok(Ok(First(3)))";
        (refused, outcome_if(is_right, Outcome::Memory))
    }
}

#[test]
fn decisions_on_bundles(rt: HostRuntime) {
    refuse_each(&rt, rt.alloc(), "Taking::decide", 1, &mut Decide);
}
