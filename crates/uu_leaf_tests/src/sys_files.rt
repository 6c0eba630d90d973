// Sys files: a worked one, faults, each beginning of some files compared with a plain reader, and
// the time that large files take.
use crate::expecting::{expect_same, expect_soon, expect_text, repeated, show_skipped, wanted};
use crate::fronts::{Fronts, SYS_FILES};
use crate::times::show_windows;
use std::alloc::{AllocError, Global};
use std::fmt::Write;
use std::io::Print;
use std::process::Abort;
use std::rt::Clock;
use std::slice;
use std::time::Instant;
use uu_times::{Line, SysFile, SystemDef, TimeFault, read_printed, read_sys, write_sys};

/// The most bytes of a sys file.
const LARGEST: usize = 4_194_304;

// What a sys file says that isn't too large.
fn read(alloc: Global, text: &[u8]) -> Result<SysFile, TimeFault> {
    if text.len() <= LARGEST {
        read_sys(alloc, text)
    } else {
        Err(TimeFault::Memory)
    }
}

// A line's grade, its retry number (0 if it has none), and its runs.
fn show_line(shown: &mut String, line: &Line) -> Result<(), AllocError> {
    let grade = line.grade.as_byte() as char;
    write!(shown, " {} {}:", grade, line.retry.unwrap_or(0))?;
    show_windows(shown, &line.windows)
}

fn show_system(shown: &mut String, system: &SystemDef) -> Result<(), AllocError> {
    write!(
        shown,
        "{} {} {}:",
        system.name.as_str(),
        system.max_retries,
        system.success_wait
    )?;
    for line in system.lines() {
        show_line(shown, line)?;
    }
    shown.push_str("/")
}

fn show_file(shown: &mut String, file: &SysFile) -> Result<(), AllocError> {
    for system in file.systems.as_slice() {
        show_system(shown, system)?;
    }
    show_skipped(shown, file.skipped.as_slice())
}

// What a sys file says, as the plain readers show it, or why it is refused.
fn told(alloc: Global, text: &[u8]) -> Result<String, AllocError> {
    let mut told = String::new(alloc);
    match read(alloc, text) {
        Ok(file) => show_file(&mut told, &file)?,
        Err(fault) => write!(told, "{fault}")?,
    }
    Ok(told)
}

const SHORT_FILES: [(&[u8], &str); 35] = [
    // Defaults, a timetable on two lines, a comment, other keywords and two systems.
    (
        b"# defaults\ntime Wk2305-0755\ntimetable Lunch Wk1200-\\\n1300\nsystem duke\n  time Lunch 15\n  port ser\\#1\n  alternate backup\n  timegrade C Any\nsystem unc\n  max-retries 2\n",
        "duke 26 0: z 15: 2160-2220 3600-3660 5040-5100 6480-6540 7920-7980 C 0: 0-10079/unc 2 0: z 0: 1440-1915 2825-3355 4265-4795 5705-6235 7145-7675 8585-8639/skipped 7/skipped 8/",
    ),
    (b"time Any 30 \\# x", "line 1: bad words"),
    (b"time Any 30 # x", ""),
    (b"time Any x", "line 1: bad number"),
    (b"timegrade - Any", "line 1: bad words"),
    (b"system a!b", "line 1: bad system name"),
    (b"system a\nsystem a", "line 2: system defined twice"),
    (
        b"timetable T Any\ntimetable t Any",
        "line 2: timetable defined twice",
    ),
    (b"time Any 525600", ""),
    (b"time Any 525601", "line 1: bad number"),
    (b"max-retries 1000001", "line 1: bad number"),
    (b"max-retries", "line 1: bad words"),
    // A wait after a successful call: at most 365 days, in at most nine digits.
    (b"success-wait", "line 1: bad words"),
    (b"success-wait 60 60", "line 1: bad words"),
    (b"success-wait 31536000\nsystem a", "a 26 31536000:/"),
    (b"success-wait 31536001", "line 1: bad number"),
    (b"success-wait 0000000060", "line 1: bad number"),
    (b"success-wait -1", "line 1: bad number"),
    (b"success-wait 0", ""),
    // The last wait of the defaults, and that of a section instead of them.
    (
        b"success-wait 1\nsuccess-wait 600\nsystem a\nsystem b\nsuccess-wait 5\nsuccess-wait 0",
        "a 26 600:/b 26 0:/",
    ),
    (
        b"time Lunch\ntimetable Lunch Any",
        "line 1: unknown timetable",
    ),
    (b"time Su24", "line 1: bad time string at 3"),
    (b"system \xc3\xbf", "line 1: bad system name"),
    (b"time Any\\", ""),
    (b"time \\\r\n Any\\\\", "line 1: bad time string at 3"),
    // Any bytes are skipped, and aren't names.
    (b"\xff", "skipped 1/"),
    (b"\x00", "skipped 1/"),
    (b"x\r\n", "skipped 1/"),
    (b"\\x\\", "skipped 1/"),
    (b"system \xff", "line 1: bad system name"),
    (b"system a\x00", "line 1: bad system name"),
    // Ends of files and of lines.
    (b"", ""),
    (b"\\", ""),
    (b"system a\\", "a 26 0:/"),
    (
        b"system a\r\ntime Any\r\nsystem b\r\n",
        "a 26 0: z 0: 0-10079/b 26 0:/",
    ),
];

#[test]
fn short_files(rt: HostRuntime) {
    for (text, want) in SHORT_FILES.as_slice() {
        expect_text(&rt, told(rt.alloc(), text), want);
    }
}

fn shown(alloc: Global, system: &SystemDef) -> Result<String, AllocError> {
    let mut shown = String::new(alloc);
    show_system(&mut shown, system)?;
    Ok(shown)
}

// What is printed of a system has to be read quickly as that system.
fn expect_read_again(rt: &impl Abort, alloc: Global, system: &SystemDef) {
    let printed = write_sys(alloc, slice::from_ref(system)).expect(rt, "memory");
    let read = read_printed(alloc, printed.as_slice()).expect(rt, "memory");
    let want = shown(alloc, system).expect(rt, "memory");
    expect_text(
        rt,
        shown(alloc, &read.expect(rt, "a system")),
        want.as_str(),
    );
}

#[test]
fn printed_systems_are_read_quickly(rt: HostRuntime) {
    for (text, _) in SHORT_FILES.as_slice() {
        if let Ok(file) = read(rt.alloc(), text) {
            for system in file.systems.as_slice() {
                expect_read_again(&rt, rt.alloc(), system);
            }
        }
    }
}

fn expect_fronts(rt: &impl Abort, alloc: Global, fronts: &Fronts) {
    for length in 0..=fronts.text.len() {
        let front = fronts.text.get(..length).expect(rt, "a front");
        let want = wanted(fronts, length).expect(rt, "an answer");
        expect_text(rt, told(alloc, front.as_bytes()), want);
    }
}

#[test]
fn each_front_of_a_sys_file_is_read_as_plainly(rt: HostRuntime) {
    for fronts in SYS_FILES.as_slice() {
        expect_fronts(&rt, rt.alloc(), fronts);
    }
}

/// A text of many lines, or with a long one.
#[derive(Clone, Copy)]
enum Large {
    /// A section with so many time lines.
    Section(usize),
    /// Systems n0 to n9999, and then this text.
    TenThousand(&'static str),
    /// Systems, each with a line of its own.
    WithALine,
    /// One line of many time strings.
    LongLine,
    /// Systems whose lines are the 32 of the defaults.
    EvenMinutes,
}

// Ten thousand systems, from n0 on.
fn ten_thousand(alloc: Global, tail: &str) -> Result<String, AllocError> {
    let mut text = String::new(alloc);
    for number in 0..10_000u32 {
        write!(text, "system n{}\n", number)?;
    }
    text.push_str(tail)?;
    Ok(text)
}

// So many systems, from n000000 on, between these texts.
fn push_systems(
    text: &mut String,
    before: &str,
    count: u32,
    after: &str,
) -> Result<(), AllocError> {
    for number in 0..count {
        write!(text, "{}system n{:06}{}", before, number, after)?;
    }
    Ok(())
}

fn systems_with_a_line(alloc: Global) -> Result<String, AllocError> {
    let mut text = String::new(alloc);
    push_systems(&mut text, "", 131_072, "\ntime Wk0900-1700\n")?;
    Ok(text)
}

// A timetable of each even minute.
fn push_even_minutes(text: &mut String) -> Result<(), AllocError> {
    text.push_str("timetable Even Any0000-0000")?;
    for minute in 1..720u32 {
        let at = minute / 30 * 100 + minute % 30 * 2;
        write!(text, ",Any{at:04}-{at:04}")?;
    }
    Ok(())
}

fn systems_of_even_minutes(alloc: Global) -> Result<String, AllocError> {
    let mut text = String::new(alloc);
    push_even_minutes(&mut text)?;
    for _ in 0..32 {
        text.push_str("\ntime Even")?;
    }
    push_systems(&mut text, "\n", 270_000, "")?;
    Ok(text)
}

fn large_text(alloc: Global, large: Large) -> Result<String, AllocError> {
    match large {
        Large::Section(count) => repeated(alloc, "system duke\n", "time Any\n", count, ""),
        Large::TenThousand(tail) => ten_thousand(alloc, tail),
        Large::WithALine => systems_with_a_line(alloc),
        Large::LongLine => repeated(alloc, "time ", "Any,", 1_048_574, "Any"),
        Large::EvenMinutes => systems_of_even_minutes(alloc),
    }
}

const LARGE_FAULTS: [(Large, Option<TimeFault>); 3] = [
    (Large::Section(32), None),
    (Large::Section(33), Some(TimeFault::TooManyLines(34))),
    (
        Large::TenThousand("system n0"),
        Some(TimeFault::SystemTwice(10_001)),
    ),
];

#[test]
fn faults_behind_many_lines(rt: HostRuntime) {
    for (large, want) in LARGE_FAULTS.as_slice() {
        let text = large_text(rt.alloc(), *large).expect(&rt, "memory");
        expect_same(&rt, &read(rt.alloc(), text.as_bytes()).err(), want);
    }
}

/// How long a text is, how many systems it has, the last one's name, and how many lines of how many
/// runs each system has.
type Counts = (usize, usize, &'static str, usize, usize);

// Copies of the runs of the last row would take 174 gigabytes.
const LARGE_FILES: [(Large, Counts); 4] = [
    (Large::TenThousand(""), (128_890, 10_000, "n9999", 0, 0)),
    (Large::WithALine, (LARGEST, 131_072, "n131071", 1, 5)),
    (Large::LongLine, (LARGEST, 0, "", 0, 0)),
    (
        Large::EvenMinutes,
        (4_059_694, 270_000, "n269999", 32, 5_040),
    ),
];

// Reads a large sys file in less than ten seconds.
fn read_quickly(rt: &(impl Abort + Clock + Print), alloc: Global, text: &[u8]) -> SysFile {
    let start = Instant::now(rt).expect(rt, "a clock");
    let file = read(alloc, text).expect(rt, "a sys file");
    expect_soon(rt, &start);
    file
}

fn last_name(systems: &[SystemDef]) -> &str {
    match systems.last() {
        Some(system) => system.name.as_str(),
        None => "",
    }
}

fn expect_lines(rt: &impl Abort, system: &SystemDef, lines: usize, runs: usize) {
    expect_same(rt, &system.lines().len(), &lines);
    for line in system.lines() {
        expect_same(rt, &line.windows.ranges().len(), &runs);
    }
}

fn expect_systems(rt: &impl Abort, systems: &[SystemDef], (_, count, last, lines, runs): Counts) {
    expect_same(rt, &systems.len(), &count);
    expect_same(rt, &last_name(systems), &last);
    for system in systems {
        expect_lines(rt, system, lines, runs);
    }
}

fn expect_large(rt: &(impl Abort + Clock + Print), alloc: Global, large: Large, counts: Counts) {
    let text = large_text(alloc, large).expect(rt, "memory");
    expect_same(rt, &text.len(), &counts.0);
    let file = read_quickly(rt, alloc, text.as_bytes());
    expect_systems(rt, file.systems.as_slice(), counts);
}

#[test]
fn large_files_are_read_in_seconds(rt: HostRuntime) {
    for (large, counts) in LARGE_FILES.as_slice() {
        expect_large(&rt, rt.alloc(), *large, *counts);
    }
}
