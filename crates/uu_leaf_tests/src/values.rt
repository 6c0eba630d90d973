// Values of names, times and jobs from plain data. If memory runs out, a test ends here.
use std::alloc::Global;
use std::process::Abort;
use uu_core::{By, Kind, NewJob};
use uu_names::{Grade, Listed, SiteName, Word};
use uu_times::{Line, Moment, SystemDef, Windows, Zone};

/// 2001-09-09 01:46:40, a Sunday.
pub const SUNDAY: u64 = 1_000_000_000;

/// The whole week.
pub const WEEK: [(u16, u16); 1] = [(0, 10_079)];

/// Weekdays from 9:00 to 17:00.
const OFFICE: [(u16, u16); 5] = [
    (1980, 2460),
    (3420, 3900),
    (4860, 5340),
    (6300, 6780),
    (7740, 8220),
];

pub fn site(rt: &impl Abort, alloc: Global, name: &str) -> SiteName {
    SiteName::parse(alloc, name).expect(rt, "a site name")
}

pub fn word(rt: &impl Abort, alloc: Global, text: &str) -> Word {
    Word::parse(alloc, text).expect(rt, "a word")
}

pub fn grade(rt: &impl Abort, byte: u8) -> Grade {
    Grade::parse(byte).expect(rt, "a grade")
}

pub fn moment(rt: &impl Abort, second: u64) -> Moment {
    let zone = Zone::fixed(0).expect(rt, "a zone");
    Moment::new(second, &zone).expect(rt, "a moment")
}

/// A time line for this grade with these ranges of the week.
pub fn line(
    rt: &impl Abort,
    alloc: Global,
    byte: u8,
    ranges: &[(u16, u16)],
    retry: Option<u32>,
) -> Line {
    let windows = Windows::from_ranges(alloc, ranges).expect(rt, "memory");
    Line {
        grade: grade(rt, byte),
        windows: windows.expect(rt, "ranges of the week"),
        retry,
    }
}

fn system(
    rt: &impl Abort,
    alloc: Global,
    name: &str,
    lines: Vec<Line>,
    max_retries: u32,
    success_wait: u32,
) -> SystemDef {
    let name = site(rt, alloc, name);
    let lines = Listed::from_vec(lines);
    SystemDef::new(name, lines, max_retries, success_wait).expect(rt, "a system")
}

// A system that may be called all week for jobs of this grade and higher grades.
pub fn all_week(
    rt: &impl Abort,
    alloc: Global,
    name: &str,
    grade: u8,
    retry: Option<u32>,
    max_retries: u32,
) -> SystemDef {
    let mut lines = Vec::new(alloc);
    let line = line(rt, alloc, grade, WEEK.as_slice(), retry);
    lines.push(line).expect(rt, "memory");
    system(rt, alloc, name, lines, max_retries, 0)
}

// A system that is left alone for so many seconds after a successful call.
pub fn resting(rt: &impl Abort, alloc: Global, name: &str, success_wait: u32) -> SystemDef {
    system(rt, alloc, name, Vec::new(alloc), 26, success_wait)
}

// A system that may be called all week for each grade, and on weekdays from 9:00 to 17:00 for grade
// C and higher ones.
pub fn office(rt: &impl Abort, alloc: Global, name: &str) -> SystemDef {
    let all_week = line(rt, alloc, b'z', WEEK.as_slice(), Some(30));
    let often = line(rt, alloc, b'C', OFFICE.as_slice(), Some(5));
    let lines = (vec![in alloc; all_week, often]).expect(rt, "memory");
    system(rt, alloc, name, lines, 26, 0)
}

pub fn by(rt: &impl Abort, alloc: Global, user: &str, admin: bool) -> By {
    let user = word(rt, alloc, user);
    By { user, admin }
}

// A file that is sent.
pub fn file(rt: &impl Abort, alloc: Global) -> Kind {
    let source = word(rt, alloc, "/tmp/news");
    let target = word(rt, alloc, "~/news");
    Kind::Send { source, target }
}

// A file of so many bytes that ann sends on Sunday.
pub fn new_job(rt: &impl Abort, alloc: Global, system: &str, byte: u8, size: usize) -> NewJob {
    let bytes = (vec![in alloc; b'x'; size]).expect(rt, "memory");
    NewJob {
        system: site(rt, alloc, system),
        grade: grade(rt, byte),
        user: word(rt, alloc, "ann"),
        kind: file(rt, alloc),
        bytes: Listed::from_vec(bytes),
        at: moment(rt, SUNDAY),
    }
}
