// Moments, time strings and their sets, and each beginning of some time strings compared with plain
// readers.
use crate::expecting::{expect_same, expect_text, wanted};
use crate::fronts::{Fronts, TIME_STRINGS};
use crate::values::{WEEK, line, site};
use jiff_core::civil::DateTime;
use std::alloc::{AllocError, Global};
use std::fmt::Write;
use std::process::Abort;
use uu_names::Listed;
use uu_times::{Moment, SystemDef, TimeFault, Timetables, Windows, Zone, read_time};

// The set of a time string that may name a predefined timetable.
fn windows(alloc: Global, text: &str) -> Result<Windows, TimeFault> {
    let tables = Timetables::predefined(alloc)?;
    read_time(alloc, text, &tables)
}

type Civil = ((i16, u8, u8), (u8, u8, u8));

/// Seconds and offsets, and the minute of the week and the date and time, or the fault.
const MOMENTS: [(u64, i32, Result<(u16, Civil), TimeFault>); 8] = [
    (0, 0, Ok((5760, ((1970, 1, 1), (0, 0, 0))))),
    (0, -300, Ok((5460, ((1969, 12, 31), (19, 0, 0))))),
    (1_000_000_000, 0, Ok((106, ((2001, 9, 9), (1, 46, 40))))),
    (4_102_444_800, 0, Ok((7200, ((2100, 1, 1), (0, 0, 0))))),
    (4_102_444_801, 0, Err(TimeFault::MomentRange)),
    (4_102_444_801, 1440, Err(TimeFault::OffsetRange)),
    (0, 1440, Err(TimeFault::OffsetRange)),
    (0, -1440, Err(TimeFault::OffsetRange)),
];

// The second of a moment, and what the row of a moment has.
fn moment(second: u64, offset: i32) -> Result<(u64, (u16, Civil)), TimeFault> {
    shown(&Zone::fixed(offset)?, second)
}

// The same on a zone's clock.
fn shown(zone: &Zone, second: u64) -> Result<(u64, (u16, Civil)), TimeFault> {
    let moment = Moment::new(second, zone)?;
    let DateTime { date, time } = moment.local;
    let civil = (
        (date.year, date.month, date.day),
        (time.hour, time.minute, time.second),
    );
    Ok((moment.second, (moment.week, civil)))
}

#[test]
fn moments(rt: HostRuntime) {
    for (second, offset, want) in MOMENTS.as_slice() {
        let want = match want {
            Ok(want) => Ok((*second, *want)),
            Err(fault) => Err(*fault),
        };
        expect_same(&rt, &moment(*second, *offset), &want);
    }
}

/// Seconds on a clock with daylight saving time, and the same for each.
const NEW_YORK: [(u64, (u16, Civil)); 6] = [
    (1_710_053_999, (119, ((2024, 3, 10), (1, 59, 59)))),
    (1_710_054_000, (180, ((2024, 3, 10), (3, 0, 0)))),
    (1_730_610_000, (60, ((2024, 11, 3), (1, 0, 0)))),
    (1_730_613_599, (119, ((2024, 11, 3), (1, 59, 59)))),
    (1_730_613_600, (60, ((2024, 11, 3), (1, 0, 0)))),
    (1_730_617_200, (120, ((2024, 11, 3), (2, 0, 0)))),
];

#[test]
fn daylight_saving_time(rt: HostRuntime) {
    let zone = Zone::posix("EST5EDT,M3.2.0,M11.1.0").expect(&rt, "a zone");
    for (second, want) in NEW_YORK.as_slice() {
        expect_same(&rt, &shown(&zone, *second), &Ok((*second, *want)));
    }
}

/// Rules of places, as zone files have them.
const SYDNEY: &str = "AEST-10AEDT,M10.1.0,M4.1.0/3";

const KATHMANDU: &str = "<+0545>-5:45";

const CHATHAM: &str = "<+1245>-12:45<+1345>,M9.5.0/2:45,M4.1.0/3:45";

const NUUK: &str = "<-02>2<-01>,M3.5.0/-1,M10.5.0/0";

const ISRAEL: &str = "IST-2IDT,M3.4.4/26,M10.5.0";

const GAZA: &str = "EET-2EEST,M3.4.4/50,M10.4.4/50";

const DUBLIN: &str = "IST-1GMT0,M10.5.0,M3.5.0/1";

const TEHRAN: &str = "<+0330>-3:30<+0430>,J79/24,J263/24";

/// Rules that count 29 February, have seconds, or are more than a day from UTC.
const LEAP: &str = "XXX3YYY,59,300/1";

const SECONDS: &str = "AAA-1:02:03BBB-1:32:03,M5.1.1,M9.2.6";

const EAST: &str = "<+25>-24:59:59";

const WEST: &str = "<-25>24:59:59";

const BEYOND: &str = "XXX-24:59:59YYY,0/0,J365/25";

/// Rules, seconds on both sides of their changes, and the same. The C library shows the same.
const CLOCKS: [(&str, u64, (u16, Civil)); 33] = [
    // in the south, where daylight saving time runs over the new year
    (SYDNEY, 1_704_067_200, (2100, ((2024, 1, 1), (11, 0, 0)))),
    (SYDNEY, 1_712_419_199, (179, ((2024, 4, 7), (2, 59, 59)))),
    (SYDNEY, 1_712_419_200, (120, ((2024, 4, 7), (2, 0, 0)))),
    (SYDNEY, 1_728_143_999, (119, ((2024, 10, 6), (1, 59, 59)))),
    (SYDNEY, 1_728_144_000, (180, ((2024, 10, 6), (3, 0, 0)))),
    // a quarter of an hour from whole hours
    (KATHMANDU, 0, (6105, ((1970, 1, 1), (5, 45, 0)))),
    (CHATHAM, 1_712_411_999, (224, ((2024, 4, 7), (3, 44, 59)))),
    (CHATHAM, 1_712_412_000, (165, ((2024, 4, 7), (2, 45, 0)))),
    // a change before midnight of its day, and changes after it
    (NUUK, 1_711_846_799, (10_019, ((2024, 3, 30), (22, 59, 59)))),
    (NUUK, 1_711_846_800, (0, ((2024, 3, 31), (0, 0, 0)))),
    (ISRAEL, 1_711_670_399, (7319, ((2024, 3, 29), (1, 59, 59)))),
    (ISRAEL, 1_711_670_400, (7380, ((2024, 3, 29), (3, 0, 0)))),
    (GAZA, 1_729_897_199, (8759, ((2024, 10, 26), (1, 59, 59)))),
    (GAZA, 1_729_897_200, (8700, ((2024, 10, 26), (1, 0, 0)))),
    // daylight saving time that is behind standard time
    (DUBLIN, 1_711_846_799, (59, ((2024, 3, 31), (0, 59, 59)))),
    (DUBLIN, 1_711_846_800, (120, ((2024, 3, 31), (2, 0, 0)))),
    (DUBLIN, 1_729_990_799, (119, ((2024, 10, 27), (1, 59, 59)))),
    (DUBLIN, 1_729_990_800, (60, ((2024, 10, 27), (1, 0, 0)))),
    // days of the year without 29 February, and with it
    (TEHRAN, 1_679_344_199, (2879, ((2023, 3, 20), (23, 59, 59)))),
    (TEHRAN, 1_679_344_200, (2940, ((2023, 3, 21), (1, 0, 0)))),
    (TEHRAN, 1_710_966_599, (5759, ((2024, 3, 20), (23, 59, 59)))),
    (TEHRAN, 1_710_966_600, (5820, ((2024, 3, 21), (1, 0, 0)))),
    (LEAP, 1_677_646_799, (4439, ((2023, 3, 1), (1, 59, 59)))),
    (LEAP, 1_677_646_800, (4500, ((2023, 3, 1), (3, 0, 0)))),
    (LEAP, 1_709_182_799, (5879, ((2024, 2, 29), (1, 59, 59)))),
    (LEAP, 1_709_182_800, (5940, ((2024, 2, 29), (3, 0, 0)))),
    // offsets with seconds
    (SECONDS, 1_682_902_676, (1559, ((2023, 5, 1), (1, 59, 59)))),
    (SECONDS, 1_682_902_677, (1590, ((2023, 5, 1), (2, 30, 0)))),
    // more than a day from UTC, at the first moment and the last
    (EAST, 0, (7259, ((1970, 1, 2), (0, 59, 59)))),
    (EAST, 4_102_444_800, (8699, ((2100, 1, 2), (0, 59, 59)))),
    (WEST, 0, (4260, ((1969, 12, 30), (23, 0, 1)))),
    (WEST, 4_102_444_800, (5700, ((2099, 12, 30), (23, 0, 1)))),
    (BEYOND, 4_102_444_800, (8759, ((2100, 1, 2), (1, 59, 59)))),
];

#[test]
fn clocks_of_rules(rt: HostRuntime) {
    for (rule, second, want) in CLOCKS.as_slice() {
        let zone = Zone::posix(rule).expect(&rt, "a zone");
        expect_same(&rt, &shown(&zone, *second), &Ok((*second, *want)));
    }
}

/// Texts at the limits of a rule. The last four exceed POSIX's limits for the times of a rule.
const RULES: [&str; 12] = [
    "UTC0",
    "utc+0",
    "ABCDEFGHIJKLMNO24:59:59",
    "<-1Z>-24:59:59",
    "<123456789012345>0",
    "XXX3YYY4,J1/0,J365/24",
    "XXX3YYY-3:30,0/0:00:00,365/24:59:59",
    "XXX3YYY,M1.1.0,M12.5.6",
    "XXX3YYY,M01.1.0/25,M12.5.6",
    "XXX3YYY,M3.2.0/167:59:59,M11.1.0",
    "XXX3YYY,M3.2.0/+2,M11.1.0",
    "XXX3YYY,M3.2.0,M11.1.0/-167:59:59",
];

/// Texts that aren't rules: parts missing or too many, and names, offsets, days and times beyond
/// their limits.
const NO_RULES: [&str; 36] = [
    "",
    "5",
    "UTC",
    "EST5EDT",
    "EST5EDT,M3.2.0",
    "EST5EDT,M3.2.0,",
    "EST5,M3.2.0,M11.1.0",
    "EST5EDT,M3.2.0,M11.1.0,M12.1.0",
    "EST5EDT,M3.2.0,M11.1.0 ",
    " UTC0",
    ":UTC0",
    "Europe/Berlin",
    "UT0",
    "ABCDEFGHIJKLMNOP0",
    "<+1>-1",
    "<1234567890123456>0",
    "<+01-1",
    "<A_B>0",
    "\u{c4}\u{d6}\u{dc}0",
    "UTC25",
    "UTC-25",
    "UTC5:60",
    "UTC5:5",
    "UTC5:30:60",
    "EST5EDT25,M3.2.0,M11.1.0",
    "EST5EDT,m3.2.0,M11.1.0",
    "EST5EDT,M0.2.0,M11.1.0",
    "EST5EDT,M13.2.0,M11.1.0",
    "EST5EDT,M3.0.0,M11.1.0",
    "EST5EDT,M3.6.0,M11.1.0",
    "EST5EDT,M3.2.7,M11.1.0",
    "EST5EDT,J0,M11.1.0",
    "EST5EDT,J366,M11.1.0",
    "EST5EDT,366,M11.1.0",
    "EST5EDT,M3.2.0/168,M11.1.0",
    "EST5EDT,M3.2.0/2:60,M11.1.0",
];

#[test]
fn texts_and_rules(rt: HostRuntime) {
    for text in RULES.as_slice() {
        expect_same(&rt, &Zone::posix(text).err(), &None);
    }
    for text in NO_RULES.as_slice() {
        expect_same(&rt, &Zone::posix(text).err(), &Some(TimeFault::BadZone));
    }
}

/// Time strings, a minute of the week, and whether it is in the set.
const NIGHTS: [(&str, u16, bool); 5] = [
    ("Wk2305-0855,Sa,Su2305-1655", 510, true),
    ("Wk2305-0855,Sa,Su2305-1655", 1016, false),
    ("Wk2305-0855,Sa,Su2305-1655", 1975, true),
    ("Wk2305-0855,Sa,Su2305-1655", 1976, false),
    ("Wk2305-0855", 8820, false),
];

fn contains(alloc: Global, text: &str, minute: u16) -> Result<bool, TimeFault> {
    let set = windows(alloc, text)?;
    Ok(set.contains(minute))
}

#[test]
fn minutes_of_time_strings(rt: HostRuntime) {
    for (text, minute, want) in NIGHTS.as_slice() {
        expect_same(&rt, &contains(rt.alloc(), text, *minute), &Ok(*want));
    }
}

/// Shows a set by its runs.
pub fn show_windows(shown: &mut String, windows: &Windows) -> Result<(), AllocError> {
    for (first, last) in windows.ranges() {
        write!(shown, " {}-{}", first, last)?;
    }
    Ok(())
}

// Whether a set has each minute of the week exactly if its runs have it.
fn is_as_its_runs(windows: &Windows) -> bool {
    for minute in 0..10_080u16 {
        let mut is_in = false;
        for (first, last) in windows.ranges() {
            is_in |= *first <= minute && minute <= *last;
        }
        if windows.contains(minute) != is_in {
            return false;
        }
    }
    true
}

fn show(shown: &mut String, windows: &Windows) -> Result<(), AllocError> {
    show_windows(shown, windows)?;
    if is_as_its_runs(windows) {
        Ok(())
    } else {
        shown.push_str(" but not minute by minute")
    }
}

// The runs of a time string, which are those of its minutes, or why it is refused.
fn told(alloc: Global, text: &str) -> Result<String, AllocError> {
    let mut told = String::new(alloc);
    match windows(alloc, text) {
        Ok(windows) => show(&mut told, &windows)?,
        Err(fault) => write!(told, "{fault}")?,
    }
    Ok(told)
}

const EVENING: &str = " 0-1915 2465-3355 3905-4795 5345-6235 6785-7675 8225-10079";

const NIGHT: &str = " 0-1015 1385-1915 2825-3355 4265-4795 5705-6235 7145-7675 8585-10079";

const NON_PEAK: &str = " 0-1855 2525-3295 3965-4735 5405-6175 6845-7615 8285-10079";

const TOLD: [(&str, &str); 23] = [
    ("Any", " 0-10079"),
    ("Any0000-2400", " 0-10079"),
    ("never", ""),
    ("Su1200-1200", " 720-720"),
    ("MoTu0000-0100", " 1440-1500 2880-2940"),
    (
        "Wk1200-1300",
        " 2160-2220 3600-3660 5040-5100 6480-6540 7920-7980",
    ),
    (
        "Wk2305-0755",
        " 1440-1915 2825-3355 4265-4795 5705-6235 7145-7675 8585-8639",
    ),
    ("Su2400-2400", "line 0: bad time string at 3"),
    ("Any0900", "line 0: bad time string at 7"),
    ("", "line 0: bad time string at 0"),
    ("Night|Mo", "line 0: bad time string at 0"),
    ("Moonlight", "line 0: bad time string at 2"),
    ("0900-1700", "line 0: bad time string at 0"),
    ("Any,", "line 0: bad time string at 4"),
    ("MoTuXx", "line 0: bad time string at 4"),
    ("Wednesday", "line 0: bad time string at 2"),
    ("Lunch", "line 0: unknown timetable"),
    // The timetables from the start, each before a time string with the same set.
    ("Evening", EVENING),
    ("Wk1705-0755,Sa,Su", EVENING),
    ("night", NIGHT),
    ("Wk2305-0755,Sa,Su2305-1655", NIGHT),
    ("NONPEAK", NON_PEAK),
    ("Wk1805-0655,Sa,Su", NON_PEAK),
];

#[test]
fn time_strings(rt: HostRuntime) {
    for (text, want) in TOLD.as_slice() {
        expect_text(&rt, told(rt.alloc(), text), want);
    }
}

/// Ranges, a minute, and whether it is in their set, if they are those of a set.
const RANGES: [(&[(u16, u16)], u16, Option<bool>); 5] = [
    (&[(0, 10), (12, 12)], 11, Some(false)),
    (&[(0, 10), (12, 12)], 12, Some(true)),
    (&[(0, 10), (11, 12)], 11, None),
    (&[(5, 10_080)], 5, None),
    (&[], 0, Some(false)),
];

fn is_in(alloc: Global, ranges: &[(u16, u16)], minute: u16) -> Result<Option<bool>, AllocError> {
    match Windows::from_ranges(alloc, ranges)? {
        Some(set) => Ok(Some(set.contains(minute))),
        None => Ok(None),
    }
}

#[test]
fn sets_from_ranges(rt: HostRuntime) {
    for (ranges, minute, want) in RANGES.as_slice() {
        expect_same(&rt, &is_in(rt.alloc(), ranges, *minute), &Ok(*want));
    }
}

// Whether a system may have so many lines, and be left alone for so many seconds after a successful
// call.
fn is_within_limits(rt: &impl Abort, alloc: Global, count: u32, success_wait: u32) -> bool {
    let mut lines = Vec::new(alloc);
    for _ in 0..count {
        let line = line(rt, alloc, b'N', WEEK.as_slice(), None);
        lines.push(line).expect(rt, "memory");
    }
    let lines = Listed::from_vec(lines);
    SystemDef::new(site(rt, alloc, "duke"), lines, 26, success_wait).is_some()
}

/// Counts of lines, seconds, and whether a system may have both.
const LIMITS: [(u32, u32, bool); 4] = [
    (32, 0, true),
    (33, 0, false),
    (0, 31_536_000, true),
    (0, 31_536_001, false),
];

#[test]
fn systems_within_limits(rt: HostRuntime) {
    for (count, success_wait, want) in LIMITS.as_slice() {
        let given = is_within_limits(&rt, rt.alloc(), *count, *success_wait);
        expect_same(&rt, &given, want);
    }
}

fn expect_fronts(rt: &impl Abort, alloc: Global, fronts: &Fronts) {
    for length in 0..=fronts.text.len() {
        let front = fronts.text.get(..length).expect(rt, "a front");
        let want = wanted(fronts, length).expect(rt, "an answer");
        expect_text(rt, told(alloc, front), want);
    }
}

#[test]
fn each_front_of_a_time_string_is_read_as_plainly(rt: HostRuntime) {
    for fronts in TIME_STRINGS.as_slice() {
        expect_fronts(&rt, rt.alloc(), fronts);
    }
}
