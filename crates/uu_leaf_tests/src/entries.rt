// Entries and maps: worked ones, hostile ones, each beginning of one entry compared with a plain
// reader, and the time that large ones take.
use crate::expecting::{expect_same, expect_soon, expect_text, show_skipped, wanted};
use crate::fronts::{ENTRIES, Fronts};
use std::alloc::{AllocError, Global};
use std::fmt::Write;
use std::process::Abort;
use std::time::Instant;
use uu_map::{Cost, Entry, EntryText, Link, MapFault, read_entry, split};

const ENTRY: &str =
    "#N unc\n#S VAX 11/780\nunc duke(HOURLY+HIGH), phs(DAILY*4),\n mcnc, old(DEAD)\nunc x(2/0)\nunc = unc-ch\n";

fn show_link(text: &mut String, link: &Link) -> Result<(), AllocError> {
    let name = link.to.as_str();
    match link.cost {
        Cost::Value(cost) => write!(text, "{} {}/", name, cost),
        Cost::Dead => write!(text, "{} dead/", name),
    }
}

// An entry: its host, and then as a report shows it, with a slash instead of each line feed.
fn show(text: &mut String, entry: &Entry) -> Result<(), AllocError> {
    write!(text, "{}: ", entry.host.as_str())?;
    for link in entry.links.as_slice() {
        show_link(text, link)?;
    }
    for alias in entry.aliases.as_slice() {
        write!(text, "= {}/", alias.as_str())?;
    }
    show_skipped(text, entry.skipped.as_slice())
}

fn fault_name(fault: MapFault) -> &'static str {
    match fault {
        MapFault::NoName => "no name",
        MapFault::BadHost => "bad host",
        MapFault::TooLarge => "too large",
        MapFault::Memory => "memory",
    }
}

// What a text says, or why it is refused.
fn told(alloc: Global, text: &str) -> Result<String, AllocError> {
    let mut told = String::new(alloc);
    match read_entry(alloc, text.as_bytes()) {
        Ok(entry) => show(&mut told, &entry)?,
        Err(fault) => told.push_str(fault_name(fault))?,
    }
    Ok(told)
}

const LONGEST: &str = "#N a234567890b234567890c234567890d234567890e234567890f234567890g23";

const NAMED: [(&str, &str); 15] = [
    (
        ENTRY,
        "unc: duke 495/mcnc 4000/phs 20000/old dead/= unc-ch/skipped 5/",
    ),
    ("#N unc\nunc phs(7/2)\n", "unc: phs 3/"),
    ("unc duke\n", "no name"),
    ("#Nunc\n", "no name"),
    ("#N \t,unc\n", "no name"),
    ("#N a*b\n", "bad host"),
    ("", "no name"),
    ("#N unc", "unc: "),
    ("#N \t unc x\nunc a(1)", "unc: a 1/"),
    ("#N\tunc,duke\r\nunc a(1)", "unc: a 1/"),
    ("#Nduke\n#N unc\n#N duke\nunc a(1)", "unc: a 1/"),
    ("unc a(1)\n#N unc\nunc a(2)", "unc: a 1/"),
    (
        LONGEST,
        "a234567890b234567890c234567890d234567890e234567890f234567890g23: ",
    ),
    (
        "#N a234567890b234567890c234567890d234567890e234567890f234567890g234",
        "bad host",
    ),
    ("#N unc\r", "bad host"),
];

#[test]
fn name_lines_name_the_host(rt: HostRuntime) {
    for (text, want) in NAMED.as_slice() {
        expect_text(&rt, told(rt.alloc(), text), want);
    }
}

// Why a text of so many bytes with this beginning isn't an entry.
fn fault_of_filled(rt: &impl Abort, alloc: Global, front: &str, length: usize) -> Option<MapFault> {
    let mut text = Vec::from_slice(alloc, front.as_bytes()).expect(rt, "memory");
    text.resize(length, b'x').expect(rt, "memory");
    read_entry(alloc, &text).err()
}

const LARGEST: usize = 65_536;

/// With so many bytes a text has its own fault. With one more it is too large.
const FILLED: [(&str, usize, MapFault); 6] = [
    ("", LARGEST, MapFault::NoName),
    ("", LARGEST + 1, MapFault::TooLarge),
    ("#N\n", LARGEST, MapFault::NoName),
    ("#N\n", LARGEST + 1, MapFault::TooLarge),
    ("#N a*b\n", LARGEST, MapFault::BadHost),
    ("#N a*b\n", LARGEST + 1, MapFault::TooLarge),
];

#[test]
fn texts_over_the_limit_are_too_large(rt: HostRuntime) {
    for (front, length, want) in FILLED.as_slice() {
        let fault = fault_of_filled(&rt, rt.alloc(), front, *length);
        expect_same(&rt, &fault, &Some(*want));
    }
}

const CODES: [(MapFault, u8); 4] = [
    (MapFault::NoName, 1),
    (MapFault::BadHost, 2),
    (MapFault::TooLarge, 3),
    (MapFault::Memory, 4),
];

#[test]
fn faults_have_numbers(rt: HostRuntime) {
    for (fault, code) in CODES.as_slice() {
        expect_same(&rt, &fault.code(), code);
    }
}

// What these statements of host unc say, from line 2 on, has to be this.
fn expect_said(rt: &impl Abort, alloc: Global, statements: &str, want: &str) {
    let text = format!(in alloc; "#N unc\n{statements}").expect(rt, "memory");
    let want = format!(in alloc; "unc: {want}").expect(rt, "memory");
    expect_text(rt, told(alloc, &text), &want);
}

fn expect_all(rt: &impl Abort, alloc: Global, rows: &[(&str, &str)]) {
    for (statements, want) in rows {
        expect_said(rt, alloc, statements, want);
    }
}

const STATEMENTS: [(&str, &str); 28] = [
    ("unc", ""),
    ("unc ,, \t,", ""),
    ("unc =", ""),
    ("unc !a(1), b!(2), @c%(3), d:", "a 1/b 2/c 3/d 4000/"),
    ("unc %a@ (1) , :b", "a 1/b 4000/"),
    ("unc !!a", "skipped 2/"),
    ("unc a!!", "skipped 2/"),
    ("unc a !(1)", "skipped 2/"),
    ("unc ! a", "skipped 2/"),
    ("unc b(7), a(7), c(6)", "c 6/a 7/b 7/"),
    ("unc b, B, a.b, a", "B 4000/a 4000/a.b 4000/b 4000/"),
    (
        "unc a,\n b(2), # a comment, c\n# another\n\n\tc(3)\nunc d",
        "b 2/c 3/a 4000/d 4000/",
    ),
    ("unc a(1 # of)\n +\n2)\n\t+ 2)", "skipped 2/skipped 4/"),
    ("unc a(1 # of)\n # and 2)\n\t+ 2)", "a 3/"),
    ("unc\n a(1)\nunc\n = x", "a 1/= x/"),
    ("unc {a, b}(5)", "skipped 2/"),
    ("unc a, b}", "skipped 2/"),
    ("unc = {x}\nunc } # {", "skipped 3/"),
    ("duke a\nunc b(1)", "b 1/skipped 2/"),
    ("uncle a", "skipped 2/"),
    ("Unc a", "skipped 2/"),
    (" a\n b\nunc c(1)", "c 1/skipped 2/"),
    ("unc a(5), b(2/0)\nunc c(1)\n d(", "skipped 2/skipped 3/"),
    ("unc=x, y , x\nunc unc(1)", "unc 1/= x/= y/= x/"),
    (
        "unc =z,y\nunc a(1)\nunc \t= unc,,z",
        "a 1/= z/= y/= unc/= z/",
    ),
    (
        "unc = x(5)\nunc = !y\nunc = x y",
        "skipped 2/skipped 3/skipped 4/",
    ),
    ("unc a,\r\n b\r\n", "a 4000/b 4000/"),
    ("unc a\r", "skipped 2/"),
];

#[test]
fn statements_are_kept_or_skipped(rt: HostRuntime) {
    expect_all(&rt, rt.alloc(), STATEMENTS.as_slice());
}

const COSTS: [(&str, &str); 20] = [
    ("unc a((0-7)/2+4)", "a 1/"),
    ("unc a(7/(0-2)+4)", "a 1/"),
    ("unc a(1-2)", "a 0/"),
    ("unc a( 10 -\t2 * 3 )", "a 4/"),
    ("unc a(10-2-3)", "a 5/"),
    ("unc a(100/10/5), b(100/10*5)", "a 2/b 50/"),
    ("unc a((2+3)*4), b(-2*-3), c(2--3)", "c 5/b 6/a 20/"),
    ("unc a(007)", "a 7/"),
    ("unc a(5), a(3), a(9)", "a 3/"),
    ("unc a(DEAD), a(5)", "a 5/"),
    ("unc a(5), a(DEAD), a(4)", "a 4/"),
    (
        "unc a(DEAD), b, c(1000000000000)",
        "b 4000/c 1000000000000/a dead/",
    ),
    ("unc a(1 2)", "skipped 2/"),
    ("unc a()", "skipped 2/"),
    ("unc a(1+)", "skipped 2/"),
    ("unc a(*1)", "skipped 2/"),
    ("unc a((1)", "skipped 2/"),
    ("unc a(1))", "skipped 2/"),
    ("unc a(1)b", "skipped 2/"),
    ("unc a(slow)", "skipped 2/"),
];

#[test]
fn costs_are_the_values_of_their_expressions(rt: HostRuntime) {
    expect_all(&rt, rt.alloc(), COSTS.as_slice());
}

const VALUES: [(&str, &str); 13] = [
    ("unc a(1000000*1000000)", "a 1000000000000/"),
    ("unc a(1000000*1000000+1)", "skipped 2/"),
    ("unc a(1000000*1000000+1-1)", "skipped 2/"),
    ("unc a(1000000000000)", "a 1000000000000/"),
    ("unc a(1000000000001)", "skipped 2/"),
    ("unc a(1000000000001-1)", "skipped 2/"),
    ("unc a(0-1000000000000+1000000000000+7)", "a 7/"),
    ("unc a(0-1000000000000-1+1000000000000+8)", "skipped 2/"),
    ("unc a(0-1000000*1000001)", "skipped 2/"),
    ("unc a(0*(1000000*1000001))", "skipped 2/"),
    (
        "unc a(9999999999999999999999999999999999999999)",
        "skipped 2/",
    ),
    (
        "unc a(2/0)\nunc a(2/(3-3))\nunc a(0/0)",
        "skipped 2/skipped 3/skipped 4/",
    ),
    ("unc a(0/2)", "a 0/"),
];

#[test]
fn values_on_the_way_have_a_limit(rt: HostRuntime) {
    expect_all(&rt, rt.alloc(), VALUES.as_slice());
}

const DEAD_COSTS: [(&str, &str); 11] = [
    ("unc a(DEAD/0)", "a dead/"),
    ("unc a(5-(1/0)*DEAD)", "a dead/"),
    (
        "unc a(DEAD+9999999999999999999999999999999999999999)",
        "a dead/",
    ),
    ("unc a(DEAD*(1000000*1000000*10))", "a dead/"),
    ("unc a(-(DEAD))", "a dead/"),
    ("unc a(DEAD+SLOW)", "skipped 2/"),
    ("unc a(DEAD+dead)", "skipped 2/"),
    ("unc a(DEADLY)", "skipped 2/"),
    ("unc a(DEAD DEAD)", "skipped 2/"),
    ("unc a(DEAD", "skipped 2/"),
    ("unc a(DEAD+)", "skipped 2/"),
];

#[test]
fn dead_is_a_cost_within_the_grammar(rt: HostRuntime) {
    expect_all(&rt, rt.alloc(), DEAD_COSTS.as_slice());
}

// With one more letter it isn't a symbol.
const SYMBOLS: [(&str, &str); 12] = [
    ("unc a(100+LOCAL)\nunc b(100+LOCALX)", "a 125/skipped 3/"),
    (
        "unc a(100+DEDICATED)\nunc b(100+DEDICATEDX)",
        "a 195/skipped 3/",
    ),
    ("unc a(100+DIRECT)\nunc b(100+DIRECTX)", "a 300/skipped 3/"),
    ("unc a(100+DEMAND)\nunc b(100+DEMANDX)", "a 400/skipped 3/"),
    ("unc a(100+HOURLY)\nunc b(100+HOURLYX)", "a 600/skipped 3/"),
    (
        "unc a(100+EVENING)\nunc b(100+EVENINGX)",
        "a 1900/skipped 3/",
    ),
    ("unc a(100+DAILY)\nunc b(100+DAILYX)", "a 5100/skipped 3/"),
    (
        "unc a(100+WEEKLY)\nunc b(100+WEEKLYX)",
        "a 30100/skipped 3/",
    ),
    ("unc a(100+HIGH)\nunc b(100+HIGHX)", "a 95/skipped 3/"),
    ("unc a(100+LOW)\nunc b(100+LOWX)", "a 105/skipped 3/"),
    ("unc a(100+FAST)\nunc b(100+FASTX)", "a 20/skipped 3/"),
    ("unc a(100+POLLED)\nunc b(100+POLLEDX)", "a 5100/skipped 3/"),
];

#[test]
fn symbols_have_their_values(rt: HostRuntime) {
    expect_all(&rt, rt.alloc(), SYMBOLS.as_slice());
}

/// A statement, the texts that replace each `[` and each `]` in it, repeated so many times, and
/// what that is read as.
type Nest = (
    &'static str,
    &'static str,
    &'static str,
    usize,
    &'static str,
);

const NESTS: [Nest; 20] = [
    ("unc a([25)", "-", "", 32, "a 25/"),
    ("unc a([25)", "-", "", 33, "skipped 2/"),
    ("unc a([25)", "+", "", 32, "a 25/"),
    ("unc a([25)", "+", "", 33, "skipped 2/"),
    ("unc a([25])", "(", ")", 32, "a 25/"),
    ("unc a([25])", "(", ")", 33, "skipped 2/"),
    ("unc a([25])", "-(", ")", 16, "a 25/"),
    ("unc a([-25])", "-(", ")", 16, "skipped 2/"),
    ("unc a([(25)])", "-(", ")", 16, "skipped 2/"),
    ("unc a([+25])", "(", ")", 31, "a 25/"),
    ("unc a([1+25])", "(", ")", 32, "a 26/"),
    ("unc a([1+-25])", "(", ")", 32, "skipped 2/"),
    ("unc a([(DEAD))", "-", "", 31, "a dead/"),
    ("unc a([(DEAD))", "-", "", 32, "skipped 2/"),
    // The depth is given back.
    ("unc a([25]+[25])", "(", ")", 32, "a 50/"),
    ("unc a([25]*[25])", "(", ")", 32, "a 625/"),
    ("unc a([25+[25)", "-", "", 32, "a 50/"),
    ("unc a([25*[25)", "-", "", 32, "a 625/"),
    ("unc a([25]+[25])", "-(", ")", 16, "a 50/"),
    ("unc a([25]*[25])", "-(", ")", 16, "a 625/"),
];

fn nested(alloc: Global, nest: &Nest) -> Result<String, AllocError> {
    let (statement, open, close, depth, _) = *nest;
    let opened = statement.replace(alloc, "[", &open.repeat(alloc, depth)?)?;
    opened.replace(alloc, "]", &close.repeat(alloc, depth)?)
}

#[test]
fn signs_and_parentheses_nest_to_a_depth(rt: HostRuntime) {
    for nest in NESTS.as_slice() {
        let statement = nested(rt.alloc(), nest).expect(&rt, "memory");
        expect_said(&rt, rt.alloc(), &statement, nest.4);
    }
}

const NAME_LINES: [EntryText; 4] = [
    EntryText {
        line: 3,
        start: 12,
        end: 22,
    },
    EntryText {
        line: 5,
        start: 22,
        end: 26,
    },
    EntryText {
        line: 6,
        start: 26,
        end: 37,
    },
    EntryText {
        line: 8,
        start: 37,
        end: 39,
    },
];

const MAPS: [(&str, &[EntryText]); 2] = [
    (
        "above\n#Name\n#N a\nx #N\n#N\r\n#N\tb\n #N c\n#N",
        &NAME_LINES,
    ),
    ("nothing\n#N\r", &[]),
];

// The entries of a map that isn't too large.
fn cut(rt: &impl Abort, alloc: Global, text: &str) -> Vec<EntryText> {
    assert!(rt; text.len() <= 4_194_304);
    split(alloc, text.as_bytes()).expect(rt, "a map")
}

#[test]
fn a_map_is_cut_at_name_lines(rt: HostRuntime) {
    for (text, want) in MAPS.as_slice() {
        expect_same(&rt, &cut(&rt, rt.alloc(), text).as_slice(), want);
    }
}

fn letter(number: u32) -> char {
    char::from(b'a' + (number % 26) as u8)
}

// The link of this number, below 17,576: three letters, in another order than the numbers, and
// perhaps a cost.
fn push_link(text: &mut String, number: u32) -> Result<(), AllocError> {
    let name = number.wrapping_mul(7_919) % 17_576;
    let (first, second, third) = (letter(name), letter(name / 26), letter(name / 676));
    if number < 8_508 {
        write!(text, "{}{}{}({}),", first, second, third, number % 10)
    } else {
        write!(text, "{}{}{},", first, second, third)
    }
}

// An entry of 65,536 bytes with one statement of 10,000 links, 8,508 of them with a cost of one
// digit.
fn large_entry(alloc: Global) -> Result<String, AllocError> {
    let mut text = String::from_str(alloc, "#N unc\nunc ")?;
    for number in 0..10_000u32 {
        push_link(&mut text, number)?;
    }
    text.push_str("\n")?;
    Ok(text)
}

// How many links an entry has, and how many lines of it are skipped.
fn links_and_skipped(rt: &impl Abort, alloc: Global, text: &str) -> (usize, usize) {
    let entry = read_entry(alloc, text.as_bytes()).expect(rt, "an entry");
    let links = entry.links.as_slice().len();
    (links, entry.skipped.as_slice().len())
}

#[test]
fn the_largest_entry_is_read_in_time(rt: HostRuntime) {
    let text = large_entry(rt.alloc()).expect(&rt, "memory");
    expect_same(&rt, &text.len(), &65_536);
    let start = Instant::now(&rt).expect(&rt, "a clock");
    let counts = links_and_skipped(&rt, rt.alloc(), &text);
    expect_soon(&rt, &start);
    expect_same(&rt, &counts, &(10_000, 0));
}

#[test]
fn the_largest_map_is_cut_in_time(rt: HostRuntime) {
    let map = "#N \n".repeat(rt.alloc(), 1_048_576).expect(&rt, "memory");
    expect_same(&rt, &map.len(), &4_194_304);
    let start = Instant::now(&rt).expect(&rt, "a clock");
    let count = cut(&rt, rt.alloc(), &map).len();
    expect_soon(&rt, &start);
    expect_same(&rt, &count, &1_048_576);
}

fn expect_fronts(rt: &impl Abort, alloc: Global, fronts: &Fronts) {
    for length in 0..=fronts.text.len() {
        let front = fronts.text.get(..length).expect(rt, "a front");
        let want = wanted(fronts, length).expect(rt, "an answer");
        expect_text(rt, told(alloc, front), want);
    }
}

#[test]
fn each_front_of_an_entry_is_read_as_plainly(rt: HostRuntime) {
    for fronts in ENTRIES.as_slice() {
        expect_fronts(&rt, rt.alloc(), fronts);
    }
}
