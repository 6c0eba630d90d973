// Bundles: a worked one with marks from another program, its beginnings, damage, and the time that
// a large one takes.
use crate::expecting::{expect_same, expect_soon, expect_text};
use crate::values::{grade, site, word};
use std::alloc::{AllocError, Global};
use std::fmt::Write;
use std::process::Abort;
use std::time::Instant;
use uu_bundle::{
    Bundle, BundleFault, MAX_BUNDLE, MAX_TOLD, add_job, add_refused, begin_answer, begin_bundle,
    end_bundle, read_bundle,
};
use uu_core::{JobHead, Kind, Mark, Refusal, Taken};
use uu_names::Listed;

// Python's hashlib computed the marks.
const WORKED: &[u8] =
    b"bundle unc duke 12.34 7 A 1601836734645762235\nhas 3 5\nno 4 6 Stale\nno 5 7 NoSystem\njob 12 5111698412794119741 N ann 7 exec rmail bob tom\nhi\nend\n\njob 13 7333262924146052357 z bob 0 send /a /b\n\njob 14 7492224347457604045 0 bob 1 request /c /d\n\xff\nend\n";

fn show_kind(text: &mut String, kind: &Kind) -> Result<(), AllocError> {
    match kind {
        Kind::Send { source, target } => {
            write!(text, "send {} {}", source.as_str(), target.as_str())
        }
        Kind::Request { source, target } => {
            write!(text, "request {} {}", source.as_str(), target.as_str())
        }
        Kind::Execute { command, arguments } => {
            write!(
                text,
                "exec {} {}",
                command.as_str(),
                arguments.as_slice().len()
            )
        }
    }
}

fn show(text: &mut String, bundle: &Bundle) -> Result<(), AllocError> {
    let Bundle {
        from,
        to,
        spool,
        below,
        grade,
        has,
        refused,
        jobs,
        stopped,
    } = bundle;
    write!(
        text,
        "{}>{} {} {} {}",
        from.as_str(),
        to.as_str(),
        spool.as_str(),
        below,
        grade.rank()
    )?;
    for told in has.as_slice() {
        write!(text, "/has {} {}", told.number, told.mark.number())?;
    }
    for one in refused.as_slice() {
        write!(
            text,
            "/no {} {} {}",
            one.number,
            one.mark.number(),
            one.reason.name()
        )?;
    }
    for job in jobs.as_slice() {
        write!(
            text,
            "/{} {} {} {} ",
            job.number,
            job.grade.rank(),
            job.user.as_str(),
            job.bytes.as_slice().len()
        )?;
        show_kind(text, &job.kind)?;
    }
    if let Some(line) = stopped {
        write!(text, "/stopped {}", line)?;
    }
    Ok(())
}

// What a text says, or why it is refused.
fn told(alloc: Global, text: &[u8]) -> Result<String, AllocError> {
    let mut told = String::new(alloc);
    match read_bundle(alloc, text) {
        Ok(bundle) => show(&mut told, &bundle)?,
        Err(BundleFault::NoBundle) => told.push_str("no bundle")?,
        Err(BundleFault::Memory) => told.push_str("memory")?,
    }
    Ok(told)
}

const SAID: &str =
    "unc>duke 12.34 7 10/has 3 5/no 4 6 Stale/no 5 7 NoSystem/12 23 ann 7 exec rmail 2/13 61 bob 0 send /a /b/14 0 bob 1 request /c /d";

#[test]
fn a_worked_bundle(rt: HostRuntime) {
    let alloc = rt.alloc();
    expect_text(&rt, told(alloc, WORKED), SAID);
    expect_text(&rt, told(alloc, b""), "no bundle");
    expect_text(&rt, told(alloc, &WORKED[..45]), "no bundle");
    expect_text(
        &rt,
        told(alloc, &WORKED[..46]),
        "unc>duke 12.34 7 10/stopped 2",
    );
    expect_text(
        &rt,
        told(alloc, &WORKED[..53]),
        "unc>duke 12.34 7 10/stopped 2",
    );
    expect_text(
        &rt,
        told(alloc, &WORKED[..54]),
        "unc>duke 12.34 7 10/has 3 5/stopped 3",
    );
    expect_text(
        &rt,
        told(alloc, &WORKED[..66]),
        "unc>duke 12.34 7 10/has 3 5/stopped 3",
    );
    expect_text(
        &rt,
        told(alloc, &WORKED[..67]),
        "unc>duke 12.34 7 10/has 3 5/no 4 6 Stale/stopped 4",
    );
    expect_text(
        &rt,
        told(alloc, &WORKED[..WORKED.len() - 1]),
        "unc>duke 12.34 7 10/has 3 5/no 4 6 Stale/no 5 7 NoSystem/12 23 ann 7 exec rmail 2/13 61 bob 0 send /a /b/14 0 bob 1 request /c /d/stopped 13",
    );
}

// Records in another order, and names that aren't those of a refusal.
#[test]
fn refusals(rt: HostRuntime) {
    let alloc = rt.alloc();
    let mut text = WORKED[..46].to_vec(alloc).expect(&rt, "memory");
    text.extend_from_slice(
        b"no 1 2 NoSystem\nno 2 2 NoJob\nno 3 2 NotYours\nno 4 2 JobTwice\nno 5 2 OtherSystem\nno 6 2 Busy\nhas 9 9\nno 7 2 TooLarge\nno 8 2 NumbersOut\nno 9 2 BadEntry\nno 10 2 Stale\nno 11 2 Differs\nend\n",
    ).expect(&rt, "memory");
    expect_text(
        &rt,
        told(alloc, &text),
        "unc>duke 12.34 7 10/has 9 9/no 1 2 NoSystem/no 2 2 NoJob/no 3 2 NotYours/no 4 2 JobTwice/no 5 2 OtherSystem/no 6 2 Busy/no 7 2 TooLarge/no 8 2 NumbersOut/no 9 2 BadEntry/no 10 2 Stale/no 11 2 Differs",
    );
    for name in ["stale", "Stal", "Stale ", "Stale2", "", "Memory"] {
        let mut text = WORKED[..46].to_vec(alloc).expect(&rt, "memory");
        text.extend_from_slice(b"no 1 2 ").expect(&rt, "memory");
        text.extend_from_slice(name.as_bytes())
            .expect(&rt, "memory");
        text.extend_from_slice(b"\nend\n").expect(&rt, "memory");
        expect_text(&rt, told(alloc, &text), "unc>duke 12.34 7 10/stopped 2");
    }
}

// One byte is replaced. In the first line there is then no bundle, and later one record less.
#[test]
fn damage(rt: HostRuntime) {
    let alloc = rt.alloc();
    for at in 0..WORKED.len() {
        let mut text = WORKED.to_vec(alloc).expect(&rt, "memory");
        text[at] ^= 1;
        let said = told(alloc, &text).expect(&rt, "memory");
        expect_same(&rt, &(said.as_str() == SAID), &false);
    }
}

fn head(rt: &impl Abort, alloc: Global, number: u32, byte: u8, user: &str, kind: Kind) -> JobHead {
    JobHead {
        number,
        system: site(rt, alloc, "duke"),
        grade: grade(rt, byte),
        user: word(rt, alloc, user),
        kind,
        queued: 0,
        size: 0,
    }
}

// The jobs of the worked bundle.
fn add_worked(rt: &impl Abort, alloc: Global, text: &mut Vec<u8>) {
    let from = site(rt, alloc, "unc");
    let to = site(rt, alloc, "duke");
    let spool = word(rt, alloc, "12.34");
    let mut words = Vec::new(alloc);
    words.push(word(rt, alloc, "bob")).expect(rt, "memory");
    words.push(word(rt, alloc, "tom")).expect(rt, "memory");
    let kind = Kind::Execute {
        command: word(rt, alloc, "rmail"),
        arguments: Listed::from_vec(words),
    };
    let first = head(rt, alloc, 12, b'N', "ann", kind);
    let kind = Kind::Send {
        source: word(rt, alloc, "/a"),
        target: word(rt, alloc, "/b"),
    };
    let second = head(rt, alloc, 13, b'z', "bob", kind);
    let kind = Kind::Request {
        source: word(rt, alloc, "/c"),
        target: word(rt, alloc, "/d"),
    };
    let third = head(rt, alloc, 14, b'0', "bob", kind);
    let added = add_job(
        alloc,
        &from,
        &to,
        &spool,
        &first,
        b"hi\nend\n",
        MAX_BUNDLE,
        text,
    );
    expect_same(rt, &added.expect(rt, "memory"), &true);
    let added = add_job(alloc, &from, &to, &spool, &second, b"", MAX_BUNDLE, text);
    expect_same(rt, &added.expect(rt, "memory"), &true);
    let added = add_job(alloc, &from, &to, &spool, &third, b"\xff", MAX_BUNDLE, text);
    expect_same(rt, &added.expect(rt, "memory"), &true);
    end_bundle(text).expect(rt, "memory");
}

fn mark(rt: &impl Abort, number: u64) -> Mark {
    Mark::of_number(number).expect(rt, "a mark")
}

#[test]
fn written(rt: HostRuntime) {
    let alloc = rt.alloc();
    let from = site(&rt, alloc, "unc");
    let to = site(&rt, alloc, "duke");
    let spool = word(&rt, alloc, "12.34");
    let answer = grade(&rt, b'A');
    let has = [Taken {
        number: 3,
        mark: mark(&rt, 5),
        job: 9,
    }];
    let mut text = begin_answer(alloc, &from, &to, &spool, 7, answer, &has).expect(&rt, "memory");
    add_refused(alloc, &mut text, 4, mark(&rt, 6), Refusal::Stale).expect(&rt, "memory");
    add_refused(alloc, &mut text, 5, mark(&rt, 7), Refusal::NoSystem).expect(&rt, "memory");
    add_worked(&rt, alloc, &mut text);
    expect_same(&rt, &(text.as_slice() == WORKED), &true);
}

// A bundle filled with jobs of so many bytes is read quickly.
fn fill(rt: &impl Abort, alloc: Global, size: usize) -> Vec<u8> {
    let from = site(rt, alloc, "unc");
    let to = site(rt, alloc, "duke");
    let spool = word(rt, alloc, "-");
    let lowest = grade(rt, b'z');
    let mut text = begin_answer(alloc, &from, &to, &spool, 1, lowest, &[]).expect(rt, "memory");
    for number in 0..10_000 {
        add_refused(alloc, &mut text, number, mark(rt, 1), Refusal::Differs).expect(rt, "memory");
    }
    let bytes = vec![in alloc; b'\n'; size].expect(rt, "memory");
    let kind = Kind::Send {
        source: word(rt, alloc, "a"),
        target: word(rt, alloc, "b"),
    };
    let mut job = head(rt, alloc, 1, b'N', "u", kind);
    for number in 1..100_000 {
        job.number = number;
        let added = add_job(
            alloc, &from, &to, &spool, &job, &bytes, MAX_BUNDLE, &mut text,
        );
        if !added.expect(rt, "memory") {
            break;
        }
    }
    end_bundle(&mut text).expect(rt, "memory");
    expect_same(rt, &(text.len() <= MAX_BUNDLE as usize), &true);
    text
}

#[test]
fn large_bundles(rt: HostRuntime) {
    let alloc = rt.alloc();
    for size in [0, 1_000, 1_048_576] {
        let text = fill(&rt, alloc, size);
        let start = Instant::now(&rt).expect(&rt, "a clock");
        let read = read_bundle(alloc, &text);
        expect_soon(&rt, &start);
        expect_same(&rt, &read.is_ok(), &true);
    }
}

// A bundle that doesn't answer another spends half of its size on taken jobs. An answer has all
// that it is given.
#[test]
fn half_of_a_bundle(rt: HostRuntime) {
    let alloc = rt.alloc();
    let from = site(&rt, alloc, "unc");
    let to = site(&rt, alloc, "duke");
    let spool = word(&rt, alloc, "-");
    let lowest = grade(&rt, b'z');
    let mut has = Vec::new(alloc);
    for number in 0..100_000 {
        // 29 bytes a line
        has.push(Taken {
            number: 1_000_000 + number,
            mark: mark(&rt, 1_000_000_000_000_000),
            job: 1,
        })
        .expect(&rt, "memory");
    }
    let begun = begin_bundle(alloc, &from, &to, &spool, 1, lowest, &has, MAX_BUNDLE);
    let text = begun.expect(&rt, "memory");
    expect_same(&rt, &(text.len() <= MAX_TOLD as usize), &true);
    expect_same(&rt, &(text.len() + 29 > MAX_TOLD as usize), &true);
    let bundle = read_bundle(alloc, &text).expect(&rt, "a bundle");
    let told = bundle.has.as_slice().len();
    expect_same(&rt, &(text.len().saturating_sub(29 * told) < 100), &true);
    let text = begin_answer(alloc, &from, &to, &spool, 1, lowest, &has).expect(&rt, "memory");
    let bundle = read_bundle(alloc, &text).expect(&rt, "a bundle");
    expect_same(&rt, &bundle.has.as_slice().len(), &100_000);
}
