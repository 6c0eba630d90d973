// A neighbour's bundle, each job of which is decided from what was known before it. The plain
// machine gets the commands one after the other, and has to reply the same.
use crate::expecting::expect_same;
use crate::values::{all_week, new_job, site};
use std::alloc::Global;
use std::process::Abort;
use uu_core::{Command, HandIn, Key, Mark, NewJob, Offered, Refusal, Reply, Taken, Taking};
use uu_plain::Machine;

/// A job of duke's: the number there, the mark, and the system for which it waits.
type Job = (u32, u64, &'static str);

/// Duke's jobs, and the reply to each if duke won't ask again for a number below 6.
const JOBS: [(Job, Reply); 6] = [
    ((7, 1, "unc"), Reply::Number(2)),
    ((5, 2, "unc"), Reply::Refused(Refusal::Stale)),
    ((7, 3, "unc"), Reply::Refused(Refusal::Differs)),
    ((9, 4, "nobody"), Reply::Refused(Refusal::NoSystem)),
    ((8, 5, "duke"), Reply::Number(3)),
    ((7, 1, "unc"), Reply::Number(2)),
];

/// The job that was handed in before the bundle, under number 1.
const HANDED_IN: Job = (5, 2, "unc");

const BELOW: u32 = 6;

fn mark(rt: &impl Abort, number: u64) -> Mark {
    Mark::of_number(number).expect(rt, "a mark")
}

fn job(rt: &impl Abort, alloc: Global, system: &str) -> NewJob {
    new_job(rt, alloc, system, b'N', 1)
}

// ---- the plain machine

fn hand_in(rt: &impl Abort, alloc: Global, (number, number_of_mark, system): Job) -> Command {
    let key = Key {
        from: site(rt, alloc, "duke"),
        number,
        mark: mark(rt, number_of_mark),
    };
    Command::QueueOnce(key, job(rt, alloc, system))
}

fn forget(rt: &impl Abort, alloc: Global) -> Command {
    Command::Forget {
        system: site(rt, alloc, "duke"),
        below: BELOW,
    }
}

fn step(rt: &impl Abort, alloc: Global, machine: &mut Machine, command: Command) -> Reply {
    machine.step(alloc, command).expect(rt, "memory")
}

/// A machine with two systems and the job that was handed in before.
fn machine(rt: &impl Abort, alloc: Global) -> Machine {
    let mut machine = Machine::new(alloc);
    for name in ["duke", "unc"] {
        let def = all_week(rt, alloc, name, b'z', None, 0);
        let reply = step(rt, alloc, &mut machine, Command::Define(def));
        expect_same(rt, &reply, &Reply::Done);
    }
    let reply = step(rt, alloc, &mut machine, hand_in(rt, alloc, HANDED_IN));
    expect_same(rt, &reply, &Reply::Number(1));
    machine
}

#[test]
fn a_bundle_given_to_the_plain_machine_twice(rt: HostRuntime) {
    let alloc = rt.alloc();
    let mut machine = machine(&rt, alloc);
    for _ in 0..2 {
        let reply = step(&rt, alloc, &mut machine, forget(&rt, alloc));
        expect_same(&rt, &reply, &Reply::Done);
        for (job, want) in JOBS.as_slice() {
            let reply = step(&rt, alloc, &mut machine, hand_in(&rt, alloc, *job));
            expect_same(&rt, &reply, want);
        }
        expect_same(&rt, &machine.next(), &4);
    }
}

// ---- each job decided from what was known before

/// What was taken under a number before the bundle.
fn taken_before(rt: &impl Abort, rows: &[(u32, u64, u32)], number: u32) -> Option<Taken> {
    let row = rows.iter().find(|row| row.0 == number)?;
    Some(Taken {
        number,
        mark: mark(rt, row.1),
        job: row.2,
    })
}

fn reply_of(decision: Result<HandIn, Refusal>) -> Reply {
    match decision {
        Ok(HandIn::First(number) | HandIn::Again(number)) => Reply::Number(number),
        Err(refusal) => Reply::Refused(refusal),
    }
}

/// After these jobs were taken, the jobs of a bundle that is begun are decided as the plain machine
/// replies.
fn expect_decided(rt: &impl Abort, alloc: Global, taking: Taking, rows: &[(u32, u64, u32)]) {
    let mut taking = taking;
    for ((number, number_of_mark, system), want) in JOBS.as_slice() {
        let offered = Offered {
            number: *number,
            mark: mark(rt, *number_of_mark),
            job: job(rt, alloc, system),
        };
        let known = *system != "nobody";
        let taken = taken_before(rt, rows, *number);
        let decision = taking.decide(known, taken, &offered).expect(rt, "memory");
        expect_same(rt, &reply_of(decision), want);
    }
}

/// What was taken before under a number below 6 is forgotten.
#[test]
fn a_bundle_decided_on_what_was_known_before(rt: HostRuntime) {
    let taking = Taking::begin(rt.alloc(), true, 2, 0, BELOW);
    expect_decided(&rt, rt.alloc(), taking, &[(5, 2, 1)]);
}

#[test]
fn a_bundle_decided_again(rt: HostRuntime) {
    let taking = Taking::begin(rt.alloc(), true, 4, BELOW, BELOW);
    expect_decided(&rt, rt.alloc(), taking, &[(7, 1, 2), (8, 5, 3)]);
}
