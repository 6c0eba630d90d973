// Lists of commands with their replies for spools that are stopped, and what the plain machine
// shows after each command.
use crate::order::{ANY, ANY_30, MONDAY, NIGHT, OFFICE, Order, Work, command};
use crate::questions::Question::{Due, Entry, Jobs, Next, Systems};
use crate::questions::Step::{Does, Says};
use crate::questions::{Step, reply, told_picture};
use std::alloc::Global;
use std::process::Abort;
use uu_plain::Machine;
use uu_store::Reply::{Done, Number, Refused};
use uu_store::{Command, Refusal, Reply};

/// Commands of every kind.
pub(crate) const EVERY_KIND: &[Step] = &[
    Does(Order::Define("duke", ANY_30, 2), Done),
    Does(Order::Define("unc", OFFICE, 26), Done),
    Does(Order::Queue("duke", b'N', Work::Send, 40_000), Number(1)),
    Does(Order::Queue("unc", b'A', Work::Request, 0), Number(2)),
    Does(
        Order::Queue("duke", b'z', Work::Execute(2), 16_385),
        Number(3),
    ),
    Does(Order::Failed("duke", MONDAY), Done),
    // A known system gets other lines, and a success wait.
    Does(Order::Rests("duke", NIGHT, 600), Done),
    Does(Order::Regrade(1, b'A'), Done),
    Does(Order::Rejuvenate(1), Done),
    Does(Order::Entry("#N unc\nunc duke(5)\n"), Done),
    Does(Order::Entry("#N unc\nunc phs(7/2)\n"), Done),
    Does(Order::Queue("duke", b'N', Work::Execute(1), 0), Number(4)),
    Does(Order::Kill(2, "root", true), Done),
    Does(Order::Called("duke", &[3, 1]), Done),
    // Duke has one of these jobs, which is removed; unc has none.
    Does(Order::Queue("duke", b'N', Work::Send, 20_000), Number(5)),
    Does(Order::Release("unc", &[4, 5]), Done),
    Does(Order::Release("duke", &[9, 5, 3, 5]), Done),
    Does(Order::Remove("unc"), Done),
    Does(Order::Remove("duke"), Refused(Refusal::Busy)),
    Does(Order::Define("duke", ANY, 26), Done),
];

/// A system, a large job and another grade for it.
pub(crate) const LARGE_JOB: &[Step] = &[
    Does(Order::Define("duke", ANY, 26), Done),
    Does(Order::Queue("duke", b'N', Work::Request, 40_000), Number(1)),
    Does(Order::Regrade(1, b'A'), Done),
];

/// Two systems, two jobs until they are done, and which systems are called in between.
pub(crate) const TWO_SYSTEMS: &[Step] = &[
    Does(Order::Define("duke", ANY_30, 2), Done),
    Does(Order::Define("unc", ANY, 26), Done),
    Does(Order::Queue("duke", b'N', Work::Send, 40_000), Number(1)),
    Does(Order::Queue("unc", b'A', Work::Send, 0), Number(2)),
    Says(Due(MONDAY), "unc A 2/duke N 1/"),
    Does(Order::Kill(9, "root", true), Refused(Refusal::NoJob)),
    Does(Order::Rejuvenate(1), Done),
    Does(Order::Regrade(1, b'9'), Done),
    Says(Due(MONDAY), "duke 9 1/unc A 2/"),
    Does(Order::Failed("unc", MONDAY), Done),
    Says(Due(MONDAY), "duke 9 1/"),
    Does(Order::Called("duke", &[1]), Done),
    Says(Due(MONDAY), ""),
    Does(Order::Entry("#N unc\nunc duke\n"), Done),
    Does(Order::Kill(2, "root", true), Done),
    Does(Order::Remove("unc"), Done),
    Says(Systems, "duke 2 [z 30 0-10079] 0 0 1000116000 done/"),
    Says(Jobs("", ""), ""),
    Says(Next, "3"),
    Says(Entry("unc"), "#N unc\nunc duke\n"),
];

/// Jobs that a neighbour hands on, and the numbers that it won't ask for again. Each command gets
/// the same answer when it is given again.
pub(crate) const HANDED_ON: &[Step] = &[
    Does(Order::Define("duke", ANY, 26), Done),
    Does(Order::Define("unc", ANY, 26), Done),
    Does(Order::HandOn("duke", 7, 1, "unc"), Number(1)),
    Does(Order::HandOn("duke", 7, 1, "unc"), Number(1)),
    Does(
        Order::HandOn("duke", 7, 2, "unc"),
        Refused(Refusal::Differs),
    ),
    Does(Order::HandOn("duke", 9, 1, "unc"), Number(2)),
    Does(Order::Forget("duke", 8), Done),
    Does(Order::HandOn("duke", 7, 1, "unc"), Refused(Refusal::Stale)),
    Does(Order::HandOn("duke", 9, 1, "unc"), Number(2)),
];

/// The first commands of a script, at most so many.
pub(crate) fn commands(
    rt: &impl Abort,
    alloc: Global,
    script: &[Step],
    most: usize,
) -> Vec<Command> {
    let mut commands = Vec::new(alloc);
    for step in script {
        if let Does(order, _) = *step {
            if commands.len() < most {
                let command = command(rt, alloc, order);
                commands.push(command).expect(rt, "memory");
            }
        }
    }
    commands
}

/// The replies that a script expects.
pub(crate) fn replies(rt: &impl Abort, alloc: Global, script: &[Step]) -> Vec<Reply> {
    let mut replies = Vec::new(alloc);
    for step in script {
        if let Does(_, reply) = *step {
            replies.push(reply).expect(rt, "memory");
        }
    }
    replies
}

/// What the machine shows before the first command of a script, and after each.
pub(crate) fn pictures(rt: &impl Abort, alloc: Global, script: &[Step]) -> Vec<String> {
    let mut machine = Machine::new(alloc);
    let mut pictures = Vec::new(alloc);
    let first = told_picture(rt, alloc, &machine);
    pictures.push(first).expect(rt, "memory");
    for step in script {
        if let Does(order, want) = *step {
            assert_eq!(rt; reply(rt, alloc, &mut machine, order), want);
            let picture = told_picture(rt, alloc, &machine);
            pictures.push(picture).expect(rt, "memory");
        }
    }
    pictures
}

/// The machine after the first commands of a script, so many.
pub(crate) fn machine_after(
    rt: &impl Abort,
    alloc: Global,
    script: &[Step],
    count: usize,
) -> Machine {
    let mut machine = Machine::new(alloc);
    for command in commands(rt, alloc, script, count) {
        machine.step(alloc, command).expect(rt, "memory");
    }
    machine
}

/// Whether this is the picture at the place.
pub(crate) fn is_picture(pictures: &[String], place: usize, shown: &str) -> bool {
    match pictures.get(place) {
        Some(picture) => picture.as_str() == shown,
        None => false,
    }
}
