// Runs with ample memory, of the spool and of the plain machine, which answer every command.

use crate::questions::{Step, asked_picture, told_picture};
use crate::scripts::{EVERY_KIND, LARGE_JOB, TWO_SYSTEMS, commands, pictures, replies};
use crate::worked::fresh;
use sqlite::Alter;
use std::alloc::Global;
use std::process::Abort;
use uu_plain::Machine;
use uu_store::{Reply, RunEnd, Spool};

const SCRIPTS: [&[Step]; 4] = [&[], LARGE_JOB, TWO_SYSTEMS, EVERY_KIND];

fn expect_whole(rt: &impl Abort, end: &RunEnd, wanted: &[Reply]) {
    assert_eq!(rt; end.stopped, None);
    assert_eq!(rt; end.replies.as_slice(), wanted);
}

/// The plain machine answers every command of a script in a run, too, and then shows what it shows
/// after as many steps.
fn expect_machine_run(
    rt: &impl Abort,
    alloc: Global,
    script: &[Step],
    wanted: &[Reply],
    picture: &str,
) {
    let mut machine = Machine::new(alloc);
    let given = machine.run(alloc, commands(rt, alloc, script, wanted.len()));
    assert_eq!(rt; given.expect(rt, "memory").as_slice(), wanted);
    let shown = told_picture(rt, alloc, &machine);
    assert_eq!(rt; shown.as_str(), picture);
}

/// The spool answers every command of a script, and then shows what the machine shows.
fn expect_run<S: Alter>(rt: &impl Abort, alloc: Global, spool: &mut Spool<S>, script: &[Step]) {
    let wanted = replies(rt, alloc, script);
    let pictures = pictures(rt, alloc, script);
    let picture = pictures.last().expect(rt, "a picture").as_str();
    expect_machine_run(rt, alloc, script, &wanted, picture);
    let end = spool.run(alloc, commands(rt, alloc, script, wanted.len()));
    expect_whole(rt, &end, &wanted);
    let shown = asked_picture(rt, alloc, spool);
    assert_eq!(rt; shown.as_str(), picture);
}

#[test]
fn a_run_answers_every_command(rt: HostRuntime) {
    for script in SCRIPTS {
        expect_run(&rt, rt.alloc(), &mut fresh(&rt, rt.alloc()), script);
    }
}
