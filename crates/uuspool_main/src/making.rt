//! Making the spool of a site, once.

use crate::given::{Given, given_for};
use crate::logged::log_init;
use crate::sealing::plain;
use crate::serving::{ended, run_on_file, tell_change, turn_at};
use crate::stretch::{Answer, Invocation};
use crate::trouble::Trouble;
use std::mem::drop;
use uu_names::Word;
use uu_site::{
    Found, Places, Share, Turn, expect_spool, find_spool, has_word, make_place, make_reserve,
    make_word, places_of,
};
use uuspool::{CommandLine, Fault, Settings, Task};

/// Makes the spool if nothing is there, or the word that a spool lacks. Prints `done`, or
/// `refused SpoolThere` if both are there.
pub(crate) fn make_spool(rt: &HostRuntime, settings: &Settings) -> Result<u8, Trouble> {
    let places = places_of(rt, settings.spool.as_str())?;
    let turn = turn_at(rt, &places)?;
    let is_made = make_in_turn(rt, settings, &places, &turn)?;
    let noted = if is_made {
        log_init(rt, settings, &places)
    } else {
        Ok(())
    };
    if is_made {
        make_reserve(rt, &places, Share::Quarter);
    }
    drop(turn);
    if is_made {
        tell_change(rt, noted, "done\n", 0)
    } else {
        tell_change(rt, noted, "refused SpoolThere\n", 1)
    }
}

// Makes what is missing. Returns false if nothing is.
fn make_in_turn(
    rt: &HostRuntime,
    settings: &Settings,
    places: &Places,
    turn: &Turn,
) -> Result<bool, Trouble> {
    match find_spool(rt, places)? {
        Found::Spool if has_word(rt, places) => Ok(false),
        Found::Spool => {
            expect_spool(rt, places)?;
            ask_status(rt, settings, places, turn)?;
            make_word(rt, places)?;
            Ok(true)
        }
        Found::Nothing => {
            make_word(rt, places)?;
            make_place(rt, places)?;
            ask_status(rt, settings, places, turn)?;
            Ok(true)
        }
    }
}

// Asks a question, for which an opening makes the files that are missing and checks those that are
// there.
fn ask_status(
    rt: &HostRuntime,
    settings: &Settings,
    places: &Places,
    turn: &Turn,
) -> Result<(), Trouble> {
    let line = status_line(rt)?;
    let given = given_for(rt, settings, &plain(), &line)?;
    let Given { at, input } = given;
    let answer = run_on_file(
        rt,
        settings,
        places,
        turn,
        Invocation::Line { line, at, input },
    )?;
    let Answer { end, .. } = answer;
    ended(rt, places, None, end)?;
    Ok(())
}

fn status_line(rt: &HostRuntime) -> Result<CommandLine, Fault> {
    let user = match Word::parse(rt.alloc(), "uucp") {
        Ok(user) => user,
        Err(fault) => return Err(Fault::Name(fault)),
    };
    Ok(CommandLine {
        config: None,
        at: None,
        user,
        task: Task::Status,
    })
}
