//! Giving the next job a later number, as after the spool was put back from an earlier copy.
ghost use Rattle.std.specs.Prelude.{◌≤◌, ◌<◌, IfOk, IfSome};
ghost use Rattle.uu_core.specs.State.{numbers_end};

use crate::copying::Purpose;
use crate::logged::log_renumber;
use crate::replacing::{Replaced, replace};
use crate::serving::{tell_change, turn_at};
use crate::trouble::Trouble;
use std::mem::drop;
use uu_core::limits::NUMBERS_END;
use uu_site::{Places, Turn, expect_spool, places_of};
use uuspool::{Fault, Settings};

/// The next job gets this number, or a later one. The spool becomes a copy of itself with that
/// number, unless it gives no lower one. Prints `done`.
pub(crate) fn renumber(rt: &HostRuntime, settings: &Settings, number: u32) -> Result<u8, Trouble> {
    let places = places_of(rt, settings.spool.as_str())?;
    let turn = turn_at(rt, &places)?;
    let is_later = renumber_in_turn(rt, settings, &places, &turn, number)?;
    let noted = if is_later {
        log_renumber(rt, settings, &places, number)
    } else {
        Ok(())
    };
    drop(turn);
    tell_change(rt, noted, "done\n", 0)
}

// Returns whether the spool gives later numbers than before.
fn renumber_in_turn(
    rt: &HostRuntime,
    settings: &Settings,
    places: &Places,
    turn: &Turn,
    number: u32,
) -> Result<bool, Trouble> {
    expect_spool(rt, places)?;
    match replace(rt, settings, places, turn, Purpose::Renumber { number })? {
        Replaced::Yes => Ok(true),
        Replaced::Needless => Ok(false),
        Replaced::Shared => Err(Trouble::Shared {
            path: String::from_str(rt.alloc(), places.spool.as_str())?,
        }),
    }
}

/// The number of the words after `renumber`. A job may have it.
pub(crate) fn number_of(rt: &HostRuntime, words: &[String]) -> Result<u32, Trouble>
    ensures { IfOk result (λ number. (1 ≤ number) × (number < numbers_end)) }
{
    match words {
        [word] => match job_number(word.as_str()) {
            Some(number) => Ok(number),
            None => Err(no_number(rt)),
        },
        _ => Err(no_number(rt)),
    }
}

// The number that a text of digits has, if a job may have it.
fn job_number(text: &str) -> Option<u32>
    ensures { IfSome result (λ number. (1 ≤ number) × (number < numbers_end)) }
{
    if text.starts_with('+') {
        return None;
    }
    match text.parse::<u32>() {
        Ok(number) if 1 <= number && number < NUMBERS_END => Some(number),
        _ => None,
    }
}

// Why the words after `renumber` give none.
fn no_number(rt: &HostRuntime) -> Trouble {
    let last = NUMBERS_END.saturating_sub(1);
    match format!(in rt.alloc(); "uuspool: renumber takes one number, from 1 to {last}\n") {
        Ok(text) => Trouble::Line(Fault::Words { text, help: false }),
        Err(_) => Trouble::Line(Fault::Memory),
    }
}
