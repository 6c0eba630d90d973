//! Giving back the room that the spool's file no longer needs.

use crate::copying::{Purpose, may_shrink};
use crate::logged::log_vacuum;
use crate::replacing::{Replaced, replace};
use crate::serving::{tell_change, turn_at};
use crate::trouble::Trouble;
use std::mem::drop;
use uu_site::{Places, Turn, expect_spool, places_of, remove_new, spool_length};
use uuspool::Settings;

/// Copies the spool into a new file, which takes the place of the old one, if that is much longer
/// than it has to be. Prints `done`.
pub(crate) fn vacuum(rt: &HostRuntime, settings: &Settings) -> Result<u8, Trouble> {
    let places = places_of(rt, settings.spool.as_str())?;
    let turn = turn_at(rt, &places)?;
    let is_shorter = vacuum_in_turn(rt, settings, &places, &turn)?;
    let noted = if is_shorter {
        log_vacuum(rt, settings, &places)
    } else {
        Ok(())
    };
    drop(turn);
    tell_change(rt, noted, "done\n", 0)
}

// Returns whether the spool has a new file. A database that has something else keeps its own.
fn vacuum_in_turn(
    rt: &HostRuntime,
    settings: &Settings,
    places: &Places,
    turn: &Turn,
) -> Result<bool, Trouble> {
    expect_spool(rt, places)?;
    remove_new(rt, places)?;
    let length = spool_length(rt, places)?;
    if !may_shrink(length) {
        return Ok(false);
    }
    let replaced = replace(rt, settings, places, turn, Purpose::Shrink { length })?;
    Ok(matches!(replaced, Replaced::Yes))
}
