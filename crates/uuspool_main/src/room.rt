//! The limit of the spool's file: whom it concerns, and whether it was reached.

use crate::log_length;
use crate::stretch::{Answer, Invocation};
use crate::trouble::Trouble;
use std::fs;
use uu_site::Places;
use uu_store::{Room, StoreFault, StoreKind};
use uuspool::{CommandLine, Fault, Settings, Task};

/// The pages of a change have at most so many times the bytes of its input, as with many small jobs
/// of a bundle, and so many more.
const TIMES: u64 = 4;

const BESIDE: u64 = 65_536;

/// The room of an invocation. What only reads or takes away isn't limited, so that nobody is locked
/// out of a full spool.
pub(crate) fn room_for(settings: &Settings, invocation: &Invocation) -> Room {
    Room {
        limit: settings.limit,
        counts: match invocation {
            Invocation::Line { line, .. } => brings_in(&line.task),
            Invocation::Requests => true,
        },
    }
}

// Whether a task brings bytes into the spool.
fn brings_in(task: &Task) -> bool {
    matches!(
        task,
        Task::Load
            | Task::Send { .. }
            | Task::Request { .. }
            | Task::Execute { .. }
            | Task::Mail { .. }
            | Task::Unpack { .. }
            | Task::Map
    )
}

/// What comes into a spool with this limit: an input of so many bytes.
#[derive(Clone, Copy)]
pub(crate) struct Incoming {
    limit: u64,
    bytes: u64,
}

impl Incoming {
    /// What a line brings in with this input, if it brings anything.
    pub(crate) fn of_line(
        settings: &Settings,
        line: &CommandLine,
        input: &[u8],
    ) -> Option<Incoming> {
        if !brings_in(&line.task) {
            return None;
        }
        Some(Incoming {
            limit: settings.limit as u64,
            bytes: input.len() as u64,
        })
    }
}

/// The limit, if the disk failed what was brought in and the spool's files are so long that the limit
/// may be why. On a disk without room the limit may be named though it wasn't reached, if the files are
/// nearly as long as that.
pub(crate) fn limit_reached(
    rt: &HostRuntime,
    places: &Places,
    incoming: Option<Incoming>,
    fault: StoreFault,
) -> Option<u64> {
    let Incoming { limit, bytes } = incoming?;
    if !matches!(fault, StoreFault::Store(StoreKind::Disk)) {
        return None;
    }
    let Ok(file) = fs::metadata(rt, places.spool.as_str()) else {
        return None;
    };
    let log = log_length(rt, places.spool.as_str()).unwrap_or(0);
    let written = bytes.saturating_mul(TIMES).saturating_add(BESIDE);
    let length = file.len().saturating_add(log).saturating_add(written);
    if length > limit { Some(limit) } else { None }
}
