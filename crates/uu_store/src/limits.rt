// What an answer may give out: nothing beyond the limits on which a report relies.
ghost use Rattle.std.specs.Prelude.{◌≡◌};
ghost use Rattle.std.specs.List.{list_all};
ghost use Rattle.uu_store.specs.HandedOut.{is_bounded, is_found_bounded, is_timed, within_limits};

use sqlite::Error;
use std::mem::drop;
use uu_core::limits::MAX_BYTES;
use uu_core::{JobHead, SystemRow};
use uu_times::moment::LAST_SECOND;

// Whether the head is within the limits.
fn is_bounded(head: &JobHead) -> bool
    ensures { result ≡ is_bounded head.now }
{
    head.queued <= LAST_SECOND && head.size <= MAX_BYTES
}

fn are_bounded(heads: &[JobHead]) -> bool
    ensures { result ≡ list_all is_bounded heads.now }
{
    heads.iter().all(|head| is_bounded(head))
}

/// The heads, unless one of them is beyond the limits.
pub(crate) fn bounded_heads(heads: Vec<JobHead>) -> Result<Vec<JobHead>, Error>
    ensures { result ≡ within_limits (list_all is_bounded heads.items) heads }
{
    if are_bounded(&heads) {
        Ok(heads)
    } else {
        Err(Error::QueryReturnedNoRows)
    }
}

/// What was found, unless it is a job beyond the limits.
pub(crate) fn bounded_job(
    found: Option<(JobHead, Vec<u8>)>,
) -> Result<Option<(JobHead, Vec<u8>)>, Error>
    ensures { result ≡ within_limits (is_found_bounded found) found }
{
    match found {
        Some((head, bytes)) => {
            if is_bounded(&head) {
                Ok(Some((head, bytes)))
            } else {
                drop(head);
                Err(Error::QueryReturnedNoRows)
            }
        }
        None => Ok(None),
    }
}

// Whether the last call of each system is within the moments.
fn are_timed(systems: &[SystemRow]) -> bool
    ensures { result ≡ list_all is_timed systems.now }
{
    systems.iter().all(|system| system.call.last <= LAST_SECOND)
}

/// The systems, unless the last call of one of them is after the last moment.
pub(crate) fn timed_systems(systems: Vec<SystemRow>) -> Result<Vec<SystemRow>, Error>
    ensures { result ≡ within_limits (list_all is_timed systems.items) systems }
{
    if are_timed(&systems) {
        Ok(systems)
    } else {
        Err(Error::QueryReturnedNoRows)
    }
}
