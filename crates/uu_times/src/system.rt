//! What a sys file says: systems, and when each may be called.
ghost use Rattle.std.specs.Prelude.{◌≡◌, ◌↔◌, IsTrue, IsSome, IfSome};
ghost use Rattle.uu_times.specs.System.{AreWithinLimits, HasRetry};

use crate::Windows;
use std::alloc::AllocError;
use std::marker::Model;
use uu_names::{Grade, Listed, SiteName};

/// The most time lines of a system.
pub const LINE_LIMIT: usize = 32;

/// The most minutes to wait before a call is tried again: a year.
pub const RETRY_LIMIT: u32 = 525_600;

/// The most failures in a row that a system may be given.
pub const MAX_RETRIES_LIMIT: u32 = 1_000_000;

/// The failures in a row after which calls become rare, if a sys file doesn't say.
pub const DEFAULT_MAX_RETRIES: u32 = 26;

/// The most seconds that a system may be left alone after a successful call: 365 days.
pub const SUCCESS_WAIT_LIMIT: u32 = 31_536_000;

/// The seconds that a system is left alone after a successful call, if a sys file doesn't say.
pub const DEFAULT_SUCCESS_WAIT: u32 = 0;

/// When jobs of a grade and of higher grades may be sent.
#[derive(Debug, Drop)]
pub struct Line {
    /// The lowest grade for which a call is made.
    pub grade: Grade,
    /// The minutes of the week at which it may be made.
    pub windows: Windows,
    /// The minutes to wait after a failure, 1 to 525,600.
    pub retry: Option<u32>,
}

impl Clone for Line {
    ghost use Rattle.std.specs.Prelude.{◌≡◌};

    ghost is_clone = { λ line copy. copy ≡ line };

    /// The same line, which shares the runs.
    fn clone(&self) -> Result<Line, AllocError> {
        Ok(Line {
            grade: self.grade,
            windows: self.windows.clone()?,
            retry: self.retry,
        })
    }
}

/// A system that may be called, seen as its four parts, which are within their limits.
#[derive(Debug, Drop)]
pub struct SystemDef {
    /// The system's name.
    pub name: SiteName,
    /// When it may be called, at most 32 lines. Without a line it is never called.
    pub lines: Listed<Line>,
    /// After how many failures in a row calls become rare, at most 1,000,000.
    pub max_retries: u32,
    /// How many seconds it is left alone after a successful call, at most 31,536,000.
    pub success_wait: u32,
}

impl Model for SystemDef {
    ghost use Rattle.uu_times.specs.System.{System, AreWithinLimits};

    ghost Value = { System };

    ghost view = { λ d. record { name = d.name; lines = d.lines; max_retries = d.max_retries; success_wait = d.success_wait } };

    ghost invariant = { λ d. AreWithinLimits d.lines d.max_retries d.success_wait };
}

impl SystemDef {
    /// A system of these parts. `None` if there are more than 32 lines, a retry number isn't 1 to
    /// 525,600, `max_retries` is over 1,000,000, or `success_wait` is over 31,536,000.
    pub fn new(
        name: SiteName,
        lines: Listed<Line>,
        max_retries: u32,
        success_wait: u32,
    ) -> Option<SystemDef>
        ensures within { IsSome result ↔ AreWithinLimits lines max_retries success_wait }
        ensures name { IfSome result (λ system. system.name ≡ name) }
        ensures lines { IfSome result (λ system. system.lines ≡ lines) }
        ensures max_retries { IfSome result (λ system. system.max_retries ≡ max_retries) }
        ensures success_wait { IfSome result (λ system. system.success_wait ≡ success_wait) }
    {
        if are_within_limits(lines.as_slice(), max_retries, success_wait) {
            Some(SystemDef {
                name,
                lines,
                max_retries,
                success_wait,
            })
        } else {
            None
        }
    }

    /// When the system may be called.
    pub fn lines(&self) -> &[Line]
        ensures value { result.now ≡ self.now.lines }
        ensures within { AreWithinLimits self.now.lines self.now.max_retries self.now.success_wait }
    {
        self.lines.as_slice()
    }
}

// Whether the lines, the number of failures and the wait are within their limits.
fn are_within_limits(lines: &[Line], max_retries: u32, success_wait: u32) -> bool
    ensures { IsTrue result ↔ AreWithinLimits lines.now max_retries success_wait }
{
    lines.len() <= LINE_LIMIT
        && max_retries <= MAX_RETRIES_LIMIT
        && success_wait <= SUCCESS_WAIT_LIMIT
        && lines.iter().all(|line| has_retry(line))
}

// Whether the line's retry number, if it has one, is within its limits.
fn has_retry(line: &Line) -> bool
    ensures { IsTrue result ↔ HasRetry line.now }
{
    match line.retry {
        None => true,
        Some(minutes) => 1 <= minutes && minutes <= RETRY_LIMIT,
    }
}

/// What a sys file says.
#[derive(Debug, Drop)]
pub struct SysFile {
    /// Its systems, in the order of their sections.
    pub systems: Listed<SystemDef>,
    /// The numbers of the lines that were skipped because they begin with another keyword, counted
    /// from 1.
    pub skipped: Listed<u32>,
}
