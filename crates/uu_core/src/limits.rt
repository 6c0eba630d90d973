//! The limits of a spool (this project's choice). Those of moments and systems are in `uu_times`,
//! that of a map entry is in `uu_map`.

/// The most bytes of a job.
pub const MAX_BYTES: u32 = 1_048_576;

/// The most arguments of an execution.
pub const MAX_ARGUMENTS: usize = 64;

/// The most jobs in one report of a call.
pub const MAX_DONE: usize = 256;

/// The number after the last job number, which no job has.
pub const NUMBERS_END: u32 = 4_294_967_295;

/// Failures in a row are counted up to this number.
pub const MAX_FAILURES: u32 = 1_000_000;

/// The most seconds that a system is left alone: 365 days.
pub const MAX_WAIT: u32 = 31_536_000;
