// Systems, and how calls to them went.
use uu_names::Word;
use uu_times::SystemDef;

/// How the last call of a system went.
#[derive(Debug, Drop)]
pub enum Outcome {
    /// It was never called.
    Never,
    /// The call failed, for this reason.
    Failed(Word),
    /// The call was made.
    Done,
}

/// The calls of a system so far. For a new system all numbers are 0 and the outcome is
/// [`Outcome::Never`].
#[derive(Debug, Drop)]
pub struct CallState {
    /// When the last call was reported, in UTC seconds.
    pub last: u64,
    /// The failures in a row, counted up to 1,000,000.
    pub failures: u32,
    /// How many seconds after `last` the system is left alone.
    pub wait: u64,
    /// How the last call went.
    pub outcome: Outcome,
}

/// A system of the spool.
#[derive(Debug, Drop)]
pub struct SystemRow {
    /// Its definition.
    pub def: SystemDef,
    /// Its calls.
    pub call: CallState,
}
