//! The spool of a UUCP site, kept in one SQLite file.
#![tactic(auto)]

mod adopt;
mod close;
pub mod laws;
mod limits;
mod open;
mod remains;
mod run;
mod spool;

pub use adopt::AdoptFault;
pub use close::has_short_log;
pub use open::{FileSpool, open_spool};
pub use remains::{OpenFault, Remains};
pub use run::RunEnd;
pub use spool::Spool;
pub use uu_adopt::Contents;
pub use uu_core::{
    By, CallState, Command, Due, Filter, JobHead, Kind, NewJob, Outcome, Refusal, Reply, SystemRow,
    Taken,
};
pub use uu_files::{Room, SpoolFile};
pub use uu_names::{Grade, Listed, SiteName, Word};
pub use uu_schema::{StoreFault, StoreKind};
pub use uu_times::{Moment, SystemDef};
