//! Which rows of the tables are those of a state of the spool, of this version and of earlier ones:
//! the check of a database before it becomes one of this version, or if a person asks.
#![tactic(auto)]

mod earlier;
mod entries;
mod jobs;
pub mod laws;
mod links;
mod spool;
mod systems;
mod walk;

pub use earlier::{EarlierRows, are_earlier_tables};
pub use spool::{Rows, are_tables};
