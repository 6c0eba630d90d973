//! Adopting a database as a spool's. The crate finds which of the spool's tables it has, and
//! whether their rows are those of a state. It creates the tables of this version if there are
//! none, or makes them from those of an earlier version.
#![tactic(auto)]

mod adoption;
mod all_earlier;
mod all_rows;
mod alone;
mod assembly;
mod bodies;
mod contents;
mod heads;
mod inspection;
mod integer;
mod joining;
pub mod laws;
mod reading;
mod renewal;
mod spool;
mod tables;
mod version;

pub use adoption::adopt_database;
pub use alone::is_alone;
pub use contents::{Contents, read_contents};
