//! Entries of UUCP maps: neighbours, links and their costs.
#![tactic(auto)]

mod entry;
mod expression;
mod fault;
mod least;
mod network;
mod reader;
mod splitter;
mod statement;
mod text;
mod token;

pub use entry::{Cost, Entry, EntryText, Link, Network};
pub use fault::MapFault;
pub use reader::{MAX_ENTRY, entry_host, read_entry};
pub use splitter::split;
pub use uu_names::Listed;
