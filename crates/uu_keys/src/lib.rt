//! The files with the keys by which the bundles of neighbours are sealed.
#![tactic(auto)]

mod fault;
mod file;

pub use fault::KeyFileFault;
pub use file::{keys_at, keys_for};
