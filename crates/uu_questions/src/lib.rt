//! The questions that the spool's store asks of its seven tables, each with its answer: what is asked
//! before a command, and what users ask. A question commits nothing and changes nothing, with any
//! answer. Out of memory is `OutOfMemory`. A row that the tables allow but the format doesn't is
//! `QueryReturnedNoRows`.
#![tactic(auto)]

mod asks;
mod bundle;
mod callable;
mod due;
mod entries;
mod facts;
mod jobs;
pub mod laws;
mod systems;
mod taken;
mod walk;

pub use bundle::facts_for_take_in;
pub use due::systems_due;
pub use entries::{all_entries, entry_of_host};
pub use facts::{facts_for, next_number, refusal_of};
pub use jobs::{job_of_number, list_jobs};
pub use systems::all_systems;
pub use taken::taken_from;
