//! Changes of the spool's tables, each with its statements, and the changes of a plan as one
//! transaction.
#![tactic(auto)]

mod changes;
mod entries;
mod jobs;
mod links;
mod planned;
mod systems;
mod words;

pub use changes::rewrite;
pub use planned::carry_out;
