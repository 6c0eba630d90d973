//! The machine of `uu_core` as a plain program over lists, slow and clear, with nothing but vectors.
//! Tests compare faster programs with it.
#![tactic(auto)]

mod copy;
mod entry;
mod job;
mod link;
mod lists;
mod machine;
mod rows;

pub use entry::PlainEntry;
pub use job::PlainJob;
pub use link::PlainLink;
pub use machine::Machine;
