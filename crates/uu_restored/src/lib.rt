//! A spool that is put back from an earlier copy, and renumbered: a law alone.
#![tactic(auto)]

pub mod laws;
