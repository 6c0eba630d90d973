//! A spool whose next job gets a later number: a law alone.
#![tactic(auto)]

pub mod laws;
