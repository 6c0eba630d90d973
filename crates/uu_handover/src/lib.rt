//! Jobs that the plain machine of one site hands on to that of another: laws alone.
#![tactic(auto)]

pub mod laws;
