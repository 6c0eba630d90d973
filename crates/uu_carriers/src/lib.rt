//! Anything that moves texts is a carrier: laws only.
#![tactic(auto)]

pub mod laws;
