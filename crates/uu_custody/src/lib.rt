//! Custody over two spools that are stopped and reopened: laws only.
#![tactic(auto)]

pub mod laws;
