//! The tables of the spool in a database: their schema, the rows for the typed ones, an empty
//! spool, and why the store gives no answer. Below them, for any schema, is what statements and
//! transactions of the SQLite port mean, and what a stop leaves of them. Those lemmas are in
//! `proofs/`, for the crates above.
#![tactic(auto)]

mod drops;
mod fault;
pub mod laws;
mod tables;
mod version;

pub use fault::{
    Halt, StoreFault, StoreKind, halt_fault, is_alive, is_memory, kind_of, store_fault,
};
pub use tables::{create, make_anew};
pub use version::Version;
