//! What a line of the program asks of a spool. The crate knows no file, no clock and no store.
#![tactic(auto)]

mod fault;
pub mod laws;
mod mail;
mod maps;
mod marks;
mod neighbours;
mod request;
mod systems;
mod unpacking;

pub use fault::{RequestFault, WrongBundle};
pub use neighbours::neighbour_of;
pub use request::{
    Answering, CommandList, Packing, Question, Request, Settling, Unpacking, request_of,
};
