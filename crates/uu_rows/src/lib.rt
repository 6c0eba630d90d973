//! Rows of the spool's tables, read as typed rows: what each column has to be, and the rows of a
//! table in the order of its key. Out of memory is `RowFault::Memory`. A row that the tables allow
//! but the format doesn't is `RowFault::Bad`.
#![tactic(auto)]

mod asks;
mod borrowed;
mod definition;
mod fault;
mod reading;
mod rows;
mod values;

pub use asks::{
    ask, ask_bare_systems, ask_lines, ask_links, ask_ranges, ask_systems, ask_taken, ask_waits,
};
pub use borrowed::read_heads;
pub use fault::{RowFault, or_error, or_none, read_fault};
pub use reading::{TypedRow, first_row, read_all, read_rows};
pub use rows::has_width;
pub use values::{grade_in, name_in, number_in};
