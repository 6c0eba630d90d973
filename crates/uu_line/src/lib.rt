//! The program's command line: from the words after the program's name to a line of typed values.
//! It knows nothing of the spool.
#![tactic(auto)]

mod commands;
mod entered;
mod fault;
mod line;
mod misread;
mod origin;
mod reading;
mod task;
mod values;

pub use fault::LineFault;
pub use line::{CommandLine, line_of};
pub use misread::{Misread, Wanted, misread_in};
pub use origin::Origin;
pub use task::Task;
