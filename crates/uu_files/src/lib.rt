//! The two files of a spool. Each is synced only if there is something to sync, the log takes no
//! page beyond a limit, and the database in them is opened with a pool as large as they need.
#![tactic(auto)]

mod disk;
mod log_frames;
mod opening;
mod room;

pub use disk::SpoolDisk;
pub use opening::{SpoolFile, open_database};
pub use room::Room;
