//! Zones, moments, time strings, timetables and sys files of a UUCP site.
#![tactic(auto)]

mod days;
mod directive;
pub mod fault;
pub mod laws;
mod lines;
pub mod moment;
pub mod printed;
mod quick;
mod scan;
mod section;
pub mod sys_file;
pub mod system;
pub mod timetable;
mod union;
pub mod windows;
pub mod zone;

pub use fault::TimeFault;
pub use moment::Moment;
pub use printed::write_sys;
pub use quick::read_printed;
pub use sys_file::read_sys;
pub use system::{Line, SysFile, SystemDef};
pub use timetable::{Timetables, read_time};
pub use windows::Windows;
pub use zone::Zone;
