//! The spool program of a UUCP site as a library: it serves one line over a spool, or a stream of
//! requests, and gives each fault its line and status. Its command line, settings, requests and
//! reports are crates below; the program itself is a thin crate over this one.
#![tactic(auto)]

mod answer;
mod asking;
mod batch_call;
mod batching;
mod bundles;
mod choosing;
mod fault;
mod input;
pub mod laws;
mod line;
mod mailing;
mod moment;
mod print;
mod report;
mod routing;
mod serving;
mod settling;

pub use answer::name_text;
pub use batch_call::batch_settings;
pub use batching::{Clock, batch};
pub use fault::{Fault, FaultLine, fault_line, fault_status};
pub use input::{READ_LIMIT, read_at_most, read_input};
pub use line::line_of;
pub use moment::moment_of;
pub use report::{
    report_due, report_jobs, report_links, report_next_calls, report_next_polls, report_queues,
    report_status,
};
pub use serving::{serve, serve_line};
pub use uu_line::{CommandLine, CommandLine as CallLine, Task};
pub use uu_settings::{Key, Settings, SettingsFault};
