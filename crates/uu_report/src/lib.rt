//! What the program prints of a spool's contents and answers: reports, and the output of commands.
//! The crate knows no file and no store.
#![tactic(auto)]

mod clock;
mod due;
mod jobs;
mod links;
mod logged;
mod networks;
mod next_calls;
mod output;
mod queues;
mod reply;
mod routes;
mod settled;
mod status;

pub use due::due_report;
pub use jobs::{job_line, jobs_report};
pub use links::links_report;
pub use logged::{Change, Form, answered_lines, ended_lines, log_moment};
pub use next_calls::{next_calls_report, next_polls_report};
pub use output::{answer_lines, output_of, status_of};
pub use queues::queues_report;
pub use reply::reply_line;
pub use routes::routes_report;
pub use settled::settle_report;
pub use status::status_report;
