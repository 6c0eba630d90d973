//! The spool of a UUCP site as a plain machine. It has the commands, the reasons why they are
//! refused, the time for which a system is left alone after a failed call, and the job for which
//! each system is called next. It has no file, clock or store.
#![tactic(auto)]

pub mod callable;
mod command;
mod custody;
mod decide;
mod definition;
mod due;
mod filter;
mod job;
pub mod laws;
pub mod limits;
mod next_call;
mod queue;
mod refusal;
mod sound;
mod subject;
mod system;
mod take_in;
mod waiting;
mod weeks;

pub use command::{Command, Reply};
pub use custody::{HandIn, Key, Mark, Taken};
pub use decide::{
    decide_done, decide_drop, decide_failed, decide_forget, decide_job, decide_queue,
    decide_queue_once,
};
pub use definition::{definitions, pick_systems};
pub use due::{Due, all_due, choose};
pub use filter::Filter;
pub use job::{By, JobHead, Kind, NewJob};
pub use next_call::{NextCall, NextPoll, Why, next_calls, next_polls};
pub use queue::{Queue, Sums, queues};
pub use refusal::Refusal;
pub use subject::Subject;
pub use system::{CallState, Outcome, SystemRow};
pub use take_in::{Offered, TakeIn, Taking};
pub use uu_names::Listed;
pub use waiting::{held, limit};
