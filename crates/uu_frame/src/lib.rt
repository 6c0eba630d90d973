//! Requests and answers as frames in a stream of bytes. The crate knows nothing of their meaning.
#![tactic(auto)]

mod answer;
mod fault;
mod head;
mod reading;
mod request;
mod writing;

pub use answer::write_answer;
pub use fault::FrameFault;
pub use reading::MAX_LINE;
pub use request::{Frame, read_request};
pub use writing::write_whole;
