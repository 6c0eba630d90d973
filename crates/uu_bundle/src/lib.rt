//! Bundles: everything that a site has to say to a neighbour, as one text that is written and read.
#![tactic(auto)]

mod bundle;
mod fault;
mod heading;
pub mod laws;
mod lines;
mod marks;
mod reading;
mod record;
mod words;
mod writing;

pub use bundle::{Bundle, Heading, Parcel, Record, Refused, Told};
pub use fault::BundleFault;
pub use marks::{held_mark, mark_of, parcel_mark};
pub use reading::read_bundle;
pub use writing::{
    MAX_BUNDLE, MAX_TOLD, add_job, add_refused, begin_answer, begin_bundle, end_bundle,
};
