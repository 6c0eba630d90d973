//! Grades, site names, words, bang paths and mail envelopes of a UUCP site, and what the crates
//! above share: lists in types, lines and blanks of texts.
#![tactic(auto)]

mod envelopes;
mod fault;
mod form;
mod grade;
pub mod laws;
mod listed;
mod path;
mod return_paths;
mod site_name;
pub mod text;
mod word;

pub use envelopes::envelope;
pub use fault::NameFault;
pub use grade::Grade;
pub use listed::Listed;
pub use path::Path;
pub use return_paths::return_path;
pub use site_name::{SiteName, is_site_byte, is_site_name};
pub use word::{Word, is_word};
