//! What the program asks of the operating system besides the two files of the spool: where its site
//! is, whose turn it is, whether the spool is there, its word, its reserve, its log, and a new file in
//! the place of its database.
#![tactic(auto)]

mod fault;
mod find;
mod folder;
mod log;
mod paths;
mod presence;
mod replacing;
mod reserve;
mod turn;
mod word;

pub use fault::{Access, Doubt, Holder, Lack, SiteFault};
pub use find::{Site, enter, find_site, settings_path, settings_text};
pub use folder::expect_own_folder;
pub use log::append_log;
pub use paths::{Places, path_in, places_in, places_of};
pub use presence::{Found, expect_spool, find_spool, make_place};
pub use replacing::{make_new, put_new, remove_new, spool_length};
pub use reserve::{Share, give_up_reserve, make_reserve};
pub use turn::{PATIENCE, Turn, patience, pause, take_turn};
pub use word::{has_word, make_word, read_word};
