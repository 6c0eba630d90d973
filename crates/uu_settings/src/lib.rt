//! The settings of a site, read from a TOML document.
#![tactic(auto)]

mod fault;
mod read;
mod settings;
mod values;

pub use fault::{Key, SettingsFault, TomlFault};
pub use settings::Settings;
