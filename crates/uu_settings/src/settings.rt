//! The settings of a site.
use uu_names::{SiteName, Word};
use uu_times::Zone;

/// The settings of a site.
#[derive(Debug, Drop)]
pub struct Settings {
    /// The name of this site.
    pub name: SiteName,
    /// The clock of this site.
    pub zone: Zone,
    /// The path of the spool's file, one byte or more. A relative one starts at the working
    /// directory.
    pub spool: String,
    /// The users who may change jobs of others.
    pub admins: Vec<Word>,
    /// The path of the folder with the keys of neighbours, one byte or more, if bundles are sealed.
    /// A relative one starts at the working directory.
    pub seals: Option<String>,
    /// The bytes of the spool's file beyond which nothing is added.
    pub limit: usize,
}
