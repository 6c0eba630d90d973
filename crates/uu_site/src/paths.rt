//! The places of a site: its spool's files and what stands beside them.

use crate::fault::SiteFault;
use crate::find::Site;
use std::env;

/// The paths of a spool's files and of what stands beside them.
#[derive(Debug, Drop)]
pub struct Places {
    /// The folder of the spool.
    pub folder: String,
    /// The database.
    pub spool: String,
    /// The log of the database.
    pub wal: String,
    /// A new file that is to get the place of the database.
    pub new: String,
    /// The log of the new file.
    pub new_wal: String,
    /// A rollback journal, which only SQLite makes.
    pub journal: String,
    /// The file whose lock is the turn.
    pub lock: String,
    /// The file with the word of the spool.
    pub word: String,
    /// Room on the disk for changes that only take away.
    pub reserve: String,
    /// The log of what was done.
    pub log: String,
}

/// The places of the spool at this path. A relative one starts at the working directory.
///
/// # Errors
/// `Read` if the working directory has no path. `Memory`.
pub fn places_of(rt: &HostRuntime, spool: &str) -> Result<Places, SiteFault> {
    places_at(rt, whole_path(rt, spool)?)
}

/// The places of a site's spool at this path. A relative one starts in the site's folder, which need
/// not be the working directory yet.
///
/// # Errors
/// `Read` if the working directory has no path. `Memory`.
pub fn places_in(rt: &HostRuntime, site: &Site, spool: &str) -> Result<Places, SiteFault> {
    places_at(rt, path_in(rt, site, spool)?)
}

/// This path of a site's settings, from the root. A relative one starts in the site's folder, which
/// need not be the working directory yet.
///
/// # Errors
/// `Read` if the working directory has no path. `Memory`.
pub fn path_in(rt: &HostRuntime, site: &Site, path: &str) -> Result<String, SiteFault> {
    match &site.folder {
        Some(folder) if !path.starts_with('/') => {
            let path = format!(in rt.alloc(); "{folder}/{path}")?;
            whole_path(rt, path.as_str())
        }
        _ => whole_path(rt, path),
    }
}

// The places of the spool at this path from the root.
fn places_at(rt: &HostRuntime, spool: String) -> Result<Places, SiteFault> {
    let folder = String::from_str(rt.alloc(), folder_of(spool.as_str()))?;
    Ok(Places {
        wal: format!(in rt.alloc(); "{spool}-wal")?,
        new: format!(in rt.alloc(); "{spool}-new")?,
        new_wal: format!(in rt.alloc(); "{spool}-new-wal")?,
        journal: format!(in rt.alloc(); "{spool}-journal")?,
        lock: format!(in rt.alloc(); "{spool}-lock")?,
        word: format!(in rt.alloc(); "{spool}-word")?,
        reserve: format!(in rt.alloc(); "{spool}-reserve")?,
        log: format!(in rt.alloc(); "{folder}/log")?,
        folder,
        spool,
    })
}

/// The path from the root.
pub(crate) fn whole_path(rt: &HostRuntime, path: &str) -> Result<String, SiteFault> {
    if path.starts_with('/') {
        return Ok(String::from_str(rt.alloc(), path)?);
    }
    match env::current_dir(rt) {
        Ok(folder) => {
            let folder = folder.as_str();
            Ok(format!(in rt.alloc(); "{folder}/{path}")?)
        }
        Err(error) => Err(SiteFault::read(String::from_str(rt.alloc(), ".")?, error)),
    }
}

// The path without its last name, `/` if it has no other.
fn folder_of(path: &str) -> &str {
    match path.rsplit_once('/') {
        Some((folder, _)) if !folder.is_empty() => folder,
        _ => "/",
    }
}
