//! Finding the site of a line.

use crate::fault::{Doubt, SiteFault};
use crate::folder::{access_of, is_other, this_user};
use crate::paths::whole_path;
use std::env::VarError;
use std::{env, fs, io};

/// The site of a line: its settings file, and the folder where relative paths start, if that isn't
/// the working directory.
#[derive(Debug, Drop)]
pub struct Site {
    /// The path of the settings file, from the working directory before [`enter`].
    pub settings: String,
    /// The folder.
    pub folder: Option<String>,
    /// Why the settings file of the working directory was passed over, if one is there.
    pub passed: Option<Doubt>,
}

/// The name of the settings file of a site.
const SETTINGS: &str = "uuspool.toml";

/// The settings file of the system's site, and the folder of its spool.
const SYSTEM_SETTINGS: &str = "/etc/uuspool/uuspool.toml";

const SYSTEM_FOLDER: &str = "/var/spool/uuspool";

/// The variable of the environment that names the folder of a site.
const VARIABLE: &str = "UUSPOOL_DIR";

/// The site of a line: that of the settings file that the line gives, or else the one in the folder
/// that `UUSPOOL_DIR` names, or else the one in the working directory, or else the system's. In the
/// working directory the file counts only if the file and the directory are this user's and nobody
/// else may write them, because whoever writes it decides over which spool this user works.
///
/// # Errors
/// `Variable` if `UUSPOOL_DIR` isn't UTF-8. `Read` if the user of this process can't be seen.
/// `Memory`.
pub fn find_site(rt: &HostRuntime, given: Option<&str>) -> Result<Site, SiteFault> {
    if let Some(path) = given {
        return site_here(rt, path);
    }
    match named_folder(rt)? {
        Some(folder) => site_in(rt, folder),
        None => match settings_here(rt)? {
            Here::Used => site_here(rt, SETTINGS),
            Here::Nothing => system_site(rt, None),
            Here::Passed(doubt) => system_site(rt, Some(doubt)),
        },
    }
}

// The site with this settings file, whose relative paths start at the working directory.
fn site_here(rt: &HostRuntime, settings: &str) -> Result<Site, SiteFault> {
    Ok(Site {
        settings: String::from_str(rt.alloc(), settings)?,
        folder: None,
        passed: None,
    })
}

// The system's site.
fn system_site(rt: &HostRuntime, passed: Option<Doubt>) -> Result<Site, SiteFault> {
    let settings = String::from_str(rt.alloc(), SYSTEM_SETTINGS)?;
    Ok(Site {
        settings,
        folder: Some(String::from_str(rt.alloc(), SYSTEM_FOLDER)?),
        passed,
    })
}

// The site in a folder.
fn site_in(rt: &HostRuntime, folder: String) -> Result<Site, SiteFault> {
    let settings = format!(in rt.alloc(); "{folder}/{SETTINGS}")?;
    Ok(Site {
        settings,
        folder: Some(folder),
        passed: None,
    })
}

// The folder that the environment names, if it names one.
fn named_folder(rt: &HostRuntime) -> Result<Option<String>, SiteFault> {
    match env::var(rt, VARIABLE) {
        Ok(folder) if folder.is_empty() => Ok(None),
        Ok(folder) => Ok(Some(folder)),
        Err(VarError::NotPresent) => Ok(None),
        Err(VarError::NotUnicode) => Err(SiteFault::Variable),
        Err(VarError::OutOfMemory) => Err(SiteFault::Memory),
    }
}

// Whether the working directory has a settings file, and whether that is used.
#[derive(Clone, Copy)]
enum Here {
    Nothing,
    Used,
    Passed(Doubt),
}

// Looks at the settings file of the working directory. If nobody else may write the directory, the
// file is the same when it is read.
fn settings_here(rt: &HostRuntime) -> Result<Here, SiteFault> {
    let file = match fs::metadata(rt, SETTINGS) {
        Ok(found) if found.is_file() => found,
        _ => return Ok(Here::Nothing),
    };
    let Ok(folder) = fs::metadata(rt, ".") else {
        return Ok(Here::Nothing);
    };
    let user = this_user(rt)?;
    match (access_of(&folder, user), access_of(&file, user)) {
        (Some(access), _) => Ok(Here::Passed(Doubt::Folder(access))),
        (None, Some(access)) => Ok(Here::Passed(Doubt::File(access))),
        (None, None) => Ok(Here::Used),
    }
}

/// The text of the settings file of a site.
///
/// # Errors
/// `UnreadKind` if it isn't a regular file. `Read` if it can't be read, or isn't UTF-8, and
/// `NoSettings` if moreover the one of the working directory was passed over. `Memory`.
pub fn settings_text(rt: &HostRuntime, site: &Site) -> Result<String, SiteFault> {
    if is_other(rt, site.settings.as_str()) {
        return Err(SiteFault::UnreadKind {
            path: site.settings.clone()?,
        });
    }
    match fs::read_to_string(rt, site.settings.as_str()) {
        Ok(text) => Ok(text),
        Err(error) => Err(unread(rt, site, error)?),
    }
}

// The fault of a site whose settings file can't be read.
fn unread(rt: &HostRuntime, site: &Site, error: io::Error) -> Result<SiteFault, SiteFault> {
    let path = site.settings.clone()?;
    match site.passed {
        Some(why) if error.kind() != io::ErrorKind::OutOfMemory => Ok(SiteFault::NoSettings {
            path,
            error,
            passed: whole_path(rt, SETTINGS)?,
            why,
        }),
        _ => Ok(SiteFault::read(path, error)),
    }
}

/// The path of the settings file from the root.
///
/// # Errors
/// `Read` if the working directory has no path. `Memory`.
pub fn settings_path(rt: &HostRuntime, site: &Site) -> Result<String, SiteFault> {
    whole_path(rt, site.settings.as_str())
}

/// Makes the folder of a site the working directory.
///
/// # Errors
/// `Read` if it can't be. `Memory`.
pub fn enter(rt: &HostRuntime, site: &Site) -> Result<(), SiteFault> {
    let Some(folder) = &site.folder else {
        return Ok(());
    };
    match env::set_current_dir(rt, folder.as_str()) {
        Ok(()) => Ok(()),
        Err(error) => Err(SiteFault::read(folder.clone()?, error)),
    }
}
