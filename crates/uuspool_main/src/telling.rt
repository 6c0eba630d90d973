//! What is said about a site without its spool.

use crate::serving::print;
use crate::trouble::Trouble;
use std::alloc::{AllocError, Global};
use uu_site::{Places, Site, SiteFault, path_in, places_in, settings_path};
use uuspool::{Settings, name_text};

/// Prints the name of the site.
pub(crate) fn tell_name(rt: &HostRuntime, settings: &Settings) -> Result<u8, Trouble> {
    let text = name_text(rt.alloc(), settings)?;
    say(rt, &text)
}

/// Prints where the site is, one line each, with paths from the root: its name, its settings file,
/// the folder of its spool, the spool, its log, the spool's limit, its clock as the text of the
/// settings has it, and the folder of keys, if there is one.
pub(crate) fn tell_site(
    rt: &HostRuntime,
    site: &Site,
    settings: &Settings,
    text: &str,
) -> Result<u8, Trouble> {
    let places = places_in(rt, site, settings.spool.as_str())?;
    let path = settings_path(rt, site)?;
    let path = path.as_str();
    expect_one_line("the settings", path)?;
    expect_one_line("the spool", places.spool.as_str())?;
    let mut lines = lines_of(rt.alloc(), settings, path, &places)?;
    push_clock(rt, &mut lines, text)?;
    push_seals(rt, &mut lines, site, settings)?;
    say(rt, lines.as_bytes())
}

// A path with a line feed would look like two lines.
fn expect_one_line(what: &'static str, path: &str) -> Result<(), SiteFault> {
    if path.contains('\n') {
        return Err(SiteFault::Feed { what });
    }
    Ok(())
}

// The lines of the name, the paths and the limit.
fn lines_of(
    alloc: Global,
    settings: &Settings,
    path: &str,
    places: &Places,
) -> Result<String, AllocError> {
    let name = settings.name.as_str();
    let folder = places.folder.as_str();
    let spool = places.spool.as_str();
    let log = places.log.as_str();
    let limit = settings.limit;
    format!(in alloc;
        "name {name}\nsettings {path}\nfolder {folder}\nspool {spool}\nlog {log}\nlimit {limit}\n"
    )
}

// Adds the line of the clock, `zone` or `offset`, if the text of the settings has one of them.
fn push_clock(rt: &HostRuntime, lines: &mut String, text: &str) -> Result<(), Trouble> {
    let Ok(document) = toml::table_from_str(rt.alloc(), text) else {
        return Err(Trouble::Line(uuspool::Fault::Memory));
    };
    if let Some(zone) = document.get("zone") {
        if let Some(rule) = zone.as_str() {
            lines.push_str("zone ")?;
            lines.push_str(rule)?;
            lines.push('\n')?;
        }
    }
    if let Some(offset) = document.get("offset") {
        if let Some(minutes) = offset.as_integer() {
            let line = format!(in rt.alloc(); "offset {minutes}\n")?;
            lines.push_str(line.as_str())?;
        }
    }
    Ok(())
}

// Adds the line of the folder of keys, if the settings name one.
fn push_seals(
    rt: &HostRuntime,
    lines: &mut String,
    site: &Site,
    settings: &Settings,
) -> Result<(), Trouble> {
    if let Some(folder) = &settings.seals {
        let path = path_in(rt, site, folder.as_str())?;
        expect_one_line("the folder of keys", path.as_str())?;
        lines.push_str("seals ")?;
        lines.push_str(path.as_str())?;
        lines.push('\n')?;
    }
    Ok(())
}

// Prints an answer for which nothing was carried out.
fn say(rt: &HostRuntime, text: &[u8]) -> Result<u8, Trouble> {
    match print(rt, text) {
        Ok(()) => Ok(0),
        Err(error) => Err(Trouble::Unprinted {
            error,
            told: String::new(rt.alloc()),
        }),
    }
}
