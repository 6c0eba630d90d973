// The sections of a sys file, as they are read.
ghost use Rattle.std.specs.Prelude.{◌≡◌, ◌≤◌, ◌<◌, ◌++◌, ◌∷◌, [], Some, OnOk, IfOk, length, nat_le, option_map};
ghost use Rattle.uu_times.specs.Internal.Section.{no_part, no_parts, begin_part, with_line, with_retries, with_success_wait, all_systems};
ghost use Rattle.uu_times.specs.SysFile.{lines_or, system_of};
ghost use Rattle.uu_times.specs.System.{HasRetry, most_lines, most_retries, most_success_wait};

use crate::system::{DEFAULT_MAX_RETRIES, DEFAULT_SUCCESS_WAIT, LINE_LIMIT};
use crate::{Line, SystemDef};
use std::alloc::{AllocError, Global};
use std::marker::Model;
use std::mem;
use uu_names::{Listed, SiteName};

/// The time lines of a section, its last number of failures, and its last wait after a successful
/// call.
#[derive(Drop)]
pub struct Section {
    lines: Vec<Line>,
    max_retries: Option<u32>,
    success_wait: Option<u32>,
}

impl Model for Section {
    ghost use Rattle.uu_times.specs.Internal.Section.{IsWithin};
    ghost use Rattle.uu_times.specs.SysFile.{Part};

    ghost Value = { Part };

    ghost view = { λ s. record { lines = s.lines.items; max_retries = s.max_retries; success_wait = s.success_wait } };

    ghost invariant = { λ s. IsWithin s.lines.items s.max_retries s.success_wait };
}

// Copies of time lines, which share their runs.
fn copy_lines(alloc: Global, lines: &[Line]) -> Result<Vec<Line>, AllocError>
    ensures { IfOk result (λ copies. copies.items ≡ lines.now) }
{
    let mut copies = Vec::new(alloc);
    for line in lines {
        copies.push(line.clone()?)?;
    }
    Ok(copies)
}

// The lines, or copies of the others if there are none.
fn lines_or(alloc: Global, lines: Vec<Line>, others: &[Line]) -> Result<Vec<Line>, AllocError>
    ensures { IfOk result (λ chosen. chosen.items ≡ lines_or lines.items others.now) }
{
    if lines.is_empty() {
        copy_lines(alloc, others)
    } else {
        Ok(lines)
    }
}

impl Section {
    fn new(alloc: Global) -> Section
        ensures { result ≡ no_part }
    {
        Section {
            lines: Vec::new(alloc),
            max_retries: None,
            success_wait: None,
        }
    }

    // Whether the section has as many time lines as it may have.
    fn is_full(&self) -> bool
        ensures { result ≡ nat_le most_lines (length self.now.lines) }
    {
        self.lines.len() >= LINE_LIMIT
    }

    fn push(&mut self, line: Line) -> Result<(), AllocError>
        requires room { length self.old.lines < most_lines }
        requires line { HasRetry line }
        ensures { OnOk result (self.new ≡ record self.old { lines = self.old.lines ++ line ∷ [] }) }
    {
        self.lines.push(line)?;
        Ok(())
    }

    fn set_retries(&mut self, number: u32)
        requires { number ≤ most_retries }
        ensures { self.new ≡ record self.old { max_retries = Some number } }
    {
        self.max_retries = Some(number);
    }

    fn set_success_wait(&mut self, seconds: u32)
        requires { seconds ≤ most_success_wait }
        ensures { self.new ≡ record self.old { success_wait = Some seconds } }
    {
        self.success_wait = Some(seconds);
    }

    fn into_system(
        self,
        alloc: Global,
        name: SiteName,
        defaults: &Section,
    ) -> Result<SystemDef, AllocError>
        ensures { IfOk result (λ system. system ≡ system_of name self defaults.now) }
    {
        let Section {
            lines,
            max_retries,
            success_wait,
        } = self;
        let lines = lines_or(alloc, lines, &defaults.lines)?;
        let max_retries = max_retries
            .or(defaults.max_retries)
            .unwrap_or(DEFAULT_MAX_RETRIES);
        let success_wait = success_wait
            .or(defaults.success_wait)
            .unwrap_or(DEFAULT_SUCCESS_WAIT);
        Ok(SystemDef {
            name,
            lines: Listed::from_vec(lines),
            max_retries,
            success_wait,
        })
    }
}

fn push_system(
    alloc: Global,
    done: &mut Vec<SystemDef>,
    name: SiteName,
    section: Section,
    defaults: &Section,
) -> Result<(), AllocError>
    ensures { OnOk result (done.new.items ≡ done.old.items ++ system_of name section defaults.now ∷ []) }
{
    done.push(section.into_system(alloc, name, defaults)?)?;
    Ok(())
}

/// The sections so far.
#[derive(Drop)]
pub struct Sections {
    done: Vec<SystemDef>,
    name: Option<SiteName>,
    section: Section,
    defaults: Section,
}

impl Model for Sections {
    ghost use Rattle.uu_times.specs.Internal.Section.{Parts};

    ghost Value = { Parts };

    ghost view = { λ s. record { done = s.done.items; name = s.name; part = s.section; defaults = s.defaults } };
}

impl Sections {
    /// No section yet.
    pub fn new(alloc: Global) -> Sections
        ensures { result ≡ no_parts }
    {
        Sections {
            done: Vec::new(alloc),
            name: None,
            section: Section::new(alloc),
            defaults: Section::new(alloc),
        }
    }

    /// Whether the present section has as many time lines as it may have.
    pub fn is_full(&self) -> bool
        ensures { result ≡ nat_le most_lines (length self.now.part.lines) }
    {
        self.section.is_full()
    }

    /// Adds a time line to the present section.
    pub fn push(&mut self, line: Line) -> Result<(), AllocError>
        requires room { length self.old.part.lines < most_lines }
        requires line { HasRetry line }
        ensures { OnOk result (self.new ≡ with_line self.old line) }
    {
        self.section.push(line)
    }

    /// Sets the number of failures of the present section.
    pub fn set_retries(&mut self, number: u32)
        requires { number ≤ most_retries }
        ensures { self.new ≡ with_retries self.old number }
    {
        self.section.set_retries(number);
    }

    /// Sets the present section's wait after a successful call.
    pub fn set_success_wait(&mut self, seconds: u32)
        requires { seconds ≤ most_success_wait }
        ensures { self.new ≡ with_success_wait self.old seconds }
    {
        self.section.set_success_wait(seconds);
    }

    /// Begins the section of a system.
    pub fn begin(&mut self, alloc: Global, name: SiteName) -> Result<(), AllocError>
        ensures { OnOk result (self.new ≡ begin_part self.old name) }
    {
        let section = mem::replace(&mut self.section, Section::new(alloc));
        match mem::replace(&mut self.name, Some(name)) {
            None => {
                self.defaults = section;
                Ok(())
            }
            Some(previous) => {
                push_system(alloc, &mut self.done, previous, section, &self.defaults)
            }
        }
    }

    /// The systems of all sections.
    pub fn into_systems(self, alloc: Global) -> Result<Vec<SystemDef>, AllocError>
        ensures { IfOk result (λ systems. systems.items ≡ all_systems self.done self.name self.part self.defaults) }
    {
        let Sections {
            mut done,
            name,
            section,
            defaults,
        } = self;
        if let Some(name) = name {
            push_system(alloc, &mut done, name, section, &defaults)?;
        }
        Ok(done)
    }
}
