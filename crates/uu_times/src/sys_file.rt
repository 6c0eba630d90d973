//! Sys files.
ghost use Rattle.std.specs.Prelude.{◌≡◌, ◌≤◌, true, false, [], Ok, OnOk, IfOk, IfErr, length};
ghost use Rattle.uu_times.specs.Directives.{IsValid};
ghost use Rattle.uu_times.specs.SysFile.{sys_file_of};
ghost use Rattle.uu_times.specs.System.{HasRetry};
ghost use Rattle.uu_times.specs.declared.directive.Directive.TheVariants.{Begin, Time, Table};
ghost use Rattle.std.specs.Str.Lines.{lines};
ghost use Rattle.uu_names.specs.Text.{most_text};
ghost use Rattle.uu_times.specs.Fault.{AnswersUnlessMemory, UnlessMemory};
ghost use Rattle.uu_times.specs.Lines.{joined};
ghost use Rattle.uu_times.specs.Internal.Reading.{has_seen, with_seen, no_reading, absorbed, line_read, lines_read, file_of, file_read, Takes};

use crate::directive::{Directive, line_says};
use crate::lines::joined_line;
use crate::section::Sections;
use crate::{Line, SysFile, TimeFault, Timetables, Windows};
use std::alloc::{AllocError, Global};
use std::collections::BTreeSet;
use std::marker::Model;
use uu_names::{Listed, SiteName};

// The names seen so far.
#[derive(Drop)]
struct Names {
    names: BTreeSet<SiteName>,
}

impl Model for Names {
    ghost use Rattle.std.specs.Prelude.{List, ℕ};

    ghost Value = { List (List ℕ) };

    ghost view = { λ n. n.names.keys };
}

impl Names {
    fn new(alloc: Global) -> Names
        ensures { result ≡ [] }
    {
        Names {
            names: BTreeSet::new(alloc),
        }
    }

    // Adds a name, or gives the fault if it was seen before.
    fn add(&mut self, name: &SiteName, twice: TimeFault) -> Result<(), TimeFault>
        ensures new { OnOk result ((has_seen self.old name.now ≡ false) × (self.new ≡ with_seen self.old name.now)) }
        ensures seen { IfErr result (λ fault. UnlessMemory fault ((has_seen self.old name.now ≡ true) × (fault ≡ twice))) }
    {
        if self.names.contains(name) {
            return Err(twice);
        }
        self.names.insert(name.clone()?)?;
        Ok(())
    }
}

// What the lines so far said.
#[derive(Drop)]
struct Reader {
    tables: Timetables,
    tabled: Names,
    named: Names,
    sections: Sections,
    skipped: Vec<u32>,
}

impl Model for Reader {
    ghost use Rattle.uu_times.specs.Internal.Reading.{Reading};

    ghost Value = { Reading };

    ghost view = { λ r. record { tables = r.tables; tabled = r.tabled; named = r.named; parts = r.sections; skipped = r.skipped.items } };
}

impl Reader {
    fn new(alloc: Global) -> Result<Reader, TimeFault>
        ensures { AnswersUnlessMemory result (Ok no_reading) }
    {
        Ok(Reader {
            tables: Timetables::predefined(alloc)?,
            tabled: Names::new(alloc),
            named: Names::new(alloc),
            sections: Sections::new(alloc),
            skipped: Vec::new(alloc),
        })
    }

    fn begin(&mut self, alloc: Global, line: u32, name: SiteName) -> Result<(), TimeFault>
        ensures { Takes result self.new (absorbed self.old line (Begin name)) }
    {
        self.named.add(&name, TimeFault::SystemTwice(line))?;
        self.sections.begin(alloc, name)?;
        Ok(())
    }

    fn push(&mut self, line: u32, time: Line) -> Result<(), TimeFault>
        requires { HasRetry time }
        ensures { Takes result self.new (absorbed self.old line (Time time)) }
    {
        if self.sections.is_full() {
            return Err(TimeFault::TooManyLines(line));
        }
        self.sections.push(time)?;
        Ok(())
    }

    fn define(
        &mut self,
        alloc: Global,
        line: u32,
        name: SiteName,
        windows: Windows,
    ) -> Result<(), TimeFault>
        ensures { Takes result self.new (absorbed self.old line (Table name windows)) }
    {
        self.tabled.add(&name, TimeFault::TableTwice(line))?;
        self.tables.set(alloc, name, windows)?;
        Ok(())
    }

    // Takes in what a line says.
    fn absorb(&mut self, alloc: Global, line: u32, directive: Directive) -> Result<(), TimeFault>
        requires { IsValid directive }
        ensures { Takes result self.new (absorbed self.old line directive) }
    {
        match directive {
            Directive::Begin(name) => self.begin(alloc, line, name),
            Directive::Time(time) => self.push(line, time),
            Directive::Retries(number) => {
                self.sections.set_retries(number);
                Ok(())
            }
            Directive::SuccessWait(seconds) => {
                self.sections.set_success_wait(seconds);
                Ok(())
            }
            Directive::Table(name, windows) => self.define(alloc, line, name, windows),
            Directive::Skip(number) => {
                self.skipped.push(number)?;
                Ok(())
            }
        }
    }

    // Reads a joined line.
    fn read_line(&mut self, alloc: Global, line: u32, text: &[u8]) -> Result<(), TimeFault>
        ensures { Takes result self.new (line_read self.old line text.now) }
    {
        match line_says(alloc, &self.tables, line, text)? {
            None => Ok(()),
            Some(directive) => self.absorb(alloc, line, directive),
        }
    }

    // Reads the lines of a text, numbered from 1.
    fn read_lines(&mut self, alloc: Global, text: &[u8]) -> Result<(), TimeFault>
        requires { length text.now ≤ most_text }
        ensures { Takes result self.new (lines_read self.old (joined 1 (lines text.now))) }
    {
        let mut rest = text;
        let mut number = 1;
        while !rest.is_empty() {
            let first = joined_line(alloc, rest)?;
            self.read_line(alloc, number, &first.line)?;
            rest = first.rest;
            number += first.count;
        }
        Ok(())
    }

    // The systems and the skipped lines.
    fn into_file(self, alloc: Global) -> Result<SysFile, AllocError>
        ensures { IfOk result (λ file. file ≡ file_of self) }
    {
        let Reader {
            tables,
            tabled,
            named,
            sections,
            skipped,
        } = self;
        drop(tables);
        drop(tabled);
        drop(named);
        let systems = sections.into_systems(alloc)?;
        Ok(SysFile {
            systems: Listed::from_vec(systems),
            skipped: Listed::from_vec(skipped),
        })
    }
}

// Reads a sys file line by line.
fn read_file(alloc: Global, text: &[u8]) -> Result<SysFile, TimeFault>
    requires { length text.now ≤ most_text }
    ensures { AnswersUnlessMemory result (file_read text.now) }
{
    let mut reader = Reader::new(alloc)?;
    match reader.read_lines(alloc, text) {
        Ok(()) => Ok(reader.into_file(alloc)?),
        Err(fault) => {
            drop(reader);
            Err(fault)
        }
    }
}

/// Reads a sys file of at most 4,194,304 bytes. It gives the systems in order, each with the time
/// lines and the numbers of its section, or else the defaults. It also gives the numbers of the
/// lines that were skipped because they begin with another keyword.
///
/// [`time_strings_are_read`](crate::laws::time_strings_are_read) says what a line's time string
/// means by the grammar, and [`the_last_timetable_counts`](crate::laws::the_last_timetable_counts)
/// which timetable a name stands for. (Taylor UUCP 1.07 manual, "The Sys File"; a timetable may be
/// defined here too.) Time and memory are linear in the text, except for the search of names and
/// the sort of a line's ranges. Tests measure the time only, and no clause is about either.
///
/// # Errors
/// The fault of the first faulty line, with its number; for a joined line it is the number of its
/// first line.
///
/// What the line says by itself is checked first. [`TimeFault::BadSystem`]: a `system` line hasn't
/// exactly one site name. [`TimeFault::BadWords`]: too few or too many words after another keyword,
/// or no grade or timetable's name at its place. [`TimeFault::UnknownTable`] and
/// [`TimeFault::BadTime`]: its time string, as in [`read_time`](crate::read_time).
/// [`TimeFault::BadNumber`]: its number.
///
/// Then what the lines before it forbid: [`TimeFault::SystemTwice`]; [`TimeFault::TooManyLines`]
/// for the 33rd time line of a section; [`TimeFault::TableTwice`]. The only other error is
/// [`TimeFault::Memory`].
pub fn read_sys(alloc: Global, text: &[u8]) -> Result<SysFile, TimeFault>
    requires { length text.now ≤ most_text }
    ensures { AnswersUnlessMemory result (sys_file_of text.now) }
{
    read_file(alloc, text)
}
