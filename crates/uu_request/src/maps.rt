//! The commands of a map text.

ghost use Rattle.std.specs.Prelude.{◌≡◌, ◌≤◌, Ok, IfOk, All, length, map};
ghost use Rattle.uu_names.specs.Text.{most_text};
ghost use Rattle.uu_core.specs.declared.command.Command.TheVariants as command;
ghost use Rattle.uu_map.specs.Split.{entries_of};
ghost use Rattle.uu_request.specs.Requests.{AnswersUnlessMemory, bytes_at, subject_at};
ghost use Rattle.uu_request.specs.Requests as spec;

use crate::fault::RequestFault;
use crate::request::{CommandList, Request};
use std::alloc::{AllocError, Global};
use uu_core::{Command, Subject};
use uu_map::{EntryText, Listed, entry_host, split};

/// The commands for the entries of a map text, one for each, in the order of the text.
pub(crate) fn entries(alloc: Global, input: &[u8]) -> Result<Request, RequestFault>
    requires { length input.now ≤ most_text }
    ensures { AnswersUnlessMemory result (Ok (spec.entries input.now)) }
{
    let Ok(places) = split(alloc, input) else {
        return Err(RequestFault::Memory);
    };
    let commands = commands_at(alloc, input, &places)?;
    let subjects = subjects_at(alloc, input, &places)?;
    Ok(Request::Commands(CommandList {
        commands: Listed::from_vec(commands),
        subjects: Listed::from_vec(subjects),
        skipped: Listed::from_vec(Vec::new(alloc)),
    }))
}

// A command for the entry at each place.
fn commands_at(alloc: Global, text: &[u8], places: &[EntryText]) -> Result<Vec<Command>, AllocError>
    requires { All (spec.IsPlace text.now) places.now }
    ensures { IfOk result (λ commands. commands.items ≡ map (λ place. command.Entry (bytes_at text.now place)) places.now) }
{
    let mut commands = Vec::new(alloc);
    for place in places {
        let bytes = Vec::from_slice(alloc, bytes_at(text, place))?;
        commands.push(Command::Entry(Listed::from_vec(bytes)))?;
    }
    Ok(commands)
}

// What the reply to the entry at each place is about.
fn subjects_at(alloc: Global, text: &[u8], places: &[EntryText]) -> Result<Vec<Subject>, AllocError>
    requires { All (spec.IsPlace text.now) places.now }
    ensures { IfOk result (λ subjects. subjects.items ≡ map (subject_at text.now) places.now) }
{
    let mut subjects = Vec::new(alloc);
    for place in places {
        let subject = subject_at(alloc, text, place)?;
        subjects.push(subject)?;
    }
    Ok(subjects)
}

// What the reply to an entry is about: its host, or if it has none the line at which it begins.
fn subject_at(alloc: Global, text: &[u8], place: &EntryText) -> Result<Subject, AllocError>
    requires { spec.IsPlace text.now place.now }
    ensures { IfOk result (λ subject. subject ≡ subject_at text.now place.now) }
{
    match entry_host(alloc, bytes_at(text, place))? {
        Some(host) => Ok(Subject::Site(host)),
        None => Ok(Subject::Entry(place.line)),
    }
}

// The bytes of the entry at a place.
fn bytes_at<'a>(text: &'a [u8], place: &EntryText) -> &'a [u8]
    requires { spec.IsPlace text.now place.now }
    ensures { result.now ≡ bytes_at text.now place.now }
{
    &text[place.start..place.end]
}
