//! The commands of a sys file.

ghost use Rattle.std.specs.Prelude.{◌≡◌, ◌≤◌, Ok, IfOk, length, map};
ghost use Rattle.uu_names.specs.Text.{most_text};
ghost use Rattle.uu_core.specs.declared.command.Command.TheVariants as command;
ghost use Rattle.uu_core.specs.declared.subject.Subject.TheVariants as subject;
ghost use Rattle.uu_times.specs.SysFile.{sys_file_of};
ghost use Rattle.uu_request.specs.Requests.{AnswersUnlessMemory, load_request};
ghost use Rattle.uu_request.specs.Requests as spec;

use crate::fault::RequestFault;
use crate::request::{CommandList, Request};
use std::alloc::{AllocError, Global};
use uu_core::{Command, Subject};
use uu_names::Listed;
use uu_times::{SysFile, SystemDef, TimeFault, read_sys};

/// The definitions of the systems of a sys file, in the order of the text.
pub(crate) fn load(alloc: Global, input: &[u8]) -> Result<Request, RequestFault>
    requires { length input.now ≤ most_text }
    ensures { AnswersUnlessMemory result (load_request (sys_file_of input.now)) }
{
    match read_sys(alloc, input) {
        Ok(file) => definitions(alloc, file),
        Err(TimeFault::Memory) => Err(RequestFault::Memory),
        Err(fault) => Err(RequestFault::Time(fault)),
    }
}

// The definitions of these systems.
fn definitions(alloc: Global, file: SysFile) -> Result<Request, RequestFault>
    ensures { AnswersUnlessMemory result (Ok (spec.load file)) }
{
    let subjects = names_of(alloc, file.systems.as_slice())?;
    let commands = file
        .systems
        .into_vec()
        .into_iter()
        .map(|system| Command::Define(system))
        .collect(alloc)?;
    Ok(Request::Commands(CommandList {
        commands: Listed::from_vec(commands),
        subjects: Listed::from_vec(subjects),
        skipped: Listed::from_vec(file.skipped.into_vec()),
    }))
}

// Each system's reply is about its name.
fn names_of(alloc: Global, systems: &[SystemDef]) -> Result<Vec<Subject>, AllocError>
    ensures { IfOk result (λ subjects. subjects.items ≡ map (λ system. subject.Site system.name) systems.now) }
{
    let mut subjects = Vec::new(alloc);
    for system in systems {
        let name = system.name.clone()?;
        subjects.push(Subject::Site(name))?;
    }
    Ok(subjects)
}
