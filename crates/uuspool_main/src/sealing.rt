//! Bundles of neighbours with keys: what such a neighbour says is opened before it is read, and
//! what is said to it is sealed.

ghost use Rattle.std.specs.Prelude.{◌≡◌, IfOk, None};
ghost use Rattle.uuspool_main.specs.Sealing.{IsGivenOf, IsPrintedOf};

use crate::trouble::Trouble;
use std::alloc::{AllocError, Global};
use uu_keys::keys_for;
use uu_names::text::MAX_TEXT;
use uu_names::{Listed, SiteName};
use uu_request::neighbour_of;
use uu_seal::{Key, MAX_SEALED, SealFault, open, seal};
use uuspool::{Fault, Settings, Task};

/// How the bundles of a line are sealed: the one that it reads, and the one that it prints.
#[derive(Drop)]
pub(crate) struct Sealing {
    /// The keys with which the input is opened, if it is sealed.
    pub opens: Option<Listed<Key>>,
    /// The key with which the answer is sealed, if it is a bundle.
    pub seals: Option<Key>,
}

/// Bundles that aren't sealed.
pub(crate) fn plain() -> Sealing {
    Sealing {
        opens: None,
        seals: None,
    }
}

/// The folder of keys, which leaves the settings: they are now those of a line whose bundles were
/// opened. (With settings that name the folder each exchange of bundles is refused.)
pub(crate) fn take_seals(settings: Settings) -> (Settings, Option<String>)
    ensures { result.0.seals ≡ None }
{
    let Settings {
        name,
        zone,
        spool,
        admins,
        seals,
        limit,
    } = settings;
    let opened = Settings {
        name,
        zone,
        spool,
        admins,
        seals: None,
        limit,
    };
    (opened, seals)
}

/// How the bundles of a task are sealed, by the keys in a folder. This follows from the task's
/// neighbour, never from the text.
pub(crate) fn sealing_for(
    rt: &HostRuntime,
    settings: &Settings,
    folder: &Option<String>,
    task: &Task,
) -> Result<Sealing, Trouble> {
    let (Some(folder), Some(name)) = (folder, neighbour_of(task)) else {
        return Ok(plain());
    };
    if name.as_str() == settings.name.as_str() {
        return Ok(plain());
    }
    match keys_for(rt, folder.as_str(), name)? {
        Some(keys) => {
            let seals = if says_bundle(task) {
                Some(keys.as_slice()[0])
            } else {
                None
            };
            Ok(Sealing {
                opens: Some(keys),
                seals,
            })
        }
        None => Ok(plain()),
    }
}

// Whether the answer to a task is a bundle.
fn says_bundle(task: &Task) -> bool {
    matches!(task, Task::Pack { .. } | Task::Answer { .. })
}

impl Sealing {
    /// The most bytes of an input.
    pub(crate) fn most_input(&self) -> usize {
        if self.opens.is_some() {
            MAX_SEALED
        } else {
            MAX_TEXT
        }
    }

    /// What is given to the line of an input that was read.
    pub(crate) fn opened(
        &self,
        alloc: Global,
        task: &Task,
        input: Vec<u8>,
    ) -> Result<Vec<u8>, Trouble>
        ensures { IfOk result (λ given. IsGivenOf self.now.opens input.items given.items) }
    {
        let Some(keys) = &self.opens else {
            return Ok(input);
        };
        match open(alloc, keys.as_slice(), &input) {
            Ok(given) => Ok(given),
            Err(fault) => Err(unopened(alloc, task, fault)?),
        }
    }

    /// What is printed of an answer.
    pub(crate) fn sealed(&self, alloc: Global, answer: Vec<u8>) -> Result<Vec<u8>, AllocError>
        ensures { IfOk result (λ printed. IsPrintedOf self.now.seals answer.items printed.items) }
    {
        match &self.seals {
            Some(key) => seal(alloc, key, &answer),
            None => Ok(answer),
        }
    }
}

// Why the bundle of a task's neighbour isn't opened.
fn unopened(alloc: Global, task: &Task, fault: SealFault) -> Result<Trouble, AllocError> {
    if fault == SealFault::Memory {
        return Ok(Trouble::Line(Fault::Memory));
    }
    let neighbour = match neighbour_of(task) {
        Some(name) => String::from_str(alloc, name.as_str())?,
        None => String::new(alloc),
    };
    Ok(Trouble::Unopened { neighbour, fault })
}
