//! The job that a message is.

ghost use Rattle.std.specs.Prelude.{◌≡◌, Ok, Err, IfOk, MatchResult, codes};
ghost use Rattle.uu_names.specs.Envelope.{envelope_of};
ghost use Rattle.uu_times.specs.Moment.{IsDateTimeAt, local_second};
ghost use Rattle.uu_core.specs.declared.job.Kind.TheVariants as kind;
ghost use Rattle.uu_request.specs.Requests.{AnswersUnlessMemory};
ghost use Rattle.uu_request.specs.Requests as spec;

use crate::fault::RequestFault;
use crate::request::{Request, queue};
use std::alloc::Global;
use uu_core::{Key, Kind};
use uu_names::{Grade, Listed, NameFault, SiteName, Word, envelope};
use uu_settings::Settings;
use uu_times::Moment;
use uu_times::laws::zones_are_what_they_say;

/// A message to a system, which will run `rmail` with these arguments. Its envelope is handed in
/// now.
pub(crate) fn mail(
    alloc: Global,
    key: Option<Key>,
    user: Word,
    system: SiteName,
    grade: Grade,
    rests: Listed<Word>,
    message: &[u8],
    at: Moment,
    settings: &Settings,
) -> Result<Request, RequestFault>
    requires { IsDateTimeAt at.local (local_second settings.now.zone at.second) }
    ensures { AnswersUnlessMemory result (Ok (spec.mail settings.now key user at system grade rests message.now)) }
{
    let envelope = with_envelope(alloc, &user, &at, settings, message);
    queue_mail(alloc, key, user, system, grade, rests, envelope, at)
}

// The system will run `rmail` with these arguments, and the envelope as its input.
fn queue_mail(
    alloc: Global,
    key: Option<Key>,
    user: Word,
    system: SiteName,
    grade: Grade,
    rests: Listed<Word>,
    envelope: Result<Vec<u8>, NameFault>,
    at: Moment,
) -> Result<Request, RequestFault>
    ensures { MatchResult envelope
        (λ envelope. AnswersUnlessMemory result (Ok (spec.queue key user at system grade (kind.Execute (codes "rmail") rests) envelope.items)))
        (λ fault. result ≡ Err RequestFault.Memory) }
{
    match (envelope, Word::parse(alloc, "rmail")) {
        (Ok(envelope), Ok(command)) => {
            let kind = Kind::Execute {
                command,
                arguments: rests,
            };
            queue(alloc, key, user, system, grade, kind, envelope, at)
        }
        _ => Err(RequestFault::Memory),
    }
}

/// The message with its envelope. The date and time are the local time of the moment.
pub(crate) fn with_envelope(
    alloc: Global,
    user: &Word,
    at: &Moment,
    settings: &Settings,
    message: &[u8],
) -> Result<Vec<u8>, NameFault>
    requires { IsDateTimeAt at.now.local (local_second settings.now.zone at.now.second) }
    ensures { IfOk result (λ bytes. bytes.items ≡ envelope_of user.now at.now.local settings.now.name message.now) }
{
    zones_are_what_they_say();
    envelope(alloc, user, &at.local, &settings.name, message)
}
