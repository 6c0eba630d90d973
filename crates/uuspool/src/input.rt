//! The input of a line, read whole before it is used.

ghost use Rattle.std.specs.Prelude.{◌≡◌, ◌≢◌, ◌⊎◌, Err, None, Some, IfOk, IfErr, OnOk};
ghost use Rattle.std.specs.Io.KnownBytes.{IsAtEnd};
ghost use Rattle.std.specs.IoError.{error_kind};
ghost use Rattle.uu_names.specs.Text.{most_text};
ghost use Rattle.uuspool.specs.Input.{IsWholeInput, IsTooLarge, IsWithinLimit};

use crate::fault::Fault;
use std::alloc::Global;
use std::io::{Error, ErrorKind, Read};
use uu_names::text::MAX_TEXT;

/// The most reads of the input.
pub const READ_LIMIT: u32 = 5_000_000;

const CHUNK: usize = 16_384;

/// All bytes of the reader, up to its end, as [`read_at_most`] with the limit of a line's input.
///
/// # Errors
/// `Input` exactly if more than `MAX_TEXT` bytes came. `Read` and `Memory` as of [`read_at_most`].
pub fn read_input<R: Read>(alloc: Global, reader: &mut R) -> Result<Vec<u8>, Fault>
    ensures whole { IfOk result (λ bytes. IsWholeInput most_text (R.remaining reader.old) bytes.items) }
    ensures end { OnOk result (IsAtEnd (R.remaining reader.new)) }
    ensures too_large { result ≡ Err Fault.Input → IsTooLarge most_text (R.remaining reader.old) (R.remaining reader.new) }
    ensures within { IfErr result (λ fault. fault ≢ Fault.Input → IsWithinLimit most_text (R.remaining reader.old) (R.remaining reader.new)) }
    ensures named { IfErr result (λ fault. (fault ≡ Fault.Input) ⊎ (fault ≡ Fault.Read) ⊎ (fault ≡ Fault.Memory)) }
{
    read_at_most(alloc, MAX_TEXT, reader)
}

/// All bytes of the reader, up to its end, at most so many. A read that a signal interrupts is
/// tried again, and counts as one.
///
/// # Errors
/// `Input` exactly if more than `most` bytes came. `Read` if a read fails or the reader has not
/// ended after `READ_LIMIT` reads. `Memory` if memory ran out, here or in the reader.
pub fn read_at_most<R: Read>(alloc: Global, most: usize, reader: &mut R) -> Result<Vec<u8>, Fault>
    ensures whole { IfOk result (λ bytes. IsWholeInput most (R.remaining reader.old) bytes.items) }
    ensures end { OnOk result (IsAtEnd (R.remaining reader.new)) }
    ensures too_large { result ≡ Err Fault.Input → IsTooLarge most (R.remaining reader.old) (R.remaining reader.new) }
    ensures within { IfErr result (λ fault. fault ≢ Fault.Input → IsWithinLimit most (R.remaining reader.old) (R.remaining reader.new)) }
    ensures named { IfErr result (λ fault. (fault ≡ Fault.Input) ⊎ (fault ≡ Fault.Read) ⊎ (fault ≡ Fault.Memory)) }
{
    let mut bytes = Vec::new(alloc);
    let mut chunk = [0u8; CHUNK];
    for _ in 0..READ_LIMIT {
        match reader.read(&mut chunk) {
            Ok(0) => return Ok(bytes),
            Ok(count) => {
                if count > most - bytes.len() {
                    return Err(Fault::Input);
                }
                if bytes.extend_from_slice(&chunk[..count]).is_err() {
                    return Err(Fault::Memory);
                }
            }
            Err(error) => {
                if let Some(fault) = fault_of(&error) {
                    return Err(fault);
                }
            }
        }
    }
    Err(Fault::Read)
}

// The fault for a read that failed. An interrupted read isn't a fault.
fn fault_of(error: &Error) -> Option<Fault>
    ensures interrupted { error_kind error.now ≡ ErrorKind.Interrupted → result ≡ None }
    ensures memory { error_kind error.now ≡ ErrorKind.OutOfMemory → result ≡ Some Fault.Memory }
    ensures read { error_kind error.now ≢ ErrorKind.Interrupted → error_kind error.now ≢ ErrorKind.OutOfMemory → result ≡ Some Fault.Read }
{
    match error.kind() {
        ErrorKind::Interrupted => None,
        ErrorKind::OutOfMemory => Some(Fault::Memory),
        _ => Some(Fault::Read),
    }
}
