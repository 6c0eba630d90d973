//! Reading from a stream: a line within its limit, or a number of bytes.
ghost use Rattle.std.specs.Prelude.{◌≡◌, ◌≢◌, ◌⊎◌, ◌≤◌, ◌++◌, ◌∷◌, ℕ, [], All, IfOk, IfErr, IfSome, IsSome, MatchResult, Ok, None, length};
ghost use Rattle.std.specs.Io.KnownBytes.{Consumes, IsAtEnd};
ghost use Rattle.std.specs.IoError.{error_kind};
ghost use Rattle.uu_frame.specs.Frames.{IsCause, most_line};

use crate::fault::FrameFault;
use std::alloc::Global;
use std::io::{BufRead, Error, ErrorKind};

/// The most bytes of a request's line, without its end. The words of a line, at their limits, need
/// less than a third.
pub const MAX_LINE: usize = 65_536;

// The next line without its end, or `None` at the end of the stream. It is read byte by byte, so
// that no more is taken than a line may have.
pub(crate) fn read_line<R: BufRead>(
    alloc: Global,
    reader: &mut R,
) -> Result<Option<Vec<u8>>, FrameFault>
    ensures line { IfOk result (λ next. IfSome next (λ line.
        Consumes (R.remaining reader.old) (R.remaining reader.new) (line.items ++ 10 ∷ []))) }
    ensures bare { IfOk result (λ next. IfSome next (λ line. All (λ byte. byte ≢ 10) line.items)) }
    ensures short { IfOk result (λ next. IfSome next (λ line. length line.items ≤ most_line)) }
    ensures end { result ≡ Ok None → IsAtEnd (R.remaining reader.old) }
    ensures cause { IfErr result (λ fault. (limit : ℕ) → IsCause limit (R.remaining reader.old) (R.remaining reader.new) fault) }
{
    let mut line = Vec::new(alloc);
    while line.len() <= MAX_LINE {
        match next_byte(reader) {
            Ok(Some(b'\n')) => return Ok(Some(line)),
            Ok(Some(byte)) => line.push(byte)?,
            Ok(None) if line.is_empty() => return Ok(None),
            Ok(None) => return Err(FrameFault::Read),
            Err(fault) => return Err(fault),
        }
    }
    Err(FrameFault::NoRequest)
}

// The next byte, or `None` at the end of the stream. A read that a signal interrupts is tried
// again.
fn next_byte<R: BufRead>(reader: &mut R) -> Result<Option<u8>, FrameFault>
    ensures byte { IfOk result (λ next. IfSome next (λ byte. Consumes (R.remaining reader.old) (R.remaining reader.new) (byte ∷ []))) }
    ensures end { result ≡ Ok None → IsAtEnd (R.remaining reader.old) }
    ensures kept { MatchResult result (λ next. IsSome next ⊎ Consumes (R.remaining reader.old) (R.remaining reader.new) []) (λ _. Consumes (R.remaining reader.old) (R.remaining reader.new) []) }
    ensures named { IfErr result (λ fault. (fault ≡ FrameFault.Read) ⊎ (fault ≡ FrameFault.Memory)) }
{
    let mut byte = [0u8; 1];
    for _ in 0..u64::MAX {
        match reader.read(&mut byte) {
            Ok(0) => return Ok(None),
            Ok(_) => return Ok(Some(byte[0])),
            Err(error) if error.kind() == ErrorKind::Interrupted => {}
            Err(error) => return Err(fault_of(&error)),
        }
    }
    Err(FrameFault::Read)
}

// The next bytes of the stream, so many.
pub(crate) fn read_bytes<R: BufRead>(
    alloc: Global,
    count: u32,
    reader: &mut R,
) -> Result<Vec<u8>, FrameFault>
    ensures length { IfOk result (λ input. length input.items ≡ count) }
    ensures bytes { IfOk result (λ input. Consumes (R.remaining reader.old) (R.remaining reader.new) input.items) }
    ensures named { IfErr result (λ fault. (fault ≡ FrameFault.Read) ⊎ (fault ≡ FrameFault.Memory)) }
{
    let Ok(mut input) = vec![in alloc; 0u8; count as usize] else {
        return Err(FrameFault::Memory);
    };
    match reader.read_exact(&mut input) {
        Ok(()) => Ok(input),
        Err(error) => Err(fault_of(&error)),
    }
}

// The fault for a reader's error: out of memory is a fault of its own.
fn fault_of(error: &Error) -> FrameFault
    ensures memory { error_kind error.now ≡ ErrorKind.OutOfMemory → result ≡ FrameFault.Memory }
    ensures read { error_kind error.now ≢ ErrorKind.OutOfMemory → result ≡ FrameFault.Read }
    ensures named { (result ≡ FrameFault.Read) ⊎ (result ≡ FrameFault.Memory) }
{
    match error.kind() {
        ErrorKind::OutOfMemory => FrameFault::Memory,
        _ => FrameFault::Read,
    }
}
