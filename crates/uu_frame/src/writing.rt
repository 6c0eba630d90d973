//! Writing to a stream.
ghost use Rattle.std.specs.Prelude.{◌≡◌, ◌⊎◌, [], Err, IfErr, MatchResult};
ghost use Rattle.std.specs.Io.KnownBytes.{Appends};
ghost use Rattle.uu_frame.specs.Writing.{IsCut};

use crate::fault::FrameFault;
use std::io::{ErrorKind, Write};

/// Writes all bytes, as `write_all` does. `write_all` doesn't say what it wrote when it fails; this
/// says it.
///
/// # Errors
/// `Write` if less than the bytes was written. `Memory` if the writer had no memory for the first
/// of them; then nothing was written.
pub fn write_whole<W: Write>(bytes: &[u8], out: &mut W) -> Result<(), FrameFault>
    ensures fault { IfErr result (λ fault. (fault ≡ FrameFault.Write) ⊎ (fault ≡ FrameFault.Memory)) }
    ensures bytes { MatchResult result (λ _. Appends (W.contents out.old) (W.contents out.new) bytes.now) (λ _. IsCut bytes.now (Appends (W.contents out.old) (W.contents out.new))) }
    ensures nothing { result ≡ Err FrameFault.Memory → Appends (W.contents out.old) (W.contents out.new) [] }
{
    let mut rest = bytes;
    for _ in 0..u64::MAX {
        if rest.is_empty() {
            return Ok(());
        }
        match out.write(rest) {
            Ok(0) => return Err(FrameFault::Write),
            Ok(count) => rest = &rest[count..],
            Err(error) => match error.kind() {
                ErrorKind::Interrupted => {}
                ErrorKind::OutOfMemory if rest.len() == bytes.len() => {
                    return Err(FrameFault::Memory);
                }
                _ => return Err(FrameFault::Write),
            },
        }
    }
    if rest.is_empty() {
        Ok(())
    } else {
        Err(FrameFault::Write)
    }
}

/// Writes all bytes of a text after its beginning, which was written. If the writer runs out of
/// memory, the text is cut, too.
///
/// # Errors
/// `Write` if less than the bytes was written.
pub(crate) fn write_behind<W: Write>(bytes: &[u8], out: &mut W) -> Result<(), FrameFault>
    ensures fault { IfErr result (λ fault. fault ≡ FrameFault.Write) }
    ensures bytes { MatchResult result (λ _. Appends (W.contents out.old) (W.contents out.new) bytes.now) (λ _. IsCut bytes.now (Appends (W.contents out.old) (W.contents out.new))) }
{
    match write_whole(bytes, out) {
        Ok(()) => Ok(()),
        Err(_) => Err(FrameFault::Write),
    }
}
