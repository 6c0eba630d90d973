//! Answers in a stream.
ghost use Rattle.std.specs.Prelude.{◌≡◌, ◌⊎◌, [], Err, IfErr, OnOk};
ghost use Rattle.std.specs.Io.KnownBytes.{Appends};
ghost use Rattle.uu_frame.specs.Frames.{answer_frame};
ghost use Rattle.uu_frame.specs.Writing.{IsBegun};

use crate::fault::FrameFault;
use crate::writing::{write_behind, write_whole};
use std::alloc::Global;
use std::io::Write;

/// Writes an answer, with its output and its errors apart, and flushes it.
///
/// # Errors
/// `Write` if only a beginning of the answer was written, or all of it but not flushed. `Memory` if
/// nothing was written because memory ran out, here or in the writer.
pub fn write_answer<W: Write>(
    alloc: Global,
    status: u8,
    output: &[u8],
    errors: &[u8],
    out: &mut W,
) -> Result<(), FrameFault>
    ensures answer { OnOk result (Appends (W.contents out.old) (W.contents out.new) (answer_frame status output.now errors.now)) }
    ensures named { IfErr result (λ fault. (fault ≡ FrameFault.Write) ⊎ (fault ≡ FrameFault.Memory)) }
    ensures begun { result ≡ Err FrameFault.Write → IsBegun (answer_frame status output.now errors.now) (Appends (W.contents out.old) (W.contents out.new)) }
    ensures nothing { result ≡ Err FrameFault.Memory → Appends (W.contents out.old) (W.contents out.new) [] }
{
    let output_count = output.len();
    let error_count = errors.len();
    let Ok(line) = format!(in alloc; "{status} {output_count} {error_count}\n") else {
        return Err(FrameFault::Memory);
    };
    if let Err(fault) = write_whole(line.as_bytes(), out) {
        return Err(fault);
    }
    if let Err(fault) = write_behind(output, out) {
        return Err(fault);
    }
    if let Err(fault) = write_behind(errors, out) {
        return Err(fault);
    }
    match out.flush() {
        Ok(()) => Ok(()),
        Err(_) => Err(FrameFault::Write),
    }
}
