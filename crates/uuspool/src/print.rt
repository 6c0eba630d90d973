//! Printing to a writer.

ghost use Rattle.std.specs.Prelude.{◌≡◌, ◌⊎◌, IfOk, IfErr, OnOk, IsOkAnd, []};
ghost use Rattle.std.specs.Io.KnownBytes.{Appends};
ghost use Rattle.uu_frame.specs.Writing.{IsCut};

use crate::fault::Fault;
use std::alloc::AllocError;
use std::io::Write;
use uu_frame::{FrameFault, write_whole};

/// Prints an output, if there was memory to make it, and returns this status.
///
/// # Errors
/// `Memory` if there was none, or the writer had none for the output; then nothing is written.
/// `Write` if less than the output was written.
pub(crate) fn print<W: Write>(
    output: Result<Vec<u8>, AllocError>,
    status: u8,
    out: &mut W,
) -> Result<u8, Fault>
    ensures printed { OnOk result (IsOkAnd output (λ output. Appends (W.contents out.old) (W.contents out.new) output.items)) }
    ensures status { IfOk result (λ answered. answered ≡ status) }
    ensures fault { IfErr result (λ fault. (fault ≡ Fault.Write) ⊎ (fault ≡ Fault.Memory)) }
    ensures cut { result ≡ Err Fault.Write → IsOkAnd output (λ output. IsCut output.items (Appends (W.contents out.old) (W.contents out.new))) }
    ensures nothing { result ≡ Err Fault.Memory → Appends (W.contents out.old) (W.contents out.new) [] }
{
    match output {
        Ok(output) => match write_whole(&output, out) {
            Ok(()) => Ok(status),
            Err(FrameFault::Memory) => Err(Fault::Memory),
            Err(_) => Err(Fault::Write),
        },
        Err(_) => Err(Fault::Memory),
    }
}
