//! Requests in a stream.
ghost use Rattle.std.specs.Prelude.{◌≡◌, ◌≤◌, IfOk, IfErr, IfSome, Ok, None, length, map, string_bytes};
ghost use Rattle.std.specs.Io.KnownBytes.{Consumes, IsAtEnd};
ghost use Rattle.uu_frame.specs.Frames.{IsCause, IsHead, request_frame};

use crate::fault::FrameFault;
use crate::head::head_of;
use crate::reading::{read_bytes, read_line};
use std::alloc::Global;
use std::io::BufRead;

/// A request: words, and an input.
#[derive(Drop)]
pub struct Frame {
    /// The words.
    pub words: Vec<String>,
    /// The input, which may be empty.
    pub input: Vec<u8>,
}

/// The next request of the stream, or `None` at the end of the stream. Its input has at most
/// `limit` bytes.
///
/// # Errors
/// `NoRequest` if the next line isn't that of a request, or has more than `MAX_LINE` bytes; then it
/// isn't read to its end. `TooLarge` if it is the line of a request whose input has more than
/// `limit` bytes. `Read` if the bytes can't be read or end within a request. `Memory`.
pub fn read_request<R: BufRead>(
    alloc: Global,
    limit: usize,
    reader: &mut R,
) -> Result<Option<Frame>, FrameFault>
    ensures request { IfOk result (λ next. IfSome next (λ request.
        Consumes (R.remaining reader.old) (R.remaining reader.new) (request_frame (map string_bytes request.words.items) request.input.items))) }
    ensures head { IfOk result (λ next. IfSome next (λ request. IsHead (length request.input.items) (map string_bytes request.words.items))) }
    ensures limit { IfOk result (λ next. IfSome next (λ request. length request.input.items ≤ limit)) }
    ensures end { result ≡ Ok None → IsAtEnd (R.remaining reader.old) }
    ensures cause { IfErr result (IsCause limit (R.remaining reader.old) (R.remaining reader.new)) }
{
    let line = match read_line(alloc, reader) {
        Ok(Some(line)) => line,
        Ok(None) => return Ok(None),
        Err(fault) => return Err(fault),
    };
    let head = match head_of(alloc, &line) {
        Ok(Some(head)) => head,
        Ok(None) => return Err(FrameFault::NoRequest),
        Err(_) => return Err(FrameFault::Memory),
    };
    if head.count as usize > limit {
        return Err(FrameFault::TooLarge);
    }
    match read_bytes(alloc, head.count, reader) {
        Ok(input) => Ok(Some(Frame {
            words: head.words,
            input,
        })),
        Err(fault) => Err(fault),
    }
}
