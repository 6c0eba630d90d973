// The frames of a log, and which of them are of a page beyond a limit.
ghost use Rattle.std.specs.Prelude.{◌≡◌, ◌↔◌, false, IsErr, IsSomeAnd, IsTrue};
ghost use Rattle.sqlite_disk.specs.Disk.{CountsFault};
ghost use Rattle.sqlite_disk.specs.Refusal.{finds_no_room};
ghost use Rattle.uu_files.specs.Room.{HasPageBeyond, IsPageBeyond, IsWayToFrame};

use crate::room::PAGE;
use std::io;

/// The bytes of a log before its frames.
const HEADER: usize = 32;

/// The bytes of a frame: its page, and 24 before that, which begin with the page's number.
const FRAME: usize = 24 + PAGE;

// Passes if no frame in these bytes, which are for this place of a log, is of a page beyond the limit.
pub(crate) fn admit(
    most: Option<usize>,
    refused: &mut u64,
    at: usize,
    bytes: &[u8],
) -> io::Result<()>
    ensures faults { CountsFault result refused.old refused.new }
    ensures kind { finds_no_room result ≡ false }
    ensures refused { IsErr result ↔ IsSomeAnd most (λ last. HasPageBeyond last at bytes.now) }
{
    let Some(last) = most else {
        return Ok(());
    };
    if !has_page_beyond(last, at, bytes) {
        return Ok(());
    }
    *refused = refused.saturating_add(1);
    Err(io::Error::other("the spool has reached its limit"))
}

// Whether one of the frames that begin in these bytes, which are for this place of a log, is of a
// page beyond the last one.
fn has_page_beyond(last: usize, at: usize, bytes: &[u8]) -> bool
    ensures { IsTrue result ↔ HasPageBeyond last at bytes.now }
{
    let end = bytes.len();
    let mut place = way_to_frame(at);
    while place < end {
        if is_page_beyond(last, &bytes[place..]) {
            return true;
        }
        if end - place <= FRAME {
            return false;
        }
        place += FRAME;
    }
    false
}

// The bytes from this place of a log to the next frame.
#[tactic(auto, using(crate::proofs::Frames::frame_is_here, crate::proofs::Frames::frame_comes))]
fn way_to_frame(at: usize) -> usize
    ensures { IsWayToFrame at result }
{
    if at <= HEADER {
        return HEADER - at;
    }
    let gone = (at - HEADER) % FRAME;
    if gone == 0 { 0 } else { FRAME - gone }
}

// Whether a frame, which begins with these bytes, is of a page beyond the last one.
fn is_page_beyond(last: usize, frame: &[u8]) -> bool
    ensures { IsTrue result ↔ IsPageBeyond last frame.now }
{
    match frame.first_chunk::<4>() {
        Some(number) => u32::from_be_bytes(*number) as usize > last,
        None => false,
    }
}
