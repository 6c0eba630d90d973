//! Many requests in one process, over standard input and output.
ghost use Rattle.uuspool_main.specs.Stretch.{IsOfLines, WasGiven};

use sqlite::Alter;
use std::io;
use std::io::{BufReader, BufWriter};
use uu_store::Spool;
use uuspool::laws::lines_are_one_run;
use uuspool::{Clock, Fault, Settings, batch};

/// How many bytes of the stream are read and written at once.
const CHUNK: usize = 65_536;

/// The system's clock.
#[derive(Drop)]
struct SystemClock<'a> {
    rt: &'a HostRuntime,
}

impl Clock for SystemClock<'_> {
    fn second(&mut self) -> Option<u64> {
        crate::given::second_of_clock(self.rt).ok()
    }
}

/// Answers the requests on standard input over the spool.
pub(crate) fn batch_on<S: Alter>(
    rt: &HostRuntime,
    settings: &Settings,
    spool: &mut Spool<S>,
) -> Result<u8, Fault>
    ensures { WasGiven spool.old spool.new (IsOfLines settings.now spool.old spool.new result) }
{
    lines_are_one_run::<S>();
    let Ok(mut reader) = BufReader::with_capacity(rt.alloc(), CHUNK, rt.reader()) else {
        return Err(Fault::Memory);
    };
    let Ok(mut out) = BufWriter::with_capacity(rt.alloc(), CHUNK, io::writer(rt)) else {
        return Err(Fault::Memory);
    };
    let mut clock = SystemClock { rt };
    batch(
        rt.alloc(),
        settings,
        &mut clock,
        &mut reader,
        spool,
        &mut out,
    )
}
