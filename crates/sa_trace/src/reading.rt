// A whole trace text, read.
ghost use Rattle.sa_trace.specs.Reading.{read_of, IsReading};

use crate::line::Said;
use crate::reader::Reader;
use sa_base::{End, Trace, Unread};
use std::alloc::Global;

/// What a trace text tells: the items, how the run ended, and its number of events.
#[derive(Drop)]
pub struct TraceText {
    pub trace: Trace,
    pub end: End,
    pub events: u64,
}

/// The trace, end and number of events of which these bytes are the text.
///
/// `Bad` exactly where they are the text of none, with the first line that no text has after the lines
/// before it, and the first cause that applies to that line.
pub fn read(alloc: Global, bytes: &[u8]) -> Result<TraceText, Unread>
    ensures { IsReading (read_of bytes.now) result }
{
    let mut reader = Reader::new(bytes);
    let mut trace = Trace::new(alloc);
    loop {
        match reader.next() {
            Ok(Said::Next(item)) => {
                trace.reserve(1)?;
                trace.add(item);
            }
            Ok(Said::Last(end, events)) => return Ok(TraceText { trace, end, events }),
            Err(bad) => return Err(Unread::Bad(bad)),
        }
    }
}
