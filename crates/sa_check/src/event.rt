// The events of a trace, gathered from what its lines say.
ghost use Rattle.std.specs.Prelude.{◌≡◌, ◌<◌, length, OnOk};
ghost use Rattle.sa_trace.specs.Reader.{left};
ghost use Rattle.sa_check.specs.Items.{is_with};
ghost use Rattle.sa_check.specs.Gathered.{Gathers};

use sa_base::{Item, ProcNo, Record, Unread};
use sa_trace::{Reader, Said};

/// An event of a trace: its number, its processor, and its records in order.
#[derive(Clone, Copy)]
pub struct TraceEvent<'a> {
    pub number: u64,
    pub proc: ProcNo,
    pub records: &'a [Record],
}

/// Reads on to the first line that tells no record of the event that begins with this item, which it returns; the records
/// of the event come in the place of these. `Bad` exactly where a line on the way is bad.
pub(crate) fn gather(
    reader: &mut Reader,
    first: &Item,
    records: &mut Vec<Record>,
) -> Result<Said, Unread>
    ensures gathers { Gathers first.now (left reader.old) (left reader.new) records.new.items result }
    ensures fewer { OnOk result (length reader.new.lines < length reader.old.lines) }
{
    records.clear();
    records.push(first.what)?;
    loop {
        match reader.next() {
            Ok(Said::Next(item)) if is_with(first, &item) => records.push(item.what)?,
            Ok(said) => return Ok(said),
            Err(bad) => return Err(Unread::Bad(bad)),
        }
    }
}

/// The items are of one event.
pub fn is_with(first: &Item, item: &Item) -> bool
    ensures { result ≡ is_with first.now item.now }
{
    first.event == item.event && first.proc.0 == item.proc.0
}
