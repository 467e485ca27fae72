// The writing loops: each text goes out in pieces.
ghost use Rattle.std.specs.Prelude.{◌≤◌, ◌++◌, OnOk, OnErr};
ghost use Rattle.std.specs.Io.KnownBytes.{Appends};
ghost use Rattle.std.specs.List.{flat_map};
ghost use Rattle.sa_io.specs.Faults.{HasRisen, AppendsPrefix};
ghost use Rattle.sa_io.specs.Pieces.{GoesOut};
ghost use Rattle.sa_trace.specs.TraceText.{line_of, last_line_of, trace_text};

use sa_base::{End, Item};
use sa_io::{Failed, PieceWriter, Sink};
use sa_trace::{LineBuffer, print_last_line, print_lines};

/// Writes the trace text of these items, this end and this number of events. It takes no memory.
pub(crate) fn write_run<K: Sink>(
    sink: &mut K,
    items: &[Item],
    end: End,
    events: u64,
) -> Result<(), Failed>
    ensures ok { OnOk result
        (Appends (K.taken sink.old) (K.taken sink.new) (trace_text items.now end events)) }
    ensures err { OnErr result
        (AppendsPrefix (K.taken sink.old) (K.taken sink.new) (trace_text items.now end events)) }
    ensures fault { OnErr result (HasRisen (K.faults sink.old) (K.faults sink.new)) }
    ensures counted { K.faults sink.old ≤ K.faults sink.new }
{
    let mut pieces = PieceWriter::new();
    put_run(&mut pieces, sink, items, end, events)?;
    pieces.end(sink)
}

/// Writes the last line alone of the trace text of these items, this end and this number of events. It takes no memory.
pub(crate) fn write_end<K: Sink>(
    sink: &mut K,
    items: &[Item],
    end: End,
    events: u64,
) -> Result<(), Failed>
    ensures ok { OnOk result
        (Appends (K.taken sink.old) (K.taken sink.new) (last_line_of items.now end events)) }
    ensures err { OnErr result
        (AppendsPrefix (K.taken sink.old) (K.taken sink.new) (last_line_of items.now end events)) }
    ensures fault { OnErr result (HasRisen (K.faults sink.old) (K.faults sink.new)) }
    ensures counted { K.faults sink.old ≤ K.faults sink.new }
{
    let mut lines = LineBuffer::new();
    print_last_line(items, end, events, &mut lines);
    sink.write(lines.as_slice())
}

/// Puts the trace text of these items, this end and this number of events.
pub(crate) fn put_run<K: Sink>(
    pieces: &mut PieceWriter,
    sink: &mut K,
    items: &[Item],
    end: End,
    events: u64,
) -> Result<(), Failed>
    ensures ok { OnOk result (GoesOut (K.taken sink.old) (K.taken sink.new)
        pieces.old (trace_text items.now end events) pieces.new) }
    ensures err { OnErr result (AppendsPrefix (K.taken sink.old) (K.taken sink.new)
        (pieces.old ++ trace_text items.now end events)) }
    ensures fault { OnErr result (HasRisen (K.faults sink.old) (K.faults sink.new)) }
    ensures counted { K.faults sink.old ≤ K.faults sink.new }
{
    put_lines(pieces, sink, items)?;
    let mut lines = LineBuffer::new();
    print_last_line(items, end, events, &mut lines);
    pieces.put(sink, lines.as_slice())
}

// Puts the lines of these items.
fn put_lines<K: Sink>(pieces: &mut PieceWriter, sink: &mut K, items: &[Item]) -> Result<(), Failed>
    ensures ok { OnOk result (GoesOut (K.taken sink.old) (K.taken sink.new)
        pieces.old (flat_map line_of items.now) pieces.new) }
    ensures err { OnErr result (AppendsPrefix (K.taken sink.old) (K.taken sink.new)
        (pieces.old ++ flat_map line_of items.now)) }
    ensures fault { OnErr result (HasRisen (K.faults sink.old) (K.faults sink.new)) }
    ensures counted { K.faults sink.old ≤ K.faults sink.new }
{
    let mut rest = items;
    let mut lines = LineBuffer::new();
    while !rest.is_empty() {
        lines.clear();
        let count = print_lines(rest, &mut lines);
        pieces.put(sink, lines.as_slice())?;
        (_, rest) = rest.split_at(count);
    }
    Ok(())
}
