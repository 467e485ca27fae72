// Records and lines, appended to a text of any length. Each is printed first where it is sure to fit.
ghost use Rattle.std.specs.Prelude.{◌≡◌, ◌++◌, OnOk};
ghost use Rattle.sa_trace.specs.TraceText.{record_text, item_text, line_of};

use crate::fields::{LineBuffer, push_record};
use crate::printing::push_item;
use sa_base::{Item, Record};
use std::alloc::AllocError;

/// Appends a record as the trace text has it: the word of its kind, and its fields.
pub fn append_record(out: &mut Vec<u8>, what: &Record) -> Result<(), AllocError>
    ensures { OnOk result (out.new.items ≡ out.old.items ++ record_text what.now) }
{
    let mut line = LineBuffer::new();
    push_record(&mut line, what);
    let (_space, record) = line.as_slice().split_at(1);
    out.extend_from_slice(record)
}

/// Appends the line of an item without its end.
pub fn append_item(out: &mut Vec<u8>, item: &Item) -> Result<(), AllocError>
    ensures { OnOk result (out.new.items ≡ out.old.items ++ item_text item.now) }
{
    let mut line = LineBuffer::new();
    push_item(&mut line, item);
    out.extend_from_slice(line.as_slice())
}

/// Appends the line of an item.
pub fn append_line(out: &mut Vec<u8>, item: &Item) -> Result<(), AllocError>
    ensures { OnOk result (out.new.items ≡ out.old.items ++ line_of item.now) }
{
    append_item(out, item)?;
    out.extend_from_slice(b"\n")
}
