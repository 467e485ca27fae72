// A trace text, some lines at once.
ghost use Rattle.std.specs.Prelude.{◌≡◌, ◌≢◌, ◌+◌, ◌*◌, ◌≤◌, ◌++◌, [], length, take};
ghost use Rattle.std.specs.List.{flat_map};
ghost use Rattle.arrayvec.specs.ArrayVec.{array_vec_len};
ghost use Rattle.sa_trace.specs.TraceText.{counts_text, item_text, line_of, last_line_of, end_word};
ghost use Rattle.sa_trace.specs.declared.fields.TheConstants.{LINES};

use crate::counts::kind_counts;
use crate::fields::{
    FIELD, LineBuffer, NUMBER, RECORD, push_decimal, push_number, push_record, put,
};
use sa_base::{End, Item};

// The bytes of an item at most, and of its line.
const ITEM: usize = NUMBER + FIELD + RECORD;

const LINE: usize = ITEM + 1;

/// Prints the lines of the first of these items where no text is, as many as are sure to fit. Answers how many: of any items
/// at least one.
pub fn print_lines(items: &[Item], out: &mut LineBuffer) -> usize
    requires { out.old.items ≡ [] }
    ensures text { out.new.items ≡ flat_map line_of (take result items.now) }
    ensures within { result ≤ length items.now }
    ensures some { items.now ≢ [] → 1 ≤ result }
{
    for (i, item) in items.iter().enumerate() {
        if out.remaining_capacity() < LINE {
            return i;
        }
        push_line(out, item);
    }
    items.len()
}

// Appends the line of an item.
fn push_line(out: &mut LineBuffer, item: &Item)
    requires { array_vec_len out.old + LINE ≤ LINES }
    ensures text { out.new.items ≡ out.old.items ++ line_of item.now }
    ensures len { array_vec_len out.new ≤ array_vec_len out.old + LINE }
{
    push_item(out, item);
    put(out, b"\n");
}

/// Appends the line of an item without its end.
#[inline]
pub(crate) fn push_item(out: &mut LineBuffer, item: &Item)
    requires { array_vec_len out.old + ITEM ≤ LINES }
    ensures text { out.new.items ≡ out.old.items ++ item_text item.now }
    ensures len { array_vec_len out.new ≤ array_vec_len out.old + ITEM }
{
    push_decimal(out, item.event);
    push_number(out, u64::from(item.proc.0));
    push_record(out, &item.what);
}

/// Prints the last line of the trace text of these items, this end and this number of events where no text is.
pub fn print_last_line(items: &[Item], end: End, events: u64, out: &mut LineBuffer)
    requires { out.old.items ≡ [] }
    ensures { out.new.items ≡ last_line_of items.now end events }
{
    put(out, b"end ");
    put(out, end_word(end));
    push_number(out, events);
    push_counts(out, &kind_counts(items));
    put(out, b"\n");
}

/// The word of an end: `alldone`, `stuck` or `budget`.
pub fn end_word(end: End) -> &'static [u8]
    ensures word { result.now ≡ end_word end }
    ensures short { length result.now ≤ 7 }
{
    match end {
        End::AllDone => b"alldone",
        End::Stuck => b"stuck",
        End::Budget => b"budget",
    }
}

fn push_counts(out: &mut LineBuffer, counts: &[u64])
    requires { array_vec_len out.old + length counts.now * FIELD ≤ LINES }
    ensures text { out.new.items ≡ out.old.items ++ counts_text counts.now }
    ensures len { array_vec_len out.new ≤ array_vec_len out.old + length counts.now * FIELD }
{
    for &count in counts {
        push_number(out, count);
    }
}
