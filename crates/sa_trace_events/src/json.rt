// The records of trace events.
ghost use Rattle.std.specs.Prelude.{◌≡◌, ◌++◌, OnOk};
ghost use Rattle.sa_trace_events.specs.Json.{time_of, length_of, place_text, name_text, sort_text, titled_text, quoted, slice_head, slice_times, arrow_head, arrow_rest, arrow_text};

use crate::words::push_numbered;
use sa_base::Item;
use sa_trace::append_item;
use std::alloc::AllocError;

// The time of an event, in microseconds: it is a millisecond long, and event 0 is at the first one.
fn time_of(event: u64) -> u64
    ensures { result ≡ time_of event }
{
    event.saturating_add(1).saturating_mul(1000)
}

// How long it is from one event to another, in microseconds.
fn length_of(from: u64, to: u64) -> u64
    ensures { result ≡ length_of from to }
{
    to.saturating_sub(from).saturating_mul(1000)
}

// Appends the numbers of a track.
#[tactic(auto, unfolding(crate::specs::Json::place_text))]
fn push_place(out: &mut Vec<u8>, pid: u64, tid: u64) -> Result<(), AllocError>
    ensures { OnOk result (out.new.items ≡ out.old.items ++ place_text pid tid) }
{
    push_numbered(out, b"\",\"pid\":", pid)?;
    push_numbered(out, b",\"tid\":", tid)
}

// Appends the record of the name of a process or thread.
#[tactic(auto, unfolding(crate::specs::Json::name_text))]
fn push_name(
    out: &mut Vec<u8>,
    kind: &[u8],
    pid: u64,
    tid: u64,
    name: &[u8],
) -> Result<(), AllocError>
    ensures { OnOk result (out.new.items ≡ out.old.items ++ name_text kind.now pid tid name.now) }
{
    out.extend_from_slice(b",\n{\"ph\":\"M\",\"name\":\"")?;
    out.extend_from_slice(kind)?;
    out.extend_from_slice(b"_name")?;
    push_place(out, pid, tid)?;
    out.extend_from_slice(b",\"args\":{\"name\":\"")?;
    out.extend_from_slice(name)?;
    out.extend_from_slice(b"\"}}")
}

// Appends the record of the place of a process or thread among the others.
#[tactic(auto, unfolding(crate::specs::Json::sort_text))]
fn push_sort(
    out: &mut Vec<u8>,
    kind: &[u8],
    pid: u64,
    tid: u64,
    index: u64,
) -> Result<(), AllocError>
    ensures { OnOk result (out.new.items ≡ out.old.items ++ sort_text kind.now pid tid index) }
{
    out.extend_from_slice(b",\n{\"ph\":\"M\",\"name\":\"")?;
    out.extend_from_slice(kind)?;
    out.extend_from_slice(b"_sort_index")?;
    push_place(out, pid, tid)?;
    push_numbered(out, b",\"args\":{\"sort_index\":", index)?;
    out.extend_from_slice(b"}}")
}

/// Appends both.
#[tactic(auto, unfolding(crate::specs::Json::titled_text))]
pub(crate) fn push_titled(
    out: &mut Vec<u8>,
    kind: &[u8],
    pid: u64,
    tid: u64,
    name: &[u8],
    index: u64,
) -> Result<(), AllocError>
    ensures { OnOk result (out.new.items ≡ out.old.items ++ titled_text kind.now pid tid name.now index) }
{
    push_name(out, kind, pid, tid, name)?;
    push_sort(out, kind, pid, tid, index)
}

/// Appends a line of the trace in quotes.
pub(crate) fn push_quoted(out: &mut Vec<u8>, item: &Item) -> Result<(), AllocError>
    ensures { OnOk result (out.new.items ≡ out.old.items ++ quoted item.now) }
{
    out.extend_from_slice(b"\"")?;
    append_item(out, item)?;
    out.extend_from_slice(b"\"")
}

/// Appends the beginning of the record of a slice, up to its name.
#[tactic(auto, unfolding(crate::specs::Json::slice_head))]
pub(crate) fn push_slice_head(out: &mut Vec<u8>, category: &[u8]) -> Result<(), AllocError>
    ensures { OnOk result (out.new.items ≡ out.old.items ++ slice_head category.now) }
{
    out.extend_from_slice(b",\n{\"ph\":\"X\",\"cat\":\"")?;
    out.extend_from_slice(category)?;
    out.extend_from_slice(b"\",\"name\":\"")
}

/// Appends what follows the name, up to the lines.
#[tactic(auto, unfolding(crate::specs::Json::slice_times))]
pub(crate) fn push_slice_times(
    out: &mut Vec<u8>,
    pid: u64,
    tid: u64,
    from: u64,
    to: u64,
) -> Result<(), AllocError>
    ensures { OnOk result (out.new.items ≡ out.old.items ++ slice_times pid tid from to) }
{
    push_place(out, pid, tid)?;
    push_numbered(out, b",\"ts\":", time_of(from))?;
    push_numbered(out, b",\"dur\":", length_of(from, to))?;
    out.extend_from_slice(b",\"args\":{\"trace\":[")
}

/// Appends the record of an end of an arrow: `phase` says which.
#[tactic(auto, unfolding(crate::specs::Json::arrow_text))]
pub(crate) fn push_arrow(
    out: &mut Vec<u8>,
    phase: &[u8],
    category: &[u8],
    id: u64,
    item: &Item,
) -> Result<(), AllocError>
    ensures { OnOk result (out.new.items ≡ out.old.items ++ arrow_text phase.now category.now id item.now) }
{
    push_arrow_head(out, phase, category, id)?;
    push_arrow_rest(out, category, item)
}

#[tactic(auto, unfolding(crate::specs::Json::arrow_head))]
fn push_arrow_head(
    out: &mut Vec<u8>,
    phase: &[u8],
    category: &[u8],
    id: u64,
) -> Result<(), AllocError>
    ensures { OnOk result (out.new.items ≡ out.old.items ++ arrow_head phase.now category.now id) }
{
    out.extend_from_slice(b",\n{\"ph\":\"")?;
    out.extend_from_slice(phase)?;
    out.extend_from_slice(b"\",\"bp\":\"e\",\"cat\":\"")?;
    out.extend_from_slice(category)?;
    push_numbered(out, b"\",\"id\":", id)
}

#[tactic(auto, unfolding(crate::specs::Json::arrow_rest))]
fn push_arrow_rest(out: &mut Vec<u8>, category: &[u8], item: &Item) -> Result<(), AllocError>
    ensures { OnOk result (out.new.items ≡ out.old.items ++ arrow_rest category.now item.now) }
{
    out.extend_from_slice(b",\"name\":\"")?;
    out.extend_from_slice(category)?;
    push_place(out, 1, 1 + u64::from(item.proc.0))?;
    push_numbered(out, b",\"ts\":", time_of(item.event))?;
    out.extend_from_slice(b"}")
}
