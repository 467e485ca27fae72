// The text of the trace events: the slices of every track, the marks, and the arrows.
ghost use Rattle.std.specs.Prelude.{◌≡◌, ◌<◌, [], ◌++◌, OnOk, length};
ghost use Rattle.sa_trace_events.specs.Along.{slice_by, closed_text, text_unless, lines_after, text_from};
ghost use Rattle.sa_trace_events.specs.Events.{names_thread, concerns, line_if, track_text, titled_track, has_mark, mark_text, notice_of, told_arrow};
ghost use Rattle.sa_trace_events.specs.Slices.{after, slice_begun, slice_goes_on, going_by};
ghost use Rattle.sa_trace_events.specs.Touches.{group_of, number_of, IsIndexOf};

use crate::json::{push_arrow, push_quoted, push_slice_head, push_slice_times, push_titled};
use crate::slices::{Going, Slice, Span};
use crate::state::{is_thread, is_thread_of};
use crate::touches::{Index, Touch};
use crate::track::{Level, Track};
use crate::words::{category, push_state_name, push_track_name};
use sa_base::{Item, Note, Record, SpaceNo, ThreadNo};
use sa_trace::append_record;
use std::alloc::{AllocError, Global};

// The record names the thread.
fn names_thread(s: SpaceNo, t: ThreadNo, what: &Record) -> bool
    ensures { result ≡ names_thread s t what.now }
{
    match *what {
        Record::Ins(u, v, _) => is_thread(s, t, u, v),
        Record::Out(u, v, _) => is_thread(s, t, u, v),
        Record::Run(u, v) | Record::Ready(u, v) => is_thread(s, t, u, v),
        Record::Stop(u, v, _) | Record::Unblock(u, v, _) => is_thread_of(s, t, u, v),
        Record::Block(u, v, _, _) => is_thread_of(s, t, u, v),
        Record::Cont(u, v) | Record::Back(u, v) => is_thread_of(s, t, u, v),
        Record::Take(u, _, v) | Record::Free(u, _, v) => is_thread_of(s, t, u, v),
        _ => false,
    }
}

// The item is one of those whose lines a slice has behind the line with which it began.
fn concerns(track: Track, item: &Item) -> bool
    ensures { result ≡ concerns track item.now }
{
    match track {
        Track::Processor(p, Level::Work) => item.proc.0 == p.0,
        Track::Thread(s, t) => names_thread(s, t, &item.what),
        _ => false,
    }
}

fn push_line_if(out: &mut Vec<u8>, track: Track, item: &Item) -> Result<(), AllocError>
    ensures { OnOk result (out.new.items ≡ out.old.items ++ line_if track item.now) }
{
    if concerns(track, item) {
        out.extend_from_slice(b",")?;
        return push_quoted(out, item);
    }
    Ok(())
}

// Appends the record of a slice that has these lines.
#[tactic(auto, unfolding(crate::specs::Along::slice_by))]
fn push_slice(out: &mut Vec<u8>, slice: &Slice, lines: &[u8]) -> Result<(), AllocError>
    ensures { OnOk result (out.new.items ≡ out.old.items ++ slice_by slice.now lines.now) }
{
    push_slice_head(out, category(slice.track))?;
    push_state_name(out, slice.track, &slice.shown)?;
    push_slice_times(
        out,
        slice.track.pid(),
        slice.track.tid(),
        slice.from,
        slice.to,
    )?;
    out.extend_from_slice(lines)?;
    out.extend_from_slice(b"]}}")
}

// Appends the slice, which ends before this event and index, unless it has no event or shows nothing.
fn push_closed(
    out: &mut Vec<u8>,
    track: Track,
    going: Going,
    to: u64,
    last: usize,
    lines: &[u8],
) -> Result<(), AllocError>
    ensures { OnOk result (out.new.items ≡ out.old.items ++ closed_text track going to last lines.now) }
{
    if going.from < to && track.is_shown(going.shown) {
        let slice = Slice {
            track,
            from: going.from,
            to,
            shown: going.shown,
            first: going.first,
            last,
        };
        return push_slice(out, &slice, lines);
    }
    Ok(())
}

// Adds the line of the item, if the track goes on to show the same; else the slice ends, and another one begins with the item.
fn push_line(
    out: &mut Vec<u8>,
    lines: &mut Vec<u8>,
    same: bool,
    track: Track,
    going: Going,
    touch: &Touch,
) -> Result<(), AllocError>
    ensures text { OnOk result (out.new.items ≡ out.old.items ++ text_unless same track going touch.now lines.old.items) }
    ensures lines { OnOk result (lines.new.items ≡ lines_after same track touch.now.item lines.old.items) }
{
    if same {
        return push_line_if(lines, track, &touch.item);
    }
    push_closed(out, track, going, touch.clock, touch.at, lines)?;
    lines.clear();
    push_quoted(lines, &touch.item)
}

// Goes over an item that touches the track.
fn push_step(
    out: &mut Vec<u8>,
    lines: &mut Vec<u8>,
    going: &mut Going,
    track: Track,
    touch: &Touch,
) -> Result<(), AllocError>
    ensures text { OnOk result (out.new.items ≡ out.old.items
        ++ text_unless (slice_goes_on track going.old touch.now.item) track going.old touch.now lines.old.items) }
    ensures lines { OnOk result (lines.new.items
        ≡ lines_after (slice_goes_on track going.old touch.now.item) track touch.now.item lines.old.items) }
    ensures going { OnOk result (going.new ≡ going_by (slice_goes_on track going.old touch.now.item) going.old
        (after track going.old.state touch.now.item) touch.now.clock touch.now.at) }
{
    let next = track.after(going.state, &touch.item);
    let same = track.is_same(going.shown, next);
    push_line(out, lines, same, track, *going, touch)?;
    *going = going.moved(same, next, touch.clock, touch.at);
    Ok(())
}

// Appends the slices of the track along the items that touch it: the last one ends before this event and index.
fn push_along(
    out: &mut Vec<u8>,
    alloc: Global,
    begin: u64,
    end: u64,
    len: usize,
    track: Track,
    touches: &[Touch],
) -> Result<(), AllocError>
    ensures { OnOk result (out.new.items ≡ out.old.items ++ text_from track end len (slice_begun track begin) [] touches.now) }
{
    let mut going = Going::slice_begun(track, begin);
    let mut lines = Vec::new(alloc);
    for touch in touches {
        push_step(out, &mut lines, &mut going, track, touch)?;
    }
    push_closed(out, track, going, end, len, &lines)
}

/// Appends the slices of a track.
pub(crate) fn push_track(
    out: &mut Vec<u8>,
    alloc: Global,
    span: Span,
    items: &[Item],
    index: &Index,
    track: Track,
) -> Result<(), AllocError>
    requires index { IsIndexOf (group_of track) span.begin items.now index.now }
    requires number { number_of track < length index.now.lists.items }
    ensures { OnOk result (out.new.items ≡ out.old.items ++ track_text span items.now track) }
{
    let end = index.clock.max(span.end);
    let touches = index.at(track.number());
    push_along(out, alloc, span.begin, end, items.len(), track, touches)
}

/// Appends the slices of a track behind its name.
pub(crate) fn push_titled_track(
    out: &mut Vec<u8>,
    alloc: Global,
    span: Span,
    items: &[Item],
    index: &Index,
    track: Track,
) -> Result<(), AllocError>
    requires index { IsIndexOf (group_of track) span.begin items.now index.now }
    requires number { number_of track < length index.now.lists.items }
    ensures { OnOk result (out.new.items ≡ out.old.items ++ titled_track span items.now track) }
{
    let mut name = Vec::new(alloc);
    push_track_name(&mut name, track)?;
    push_titled(out, b"thread", track.pid(), track.tid(), &name, track.tid())?;
    push_track(out, alloc, span, items, index, track)
}

// The record has a mark: each but an instruction, an aim, a new owner, a number that is given back, a look in vain, and a turn of nobody.
fn has_mark(what: &Record) -> bool
    ensures { result ≡ has_mark what.now }
{
    match *what {
        Record::Ins(..)
        | Record::Aim(..)
        | Record::Move(..)
        | Record::GiveBack(_)
        | Record::Idle
        | Record::Tick => false,
        _ => true,
    }
}

/// Appends the mark of an item, which is a slice of its event on the track of its processor.
pub(crate) fn push_mark(out: &mut Vec<u8>, item: &Item) -> Result<(), AllocError>
    ensures { OnOk result (out.new.items ≡ out.old.items ++ mark_text item.now) }
{
    if has_mark(&item.what) {
        push_slice_head(out, b"mark")?;
        append_record(out, &item.what)?;
        push_slice_times(
            out,
            1,
            1 + u64::from(item.proc.0),
            item.event,
            item.event.saturating_add(1),
        )?;
        push_quoted(out, item)?;
        return out.extend_from_slice(b"]}}");
    }
    Ok(())
}

// Appends the end of the arrow from what the upcall tells.
fn push_told(out: &mut Vec<u8>, note: Note, item: &Item) -> Result<(), AllocError>
    ensures { OnOk result (out.new.items ≡ out.old.items ++ told_arrow note item.now) }
{
    match note {
        Note::Add(_) => Ok(()),
        Note::Preempted(a) => push_arrow(out, b"f", b"preempted", a.0, item),
        Note::Blocked(a) => push_arrow(out, b"f", b"blocked", a.0, item),
        Note::Unblocked(a) => push_arrow(out, b"f", b"unblocked", a.0, item),
    }
}

/// Appends the end of an arrow from what a space is to be told to the upcall that tells it, which is at the item.
pub(crate) fn push_notice(out: &mut Vec<u8>, item: &Item) -> Result<(), AllocError>
    ensures { OnOk result (out.new.items ≡ out.old.items ++ notice_of item.now) }
{
    match item.what {
        Record::Stop(_, _, a) => push_arrow(out, b"s", b"preempted", a.0, item),
        Record::Block(_, _, a, _) => push_arrow(out, b"s", b"blocked", a.0, item),
        Record::Unblock(_, _, a) => push_arrow(out, b"s", b"unblocked", a.0, item),
        Record::Told(note) => push_told(out, note, item),
        _ => Ok(()),
    }
}
