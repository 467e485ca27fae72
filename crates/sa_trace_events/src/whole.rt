// The whole file.
ghost use Rattle.std.specs.Prelude.{◌≡◌, ◌<◌, ◌++◌, false, true, length, MatchOption, IfOk, OnOk};
ghost use Rattle.std.specs.List.{flat_map};
ghost use Rattle.sa_trace_events.specs.Events.{mark_text, notice_of};
ghost use Rattle.sa_trace_events.specs.Touches.{IsIndexOf};
ghost use Rattle.sa_trace_events.specs.Whole.{thread_of, above_thread, threads_of, first_event, end_of, span_of, can_be_shown, lane_text, lanes_text, counts_text, locks_text, threads_text, space_head, space_text, spaces_text, lines_ends, space_ends, spaces_ends, arrows_text, events_by, events_text};

use crate::arrows::{Arrow, push_ends};
use crate::events::{push_mark, push_notice, push_titled_track, push_track};
use crate::json::push_titled;
use crate::slices::Span;
use crate::touches::{Group, Index, index_of, items_of};
use crate::track::{Count, Level, Track};
use crate::words::push_numbered;
use sa_base::{Item, MAX_THREADS, ProcNo, Record, SpaceNo, ThreadNo};
use sa_shapes::{Window, measure};
use std::alloc::{AllocError, Global};

/// How many processors and spaces there are, and threads of a space.
#[derive(Clone, Copy)]
pub struct Shape {
    pub lanes: u16,
    pub spaces: u16,
    pub threads: u16,
}

// The part of the file before the tracks.
const HEAD: &[u8] =
    b"{\"displayTimeUnit\":\"ns\",\"traceEvents\":[\n{\"ph\":\"M\",\"name\":\"process_name\",\"pid\":1,\"tid\":0,\"args\":{\"name\":\"processors\"}}";

/// The text of the trace events of these items: `None` where there are more than 16 processors or spaces, or than 512 threads of a space. Its only
/// error is want of memory.
pub fn print_events(alloc: Global, items: &[Item]) -> Result<Option<Vec<u8>>, AllocError>
    ensures { IfOk result (λ text. MatchOption text (can_be_shown items.now ≡ false)
        (λ t. (can_be_shown items.now ≡ true) × (t.items ≡ events_text items.now))) }
{
    let extent = measure(Window { from: 0, count: 0 }, items);
    let threads = threads_of(items);
    if !extent.can_be_drawn() || threads > u32::from(MAX_THREADS) {
        return Ok(None);
    }
    let shape = Shape {
        lanes: extent.lanes as u16,
        spaces: extent.spaces as u16,
        threads: threads as u16,
    };
    let mut out = Vec::new(alloc);
    push_events(&mut out, alloc, span_of(items), shape, items)?;
    Ok(Some(out))
}

#[tactic(auto, unfolding(crate::specs::Whole::events_by))]
fn push_events(
    out: &mut Vec<u8>,
    alloc: Global,
    span: Span,
    shape: Shape,
    items: &[Item],
) -> Result<(), AllocError>
    ensures { OnOk result (out.new.items ≡ out.old.items ++ events_by span shape items.now) }
{
    out.extend_from_slice(HEAD)?;
    push_lanes(out, alloc, span, items, shape.lanes)?;
    push_spaces(out, alloc, span, items, shape)?;
    push_marks(out, items)?;
    push_arrows(out, alloc, items, shape)?;
    out.extend_from_slice(b"\n]}\n")
}

fn push_marks(out: &mut Vec<u8>, items: &[Item]) -> Result<(), AllocError>
    ensures { OnOk result (out.new.items ≡ out.old.items ++ flat_map mark_text items.now) }
{
    for item in items {
        push_mark(out, item)?;
    }
    Ok(())
}

#[tactic(auto, unfolding(crate::specs::Whole::arrows_text))]
fn push_arrows(
    out: &mut Vec<u8>,
    alloc: Global,
    items: &[Item],
    shape: Shape,
) -> Result<(), AllocError>
    ensures { OnOk result (out.new.items ≡ out.old.items ++ arrows_text shape items.now) }
{
    push_notices(out, items)?;
    push_line_arrows(out, alloc, items, shape.lanes)?;
    push_ready_arrows(out, alloc, items, shape)
}

fn push_notices(out: &mut Vec<u8>, items: &[Item]) -> Result<(), AllocError>
    ensures { OnOk result (out.new.items ≡ out.old.items ++ flat_map notice_of items.now) }
{
    for item in items {
        push_notice(out, item)?;
    }
    Ok(())
}

// Appends the arrows of the lines of the processors from 0 on.
fn push_line_arrows(
    out: &mut Vec<u8>,
    alloc: Global,
    items: &[Item],
    lanes: u16,
) -> Result<(), AllocError>
    ensures { OnOk result (out.new.items ≡ out.old.items ++ lines_ends items.now lanes) }
{
    for p in 0..lanes {
        push_ends(out, alloc, Arrow::Line(ProcNo(p)), items)?;
    }
    Ok(())
}

// Appends the arrows of the ready lists of the spaces from 0 on.
fn push_ready_arrows(
    out: &mut Vec<u8>,
    alloc: Global,
    items: &[Item],
    shape: Shape,
) -> Result<(), AllocError>
    ensures { OnOk result (out.new.items ≡ out.old.items ++ spaces_ends items.now shape) }
{
    for s in 0..shape.spaces {
        push_space_arrows(out, alloc, items, shape.threads, SpaceNo(s))?;
    }
    Ok(())
}

fn push_space_arrows(
    out: &mut Vec<u8>,
    alloc: Global,
    items: &[Item],
    threads: u16,
    s: SpaceNo,
) -> Result<(), AllocError>
    ensures { OnOk result (out.new.items ≡ out.old.items ++ space_ends items.now threads s.0) }
{
    let index = index_of(alloc, Group::Threads(s), 0, usize::from(threads), items)?;
    for t in 0..threads {
        let own = items_of(alloc, index.at(usize::from(t)))?;
        push_ends(out, alloc, Arrow::Ready(s, ThreadNo(t)), &own)?;
    }
    Ok(())
}

// Appends the tracks of the processors from 0 on.
fn push_lanes(
    out: &mut Vec<u8>,
    alloc: Global,
    span: Span,
    items: &[Item],
    lanes: u16,
) -> Result<(), AllocError>
    ensures { OnOk result (out.new.items ≡ out.old.items ++ lanes_text span items.now lanes) }
{
    let index = index_of(alloc, Group::Lanes, span.begin, usize::from(lanes), items)?;
    for p in 0..lanes {
        push_lane(out, alloc, span, items, &index, ProcNo(p))?;
    }
    Ok(())
}

fn push_lane(
    out: &mut Vec<u8>,
    alloc: Global,
    span: Span,
    items: &[Item],
    index: &Index,
    p: ProcNo,
) -> Result<(), AllocError>
    requires index { IsIndexOf Group.Lanes span.begin items.now index.now }
    requires number { p.0 < length index.now.lists.items }
    ensures { OnOk result (out.new.items ≡ out.old.items ++ lane_text span items.now p.0) }
{
    let owner = Track::Processor(p, Level::Owner);
    push_titled_track(out, alloc, span, items, index, owner)?;
    let activation = Track::Processor(p, Level::Activation);
    push_track(out, alloc, span, items, index, activation)?;
    let work = Track::Processor(p, Level::Work);
    push_track(out, alloc, span, items, index, work)
}

// Appends the tracks of the spaces from 0 on.
fn push_spaces(
    out: &mut Vec<u8>,
    alloc: Global,
    span: Span,
    items: &[Item],
    shape: Shape,
) -> Result<(), AllocError>
    ensures { OnOk result (out.new.items ≡ out.old.items ++ spaces_text span items.now shape) }
{
    for s in 0..shape.spaces {
        push_space(out, alloc, span, items, shape, SpaceNo(s))?;
    }
    Ok(())
}

fn push_space(
    out: &mut Vec<u8>,
    alloc: Global,
    span: Span,
    items: &[Item],
    shape: Shape,
    s: SpaceNo,
) -> Result<(), AllocError>
    ensures { OnOk result (out.new.items ≡ out.old.items ++ space_text span items.now shape s.0) }
{
    push_space_head(out, alloc, s)?;
    push_counts(out, alloc, span, items, s)?;
    push_locks(out, alloc, span, items, s, shape.lanes)?;
    push_threads(out, alloc, span, items, s, shape.threads)
}

fn push_space_head(out: &mut Vec<u8>, alloc: Global, s: SpaceNo) -> Result<(), AllocError>
    ensures { OnOk result (out.new.items ≡ out.old.items ++ space_head s.0) }
{
    let mut name = Vec::new(alloc);
    push_numbered(&mut name, b"space ", u64::from(s.0))?;
    push_titled(
        out,
        b"process",
        10 + u64::from(s.0),
        0,
        &name,
        u64::from(s.0) + 1,
    )
}

fn push_counts(
    out: &mut Vec<u8>,
    alloc: Global,
    span: Span,
    items: &[Item],
    s: SpaceNo,
) -> Result<(), AllocError>
    ensures { OnOk result (out.new.items ≡ out.old.items ++ counts_text span items.now s.0) }
{
    let index = index_of(alloc, Group::Counts(s), span.begin, 5, items)?;
    let demand = Track::Count(s, Count::Demand);
    push_titled_track(out, alloc, span, items, &index, demand)?;
    let aimed = Track::Count(s, Count::Aimed);
    push_titled_track(out, alloc, span, items, &index, aimed)?;
    let owned = Track::Count(s, Count::Owned);
    push_titled_track(out, alloc, span, items, &index, owned)?;
    let ready = Track::Count(s, Count::Ready);
    push_titled_track(out, alloc, span, items, &index, ready)?;
    let untold = Track::Count(s, Count::Untold);
    push_titled_track(out, alloc, span, items, &index, untold)
}

fn push_locks(
    out: &mut Vec<u8>,
    alloc: Global,
    span: Span,
    items: &[Item],
    s: SpaceNo,
    lanes: u16,
) -> Result<(), AllocError>
    ensures { OnOk result (out.new.items ≡ out.old.items ++ locks_text span items.now s.0 lanes) }
{
    let index = index_of(
        alloc,
        Group::Locks(s),
        span.begin,
        usize::from(lanes),
        items,
    )?;
    for l in 0..lanes {
        push_titled_track(out, alloc, span, items, &index, Track::Lock(s, ProcNo(l)))?;
    }
    Ok(())
}

fn push_threads(
    out: &mut Vec<u8>,
    alloc: Global,
    span: Span,
    items: &[Item],
    s: SpaceNo,
    threads: u16,
) -> Result<(), AllocError>
    ensures { OnOk result (out.new.items ≡ out.old.items ++ threads_text span items.now s.0 threads) }
{
    let index = index_of(
        alloc,
        Group::Threads(s),
        span.begin,
        usize::from(threads),
        items,
    )?;
    for t in 0..threads {
        push_titled_track(
            out,
            alloc,
            span,
            items,
            &index,
            Track::Thread(s, ThreadNo(t)),
        )?;
    }
    Ok(())
}

// The events of the items.
fn span_of(items: &[Item]) -> Span
    ensures { result ≡ span_of items.now }
{
    Span {
        begin: first_event(items),
        end: end_of(items),
    }
}

fn first_event(items: &[Item]) -> u64
    ensures { result ≡ first_event items.now }
{
    match items.first() {
        None => 0,
        Some(item) => item.event,
    }
}

fn end_of(items: &[Item]) -> u64
    ensures { result ≡ end_of items.now }
{
    match items.last() {
        None => 0,
        Some(item) => item.event.saturating_add(1),
    }
}

// How many threads a space has at most.
fn threads_of(items: &[Item]) -> u32
    ensures { result ≡ threads_of items.now }
{
    let mut threads = 0u32;
    for item in items {
        threads = threads.max(above(thread_of(&item.what)));
    }
    threads
}

// The number after that of the thread, 0 for none.
fn above(t: Option<ThreadNo>) -> u32
    ensures { result ≡ above_thread t }
{
    match t {
        None => 0,
        Some(t) => u32::from(t.0) + 1,
    }
}

// The thread that the record names.
fn thread_of(what: &Record) -> Option<ThreadNo>
    ensures { result ≡ thread_of what.now }
{
    match *what {
        Record::Ins(_, t, _) => Some(t),
        Record::Out(_, t, _) => Some(t),
        Record::Run(_, t) | Record::Ready(_, t) => Some(t),
        Record::Stop(_, t, _) | Record::Unblock(_, t, _) => t,
        Record::Block(_, t, _, _) => t,
        Record::Cont(_, t) | Record::Back(_, t) => t,
        Record::Take(_, _, t) | Record::Free(_, _, t) => t,
        _ => None,
    }
}
