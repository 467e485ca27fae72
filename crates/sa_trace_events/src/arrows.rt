// The arrows of which both ends are found along the trace.
ghost use Rattle.std.specs.Prelude.{◌≡◌, ◌++◌, OnOk};
ghost use Rattle.sa_trace_events.specs.Arrows.{is_line, is_up, is_ready, is_run, begins, ends, begun_after, ready_end, end_text, end_if, ends_of};

use crate::json::push_arrow;
use crate::state::is_thread;
use crate::words::push_numbered;
use sa_base::{Item, ProcNo, Record, SpaceNo, ThreadNo};
use std::alloc::{AllocError, Global};

/// What an arrow leads from, and to.
#[derive(Clone, Copy)]
pub enum Arrow {
    /// From where the line of the processor is raised to the next upcall there.
    Line(ProcNo),
    /// From where the thread is put into a ready list to where it is taken from it.
    Ready(SpaceNo, ThreadNo),
}

fn is_line(p: ProcNo, what: &Record) -> bool
    ensures { result ≡ is_line p what.now }
{
    match *what {
        Record::Line(q) => q.0 == p.0,
        _ => false,
    }
}

fn is_up(what: &Record) -> bool
    ensures { result ≡ is_up what.now }
{
    match *what {
        Record::Up(_, _) => true,
        _ => false,
    }
}

fn is_ready(s: SpaceNo, t: ThreadNo, what: &Record) -> bool
    ensures { result ≡ is_ready s t what.now }
{
    match *what {
        Record::Ready(u, v) => is_thread(s, t, u, v),
        _ => false,
    }
}

fn is_run(s: SpaceNo, t: ThreadNo, what: &Record) -> bool
    ensures { result ≡ is_run s t what.now }
{
    match *what {
        Record::Run(u, v) => is_thread(s, t, u, v),
        _ => false,
    }
}

impl Arrow {
    // An arrow may begin at the item.
    fn begins(self, item: &Item) -> bool
        ensures { result ≡ begins self item.now }
    {
        match self {
            Arrow::Line(p) => is_line(p, &item.what),
            Arrow::Ready(s, t) => is_ready(s, t, &item.what),
        }
    }

    // An arrow that has begun ends at the item.
    fn ends(self, item: &Item) -> bool
        ensures { result ≡ ends self item.now }
    {
        match self {
            Arrow::Line(p) => item.proc.0 == p.0 && is_up(&item.what),
            Arrow::Ready(s, t) => is_run(s, t, &item.what),
        }
    }

    // After the item an arrow has begun, and not ended.
    fn begun_after(self, begun: bool, item: &Item) -> bool
        ensures { result ≡ begun_after self begun item.now }
    {
        self.begins(item) || (begun && !self.ends(item))
    }
}

fn push_ready_end(
    out: &mut Vec<u8>,
    alloc: Global,
    phase: &[u8],
    s: SpaceNo,
    t: ThreadNo,
    item: &Item,
) -> Result<(), AllocError>
    ensures { OnOk result (out.new.items ≡ out.old.items ++ ready_end phase.now s t item.now) }
{
    let mut name = Vec::new(alloc);
    push_numbered(&mut name, b"ready in space ", u64::from(s.0))?;
    push_arrow(out, phase, &name, u64::from(t.0), item)
}

fn push_end(
    out: &mut Vec<u8>,
    alloc: Global,
    phase: &[u8],
    arrow: Arrow,
    item: &Item,
) -> Result<(), AllocError>
    ensures { OnOk result (out.new.items ≡ out.old.items ++ end_text phase.now arrow item.now) }
{
    match arrow {
        Arrow::Line(p) => push_arrow(out, phase, b"line", u64::from(p.0), item),
        Arrow::Ready(s, t) => push_ready_end(out, alloc, phase, s, t, item),
    }
}

// Appends the end of an arrow that is at the item, if one is.
fn push_end_if(
    out: &mut Vec<u8>,
    alloc: Global,
    arrow: Arrow,
    begun: bool,
    item: &Item,
) -> Result<(), AllocError>
    ensures { OnOk result (out.new.items ≡ out.old.items ++ end_if arrow begun item.now) }
{
    if !begun && arrow.begins(item) {
        return push_end(out, alloc, b"s", arrow, item);
    }
    if begun && arrow.ends(item) {
        return push_end(out, alloc, b"f", arrow, item);
    }
    Ok(())
}

/// Appends the ends of the arrows of one kind, one arrow after another.
pub(crate) fn push_ends(
    out: &mut Vec<u8>,
    alloc: Global,
    arrow: Arrow,
    items: &[Item],
) -> Result<(), AllocError>
    ensures { OnOk result (out.new.items ≡ out.old.items ++ ends_of items.now arrow) }
{
    let mut begun = false;
    for item in items {
        push_end_if(out, alloc, arrow, begun, item)?;
        begun = arrow.begun_after(begun, item);
    }
    Ok(())
}
