// The marks above a lane.
ghost use Rattle.std.specs.Prelude.{◌≡◌, ◌++◌, OnOk};
ghost use Rattle.sa_shapes.specs.Marks.{has_mark, lane_of, is_marked, row_at, height_over, mark_at, marks};

use crate::shape::{Mark, Shape, TOP_ROW};
use crate::window::Window;
use sa_base::{Item, ProcNo, Record};
use std::alloc::AllocError;

/// The marks of one event so far above a lane.
#[derive(Clone, Copy)]
pub(crate) struct Stack {
    pub(crate) event: u64,
    // The row of the next mark of that event.
    pub(crate) height: u16,
}

/// Appends the marks above the lane.
pub(crate) fn push_marks(
    out: &mut Vec<Shape>,
    window: Window,
    lane: ProcNo,
    items: &[Item],
) -> Result<(), AllocError>
    ensures { OnOk result (out.new.items ≡ out.old.items ++ marks window items.now lane) }
{
    let mut stack = Stack {
        event: 0,
        height: 0,
    };
    for item in items {
        if is_marked(lane, item) {
            let row = row_at(stack, item.event);
            push_mark(out, window, lane, row, item)?;
            stack = Stack {
                event: item.event,
                height: height_over(row),
            };
        }
    }
    Ok(())
}

// Appends the mark of the item, where its event is drawn.
fn push_mark(
    out: &mut Vec<Shape>,
    window: Window,
    lane: ProcNo,
    row: u16,
    item: &Item,
) -> Result<(), AllocError>
    ensures { OnOk result (out.new.items ≡ out.old.items ++ mark_at window lane row item.now) }
{
    if window.is_inside(item.event) {
        out.push(Shape::Mark(Mark {
            lane,
            at: window.place(item.event),
            row,
            item: *item,
        }))?;
    }
    Ok(())
}

// The row of a mark of this event.
fn row_at(stack: Stack, event: u64) -> u16
    ensures { result ≡ row_at stack event }
{
    if stack.event == event {
        stack.height
    } else {
        0
    }
}

// The row of the next mark over one in this row.
fn height_over(row: u16) -> u16
    ensures { result ≡ height_over row }
{
    if row < TOP_ROW { row + 1 } else { TOP_ROW }
}

// The item has a mark above the lane.
fn is_marked(lane: ProcNo, item: &Item) -> bool
    ensures { result ≡ is_marked lane item.now }
{
    has_mark(&item.what) && lane_of(item).0 == lane.0
}

/// The lane of an item: a line's is that of its processor, any other's that of the processor whose turn it is.
pub(crate) fn lane_of(item: &Item) -> ProcNo
    ensures { result ≡ lane_of item.now.proc item.now.what }
{
    match item.what {
        Record::Line(p) => p,
        _ => item.proc,
    }
}

// The record has a mark.
fn has_mark(what: &Record) -> bool
    ensures { result ≡ has_mark what.now }
{
    match *what {
        Record::Stop(..) | Record::Block(..) | Record::Unblock(..) => true,
        Record::Up(..) | Record::Told(..) | Record::Want(..) | Record::Line(..) => true,
        Record::Take(..) | Record::Free(..) | Record::Spin(..) => true,
        Record::Fetch(..) | Record::Fetched(..) => true,
        _ => false,
    }
}
