// How much there is to draw.
ghost use Rattle.std.specs.Prelude.{◌≡◌};
ghost use Rattle.sa_shapes.specs.Extent.{space_of, above_space, with_item, extent_of, can_be_drawn};

use crate::marks::lane_of;
use crate::shape::MAX_LANES;
use crate::window::Window;
use sa_base::{Item, Record, SpaceNo};

/// The most lines of a trace that are drawn.
pub const MAX_LINES: u32 = 40_000;

/// How much there is to draw: how many lanes and spaces, and how many items of the window, counted up to one more than
/// `MAX_LINES`.
#[derive(Clone, Copy)]
pub struct Extent {
    pub lanes: u32,
    pub spaces: u32,
    pub lines: u32,
}

impl Extent {
    /// No more than a picture may have.
    pub fn can_be_drawn(self) -> bool
        ensures { result ≡ can_be_drawn self }
    {
        self.lanes <= MAX_LANES as u32 && self.spaces <= MAX_LANES as u32 && self.lines <= MAX_LINES
    }
}

/// How much of these items there is to draw.
pub fn measure(window: Window, items: &[Item]) -> Extent
    ensures { result ≡ extent_of window items.now }
{
    let mut extent = Extent {
        lanes: 0,
        spaces: 0,
        lines: 0,
    };
    for item in items {
        extent = with_item(window, extent, item);
    }
    extent
}

// The same with one item more.
fn with_item(window: Window, extent: Extent, item: &Item) -> Extent
    ensures { result ≡ with_item window extent item.now }
{
    let own = u32::from(item.proc.0) + 1;
    let marked = u32::from(lane_of(item).0) + 1;
    let is_more = window.is_inside(item.event) && extent.lines <= MAX_LINES;
    Extent {
        lanes: extent.lanes.max(own).max(marked),
        spaces: extent.spaces.max(above(space_of(&item.what))),
        lines: if is_more {
            extent.lines + 1
        } else {
            extent.lines
        },
    }
}

// The number after that of the space, 0 for none.
fn above(s: Option<SpaceNo>) -> u32
    ensures { result ≡ above_space s }
{
    match s {
        None => 0,
        Some(s) => u32::from(s.0) + 1,
    }
}

// The space that the record names.
fn space_of(what: &Record) -> Option<SpaceNo>
    ensures { result ≡ space_of what.now }
{
    match *what {
        Record::Ins(s, _, _) | Record::Out(s, _, _) => Some(s),
        Record::Run(s, _) | Record::Ready(s, _) => Some(s),
        Record::Stop(s, _, _) | Record::Unblock(s, _, _) => Some(s),
        Record::Block(s, _, _, _) => Some(s),
        Record::Cont(s, _) | Record::Back(s, _) => Some(s),
        Record::Take(s, _, _) | Record::Free(s, _, _) => Some(s),
        Record::Up(s, _) | Record::Want(s, _) => Some(s),
        Record::Move(_, s) | Record::Aim(_, s) => s,
        Record::Fetch(s) | Record::Fetched(s) => Some(s),
        _ => None,
    }
}
