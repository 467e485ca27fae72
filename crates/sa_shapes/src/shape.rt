// The shapes.

use crate::look::Look;
use sa_base::{Item, ProcNo, SpaceNo};

/// The most processors of a picture, and the most spaces.
pub const MAX_LANES: usize = 16;

/// The greatest row of a mark. What would be higher is there too.
pub const TOP_ROW: u16 = 11;

/// A line of the picture along which things are shown.
#[derive(Clone, Copy)]
pub enum Track {
    /// What the processor does.
    Lane(ProcNo),
    /// The demand of the space.
    Demand(SpaceNo),
    /// The processors that are aimed at the space.
    Aimed(SpaceNo),
}

/// What a track shows.
#[derive(Clone, Copy)]
pub enum Shown {
    /// Of a lane: what the processor does.
    Look(Look),
    /// How many processors the space can use.
    Demand(u16),
    /// For each processor, from 0 on, whether it is aimed at the space.
    Aimed([bool; MAX_LANES]),
}

/// A part of a track along which it shows one thing.
#[derive(Clone, Copy)]
pub struct Stretch {
    pub track: Track,
    /// The place of its first event, counted from the first event that is drawn.
    pub from: u16,
    /// The place after its last event, above `from`.
    pub to: u16,
    pub shown: Shown,
    /// The index of the item with which the track began to show this, and the index after the last before it showed another.
    pub first: usize,
    pub last: usize,
}

/// A mark of one item above a lane.
#[derive(Clone, Copy)]
pub struct Mark {
    pub lane: ProcNo,
    /// The place of its event, counted from the first event that is drawn.
    pub at: u16,
    /// How high it is over the lane, from 0 to `TOP_ROW`.
    pub row: u16,
    pub item: Item,
}

/// A shape of the picture.
#[derive(Clone, Copy)]
pub enum Shape {
    Stretch(Stretch),
    Mark(Mark),
}
