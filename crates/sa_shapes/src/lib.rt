//! The shapes of a picture of a trace: what is drawn, as plain data that the items of the trace and a window of events determine.
#![tactic(auto)]

mod change;
mod extent;
pub mod laws;
mod look;
mod marks;
mod picture;
mod shape;
mod stretches;
mod window;

pub use extent::{Extent, MAX_LINES, measure};
pub use look::Look;
pub use picture::{Picture, draw};
pub use shape::{MAX_LANES, Mark, Shape, Shown, Stretch, TOP_ROW, Track};
pub use window::{MAX_COUNT, Window, window_limits_are_these};
