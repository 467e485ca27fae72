//! The text of a picture of a trace: one SVG file. Coordinates are whole numbers of pixels.
#![tactic(auto)]

mod drawing;
mod head;
pub mod laws;
mod layout;
mod markup;
mod titles;
mod words;

pub use drawing::print;
pub use layout::{DEFAULT_WIDTH, Layout, MAX_WIDTH, MIN_WIDTH, widths_are_these};
