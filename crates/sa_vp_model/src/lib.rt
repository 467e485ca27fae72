//! Virtual processors as a value: a board, what a turn makes of it, and that it is what is read off a history.
#![tactic(auto)]

pub mod laws;
mod limits;

pub use limits::{VIRTUALS, virtual_limits_are_these};
