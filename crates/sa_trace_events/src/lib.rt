//! A trace as trace events: the text that viewers of the Trace Event Format open, which the items of the trace determine.
#![tactic(auto)]

mod arrows;
mod events;
mod json;
pub mod laws;
mod slices;
mod state;
mod touches;
mod track;
mod whole;
mod words;

pub use whole::print_events;
