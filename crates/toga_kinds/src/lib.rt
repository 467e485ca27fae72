//! The six kinds of events: what each turn of a run was spent on, and how many turns were spent so.
#![tactic(auto)]

mod counts;
mod history;
mod kind;
pub mod laws;

pub use counts::{count, events_on, of_kind};
pub use history::turns;
pub use kind::{Kind, Turn};
