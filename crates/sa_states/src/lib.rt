//! The states that a search keeps: each is found again by its key, its way by its links, the first of those with an end among them, and
//! those from which no order of turns ever ends.
#![tactic(auto)]

mod first;
mod groups;
mod limits;
mod links;
mod marks;
mod store;
mod unmarked;
mod whole;

pub use first::found;
pub use groups::{Group, count_one};
pub use limits::state_limits_are_these;
pub use links::schedule;
pub use store::Store;
pub use unmarked::endless;
pub use whole::answer;

/// The most states that a search keeps.
pub const MAX_STATES: u32 = 10_000_000;
