//! A search through every order of turns of a workload, breadth first, over any user level of which bytes say the value.
#![tactic(auto)]

mod ahead;
mod answer;
mod begin;
mod expand;
mod orders;
mod progress;
mod runs;
mod search;

pub use orders::explore;
pub use progress::{NoProgress, Progress};
pub use runs::replay;
