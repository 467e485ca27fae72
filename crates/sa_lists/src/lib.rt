//! The ready lists of a space, each under a lock of its own and in the order of its threads' ranks, and the numbers of the
//! threads that were made. No call but `ReadyLists::new` can fail for want of memory.
#![tactic(auto)]

pub mod laws;
mod rank_set;
mod ranked;
mod ranks;
mod ready;

pub use ranks::{MAX_RANKS, Ranks};
pub use ready::ReadyLists;
