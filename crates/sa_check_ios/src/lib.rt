//! What is read of a history of its I/Os, resident pages and ready lists: each call does what the readings of `sa_laws`
//! say of a record.
#![tactic(auto)]

pub mod laws;
mod pending;
mod ready;
mod under_way;

pub use pending::Pending;
pub use ready::{ListedThread, ReadyLists};
