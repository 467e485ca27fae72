//! The circles of threads that wait for one another.
#![tactic(auto)]

mod circles;

pub use circles::{circle_of, wait_of};
