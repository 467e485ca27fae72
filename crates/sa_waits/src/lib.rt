//! The threads that wait in a state of the abstract machine, and what each of them waits for.
#![tactic(auto)]

mod queues;
mod threads;
mod wait;

pub use threads::waits;
pub use wait::{Awaited, Wait};
