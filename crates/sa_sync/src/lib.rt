//! What the threads of a space wait on: mutexes, semaphores and one another; and the cells that they share.
#![tactic(auto)]

mod answer;
pub mod laws;
mod state;

pub use answer::SyncAnswer;
pub use state::SyncState;
