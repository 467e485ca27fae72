//! FastThreads with thread priorities: the best ready thread runs, and one that is outranked gives way or is interrupted
//! (SOSP 1991, section 3.1).
#![tactic(auto)]

mod calls;
mod level;
mod pairs;
mod step;
mod threads;

pub use threads::PrioThreads;
