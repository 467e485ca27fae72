//! Virtual processors: FastThreads on kernel threads, which the kernel schedules without telling anyone. One call is one
//! event; and a whole run, turned by a schedule until it ends.
#![tactic(auto)]

mod board;
mod numbers;
mod queue;
mod ready;
mod runs;
mod start;
mod turn;
mod vp;

pub use runs::{Ended, run};
pub use vp::Vp;
