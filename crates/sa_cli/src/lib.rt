//! The command line: from words and a source to a run, and its text to a sink.
#![tactic(auto)]

mod calls;
mod commands;
mod debug;
mod explore;
mod found;
mod kernel;
mod outcome;
mod output;
mod reading;
mod replies;
mod session;
mod shared;
mod vp;
mod writing;

pub use calls::{run_one, run_program, run_threads, run_words};
pub use outcome::{Finding, Outcome, Ran, Status};
pub use sa_explore::Progress;
pub use sa_workers::Limits;
