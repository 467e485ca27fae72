//! The words of a command line, and the command that they are.
#![tactic(auto)]

mod check;
mod command;
mod debug;
mod explore;
mod kernel;
pub mod laws;
mod options;
mod read;
mod threads;
mod value;
mod vp;

pub use command::{Command, GiveWord, ScheduleWord};
pub use explore::{DEFAULT_STATES, default_states_are_these};
pub use read::read_words;
