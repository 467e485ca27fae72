//! The run within a budget: one call is one event of the machine, or a run of local instructions.
#![tactic(auto)]

mod asks;
mod event;
mod run;

pub use run::Core;
