//! Which program each thread runs, as far as the items of a trace tell.
#![tactic(auto)]

mod programs;

pub use programs::Programs;
