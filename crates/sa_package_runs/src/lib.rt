//! Each run of the machine with either package is a legal run, and so is the trace of each debugging session of FastThreads.
#![tactic(auto)]

pub mod laws;
pub mod sessions;
