//! What a machine is, as a value, and what its events do.
#![tactic(auto)]

pub mod laws;
