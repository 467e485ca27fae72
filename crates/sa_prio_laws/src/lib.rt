//! The package with thread priorities keeps its laws in every run, whatever stops, blocks, returns and faults come, and at
//! whatever event.
#![tactic(auto)]

pub mod laws;
