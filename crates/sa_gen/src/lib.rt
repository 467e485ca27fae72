//! Workloads that are made from a number: loads of many threads, and probes of one list operation.
#![tactic(auto)]

mod load;
mod probes;

pub use load::workload;
pub use probes::{MAX_PROBE, probe};
