//! What a run is given: the spaces with their programs, and the workload, each checked where it is made.
#![tactic(auto)]

pub mod laws;
mod space;
mod workload;

pub use space::SpaceDef;
pub use workload::{Evict, Workload};
