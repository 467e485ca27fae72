//! A run on host threads: one worker for each processor of a machine that they share, and the gates that it passes before
//! each of its entries. A gate changes nothing that a clause speaks of.
#![tactic(auto)]

mod gate;
mod hold;
mod quotas;
mod runs;
mod worker;

pub use gate::{FreeGate, Gate};
pub use hold::HoldGate;
pub use quotas::quota;
pub use runs::{Limits, run};
pub use worker::work;
