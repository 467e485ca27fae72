//! The activations whose numbers are in use.
#![tactic(auto)]

mod acts;
mod queue;

pub use acts::{Act, Acts};
