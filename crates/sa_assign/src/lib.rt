//! The assignment of processors to spaces.
#![tactic(auto)]

mod aims;
mod assign;
pub mod laws;

pub use aims::{aimed, choice, have_shares};
pub use assign::{AIM_ITEMS, Assign};
