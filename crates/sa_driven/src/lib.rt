//! A user level that does what it is told: the replies come from outside, and each step of a context does the one that was put.
#![tactic(auto)]

mod asked;
mod calls;
mod driven;
mod effects;
mod instruction;
mod level;
mod needs;
mod step;

pub use driven::Driven;
