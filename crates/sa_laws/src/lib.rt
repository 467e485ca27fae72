//! What a legal run is: the abstract machine of threads, what is read off a history, and the laws; and lemmas of these.
//!
//! The definitions are over plain lists and numbers. They know workloads, shares and the plain effects of
//! synchronization, and neither a kernel nor a package. The lemmas are those that several crates above need.
#![tactic(auto)]

mod place;
mod rule;

pub use place::Place;
pub use rule::Rule;
