//! Disjoint lists of node numbers in one block of nodes, linked in place by raw pointers: every call takes
//! constant time, and none but `Links::new` can fail for want of memory.
#![tactic(auto)]

mod block;
mod links;
mod node;
mod start;

pub use links::Links;
