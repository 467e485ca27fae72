//! Copies of the critical sections in the package's code: an interrupted section is found by its place, and
//! continued in its copy, which gives control back to the upcall handler at its end.
#![tactic(auto)]

mod copies;
pub mod laws;

pub use copies::{copy_place, make_copies, section_of};
