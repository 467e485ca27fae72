//! What a search through every order of turns keeps and answers, as plain data, and the theorem that a search that goes breadth first
//! answers for every run.
#![tactic(auto)]

mod answer;

pub use answer::{Explored, Extent, Found, State};

/// The most results that are told.
pub const MAX_RESULTS: u16 = 1_000;
