//! What a checker's verdict on a trace says to people, with the names and the lines of its source.
#![tactic(auto)]

mod lines;
mod pieces;
mod source;
mod verdict;
mod words;

pub use source::Source;
pub use verdict::verdict_text;
