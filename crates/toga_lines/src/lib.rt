//! The lines of a source: what of a line is no comment, its words, and which words are names and registers.
#![tactic(auto)]

mod content;
mod names;
mod words;

pub use content::{content_of, first_unprinted};
pub use names::{MAX_NAME, is_name, register_of};
pub use words::{Place, places_of, word_at};
