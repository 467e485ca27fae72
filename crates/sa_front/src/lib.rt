//! The text in front of lines that are read one at a time: it is read through its first line that is `close`, and no further.
#![tactic(auto)]

mod front;

pub use front::{Front, read_front};
