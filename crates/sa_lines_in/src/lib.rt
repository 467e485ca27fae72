//! Lines that are read one at a time: what was read and is not used is kept, and a read is made only if the line that is wanted is
//! not whole in it.
#![tactic(auto)]

mod line;
mod reader;

pub use line::LINE_LIMIT;
pub use reader::{LineReader, NoLine, ShortLine};
