// Where the program reads and writes: sources and sinks that may fail, in memory and over std.
#![tactic(auto)]

mod adapters;
mod input;
mod memory;
mod pieces;
mod traits;
mod words;

pub use adapters::{StdSink, StdSource};
pub use input::{ReadError, read_input};
pub use memory::{MemSink, MemSource};
pub use pieces::{PIECE, PieceWriter, write_text};
pub use traits::{Failed, Sink, Source};
pub use words::{NoWords, Words};
