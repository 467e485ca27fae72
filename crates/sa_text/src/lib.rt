// Lines, pieces and numbers: what the readers and the printers of the program's texts are built on.
#![tactic(auto)]

pub mod laws;
mod line_reader;
mod number;
mod pieces;
mod scan;

pub use line_reader::{Line, Lines};
pub use number::{print_number, read_number};
pub use pieces::{Pieces, is_printed, token};
