//! The workload text, read and printed: its lines, which may come next, what follows them, and what each does; and the readers of a
//! whole text.
#![tactic(auto)]

mod cause;
mod field;
mod instr;
pub mod laws;
mod numbers;
mod printing;
mod push;
mod reader;
mod stage;
mod step;
mod table;
mod texts;

pub use printing::print;
pub use reader::{read, read_one};
pub use texts::two_texts;
