//! Reading a source: the workload that it says, with the names of what it declares and the line of each instruction; or the first error,
//! with its place and its cause.
#![tactic(auto)]

mod evictions;
pub mod laws;
mod lookup;
mod names;
mod operands;
mod plain;
mod reader;
mod source;
mod spaces;
mod unread;

pub use reader::read_source;
pub use source::{MAX_TEXT, Source};
pub use unread::Unread;
