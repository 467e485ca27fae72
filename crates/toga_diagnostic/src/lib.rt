//! An error in a source as a value, and its text: its place, a sentence, the line, and carets below what is wrong.
#![tactic(auto)]

mod cause;
mod listed;
mod sentence;
mod shown;
mod tables;
mod texts;

pub use cause::{
    About, Cause, Fault, Kind, Limit, Missing, NameList, Next, Part, Stage, Twice, Wanted, What,
};
pub use texts::diagnostic;
