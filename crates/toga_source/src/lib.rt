//! A source: a workload with the names of what it declares, and the text that shows it.
#![tactic(auto)]

mod names;
mod plain;
mod program;
mod push;
mod showing;
mod space;
mod turns;
mod words;

pub use names::{Label, Name, ProgramNames, SpaceNames};
pub use plain::plain_names;
pub use program::push_instr_text;
pub use showing::show;
pub use turns::push_schedule;
pub use words::push_thread_name;
