//! A debugging session over a machine of any user level, by a script that is read, with replies that are printed: its processors
//! are halted, set going and stepped, it stops at breakpoints, and its threads are shown; kernel and user level see nothing of it.
#![tactic(auto)]

mod follow;
mod halts;
pub mod laws;
mod points;
mod script;
mod session;

pub use points::MAX_POINTS;
pub use script::{DebugCommand, MAX_LINES, Point, Reply, Script, View, print_reply, read_script};
pub use session::Session;
