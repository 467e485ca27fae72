//! The code of the thread package around its ready lists: micro-operations, each of which is one event, so that
//! an interrupt may come between any two.
#![tactic(auto)]

mod code;
pub mod laws;
mod operation;
mod state;

pub use code::{CODE_PLACES, Code, Op, routines};
pub use operation::{add_record, micro};
pub use state::{Frame, MAX_LISTS, MicroDone, PackageState};
