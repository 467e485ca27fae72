//! The machine in the middle of an event: the kernel, the user level of each space, the contexts that run, and in how many spaces
//! something is still to be done.
#![tactic(auto)]

mod machine;
mod room;
mod users;

pub use machine::{EVENT_ITEMS, MachineParts};
pub use users::{Counts, STEP_ITEMS, Users};
