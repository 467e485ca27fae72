//! What says a machine's outlook in bytes, over any user level of which bytes say the value: of two machines of runs of one workload,
//! those with equal keys have equal outlooks.
#![tactic(auto)]

mod contexts;
mod due_order;
mod fast;
mod ios;
mod keyed;
pub mod laws;
mod machine_key;
mod outcome;
mod prio;
mod processors;
mod put_out;
mod spaces;
mod time;
mod users;

pub use keyed::Keyed;
pub use machine_key::{key, look_key};
pub use outcome::{Outcome, left_by, outcome_key};
pub use put_out::told_outs;
pub use sa_outlook::{Put, Telling};
