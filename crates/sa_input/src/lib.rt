//! The inputs of the programs: how long they may be, the workload in front, and what is refused.
#![tactic(auto)]

mod limits;
mod parts;
mod refusal;

pub use limits::{SCRIPT_LIMIT, TRACE_LIMIT, WORKLOAD_LIMIT, input_limits_are_these};
pub use parts::{parts_of, workload_of};
pub use refusal::refusal_of_long;
