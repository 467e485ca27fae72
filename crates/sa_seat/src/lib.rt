//! The machine behind its lock, and the seats from which host threads drive its processors.
#![tactic(auto)]

mod answer;
mod closed;
mod follow;
mod held;
mod machine;
mod named;
mod seat;

pub use answer::{BurstEnd, Entered};
pub use closed::Closed;
pub use held::Held;
pub use machine::Machine;
pub use named::Named;
pub use seat::Seat;
