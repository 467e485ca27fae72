//! What the kernel and its core need of a user level, whichever it is: the calls, what each does as a function, and
//! what all of them keep; and the smallest user level, to be read first.
#![tactic(auto)]

mod answer;
mod level;
mod one_thread;

pub use answer::{SeatState, Step, Tally};
pub use level::UserLevel;
pub use one_thread::OneThread;
