//! A user level that is asked for replies: what it does with them, what a turn asks, and what a reply changes of the machine.
#![tactic(auto)]

mod asked;
mod question;

pub use asked::Asked;
pub use question::Question;
