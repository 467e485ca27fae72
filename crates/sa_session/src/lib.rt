//! A session of `sa kernel`: the kernel and the machine go on turn by turn, and each step of a user level is asked for and read as a
//! line, from whoever writes the replies.
#![tactic(auto)]

mod conversation;
mod exchange;
pub mod laws;
mod session;
mod wrong;

pub use conversation::{Close, NoTalk, Over, talk};
pub use wrong::Wrong;
