//! Orders in which the processors take turns: round robin, seeded, given, and with one held.
#![tactic(auto)]

mod kind;
pub mod laws;
mod schedule;

pub use kind::Kind;
pub use schedule::Schedule;

/// For how many events a processor is held.
pub const HOLD_EVENTS: u16 = 1_000;
