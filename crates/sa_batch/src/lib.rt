//! Notices that wait: what each space was not told yet, and what the last upcall told.
#![tactic(auto)]

mod batch;
mod notices;

pub use batch::Batch;
pub use notices::Notices;
