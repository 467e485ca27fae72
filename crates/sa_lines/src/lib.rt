//! Interrupt words and credit words between the machine's keeper and the pollers of its processors.
#![tactic(auto)]

mod credit;
mod keeper;
mod poller;
mod view;
mod words;

pub use credit::{Account, Credit};
pub use keeper::Keeper;
pub use poller::Poller;
pub use view::{Lane, Polled, View};
pub use words::LineWords;
