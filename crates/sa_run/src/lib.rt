//! A whole run: a machine of any user level, turned by a schedule until it ends.
#![tactic(auto)]

mod turns;

pub use turns::{Ended, run};
