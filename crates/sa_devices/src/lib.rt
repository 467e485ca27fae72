//! What the kernel keeps of devices: the I/Os under way, the resident pages, and the evictions to come.
#![tactic(auto)]

mod devices;
mod kind;
pub mod laws;
mod pages;
mod under_way;

pub use devices::Devices;
pub use kind::IoKind;
pub use pages::{all_but, complete, evict_at};
pub use under_way::Entry;
