//! The kernel: it gives processors to spaces, and tells each space by upcalls what happened to its activations.
#![tactic(auto)]

mod closing;
mod entries;
mod kernel;
mod parts;
mod seen;
mod start;

pub use kernel::Kernel;
pub use sa_kernel_model::{ENTRY_ITEMS, Entry, Given};
