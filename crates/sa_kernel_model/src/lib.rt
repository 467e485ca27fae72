//! The kernel as a value: what enters it, what each entry does to it and records, and what always holds of it.
#![tactic(auto)]

mod entry;

pub use entry::{ENTRY_ITEMS, Entry, Given};
