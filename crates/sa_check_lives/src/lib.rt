//! The lives of a history: each life in use with its locks, its hand and its marks, the running life of each processor, and of
//! each space the lives that were taken and the notices that it was not told. What each call does is what the readings of
//! `sa_laws` say of a record, or of the end of an event.
#![tactic(auto)]

mod change;
pub mod laws;
mod life;
mod lists;
mod lives;
mod lock;
mod shelves;
mod table;

pub use change::{Change, Scan, Stepped};
pub use life::KeptLife;
pub use lives::Lives;
pub use lock::ListLock;
