//! What is shown of a moment, cell by cell: the names of cells, their texts, and what a record says in words.
#![tactic(auto)]

mod cell;
mod cells;
mod change;
pub mod laws;
mod life;
mod pieces;
mod processor;
mod reach;
mod space;
mod stays;
mod sync;
mod text;
mod thread;
mod view;
mod words;

pub use cell::Cell;
pub use cells::push_ups;
pub use change::{push_changes, push_opening};
pub use view::View;
pub use words::push_words;
