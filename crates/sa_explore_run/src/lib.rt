//! A search through every order of turns of a workload, with the threads that wait where it found a stuck end and what each of them
//! waits for; and what is written of it.
#![tactic(auto)]

mod given;
mod history;
mod line;
mod printing;
mod replayed;
mod run;
mod waiting;
mod workload;

pub use printing::explored_text;
pub use run::{Answer, search};
pub use waiting::waits_behind;
pub use workload::workload_text;
