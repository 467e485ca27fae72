//! What FastThreads does with the threads of a space: the effect of one instruction of a thread, the lists of threads
//! that are still to be made ready, and the two tests of the hints to the kernel (SOSP 1991, sections 3.2 and 4).
#![tactic(auto)]

mod hints;
mod instruction;
mod shared;
mod threads;
mod work;

pub use hints::{idle_owed, more_owed};
pub use instruction::{NOT_MADE, Ran, run};
pub use shared::Shared;
pub use threads::{Block, KeptPlace, Threads};
pub use work::WorkLists;
