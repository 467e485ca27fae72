//! The abstract machine of threads in code, record by record: where each thread is, what each instruction does to it,
//! which space owns each processor, and which records the machine can do. Of each space it counts the threads that are
//! active, not done or not at rest.
#![tactic(auto)]

mod beyond;
mod effect;
pub mod laws;
mod needs;
mod replay;
mod runner;
mod space;
mod spaces;
mod table;
mod thread;

pub use beyond::{Beyond, LifeSeen};
pub use replay::Replay;
pub use runner::RunningThread;
pub use space::SpaceThreads;
pub use table::{Threads, moved};
pub use thread::ThreadState;
