//! FastThreads: the user level that schedules its threads at user level, on the processors that the kernel gives its
//! space (SOSP 1991, section 4).
#![tactic(auto)]

mod calls;
mod going;
mod level;
mod notice;
mod opening;
mod package;
mod ranks;
mod settling;
mod step;

pub use package::FastThreads;
