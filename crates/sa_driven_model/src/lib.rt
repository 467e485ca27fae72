//! A user level that does what it is told by replies from outside, as a value: the replies, which of them can be done, what each call
//! does as a function, and the theorem that every call keeps the value and the contexts as they must stand.
#![tactic(auto)]

mod context;
mod opening;
mod reply;
mod space;
mod threads;

pub use context::DrivenContext;
pub use reply::Reply;
pub use space::DrivenSpace;
pub use threads::ThreadSet;
