//! FastThreads with thread priorities as a value: ranks and pairs, the mark of a context that has a pair to serve, what each
//! call does as a function, and the theorem that every call keeps the package and the contexts as they must stand.
#![tactic(auto)]

mod context;
pub mod laws;
mod pair;

pub use context::PrioContext;
pub use pair::Outranked;
