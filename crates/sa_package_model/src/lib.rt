//! FastThreads as a value: its contexts, its opening, what each of its calls does as a function, how the package and the contexts
//! of its space's activations stand beside one another, and the theorem that every call keeps it so.
#![tactic(auto)]

mod context;
pub mod laws;
mod opening;
mod package;
mod sections;

pub use context::{Context, ContextState};
pub use package::Package;
pub use sections::Sections;
