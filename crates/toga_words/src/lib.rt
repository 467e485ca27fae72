//! The words of `togaslate`: what it is asked for, or what it says in place of that.
#![tactic(auto)]

mod arguments;
mod commands;
mod errors;
mod files;
mod read;
mod refusal;
mod request;
mod run;
mod traces;
mod value;

pub use read::{Said, read_words};
pub use refusal::{Refusal, Setting};
pub use request::Request;
