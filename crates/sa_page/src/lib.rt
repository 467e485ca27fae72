//! The text of a page that shows a trace event by event, beside its workload: one HTML file.
#![tactic(auto)]

mod advance;
mod ended;
mod event;
mod failing;
pub mod laws;
mod lines;
mod page;
mod said;
mod shell;
mod shown;

pub use page::{MAX_EVENTS, PageError, page_limits_are_these, page_of};
