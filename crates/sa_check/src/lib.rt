//! The checker of a given trace: whether it is right for its workload, or else the first event and rule that break. What is due at the
//! closing of an event, wants, aims and lines, and the opening, are functions that give or decide what a definition says of a moment.
#![tactic(auto)]

mod aims;
mod begin;
mod choice;
mod closing_records;
mod end;
mod event;
mod findings;
mod judge;
mod line;
mod lines;
mod opening;
mod places;
mod prompt;
mod quiet;
mod records;
mod shares;
mod trace;
mod verdict;
mod wants;

pub use event::{TraceEvent, is_with};
pub use line::{verdict_line, word};
use lines::are_lines_due;
use opening::is_numbered;
use prompt::{is_told_in_time, wants_nothing};
use shares::{covers_shares, first_space, shares_at};
pub use trace::check;
pub use verdict::Verdict;
use wants::are_wants_due;
