//! What is read of a history at a moment, in code: between any two records of a trace it is what the definitions read; of each space the
//! best of its ready threads too, in constant time.
#![tactic(auto)]

mod board;
mod entry;
mod level;
mod moment;
mod ranked;
mod row;
mod start;

use entry::has_entry;
pub use moment::Moment;
use ranked::RankedReady;
pub use start::Start;
