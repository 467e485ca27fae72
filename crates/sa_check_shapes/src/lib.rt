//! What the records of an event say by themselves, with no state beside them: their kinds, the parts of their list, and
//! the shapes of turns. Each function decides, or gives, what a definition of `sa_laws` says.
#![tactic(auto)]

mod behind;
mod due;
mod kinds;
mod parts;
mod turns;

pub use behind::{
    UpcallPage, begins_as_interrupt, begins_with_line, begins_with_up, follows_block, goes_to,
    is_leave, stops_and_goes,
};
pub use due::{Aimed, are_aims, are_lines, are_told, are_wants, has_aims, is_told};
pub use kinds::{is_back, is_free, is_of_closing, is_of_locks, is_other_line, is_step, is_up};
pub use parts::{
    before_aims, before_wants, closing_part, front_part, last_lines, leave_run, others_of,
    own_part, parted,
};
pub use turns::{
    are_of_locks, are_raising, are_told_alone, has_up, is_block, is_closing, is_fetch_or_nothing,
    is_ins_of, is_interrupt, is_out, is_over, is_passage, stands_alone,
};
