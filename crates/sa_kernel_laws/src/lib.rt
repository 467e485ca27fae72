//! The kernel keeps its laws along each history, whatever the user level does. No function here does anything: each contract
//! is a law of the kernel's pure machine and of what is read off its history.
#![tactic(auto)]

pub mod facts;
mod laws;
mod runs;

pub use laws::{
    aims_cover_shares, blocks_give_upcalls, fetches_keep, interrupts_are_next, lines_have_causes,
    opening_begins, opening_is_lawful, quiet_events_keep, turns_add_their_events, turns_have_parts,
    turns_keep, turns_run_where_owned, turns_tell_in_time, turns_tell_once, upcalls_tell_all,
    wants_have_causes,
};
pub use runs::{a_short_run_can_be_made, calls_go_on, quiet_events_go_on, runs_are_lawful};
