//! What a legal run promises its reader, whatever made it: the headline, what follows at each moment, and the readings in plain
//! words. The theorems are over any user level's rules, with named needs; the
//! functions here say them of FastThreads and of the package with thread priorities. Short histories are examples: a legal one, and for
//! each rule one that breaks it first.
#![tactic(auto)]

mod consequences;
mod examples;
mod headline;
mod laws;
mod needs;
mod ranks;
mod readings;

pub use consequences::{
    claims_have_one_sharing, closings_add_no_line, closings_add_nothing, demands_cover_loads,
    legal_runs_announce_demand, legal_runs_keep_lives_apart, legal_runs_lock_lists_once,
    low_lines_are_aimed,
};
pub use examples::{
    ranked_races_can_be_broken, ranks_can_be_broken, rules_can_be_broken, smallest_run_is_legal,
};
pub use headline::{
    legal_runs_cover_shares, legal_runs_ready_no_holder, legal_runs_tell_at_most_once,
    legal_runs_tell_in_time, legal_runs_use_fresh_numbers,
};
pub use laws::{
    histories_are_traces, laws_hold_along_histories, legal_runs_number_ios, legal_traces_are_read,
    traces_are_histories, traces_break_once,
};
pub use needs::packages_meet_needs;
pub use ranks::legal_runs_outrank_nobody;
pub use readings::{
    counts_are_read, holdings_are_read, ios_are_read, lines_are_read, lives_have_spaces,
    loads_are_read, machines_are_read, marks_are_read, own_events_are_read, pages_are_read,
    ready_threads_are_read, steps_are_read, taken_lives_are_read,
};
