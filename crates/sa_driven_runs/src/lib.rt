//! Each session with the driven user level is a legal run by the rules of any user level, whatever replies are put.
#![tactic(auto)]

pub mod laws;
