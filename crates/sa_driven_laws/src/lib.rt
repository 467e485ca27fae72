//! The driven user level keeps the rules of any user level in every run, whatever it is told to do, and at whatever event.
#![tactic(auto)]

pub mod laws;
