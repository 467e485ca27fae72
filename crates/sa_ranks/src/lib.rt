//! What is legal for a package with thread priorities: ranks, pairs, and the rules that it brings.
#![tactic(auto)]

pub mod laws;
