//! What a user level owes to the history, so that each run of the machine is legal by its rules.
#![tactic(auto)]
