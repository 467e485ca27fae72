//! Over any user level that meets what it owes, each run of the machine is a legal run by its user level's rules, and
//! ends as the machine says.
#![tactic(auto)]
