//! Over any user level, each session is a legal run by its rules, and ends as the machine says: a run between whose moves the value of
//! a space may become one that is alike, as a reply makes it.
#![tactic(auto)]
