//! General lemmas that several crates need and std has not: lists and functions that are updated at one
//! place, reads and searches of lists, what a list contains, what is appended piece by piece, choices by a
//! test, options, results, and texts of words and lines. There is no code here.
#![tactic(auto)]
