//! What decides how a machine with FastThreads or with thread priorities goes on, whichever numbers are handed out: its outlook, and
//! nothing else.
#![tactic(auto)]

pub mod laws;
