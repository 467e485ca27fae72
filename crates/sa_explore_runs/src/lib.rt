//! The runs of a workload as a search goes through them, and what a search has done, over any user level that looks at no number: each turn that
//! is tried keeps it so.
#![tactic(auto)]
