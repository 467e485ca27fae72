//! Lemmas of histories: legality at each place and along them, events after others, a flat trace and its history, the first break,
//! and the sizes of what is read. The theorem that runs are legal stands on them, and so does what a legal run promises.
#![tactic(auto)]
